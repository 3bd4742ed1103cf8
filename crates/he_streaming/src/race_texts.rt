//! The text of a race: the table of printers.
ghost use Rattle.std.specs.Prelude.{◌≡◌, ◌++◌, None, OnOk};
ghost use Rattle.he_write.specs.Written.{transcript_text};
ghost use Rattle.he_json.specs.Documents.{name_of, spot_of};
ghost use Rattle.he_streaming.specs.Output.{IsOfCourse, IsOrderObject, IsPrinted, IsTextOf, IsTranscriptObject, IsTranscriptText, has_place};
ghost use Rattle.he_streaming.specs.Rounds.{IsAsked, WritesText};

use crate::limits::TEXT_ROOM;
use he_addr::Memory;
use he_course::Course;
use he_draw::{Look, Screen, write_picture, write_section, write_svg};
use he_json::{Place, write_explanation_json, write_order_json, write_transcript_json};
use he_plan::{Transcript, sorted_attributes, transcript_of};
use he_record::Record;
use he_story::write_story;
use he_timeline::{Changes, Timeline};
use he_write::{write_order, write_transcript};
use std::alloc::Allocator;

/// The content of the text of a race.
#[derive(Clone, Copy, Debug, PartialEq, Eq)]
pub enum Content {
    /// The events of the race ([`write_transcript`]), or these as a JSON object ([`write_transcript_json`]).
    Transcript,
    TranscriptJson,
    /// The order in which its addresses are tried (RFC 6724 section 6): its usable addresses, whatever the ticks of
    /// the answers, each with the source that the host uses for it ([`write_order`]). Or that as a JSON object
    /// ([`write_order_json`]).
    Order,
    OrderJson,
    /// An explanation of the race, by one of the printers of its course.
    Course(Printer),
}

/// A printer of the course of a race. Each prints it with its number in the input and the line at which it begins, and
/// with what its record says.
#[derive(Clone, Copy, Debug, PartialEq, Eq)]
pub enum Printer {
    /// A story, for a person to read ([`write_story`]).
    Story,
    /// A JSON object on one line ([`write_explanation_json`]).
    Json,
    /// A picture `width` columns wide ([`write_picture`]).
    Picture { look: Look, width: u16 },
    /// The picture as an SVG image ([`write_svg`]).
    Image,
    /// A part of a page, for the text of this place among those of the page ([`write_section`]).
    Section { text: usize },
}

impl Content {
    /// Whether the text has the race's place in the input.
    pub fn has_place(self) -> bool
        ensures { result ≡ has_place self }
    {
        !matches!(self, Content::Transcript | Content::Order)
    }
}

/// The place of a race in its input.
#[derive(Clone, Copy)]
pub struct RacePlace {
    /// Its number, counted from 1.
    pub number: usize,
    /// The line at which it begins, counted from 1.
    pub line: u64,
}

/// The text that is asked for of each race of an input.
#[derive(Clone, Copy)]
pub struct TextRequest<'f> {
    /// The content of the text.
    pub content: Content,
    /// The settings that replace the race's own.
    pub changes: Changes,
    /// The name of the input's file for JSON objects and the headings of races, if it has one.
    pub file: Option<&'f str>,
}

impl TextRequest<'static> {
    /// A request for this content, of each race with its own settings, in an input without a name.
    pub fn of(content: Content) -> TextRequest<'static>
        ensures { result ≡ record {
          content = content;
          changes = record { resolution = None; attempt = None; count = None; limit = None; floor = None };
          file = None;
        } }
    {
        TextRequest {
            content,
            changes: Changes::none(),
            file: None,
        }
    }
}

impl TextRequest<'_> {
    /// Appends the text that is asked for of the race, which has this record and this place in the input. Transcripts
    /// and orders don't depend on the record. Temporary memory comes from `alloc`.
    ///
    /// # Errors
    ///
    /// `Memory` if an allocation was refused. The text may then have a first part of it.
    pub fn write<A: Allocator + Copy, T: Allocator + Copy>(
        &self,
        alloc: A,
        race: Timeline<A>,
        recorded: &Record<'_, A>,
        at: RacePlace,
        text: &mut Vec<u8, T>,
    ) -> Result<(), Memory>
        ensures { OnOk result (WritesText (λ told. IsAsked self.now at.number at.line told recorded.now race)
            text.old.items text.new.items) }
    {
        let timeline = race.with_changes(self.changes);
        let place = Place {
            file: self.file,
            number: at.number,
            line: at.line,
        };
        self.content.append(alloc, &timeline, recorded, place, text)
    }
}

impl Content {
    fn append<A: Allocator + Copy, T: Allocator + Copy>(
        self,
        alloc: A,
        timeline: &Timeline<A>,
        recorded: &Record<'_, A>,
        place: Place<'_>,
        text: &mut Vec<u8, T>,
    ) -> Result<(), Memory>
        ensures { OnOk result (WritesText (λ told. IsTextOf self (spot_of place.entry) told recorded.now timeline.now)
            text.old.items text.new.items) }
    {
        match self {
            Content::Transcript => append_transcript(alloc, timeline, text),
            _ => self.append_own(alloc, timeline, recorded, place, text),
        }
    }

    // Appends a text that is made in the arena first.
    fn append_own<A: Allocator + Copy, T: Allocator + Copy>(
        self,
        alloc: A,
        timeline: &Timeline<A>,
        recorded: &Record<'_, A>,
        place: Place<'_>,
        text: &mut Vec<u8, T>,
    ) -> Result<(), Memory>
        ensures { OnOk result (WritesText (λ told. IsTextOf self (spot_of place.entry) told recorded.now timeline.now)
            text.old.items text.new.items) }
    {
        let mut own = Vec::with_capacity(alloc, TEXT_ROOM)?;
        self.write(alloc, timeline, recorded, place, &mut own)?;
        text.extend_from_slice(&own)
    }

    fn write<A: Allocator + Copy>(
        self,
        alloc: A,
        timeline: &Timeline<A>,
        recorded: &Record<'_, A>,
        place: Place<'_>,
        text: &mut Vec<u8, A>,
    ) -> Result<(), Memory>
        ensures { OnOk result (WritesText (λ told. IsTextOf self (spot_of place.entry) told recorded.now timeline.now)
            text.old.items text.new.items) }
    {
        match self {
            Content::Transcript => write_transcript(&transcript_of(alloc, timeline)?, text),
            Content::TranscriptJson => write_transcript_object(alloc, timeline, place, text),
            Content::Order => write_order(alloc, timeline, text),
            Content::OrderJson => write_order_object(alloc, timeline, place, text),
            Content::Course(printer) => {
                printer.write_course(alloc, timeline, recorded, place, text)
            }
        }
    }
}

fn append_transcript<A: Allocator + Copy, T: Allocator + Copy>(
    alloc: A,
    timeline: &Timeline<A>,
    text: &mut Vec<u8, T>,
) -> Result<(), Memory>
    ensures { OnOk result (WritesText (λ told. IsTranscriptText told timeline.now) text.old.items text.new.items) }
{
    let transcript = transcript_of(alloc, timeline)?;
    append_text(&transcript, text)
}

fn append_text<A: Allocator, T: Allocator + Copy>(
    transcript: &Transcript<A>,
    text: &mut Vec<u8, T>,
) -> Result<(), Memory>
    ensures { OnOk result (text.new.items ≡ text.old.items ++ transcript_text transcript.now) }
{
    write_transcript(transcript, text)
}

fn write_transcript_object<A: Allocator + Copy>(
    alloc: A,
    timeline: &Timeline<A>,
    place: Place<'_>,
    text: &mut Vec<u8, A>,
) -> Result<(), Memory>
    ensures { OnOk result (WritesText (λ told. IsTranscriptObject (spot_of place.entry) told timeline.now)
        text.old.items text.new.items) }
{
    let transcript = transcript_of(alloc, timeline)?;
    write_transcript_json(alloc, place, &transcript, text)
}

fn write_order_object<A: Allocator + Copy>(
    alloc: A,
    timeline: &Timeline<A>,
    place: Place<'_>,
    text: &mut Vec<u8, A>,
) -> Result<(), Memory>
    ensures { OnOk result (WritesText (λ told. IsOrderObject (spot_of place.entry) told timeline.now) text.old.items
        text.new.items) }
{
    let sorted = sorted_attributes(alloc, timeline)?;
    write_order_json(alloc, place, &sorted, text)
}

impl Printer {
    // Writes the course of the race.
    fn write_course<A: Allocator + Copy>(
        self,
        alloc: A,
        timeline: &Timeline<A>,
        recorded: &Record<'_, A>,
        place: Place<'_>,
        text: &mut Vec<u8, A>,
    ) -> Result<(), Memory>
        ensures { OnOk result (WritesText (λ told. IsOfCourse self (spot_of place.entry) told recorded.now
            timeline.now) text.old.items text.new.items) }
    {
        let untried = recorded.untried(alloc)?;
        let course = Course::recorded(alloc, timeline, &untried, place.number, place.line)?;
        self.write(alloc, &course, recorded, place.file, text)
    }

    fn write<A: Allocator + Copy>(
        self,
        alloc: A,
        course: &Course<A>,
        recorded: &Record<'_, A>,
        file: Option<&str>,
        text: &mut Vec<u8, A>,
    ) -> Result<(), Memory>
        ensures { OnOk result (WritesText (IsPrinted self (name_of file.entry) recorded.now course.now)
            text.old.items text.new.items) }
    {
        match self {
            Printer::Story => write_story(alloc, file, course, recorded, text),
            Printer::Json => write_explanation_json(alloc, course, recorded, file, text),
            Printer::Picture { look, width } => {
                let screen = Screen { look, width };
                write_picture(file, course, recorded, screen, text)
            }
            Printer::Image => write_svg(course, recorded, text),
            Printer::Section { text: place } => {
                write_section(course, recorded, place, file, text)
            }
        }
    }
}
