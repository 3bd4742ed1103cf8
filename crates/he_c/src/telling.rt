// The texts of an input's races.

ghost use Rattle.std.specs.Prelude.{◌≡◌, ◌++◌, IfOk, OnOk};
ghost use Rattle.he_write.specs.Written.{transcript_text};
ghost use Rattle.he_c.specs.Outputs.{IsExplanationText, IsOrderText, IsOutput, IsTextOf, IsTranscriptText};
ghost use Rattle.he_c.specs.Telling.{WritesText};

use he_addr::Memory;
use he_course::Course;
use he_inputs::{Ending, InputFault, RaceReader, RaceReaderFault};
use he_json::write_explanation_json;
use he_plan::{Transcript, transcript_of};
use he_record::Record;
use he_timeline::Timeline;
use he_write::{write_order, write_transcript};
use std::alloc::Global;

// The kind of text for each race.
#[derive(Clone, Copy)]
pub(crate) enum Content {
    Transcript,
    Order,
    Explanation,
}

// The place of a race in its input.
#[derive(Clone, Copy)]
pub(crate) struct RacePlace {
    // Counted from 1.
    pub(crate) number: usize,
    // The line at which it begins, counted from 1.
    pub(crate) line: u64,
}

// The text for an input, and the input's fault.
#[derive(Drop)]
pub(crate) struct Output {
    pub(crate) text: Vec<u8>,
    pub(crate) fault: Option<InputFault>,
}

// The texts of this kind for the input's races, up to its first fault.
pub(crate) fn output_of(alloc: Global, input: &[u8], content: Content) -> Result<Output, Memory>
    ensures { IfOk result (λ output. IsOutput (IsTextOf content) input.now output.text.items output.fault) }
{
    let mut text = Vec::new(alloc);
    let mut reader = RaceReader::START;
    loop {
        let at = RacePlace {
            number: reader.races + 1,
            line: reader.lines + 1,
        };
        match reader.next_recorded(alloc, input, Ending::Whole) {
            Ok(Some(found)) => {
                let (recorded, race) = found;
                content.write(alloc, &race, &recorded, at, &mut text)?;
            }
            Ok(None) => return Ok(Output { text, fault: None }),
            Err(RaceReaderFault::Input(fault)) => {
                return Ok(Output {
                    text,
                    fault: Some(fault),
                });
            }
            Err(RaceReaderFault::Memory) => return Err(Memory),
        }
    }
}

impl Content {
    // Appends the text for the race, which has this record and this place in the input.
    fn write(
        self,
        alloc: Global,
        race: &Timeline,
        recorded: &Record<'_>,
        at: RacePlace,
        text: &mut Vec<u8>,
    ) -> Result<(), Memory>
        ensures { OnOk result (WritesText (λ told. IsTextOf self at.number at.line told recorded.now race.now)
            text.old.items text.new.items) }
    {
        match self {
            Content::Transcript => append_transcript(alloc, race, text),
            Content::Order => append_order(alloc, race, text),
            Content::Explanation => append_explanation(alloc, race, recorded, at, text),
        }
    }
}

fn append_transcript(alloc: Global, race: &Timeline, text: &mut Vec<u8>) -> Result<(), Memory>
    ensures { OnOk result (WritesText (λ told. IsTranscriptText told race.now) text.old.items text.new.items) }
{
    let transcript = transcript_of(alloc, race)?;
    append_text(&transcript, text)
}

fn append_text(transcript: &Transcript, text: &mut Vec<u8>) -> Result<(), Memory>
    ensures { OnOk result (text.new.items ≡ text.old.items ++ transcript_text transcript.now) }
{
    write_transcript(transcript, text)
}

fn append_order(alloc: Global, race: &Timeline, text: &mut Vec<u8>) -> Result<(), Memory>
    ensures { OnOk result (WritesText (λ told. IsOrderText told race.now) text.old.items text.new.items) }
{
    write_order(alloc, race, text)
}

fn append_explanation(
    alloc: Global,
    race: &Timeline,
    recorded: &Record<'_>,
    at: RacePlace,
    text: &mut Vec<u8>,
) -> Result<(), Memory>
    ensures { OnOk result (WritesText (λ told. IsExplanationText at.number at.line told recorded.now race.now)
        text.old.items text.new.items) }
{
    let untried = recorded.untried(alloc)?;
    let course = Course::recorded(alloc, race, &untried, at.number, at.line)?;
    write_explanation_json(alloc, &course, recorded, None, text)
}
