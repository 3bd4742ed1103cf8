// The first lines of a story: the race, how it ended, how much time it lost, and where its time went.

ghost use Rattle.std.specs.Prelude.{◌≡◌, ◌++◌, IfOk, OnOk};
ghost use Rattle.std.specs.List.{flat_map};
ghost use Rattle.he_print.specs.Parts.{fact_of};
ghost use Rattle.he_story.specs.Lines.{told};
ghost use Rattle.he_story.specs.Story.{ending_facts, file_facts, heading_facts, is_named, name_of, number_facts, outcome_facts, place_facts, race_facts, result_facts};

use crate::story::Story;
use he_addr::Memory;
use he_course::{Course, Ended};
use he_plan::Outcome3;
use he_print::{Part, push_parts};
use he_record::Record;
use he_statements::Said;
use he_statements::words::{noun, version_of};
use std::alloc::Allocator;

impl<A: Allocator> Story<A> {
    pub(crate) fn tell_ending(&mut self, ended: Ended) -> Result<(), Memory>
        ensures { OnOk result (told self.new ≡ told self.old ++ ending_facts ended) }
    {
        let attempts = Part::Number(ended.attempts as u64);
        let noun = Part::Words(noun(ended.attempts, b"attempt", b"attempts"));
        match ended.result {
            Outcome3::Won(_, tick) => match ended.winner {
                Some(line) => {
                    let version = Part::Words(version_of(line.ip.family()));
                    let parts = [version, Part::Ip(line.ip), Part::Number(tick)];
                    self.tell(Said::Connected, &parts)
                }
                None => Ok(()),
            },
            Outcome3::Exhausted(tick) => {
                self.tell(Said::NothingLeft, &[Part::Number(tick), attempts, noun])
            }
            Outcome3::Limit(tick) => {
                self.tell(Said::LimitReached, &[Part::Number(tick), attempts, noun])
            }
        }
    }

    // The race, and how it ended.
    fn tell_race<B: Allocator, C: Allocator>(
        &mut self,
        file: Option<&str>,
        course: &Course<B>,
        recorded: &Record<'_, C>,
    ) -> Result<(), Memory>
        ensures { OnOk result (told self.new ≡ told self.old
            ++ race_facts recorded.now (name_of file.entry) course.now) }
    {
        self.tell_named(recorded)?;
        self.tell_place(is_named(recorded), file, course.number, course.line)?;
        self.tell_outcome(course, recorded)
    }

    // The recorded client's own result, and how the race ended.
    fn tell_outcome<B: Allocator, C: Allocator>(
        &mut self,
        course: &Course<B>,
        recorded: &Record<'_, C>,
    ) -> Result<(), Memory>
        ensures { OnOk result (told self.new ≡ told self.old ++ result_facts recorded.now course.now) }
    {
        self.tell_client(recorded.end())?;
        self.tell_result(recorded, course.transcript.attempts(), course.ended)
    }

    // The place of a race: after its record's names in brackets, if a file is named.
    fn tell_place(
        &mut self,
        is_named: bool,
        file: Option<&str>,
        number: usize,
        line: u64,
    ) -> Result<(), Memory>
        ensures { OnOk result (told self.new ≡ told self.old
            ++ place_facts is_named (name_of file.entry) number line) }
    {
        match file {
            None if is_named => push_parts(&[Part::Words(b": ")], &mut self.parts),
            None => self.tell_number((b"", b" (line ", b"): "), number, line),
            Some(name) if is_named => {
                self.tell_file(b" (", name)?;
                self.tell_number((b", ", b", line ", b"): "), number, line)
            }
            Some(name) => {
                self.tell_file(b"", name)?;
                self.tell_number((b", ", b" (line ", b"): "), number, line)
            }
        }
    }

    // The name of the file, after these words.
    fn tell_file(&mut self, before: &'static [u8], name: &str) -> Result<(), Memory>
        ensures { OnOk result (told self.new ≡ told self.old ++ file_facts name.now) }
    {
        push_parts(&[Part::Says(Said::File, before)], &mut self.parts)?;
        self.tell_bytes(name.as_bytes())
    }

    // The number of the race and its line, with the words before, between and after them.
    fn tell_number(&mut self, words: PlaceWords, number: usize, line: u64) -> Result<(), Memory>
        ensures { OnOk result (told self.new ≡ told self.old ++ number_facts number line) }
    {
        let (before, between, after) = words;
        push_parts(&[Part::Words(before)], &mut self.parts)?;
        let number = Part::Number(number as u64);
        let (between, after) = (Part::Words(between), Part::Words(after));
        self.tell(Said::Race, &[number, between, Part::Number(line), after])
    }
}

impl<A: Allocator + Copy> Story<A> {
    // A blank line comes first, unless it is the first race.
    pub(crate) fn tell_heading<B: Allocator, C: Allocator>(
        &mut self,
        alloc: A,
        file: Option<&str>,
        course: &Course<B>,
        recorded: &Record<'_, C>,
    ) -> Result<(), Memory>
        ensures { OnOk result (told self.new ≡ told self.old
            ++ heading_facts recorded.now (name_of file.entry) course.now) }
    {
        let gap = Part::Words(noun(course.number, b"", b"\n"));
        push_parts(&[gap], &mut self.parts)?;
        self.tell_race(file, course, recorded)?;
        self.tell_verdict(alloc, course, recorded)
    }
}

// The words before the number of a race, between it and its line, and after that.
type PlaceWords = (&'static [u8], &'static [u8], &'static [u8]);

// Whether the record says for whom, where or when the race was recorded.
fn is_named<A: Allocator>(recorded: &Record<'_, A>) -> bool
    ensures { result ≡ is_named recorded.now }
{
    match (recorded.to(), recorded.from(), recorded.at()) {
        (None, None, None) => false,
        _ => true,
    }
}

/// The race and how it ended, in the words of a story, for other printers: with the host, the client and the time of
/// its record, and its place in the file of this name, if there is one. The bytes of the host and the name are
/// unescaped.
///
/// # Errors
///
/// `Memory` if an allocation was refused.
pub fn heading_parts<A: Allocator, B: Allocator, C: Allocator>(
    alloc: A,
    file: Option<&str>,
    course: &Course<B>,
    recorded: &Record<'_, C>,
) -> Result<Vec<Part<Said>, A>, Memory>
    ensures { IfOk result (λ parts. flat_map fact_of parts.items
        ≡ race_facts recorded.now (name_of file.entry) course.now) }
{
    let mut story = Story {
        parts: Vec::new(alloc),
    };
    story.tell_race(file, course, recorded)?;
    let Story { parts } = story;
    Ok(parts)
}

/// As [`heading_parts`], by its number and its line alone: no byte of it comes from the race's text.
///
/// # Errors
///
/// `Memory` if an allocation was refused.
pub fn outcome_parts<A: Allocator, B: Allocator, C: Allocator>(
    alloc: A,
    course: &Course<B>,
    recorded: &Record<'_, C>,
) -> Result<Vec<Part<Said>, A>, Memory>
    ensures { IfOk result (λ parts. flat_map fact_of parts.items ≡ outcome_facts recorded.now course.now) }
{
    let mut story = Story {
        parts: Vec::new(alloc),
    };
    story.tell_place(false, None, course.number, course.line)?;
    story.tell_outcome(course, recorded)?;
    let Story { parts } = story;
    Ok(parts)
}
