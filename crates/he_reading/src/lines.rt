// The lines of a text, one by one.

ghost use Rattle.std.specs.Prelude.{◌≡◌, ◌<◌, ◌+◌, ◌^◌, ◌∷◌, Ok, Err, length, MatchResult};
ghost use Rattle.he_reading.specs.Left.{line_bytes, lines_left, HasRoom};
ghost use Rattle.he_reading.specs.Parts.{lines_of};
ghost use Rattle.he_reading.specs.Reading.{ended_by, wholeness};

use crate::parts::{TextLine, find};
use he_words::limits::MAX_LINE;
use he_words::{LINE_END, TextKind};

// The rest of a text from the start of a line, and the number of that line.
#[derive(Clone, Copy)]
pub(crate) struct Lines<'t> {
    rest: &'t [u8],
    number: u64,
}

impl<'t> Lines<'t> {
    pub(crate) fn new(text: &'t [u8]) -> Lines<'t>
        ensures rest { result.rest ≡ text.entry }
        ensures number { result.number ≡ 1 }
        ensures room { HasRoom result }
    {
        Lines {
            rest: text,
            number: 1,
        }
    }

    // The number of bytes left.
    pub(crate) fn len(&self) -> usize
        ensures { result ≡ length self.now.rest.now }
    {
        self.rest.len()
    }

    // The number of the next line.
    pub(crate) fn number(&self) -> u64
        ensures { result ≡ self.now.number }
    {
        self.number
    }

    // The next line, and the text after it; or why it is not a line.
    #[inline(always)]
    pub(crate) fn next_line(&self) -> Result<(TextLine<'t>, &'t [u8]), TextKind>
        ensures parts { MatchResult result (λ x. lines_left self.now ≡ line_bytes x.0 ∷ lines_of x.1.now)
            (λ _. Unit {0}) }
        ensures shorter { MatchResult result (λ x. length x.1.now < length self.now.rest.now) (λ _. Unit {0}) }
        ensures whole { MatchResult result (λ _. wholeness (lines_left self.now) ≡ Ok tt)
            (λ kind. wholeness (lines_left self.now) ≡ Err kind) }
    {
        // A line end after the longest line is not searched for.
        let near = self.rest.len().min(MAX_LINE + 1);
        match find(self.rest, near, LINE_END) {
            Some(at) => Ok((TextLine::new(self.rest, at), &self.rest[at + 1..])),
            None if self.rest.len() > MAX_LINE => Err(TextKind::TooMany),
            None => Err(TextKind::Unfinished),
        }
    }

    // Moves to the text after a line.
    pub(crate) fn pass(&mut self, rest: &'t [u8])
        requires room { HasRoom self.old }
        requires shorter { length rest.now < length self.old.rest.now }
        ensures rest { self.new.rest ≡ rest.entry }
        ensures number { self.new.number ≡ self.old.number + 1 }
        ensures room { HasRoom self.new }
    {
        self.rest = rest;
        self.number += 1;
    }
}
