// The place of a fault: a line, and the lines of its race before it.

use crate::rest::RestOfInput;
use he_words::{LINE_END, TOKEN_END, Version, Word};
use memchr::memchr;

// The line with which a race ends.
const LAST_LINE: &[u8] = b"end";

// A part of a line: from one byte up to another.
#[derive(Clone, Copy)]
pub(crate) struct Span {
    pub(crate) start: usize,
    pub(crate) end: usize,
}

// The part of a line that is wrong.
#[derive(Clone, Copy)]
pub(crate) enum WrongPart {
    // All of it.
    Line,
    // The token at this place, counted from 0.
    Token(usize),
    // All from this byte on.
    From(usize),
}

impl WrongPart {
    pub(crate) fn span(self, line: &[u8]) -> Span {
        match self {
            WrongPart::Line => Span {
                start: 0,
                end: line.len(),
            },
            WrongPart::Token(at) => token_span(line, at),
            WrongPart::From(start) => Span {
                start,
                end: line.len(),
            },
        }
    }
}

// A line, and the whole lines of its race before it. `first` is the number of the first of these lines.
#[derive(Clone, Copy)]
pub(crate) struct Place<'t> {
    pub(crate) line: &'t [u8],
    pub(crate) before: &'t [u8],
    pub(crate) first: u64,
}

// The line with this number, which must be in the part. The part begins with a race, and its lines before this one
// must be right, so that each line `end` ends a race.
pub(crate) fn find_line(part: RestOfInput<'_>, number: u64) -> Place<'_> {
    let mut rest = part.text;
    let mut race = part.text;
    let mut first = part.lines.saturating_add(1);
    for current in first..number {
        if rest.is_empty() {
            break;
        }
        let (line, behind) = cut_line(rest);
        rest = behind;
        if line == LAST_LINE {
            race = behind;
            first = current + 1;
        }
    }
    let before = race.len().saturating_sub(rest.len());
    Place {
        line: cut_line(rest).0,
        before: &race[..before],
        first,
    }
}

// The bytes up to the first line end, and those after it.
fn cut_line(text: &[u8]) -> (&[u8], &[u8]) {
    match memchr(LINE_END, text) {
        Some(at) => (&text[..at], &text[at + 1..]),
        None => (text, b"".as_slice()),
    }
}

impl Place<'_> {
    // The number of the line `at` lines after the race's first one.
    pub(crate) fn number(self, at: usize) -> u64 {
        self.first.saturating_add(at as u64)
    }

    // Whether the race has version 2.
    pub(crate) fn is_newer(self) -> bool {
        for line in self.before.split(|byte| *byte == LINE_END) {
            if line == Version::Two.header() {
                return true;
            }
        }
        false
    }
}

// The token at a place of the line, counted from 0; empty if there is none.
pub(crate) fn token(line: &[u8], at: usize) -> &[u8] {
    line.split(|byte| *byte == TOKEN_END)
        .nth(at)
        .unwrap_or(b"".as_slice())
}

// The word that begins the line.
pub(crate) fn first_word(line: &[u8]) -> Option<Word> {
    Word::read(token(line, 0))
}

// The number of tokens of a line.
pub(crate) fn token_count(line: &[u8]) -> usize {
    line.iter().filter(|byte| **byte == TOKEN_END).count() + 1
}

// The span of the token at a place of the line; the end of the line if there is none.
pub(crate) fn token_span(line: &[u8], at: usize) -> Span {
    let mut left = at;
    let mut start = 0;
    for (end, byte) in line.iter().enumerate() {
        if *byte == TOKEN_END {
            if left == 0 {
                return Span { start, end };
            }
            left -= 1;
            start = end + 1;
        }
    }
    let end = line.len();
    match left {
        0 => Span { start, end },
        _ => Span { start: end, end },
    }
}
