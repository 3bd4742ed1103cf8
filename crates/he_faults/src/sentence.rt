// Sentences for faulty lines.

use std::fmt;

// A number of a line: its name, its minimum and maximum, and its unit after a space.
#[derive(Clone, Copy)]
pub(crate) struct Numbers {
    pub(crate) what: &'static str,
    pub(crate) least: u64,
    pub(crate) most: u64,
    pub(crate) unit: &'static str,
}

// The form expected, and the text found instead.
#[derive(Clone, Copy)]
pub(crate) enum Sentence {
    // This sentence.
    Plain(&'static str),
    // No number.
    NoNumber(Numbers),
    // A number with a fraction.
    Fraction(Numbers),
    // A number out of its range.
    OutOfRange(Numbers),
    // A setting in one word, as `attempt=100`: its name and its number.
    Joined(&'static str, u64),
    // An earlier line, with this number, has this already.
    Above(&'static str, u64),
    // At most this number is allowed, with the words before and after it.
    Most(&'static str, u64, &'static str),
    // A race may have at most this number of lines that begin with the word.
    MostLines(u64, &'static str),
    // A line with the first word comes after one with the second.
    Order(&'static str, &'static str),
    // A record may have at most this number of lines of the word.
    MostRecords(u64, &'static str),
    // A record line with the first word comes after one with the second.
    RecordOrder(&'static str, &'static str),
    // The pause before this one ends at this tick.
    PauseAbove(u64),
    // A word or a setting of version 2 in a race of version 1.
    Newer(&'static str),
    // The floor after failures is above the attempt delay.
    HighFloor(HighFloor),
    // Two rows of a policy table have one precedence.
    Shared(SharedPrecedence),
}

// The floor after failures, the number of its line, and the attempt delay.
#[derive(Clone, Copy)]
pub(crate) struct HighFloor {
    pub(crate) floor: u64,
    pub(crate) line: u64,
    pub(crate) attempt: u64,
}

// Two rows of a policy table, counted from 0, the number of the line of row 0, and the precedence of both.
#[derive(Clone, Copy)]
pub(crate) struct SharedPrecedence {
    pub(crate) row: usize,
    pub(crate) later: usize,
    pub(crate) row_line: u64,
    pub(crate) later_line: u64,
    pub(crate) precedence: u64,
}

impl fmt::Display for Sentence {
    fn fmt<W: fmt::Write>(&self, f: &mut fmt::Formatter<W>) -> fmt::Result {
        match self {
            Sentence::Plain(sentence) => f.write_str(sentence),
            Sentence::NoNumber(numbers) => numbers.write_digits(f),
            Sentence::Fraction(numbers) => numbers.write_whole(f),
            Sentence::OutOfRange(numbers) => numbers.write_range(f),
            Sentence::HighFloor(high) => fmt::Display::fmt(high, f),
            Sentence::Shared(shared) => fmt::Display::fmt(shared, f),
            Sentence::Joined(name, number) => write!(
                f,
                "write a space before the number: `set {name} {number}`"
            ),
            Sentence::Above(what, line) => write!(f, "{what}, on line {line}"),
            Sentence::Most(before, most, after) => write!(f, "{before} {most} {after}"),
            Sentence::MostLines(most, word) => write!(f, "a race has at most {most} {word} lines"),
            Sentence::Order(word, last) => write!(
                f,
                "the `{word}` lines of a race come before its `{last}` lines"
            ),
            Sentence::MostRecords(most, word) => {
                write!(f, "a race has at most {most} record {word} lines")
            }
            Sentence::RecordOrder(word, last) => write!(
                f,
                "the `record {word}` lines of a race come before its `record {last}` lines"
            ),
            Sentence::PauseAbove(end) => write!(
                f,
                "the pause above lasts until tick {end}, and this one begins before"
            ),
            Sentence::Newer(word) => write!(f, "`{word}` needs a race that begins with `race 2`"),
        }
    }
}

impl Numbers {
    fn write_digits<W: fmt::Write>(&self, f: &mut fmt::Formatter<W>) -> fmt::Result {
        let what = self.what;
        write!(
            f,
            "{what} is a number: one to ten digits without leading zeros"
        )
    }

    fn write_whole<W: fmt::Write>(&self, f: &mut fmt::Formatter<W>) -> fmt::Result {
        let (what, unit) = (self.what, self.unit);
        let of = if unit.is_empty() { "" } else { " of" };
        write!(f, "{what} is a whole number{of}{unit}")
    }

    fn write_range<W: fmt::Write>(&self, f: &mut fmt::Formatter<W>) -> fmt::Result {
        let (what, least, most, unit) = (self.what, self.least, self.most, self.unit);
        write!(f, "{what} is {least} to {most}{unit}")
    }
}

impl fmt::Display for HighFloor {
    fn fmt<W: fmt::Write>(&self, f: &mut fmt::Formatter<W>) -> fmt::Result {
        let (floor, line, attempt) = (self.floor, self.line, self.attempt);
        write!(
            f,
            "the floor after failures, {floor} milliseconds on line {line}, is above the attempt delay, {attempt}"
        )
    }
}

impl fmt::Display for SharedPrecedence {
    fn fmt<W: fmt::Write>(&self, f: &mut fmt::Formatter<W>) -> fmt::Result {
        let (row, later, precedence) = (self.row, self.later, self.precedence);
        let (row_line, later_line) = (self.row_line, self.later_line);
        write!(
            f,
            "rows {row} and {later}, on lines {row_line} and {later_line}, share the precedence {precedence}"
        )?;
        f.write_str(": one is inside ::ffff:0:0/96, one outside")
    }
}
