// The parts of an input, and the search for the next one.
ghost use Rattle.std.specs.Prelude.{◌≡◌, ◌+◌, ◌-◌, ◌<◌, ◌≤◌, ◌^◌, length};
ghost use Rattle.he_reading.specs.Parts.{lines_of};
ghost use Rattle.he_check.specs.Steps.{PassesRecords, begins_part};

use he_faults::RestOfInput;
use he_record::goes_on;
use he_words::LINE_END;
use memchr::memchr;

// The number of bytes that decide whether a part begins: a race's first line and its line end, or `record` and the
// byte after it.
pub(crate) const PART_START: usize = 7;

// Whole lines at the front of some bytes.
#[derive(Clone, Copy)]
pub(crate) struct FrontLines {
    pub(crate) bytes: usize,
    pub(crate) lines: u64,
}

// Whether the first line of the text is `race 1` or `race 2`, or a record line.
pub(crate) fn begins_part(text: &[u8]) -> bool
    ensures { result ≡ begins_part text.now }
{
    text.starts_with(b"race 1\n")
        || text.starts_with(b"race 2\n")
        || text.starts_with(b"record ")
        || text.starts_with(b"record\n")
}

// The record lines of a part before its faulty line, whose number is `line`. The search for the next part begins
// after the line that follows them. Empty if only the first fault is asked for.
pub(crate) fn records_before(is_all: bool, part: RestOfInput<'_>, line: u64) -> FrontLines
    requires above { part.lines < line }
    requires there { line - part.lines ≤ length (lines_of part.text.now) }
    requires few { part.lines + length part.text.now ≤ 2 ^ 63 }
    ensures { PassesRecords is_all part.entry.text.now (line - part.entry.lines) result.bytes result.lines }
{
    let mut passed = FrontLines { bytes: 0, lines: 0 };
    if !is_all {
        return passed;
    }
    let before = line - part.lines - 1;
    while passed.lines < before {
        let rest = &part.text[passed.bytes..];
        if !goes_on(rest) {
            return passed;
        }
        let Some(at) = memchr(LINE_END, rest) else {
            return passed;
        };
        passed.bytes += at + 1;
        passed.lines += 1;
    }
    passed
}
