// The results of a reader on the first race of a text that may go on, or that ends. Each allocation fails in turn:
// that call returns `Memory`, and any other has its usual result.

use he_select::PolicyFault;
use he_text::{Ending, InputFault, RaceReader, RaceReaderFault, TextKind};
use refusing::{Refusing, refused_in_turn};
use std::mem::drop;

// A race of 156 bytes.
const RACE: &[u8] = b"race 1
source 2001:db8::2/64 1
source 192.0.2.2/24 1
route ::/0 1
route 0.0.0.0/0 1
aaaa 20 2001:db8:1::1
a 25 198.51.100.1
connect 2001:db8:1::1 ok 35
end
";

// One policy row, which is an incomplete table, in 24 bytes, and the beginning of another row.
const ROW: &[u8] = b"race 1\npolicy ::/0 40 1\npolicy x";

// That row, and the beginning of a line that can't be another row.
const ROW_BEFORE_A_SOURCE: &[u8] = b"race 1\npolicy ::/0 40 1\ns";

const ROW_BEFORE_ANOTHER_WORD: &[u8] = b"race 1\npolicy ::/0 40 1\npolicyx";

// A floor above the attempt delay, in 21 bytes, and the beginning of another setting.
const FLOOR: &[u8] = b"race 2\nset floor 300\nset x";

// That floor, and the beginning of a source.
const FLOOR_BEFORE_A_SOURCE: &[u8] = b"race 2\nset floor 300\nso";

// A record line of 14 bytes, and then that row.
const RECORDED_ROW: &[u8] = b"record to a 1\nrace 1\npolicy ::/0 40 1\npolicy x";

const RECORDED_ROW_BYTES: usize = 38;

// A race of 25 bytes with a record line.
const RECORDED: &[u8] = b"record to a 1\nrace 1\nend\n";

// The fault of that floor, unless a later line sets the attempt delay.
const FLOOR_ABOVE_DELAY: Told = Told::Fault(2, TextKind::Range);

// The fault of a table with only that row.
const NO_TABLE: Told = Told::Fault(2, TextKind::Policy(PolicyFault::NoMapped));

// The length of that row's text; the length with `policy ` after it; the maximum length of a line.
const ROW_BYTES: usize = 24;

const ROW_AND_WORD: usize = 31;

const LONGEST_LINE: usize = 16_384;

#[derive(Clone, Copy, PartialEq, Eq)]
enum Told {
    // A race, and the place after it.
    Race(usize),
    // No race: the text ends, or the next bytes decide.
    None,
    // The line of a fault, and its kind.
    Fault(u64, TextKind),
    // An allocation failed.
    Memory,
    // `Read`, or a reader whose position doesn't match its result.
    Else,
}

// A text, the number of its bytes in memory, their ending, and the result.
type Row = (&'static [u8], usize, Ending, Told);

static ROWS: [Row; 45] = [
    (RACE, 156, Ending::Open, Told::Race(156)),
    (RACE, 155, Ending::Open, Told::None),
    (
        RACE,
        155,
        Ending::Whole,
        Told::Fault(9, TextKind::Unfinished),
    ),
    (RACE, 0, Ending::Open, Told::None),
    (RACE, 0, Ending::Whole, Told::None),
    (
        b"race 3\n",
        7,
        Ending::Open,
        Told::Fault(1, TextKind::Header),
    ),
    (ROW, ROW_BYTES, Ending::Open, Told::None),
    (ROW, ROW_BYTES, Ending::Whole, NO_TABLE),
    (ROW, 27, Ending::Open, Told::None),
    (ROW, 30, Ending::Open, Told::None),
    (ROW, ROW_AND_WORD, Ending::Open, Told::None),
    (ROW, 32, Ending::Open, Told::None),
    (ROW, 32, Ending::Whole, NO_TABLE),
    (ROW_BEFORE_A_SOURCE, 25, Ending::Open, NO_TABLE),
    (ROW_BEFORE_ANOTHER_WORD, 31, Ending::Open, NO_TABLE),
    (FLOOR, 21, Ending::Open, Told::None),
    (FLOOR, 21, Ending::Whole, FLOOR_ABOVE_DELAY),
    (FLOOR, 24, Ending::Open, Told::None),
    (FLOOR, 25, Ending::Open, Told::None),
    (FLOOR, 26, Ending::Open, Told::None),
    (FLOOR, 26, Ending::Whole, FLOOR_ABOVE_DELAY),
    (FLOOR_BEFORE_A_SOURCE, 22, Ending::Open, Told::None),
    (FLOOR_BEFORE_A_SOURCE, 23, Ending::Open, FLOOR_ABOVE_DELAY),
    // No later setting mends a setting that is out of its own range.
    (
        b"race 2\nset floor 9\n",
        19,
        Ending::Open,
        Told::Fault(2, TextKind::Range),
    ),
    (
        b"race 1\nset attempt 9\n",
        21,
        Ending::Open,
        Told::Fault(2, TextKind::Range),
    ),
    // Texts that are valid in one version only, and their faults.
    (
        b"race 1\naaaa 5 2001:db8::1\nrtt 2001:db8::1 5\nend\n",
        48,
        Ending::Whole,
        Told::Fault(3, TextKind::Word),
    ),
    (
        b"race 2\nrtt 2001:db8::1 5\nend\n",
        29,
        Ending::Whole,
        Told::Fault(2, TextKind::Address),
    ),
    (
        b"race 2\naaaa 5 2001:db8::1\nrtt 2001:db8::1 0\nend\n",
        48,
        Ending::Whole,
        Told::Fault(3, TextKind::Range),
    ),
    (
        b"race 2\naaaa 5 2001:db8::1\nused 2001:db8::1\nused 2001:db8::1\nend\n",
        64,
        Ending::Whole,
        Told::Fault(4, TextKind::Repeated),
    ),
    (
        b"race 2\naaaa 5 2001:db8::1\nused 2001:db8::1\nrtt 2001:db8::1 5\nend\n",
        65,
        Ending::Whole,
        Told::Fault(4, TextKind::Word),
    ),
    (
        b"race 1\nset floor 100\nend\n",
        25,
        Ending::Whole,
        Told::Fault(2, TextKind::Word),
    ),
    (
        b"race 2\nset floor 9\nend\n",
        23,
        Ending::Whole,
        Told::Fault(2, TextKind::Range),
    ),
    (
        b"race 2\nset floor 300\nset count 1\nend\n",
        37,
        Ending::Whole,
        Told::Fault(3, TextKind::Range),
    ),
    (
        b"race 2\nset floor 300\nset attempt 400\nend\n",
        41,
        Ending::Whole,
        Told::Race(41),
    ),
    // Record lines before a race, and beginnings of such lines.
    (RECORDED, 25, Ending::Open, Told::Race(25)),
    (RECORDED, 24, Ending::Open, Told::None),
    (RECORDED, 14, Ending::Open, Told::None),
    (
        RECORDED,
        14,
        Ending::Whole,
        Told::Fault(2, TextKind::Unfinished),
    ),
    (RECORDED, 3, Ending::Open, Told::None),
    (
        RECORDED,
        3,
        Ending::Whole,
        Told::Fault(1, TextKind::Unfinished),
    ),
    (
        b"record to a 0\n",
        14,
        Ending::Open,
        Told::Fault(1, TextKind::Range),
    ),
    (
        b"record to a 1\nrecord at x\n",
        26,
        Ending::Open,
        Told::Fault(2, TextKind::Word),
    ),
    (
        b"record to a 1\nrace 3\n",
        21,
        Ending::Open,
        Told::Fault(2, TextKind::Header),
    ),
    (RECORDED_ROW, RECORDED_ROW_BYTES, Ending::Open, Told::None),
    (
        RECORDED_ROW,
        RECORDED_ROW_BYTES,
        Ending::Whole,
        Told::Fault(3, TextKind::Policy(PolicyFault::NoMapped)),
    ),
];

// The result of a reader on the bytes. Its position is after the race, or unchanged without a race.
fn told_of(heap: &Refusing, bytes: &[u8], ending: Ending) -> Told {
    let mut reader = RaceReader::START;
    match reader.next(heap, bytes, ending) {
        Ok(Some(race)) => {
            drop(race);
            Told::Race(reader.end)
        }
        _ if reader != RaceReader::START => Told::Else,
        Ok(None) => Told::None,
        Err(RaceReaderFault::Memory) => Told::Memory,
        Err(RaceReaderFault::Input(InputFault::Text(fault))) => Told::Fault(fault.line, fault.kind),
        Err(RaceReaderFault::Input(InputFault::Read)) => Told::Else,
    }
}

// Whether the row has the expected result; None if an allocation failed.
fn is_right(heap: &Refusing, row: &Row) -> Option<bool> {
    let (text, bytes, ending, wanted) = row;
    let told = told_of(heap, text.get(..*bytes)?, *ending);
    if told == Told::Memory {
        None
    } else {
        Some(told == *wanted)
    }
}

// The number of failed allocations of all rows; 0 if a run had another result.
fn refused_in_all(heap: &Refusing) -> u64 {
    let mut refused: u64 = 0;
    for row in &ROWS {
        match refused_in_turn(heap, || is_right(heap, row)) {
            Some(more) => refused = refused.saturating_add(more),
            None => return 0,
        }
    }
    refused
}

#[test]
fn texts_that_may_go_on(rt: HostRuntime) {
    let heap = Refusing::new(rt.alloc());
    assert!(rt; refused_in_all(&heap) > 0);
}

#[test]
fn record_beside_its_race(rt: HostRuntime) {
    let heap = Refusing::new(rt.alloc());
    let mut reader = RaceReader::START;
    let found = reader.next_recorded(&heap, RECORDED, Ending::Whole);
    let is_told = match &found {
        Ok(Some((record, _race))) => record.to() == Some((b"a".as_slice(), 1)),
        _ => false,
    };
    assert!(rt; is_told);
    assert!(rt; reader.lines == 3);
    drop(found);
}

// The row, and then a `policy` line without a line end, one byte longer than a line may be.
fn row_before_a_long_line() -> [u8; ROW_BYTES + LONGEST_LINE + 1] {
    let mut text = [b'1'; ROW_BYTES + LONGEST_LINE + 1];
    text[..ROW_AND_WORD].copy_from_slice(&ROW[..ROW_AND_WORD]);
    text
}

// The result for the first bytes of a text that may go on.
fn told_of_first(heap: &Refusing, text: &[u8], bytes: usize) -> Told {
    match text.get(..bytes) {
        Some(part) => told_of(heap, part, Ending::Open),
        None => Told::Else,
    }
}

#[test]
fn line_that_becomes_too_long(rt: HostRuntime) {
    let heap = Refusing::new(rt.alloc());
    let text = row_before_a_long_line();
    let longest = ROW_BYTES + LONGEST_LINE;
    assert!(rt; told_of_first(&heap, &text, longest) == Told::None);
    assert!(rt; told_of_first(&heap, &text, longest + 1) == NO_TABLE);
}
