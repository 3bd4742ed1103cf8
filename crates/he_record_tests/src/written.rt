// A record that is read, made and written, with each growth refused in turn: a refused call reports want of memory,
// and any other has its usual result and output.

use he_addr::{Family, Ip};
use he_record::{
    AttemptReason, ClientEnd, LookupReason, Moment, Record, RecordLine, ServerReason, read_record,
    write_record,
};
use he_words::TextKind;
use refusing::{Refusing, refused_in_turn};

// A record with all kinds of lines, as it is written, and the first line of its race.
const FULL: &str = "record at 2026-11-28T10:54:05.261Z
record to www.example.com 443
record from 198.51.100.9
record lookup a not-asked
record lookup aaaa no-answer
record server 192.0.2.77 silent 251
record server 2001:db8::53 unreachable 0
record attempt 2001:db8::1 timed-out
record untried 198.51.100.80
record gave-up 3600000
race 2
";

const RACE_LINE: usize = 7;

pub(crate) const MOMENT: Moment = Moment {
    year: 2026,
    month: 11,
    day: 28,
    hour: 10,
    minute: 54,
    second: 5,
    millisecond: 261,
};

pub(crate) const CLIENT: Ip = Ip::V4(0xc633_6409);

pub(crate) const SERVER: Ip = Ip::V4(0xc000_024d);

pub(crate) const OTHER_SERVER: Ip = Ip::V6(0x2001_0db8_0000_0000_0000_0000_0000_0053);

pub(crate) const TRIED: Ip = Ip::V6(0x2001_0db8_0000_0000_0000_0000_0000_0001);

pub(crate) const UNTRIED: Ip = Ip::V4(0xc633_6450);

static LINES: [RecordLine<'static>; 10] = [
    RecordLine::At(MOMENT),
    RecordLine::To(b"www.example.com", 443),
    RecordLine::From(CLIENT),
    RecordLine::Lookup(Family::V4, LookupReason::NotAsked),
    RecordLine::Lookup(Family::V6, LookupReason::NoAnswer),
    RecordLine::Server(SERVER, ServerReason::Silent, 251),
    RecordLine::Server(OTHER_SERVER, ServerReason::Unreachable, 0),
    RecordLine::Attempt(TRIED, AttemptReason::TimedOut),
    RecordLine::Untried(UNTRIED),
    RecordLine::End(ClientEnd::GaveUp(3_600_000)),
];

// Whether these bytes are written of the record; none if memory was refused.
fn is_written<'h>(
    heap: &'h Refusing,
    told: &Record<'_, &'h Refusing>,
    wanted: &[u8],
) -> Option<bool> {
    let mut out = Vec::new(heap);
    match write_record(told, &mut out) {
        Ok(()) => Some(out.as_slice() == wanted),
        Err(_) => None,
    }
}

fn is_reread(heap: &Refusing) -> Option<bool> {
    let text = FULL.as_bytes();
    match read_record(heap, text) {
        Ok((told, end)) => {
            if end + RACE_LINE == text.len() {
                is_written(heap, &told, &text[..end])
            } else {
                Some(false)
            }
        }
        Err(fault) => {
            if fault.kind == TextKind::Memory {
                None
            } else {
                Some(false)
            }
        }
    }
}

fn add_all<'t, 'h>(told: &mut Record<'t, &'h Refusing>, lines: &[RecordLine<'t>]) -> Option<bool> {
    for line in lines {
        match told.add(*line) {
            Ok(()) => {}
            Err(TextKind::Memory) => return None,
            Err(_) => return Some(false),
        }
    }
    Some(true)
}

fn is_made(heap: &Refusing) -> Option<bool> {
    let mut told = Record::none(heap);
    match add_all(&mut told, &LINES) {
        Some(true) => is_written(heap, &told, &FULL.as_bytes()[..FULL.len() - RACE_LINE]),
        other => other,
    }
}

#[test]
fn records(rt: HostRuntime) {
    let heap = Refusing::new(rt.alloc());
    let refused = refused_in_turn(&heap, || is_reread(&heap)).unwrap_or(0);
    assert!(rt; refused > 0, "read");
    let refused = refused_in_turn(&heap, || is_made(&heap)).unwrap_or(0);
    assert!(rt; refused > 0, "made");
}
