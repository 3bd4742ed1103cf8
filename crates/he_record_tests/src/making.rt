// Records that a program makes: the faults of their lines, and their values.

use crate::written::{CLIENT, MOMENT, OTHER_SERVER, SERVER, TRIED, UNTRIED};
use he_addr::{Family, Ip};
use he_record::{AttemptReason, ClientEnd, LookupReason, Moment, Record, RecordLine, ServerReason};
use he_words::TextKind;

const NO_MONTH: Moment = Moment {
    month: 13,
    ..MOMENT
};

// Lines that are added one after the other, and the fault of each.
static ADDED: [(RecordLine<'static>, Option<TextKind>); 15] = [
    (RecordLine::At(NO_MONTH), Some(TextKind::Range)),
    (RecordLine::To(b"", 1), Some(TextKind::Word)),
    (RecordLine::To(b"a host", 1), Some(TextKind::Word)),
    (RecordLine::To(b"host", 0), Some(TextKind::Range)),
    (RecordLine::To(b"host", 65_535), None),
    (RecordLine::At(MOMENT), Some(TextKind::Word)),
    (RecordLine::To(b"host", 1), Some(TextKind::Repeated)),
    (RecordLine::Lookup(Family::V6, LookupReason::Failed), None),
    (
        RecordLine::Lookup(Family::V6, LookupReason::Refused),
        Some(TextKind::Repeated),
    ),
    (
        RecordLine::Server(SERVER, ServerReason::Failed, 3_600_001),
        Some(TextKind::Range),
    ),
    (RecordLine::Attempt(TRIED, AttemptReason::Reset), None),
    (RecordLine::Untried(TRIED), Some(TextKind::Repeated)),
    (RecordLine::Untried(UNTRIED), None),
    (RecordLine::End(ClientEnd::Connected(3_600_000)), None),
    (
        RecordLine::End(ClientEnd::Failed(1)),
        Some(TextKind::Repeated),
    ),
];

#[test]
fn added(rt: HostRuntime) {
    let mut told = Record::none(rt.alloc());
    for (place, (line, wanted)) in ADDED.iter().enumerate() {
        assert!(rt; told.add(*line).err() == *wanted, "{place}");
    }
    assert!(rt; told.at().is_none());
    assert!(rt; told.to() == Some((b"host".as_slice(), 65_535)));
    assert!(rt; told.from().is_none());
    assert!(rt; told.lookup(Family::V6) == Some(LookupReason::Failed));
    assert!(rt; told.lookup(Family::V4).is_none());
    assert!(rt; told.attempt(TRIED) == Some(AttemptReason::Reset));
    assert!(rt; told.attempt(UNTRIED).is_none());
    assert!(rt; told.is_untried(UNTRIED) && !told.is_untried(TRIED));
    assert!(rt; told.end() == Some(ClientEnd::Connected(3_600_000)));
}

#[test]
fn one_server_too_many(rt: HostRuntime) {
    let mut told = Record::none(rt.alloc());
    assert!(rt; told.add(RecordLine::At(MOMENT)).is_ok());
    assert!(rt; told.add(RecordLine::From(CLIENT)).is_ok());
    for place in 0..8 {
        let line = RecordLine::Server(Ip::V4(place), ServerReason::Silent, 0);
        assert!(rt; told.add(line).is_ok());
    }
    let line = RecordLine::Server(OTHER_SERVER, ServerReason::Silent, 0);
    assert!(rt; told.add(line) == Err(TextKind::TooMany));
    assert!(rt; told.at() == Some(MOMENT) && told.from() == Some(CLIENT));
    assert!(rt; told.lines().len() == 10);
}
