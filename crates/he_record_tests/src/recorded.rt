// Records of facts: their texts, by hand, and the lines that are left out.

use he_addr::Ip;
use he_record::nat64::Nat64Prefix;
use he_record::{AttemptReason, ClientEnd, LookupReason, Moment, ServerReason, write_record};
use he_recording::facts::{AttemptFailure, Facts, ServerFailure, Target};
use he_recording::making::record_of;
use std::test::Fail;

const MOMENT: Moment = Moment {
    year: 2026,
    month: 11,
    day: 28,
    hour: 10,
    minute: 54,
    second: 5,
    millisecond: 61,
};

const SILENT: ServerFailure = ServerFailure {
    ip: Ip::V4(0xc000_024d),
    reason: ServerReason::Silent,
    ticks: 251,
};

const REFUSED: AttemptFailure = AttemptFailure {
    ip: Ip::V6(0x2001_0db8_0000_0000_0000_0000_0000_0001),
    reason: AttemptReason::Refused,
};

const FORBIDDEN: AttemptFailure = AttemptFailure {
    ip: Ip::V6(0x2001_0db8_0000_0000_0000_0000_0000_0001),
    reason: AttemptReason::Forbidden,
};

// 64:ff9b::/96 (RFC 6052 section 2.1)
const WELL_KNOWN: Nat64Prefix = Nat64Prefix {
    bits: 0x0064_ff9b_0000_0000_0000_0000_0000_0000,
    len: 96,
};

static ALL: Facts<'static> = Facts {
    at: Some(MOMENT),
    to: Some(Target {
        host: b"www.example.com",
        port: 443,
    }),
    from: Some(Ip::V4(0xc633_6409)),
    six: Some(LookupReason::NoAnswer),
    four: Some(LookupReason::NotAsked),
    nat64: &[WELL_KNOWN],
    servers: &[SILENT],
    attempts: &[REFUSED],
    end: Some(ClientEnd::GaveUp(812)),
};

const WANTED: &[u8] = b"record at 2026-11-28T10:54:05.061Z\nrecord to www.example.com 443\n\
record from 198.51.100.9\nrecord lookup aaaa no-answer\nrecord lookup a not-asked\n\
record nat64 64:ff9b::/96\nrecord server 192.0.2.77 silent 251\nrecord attempt 2001:db8::1 refused\nrecord gave-up 812\n";

fn is_written(rt: &HostRuntime, facts: &Facts<'_>, wanted: &[u8]) -> Result<bool, Fail> {
    let record = record_of(rt.alloc(), facts)?;
    let mut text = Vec::new(rt.alloc());
    write_record(&record, &mut text)?;
    Ok(text.as_slice() == wanted)
}

#[test]
fn all_facts(rt: HostRuntime) -> Result<(), Fail> {
    assert!(rt; is_written(&rt, &ALL, WANTED)?);
    assert!(rt; is_written(&rt, &Facts::at(None), b"")?);
    Ok(())
}

// A host with a space, a second line of an address, and a ninth name server are left out; the lines after them stay.
#[test]
fn left_out(rt: HostRuntime) -> Result<(), Fail> {
    let facts = Facts {
        to: Some(Target {
            host: b"a host",
            port: 443,
        }),
        servers: &[SILENT; 9],
        attempts: &[REFUSED, FORBIDDEN],
        ..Facts::at(None)
    };
    let mut wanted = Vec::new(rt.alloc());
    for _ in 0..8 {
        wanted.extend_from_slice(b"record server 192.0.2.77 silent 251\n")?;
    }
    wanted.extend_from_slice(b"record attempt 2001:db8::1 refused\n")?;
    assert!(rt; is_written(&rt, &facts, &wanted)?);
    Ok(())
}
