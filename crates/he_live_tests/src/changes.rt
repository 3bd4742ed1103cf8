// Races of which some settings are changed.

use crate::homes::{Lender, free_port, replays};
use he_live::{LiveReport, live};
use he_plan::Outcome3;
use he_stream::{FromReader, ToWriter};
use he_timeline::{Changes, Range};
use std::mem::drop;
use std::net::{Net, TcpListener, TcpStream};
use std::test::Fail;
use stream_fakes::FakeReader;

// Two addresses without a listener.
const TWO: &[u8] = b"race 1
set attempt 20
source 127.0.0.1/8 1
route 127.0.0.0/8 1
aaaa 0 none
a 0 127.0.0.1 127.0.0.2
end
";

// The settings in the record; the others are the race's own.
const SLOWER_LINES: &[u8] = b"race 1
set resolution 50
set attempt 150
set count 1
set limit 4000
";

// A floor above the delay of the race becomes that delay.
const FLOOR_LINES: &[u8] = b"race 2
set resolution 50
set attempt 20
set count 1
set limit 30000
set floor 20
";

// The record lines after that of the time.
const REFUSED_LINES: &[u8] = b"record attempt 127.0.0.1 refused
record attempt 127.0.0.2 refused
";

// Whether a record has the time, both failed attempts, and then these lines.
fn begins_with(record: &[u8], lines: &[u8]) -> bool {
    let Some(end) = record.iter().position(|byte| *byte == b'\n') else {
        return false;
    };
    let after = record[end + 1..].strip_prefix(REFUSED_LINES);
    record.starts_with(b"record at ") && after.is_some_and(|race| race.starts_with(lines))
}

// Whether the race, run with these changes, takes at least this number of milliseconds, and its record begins with
// these lines and replays.
fn is_run<R: Lender + Net>(
    rt: &R,
    port: u16,
    changes: Changes,
    least: u64,
    lines: &[u8],
) -> Result<bool, Fail> {
    let mut input = FromReader::new(FakeReader::new(TWO, usize::MAX));
    let mut output = ToWriter::new(Vec::new(rt.alloc()));
    let mut told = LiveReport::new(rt.alloc());
    let ended = live(
        rt,
        rt.alloc(),
        &mut input,
        &mut output,
        port,
        changes,
        &mut told,
    );
    let is_late = matches!(ended, Ok(Outcome3::Exhausted(tick)) if tick >= least);
    let is_replayed = match output.writer().strip_suffix(told.record.as_slice()) {
        Some(transcript) => replays(rt, transcript, &told.record),
        None => Ok(false),
    };
    let is_recorded = begins_with(&told.record, lines) && told.failed.len() == 2;
    drop(told);
    let is_replayed = is_replayed?;
    Ok(is_late && is_recorded && is_replayed)
}

fn is_run_at_a_free_port<R: Lender + Net<Listener = TcpListener, Stream = TcpStream>>(
    rt: &R,
    changes: Result<Changes, Range>,
    least: u64,
    lines: &[u8],
) -> Result<bool, Fail> {
    let port = free_port(rt)?;
    match changes {
        Ok(changes) => is_run(rt, port, changes, least, lines),
        Err(_) => Ok(false),
    }
}

#[test]
fn changed_settings_are_those_of_the_race(rt: HostRuntime) -> Result<(), Fail> {
    let slower = Changes::new(None, Some(150), None, Some(4000), None);
    assert!(rt; is_run_at_a_free_port(&rt, slower, 150, SLOWER_LINES)?);
    let floor = Changes::new(None, None, None, None, Some(21));
    assert!(rt; is_run_at_a_free_port(&rt, floor, 20, FLOOR_LINES)?);
    Ok(())
}
