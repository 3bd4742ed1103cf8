// The state that each fault leaves, and the output for a race that is read and run.

use crate::homes::{Lender, ONE, REFUSED, Wanted, race_on};
use he_live::{LiveFault, LiveReport, Reason, live};
use he_stream::{FromReader, ToWriter};
use he_timeline::Changes;
use he_words::{TextFault, TextKind};
use std::fs::File;
use std::mem::drop;
use std::net::Net;
use std::test::Fail;
use stream_fakes::{FakeReader, FakeWriter};
use tokio::runtime::LocalRuntime;

// A race that is over at once, without a socket.
const EXHAUSTED: &[u8] = b"race 1
aaaa 0 none
a 0 none
end
";

const TWO: &[u8] = b"race 1\nend\nrace 1\nend\n";

const SECOND_IS_WRONG: &[u8] = b"race 1\nend\nrace 3\nend\n";

const UNFINISHED: &[u8] = b"race 1\n";

// The most files that are opened to use up the descriptors.
const MOST_FILES: usize = 65_536;

// How the streams of a run behave.
#[derive(Clone, Copy)]
enum Streams {
    Whole,
    // The input breaks after its bytes.
    BreaksOff,
    // The output takes this number of bytes.
    Room(usize),
    FailsToFlush,
}

// A text, the behaviour of its streams, the result, the beginning of the output, and its greatest length.
type Row = (
    &'static [u8],
    Streams,
    Result<(), LiveFault>,
    &'static [u8],
    usize,
);

fn wrong(line: u64, kind: TextKind) -> Result<(), LiveFault> {
    Err(LiveFault::Text(TextFault { line, kind }))
}

fn rows() -> [Row; 10] {
    [
        (EXHAUSTED, Streams::Whole, Ok(()), b"exhausted ", usize::MAX),
        (b"", Streams::Whole, Err(LiveFault::OneRace), b"", 0),
        (TWO, Streams::Whole, Err(LiveFault::OneRace), b"", 0),
        (
            SECOND_IS_WRONG,
            Streams::Whole,
            wrong(3, TextKind::Header),
            b"",
            0,
        ),
        (
            UNFINISHED,
            Streams::Whole,
            wrong(2, TextKind::Unfinished),
            b"",
            0,
        ),
        (UNFINISHED, Streams::BreaksOff, Err(LiveFault::Read), b"", 0),
        (TWO, Streams::BreaksOff, Err(LiveFault::Read), b"", 0),
        (
            SECOND_IS_WRONG,
            Streams::BreaksOff,
            wrong(3, TextKind::Header),
            b"",
            0,
        ),
        (
            EXHAUSTED,
            Streams::Room(4),
            Err(LiveFault::Write),
            b"exha",
            4,
        ),
        (
            EXHAUSTED,
            Streams::FailsToFlush,
            Err(LiveFault::Write),
            b"exhausted ",
            usize::MAX,
        ),
    ]
}

fn is_right<R: Lender + Net>(rt: &R, row: &Row) -> bool {
    let (text, streams, wanted, begins, most) = row;
    let reader = FakeReader::new(text, 7);
    let writer = FakeWriter::new(rt.alloc());
    let (reader, writer) = match streams {
        Streams::Whole => (reader, writer),
        Streams::BreaksOff => (reader.broken(), writer),
        Streams::Room(room) => (reader, writer.with_room(*room)),
        Streams::FailsToFlush => (reader, writer.failing_flush()),
    };
    let mut input = FromReader::new(reader);
    let mut output = ToWriter::new(writer);
    let mut told = LiveReport::new(rt.alloc());
    let ended = live(
        rt,
        rt.alloc(),
        &mut input,
        &mut output,
        1,
        Changes::none(),
        &mut told,
    );
    drop(told);
    let held = output.writer().held();
    let is_written = held.starts_with(begins) && held.len() <= *most;
    drop(input);
    drop(output);
    ended.map(|_| ()) == *wanted && is_written
}

#[test]
fn faults_are_told(rt: HostRuntime) {
    for row in &rows() {
        assert!(rt; is_right(&rt, row));
    }
}

// Opens files until no descriptor is left; none if `MOST_FILES` are too few for that.
fn used_up(rt: &HostRuntime) -> Result<Option<Vec<File>>, Fail> {
    let mut files = Vec::new(rt.alloc());
    for _ in 0..MOST_FILES {
        match File::open(rt, "/dev/null") {
            Ok(file) => files.push(file)?,
            Err(_) => return Ok(Some(files)),
        }
    }
    drop(files);
    Ok(None)
}

// Without a descriptor for an event loop, `live` reports that, and writes nothing.
const NO_RUNTIME: Row = (EXHAUSTED, Streams::Whole, Err(LiveFault::Files), b"", 0);

// An attempt that gets no descriptor.
const NOT_BEGUN: Wanted<'static> = Wanted {
    reason: Reason::TooManyFiles,
    ..REFUSED
};

#[test]
fn without_descriptors_attempts_fail(rt: HostRuntime) -> Result<(), Fail> {
    let mut runtime = LocalRuntime::new(&rt)?;
    let Some(files) = used_up(&rt)? else {
        println!(rt; "this process may open more descriptors than the test does: not run")?;
        return Ok(());
    };
    let is_failed = race_on(&rt, &mut runtime, ONE, 1, &NOT_BEGUN)?;
    let is_told = is_right(&rt, &NO_RUNTIME);
    drop(files);
    drop(runtime);
    assert!(rt; is_failed && is_told);
    Ok(())
}
