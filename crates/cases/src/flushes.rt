//! Command lines whose output takes all bytes, and then can't be flushed. No file or pipe of a program does so, so
//! these run over fakes; all others are files that the harness of examples reads.

use crate::example::Counts;
use he_command::{Session, System, run_words};
use he_inputs::RaceStream;
use he_stream::{FromReader, ToWriter};
use std::io;
use std::mem::drop;
use stream_fakes::{FakeReader, FakeWriter};

const RACE: &[u8] = b"race 1
source 2001:db8::2/64 1
route ::/0 1
aaaa 20 2001:db8:1::1
connect 2001:db8:1::1 ok 35
end
";

const NO_ADDRESS: &[u8] = b"race 1\naaaa 0 none\na 0 none\nend\n";

// The words of a run, its input, and the beginning of its output.
type Row = (&'static [&'static str], &'static [u8], &'static [u8]);

static ROWS: [Row; 7] = [
    (&["he", "--help"], b"", b"Connect with Happy Eyeballs"),
    (&["he", "replay"], b"race 1\nend", b""),
    (&["he", "live", "--port", "1"], NO_ADDRESS, b"exhausted"),
    (
        &["he", "live", "--port", "1", "--must-connect"],
        NO_ADDRESS,
        b"exhausted",
    ),
    (&["he", "check"], RACE, b"1 race"),
    (
        &["he", "summary", "-v"],
        RACE,
        b"1 race: 1 connected (100.0 %)",
    ),
    (&["he", "names", "192.0.2.1"], b"", b"aaaa "),
];

const SAID: &[u8] = b"he: cannot write the output\n";

// The status of each of these runs.
const FAULT: u8 = 1;

// Whether this run ends as required, with a writer of messages that takes at most `room` bytes.
fn is_right<R>(rt: &HostRuntime, system: &R, row: &Row, room: usize) -> bool
where
    R: System,
{
    let (words, text, output) = row;
    let mut input = FromReader::new(FakeReader::new(text, 7));
    let mut session = Session {
        system,
        alloc: rt.alloc(),
        output: ToWriter::new(FakeWriter::new(rt.alloc()).failing_flush()),
        faults: FakeWriter::new(rt.alloc()).with_room(room),
        file: None,
        stream: RaceStream::new(rt.alloc()),
        place: 0,
        unread: 0,
    };
    let status = run_words(&mut session, words, &mut input);
    let is_said = room == 0 || session.faults.held().starts_with(SAID);
    let is_written = session.output.writer().held().starts_with(output);
    drop(input);
    drop(session);
    status == FAULT && is_written && is_said
}

/// Runs each of them twice, the second time with a writer of messages that takes nothing, and counts the runs. Prints
/// a line for each that ends otherwise, with its place in the table, from 0 on.
///
/// # Errors
///
/// A line that cannot be written.
pub fn run_flushes<R>(rt: &HostRuntime, system: &R) -> io::Result<Counts>
where
    R: System,
{
    let mut counts = Counts { ran: 0, differ: 0 };
    for (at, row) in ROWS.iter().enumerate() {
        let name = format!(in rt.alloc(); "command line {at}")?;
        for room in [usize::MAX, 0] {
            let is_same = is_right(rt, system, row, room);
            counts.count(rt, name.as_str(), "it ends otherwise", is_same)?;
        }
    }
    Ok(counts)
}
