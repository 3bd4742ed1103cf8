// Races on real sockets, and their wanted results.

use he_inputs::read_one_race;
use he_live::{Dialed, LiveFault, Reason, Steps, live_race, live_race_on};
use he_plan::{Mark, Outcome3, Transcript};
use he_stream::{FromReader, ToWriter};
use he_streaming::{Content, TextRequest, replay};
use he_turns::Raced;
use he_write::{write_timeline, write_transcript};
use std::alloc::AllocGlobal;
use std::mem::drop;
use std::net::{IpAddr, Ipv4Addr, Net, SocketAddr, TcpListener, TcpStream};
use std::random::RandomSource;
use std::sync::Wait;
use std::test::Fail;
use std::thread::Threads;
use std::time::Clock;
use std::{fs, io};
use stream_fakes::FakeReader;
use tokio::runtime::LocalRuntime;

/// The resources of races and their replays, beside the network.
pub trait Lender: Wait + Threads + Clock + RandomSource + AllocGlobal + Sync {}

impl<R: Wait + Threads + Clock + RandomSource + AllocGlobal + Sync> Lender for R {}

/// How an attempt ended.
#[derive(Clone, Copy, PartialEq, Eq)]
pub enum End {
    Won,
    Failed,
    Cancelled,
}

/// How a race ended.
#[derive(Clone, Copy, PartialEq, Eq)]
pub enum Result3 {
    Won(usize),
    Exhausted,
    Limit,
}

/// The wanted result of a race: for each attempt the least tick at which it may start, and its end; and the race's
/// end, with its least tick.
#[derive(Clone, Copy)]
pub struct Wanted<'a> {
    pub attempts: &'a [(u64, End)],
    pub result: Result3,
    pub least: u64,
    // why each attempt that fails does so
    pub reason: Reason,
}

fn end_of(mark: Mark) -> End {
    match mark {
        Mark::Won(_) => End::Won,
        Mark::Failed(_) => End::Failed,
        Mark::Cancelled(_) => End::Cancelled,
    }
}

fn result_of(end: Outcome3) -> (Result3, u64) {
    match end {
        Outcome3::Won(place, tick) => (Result3::Won(place), tick),
        Outcome3::Exhausted(tick) => (Result3::Exhausted, tick),
        Outcome3::Limit(tick) => (Result3::Limit, tick),
    }
}

fn is_wanted(transcript: &Transcript, wanted: &Wanted<'_>) -> bool {
    let (result, tick) = result_of(transcript.result());
    let attempts = transcript.attempts();
    if result != wanted.result || tick < wanted.least || attempts.len() != wanted.attempts.len() {
        return false;
    }
    let mut are_wanted = true;
    for (line, (least, end)) in attempts.iter().zip(wanted.attempts) {
        are_wanted = are_wanted && line.tick >= *least && end_of(line.mark) == *end;
    }
    are_wanted
}

/// Whether the record replays to the transcript, byte for byte.
pub fn replays<R: Lender>(rt: &R, transcript: &[u8], record: &[u8]) -> Result<bool, Fail> {
    let mut input = FromReader::new(FakeReader::new(record, usize::MAX));
    let mut output = ToWriter::new(Vec::new(rt.alloc()));
    let told = replay(
        rt,
        rt.alloc(),
        &TextRequest::of(Content::Transcript),
        1,
        &mut input,
        &mut output,
    );
    let is_same = output.writer().as_slice() == transcript;
    drop(input);
    drop(output);
    told?;
    Ok(is_same)
}

/// Whether the race has the wanted result, and its record replays.
pub fn is_right<R: Lender>(
    rt: &R,
    raced: &Raced<Dialed>,
    wanted: &Wanted<'_>,
) -> Result<bool, Fail> {
    let mut transcript = Vec::new(rt.alloc());
    let mut record = Vec::new(rt.alloc());
    write_transcript(&raced.transcript, &mut transcript)?;
    write_timeline(&raced.recorded, &mut record)?;
    let is_replayed = replays(rt, &transcript, &record)?;
    Ok(is_replayed && is_wanted(&raced.transcript, wanted))
}

fn is_right_of<R: Lender>(
    rt: &R,
    raced: Result<Raced<Dialed>, LiveFault>,
    wanted: &Wanted<'_>,
    steps: &Steps,
) -> Result<bool, Fail> {
    let raced = raced?;
    let is_right = is_right(rt, &raced, wanted);
    let is_told = is_told(&raced.transcript, wanted.reason, steps);
    drop(raced);
    Ok(is_right? && is_told)
}

/// Whether each attempt that failed did so for this reason.
pub fn is_told(transcript: &Transcript, wanted: Reason, steps: &Steps) -> bool {
    let mut is_told = true;
    for line in transcript.attempts() {
        if let Mark::Failed(_) = line.mark {
            is_told = is_told && steps.reason_of(line.place) == wanted;
        }
    }
    is_told
}

/// Whether the race has the wanted result at the port, and its record replays.
pub fn race<R: Lender + Net>(
    rt: &R,
    text: &[u8],
    port: u16,
    wanted: &Wanted<'_>,
) -> Result<bool, Fail> {
    let timeline = read_one_race(rt.alloc(), text, false)?;
    let steps = Steps::new(rt.alloc())?;
    let raced = live_race(rt, rt.alloc(), &timeline, port, &steps);
    drop(timeline);
    is_right_of(rt, raced, wanted, &steps)
}

/// Runs the race over an event loop that was made before.
pub fn race_on<R: Lender + Net>(
    rt: &R,
    runtime: &mut LocalRuntime,
    text: &[u8],
    port: u16,
    wanted: &Wanted<'_>,
) -> Result<bool, Fail> {
    let timeline = read_one_race(rt.alloc(), text, false)?;
    let steps = Steps::new(rt.alloc())?;
    let raced = live_race_on(rt, rt.alloc(), runtime, &timeline, port, &steps);
    drop(timeline);
    is_right_of(rt, raced, wanted, &steps)
}

/// A host with a source and a route of loopback, and an address of it that is known at once.
pub const ONE: &[u8] = b"race 1
source 127.0.0.1/8 1
route 127.0.0.0/8 1
aaaa 0 none
a 0 127.0.0.1
end
";

pub const REFUSED: Wanted<'static> = Wanted {
    attempts: &[(0, End::Failed)],
    result: Result3::Exhausted,
    least: 0,
    reason: Reason::Refused,
};

/// A listener at the address, at a free port if `port` is 0, and its port.
pub fn listen<R: Lender + Net<Listener = TcpListener, Stream = TcpStream>>(
    rt: &R,
    ip: IpAddr,
    port: u16,
) -> Result<(TcpListener, u16), Fail> {
    let listener = TcpListener::bind(rt, SocketAddr::new(ip, port))?;
    let port = listener.local_addr()?.port();
    Ok((listener, port))
}

/// A port without a listener.
pub fn free_port<R: Lender + Net<Listener = TcpListener, Stream = TcpStream>>(
    rt: &R,
) -> Result<u16, Fail> {
    let (listener, port) = listen(rt, IpAddr::V4(Ipv4Addr::LOCALHOST), 0)?;
    drop(listener);
    Ok(port)
}

/// The number of descriptors of the process.
pub fn descriptors(rt: &HostRuntime) -> io::Result<usize> {
    let mut count: usize = 0;
    for entry in fs::read_dir(rt, "/proc/self/fd")? {
        drop(entry?);
        count = count.saturating_add(1);
    }
    Ok(count)
}
