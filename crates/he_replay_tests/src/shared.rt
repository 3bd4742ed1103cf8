// Texts long enough for workers to share their races: the output and the fault are those of one worker; and want of
// memory is reported only if a growth was refused, after the whole texts of some first races.
ghost use Rattle.std.specs.Prelude.{◌≤◌};

use he_addr::Memory;
use he_inputs::StreamFault;
use he_replay::limits::{PIECE_BYTES, PIECES_OF_A_WORKER};
use he_replay::{Content, TextRequest, replay};
use he_stream::{FromReader, ToWriter};
use he_words::{TextFault, TextKind};
use refusing::{Refusing, each_growth_refused};
use std::alloc::Global;
use std::test::Fail;
use std::thread::Threads;
use stream_fakes::{FakeReader, FakeWriter};

// The lines of a race of 64 addresses, with as many sources and routes: the text before the first number of each
// kind, and the text before and after each number.
static LINES: [(&[u8], &[u8], &[u8]); 4] = [
    (
        b"race 1\n",
        b"source 2001:db8:1111:2222:3333:4444:5555:66",
        b"/64 1\n",
    ),
    (
        b"",
        b"route 2001:db8:1111:2222:3333:4444:5555:77",
        b"/128 1\n",
    ),
    (b"aaaa 20", b" 2001:db8:1111:2222:3333:4444:5555:77", b""),
    (
        b"\n",
        b"connect 2001:db8:1111:2222:3333:4444:5555:77",
        b" fail 1000\n",
    ),
];

static DIGITS: &[u8] = b"0123456789abcdef";

// Enough races that workers share those of some steps, and some are left; and enough that two workers share the first
// of two steps.
const RACES: usize = 200;

const FEW_RACES: usize = 24;

// The race after them, which has a fault.
static FAULTY: &[u8] = b"race 1\na 010 none\nend\n";

fn race_of(alloc: Global) -> Result<Vec<u8>, Memory> {
    let mut race = Vec::new(alloc);
    for (first, before, behind) in &LINES {
        race.extend_from_slice(first)?;
        for number in 0..64 {
            race.extend_from_slice(before)?;
            race.push(DIGITS[number / 16])?;
            race.push(DIGITS[number % 16])?;
            race.extend_from_slice(behind)?;
        }
    }
    race.extend_from_slice(b"end\n")?;
    Ok(race)
}

// `races` races, and one with a fault.
fn text_of(alloc: Global, races: usize) -> Result<Vec<u8>, Memory> {
    let race = race_of(alloc)?;
    let mut text = Vec::new(alloc);
    for _ in 0..races {
        text.extend_from_slice(&race)?;
    }
    text.extend_from_slice(FAULTY)?;
    Ok(text)
}

// The number of bytes that a read gives.
const STEP: usize = 1_000_000;

// The fault of the text: the address of the last race, in the line after all the others.
fn fault_in(text: &[u8]) -> Result<(), StreamFault> {
    let ends = text.iter().filter(|byte| **byte == b'\n').count() as u64;
    let line = ends.saturating_sub(1);
    let kind = TextKind::Number;
    Err(StreamFault::Text(TextFault { line, kind }))
}

fn replayed<R: Threads + Sync>(
    rt: &R,
    alloc: Global,
    text: &[u8],
    workers: u16,
) -> (Result<(), StreamFault>, ToWriter<FakeWriter>)
    requires some { 1 ≤ workers }
    requires few { workers ≤ 64 }
{
    let mut input = FromReader::new(FakeReader::new(text, STEP));
    let mut output = ToWriter::new(FakeWriter::new(alloc));
    let result = replay(
        rt,
        alloc,
        &TextRequest::of(Content::Transcript),
        workers,
        &mut input,
        &mut output,
    );
    (result, output)
}

#[test]
fn workers_share_long_texts(rt: HostRuntime) -> Result<(), Fail> {
    let alloc = rt.alloc();
    let text = text_of(alloc, RACES)?;
    assert!(rt; text.len() >= 4 * PIECES_OF_A_WORKER * PIECE_BYTES);
    let (alone, written) = replayed(&rt, alloc, &text, 1);
    let (shared, also) = replayed(&rt, alloc, &text, 4);
    assert!(rt; alone == fault_in(&text) && shared == alone);
    assert!(rt; written.writer().held() == also.writer().held());
    Ok(())
}

// Whether two workers whose allocator may refuse report want of memory only if it has refused, and have then written
// the transcripts of some first races, each like this one, and otherwise report and write everything.
fn is_right<R: Threads + Sync>(
    rt: &R,
    heap: &Refusing<Global>,
    alloc: Global,
    text: &[u8],
    transcript: &[u8],
    wanted: &[u8],
) -> bool {
    let mut input = FromReader::new(FakeReader::new(text, STEP));
    let mut output = ToWriter::new(FakeWriter::new(alloc));
    let result = replay(
        rt,
        heap,
        &TextRequest::of(Content::Transcript),
        2,
        &mut input,
        &mut output,
    );
    let held = output.writer().held();
    if result == Err(StreamFault::Memory) {
        let is_whole = held.is_empty() || held.ends_with(transcript);
        heap.has_refused() && wanted.starts_with(held) && is_whole
    } else {
        result == fault_in(text) && held == wanted
    }
}

#[test]
fn refused_growths_of_workers_are_told(rt: HostRuntime) -> Result<(), Fail> {
    let heap = Refusing::new(rt.alloc());
    let alone = text_of(rt.alloc(), 1)?;
    let text = text_of(rt.alloc(), FEW_RACES)?;
    assert!(rt; text.len() >= 2 * PIECES_OF_A_WORKER * PIECE_BYTES);
    let (_, one) = replayed(&rt, rt.alloc(), &alone, 1);
    let (_, all) = replayed(&rt, rt.alloc(), &text, 1);
    let (transcript, wanted) = (one.writer().held(), all.writer().held());
    assert!(rt; wanted.starts_with(transcript) && !transcript.is_empty());
    let refused = each_growth_refused(&heap, || {
        assert!(rt; is_right(&rt, &heap, rt.alloc(), &text, transcript, wanted));
    });
    assert!(rt; refused > 3);
    Ok(())
}
