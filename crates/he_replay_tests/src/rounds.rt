// The output while the input still comes: of 100 races, each of which one read gives.

use crate::hostile::{CONTENTS, TEXT, output_of, run_over};
use he_addr::Memory;
use he_inputs::StreamFault;
use he_replay::{Content, Printer, TextRequest, replay};
use he_stream::{FromReader, ToWriter};
use std::alloc::Global;
use std::test::Fail;
use std::thread::Threads;
use stream_fakes::{FakeReader, FakeWriter};

const RACES: usize = 100;

fn text_of(alloc: Global, races: usize) -> Result<Vec<u8>, Memory> {
    let mut text = Vec::new(alloc);
    for _ in 0..races {
        text.extend_from_slice(TEXT)?;
    }
    Ok(text)
}

// The result if the output takes the text of `races` races and no more; the number of reads and of flushes; and the
// number of bytes that the output then holds.
fn run<R: Threads + Sync>(
    rt: &R,
    alloc: Global,
    content: Content,
    reader: FakeReader<'_>,
    races: usize,
) -> (Result<(), StreamFault>, u64, u64, usize) {
    let room = output_of(content).len().saturating_mul(races);
    let mut input = FromReader::new(reader);
    let mut output = ToWriter::new(FakeWriter::new(alloc).with_room(room));
    let result = run_over(content, rt, alloc, &mut input, &mut output);
    let writer = output.writer();
    let held = writer.held().len();
    (result, input.reader().reads(), writer.flushes(), held)
}

// With room for 64 races the 65th write fails: the races before it were written and flushed, each before the next
// read, and nothing is read after it. And a reader that fails after the 65th race leaves all 65 written.
#[test]
fn races_are_told_as_they_come(rt: HostRuntime) -> Result<(), Fail> {
    let alloc = rt.alloc();
    let text = text_of(alloc, RACES)?;
    let front = text_of(alloc, 65)?;
    let size = TEXT.len();
    for content in CONTENTS {
        let one = output_of(content).len();
        let failing = run(&rt, alloc, content, FakeReader::new(&text, size), 64);
        let whole = run(&rt, alloc, content, FakeReader::new(&text, size), RACES);
        let breaking = FakeReader::new(&front, size).broken();
        let broken = run(&rt, alloc, content, breaking, RACES);
        let some = one.saturating_mul(64);
        let most = one.saturating_mul(65);
        let all = one.saturating_mul(RACES);
        assert_eq!(rt; failing, (Err(StreamFault::Write), 65, 64, some));
        assert_eq!(rt; broken, (Err(StreamFault::Read), 66, 66, most));
        assert_eq!(rt; whole, (Ok(()), 101, 101, all));
    }
    Ok(())
}

// Of two races, each of which one read gives, the second is printed with its number and its line in the input.
#[test]
fn stories_know_their_place(rt: HostRuntime) -> Result<(), Fail> {
    let alloc = rt.alloc();
    let text = text_of(alloc, 2)?;
    let mut input = FromReader::new(FakeReader::new(&text, TEXT.len()));
    let mut output = ToWriter::new(FakeWriter::new(alloc));
    let result = replay(
        &rt,
        alloc,
        &TextRequest::of(Content::Course(Printer::Story)),
        4,
        &mut input,
        &mut output,
    );
    let writer = output.writer();
    let held = writer.held();
    assert_eq!(rt; (result, writer.flushes()), (Ok(()), 3));
    assert!(rt; held.starts_with(FIRST) && has_line(held, SECOND));
    Ok(())
}

const FIRST: &[u8] = b"race 1 (line 1): ";

const SECOND: &[u8] = b"race 2 (line 10): ";

fn has_line(text: &[u8], beginning: &[u8]) -> bool {
    text.split(|byte| *byte == b'\n')
        .any(|line| line.starts_with(beginning))
}
