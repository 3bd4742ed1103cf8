// Replays, orders and explanations of texts that break off, over readers and writers that fail.

use he_addr::Memory;
use he_inputs::StreamFault;
use he_replay::{Content, Printer, TextRequest, replay};
use he_select::PolicyFault;
use he_stream::{FromReader, InputStream, ToWriter};
use he_words::{TextFault, TextKind};
use std::alloc::{Allocator, Global};
use std::io::Read;
use std::mem::drop;
use std::test::Fail;
use std::thread::Threads;
use stream_fakes::{FakeReader, FakeWriter};

pub const TEXT: &[u8] = b"race 1
source 2001:db8::2/64 1
source 192.0.2.2/24 1
route ::/0 1
route 0.0.0.0/0 1
aaaa 20 2001:db8:1::1
a 25 198.51.100.1
connect 2001:db8:1::1 ok 35
end
";

pub const TRANSCRIPT: &[u8] = b"attempt 0 20 2001:db8:1::1 won 55\nwon 0 55\n";

pub const ORDER: &[u8] = b"0 2001:db8:1::1 from 2001:db8::2\n1 198.51.100.1 from 192.0.2.2\nend\n";

const EXPLANATION: &[u8] =
    b"{\"file\":null,\"race\":1,\"line\":1,\"ms\":55,\"names_ms\":20,\"lost_ms\":0,\"unknown_ms\":0,\"machine_ms\":0,\
\"connecting_ms\":35,\"order\":[\
{\"place\":0,\"address\":\"2001:db8:1::1\",\"source\":\"2001:db8::2\"},\
{\"place\":1,\"address\":\"198.51.100.1\",\"source\":\"192.0.2.2\",\
\"rule\":\"6\",\"why\":\"prefer higher precedence\",\"own\":35,\"before\":40}],\"events\":[\
{\"tick\":20,\"event\":\"answer\",\"family\":\"aaaa\",\"usable\":1},\
{\"tick\":20,\"event\":\"attempt\",\"attempt\":0,\"address\":\"2001:db8:1::1\",\"cause\":\"aaaa answer\",\
\"held\":false,\"listed\":0,\"of\":1,\"turn\":\"leads\"},\
{\"tick\":25,\"event\":\"answer\",\"family\":\"a\",\"usable\":1},\
{\"tick\":55,\"event\":\"won\",\"attempt\":0}]}
";

// Contents whose text doesn't depend on the race's place in the input; and one whose text has that place.
pub const CONTENTS: [Content; 2] = [Content::Transcript, Content::Order];

pub const EXPLAINED: Content = Content::Course(Printer::Json);

// The output for the text above.
pub fn output_of(content: Content) -> &'static [u8] {
    match content {
        Content::Transcript => TRANSCRIPT,
        Content::Order => ORDER,
        _ => EXPLANATION,
    }
}

pub fn run_over<R: Threads + Sync, A: Allocator + Copy + Send + Sync, I: InputStream>(
    content: Content,
    rt: &R,
    alloc: A,
    input: &mut I,
    output: &mut ToWriter<FakeWriter>,
) -> Result<(), StreamFault> {
    let asked = TextRequest::of(content);
    replay(rt, alloc, &asked, 4, input, output)
}

// Whether the call over the reader and the writer returns this, has written this, and has flushed this number of
// times.
fn is_right<R: Threads + Sync>(
    rt: &R,
    alloc: Global,
    content: Content,
    reader: FakeReader<'_>,
    writer: FakeWriter,
    wanted: (Result<(), StreamFault>, &[u8], u64),
) -> bool {
    let mut input = FromReader::new(reader);
    let mut output = ToWriter::new(writer);
    let result = run_over(content, rt, alloc, &mut input, &mut output);
    let writer = output.writer();
    result == wanted.0 && writer.held() == wanted.1 && writer.flushes() == wanted.2
}

fn fault(line: u64, kind: TextKind) -> Result<(), StreamFault> {
    Err(StreamFault::Text(TextFault { line, kind }))
}

// Whether this first part of the text is unfinished if the input ends after it, and a failed read if it breaks there.
// Nothing is written of it.
fn is_cut_right<R: Threads + Sync>(rt: &R, alloc: Global, content: Content, cut: &[u8]) -> bool {
    let ends = cut.iter().filter(|byte| **byte == b'\n').count() as u64;
    let unfinished = fault(ends.saturating_add(1), TextKind::Unfinished);
    let whole = FakeReader::new(cut, 7);
    let broken = FakeReader::new(cut, 7).broken();
    is_right(
        rt,
        alloc,
        content,
        whole,
        FakeWriter::new(alloc),
        (unfinished, b"", 1),
    ) && is_right(
        rt,
        alloc,
        content,
        broken,
        FakeWriter::new(alloc),
        (Err(StreamFault::Read), b"", 1),
    )
}

// The number of first parts of the text, except the empty one and the whole, that end so.
fn right_cuts<R: Threads + Sync>(rt: &R, alloc: Global, content: Content) -> usize {
    let mut right: usize = 0;
    for count in 1..TEXT.len() {
        if !is_cut_right(rt, alloc, content, &TEXT[..count]) {
            return right;
        }
        right = right.saturating_add(1);
    }
    right
}

// The number of limits on the bytes that the writer takes, each below all, with which exactly these are written.
fn right_rooms<R: Threads + Sync>(rt: &R, alloc: Global, content: Content) -> usize {
    let wanted = output_of(content);
    let mut right: usize = 0;
    for room in 0..wanted.len() {
        let failing = FakeWriter::new(alloc).with_room(room);
        let full = FakeWriter::new(alloc).with_room(room).taking_none();
        let write = Err(StreamFault::Write);
        if !is_right(
            rt,
            alloc,
            content,
            FakeReader::new(TEXT, 64),
            failing,
            (write, &wanted[..room], 0),
        ) || !is_right(
            rt,
            alloc,
            content,
            FakeReader::new(TEXT, 64),
            full,
            (write, &wanted[..room], 0),
        ) {
            return right;
        }
        right = right.saturating_add(1);
    }
    right
}

// The texts after which the reader breaks, whether the text above comes before them, and the result.
static BROKEN: [(bool, &[u8], Result<(), StreamFault>); 6] = [
    (false, b"", Err(StreamFault::Read)),
    (true, b"", Err(StreamFault::Read)),
    (false, b"race 1\n", Err(StreamFault::Read)),
    (
        false,
        b"race 1\npolicy ::ffff:0:0/96 35 4\na 010 none\n",
        Err(StreamFault::Text(TextFault {
            line: 2,
            kind: TextKind::Policy(PolicyFault::NoDefault),
        })),
    ),
    (
        true,
        b"race 3\n",
        Err(StreamFault::Text(TextFault {
            line: 10,
            kind: TextKind::Header,
        })),
    ),
    (
        true,
        b"race 1\na 010 none\n",
        Err(StreamFault::Text(TextFault {
            line: 11,
            kind: TextKind::Number,
        })),
    ),
];

// The number of these that end as required, and have the output of the text if it comes before them: flushed when the
// text was whole, and again at the end.
fn right_breaks<R: Threads + Sync>(
    rt: &R,
    alloc: Global,
    content: Content,
) -> Result<usize, Memory> {
    let mut right: usize = 0;
    for (is_behind, more, answer) in &BROKEN {
        let mut text = Vec::new(alloc);
        let mut wanted = b"".as_slice();
        let mut flushes = 1;
        if *is_behind {
            text.extend_from_slice(TEXT)?;
            wanted = output_of(content);
            flushes = 2;
        }
        text.extend_from_slice(more)?;
        let reader = FakeReader::new(&text, 5).broken();
        let writer = FakeWriter::new(alloc);
        let is_told = is_right(
            rt,
            alloc,
            content,
            reader,
            writer,
            (*answer, wanted, flushes),
        );
        if !is_told || !is_right_in_two(rt, alloc, content, &text, (*answer, wanted)) {
            return Ok(right);
        }
        right = right.saturating_add(1);
    }
    Ok(right)
}

// Whether the result and the output are these wherever the text, after which the reader breaks, is cut into two
// pieces.
fn is_right_in_two<R: Threads + Sync>(
    rt: &R,
    alloc: Global,
    content: Content,
    text: &[u8],
    wanted: (Result<(), StreamFault>, &[u8]),
) -> bool {
    for cut in 0..=text.len() {
        let (before, behind) = text.split_at(cut);
        let rest = FakeReader::new(behind, usize::MAX).broken();
        let mut input = FromReader::new(FakeReader::new(before, usize::MAX).chain(rest));
        let mut output = ToWriter::new(FakeWriter::new(alloc));
        let result = run_over(content, rt, alloc, &mut input, &mut output);
        let is_same = result == wanted.0 && output.writer().held() == wanted.1;
        drop(input);
        drop(output);
        if !is_same {
            return false;
        }
    }
    true
}

// The number of reads of the text, byte by byte, and as many writes and flushes, of which each may return
// `Interrupted` once and change nothing.
fn right_interruptions<R: Threads + Sync>(rt: &R, alloc: Global, content: Content) -> usize {
    let mut right: usize = 0;
    for number in 0..=TEXT.len() {
        let number = number as u64;
        let reader = FakeReader::new(TEXT, 1).interrupted_at(number);
        let writer = FakeWriter::new(alloc).with_step(3).interrupted_at(number);
        if !is_right(
            rt,
            alloc,
            content,
            reader,
            writer,
            (Ok(()), output_of(content), 2),
        ) {
            return right;
        }
        right = right.saturating_add(1);
    }
    right
}

// A flush that fails, after a whole output and after the output before a fault; and the empty text.
fn right_ends<R: Threads + Sync>(rt: &R, alloc: Global, content: Content) -> bool {
    let wanted = output_of(content);
    let failing = FakeWriter::new(alloc).failing_flush();
    let failing_too = FakeWriter::new(alloc).failing_flush();
    let write = Err(StreamFault::Write);
    is_right(
        rt,
        alloc,
        content,
        FakeReader::new(TEXT, 64),
        failing,
        (write, wanted, 0),
    ) && is_right(
        rt,
        alloc,
        content,
        FakeReader::new(b"race 1\nend", 64),
        failing_too,
        (write, b"", 0),
    ) && is_right(
        rt,
        alloc,
        content,
        FakeReader::new(b"", 1),
        FakeWriter::new(alloc),
        (Ok(()), b"", 1),
    )
}

#[test]
fn hostile_streams_are_told(rt: HostRuntime) -> Result<(), Fail> {
    let alloc = rt.alloc();
    let [transcript, order] = CONTENTS;
    for content in [transcript, order, EXPLAINED] {
        let right = (
            right_cuts(&rt, alloc, content),
            right_rooms(&rt, alloc, content),
            right_breaks(&rt, alloc, content)?,
            right_interruptions(&rt, alloc, content),
            right_ends(&rt, alloc, content),
        );
        assert_eq!(rt;
            right,
            (
                TEXT.len() - 1,
                output_of(content).len(),
                BROKEN.len(),
                TEXT.len() + 1,
                true
            )
        );
    }
    Ok(())
}
