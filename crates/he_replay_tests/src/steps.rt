// The results of each step of a reader and of a writer.

use he_stream::{Flushed, FromReader, InputStream, OutputStream, Put, Taken, ToWriter};
use std::alloc::Global;
use stream_fakes::{FakeReader, FakeWriter};

// The results of steps into a buffer of three bytes, and whether a read has failed after each.
static TAKEN: [(Taken, bool); 6] = [
    (Taken::Bytes(2), false),
    (Taken::Interrupted, false),
    (Taken::Bytes(2), false),
    (Taken::Bytes(1), false),
    (Taken::Failed, true),
    (Taken::Failed, true),
];

static TAKEN_TO_THE_END: [(Taken, bool); 4] = [
    (Taken::Bytes(3), false),
    (Taken::Bytes(2), false),
    (Taken::End, false),
    (Taken::End, false),
];

// The results of steps with three bytes, and whether a write has failed after each.
static PUT: [(Put, bool); 4] = [
    (Put::Bytes(2), false),
    (Put::Interrupted, false),
    (Put::Bytes(1), false),
    (Put::Failed, true),
];

static PUT_TO_THE_FULL: [(Put, bool); 2] = [(Put::Bytes(3), false), (Put::Full, true)];

// The number of steps with the required results, up to the first wrong one.
fn right_takes(reader: FakeReader<'_>, wanted: &[(Taken, bool)]) -> usize {
    let mut input = FromReader::new(reader);
    let mut room = [0u8; 3];
    let mut right: usize = 0;
    for step in wanted {
        if (input.take(&mut room), input.failure().is_some()) != *step {
            return right;
        }
        right = right.saturating_add(1);
    }
    right
}

fn right_puts(writer: FakeWriter, wanted: &[(Put, bool)]) -> usize {
    let mut output = ToWriter::new(writer);
    let mut right: usize = 0;
    for step in wanted {
        if (output.put(b"abc"), output.failure().is_some()) != *step {
            return right;
        }
        right = right.saturating_add(1);
    }
    right
}

// A flush that is interrupted, one that is done, and one that fails.
fn flushes(alloc: Global) -> bool {
    let mut output = ToWriter::new(FakeWriter::new(alloc).interrupted_at(0));
    let mut failing = ToWriter::new(FakeWriter::new(alloc).failing_flush());
    let first = output.flush() == Flushed::Interrupted && !output.is_flushed();
    let then = output.flush() == Flushed::Done && output.is_flushed() && output.failure().is_none();
    let fails = failing.flush() == Flushed::Failed
        && !failing.is_flushed()
        && failing.failure().is_some();
    first && then && fails && output.writer().flushes() == 1
}

#[test]
fn steps_answer_what_was_answered(rt: HostRuntime) {
    let alloc = rt.alloc();
    let breaking = FakeReader::new(b"abcde", 2).interrupted_at(1).broken();
    let failing = FakeWriter::new(alloc)
        .with_room(3)
        .with_step(2)
        .interrupted_at(1);
    let full = FakeWriter::new(alloc).with_room(3).taking_none();
    let right = (
        right_takes(breaking, &TAKEN),
        right_takes(FakeReader::new(b"abcde", 9), &TAKEN_TO_THE_END),
        right_puts(failing, &PUT),
        right_puts(full, &PUT_TO_THE_FULL),
        flushes(alloc),
    );
    assert_eq!(rt; right, (6, 4, 4, 2, true));
}
