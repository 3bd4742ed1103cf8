// Writes transcripts to texts.

ghost use Rattle.std.specs.Prelude.{◌≡◌, ◌+◌, ◌≤◌, ◌++◌, length, OnOk, OnErr};
ghost use Rattle.he_addr.specs.Prepending.{Prepends};
ghost use Rattle.he_words.specs.Appending.{AppendsText};
ghost use Rattle.he_write.specs.Writing.{start_text, last_text, mark_end, won_text};
ghost use Rattle.he_write.specs.Written.{attempt_text, attempts_text, result_text, transcript_text};

use crate::writing::{LINE_ROOM, write_bytes};
use he_addr::{Memory, WIDEST_NUMBER, prepend_byte, prepend_bytes, prepend_ip, prepend_number};
use he_plan::{Line, Mark, Outcome3, Transcript};
use he_words::{LINE_END, TOKEN_END};
use std::alloc::Allocator;

// The maximum length of an attempt's mark, in bytes: ` cancelled `, a number and the line's end.
const MARK_LEN: usize = 32;

// The maximum length of the beginning of an attempt's line, in bytes: `attempt `, and two numbers, each with a space.
const START_LEN: usize = 50;

// Nearly all lines written are those of attempts, so these are not written as lists of tokens: a line is built in a
// buffer, from its end to its front, and appended at once.

// A label, a number and the line's end.
#[inline(always)]
fn prepend_last(label: &[u8], number: u64, buffer: &mut [u8], end: usize) -> usize
    requires { (length label.now + WIDEST_NUMBER + 1 ≤ end) × (end ≤ length buffer.old) }
    ensures written { Prepends buffer.old end buffer.new result (last_text label.now number) }
    ensures near { end ≤ result + (length label.now + WIDEST_NUMBER + 1) }
{
    let line_end = prepend_byte(LINE_END, buffer, end);
    let digits = prepend_number(number, buffer, line_end);
    prepend_bytes(label, buffer, digits)
}

// MARK TICK, after a space, and the line's end.
fn prepend_mark(mark: Mark, buffer: &mut [u8], end: usize) -> usize
    requires { (MARK_LEN ≤ end) × (end ≤ length buffer.old) }
    ensures written { Prepends buffer.old end buffer.new result (mark_end mark) }
    ensures near { end ≤ result + MARK_LEN }
{
    match mark {
        Mark::Won(tick) => prepend_last(b" won ", tick, buffer, end),
        Mark::Failed(tick) => prepend_last(b" failed ", tick, buffer, end),
        Mark::Cancelled(tick) => prepend_last(b" cancelled ", tick, buffer, end),
    }
}

// attempt PLACE START, and the space after it.
fn prepend_start(place: u64, tick: u64, buffer: &mut [u8], end: usize) -> usize
    requires { (START_LEN ≤ end) × (end ≤ length buffer.old) }
    ensures { Prepends buffer.old end buffer.new result (start_text place tick) }
{
    let behind = prepend_byte(TOKEN_END, buffer, end);
    let start = prepend_number(tick, buffer, behind);
    let space = prepend_byte(TOKEN_END, buffer, start);
    let digits = prepend_number(place, buffer, space);
    prepend_bytes(b"attempt ", buffer, digits)
}

// attempt PLACE START ADDRESS MARK TICK
fn prepend_attempt(line: Line, buffer: &mut [u8], end: usize) -> usize
    requires { (LINE_ROOM ≤ end) × (end ≤ length buffer.old) }
    ensures { Prepends buffer.old end buffer.new result (attempt_text line) }
{
    let mark = prepend_mark(line.mark, buffer, end);
    let address = prepend_ip(line.ip, buffer, mark);
    prepend_start(line.place as u64, line.tick, buffer, address)
}

fn write_attempt<A: Allocator + Copy>(line: Line, out: &mut Vec<u8, A>) -> Result<(), Memory>
    ensures { AppendsText result out.old.items out.new.items (attempt_text line) }
{
    let mut buffer = [0; LINE_ROOM];
    let start = prepend_attempt(line, &mut buffer, LINE_ROOM);
    write_bytes(&buffer[start..], out)
}

// won PLACE TICK
fn prepend_won(place: u64, tick: u64, buffer: &mut [u8], end: usize) -> usize
    requires { (LINE_ROOM ≤ end) × (end ≤ length buffer.old) }
    ensures { Prepends buffer.old end buffer.new result (won_text place tick) }
{
    let space = prepend_last(b" ", tick, buffer, end);
    let digits = prepend_number(place, buffer, space);
    prepend_bytes(b"won ", buffer, digits)
}

// won PLACE TICK, exhausted TICK or limit TICK
fn prepend_result(ending: Outcome3, buffer: &mut [u8], end: usize) -> usize
    requires { (LINE_ROOM ≤ end) × (end ≤ length buffer.old) }
    ensures { Prepends buffer.old end buffer.new result (result_text ending) }
{
    match ending {
        Outcome3::Won(place, tick) => prepend_won(place as u64, tick, buffer, end),
        Outcome3::Exhausted(tick) => prepend_last(b"exhausted ", tick, buffer, end),
        Outcome3::Limit(tick) => prepend_last(b"limit ", tick, buffer, end),
    }
}

fn write_result<A: Allocator + Copy>(ending: Outcome3, out: &mut Vec<u8, A>) -> Result<(), Memory>
    ensures { AppendsText result out.old.items out.new.items (result_text ending) }
{
    let mut buffer = [0; LINE_ROOM];
    let start = prepend_result(ending, &mut buffer, LINE_ROOM);
    write_bytes(&buffer[start..], out)
}

fn write_attempts<A: Allocator + Copy>(lines: &[Line], out: &mut Vec<u8, A>) -> Result<(), Memory>
    ensures { AppendsText result out.old.items out.new.items (attempts_text lines.now) }
{
    for line in lines {
        write_attempt(*line, out)?;
    }
    Ok(())
}

fn write_whole<A: Allocator + Copy, B: Allocator>(
    transcript: &Transcript<B>,
    out: &mut Vec<u8, A>,
) -> Result<(), Memory>
    ensures { AppendsText result out.old.items out.new.items (transcript_text transcript.now) }
{
    write_attempts(transcript.attempts(), out)?;
    write_result(transcript.result(), out)
}

/// Appends the text of a transcript: for each attempt, by place, `attempt PLACE START ADDRESS MARK TICK`, where MARK
/// is `won`, `failed` or `cancelled`, and then `won PLACE TICK`, `exhausted TICK` or `limit TICK`, each with a line
/// end. On `Memory` the vector is unchanged.
pub fn write_transcript<A: Allocator + Copy, B: Allocator>(
    transcript: &Transcript<B>,
    out: &mut Vec<u8, A>,
) -> Result<(), Memory>
    ensures ok { OnOk result (out.new.items ≡ out.old.items ++ transcript_text transcript.now) }
    ensures err { OnErr result (out.new.items ≡ out.old.items) }
{
    let kept = out.len();
    let written = write_whole(transcript, out);
    if written.is_err() {
        out.truncate(kept);
    }
    written
}
