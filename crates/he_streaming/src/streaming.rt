//! A whole input, round by round.
ghost use Rattle.std.specs.Prelude.{◌≡◌, ◌+◌, ◌^◌, ◌<◌, ◌≤◌, OnOk, length};
ghost use Rattle.he_stream.specs.declared.limits.TheConstants.{READ_SIZE};
ghost use Rattle.he_stream.specs.Input.{Gives, GivesSoFar};
ghost use Rattle.he_stream.specs.Output.{PutsAndEnds, PutsInRounds, PutsRoundsPart};
ghost use Rattle.he_board.specs.declared.limits.TheConstants.{LEAST_WORKERS, MOST_WORKERS};
ghost use Rattle.he_inputs.specs.declared.race_reader.Ending.TheVariants as endings;
ghost use Rattle.he_words.specs.Ranges.{most_races};
ghost use Rattle.he_inputs.specs.RaceReading.{ending_of};
ghost use Rattle.he_streaming.specs.Pieces.{IsAnywhere};
ghost use Rattle.he_streaming.specs.Rounds.{HasTold, IsAsked, PutsRound};
ghost use Rattle.he_streaming.specs.Stream.{Streams};

use crate::limits::{
    FIRST_ROOM, LEAST_WORKERS, MOST_ROOM, MOST_WORKERS, RACE_END, SHARED_ROOM, TRIED_BYTES,
};
use crate::race_texts::TextRequest;
use crate::rounds::{Held, RoundScope, put_round};
use crate::sharing::begin_shared;
use he_inputs::{Ending, RaceReader, StreamFault};
use he_stream::{InputStream, OutputStream};
use memchr::memmem::rfind;
use std::alloc::Allocator;
use std::thread::Threads;

// Reads an input to its end and puts the texts of its races into the output, as they come. `workers` workers share
// the races that a step of the input completes, if these are enough to be worth it.
pub(crate) fn stream_races<
    R: Threads + Sync,
    A: Allocator + Copy + Send + Sync,
    I: InputStream,
    O: OutputStream,
>(
    rt: &R,
    alloc: A,
    workers: u16,
    asked: &TextRequest,
    input: &mut I,
    output: &mut O,
) -> Result<(), StreamFault>
    requires anywhere { LEAST_WORKERS < workers → IsAnywhere (IsAsked asked.now) }
    requires some { LEAST_WORKERS ≤ workers }
    requires few { workers ≤ MOST_WORKERS }
    ensures { Streams (IsAsked asked.now) (Gives I.remaining I.takes input.old input.new)
        (GivesSoFar I.remaining I.takes input.old input.new)
        (PutsAndEnds O.contents O.puts O.flushes output.old output.new)
        (PutsRoundsPart O.contents O.puts O.flushes output.old output.new)
        (PutsInRounds O.contents O.puts O.flushes output.old output.new) result }
{
    let mut held = Held::new(alloc, first_room(workers));
    let mut text = Vec::new(alloc);
    loop {
        let searched = held.input.bytes().len();
        let ending = held.input.take(input, held.room)?;
        if !ending.is_open() {
            let is_broken = ending.is_broken();
            return end_held(alloc, &mut held, is_broken, asked, &mut text, output);
        }
        let begun = begin_shared(rt, alloc, &held, workers, asked, &mut text)?;
        let count = held.input.bytes().len() - searched;
        tell_held(alloc, &mut held, searched, begun, asked, &mut text, output)?;
        held.room = next_room(held.room, count);
    }
}

// The room for the first step: several workers share the bytes of one step.
fn first_room(workers: u16) -> usize
    ensures some { 0 < result }
    ensures few { result ≤ READ_SIZE }
{
    if workers == LEAST_WORKERS {
        FIRST_ROOM
    } else {
        SHARED_ROOM
    }
}

// The room for the step after one that took `count` bytes: four times as much if its room was filled, since much more
// may be ready then.
fn next_room(room: usize, count: usize) -> usize
    requires some { 0 < room }
    requires few { room ≤ READ_SIZE }
    ensures some { 0 < result }
    ensures few { result ≤ READ_SIZE }
{
    if count < room {
        room
    } else {
        (4 * room).min(MOST_ROOM)
    }
}

// Writes the races that are whole after the bytes from `searched` on were taken, and drops their bytes.
fn tell_held<A: Allocator + Copy, O: OutputStream>(
    alloc: A,
    held: &mut Held<A>,
    searched: usize,
    begun: RaceReader,
    asked: &TextRequest,
    text: &mut Vec<u8, A>,
    output: &mut O,
) -> Result<(), StreamFault>
    requires searched { searched ≤ length held.old.input.bytes }
    requires front { (held.old.reader.end ≡ 0) × (held.old.reader.races ≤ most_races) }
    requires lines { held.old.reader.lines + length held.old.input.bytes ≤ 2 ^ 54 }
    requires begun { HasTold (IsAsked asked.now) held.old.input.bytes held.old.reader.races held.old.reader.lines
        text.old.items begun }
    ensures room { OnOk result (held.new.room ≡ held.old.room) }
    ensures steps { OnOk result (held.new.input.steps ≡ held.old.input.steps) }
    ensures size { OnOk result (held.new.reader.lines + length held.new.input.bytes
        ≤ held.old.reader.lines + length held.old.input.bytes) }
    ensures told { PutsRound (IsAsked asked.now) O.contents O.puts O.flushes endings.Open held.old.input.bytes
        held.old.reader held.new.input.bytes held.new.reader output.old output.new result }
{
    let bytes = held.input.bytes();
    let is_short = bytes.len() - searched < held.room;
    let ready = reach_of(bytes, searched, is_short, held.tried);
    let reach = ready.max(begun.end);
    if reach == 0 {
        return Ok(());
    }
    let part = RoundScope {
        begun,
        reach,
        ending: Ending::Open,
    };
    put_round(alloc, held, part, asked, text, output)
}

// Writes the races of the held bytes, after which nothing follows: the input ended, or broke off.
fn end_held<A: Allocator + Copy, O: OutputStream>(
    alloc: A,
    held: &mut Held<A>,
    is_broken: bool,
    asked: &TextRequest,
    text: &mut Vec<u8, A>,
    output: &mut O,
) -> Result<(), StreamFault>
    requires front { (held.old.reader.end ≡ 0) × (held.old.reader.races ≤ most_races) }
    requires lines { held.old.reader.lines + length held.old.input.bytes ≤ 2 ^ 54 }
    ensures { PutsRound (IsAsked asked.now) O.contents O.puts O.flushes (ending_of is_broken) held.old.input.bytes
        held.old.reader held.new.input.bytes held.new.reader output.old output.new result }
{
    text.clear();
    let part = RoundScope {
        begun: held.reader,
        reach: held.input.bytes().len(),
        ending: Ending::of(is_broken),
    };
    put_round(alloc, held, part, asked, text, output)
}

// The end of the search for races in the bytes, of which those from `searched` on are new: the end of the last race
// that ends in the new ones, or, to find a fault after it, the end of the bytes. The latter is tried if nothing more
// was ready to be taken, or if the rest is longer than most races are, but not before the rest is twice as long as at
// the last try.
fn reach_of(bytes: &[u8], searched: usize, is_short: bool, tried: usize) -> usize
    requires { searched ≤ length bytes.now }
{
    let from = searched.saturating_sub(RACE_END.len() - 1);
    let ready = match rfind(&bytes[from..], RACE_END) {
        Some(at) => from + at + RACE_END.len(),
        None => 0,
    };
    let rest = bytes.len() - ready;
    let is_new = ready > 0 || rest / 2 >= tried;
    if is_new && (is_short || rest > TRIED_BYTES) {
        bytes.len()
    } else {
        ready
    }
}
