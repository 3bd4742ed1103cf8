//! Rounds: a round writes the races that are whole in the held bytes, each before the next is read, and puts their
//! texts into the output.
ghost use Rattle.std.specs.Prelude.{◌≡◌, ◌+◌, ◌≤◌, ◌^◌, [], false, IfOk, OnOk, length};
ghost use Rattle.he_inputs.specs.declared.race_reader.Ending.TheVariants as endings;
ghost use Rattle.he_inputs.specs.RaceReading.{IsWithin};
ghost use Rattle.he_streaming.specs.Rounds.{HasTold, IsAsked, PutsRound, PutsTold, Reaches, Tells};

use crate::limits::{ARENA_BYTES, MOST_RACES};
use crate::race_texts::{RacePlace, TextRequest};
use bumpalo::Bump;
use he_addr::Memory;
use he_inputs::{Ending, HeldInput, InputFault, RaceReader, RaceReaderFault, StreamFault};
use he_stream::{OutputStream, write_whole};
use std::alloc::Allocator;

// The bytes that a call holds of its input, and its position in the input.
#[derive(Drop)]
pub(crate) struct Held<A: Allocator> {
    // The bytes that were taken and not written yet.
    pub(crate) input: HeldInput<A>,
    // The room for the next step.
    pub(crate) room: usize,
    // The reader of the input, at the front of the bytes: the races that were written, and their lines.
    pub(crate) reader: RaceReader,
    // The number of the bytes that were searched when a race in them was not whole yet.
    pub(crate) tried: usize,
}

impl<A: Allocator> Held<A> {
    // Nothing is taken yet; the first step gets this room.
    pub(crate) fn new(alloc: A, room: usize) -> Held<A>
        ensures empty { result.input ≡ record { bytes = []; steps = 0 } }
        ensures start { result.reader ≡ record { end = 0; races = 0; lines = 0 } }
        ensures room { result.room ≡ room }
    {
        Held {
            input: HeldInput::new(alloc),
            room,
            reader: RaceReader::START,
            tried: 0,
        }
    }
}

// The task of a round for some bytes of an input.
#[derive(Clone, Copy)]
pub(crate) struct RoundScope {
    // The position of the reader, whose races are written already.
    pub(crate) begun: RaceReader,
    // The end of the search: no race is read that begins there or later, unless nothing follows the bytes, or nothing
    // may follow the races.
    pub(crate) reach: usize,
    // Whether more may follow the bytes, or the input ended or broke off.
    pub(crate) ending: Ending,
}

impl RoundScope {
    // Whether the reader goes on from its position.
    fn goes_on(&self, reader: RaceReader) -> bool
        ensures open { result ≡ false → self.now.ending ≡ endings.Open }
        ensures reached { result ≡ false → self.now.reach ≤ reader.end }
    {
        self.ending != Ending::Open || reader.end < self.reach || reader.races == MOST_RACES
    }
}

// The result of a round for some bytes.
#[derive(Clone, Copy)]
pub(crate) struct RoundEnd {
    // The position of the reader.
    pub(crate) reader: RaceReader,
    // The fault of the input after that, if there is one.
    pub(crate) fault: Option<InputFault>,
}

// Writes the races at the front of the held bytes, after those with which the part begins, puts the texts of all into
// the output, and drops these races from the held bytes. The texts are put as one, which is flushed. If nothing
// follows the bytes, or they have a fault, the output is flushed even without text. The memory of `text` is reused.
pub(crate) fn put_round<A: Allocator + Copy, O: OutputStream>(
    alloc: A,
    held: &mut Held<A>,
    part: RoundScope,
    asked: &TextRequest,
    text: &mut Vec<u8, A>,
    output: &mut O,
) -> Result<(), StreamFault>
    requires lines { held.old.reader.lines + length held.old.input.bytes ≤ 2 ^ 54 }
    requires begun { HasTold (IsAsked asked.now) held.old.input.bytes held.old.reader.races held.old.reader.lines
        text.old.items part.begun }
    ensures room { OnOk result (held.new.room ≡ held.old.room) }
    ensures steps { OnOk result (held.new.input.steps ≡ held.old.input.steps) }
    ensures size { OnOk result (held.new.reader.lines + length held.new.input.bytes
        ≤ held.old.reader.lines + length held.old.input.bytes) }
    ensures told { PutsRound (IsAsked asked.now) O.contents O.puts O.flushes part.ending held.old.input.bytes
        held.old.reader held.new.input.bytes held.new.reader output.old output.new result }
{
    let told = tell_races(alloc, held.input.bytes(), part, asked, text)?;
    let reader = put_told(part.ending, told, text.as_slice(), output)?;
    let all = part.reach == held.input.bytes().len();
    held.input.forget(reader.end);
    held.reader = RaceReader { end: 0, ..reader };
    held.tried = if all { held.input.bytes().len() } else { 0 };
    Ok(())
}

// Puts the text of the races into the output, and returns the position of the reader. Puts nothing if more may
// follow, there is no fault and no text.
fn put_told<O: OutputStream>(
    ending: Ending,
    told: RoundEnd,
    text: &[u8],
    output: &mut O,
) -> Result<RaceReader, StreamFault>
    ensures { PutsTold O.contents O.puts O.flushes ending told text.now output.old output.new result }
{
    if ending != Ending::Open || told.fault.is_some() || !text.is_empty() {
        write_whole(output, text)?;
    }
    match told.fault {
        None => Ok(told.reader),
        Some(fault) => Err(fault.into()),
    }
}

// Appends the texts that are asked for of the races at the front of the bytes, after those with which the part
// begins. Each race is in an arena, whose memory the next one reuses.
pub(crate) fn tell_races<A: Allocator + Copy>(
    alloc: A,
    bytes: &[u8],
    part: RoundScope,
    asked: &TextRequest,
    text: &mut Vec<u8, A>,
) -> Result<RoundEnd, Memory>
    requires { IsWithin bytes.now part.begun }
    ensures told { IfOk result (Tells (IsAsked asked.now) part.ending bytes.now part.begun text.old.items
        text.new.items) }
    ensures reached { IfOk result (λ told. Reaches part.ending bytes.now part.reach told.reader) }
{
    let mut arena = Bump::try_with_capacity(alloc, ARENA_BYTES)?;
    let mut reader = part.begun;
    while part.goes_on(reader) {
        let number = reader.races + 1;
        let line = reader.lines + 1;
        match reader.next_recorded(&arena, bytes, part.ending) {
            Ok(Some(found)) => {
                let (recorded, race) = found;
                let at = RacePlace { number, line };
                asked.write(&arena, race, &recorded, at, text)?;
            }
            Ok(None) => break,
            Err(RaceReaderFault::Input(fault)) => {
                return Ok(RoundEnd {
                    reader,
                    fault: Some(fault),
                });
            }
            Err(RaceReaderFault::Memory) => return Err(Memory),
        }
        // If the arena can't be reset, it grows; that is no fault.
        let _ = arena.reset();
    }
    Ok(RoundEnd {
        reader,
        fault: None,
    })
}
