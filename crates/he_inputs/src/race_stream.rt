//! The races of an input that is taken step by step.
ghost use Rattle.std.specs.Prelude.{ℕ, List, ◌≡◌, ◌↔◌, ◌<◌, ◌≤◌, ◌^◌, IsTrue, OnOk};
ghost use Rattle.he_timeline.specs.Race.{Race};
ghost use Rattle.he_words.specs.Ranges.{most_races};
ghost use Rattle.he_stream.specs.Limits.{most_reads};
ghost use Rattle.he_inputs.specs.RaceStreams.{HandsNext, HasHanded, at_start, races_after};
ghost use Rattle.he_inputs.specs.RaceStreamSteps.{GoesOn, PassesHeld};
ghost use Rattle.he_inputs.specs.declared.race_reader.Ending.TheVariants.{Open};

use crate::held_input::HeldInput;
use crate::race_reader::{Ending, RaceReader, RaceReaderFault};
use he_addr::Memory;
use he_stream::InputStream;
use he_timeline::Timeline;
use std::alloc::Allocator;
use std::marker::Model;

// The room for a step of the input, in bytes.
const STEP_ROOM: usize = 65_536;

/// A stream of races: it takes an input step by step, and returns its races one by one. It holds the input after the
/// last race returned: at most twice the text of one race, and the bytes of one step.
#[derive(Drop)]
pub struct RaceStream<A: Allocator> {
    held: HeldInput<A>,
    // Whether more bytes may follow those held.
    ending: Ending,
    // The offset in the bytes held at which the last race returned begins, with its record lines.
    start: usize,
    // The position after the last race returned.
    reader: RaceReader,
    // The number of bytes after that position at the last try, which found no whole race; 0 after a race.
    tried: usize,
}

impl<A: Allocator> Model for RaceStream<A> {
    ghost use Rattle.he_inputs.specs.RaceStreams.{StreamState};
    ghost use Rattle.he_inputs.specs.RaceStreamSteps.{IsStream, state_of};

    ghost Value = { StreamState };

    ghost view = { λ s. state_of s.held s.start s.reader s.ending };

    ghost invariant = { λ s. IsStream s.held s.start s.reader };
}

impl<A: Allocator> RaceStream<A> {
    /// A stream that has taken nothing. It allocates nothing.
    pub fn new(alloc: A) -> RaceStream<A>
        ensures { result ≡ at_start }
    {
        RaceStream {
            held: HeldInput::new(alloc),
            ending: Ending::Open,
            start: 0,
            reader: RaceReader::START,
            tried: 0,
        }
    }

    /// Starts over with another input. The memory is used again.
    pub fn restart(&mut self)
        ensures { self.new ≡ at_start }
    {
        self.held.restart();
        self.ending = Ending::Open;
        self.start = 0;
        self.reader = RaceReader::START;
        self.tried = 0;
    }

    /// The number of races returned so far.
    pub fn races(&self) -> usize
        ensures { result ≡ self.now.races }
    {
        self.reader.races
    }

    /// The number of lines of these races, record lines included. The next race begins on the line after them.
    pub fn lines(&self) -> u64
        ensures lines { result ≡ self.now.lines }
        ensures few { result ≤ 2 ^ 54 }
    {
        self.reader.lines
    }

    /// The bytes of the last race returned, with its record lines. They are kept until the next call of
    /// [`next`](RaceStream::next) or `restart`; without a race they may be empty.
    pub fn text(&self) -> &[u8]
        ensures { result.now ≡ self.now.text }
    {
        &self.held.bytes()[self.start..self.reader.end]
    }

    /// Returns the next race, allocated in the arena, and takes as much of the input as this needs. None if the input
    /// ended after the last race. `input` must be that of all calls since `new` or `restart`.
    ///
    /// # Errors
    ///
    /// - `Input(Text)` with the fault of the text after the races returned so far. Its line is counted over the whole
    ///   input, from 1. The input is not read further if no later bytes mend the fault.
    /// - `Input(Read)` if the input broke off before a fault of the text was found: a step failed, or
    ///   [`MOST_READS`](he_stream::limits::MOST_READS) steps did not reach the end.
    /// - `Memory` if an allocation failed. The races returned and the position are unchanged, and no byte is lost.
    pub fn next<I: InputStream, B: Allocator + Copy>(
        &mut self,
        arena: B,
        input: &mut I,
    ) -> Result<Option<Timeline<B>>, RaceReaderFault>
        ensures next { (first : I) (races : List Race) (front : List ℕ)
            → HasHanded I.InputStream first input.old self.old races front
            → HandsNext I.InputStream first input.new self.new races front result }
        ensures counted { self.new.races ≡ races_after self.old.races result }
        ensures few { self.new.races ≤ most_races }
    {
        while self.is_open() {
            if let Some(race) = self.next_held(arena)? {
                return Ok(Some(race));
            }
            self.take(input)?;
        }
        self.next_held(arena)
    }

    // Whether more bytes may follow those held.
    fn is_open(&self) -> bool
        ensures { IsTrue result ↔ (self.now.ending ≡ Open) }
    {
        self.ending.is_open()
    }

    // Reads the next race of the bytes held. After a try without a whole race it waits until there are twice as many
    // bytes, unless the input has ended: so the total work stays linear in the bytes.
    fn next_held<B: Allocator + Copy>(
        &mut self,
        arena: B,
    ) -> Result<Option<Timeline<B>>, RaceReaderFault>
        ensures passes { PassesHeld self.old self.new result }
        ensures few { (self.old.races ≤ most_races) × (self.new.races ≤ most_races) }
    {
        let bytes = self.held.bytes();
        let start = self.reader.end;
        let rest = bytes.len() - start;
        if self.ending.is_open() && rest / 2 < self.tried {
            return Ok(None);
        }
        match self.reader.next(arena, bytes, self.ending)? {
            Some(race) => {
                self.start = start;
                self.tried = 0;
                Ok(Some(race))
            }
            None => {
                self.tried = rest;
                Ok(None)
            }
        }
    }

    // Drops the races passed, and takes the bytes of one step.
    fn take<I: InputStream>(&mut self, input: &mut I) -> Result<(), Memory>
        requires { self.old.ending ≡ Open }
        ensures on { GoesOn I.InputStream input.old input.new self.old self.new }
        ensures further { OnOk result (self.new.ending ≡ Open → (self.old.steps < self.new.steps)
            × (self.new.steps ≤ most_reads)) }
    {
        self.held.forget(self.reader.end);
        self.start = 0;
        self.reader.end = 0;
        self.ending = self.held.take(input, STEP_ROOM)?;
        Ok(())
    }
}
