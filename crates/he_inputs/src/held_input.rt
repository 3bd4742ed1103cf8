//! The bytes of an input that were taken and not yet dropped.
ghost use Rattle.std.specs.Prelude.{◌≡◌, ◌↔◌, ◌+◌, ◌<◌, ◌≤◌, [], IfOk, IsTrue, OnErr, drop, length};
ghost use Rattle.he_stream.specs.Limits.{most_reads};
ghost use Rattle.he_stream.specs.declared.limits.TheConstants.{READ_SIZE};
ghost use Rattle.he_inputs.specs.HeldInputs.{TakesMore, ending_after, ending_told, gained};
ghost use Rattle.he_inputs.specs.declared.race_reader.Ending.TheVariants.{Open};

use crate::race_reader::Ending;
use he_addr::Memory;
use he_stream::limits::MOST_READS;
use he_stream::{InputStream, Taken, take_piece};
use std::alloc::Allocator;
use std::marker::Model;

/// The bytes that were taken of an input so far, without those that [`forget`](HeldInput::forget) dropped at the
/// front.
#[derive(Drop)]
pub struct HeldInput<A: Allocator> {
    // The bytes, and after them room for the next step.
    bytes: Vec<u8, A>,
    filled: usize,
    steps: u64,
}

impl<A: Allocator> Model for HeldInput<A> {
    ghost use Rattle.std.specs.Prelude.{◌≤◌, length, take};
    ghost use Rattle.he_stream.specs.Limits.{most_reads};
    ghost use Rattle.he_inputs.specs.HeldInputs.{HeldBytes};

    ghost Value = { HeldBytes };

    ghost view = { λ h. record { bytes = take h.filled h.bytes.items; steps = h.steps } };

    ghost invariant = { λ h. (h.filled ≤ length h.bytes.items) × (h.steps ≤ most_reads) };
}

impl<A: Allocator> HeldInput<A> {
    /// No bytes and no steps. It allocates nothing.
    pub fn new(alloc: A) -> HeldInput<A>
        ensures { result ≡ record { bytes = []; steps = 0 } }
    {
        HeldInput {
            bytes: Vec::new(alloc),
            filled: 0,
            steps: 0,
        }
    }

    /// Drops all bytes, and counts the steps from 0, for another input. The memory is used again.
    pub fn restart(&mut self)
        ensures { self.new ≡ record { bytes = []; steps = 0 } }
    {
        self.filled = 0;
        self.steps = 0;
    }

    /// The bytes that are held.
    pub fn bytes(&self) -> &[u8]
        ensures { result.now ≡ self.now.bytes }
    {
        &self.bytes[..self.filled]
    }

    /// Drops the first `count` bytes.
    pub fn forget(&mut self, count: usize)
        requires { count ≤ length self.old.bytes }
        ensures { self.new ≡ record self.old { bytes = drop count self.old.bytes } }
    {
        self.bytes.copy_within(count..self.filled, 0);
        self.filled -= count;
    }

    /// Appends the bytes that one step of the input gives, at most `room` (1 to
    /// [`READ_SIZE`](he_stream::limits::READ_SIZE)). It returns `Open` after a step that gave bytes, `Whole` at the
    /// end of the input, and `Broken` after a step that failed or if [`MOST_READS`](he_stream::limits::MOST_READS)
    /// steps did not reach the end. An interrupted step counts, and is tried again.
    ///
    /// # Errors
    ///
    /// `Memory` if an allocation failed. No byte of the input is lost.
    pub fn take<I: InputStream>(&mut self, input: &mut I, room: usize) -> Result<Ending, Memory>
        requires some { 0 < room }
        requires few { room ≤ READ_SIZE }
        ensures more { TakesMore I.InputStream input.old input.new self.old self.new (ending_told result) }
        ensures further { IfOk result (λ ending. ending ≡ Open → (self.old.steps < self.new.steps)
            × (self.new.steps ≤ most_reads)) }
    {
        while self.may_step() {
            match self.step(input, room)? {
                Taken::Bytes(_) => return Ok(Ending::Open),
                Taken::Interrupted => {}
                Taken::End => return Ok(Ending::Whole),
                Taken::Failed => return Ok(Ending::Broken),
            }
        }
        Ok(Ending::Broken)
    }

    // Whether another step is allowed.
    fn may_step(&self) -> bool
        ensures { IsTrue result ↔ (self.now.steps < most_reads) }
    {
        self.steps < MOST_READS
    }

    // One step of the input.
    fn step<I: InputStream>(&mut self, input: &mut I, room: usize) -> Result<Taken, Memory>
        requires some { 0 < room }
        requires few { room ≤ READ_SIZE }
        requires more { self.old.steps < most_reads }
        ensures more { IfOk result (λ taken. TakesMore I.InputStream input.old input.new self.old self.new
            (ending_after taken)) }
        ensures further { IfOk result (λ _. self.new.steps ≡ self.old.steps + 1) }
        ensures same { OnErr result ((self.new ≡ self.old) × (input.new ≡ input.old)) }
    {
        let taken = take_piece(input, &mut self.bytes, self.filled, room)?;
        self.steps += 1;
        self.filled += gained(taken);
        Ok(taken)
    }
}

// The number of bytes that a step gave.
fn gained(taken: Taken) -> usize
    ensures { result ≡ gained taken }
{
    match taken {
        Taken::Bytes(count) => count,
        _ => 0,
    }
}
