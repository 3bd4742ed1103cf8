//! The board and its calls.
ghost use Rattle.std.specs.Prelude.{◌≡◌, ◌+◌, ◌≤◌, ◌<◌, ◌⊎◌, ◌↔◌, ◌++◌, ◌∷◌, ℕ, [], if◌then◌else◌, IfOk, IsErrOf, IsNone};
ghost use Rattle.he_board.specs.Balance.{IsFresh};
ghost use Rattle.he_board.specs.declared.limits.TheConstants.{JOBS, RACES};

use crate::fault::BoardFault;
use crate::keys::{key, tick_and_place};
use crate::limits::{JOBS, LAST_TICK, NO_OFFER, PARTS, PLACES, RACES};
use crate::pass::Pass;
use crate::rule::Law;
use crate::view::{Layout, View};
use atomic_table::Table;
use std::alloc::{AllocError, Allocator, Global};

/// The words of the jobs and races of a board, which threads share by `&`.
#[derive(Drop)]
pub struct Board<A: Allocator = Global> {
    pub(crate) table: Table<(), View, Layout, Law, A>,
    pub ghost sized: { table.shared.table_id.words ≡ 1 + RACES + table.shared.key.jobs },
    pub ghost few_jobs: { table.shared.key.jobs ≤ JOBS },
    pub ghost few_races: { table.shared.key.races ≤ RACES },
}

// The words of a new board: no offer, and no job taken.
fn first_words<A: Allocator>(alloc: A, jobs: usize) -> Result<Vec<u64, A>, AllocError>
    requires { jobs ≤ JOBS }
    ensures { IfOk result (λ words. IsFresh jobs words.items) }
{
    let mut words = Vec::with_capacity(alloc, 1 + RACES + jobs)?;
    words.resize(1 + RACES, NO_OFFER)?;
    words.resize(1 + RACES + jobs, 0)?;
    Ok(words)
}

impl<A: Allocator + Copy> Board<A> {
    ghost use Rattle.he_board.specs.Notes.{blank};
    ghost use Rattle.he_board.specs.Passes.{IsPassOf, jobs_of, notes, races_of};

    /// A board without offers and taken jobs, and a pass with all its parts. Either number may be 0.
    ///
    /// Returns `Size` for more than `JOBS` jobs or more than `RACES` races, before it allocates, and `Memory` if the
    /// allocation fails.
    pub fn new(alloc: A, jobs: usize, races: usize) -> Result<(Board<A>, Pass), BoardFault>
        ensures size { IsErrOf result BoardFault.Size ↔ ((JOBS < jobs) ⊎ (RACES < races)) }
        ensures own { IfOk result (λ made. IsPassOf made.0 made.1) }
        ensures layout { IfOk result (λ made. (jobs_of made.0 ≡ jobs) × (races_of made.0 ≡ races)) }
        ensures noted { IfOk result (λ made. notes made.1 ≡ blank PARTS) }
    {
        if jobs > JOBS || races > RACES {
            return Err(BoardFault::Size);
        }
        let words = first_words(alloc, jobs)?;
        let (table, seat) = Table::of_words(alloc, words.as_slice(), &Layout { jobs, races })?;
        Ok((Board { table }, Pass { seat, parts: PARTS }))
    }
}

impl<A: Allocator> Board<A> {
    ghost use Rattle.he_board.specs.Notes.{count_of, given, joined, kept, key_of, knowing, least_of, looking, offering, taking, times, winner_of};
    ghost use Rattle.he_board.specs.Passes.{IsPassOf, jobs_of, notes, races_of};
    ghost use Rattle.he_board.specs.Plays.{IsAtMostNoted, IsTakenOnce};

    /// Tries to take the job. Of all calls for one job, by whatever passes, exactly one returns true.
    ///
    /// False means that the job was taken before, not that its work is done. One atomic step.
    pub fn take(&self, pass: &mut Pass, job: usize) -> bool
        requires own { IsPassOf self.now pass.old }
        requires job { job < jobs_of self.now }
        ensures own { IsPassOf self.now pass.new }
        ensures noted { notes pass.new ≡ (if result then taking job (notes pass.old) else knowing job
            (notes pass.old)) }

        // The notes again, field by field.
        ensures taken { (notes pass.new).taken ≡ (if result then (notes pass.old).taken ++ job ∷ [] else
            (notes pass.old).taken) }
        ensures known { (notes pass.new).known ≡ (notes pass.old).known ++ job ∷ [] }
        ensures offers { (notes pass.new).offers ≡ (notes pass.old).offers }
        ensures looked { (notes pass.new).looked ≡ (notes pass.old).looked }
        ensures parts { (notes pass.new).parts ≡ (notes pass.old).parts }
    {
        self.swap_job(pass, job) == 0
    }

    /// The least key offered to the race so far, or `NO_OFFER`.
    ///
    /// The word only decreases: the result is at most each key that this pass has offered and each value that it has
    /// seen, and the final winner's key is at most the result. Other passes may lower the word right afterwards. One
    /// atomic step.
    pub fn least(&self, pass: &mut Pass, race: usize) -> u64
        requires own { IsPassOf self.now pass.old }
        requires race { race < races_of self.now }
        ensures own { IsPassOf self.now pass.new }
        ensures noted { notes pass.new ≡ looking race result (notes pass.old) }
        ensures below { IsAtMostNoted race result (notes pass.old) }
    {
        self.load_winner(pass, race)
    }

    /// Offers the key of this tick (milliseconds) and place to the race. Returns the winner word before the offer:
    /// the least key offered until then, or `NO_OFFER`.
    ///
    /// If its key is below the result, the offer leads until a lower one comes. One atomic step.
    pub fn offer(&self, pass: &mut Pass, race: usize, tick: u64, place: usize) -> u64
        requires own { IsPassOf self.now pass.old }
        requires race { race < races_of self.now }
        requires tick { tick ≤ LAST_TICK }
        requires place { place < PLACES }
        ensures own { IsPassOf self.now pass.new }
        ensures noted { notes pass.new ≡ offering race (key_of tick place) result (notes pass.old) }
        ensures below { IsAtMostNoted race result (notes pass.old) }
    {
        self.lower_winner(pass, race, key(tick, place))
    }

    /// Splits a pass of at least two parts in two, so that another thread can step too. Of p parts the first gets p -
    /// p / 2 and all notes, the second p / 2 and no notes. One atomic step.
    pub fn fork(&self, pass: Pass) -> (Pass, Pass)
        requires own { IsPassOf self.now pass }
        requires parts { 2 ≤ (notes pass).parts }
        ensures own { IsPassOf self.now result.0 × IsPassOf self.now result.1 }
        ensures noted { (notes result.0 ≡ kept (notes pass)) × (notes result.1 ≡ given (notes pass)) }
    {
        self.cut(pass)
    }

    /// Joins two passes into one, with the parts and the notes of both, the first's notes before the second's. Two
    /// atomic steps.
    pub fn rejoin(&self, first: Pass, second: Pass) -> Pass
        requires own { IsPassOf self.now first × IsPassOf self.now second }
        ensures own { IsPassOf self.now result }
        ensures noted { notes result ≡ joined (notes first) (notes second) }
        ensures parts { (notes result).parts ≤ PARTS }
    {
        self.merge(first, second)
    }

    /// Shows that a pass with all parts, when no other pass exists, has itself taken each job that it knows to be
    /// taken, exactly once, by one of the passes that were rejoined into it. One atomic step.
    pub fn settle(&self, pass: &mut Pass)
        requires own { IsPassOf self.now pass.old }
        requires parts { (notes pass.old).parts ≡ PARTS }
        ensures own { IsPassOf self.now pass.new }
        ensures noted { notes pass.new ≡ notes pass.old }
        ensures taken { IsTakenOnce (notes pass.new) }
    {
        self.count_parts(pass);
    }

    /// The tick (milliseconds) and the place of the least offer to the race; None exactly if there was no offer. It
    /// needs a pass with all parts, when no other pass exists. One atomic step.
    ///
    /// Clause `below`: no value that the pass has looked at is below the winner's key. Clause `taken`: the pass has
    /// itself taken each job that it knows to be taken.
    pub fn winner(&self, pass: &mut Pass, race: usize) -> Option<(u64, usize)>
        requires own { IsPassOf self.now pass.old }
        requires race { race < races_of self.now }
        requires parts { (notes pass.old).parts ≡ PARTS }
        ensures own { IsPassOf self.now pass.new }
        ensures noted { notes pass.new ≡ looking race (least_of race (notes pass.old).offers) (notes pass.old) }
        ensures value { result ≡ winner_of (least_of race (notes pass.old).offers) }
        ensures none { IsNone result ↔ (count_of race (notes pass.old).offers ≡ 0) }
        ensures below { least_of race (notes pass.old).offers ≤ least_of race (notes pass.old).looked }
        ensures taken { IsTakenOnce (notes pass.old) }
    {
        let word = self.load_winner(pass, race);
        if word == NO_OFFER {
            return None;
        }
        Some(tick_and_place(word))
    }
}
