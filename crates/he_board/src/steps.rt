//! The single atomic steps on a board. Each changes at most one word, and the notes of one pass.
ghost use Rattle.std.specs.Prelude.{◌≡◌, ◌==◌, ◌+◌, ◌<◌, ◌≤◌, if◌then◌else◌};
ghost use Rattle.he_board.specs.Notes.{taking, knowing, looking, offering, kept, given, joined};
ghost use Rattle.he_board.specs.Passes.{IsPassOf, jobs_of, notes, races_of};
ghost use Rattle.he_board.specs.Plays.{IsAtMostNoted, IsDecided, IsTakenOnce};

use crate::board::Board;
use crate::limits::{NO_OFFER, PARTS, RACES};
use crate::pass::Pass;
use crate::rule::{CountsParts, Halves, LoadsWinner, LowersWinner, SwapsJob};
use std::alloc::Allocator;

impl<A: Allocator> Board<A> {
    // Writes 1 to the word of the job, and returns the old word.
    pub(crate) fn swap_job(&self, pass: &mut Pass, job: usize) -> u64
        requires own { IsPassOf self.now pass.old }
        requires job { job < jobs_of self.now }
        ensures own { IsPassOf self.now pass.new }
        ensures noted { notes pass.new ≡ (if result == 0 then taking job (notes pass.old) else knowing job
            (notes pass.old)) }
    {
        self.table
            .shared
            .swap::<SwapsJob>(&mut pass.seat, 1 + RACES + job, 1)
    }

    pub(crate) fn load_winner(&self, pass: &mut Pass, race: usize) -> u64
        requires own { IsPassOf self.now pass.old }
        requires race { race < races_of self.now }
        ensures own { IsPassOf self.now pass.new }
        ensures noted { notes pass.new ≡ looking race result (notes pass.old) }
        ensures below { IsAtMostNoted race result (notes pass.old) }
        ensures decided { (notes pass.old).parts ≡ PARTS → IsDecided race result (notes pass.old) }
    {
        self.table
            .shared
            .load::<LoadsWinner>(&mut pass.seat, 1 + race)
    }

    // Lowers the winner word of the race to the key if that is less, and returns the old word.
    pub(crate) fn lower_winner(&self, pass: &mut Pass, race: usize, key: u64) -> u64
        requires own { IsPassOf self.now pass.old }
        requires race { race < races_of self.now }
        requires key { key < NO_OFFER }
        ensures own { IsPassOf self.now pass.new }
        ensures noted { notes pass.new ≡ offering race key result (notes pass.old) }
        ensures below { IsAtMostNoted race result (notes pass.old) }
    {
        self.table
            .shared
            .fetch_min::<LowersWinner>(&mut pass.seat, 1 + race, key)
    }

    // Loads the word that no step changes. For a pass with all parts, when no other pass exists, this shows which
    // jobs it took.
    pub(crate) fn count_parts(&self, pass: &mut Pass)
        requires own { IsPassOf self.now pass.old }
        ensures own { IsPassOf self.now pass.new }
        ensures noted { notes pass.new ≡ notes pass.old }
        ensures taken { (notes pass.old).parts ≡ PARTS → IsTakenOnce (notes pass.old) }
    {
        self.table.shared.load::<CountsParts>(&mut pass.seat, 0);
    }

    pub(crate) fn cut(&self, pass: Pass) -> (Pass, Pass)
        requires own { IsPassOf self.now pass }
        requires parts { 2 ≤ (notes pass).parts }
        ensures own { IsPassOf self.now result.0 × IsPassOf self.now result.1 }
        ensures notes { (notes result.0 ≡ kept (notes pass)) × (notes result.1 ≡ given (notes pass)) }
    {
        let Pass { mut seat, parts } = pass;
        let other = self.table.shared.split_seat::<Halves>(&mut seat);
        let half = parts / 2;
        (
            Pass {
                seat,
                parts: parts - half,
            },
            Pass {
                seat: other,
                parts: half,
            },
        )
    }

    pub(crate) fn merge(&self, first: Pass, second: Pass) -> Pass
        requires own { IsPassOf self.now first × IsPassOf self.now second }
        ensures own { IsPassOf self.now result }
        ensures notes { notes result ≡ joined (notes first) (notes second) }
        ensures parts { (notes result).parts ≤ PARTS }
    {
        let Pass { mut seat, parts } = first;
        let Pass {
            seat: other,
            parts: more,
        } = second;
        self.table.shared.join_seat::<Halves>(&mut seat, other);
        // A join shows nothing about the words; this second load shows that the sum fits.
        self.table.shared.load::<CountsParts>(&mut seat, 0);
        Pass {
            seat,
            parts: parts + more,
        }
    }
}
