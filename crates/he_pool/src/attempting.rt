//! One attempt of a race, by a worker.
ghost use Rattle.std.specs.Prelude.{◌≡◌, ◌/◌, ◌<◌, ◌≤◌, List, All, Some, slice_get};
ghost use Rattle.he_board.specs.declared.limits.TheConstants.{PLACES};
ghost use Rattle.he_board.specs.Notes.{least_of};
ghost use Rattle.he_board.specs.Passes.{IsPassOf, notes, races_of};
ghost use Rattle.he_plan.specs.Attempts.{AreAttempts};
ghost use Rattle.he_plan.specs.declared.attempts.Attempt.{Attempt};
ghost use Rattle.he_plan.specs.declared.finish.Fate.TheVariants.{Skipped};
ghost use Rattle.he_timeline.specs.Race.{Race};
ghost use Rattle.he_pool.specs.Batch.{IsOfSuccess};
ghost use Rattle.he_pool.specs.Working.{IsHonest, IsLater};

use he_board::{Board, PLACES, Pass};
use he_plan::{Attempt, Fate, Plan, fate_of};
use he_timeline::Timeline;
use std::alloc::Allocator;

// The result of a job: its attempt's fate, or Skipped if it wasn't run.
#[derive(Clone, Copy)]
pub(crate) struct Done {
    pub(crate) job: usize,
    pub(crate) fate: Fate,
}

// Skips the attempt if it starts at or after the tick of the best offer so far. Otherwise runs it to its fate, and
// offers a success.
pub(crate) fn run_attempt<A: Allocator>(
    board: &Board<A>,
    pass: &mut Pass,
    timeline: &Timeline<A>,
    number: usize,
    place: usize,
    attempts: &[Attempt],
    attempt: &Attempt,
) -> Fate
    requires own { IsPassOf board.now pass.old }
    requires race { number < races_of board.now }
    requires place { place < PLACES }
    requires are { AreAttempts timeline.now attempts.now }
    requires stands { slice_get attempts.now place ≡ Some attempt.now }
    ensures own { IsPassOf board.now pass.new }
    ensures parts { (notes pass.new).parts ≡ (notes pass.old).parts }
    ensures taken { (notes pass.new).taken ≡ (notes pass.old).taken }
    ensures known { (notes pass.new).known ≡ (notes pass.old).known }
    ensures later { IsLater (notes pass.old) (notes pass.new) }
    ensures real { (races : List Race) → slice_get races number ≡ Some timeline.now
        → All (IsOfSuccess races) (notes pass.old).offers → All (IsOfSuccess races) (notes pass.new).offers }
    ensures honest { IsHonest timeline.now number place (notes pass.new) attempt.now result }
    ensures skips { least_of number (notes pass.old).looked / PLACES ≤ attempt.now.tick → result ≡ Skipped }
{
    let seen = board.least(pass, number);
    if attempt.tick >= seen / PLACES as u64 {
        return Fate::Skipped;
    }
    let fate = fate_of(timeline, attempt);
    if let Fate::Succeeded(finish) = fate {
        board.offer(pass, number, finish, place);
    }
    fate
}

// Runs the race's job at this place with its plan. If the plan has no such place, the job counts as skipped.
pub(crate) fn run_job<A: Allocator>(
    board: &Board<A>,
    pass: &mut Pass,
    timeline: &Timeline<A>,
    number: usize,
    place: usize,
    plan: &Plan<A>,
) -> Fate
    requires own { IsPassOf board.now pass.old }
    requires race { number < races_of board.now }
    requires place { place < PLACES }
    requires are { AreAttempts timeline.now plan.now }
    ensures own { IsPassOf board.now pass.new }
    ensures parts { (notes pass.new).parts ≡ (notes pass.old).parts }
    ensures taken { (notes pass.new).taken ≡ (notes pass.old).taken }
    ensures known { (notes pass.new).known ≡ (notes pass.old).known }
    ensures later { IsLater (notes pass.old) (notes pass.new) }
    ensures real { (races : List Race) → slice_get races number ≡ Some timeline.now
        → All (IsOfSuccess races) (notes pass.old).offers → All (IsOfSuccess races) (notes pass.new).offers }
    ensures honest { (x : Attempt) → slice_get plan.now place ≡ Some x
        → IsHonest timeline.now number place (notes pass.new) x result }
    ensures skips { (x : Attempt) → slice_get plan.now place ≡ Some x
        → least_of number (notes pass.old).looked / PLACES ≤ x.tick → result ≡ Skipped }
{
    let attempts = plan.attempts();
    match attempts.get(place) {
        Some(attempt) => run_attempt(board, pass, timeline, number, place, attempts, attempt),
        None => Fate::Skipped,
    }
}
