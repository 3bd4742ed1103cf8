// The plan of a race, and its attempts up to its stop.

ghost use Rattle.std.specs.Prelude.{◌≡◌, ℕ, ◌≤◌, ◌-◌, [], length, take, IfOk, IfSome, IfNone};
ghost use Rattle.he_plan.specs.Attempts.{AreAttempts, MayStart};
ghost use Rattle.he_timeline.specs.Seen.{IsLeast};
ghost use Rattle.he_plan.specs.Finish.{IsWinner};
ghost use Rattle.he_plan.specs.Planning.{is_beaten};
ghost use Rattle.he_timeline.specs.Timeline.{IsRace};
ghost use Rattle.he_plan.specs.Transcript.{stop_of};
ghost use Rattle.he_plan.specs.RaceState.{IsStopped, IsUnderway};

use crate::attempts::Plan;
use crate::finish::{Fate, next_winner};
use crate::race_state::RaceState;
use he_addr::Memory;
use he_timeline::Timeline;
use std::alloc::Allocator;

/// The attempts that the race makes if no success stops it, by place: an attempt that succeeds counts as still
/// running.
pub fn plan<A: Allocator + Copy, B: Allocator>(
    alloc: A,
    timeline: &Timeline<B>,
) -> Result<Plan<A>, Memory>
    ensures { IfOk result (AreAttempts timeline.now) }
{
    let mut underway = RaceState::new(alloc);
    while let Some(tick) = underway.next_tick(timeline) {
        underway.start(alloc, timeline, tick)?;
    }
    Ok(Plan::new(underway.into_attempts()))
}

// Runs the race from its start: the attempts that start before the first success of an earlier one, and their winner
// (its finish and place).
pub(crate) fn run_to_stop<A: Allocator + Copy, B: Allocator>(
    alloc: A,
    timeline: &Timeline<B>,
    mut underway: RaceState<A>,
) -> Result<(RaceState<A>, Option<(u64, usize)>), Memory>
    requires underway { IsUnderway timeline.now underway }
    requires none { underway.fates ≡ [] }
    ensures { IfOk result (λ stopped. IsStopped timeline.now stopped.0 stopped.1) }
{
    let mut winner = None;
    while let Some(tick) = unbeaten_tick(timeline, &underway, winner) {
        underway.start(alloc, timeline, tick)?;
        winner = winner_with_last(winner, underway.fates());
    }
    Ok((underway, winner))
}

// The least tick at which the next attempt may start, if no attempt has succeeded by then.
fn unbeaten_tick<A: Allocator + Copy, B: Allocator>(
    timeline: &Timeline<B>,
    underway: &RaceState<A>,
    winner: Option<(u64, usize)>,
) -> Option<u64>
    requires { IsUnderway timeline.now underway.now }
    ensures some { IfSome result (IsLeast (MayStart timeline.now underway.now.attempts)) }
    ensures none { IfNone result ((t : ℕ) → MayStart timeline.now underway.now.attempts t
        → stop_of timeline.now winner ≤ t) }
    ensures race { IsRace timeline.now }
{
    match underway.next_tick(timeline) {
        Some(tick) if !is_beaten(winner, tick) => Some(tick),
        _ => None,
    }
}

// Whether there is a winner that finishes at or before the tick.
fn is_beaten(winner: Option<(u64, usize)>, tick: u64) -> bool
    ensures { result ≡ is_beaten winner tick }
{
    match winner {
        Some(winner) => winner.0 <= tick,
        None => false,
    }
}

// The winner of the fates, from the winner of all but the last.
fn winner_with_last(winner: Option<(u64, usize)>, fates: &[Fate]) -> Option<(u64, usize)>
    requires { IsWinner (take (length fates.now - 1) fates.now) winner }
    ensures { IsWinner fates.now result }
{
    match fates {
        [] => winner,
        [.., fate] => next_winner(winner, fates.len() - 1, *fate),
    }
}
