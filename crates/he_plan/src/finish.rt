// When an attempt finishes, and which attempt wins.

ghost use Rattle.std.specs.Prelude.{◌≡◌};
ghost use Rattle.he_plan.specs.Planning.{next_winner};
ghost use Rattle.he_plan.specs.Finish.{fate_of, IsInTime, IsWinner};
ghost use Rattle.he_timeline.specs.Timeline.{IsRace};

use crate::attempts::Attempt;
use he_timeline::{Outcome, Timeline};
use std::alloc::Allocator;

/// The fate of an attempt: it succeeds or fails at a tick at or before the limit, it is still running at the limit,
/// or it was not examined, since it starts at or after a success.
#[derive(Clone, Copy, Debug, PartialEq, Eq)]
pub enum Fate {
    Succeeded(u64),
    Failed(u64),
    Running,
    Skipped,
}

/// The fate of the attempt by the limit of the timeline's race. A finish is after the start and at or before the
/// limit.
pub fn fate_of<A: Allocator>(timeline: &Timeline<A>, attempt: &Attempt) -> Fate
    ensures value { result ≡ fate_of timeline.now attempt.now }
    ensures range { IsInTime timeline.now attempt.now result }
    ensures race { IsRace timeline.now }
{
    fate_by_limit(timeline, attempt)
}

fn fate_by_limit<A: Allocator>(timeline: &Timeline<A>, attempt: &Attempt) -> Fate
    ensures value { result ≡ fate_of timeline.now attempt.now }
    ensures race { IsRace timeline.now }
{
    let limit = timeline.settings().limit();
    let Some(outcome) = timeline.outcome(attempt.ip) else {
        return Fate::Running;
    };
    let Some(over) = attempt.tick.checked_add(outcome.duration()) else {
        return Fate::Running;
    };
    let finish = timeline.seen(over);
    if finish > limit {
        return Fate::Running;
    }
    match outcome {
        Outcome::Ok(_) => Fate::Succeeded(finish),
        Outcome::Fail(_) => Fate::Failed(finish),
    }
}

/// The winner's finish and place: of the successes with the least finish, the one with the least place.
pub fn winner(fates: &[Fate]) -> Option<(u64, usize)>
    ensures { IsWinner fates.now result }
{
    let mut best = None;
    for (place, fate) in fates.iter().enumerate() {
        best = next_winner(best, place, *fate);
    }
    best
}

pub(crate) fn next_winner(
    best: Option<(u64, usize)>,
    place: usize,
    fate: Fate,
) -> Option<(u64, usize)>
    ensures { result ≡ next_winner best place fate }
{
    let Fate::Succeeded(finish) = fate else {
        return best;
    };
    match best {
        Some(winner) if winner.0 <= finish => best,
        _ => Some((finish, place)),
    }
}
