// The step that is due in a running race.

ghost use Rattle.std.specs.Prelude.{◌≡◌, ◌≤◌, IfErr, IfOk, Some, None};
ghost use Rattle.he_timeline.specs.declared.limits.TheConstants.{MAX_LIMIT};
ghost use Rattle.he_next.specs.Faults.{IsFaultOf, IsNextFault};
ghost use Rattle.he_next.specs.Steps.{IsStep, Says, action_of, due_action, end_action, end_tick, late_start, before_tick, tick_of, with_pause};

use crate::fault::NextFault;
use crate::so_far::{SoFar, paused_record, read_so_far};
use he_addr::Ip;
use he_plan::{Line, Outcome3};
use std::alloc::Allocator;

/// A pause of the client: it did nothing from the tick `from` up to, but not including, the tick `until`.
#[derive(Clone, Copy, Debug, PartialEq, Eq)]
pub struct Pause {
    pub from: u64,
    pub until: u64,
}

/// The action that is due.
#[derive(Clone, Copy, Debug, PartialEq, Eq)]
pub enum Action {
    /// The attempt at this place starts, at this tick, to this address.
    Start(usize, u64, Ip),
    /// Nothing is due before this tick, unless something happens.
    Wait(u64),
    /// The race is won by the attempt at this place, at this tick.
    Won(usize, u64),
    /// The race is exhausted at this tick: every attempt failed.
    Exhausted(u64),
    /// The race ended at its limit, this tick.
    Limit(u64),
}

/// The action that is due, and the pause that is a line of the record from now on.
#[derive(Clone, Copy, Debug, PartialEq, Eq)]
pub struct Step {
    pub pause: Option<Pause>,
    pub action: Action,
}

/// The step that is due at the tick `now` in the race of the record so far, in which `started` attempts were started.
/// The record is a race's text up to the present, without its `end`. A tick past the race's limit counts as the one
/// after it.
///
/// # Errors
///
/// - `Record` with the fault of the record with a line `end`; also if the pause that it must have cannot be its last
///   line, since a pause of its own ends later, or it has the maximum number of pauses.
/// - `NotOne` if the record has more than one race.
/// - `Memory` if an allocation failed.
pub fn next_step<A: Allocator + Copy>(
    alloc: A,
    lines: &[u8],
    started: usize,
    now: u64,
) -> Result<Step, NextFault>
    ensures step { IfOk result (λ step. IsStep lines.now started now step) }
    ensures fault { IfErr result (λ fault. IsNextFault lines.now started now fault) }
{
    let so_far = read_so_far(alloc, lines)?;
    let until = so_far.limit_tick(now);
    match so_far.late_start(started, until) {
        None => Ok(Step {
            pause: None,
            action: so_far.action(started, until),
        }),
        Some(from) => {
            let paused = paused_record(alloc, lines, from, until)?;
            let action = action_at(alloc, &paused, started, now)?;
            Ok(Step {
                pause: Some(Pause { from, until }),
                action,
            })
        }
    }
}

// The action that is due by the record, whether the client is late or not.
fn action_at<A: Allocator + Copy>(
    alloc: A,
    lines: &[u8],
    started: usize,
    now: u64,
) -> Result<Action, NextFault>
    ensures says { IfOk result (λ action. Says lines.now started now action) }
    ensures fault { IfErr result (λ fault. IsFaultOf lines.now fault) }
{
    let so_far = read_so_far(alloc, lines)?;
    Ok(so_far.action(started, so_far.limit_tick(now)))
}

impl<A: Allocator> SoFar<A> {
    // The tick, or the one after the limit if that comes first.
    fn limit_tick(&self, now: u64) -> u64
        requires { self.now.limit ≤ MAX_LIMIT }
        ensures { result ≡ tick_of self.now.limit now }
    {
        now.min(self.limit + 1)
    }

    // The start of the next attempt, if it is before the tick.
    fn late_start(&self, started: usize, now: u64) -> Option<u64>
        ensures { result ≡ late_start self.now.transcript started now }
    {
        match self.transcript.attempts().get(started) {
            Some(line) if line.tick < now => Some(line.tick),
            _ => None,
        }
    }

    fn action(&self, started: usize, now: u64) -> Action
        ensures { result ≡ action_of self.now.transcript started now }
    {
        let ending = self.transcript.result();
        if end_tick(ending) <= now {
            return end_action(ending);
        }
        due_action(
            ending,
            now,
            self.transcript.attempts().get(started).copied(),
        )
    }
}

fn end_tick(ending: Outcome3) -> u64
    ensures { result ≡ end_tick ending }
{
    match ending {
        Outcome3::Won(_, tick) | Outcome3::Exhausted(tick) | Outcome3::Limit(tick) => tick,
    }
}

fn end_action(ending: Outcome3) -> Action
    ensures { result ≡ end_action ending }
{
    match ending {
        Outcome3::Won(place, tick) => Action::Won(place, tick),
        Outcome3::Exhausted(tick) => Action::Exhausted(tick),
        Outcome3::Limit(tick) => Action::Limit(tick),
    }
}

fn due_action(ending: Outcome3, now: u64, next: Option<Line>) -> Action
    ensures { result ≡ due_action ending now next }
{
    match next {
        None => Action::Wait(end_tick(ending)),
        Some(line) if line.tick <= now => Action::Start(line.place, line.tick, line.ip),
        Some(line) => Action::Wait(line.tick),
    }
}
