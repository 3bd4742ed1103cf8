// One attempt of a recorded race, from its start to its finish.

ghost use Rattle.std.specs.Prelude.{◌≡◌, ◌<◌, ◌≤◌, Some, IfOk, length, slice_get};
ghost use Rattle.he_plan.specs.declared.attempts.Attempt.{Attempt};
ghost use Rattle.he_plan.specs.Finish.{fate_of};
ghost use Rattle.he_turns.specs.declared.limits.TheConstants.{MAX_POLL_TICK};
ghost use Rattle.he_turns.specs.Attempt.{AttemptPolls, CanPoll};
ghost use Rattle.he_race.specs.Running.{IsScripted, fate_at};

use crate::alone::Alone;
use crate::scripted::{Scripted, ScriptedTrial};
use futures::task::{Doorbell, Poll, Solo};
use he_addr::Memory;
use he_plan::{Attempt, Fate, Plan};
use he_timeline::Timeline;
use he_turns::limits::MAX_POLL_TICK;
use he_turns::{AttemptFuture, Connector, Finish};
use std::alloc::{Allocator, Global};

/// The fate of the plan's attempt at this place: polls it at its start and then at each tick at which it is due,
/// moved by the timeline's pauses, until it finishes or the limit has passed.
pub fn run_attempt<A: Allocator, B: Allocator>(
    alloc: Global,
    timeline: &Timeline<A>,
    plan: &Plan<B>,
    place: usize,
) -> Result<Fate, Memory>
    requires { place < length plan.now }
    ensures { IfOk result (λ fate. (x : Attempt) → slice_get plan.now place ≡ Some x → fate ≡ fate_of timeline.now x) }
{
    let solo = Solo::new(&Alone { alloc }, Doorbell::spinning()).map_err(|_| Memory)?;
    let attempt = plan.attempts()[place];
    Ok(run(&solo, timeline, attempt, Scripted::new(timeline)))
}

// Polls the attempt at its start, where it begins, one tick later, and when its trial is due.
fn run<A: Allocator, C: Connector<Conn = (), Run = ScriptedTrial>>(
    solo: &Solo,
    timeline: &Timeline<A>,
    attempt: Attempt,
    mut connector: C,
) -> Fate
    requires { IsScripted C.Connector timeline.now connector }
    ensures { result ≡ fate_of timeline.now attempt }
{
    let limit = timeline.settings().limit();
    let mut future = AttemptFuture::new(attempt.place, attempt.ip, attempt.tick);
    let mut tick = attempt.tick;
    for _ in 0..3u8 {
        if tick > limit {
            return Fate::Running;
        }
        match poll_at(solo, &mut future, &mut connector, tick) {
            Poll::Ready(finish) => return fate_at(&finish),
            Poll::Pending => match future.due() {
                Some(due) => tick = timeline.seen(due),
                None => return Fate::Running,
            },
        }
    }
    unreachable!()
}

// Polls once, as the only task of an executor.
fn poll_at<C: Connector>(
    solo: &Solo,
    future: &mut AttemptFuture<C>,
    connector: &mut C,
    tick: u64,
) -> Poll<Finish<C::Conn>>
    requires can { CanPoll C.Connector C.Run.Trial future.old }
    requires in_time { tick ≤ MAX_POLL_TICK }
    ensures { AttemptPolls C.Connector C.Run.Trial connector.old future.old tick result connector.new future.new }
{
    let mut cx = solo.begin();
    let polled = future.poll_attempt(connector, tick, &mut cx);
    cx.cancel();
    polled
}

fn fate_at(finish: &Finish<()>) -> Fate
    ensures { result ≡ fate_at finish.now }
{
    match finish.result {
        Ok(()) => Fate::Succeeded(finish.tick),
        Err(_) => Fate::Failed(finish.tick),
    }
}
