// The connector of a recorded race: each address has its outcome of the timeline.

ghost use Rattle.std.specs.Prelude.{◌≡◌};

use futures::task::{Context, Poll};
use he_addr::Ip;
use he_timeline::{Outcome, Timeline};
use he_turns::{AttemptFault, Connector, Trial};
use std::alloc::{Allocator, Global};

/// The connector that gives a timeline's outcomes: a trial returns its address's outcome once the outcome's duration
/// has passed since its start. Its connections are `()`. It ignores pauses: the caller that polls it observes them.
#[derive(Drop)]
pub struct Scripted<'a, A: Allocator = Global> {
    timeline: &'a Timeline<A>,
}

impl<'a, A: Allocator> Scripted<'a, A> {
    /// The connector of this timeline.
    pub fn new(timeline: &'a Timeline<A>) -> Scripted<'a, A>
        ensures { result.timeline.now ≡ timeline.now }
    {
        Scripted { timeline }
    }
}

/// A trial that answers from a tick on, or never.
#[derive(Clone, Copy, Debug, PartialEq, Eq)]
pub enum ScriptedTrial {
    /// It succeeds at polls from this tick on.
    Succeeds(u64),
    /// It fails at polls from this tick on.
    Fails(u64),
    /// It is pending at every poll.
    Silent,
}

impl Trial for ScriptedTrial {
    type Conn = ();

    ghost use Rattle.he_race.specs.Scripted.{ScriptPolls, tick_of};

    ghost polls = { ScriptPolls };

    ghost due_tick = { tick_of };

    fn poll_trial(&mut self, now: u64, _cx: &mut Context<'_>) -> Poll<Result<(), AttemptFault>> {
        match *self {
            ScriptedTrial::Succeeds(tick) if now >= tick => Poll::Ready(Ok(())),
            ScriptedTrial::Fails(tick) if now >= tick => Poll::Ready(Err(AttemptFault::Failed)),
            _ => Poll::Pending,
        }
    }

    fn due(&self) -> Option<u64> {
        match *self {
            ScriptedTrial::Succeeds(tick) | ScriptedTrial::Fails(tick) => Some(tick),
            ScriptedTrial::Silent => None,
        }
    }
}

impl<'a, A: Allocator> Connector for Scripted<'a, A> {
    type Conn = ();

    type Run = ScriptedTrial;

    ghost use Rattle.std.specs.Prelude.{◌≡◌, Ok};
    ghost use Rattle.he_race.specs.Scripted.{script_of};

    ghost begins = { λ s place ip now answer left. (answer ≡ Ok (script_of s.timeline.now ip now)) × (left ≡ s) };

    fn begin(&mut self, _place: usize, ip: Ip, now: u64) -> Result<ScriptedTrial, AttemptFault> {
        Ok(match self.timeline.outcome(ip) {
            Some(Outcome::Ok(duration)) => ScriptedTrial::Succeeds(now + duration),
            Some(Outcome::Fail(duration)) => ScriptedTrial::Fails(now + duration),
            None => ScriptedTrial::Silent,
        })
    }
}
