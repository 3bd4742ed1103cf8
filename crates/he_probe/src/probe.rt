//! One address that is probed.
ghost use Rattle.std.specs.Prelude.{◌≡◌, ◌-◌, ◌≤◌, ◌↔◌, IfNone, IfSome, IsSome, None, Some, max};
ghost use Rattle.futures.specs.Task.{Keeps};
ghost use Rattle.he_turns.specs.declared.attempt.AttemptFuture.TheVariants.{Sleeping};
ghost use Rattle.he_turns.specs.declared.limits.TheConstants.{MAX_POLL_TICK};
ghost use Rattle.he_turns.specs.Listening.{Listens};
ghost use Rattle.he_probe.specs.Probing.{IsClosed, IsReady, ProbePolls, outcome_by, row_of};

use futures::task::{Context, Poll};
use he_addr::Ip;
use he_timeline::Outcome;
use he_turns::{AttemptFuture, Connector, Finish};

/// The result for an address.
#[derive(Clone, Copy, Debug, PartialEq, Eq)]
pub struct ProbeRow {
    pub ip: Ip,
    /// None if the attempt had no answer in its time.
    pub outcome: Option<Outcome>,
}

/// An attempt to connect to an address, or its result.
#[derive(Drop)]
pub struct Probe<C: Connector> {
    pub(crate) ip: Ip,
    // None after the attempt's answer or its end: its socket is closed.
    pub(crate) attempt: Option<AttemptFuture<C>>,
    // The tick at which the attempt ends without an answer.
    pub(crate) end: u64,
    pub(crate) outcome: Option<Outcome>,
}

impl<C: Connector> Probe<C> {
    /// An attempt that starts at one tick and ends at another if it has no answer by then. The connector gets `place`
    /// as the attempt's place.
    pub fn new(place: usize, ip: Ip, start: u64, end: u64) -> Probe<C>
        ensures new { result ≡ record {
          ip = ip;
          attempt = Some (Sleeping place ip start);
          end = end;
          outcome = None;
        } }
        ensures ready { IsReady C.Connector C.Run.Trial result }
    {
        Probe {
            ip,
            attempt: Some(AttemptFuture::new(place, ip, start)),
            end,
            outcome: None,
        }
    }

    /// Polls the attempt at the tick, at most `MAX_POLL_TICK`, and returns the tick of its next poll; None if it is
    /// over.
    pub fn poll_probe(&mut self, connector: &mut C, now: u64, cx: &mut Context<'_>) -> Option<u64>
        requires ready { IsReady C.Connector C.Run.Trial self.old }
        requires in_time { now ≤ MAX_POLL_TICK }
        ensures polls { ProbePolls C.Connector C.Run.Trial connector.old self.old now connector.new self.new }
        ensures ready { IsReady C.Connector C.Run.Trial self.new }
        ensures ip { self.new.ip ≡ self.old.ip }
        ensures open { IsSome result ↔ IsSome self.new.attempt }
        ensures closed { IfNone result (IsClosed self.new) }
        ensures by_end { IfSome result (λ due. due ≤ self.old.end) }
        ensures waits { IfSome self.new.attempt (Listens C.Connector C.Run.Trial cx.new) }
        ensures kept { Keeps cx.old cx.new }
    {
        let Some(mut attempt) = self.attempt.take() else {
            return None;
        };
        match attempt.poll_attempt(connector, now, cx) {
            Poll::Ready(finish) => {
                let start = attempt.started().unwrap_or(now);
                self.outcome = Some(outcome_of(finish, start));
                None
            }
            Poll::Pending if now >= self.end => None,
            Poll::Pending => {
                let due = attempt.due().unwrap_or(self.end).min(self.end);
                self.attempt = Some(attempt);
                Some(due)
            }
        }
    }

    /// The result so far.
    pub fn row(&self) -> ProbeRow
        ensures { result ≡ row_of self.now }
    {
        ProbeRow {
            ip: self.ip,
            outcome: self.outcome,
        }
    }
}

// The outcome of an attempt that began at the tick. Its connection, if any, is closed.
fn outcome_of<Conn: Drop>(finish: Finish<Conn>, start: u64) -> Outcome
    ensures { result ≡ outcome_by finish.result (max (finish.tick - start) 1) }
{
    let Finish {
        tick,
        result: answer,
    } = finish;
    let duration = tick.saturating_sub(start).max(1);
    match answer {
        Ok(_) => Outcome::Ok(duration),
        Err(_) => Outcome::Fail(duration),
    }
}
