// An attempt to connect, as a state machine that is polled.

ghost use Rattle.std.specs.Prelude.{◌≡◌, ◌≤◌, None};
ghost use Rattle.futures.specs.Poll.{OnPending};
ghost use Rattle.futures.specs.Task.{Keeps};
ghost use Rattle.he_turns.specs.declared.limits.TheConstants.{MAX_POLL_TICK};
ghost use Rattle.he_turns.specs.Attempt.{AttemptPolls, CanPoll, due_of, started_of, is_done};
ghost use Rattle.he_turns.specs.Listening.{Listens};

use crate::connector::Connector;
use crate::faults::AttemptFault;
use crate::limits::MAX_POLL_TICK;
use crate::trial::Trial;
use futures::task::{Context, Poll};
use he_addr::Ip;

/// The result of an attempt, and the tick of the poll that found it.
#[derive(Drop)]
pub struct Finish<Conn> {
    pub tick: u64,
    pub result: Result<Conn, AttemptFault>,
}

/// An attempt: it sleeps until its start, then connects, and is done once it has answered.
#[derive(Drop)]
pub enum AttemptFuture<C: Connector> {
    /// Not begun: the attempt's place in the race, its address and the tick of its start.
    Sleeping {
        place: usize,
        ip: Ip,
        start: u64,
    },
    /// Begun at the tick before `next`: the trial, or the fault with which the connector could not begin one. It
    /// isn't polled before `next`.
    Connecting {
        run: Result<C::Run, AttemptFault>,
        next: u64,
        is_fresh: bool,
    },
    /// Finished, with the tick at which it had begun.
    Done {
        started: u64,
    },
}

impl<C: Connector> AttemptFuture<C> {
    /// An attempt to connect to the address, at this place in the race, which sleeps until the tick `start`.
    pub fn new(place: usize, ip: Ip, start: u64) -> AttemptFuture<C>
        ensures { result ≡ AttemptFuture.Sleeping place ip start }
    {
        AttemptFuture::Sleeping { place, ip, start }
    }

    /// Polls at the tick `now`, at most `MAX_POLL_TICK`. Before its start it is pending. At the first poll at or
    /// after its start the attempt begins and is pending. From the next tick on it polls its trial, and returns the
    /// trial's answer, or the fault with which the connector could not begin one. After that it must not be polled
    /// again.
    pub fn poll_attempt(
        &mut self,
        connector: &mut C,
        now: u64,
        cx: &mut Context<'_>,
    ) -> Poll<Finish<C::Conn>>
        requires can { CanPoll C.Connector C.Run.Trial self.old }
        requires in_time { now ≤ MAX_POLL_TICK }
        ensures step { AttemptPolls C.Connector C.Run.Trial connector.old self.old now result connector.new self.new }
        ensures again { OnPending result (CanPoll C.Connector C.Run.Trial self.new) }
        ensures waits { OnPending result (Listens C.Connector C.Run.Trial cx.new self.new) }
        ensures kept { Keeps cx.old cx.new }
    {
        match self {
            AttemptFuture::Sleeping { place, ip, start } => {
                if now < *start {
                    return Poll::Pending;
                }
                let run = connector.begin(*place, *ip, now);
                *self = AttemptFuture::Connecting {
                    run,
                    next: now + 1,
                    is_fresh: true,
                };
                Poll::Pending
            }
            AttemptFuture::Connecting {
                run,
                next,
                is_fresh,
            } => {
                if *is_fresh && now < *next {
                    return Poll::Pending;
                }
                *is_fresh = false;
                let polled = match run {
                    Ok(run) => run.poll_trial(now, cx),
                    Err(fault) => Poll::Ready(Err(*fault)),
                };
                match polled {
                    Poll::Pending => Poll::Pending,
                    Poll::Ready(answer) => {
                        let started = next.saturating_sub(1);
                        *self = AttemptFuture::Done { started };
                        Poll::Ready(Finish {
                            tick: now,
                            result: answer,
                        })
                    }
                }
            }
            AttemptFuture::Done { started: _ } => unreachable!(),
        }
    }

    /// The next tick at which anything can change, if known: the start, the tick after it, or the trial's `due`.
    pub fn due(&self) -> Option<u64>
        ensures { result ≡ due_of C.Connector C.Run.Trial self.now }
    {
        match self {
            AttemptFuture::Sleeping {
                place: _,
                ip: _,
                start,
            } => Some(*start),
            AttemptFuture::Connecting {
                run,
                next,
                is_fresh,
            } => match run {
                Ok(run) if !*is_fresh => run.due(),
                _ => Some(*next),
            },
            AttemptFuture::Done { started: _ } => None,
        }
    }

    /// The tick at which the attempt began, if it has begun.
    pub fn started(&self) -> Option<u64>
        ensures { result ≡ started_of self.now }
    {
        match self {
            AttemptFuture::Sleeping {
                place: _,
                ip: _,
                start: _,
            } => None,
            AttemptFuture::Connecting {
                run: _,
                next,
                is_fresh: _,
            } => Some(next.saturating_sub(1)),
            AttemptFuture::Done { started } => Some(*started),
        }
    }

    /// Whether the attempt has answered.
    pub fn is_done(&self) -> bool
        ensures { result ≡ is_done self.now }
    {
        matches!(self, AttemptFuture::Done { started: _ })
    }
}
