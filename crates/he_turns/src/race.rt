// A race as a future.

ghost use Rattle.std.specs.Prelude.{◌≡◌, None, IfOk, IfSome, IsSomeAnd};
ghost use Rattle.std.specs.Borrow.{Lends, sem};
ghost use Rattle.futures.specs.Poll.{IfReady, OnPending};
ghost use Rattle.futures.specs.Task.{Covers, IsArmed, Keeps};
ghost use Rattle.he_timeline.specs.Building.{unrecorded};
ghost use Rattle.he_turns.specs.contracts.race.RaceFuture.{the_row};
ghost use Rattle.he_turns.specs.Listening.{RaceHears, RaceListens};
ghost use Rattle.he_turns.specs.Racing.{RacePolls, RacePollsBy, fault_of};
ghost use Rattle.he_turns.specs.Resolving.{HeardAt};
ghost use Rattle.he_turns.specs.Kept.{IsLive};
ghost use Rattle.he_turns.specs.Turns.{GivesOf, IsNew};
ghost use Rattle.he_turns.specs.Winner.{MayPoll};

use crate::answers::{AnswerSource, NoAnswers};
use crate::connector::Connector;
use crate::faults::{RaceFault, TickFault};
use crate::live::{AfterPoll, Live, Raced};
use crate::ticker::Ticker;
use futures::Future;
use futures::task::{Context, Poll};
use he_addr::Memory;
use he_timeline::{Timeline, put};
use std::alloc::{Allocator, Global};
use std::mem::drop;

/// A race of attempts over a connector and a ticker (RFC 8305 sections 3 to 5). Poll it until it gives its result;
/// after that it returns `RaceFault::Over`.
#[derive(Drop)]
pub struct RaceFuture<C: Connector, T: Ticker> {
    connector: C,
    ticker: T,
    live: Option<Live<C>>,
}

impl<C: Connector, T: Ticker> RaceFuture<C, T> {
    /// A race with this timeline's settings, policy, host, answers and history, before its first turn. It ignores the
    /// rest of the timeline: outcomes come from the connector, and pauses from the ticker.
    pub fn new<A: Allocator>(
        alloc: Global,
        timeline: &Timeline<A>,
        connector: C,
        ticker: T,
    ) -> Result<RaceFuture<C, T>, Memory>
        ensures connector { IfOk result (λ race. race.connector ≡ connector) }
        ensures ticker { IfOk result (λ race. race.ticker ≡ ticker) }
        ensures live { IfOk result (λ race. IsSomeAnd race.live (MayPoll C.Connector C.Run.Trial race.connector)) }
        ensures recorded { IfOk result (λ race. IsSomeAnd race.live (λ live. live.recorder.recorded
            ≡ unrecorded timeline.now)) }
        ensures first { IfOk result (λ race. IsSomeAnd race.live (IsNew timeline.now)) }
    {
        let live = Live::new(alloc, timeline)?;
        Ok(RaceFuture {
            connector,
            ticker,
            live: Some(live),
        })
    }

    /// The ticker.
    pub fn ticker_mut(&mut self) -> &mut T
        ensures value { result.now ≡ self.old.ticker }
        ensures* writes_back { sem 𝓛 (Lends (the_row C.row T.row C.Conn.row C.Run.row) T.row self.entry result
            (λ w. record self.old { ticker = w })) }
    {
        &mut self.ticker
    }
}

impl<C: Connector, T: Ticker> RaceFuture<C, T> {
    // Polls the race: takes a turn, unless there was one at the ticker's tick or later, in which the source is polled
    // for missing answers; then asks the ticker for the next tick at which something is due.
    pub(crate) fn poll_hearing<S: AnswerSource>(
        &mut self,
        source: &mut S,
        cx: &mut Context<'_>,
    ) -> Poll<Result<Raced<C::Conn>, RaceFault>>
        requires { IfSome self.old.live (IsLive C.Connector C.Run.Trial) }
        ensures turn { RacePollsBy (λ c live now c' step. HeardAt S.hears C.Connector C.Run.Trial source.old c live now
            source.new c' step) T.Ticker self.old result self.new }
        ensures still { self.old.live ≡ None → source.new ≡ source.old }
        ensures over { IfReady result (λ _. self.new.live ≡ None) }
        ensures registered { OnPending result (IsArmed cx.new) }
        ensures waits { OnPending result (RaceListens C.Connector C.Run.Trial cx.new self.old.live self.new.live) }
        ensures source_waits { OnPending result (RaceHears S.AnswerSource cx.new source.old self.old.live source.new
            self.new.live) }
        ensures kept { Keeps cx.old cx.new }
    {
        let Some(live) = self.live.take() else {
            return Poll::Ready(Err(RaceFault::Over));
        };
        let now = self.ticker.now();
        match live.step(now, &mut self.connector, source, cx) {
            Err(_) => Poll::Ready(Err(RaceFault::Memory)),
            Ok(AfterPoll::Ended(raced)) => Poll::Ready(Ok(raced)),
            Ok(AfterPoll::Waits(live, tick)) => match self.ticker.wake_at(tick, cx) {
                Ok(()) => {
                    put(&mut self.live, Some(live));
                    Poll::Pending
                }
                Err(fault) => {
                    drop(live);
                    Poll::Ready(Err(fault_of(fault)))
                }
            },
        }
    }
}

impl<C: Connector, T: Ticker> Future for RaceFuture<C, T> {
    type Output = Result<Raced<C::Conn>, RaceFault>;

    ghost use Rattle.std.specs.Prelude.{IfSome};
    ghost use Rattle.he_turns.specs.Winner.{MayPoll};

    ghost can_poll = { λ s. IfSome s.live (MayPoll C.Connector C.Run.Trial s.connector) };

    ghost gives = { λ s r. GivesOf (C.Connector.reaches s.connector) s.live r };

    fn poll(&mut self, cx: &mut Context<'_>) -> Poll<Result<Raced<C::Conn>, RaceFault>>
        requires { IfSome self.old.live (MayPoll C.Connector C.Run.Trial self.old.connector) }
        ensures value { IfReady result (GivesOf (C.Connector.reaches self.old.connector) self.old.live) }
        ensures again { OnPending result (IfSome self.new.live (MayPoll C.Connector C.Run.Trial self.new.connector)) }
        ensures same { OnPending result ((x : _) → GivesOf (C.Connector.reaches self.new.connector) self.new.live x
            → GivesOf (C.Connector.reaches self.old.connector) self.old.live x) }
        ensures registered { OnPending result (Covers cx.new (λ _. ⊥)) }
        ensures kept { Keeps cx.old cx.new }
        ensures over { IfReady result (λ _. self.new.live ≡ None) }
        ensures turn { RacePolls C.Connector C.Run.Trial T.Ticker self.old result self.new }
        ensures waits { OnPending result (RaceListens C.Connector C.Run.Trial cx.new self.old.live self.new.live) }
    {
        self.poll_hearing(&mut NoAnswers, cx)
    }
}

// The race's fault for a fault of the ticker.
fn fault_of(fault: TickFault) -> RaceFault
    ensures { result ≡ fault_of fault }
{
    match fault {
        TickFault::Memory => RaceFault::Memory,
        TickFault::Lost => RaceFault::Clock,
    }
}
