// A race whose answers come while it runs.

ghost use Rattle.std.specs.Prelude.{◌≡◌, None, IfOk, IfSome, IsSomeAnd};
ghost use Rattle.std.specs.Borrow.{Lends, sem};
ghost use Rattle.futures.specs.Poll.{IfReady, OnPending};
ghost use Rattle.futures.specs.Task.{Covers, Keeps};
ghost use Rattle.he_timeline.specs.Building.{unrecorded};
ghost use Rattle.he_turns.specs.contracts.resolving.ResolvingRace.{the_row};
ghost use Rattle.he_turns.specs.Listening.{RaceHears, RaceListens};
ghost use Rattle.he_turns.specs.Racing.{RacePollsBy};
ghost use Rattle.he_turns.specs.OfSource.{MayGive};
ghost use Rattle.he_turns.specs.Resolving.{HeardAt};
ghost use Rattle.he_turns.specs.Turns.{IsNew};
ghost use Rattle.he_turns.specs.Winner.{MayPoll};

use crate::answers::AnswerSource;
use crate::connector::Connector;
use crate::faults::RaceFault;
use crate::live::Raced;
use crate::race::RaceFuture;
use crate::ticker::Ticker;
use futures::Future;
use futures::task::{Context, Poll};
use he_addr::Memory;
use he_timeline::Timeline;
use std::alloc::{Allocator, Global};

/// A race whose answers come while it runs (RFC 8305 section 3): each turn polls its source for each family without
/// an answer, and the source's answer counts as come at the turn's tick. Otherwise it is a [`RaceFuture`].
#[derive(Drop)]
pub struct ResolvingRace<C: Connector, S: AnswerSource, T: Ticker> {
    source: S,
    race: RaceFuture<C, T>,
}

impl<C: Connector, S: AnswerSource, T: Ticker> ResolvingRace<C, S, T> {
    /// A race with this timeline's settings, policy, host, answers and history, before its first turn. For a family
    /// without an answer in the timeline, the source answers.
    pub fn new<A: Allocator>(
        alloc: Global,
        timeline: &Timeline<A>,
        connector: C,
        source: S,
        ticker: T,
    ) -> Result<ResolvingRace<C, S, T>, Memory>
        ensures source { IfOk result (λ new. new.source ≡ source) }
        ensures connector { IfOk result (λ new. new.race.connector ≡ connector) }
        ensures ticker { IfOk result (λ new. new.race.ticker ≡ ticker) }
        ensures live { IfOk result (λ new. IsSomeAnd new.race.live (MayPoll C.Connector C.Run.Trial
            new.race.connector)) }
        ensures recorded { IfOk result (λ new. IsSomeAnd new.race.live (λ live. live.recorder.recorded
            ≡ unrecorded timeline.now)) }
        ensures first { IfOk result (λ new. IsSomeAnd new.race.live (IsNew timeline.now)) }
    {
        let race = RaceFuture::new(alloc, timeline, connector, ticker)?;
        Ok(ResolvingRace { source, race })
    }

    /// The ticker.
    pub fn ticker_mut(&mut self) -> &mut T
        ensures value { result.now ≡ self.old.race.ticker }
        ensures* writes_back { sem 𝓛 (Lends (the_row C.row S.row T.row C.Conn.row C.Run.row) T.row self.entry result
            (λ w. record self.old { race = record self.old.race { ticker = w } })) }
    {
        self.race.ticker_mut()
    }
}

impl<C: Connector, S: AnswerSource, T: Ticker> Future for ResolvingRace<C, S, T> {
    type Output = Result<Raced<C::Conn>, RaceFault>;

    ghost use Rattle.std.specs.Prelude.{IfSome};
    ghost use Rattle.he_turns.specs.Winner.{MayPoll};

    ghost can_poll = { λ s. IfSome s.race.live (MayPoll C.Connector C.Run.Trial s.race.connector) };

    ghost gives = { λ s r. MayGive S.AnswerSource.hears s.source (C.Connector.reaches s.race.connector) s.race.live r };

    fn poll(&mut self, cx: &mut Context<'_>) -> Poll<Result<Raced<C::Conn>, RaceFault>>
        requires { IfSome self.old.race.live (MayPoll C.Connector C.Run.Trial self.old.race.connector) }
        ensures value { IfReady result (MayGive S.hears self.old.source (C.Connector.reaches self.old.race.connector)
            self.old.race.live) }
        ensures again { OnPending result (IfSome self.new.race.live (MayPoll C.Connector C.Run.Trial
            self.new.race.connector)) }
        ensures same { OnPending result ((x : _) → MayGive S.hears self.new.source
            (C.Connector.reaches self.new.race.connector) self.new.race.live x → MayGive S.hears self.old.source
            (C.Connector.reaches self.old.race.connector) self.old.race.live x) }
        ensures registered { OnPending result (Covers cx.new (λ _. ⊥)) }
        ensures kept { Keeps cx.old cx.new }
        ensures over { IfReady result (λ _. self.new.race.live ≡ None) }
        ensures turn { RacePollsBy (λ c live now c' step. HeardAt S.hears C.Connector C.Run.Trial self.old.source c
            live now self.new.source c' step) T.Ticker self.old.race result self.new.race }
        ensures still { self.old.race.live ≡ None → self.new.source ≡ self.old.source }
        ensures waits { OnPending result (RaceListens C.Connector C.Run.Trial cx.new self.old.race.live
            self.new.race.live) }
        ensures source_waits { OnPending result (RaceHears S.AnswerSource cx.new self.old.source self.old.race.live
            self.new.source self.new.race.live) }
    {
        self.race.poll_hearing(&mut self.source, cx)
    }
}
