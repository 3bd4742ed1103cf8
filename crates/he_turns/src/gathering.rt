// The answers of a source, without attempts to connect.

ghost use Rattle.std.specs.Prelude.{◌≡◌, ◌≤◌, ◌&&◌, ◌||◌, None, IfOk, IfSome, IsSomeAnd, OnOk, is_some, nat_lt, not};
ghost use Rattle.futures.specs.Poll.{IfReady, OnPending};
ghost use Rattle.futures.specs.Task.{Covers, IsArmed, Keeps};
ghost use Rattle.he_timeline.specs.declared.limits.TheConstants.{MAX_LIMIT};
ghost use Rattle.he_timeline.specs.Building.{unrecorded};
ghost use Rattle.he_turns.specs.Gathering.{IsGathered, MayGather};
ghost use Rattle.he_turns.specs.Heard.{Hears, HearsOf};

use crate::answers::AnswerSource;
use crate::faults::{RaceFault, TickFault};
use crate::hearing::record_answer;
use crate::ticker::Ticker;
use futures::Future;
use futures::task::{Context, Poll};
use he_addr::{Family, Memory};
use he_timeline::limits::MAX_LIMIT;
use he_timeline::{Timeline, TimelineBuilder};
use std::alloc::{Allocator, Global};

/// Takes the answers of a source as a [`ResolvingRace`](crate::ResolvingRace) does, and connects to none of their
/// addresses. Poll it until it gives the timeline with these answers: once both families have one, or at the tick
/// `MAX_LIMIT`.
#[derive(Drop)]
pub struct Gathering<S: AnswerSource, T: Ticker> {
    // None after the result.
    gathered: Option<Gathered>,
    source: S,
    ticker: T,
}

// The timeline with the answers so far.
#[derive(Drop)]
pub(crate) struct Gathered {
    alloc: Global,
    recorded: TimelineBuilder,
}

impl<S: AnswerSource, T: Ticker> Gathering<S, T> {
    /// The answers for a race with this timeline's settings, policy, host, answers and history: the source answers for
    /// each family without an answer in the timeline.
    ///
    /// # Errors
    ///
    /// `Memory` if an allocation fails.
    pub fn new<A: Allocator>(
        alloc: Global,
        timeline: &Timeline<A>,
        source: S,
        ticker: T,
    ) -> Result<Gathering<S, T>, Memory>
        ensures source { IfOk result (λ new. new.source ≡ source) }
        ensures given { IfOk result (λ new. IsSomeAnd new.gathered (λ given. given.recorded ≡ unrecorded timeline.now)) }
        ensures valid { IfOk result (λ new. IfSome new.gathered IsGathered) }
    {
        let recorded = TimelineBuilder::without_record(alloc, timeline)?;
        Ok(Gathering {
            gathered: Some(Gathered { alloc, recorded }),
            source,
            ticker,
        })
    }
}

impl Gathered {
    // Polls the source once for each family without an answer, IPv6 first, and records its answers as come at the
    // tick.
    fn hear<S: AnswerSource>(
        &mut self,
        now: u64,
        source: &mut S,
        cx: &mut Context<'_>,
    ) -> Result<(), Memory>
        requires valid { IsGathered self.old }
        requires in_time { now ≤ MAX_LIMIT }
        ensures heard { OnOk result (Hears S.hears source.old self.old.recorded now source.new self.new.recorded) }
        ensures valid { OnOk result (IsGathered self.new) }
        ensures kept { Keeps cx.old cx.new }
    {
        self.hear_of(Family::V6, now, source, cx)?;
        self.hear_of(Family::V4, now, source, cx)
    }

    fn hear_of<S: AnswerSource>(
        &mut self,
        family: Family,
        now: u64,
        source: &mut S,
        cx: &mut Context<'_>,
    ) -> Result<(), Memory>
        requires valid { IsGathered self.old }
        requires in_time { now ≤ MAX_LIMIT }
        ensures heard { OnOk result (HearsOf S.hears source.old self.old.recorded family now source.new
            self.new.recorded) }
        ensures valid { OnOk result (IsGathered self.new) }
        ensures kept { Keeps cx.old cx.new }
    {
        if self.recorded.timeline().answer(family).is_some() {
            return Ok(());
        }
        match source.poll_answer(family, now, cx) {
            Poll::Pending => Ok(()),
            Poll::Ready(told) => record_answer(self.alloc, &mut self.recorded, family, now, &told),
        }
    }

    // Whether both families have an answer, or a later one doesn't count.
    fn is_over(&self, now: u64) -> bool
        ensures { result ≡ (is_some self.now.recorded.aaaa && is_some self.now.recorded.a
            || not (nat_lt now MAX_LIMIT)) }
    {
        let race = self.recorded.timeline();
        let has_both = race.answer(Family::V6).is_some() && race.answer(Family::V4).is_some();
        has_both || now >= MAX_LIMIT
    }
}

impl<S: AnswerSource, T: Ticker> Future for Gathering<S, T> {
    type Output = Result<Timeline, RaceFault>;

    ghost use Rattle.std.specs.Prelude.{IfSome};
    ghost use Rattle.he_turns.specs.Gathering.{IsGathered, MayGather};

    ghost can_poll = { λ s. IfSome s.gathered IsGathered };

    ghost gives = { λ s r. MayGather S.AnswerSource.hears s.source s.gathered r };

    fn poll(&mut self, cx: &mut Context<'_>) -> Poll<Result<Timeline, RaceFault>>
        requires { IfSome self.old.gathered IsGathered }
        ensures value { IfReady result (MayGather S.hears self.old.source self.old.gathered) }
        ensures again { OnPending result (IfSome self.new.gathered IsGathered) }
        ensures same { OnPending result ((x : _) → MayGather S.hears self.new.source self.new.gathered x
            → MayGather S.hears self.old.source self.old.gathered x) }
        ensures registered { OnPending result (Covers cx.new (λ _. ⊥)) }
        ensures armed { OnPending result (IsArmed cx.new) }
        ensures kept { Keeps cx.old cx.new }
        ensures over { IfReady result (λ _. self.new.gathered ≡ None) }
    {
        let Some(mut gathered) = self.gathered.take() else {
            return Poll::Ready(Err(RaceFault::Over));
        };
        let now = self.ticker.now().min(MAX_LIMIT);
        let Ok(()) = gathered.hear(now, &mut self.source, cx) else {
            return Poll::Ready(Err(RaceFault::Memory));
        };
        if gathered.is_over(now) {
            return Poll::Ready(Ok(gathered.recorded.finish()));
        }
        match self.ticker.wake_at(MAX_LIMIT, cx) {
            Ok(()) => {
                self.gathered = Some(gathered);
                Poll::Pending
            }
            Err(TickFault::Memory) => Poll::Ready(Err(RaceFault::Memory)),
            Err(TickFault::Lost) => Poll::Ready(Err(RaceFault::Clock)),
        }
    }
}
