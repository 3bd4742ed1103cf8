// A running race, with the connections of its unfinished attempts.

ghost use Rattle.std.specs.Prelude.{All, if◌then◌else◌, ◌≡◌, ◌+◌, ◌-◌, ◌<◌, ◌≤◌, ◌&&◌, ◌||◌, ◌==◌, Bool, ℕ, [], MatchBool, None, Some, false, length, is_some, min, slice_get, true, vec_len, IfNone, IfOk, IfSome, OnOk};
ghost use Rattle.futures.specs.Task.{Keeps};
ghost use Rattle.he_timeline.specs.declared.limits.TheConstants.{MAX_LIMIT};
ghost use Rattle.he_plan.specs.Agreement.{AreAlike};
ghost use Rattle.he_plan.specs.RaceState.{IsUnderway};
ghost use Rattle.he_turns.specs.declared.limits.TheConstants.{MAX_POLL_TICK};
ghost use Rattle.he_turns.specs.Attempt.{CanPoll};
ghost use Rattle.he_turns.specs.Kept.{InTurn, IsEnded, first_after, IsLive, IsUnfinished, are_untold};
ghost use Rattle.he_timeline.specs.Building.{unrecorded};
ghost use Rattle.he_turns.specs.Listening.{AllListen, Listens};
ghost use Rattle.he_turns.specs.Polling.{AllListenAfter, Answers, AsksInTime, BeginsFrom, EndsWith, GoesOn, HeardListensAfter, Polled, PollsAt, TurnHearsAfter, TurnListensAfter, TurnsFrom};
ghost use Rattle.he_turns.specs.Recording.{slept};
ghost use Rattle.he_turns.specs.Resolving.{HeardAt, HeardTurn, HearsAndTurns};
ghost use Rattle.he_turns.specs.Turns.{ArePolled, BeginsAt, IsNew, asked_tick, first_of, is_connection, is_over, unpolled};

use crate::answers::AnswerSource;
use crate::attempt::{AttemptFuture, Finish};
use crate::connector::Connector;
use crate::faults::AttemptFault;
use crate::recorder::Recorder;
use futures::task::{Context, Poll};
use he_addr::Memory;
use he_plan::{Attempt, Transcript};
use he_timeline::Timeline;
use std::alloc::{Allocator, Global};
use std::mem::drop;

// An attempt that has not finished.
#[derive(Drop)]
pub(crate) struct Unfinished<C: Connector> {
    pub(crate) attempt: Attempt,
    pub(crate) future: AttemptFuture<C>,
}

#[derive(Drop)]
pub(crate) struct Live<C: Connector> {
    pub(crate) recorder: Recorder,
    pub(crate) unfinished: Vec<Unfinished<C>>,
}

/// A race that has ended.
#[derive(Drop)]
pub struct Raced<Conn> {
    /// The transcript that the rules of a race determine for the record.
    pub transcript: Transcript,
    /// The given settings, policy, host, answers and history, with the source's answers, the outcome of each attempt,
    /// and the client's pauses.
    pub recorded: Timeline,
    /// The winner's connection, if the race was won.
    pub winner: Option<Conn>,
}

// The result of a poll if no allocation fails: the race has ended, or it goes on and is next polled at a tick.
#[derive(Drop)]
pub(crate) enum AfterPoll<C: Connector> {
    Ended(Raced<C::Conn>),
    Waits(Live<C>, u64),
}

impl<C: Connector> Live<C> {
    pub(crate) fn new<A: Allocator>(
        alloc: Global,
        timeline: &Timeline<A>,
    ) -> Result<Live<C>, Memory>
        ensures live { IfOk result (IsLive C.Connector C.Run.Trial) }
        ensures recorded { IfOk result (λ live. live.recorder.recorded ≡ unrecorded timeline.now) }
        ensures first { IfOk result (IsNew timeline.now) }
    {
        Ok(Live {
            recorder: Recorder::new(alloc, timeline)?,
            unfinished: Vec::new(alloc),
        })
    }

    // Polls at the tick: takes a turn, unless there was one at this tick or later.
    pub(crate) fn step<S: AnswerSource>(
        self,
        now: u64,
        connector: &mut C,
        source: &mut S,
        cx: &mut Context<'_>,
    ) -> Result<AfterPoll<C>, Memory>
        requires { IsLive C.Connector C.Run.Trial self }
        ensures polled { IfOk result (HeardAt S.hears C.Connector C.Run.Trial source.old connector.old self now
            source.new connector.new) }
        ensures in_time { IfOk result AsksInTime }
        ensures waits { IfOk result (TurnListensAfter C.Connector C.Run.Trial cx.new self) }
        ensures source_waits { IfOk result (TurnHearsAfter S.AnswerSource cx.new source.old self source.new) }
        ensures kept { Keeps cx.old cx.new }
    {
        let limit = self.recorder.limit();
        let now = now.min(limit + 1);
        match self.recorder.turn {
            Some(turn) if now <= turn => Ok(AfterPoll::Waits(self, turn + 1)),
            _ => self.take_turn(now, connector, source, cx),
        }
    }

    // A turn of the race, at the tick (RFC 8305 sections 3 to 5). The race ends in it, or is to be polled again at a
    // tick.
    fn take_turn<S: AnswerSource>(
        mut self,
        now: u64,
        connector: &mut C,
        source: &mut S,
        cx: &mut Context<'_>,
    ) -> Result<AfterPoll<C>, Memory>
        requires live { IsLive C.Connector C.Run.Trial self }
        requires later { first_after self.recorder.turn ≤ now }
        requires in_time { now ≤ self.recorder.recorded.settings.limit + 1 }
        ensures turned { IfOk result (HeardTurn S.hears C.Connector C.Run.Trial source.old connector.old self now
            source.new connector.new) }
        ensures waits { IfOk result (AllListenAfter C.Connector C.Run.Trial cx.new) }
        ensures source_waits { IfOk result (HeardListensAfter S.AnswerSource cx.new source.old
            (slept self.recorder.recorded self.recorder.due now) now source.new) }
        ensures kept { Keeps cx.old cx.new }
    {
        // A client that acts later than something was due has slept until now.
        self.recorder.begin_turn(now)?;
        if now > self.recorder.limit() {
            return self.end(None);
        }
        // Answers count from the turn in which they come (section 3).
        self.recorder.hear(now, source, cx)?;
        // Attempts that have ended are recorded; the first connection wins, and ends the others (section 5).
        let winner = self.poll_all(now, connector, cx)?;
        if self.is_over(now, winner.is_some()) {
            return self.end(winner);
        }
        drop(winner);
        // One attempt starts where the Connection Attempt Delay is over and an address is left (section 5).
        self.end_turn(now, connector, cx)
    }

    // Polls each unfinished attempt once, in order of place, records those that finish, and returns the first
    // connection.
    fn poll_all(
        &mut self,
        now: u64,
        connector: &mut C,
        cx: &mut Context<'_>,
    ) -> Result<Option<C::Conn>, Memory>
        requires turn { InTurn self.old.recorder.recorded now self.old.recorder.underway.attempts false }
        requires underway { IsUnderway self.old.recorder.recorded self.old.recorder.underway }
        requires unfinished { All (IsUnfinished C.Connector C.Run.Trial self.old.recorder.underway.attempts)
            self.old.unfinished.items }
        requires untold { are_untold self.old.recorder.recorded.outcomes self.old.unfinished.items ≡ true }
        requires in_time { now ≤ MAX_LIMIT }
        ensures turn { IfOk result (λ won. InTurn self.new.recorder.recorded now self.new.recorder.underway.attempts
            (is_some won)) }
        ensures unfinished { OnOk result (All (IsUnfinished C.Connector C.Run.Trial
            self.new.recorder.underway.attempts) self.new.unfinished.items) }
        ensures untold { OnOk result (are_untold self.new.recorder.recorded.outcomes self.new.unfinished.items
            ≡ true) }
        ensures recorder { OnOk result (Polled self.old.recorder self.new.recorder) }
        ensures each { IfOk result (λ won. ArePolled C.Connector C.Run.Trial now
            (unpolled connector.old self.old.recorder.recorded self.old.recorder.underway.attempts)
            self.old.unfinished.items (record {
              connector = connector.new;
              recorded = self.new.recorder.recorded;
              attempts = self.new.recorder.underway.attempts;
              pending = self.new.unfinished.items;
              first = won;
            })) }
        ensures waits { OnOk result (AllListen C.Connector C.Run.Trial cx.new self.new.unfinished.items) }
        ensures kept { Keeps cx.old cx.new }
    {
        let mut winner = None;
        let mut i: usize = 0;
        while i < self.unfinished.len() {
            match self.poll_one(i, now, connector, cx)? {
                None => i += 1,
                Some(answer) => winner = first_of(winner, answer),
            }
        }
        Ok(winner)
    }

    // Polls the unfinished attempt at `i`. If it answers, it is recorded and removed from the list.
    fn poll_one(
        &mut self,
        i: usize,
        now: u64,
        connector: &mut C,
        cx: &mut Context<'_>,
    ) -> Result<Option<Result<C::Conn, AttemptFault>>, Memory>
        requires below { i < vec_len self.old.unfinished }
        requires turn { (won : Bool) × InTurn self.old.recorder.recorded now self.old.recorder.underway.attempts won }
        requires underway { IsUnderway self.old.recorder.recorded self.old.recorder.underway }
        requires unfinished { All (IsUnfinished C.Connector C.Run.Trial self.old.recorder.underway.attempts)
            self.old.unfinished.items }
        requires untold { are_untold self.old.recorder.recorded.outcomes self.old.unfinished.items ≡ true }
        requires in_time { now ≤ MAX_LIMIT }
        ensures recorder { IfOk result (λ answer. Answers self.old.recorder now answer self.new.recorder) }
        ensures unfinished { OnOk result (All (IsUnfinished C.Connector C.Run.Trial
            self.old.recorder.underway.attempts) self.new.unfinished.items) }
        ensures untold { OnOk result (are_untold self.new.recorder.recorded.outcomes self.new.unfinished.items
            ≡ true) }
        ensures step { IfOk result (λ answer. PollsAt C.Connector C.Run.Trial connector.old self.old i now answer
            connector.new self.new) }
        ensures left { IfOk result (λ answer. vec_len self.new.unfinished + (if is_some answer then 1 else 0)
            ≡ vec_len self.old.unfinished) }
        ensures waits { IfOk result (λ answer. IfNone answer (IfSome (slice_get self.new.unfinished.items i)
            (λ o. Listens C.Connector C.Run.Trial cx.new o.future))) }
        ensures kept { Keeps cx.old cx.new }
    {
        let attempt = self.unfinished[i].attempt;
        match self.unfinished[i].future.poll_attempt(connector, now, cx) {
            Poll::Pending => Ok(None),
            Poll::Ready(finish) => {
                let Finish {
                    tick: _,
                    result: answer,
                } = finish;
                self.recorder.finish(attempt, now, answer.is_ok())?;
                drop(self.unfinished.remove(i));
                Ok(Some(answer))
            }
        }
    }

    // Whether the race ends at the tick: it is won, at its limit, or exhausted, with nothing left to wait for or to
    // try.
    fn is_over(&self, now: u64, is_won: bool) -> bool
        ensures { result ≡ is_over self.now.recorder.recorded self.now.recorder.underway.attempts now
            self.now.unfinished.items is_won }
    {
        is_won
            || now >= self.recorder.limit()
            || (self.unfinished.is_empty() && self.recorder.is_tried_out(now))
    }

    // Ends a turn of a race that goes on: if an attempt is due at the tick, it begins at once.
    fn end_turn(
        self,
        now: u64,
        connector: &mut C,
        cx: &mut Context<'_>,
    ) -> Result<AfterPoll<C>, Memory>
        requires in_turn { InTurn self.recorder.recorded now self.recorder.underway.attempts false }
        requires underway { IsUnderway self.recorder.recorded self.recorder.underway }
        requires unfinished { All (IsUnfinished C.Connector C.Run.Trial self.recorder.underway.attempts)
            self.unfinished.items }
        requires untold { are_untold self.recorder.recorded.outcomes self.unfinished.items ≡ true }
        requires early { now < self.recorder.recorded.settings.limit }
        ensures on { IfOk result (GoesOn C.Connector C.Run.Trial connector.old self now connector.new) }
        ensures kept { Keeps cx.old cx.new }
    {
        let Live {
            mut recorder,
            unfinished,
        } = self;
        let made = recorder.underway.attempts().len();
        match recorder.end_turn(now) {
            Err(fault) => {
                drop(unfinished);
                drop(recorder);
                Err(fault)
            }
            Ok(()) => {
                match with_made(
                    unfinished,
                    recorder.underway.attempts(),
                    made,
                    connector,
                    cx,
                ) {
                    Err(fault) => {
                        drop(recorder);
                        Err(fault)
                    }
                    Ok(unfinished) => {
                        let tick = next_tick(recorder.due, &unfinished);
                        Ok(AfterPoll::Waits(
                            Live {
                                recorder,
                                unfinished,
                            },
                            tick,
                        ))
                    }
                }
            }
        }
    }

    fn end(self, winner: Option<C::Conn>) -> Result<AfterPoll<C>, Memory>
        requires ended { IsEnded self.recorder.recorded self.recorder.underway.attempts (is_some winner) }
        requires underway { IsUnderway self.recorder.recorded self.recorder.underway }
        ensures { IfOk result (EndsWith self.recorder.recorded winner) }
    {
        let Live {
            recorder,
            unfinished,
        } = self;
        drop(unfinished);
        match recorder.transcript() {
            Err(fault) => {
                drop(recorder);
                drop(winner);
                Err(fault)
            }
            Ok(transcript) => Ok(AfterPoll::Ended(Raced {
                transcript,
                recorded: recorder.into_record(),
                winner,
            })),
        }
    }
}

// The least of the due tick and the ticks at which unfinished attempts are due.
fn next_tick<C: Connector>(due: u64, unfinished: &[Unfinished<C>]) -> u64
    ensures { result ≡ asked_tick C.Connector C.Run.Trial due unfinished.now }
{
    let mut tick = due;
    for attempt in unfinished {
        if let Some(due) = attempt.future.due() {
            tick = tick.min(due);
        }
    }
    tick
}

// `winner`, or else the answer's connection, if there is one.
fn first_of<Conn: Drop>(winner: Option<Conn>, answer: Result<Conn, AttemptFault>) -> Option<Conn>
    ensures value { result ≡ first_of winner answer }
    ensures is_some { is_some result ≡ (is_some winner || is_connection answer) }
{
    match winner {
        Some(conn) => Some(conn),
        None => match answer {
            Ok(conn) => Some(conn),
            Err(_) => None,
        },
    }
}

// The unfinished attempts, followed by the one at the place `made`, if there is one.
fn with_made<C: Connector>(
    mut unfinished: Vec<Unfinished<C>>,
    attempts: &[Attempt],
    made: usize,
    connector: &mut C,
    cx: &mut Context<'_>,
) -> Result<Vec<Unfinished<C>>, Memory>
    requires unfinished { All (IsUnfinished C.Connector C.Run.Trial attempts.now) unfinished.items }
    requires in_time { All (λ x. x.tick ≤ MAX_POLL_TICK) attempts.now }
    ensures unfinished { IfOk result (λ all. All (IsUnfinished C.Connector C.Run.Trial attempts.now) all.items) }
    ensures starts { IfOk result (λ all. BeginsFrom C.Connector C.Run.Trial connector.old attempts.now made
        unfinished.items connector.new all.items) }
    ensures kept { Keeps cx.old cx.new }
{
    if made >= attempts.len() {
        return Ok(unfinished);
    }
    let attempt = begin(attempts[made], connector, cx);
    match unfinished.push(attempt) {
        Ok(()) => Ok(unfinished),
        Err(refused) => {
            drop(refused);
            drop(unfinished);
            Err(Memory)
        }
    }
}

// Begins the attempt, at its start.
fn begin<C: Connector>(attempt: Attempt, connector: &mut C, cx: &mut Context<'_>) -> Unfinished<C>
    requires { attempt.tick ≤ MAX_POLL_TICK }
    ensures begins { BeginsAt C.Connector C.Run.Trial connector.old attempt connector.new result }
    ensures can { CanPoll C.Connector C.Run.Trial result.future }
    ensures kept { Keeps cx.old cx.new }
{
    let mut future = AttemptFuture::new(attempt.place, attempt.ip, attempt.tick);
    drop(future.poll_attempt(connector, attempt.tick, cx));
    Unfinished { attempt, future }
}
