//! The turns of a race of connection attempts (RFC 8305 section 5) as futures, independent of sockets and clocks:
//! traits make the connections and give the time, so that one state machine runs over real sockets and, in `he_race`,
//! over recorded races. A tick is a millisecond since the race's start.
//!
//! # The parts
//!
//! - [`Connector`] begins the connection of an attempt, [`Trial`] is that connection in progress, and [`Ticker`]
//!   gives the tick and wakes the task at one.
//! - [`AttemptFuture`] is one attempt: it sleeps until its start, then begins, and polls its trial from the next tick
//!   on.
//! - [`RaceFuture`] is a race of attempts over a connector and a ticker: a future that gives [`Raced`], the
//!   transcript of the race, its record as a timeline, and the winner's connection.
//! - [`ResolvingRace`] is a race whose answers come while it runs, from an [`AnswerSource`]: each turn polls it once
//!   for each family without an answer, and its answer counts as come at the turn's tick.
//! - [`Gathering`] makes no attempt: it polls an [`AnswerSource`] until both families have an answer, and gives the
//!   timeline with these answers.
//!
//! No call takes a handle: nothing here waits, starts a thread or reads a clock. The caller that polls does.
//!
//! # A connector and a trial of your own
//!
//! ```text
//! impl Trial for Handshake {
//!     type Conn = Session;
//!
//!     ghost needs = { λ s source. WaitsAt s.io source };  // where it registers; left out, it only has to wake
//!     ghost polls = { λ _ _ _ _. ⊤ };                     // nothing is promised of its answers
//!     ghost due_tick = { λ _. None };
//!
//!     fn poll_trial(&mut self, now: u64, cx: &mut Context<'_>) -> Poll<Result<Session, AttemptFault>> {
//!         match self.io.poll(cx) {                      // registers in `cx` where it is pending
//!             Poll::Pending => Poll::Pending,
//!             Poll::Ready(Ok(session)) => Poll::Ready(Ok(session)),
//!             Poll::Ready(Err(_)) => Poll::Ready(Err(AttemptFault::Failed)),
//!         }
//!     }
//!
//!     fn due(&self) -> Option<u64> { None }
//! }
//!
//! let mut attempt = AttemptFuture::new(0, ip, 20);
//! attempt.poll_attempt(&mut connector, 19, &mut cx);   // Pending; attempt.due() is Some(20)
//! attempt.poll_attempt(&mut connector, 20, &mut cx);   // begins; Pending; due at 21
//! attempt.poll_attempt(&mut connector, 21, &mut cx);   // polls the trial
//! ```
//!
//! # A race
//!
//! A poll of a race takes a turn at the ticker's tick, unless there was one at that tick or later; then it only asks
//! for the tick after the last turn. In a turn the race records a pause that has passed, polls each unfinished
//! attempt once and records those that answered. Then it ends if it is won, exhausted or at its limit; otherwise it
//! begins the attempt that is due, and asks the ticker for the least tick at which anything can change. An attempt is
//! due once the Connection Attempt Delay after the last start has passed, or the floor, if the settings have one and
//! each attempt has failed by then: those that fail in this turn count.
//!
//! A `ResolvingRace` takes such turns too. In each, after the pause and before the attempts, it polls its source for
//! each family without an answer, IPv6 first. The family's addresses in the source's answer, each once and at most
//! `MAX_ADDRESSES`, count as an answer that came at the turn's tick. With them come the client's knowledge of them
//! from earlier connections (RFC 8305 section 4), and sources and routes of this machine that reach them (RFC 6724
//! sections 4 and 5); the race uses both from then on. Sources and routes of one family don't affect the other's
//! addresses.
//!
//! ```text
//! let mut race = RaceFuture::new(alloc, &timeline, connector, ticker)?;
//! match race.poll(&mut cx) {
//!     Poll::Pending => ..,                        // the ticker was asked for a tick, and will wake the task
//!     Poll::Ready(Ok(raced)) => ..,               // the losers were dropped in this poll; `raced.winner` connects
//!     Poll::Ready(Err(RaceFault::Clock)) => ..,   // the ticker answered Lost
//!     Poll::Ready(Err(_)) => ..,                  // memory was refused, or the race had given its result before
//! }
//! ```
//!
//! Drops: a trial that answers is dropped in the poll that found its answer; all other trials and connections in the
//! poll that ends the race, before it returns; on a fault, everything but the connector and the ticker.
//!
//! Each trait guarantees:
//!
//! - `Trial`: a pending poll has registered in `cx` at each source that it `needs` (with none stated, it has
//!   registered or yielded), or `due` names a tick before which every poll is pending, or `due` is None and every
//!   later poll is pending.
//! - `Connector`: `begin` returns a trial that may be polled, or a fault, which is the attempt's failure.
//! - `AnswerSource`: a pending poll has registered in `cx` at each source that it `needs` for the family, or no later
//!   poll for its family returns an answer.
//! - `Ticker`: if `wake_at` returns Ok, it has registered in `cx` or yielded, so that the task is polled again.
//!
//! An implementation states, as relations, how its calls change its own state (`polls`, `begins`, `hears`, `tells`,
//! `wakes`); the contracts here use these relations. It also states where connections go: `reaches` of the connector,
//! for an address, and `may_give` of a trial, the connections that it may give. A trial that `begin` returns may give
//! only connections that go to its address, and each poll keeps that; if these two are left out, they promise
//! nothing. The ticks passed to implementations are at most [`limits::MAX_POLL_TICK`]. An implementation may not
//! assume in which order, or how often, attempts are polled, only that a trial isn't polled again once it has
//! answered. A trial that is no longer needed is dropped, with its connection: `Drop` is where a socket closes.
//!
//! # What is proved
//!
//! - `AttemptFuture` takes only the steps of `specs/Attempt.antt` between its three states; a finish has the tick of
//!   its poll and the trial's own answer, or the fault of its connector. If a poll is pending, the trial has
//!   registered in that poll's context for all that it needs, or `due` is at most the next tick at which anything can
//!   change (`specs/Waiting.antt`).
//! - A race that is pending after a turn has registered in the context of its own poll: each unfinished attempt has
//!   registered there for all that it needs, or waits for its tick; the source of a `ResolvingRace` has registered
//!   there for each family without an answer, or has no more answers for it. A poll without a turn polls no attempt
//!   and no source: the ticker wakes the task for the next turn (`RaceListens` and `RaceHears` in
//!   `specs/Listening.antt`).
//! - The result of a `RaceFuture` replays, for every connector and ticker: its transcript is the one that the rules
//!   of a race determine for its record; the record has the given settings, policy, host and answers; and there is a
//!   winner's connection exactly if the race was won (`Replays` in `specs/Turns.antt`).
//! - The winner's connection goes to the address of the transcript's line at the winning place, as the connector
//!   defines where connections go (`reaches`; `WinnerGoes` in `specs/Winner.antt`).
//! - The result of a `ResolvingRace` replays too, for every source as well: the record has the given settings and
//!   policy and each given answer; its history and its host begin with the given ones (`ReplaysGiven` in
//!   `specs/Resolving.antt`). The rest of the record, except outcomes and pauses, comes from the source's answers in
//!   polls that its own relation allows, one after the other from its first state on: for each family without an
//!   answer the addresses, at the tick of the poll, the knowledge of these and of no others, and the family's sources
//!   and routes (`IsOfSource` in `specs/OfSource.antt`, `with_told` in `specs/Heard.antt`). In each turn each family
//!   without an answer is polled once, and no other (`HeardAt` in `specs/Resolving.antt`). One more answer, with
//!   history, sources and routes, changes nothing before its tick (`laws::one_more_answer_above`).
//! - The result of a `Gathering` is the given timeline with the source's answers for both families; one that has no
//!   answer had none at the tick `MAX_LIMIT` (`IsGatheredFrom` in `specs/Gathering.antt`).
//! - In a turn each unfinished attempt is polled once, with an answer and a new state that its trial's relation
//!   allows; the outcome of one that answers is recorded, with the ticks since its start, and nothing else is; a
//!   pause is recorded exactly if something was due before the turn, from that tick to the turn; the race ends
//!   exactly if the rules end it (`ArePolled`, `Goes`, `EndsPolled` and `EndsLate`).
//! - A pending poll has asked its ticker for the least of the due tick and the attempts' `due`, or, if it took no
//!   turn, for the tick after the last one; `Clock` is returned only if the ticker returned Lost; after its result,
//!   and only then, a race is over (`RacePolls` in `specs/Racing.antt`).
//! - Of the calls that a race makes to the builder of its record, none can fail except for want of memory
//!   (`only_memory` in `src/recorder.rt`): for each pause an answer was taken or an attempt made, so there are at
//!   most 515 pauses, and the builder allows 520; an unfinished attempt has an address of an answer, has no outcome
//!   and occurs once; an outcome lasts at most to the limit.
//!
//! Tested only: that calls succeed if memory is available, since no contract can state that a growth fails; a user's
//! own connector, tickers and source; and that with a source that gives a recorded timeline's answers at their ticks,
//! with the knowledge of their addresses, the race is the one that `RaceFuture::new` runs. That holds if no pause
//! covers the tick of the A answer: the Resolution Delay runs from the tick at which an answer is given.
#![tactic(auto)]

pub mod answers;
pub mod attempt;
pub mod connector;
pub mod faults;
pub mod gathering;
mod hearing;
pub mod laws;
mod learning;
pub mod limits;
mod lines;
mod live;
pub mod race;
mod recorder;
pub mod resolving;
pub mod ticker;
pub mod trial;

pub use answers::{Answer, AnswerSource, nothing_known};
pub use attempt::{AttemptFuture, Finish};
pub use connector::Connector;
pub use faults::{AttemptFault, RaceFault, TickFault};
pub use gathering::Gathering;
pub use he_select::{Known, Route, Source};
pub use live::Raced;
pub use race::RaceFuture;
pub use resolving::ResolvingRace;
pub use ticker::Ticker;
pub use trial::Trial;
