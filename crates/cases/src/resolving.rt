//! The races of an example with their answers coming while they run (RFC 8305 section 3).

ghost use Rattle.futures.specs.Poll.{OnPending};
ghost use Rattle.futures.specs.Task.{IsArmed, Keeps};

use futures::Future;
use futures::task::{Context, Poll, Solo};
use he_addr::{Family, Ip, Memory};
use he_plan::{Transcript, transcript_of};
use he_race::{
    Answer, AnswerSource, Known, RaceFault, Raced, ResolvingRace, Scripted, TickFault, Ticker,
};
use he_timeline::{Timeline, TimelineBuilder};
use std::alloc::Global;
use std::mem::drop;

// The number of runs of a race at pseudo-random ticks, and the most addresses of a family that it then has.
const DRAWN_RUNS: u8 = 2;

const MOST_DRAWN_ADDRESSES: usize = 64;

/// The number of races that were run so and whose transcript was compared with their own, and of those that were run
/// at pseudo-random ticks.
#[derive(Clone, Copy)]
pub struct Heard {
    pub compared: u64,
    pub drawn: u64,
}

// The ticks at which a race is polled.
#[derive(Clone, Copy)]
enum Polls {
    // Each tick that it asks for and that of each answer, moved by the timeline's pauses.
    OnTime,
    // Ticks drawn with this state of a linear congruential generator, earlier or later than asked for.
    Drawn(u64),
}

#[derive(Drop)]
struct PollTicker<'a> {
    timeline: &'a Timeline,
    polls: Polls,
    at: u64,
}

impl<'a> PollTicker<'a> {
    // The tick of the next poll, if the race asks for this one.
    fn next(&mut self, asked: u64) -> u64 {
        let later = self.at.saturating_add(1);
        match self.polls {
            Polls::OnTime => {
                let next = self.or_answer(asked, Family::V6);
                let next = self.or_answer(next, Family::V4);
                self.timeline.seen(next.max(later))
            }
            Polls::Drawn(state) => {
                let drawn = state
                    .wrapping_mul(6_364_136_223_846_793_005)
                    .wrapping_add(1_442_695_040_888_963_407);
                self.polls = Polls::Drawn(drawn);
                later.saturating_add(wait(drawn >> 32, asked.saturating_sub(self.at)))
            }
        }
    }

    // The tick of the family's answer, if it comes before the tick, and else the tick.
    fn or_answer(&self, tick: u64, family: Family) -> u64 {
        match self.timeline.answer(family) {
            Some((answered, _)) if answered > self.at => tick.min(answered),
            _ => tick,
        }
    }
}

impl<'a> Ticker for PollTicker<'a> {
    ghost use Rattle.std.specs.Prelude.{⊤};

    ghost tells = { λ _ _ _. ⊤ };

    ghost wakes = { λ _ _ _ _. ⊤ };

    fn now(&mut self) -> u64 {
        self.at
    }

    fn wake_at(&mut self, tick: u64, cx: &mut Context<'_>) -> Result<(), TickFault> {
        self.at = self.next(tick);
        let _ = cx.yield_now::<()>();
        Ok(())
    }
}

// A wait of this number: its last hexadecimal digit bounds it by twice the wait asked for, a half of that, a quarter,
// ..
fn wait(number: u64, asked: u64) -> u64 {
    let most = asked.saturating_mul(2) >> (number % 16);
    (number / 16) % most.max(1)
}

// A family's answer, given at the first poll at its tick or later.
#[derive(Drop)]
struct Reply {
    tick: u64,
    addresses: Vec<Known>,
}

fn reply_of(alloc: Global, timeline: &Timeline, family: Family) -> Result<Option<Reply>, Memory> {
    match timeline.answer(family) {
        Some((tick, ips)) => {
            let addresses = known_of(alloc, timeline, ips)?;
            Ok(Some(Reply { tick, addresses }))
        }
        None => Ok(None),
    }
}

// The addresses with the race's round trip times and earlier uses.
fn known_of(alloc: Global, timeline: &Timeline, ips: &[Ip]) -> Result<Vec<Known>, Memory> {
    let mut known = Vec::new(alloc);
    for ip in ips {
        known.push(timeline.known(*ip))?;
    }
    Ok(known)
}

// The answers of a timeline.
#[derive(Drop)]
struct Replies {
    six: Option<Reply>,
    four: Option<Reply>,
}

impl Replies {
    fn of(alloc: Global, timeline: &Timeline) -> Result<Replies, Memory> {
        let six = reply_of(alloc, timeline, Family::V6)?;
        match reply_of(alloc, timeline, Family::V4) {
            Ok(four) => Ok(Replies { six, four }),
            Err(fault) => {
                drop(six);
                Err(fault)
            }
        }
    }
}

impl AnswerSource for Replies {
    ghost use Rattle.std.specs.Prelude.{⊤};

    ghost hears = { λ _ _ _ _ _. ⊤ };

    fn poll_answer(&mut self, family: Family, now: u64, cx: &mut Context<'_>) -> Poll<Answer> {
        match family {
            Family::V6 => tell(&mut self.six, now, cx),
            Family::V4 => tell(&mut self.four, now, cx),
        }
    }
}

// Gives the answer, if its tick has come.
fn tell(reply: &mut Option<Reply>, now: u64, cx: &mut Context<'_>) -> Poll<Answer>
    ensures waits { OnPending result (IsArmed cx.new) }
    ensures kept { Keeps cx.old cx.new }
{
    match reply.take() {
        Some(told) if told.tick <= now => Poll::Ready(Answer::without_lines(told.addresses)),
        waits => {
            *reply = waits;
            cx.yield_now()
        }
    }
}

/// Runs a race that has an answer with its answers coming at their ticks, and, if it has addresses, and few, with
/// them coming at pseudo-random polls. Returns whether the record of each run replays to its transcript, and whether
/// that of the first run is the race's own, if it must be.
///
/// # Errors
///
/// An allocation was refused.
pub fn is_heard(
    alloc: Global,
    solo: &Solo,
    timeline: &Timeline,
    transcript: &Transcript,
    heard: &mut Heard,
) -> Result<bool, Memory> {
    if timeline.answer(Family::V6).is_none() && timeline.answer(Family::V4).is_none() {
        return Ok(true);
    }
    let own = own_transcript(timeline, transcript);
    if own.is_some() {
        heard.compared = heard.compared.saturating_add(1);
    }
    let mut are_right = is_right(alloc, solo, timeline, Polls::OnTime, own)?;
    if is_drawn(timeline) {
        for _ in 0..DRAWN_RUNS {
            heard.drawn = heard.drawn.saturating_add(1);
            let polls = Polls::Drawn(heard.drawn);
            are_right = are_right && is_right(alloc, solo, timeline, polls, None)?;
        }
    }
    Ok(are_right)
}

// The race's transcript if its answers come at their ticks, if that must be this one of its timeline. The Resolution
// Delay runs from the A answer's own tick; if the client slept then, the answer counts from its waking.
fn own_transcript<'a>(timeline: &Timeline, transcript: &'a Transcript) -> Option<&'a Transcript> {
    match timeline.answer(Family::V4) {
        Some((tick, _)) if timeline.seen(tick) != tick => None,
        _ => Some(transcript),
    }
}

// Whether the race is run at pseudo-random ticks.
fn is_drawn(timeline: &Timeline) -> bool {
    let six = address_count(timeline, Family::V6);
    let four = address_count(timeline, Family::V4);
    six.max(four) <= MOST_DRAWN_ADDRESSES && six.max(four) > 0
}

fn address_count(timeline: &Timeline, family: Family) -> usize {
    match timeline.answer(family) {
        Some((_, ips)) => ips.len(),
        None => 0,
    }
}

// Whether the race's record replays to its transcript, and this is the race's own, if one is given.
fn is_right(
    alloc: Global,
    solo: &Solo,
    timeline: &Timeline,
    polls: Polls,
    own: Option<&Transcript>,
) -> Result<bool, Memory> {
    match run(alloc, solo, timeline, polls)? {
        Some(raced) => {
            let is_right = is_right_end(alloc, &raced, own);
            drop(raced);
            is_right
        }
        None => Ok(false),
    }
}

fn is_right_end(
    alloc: Global,
    raced: &Raced<()>,
    own: Option<&Transcript>,
) -> Result<bool, Memory> {
    let replayed = transcript_of(alloc, &raced.recorded)?;
    let is_right = is_same(&raced.transcript, &replayed)
        && match own {
            Some(own) => is_same(&raced.transcript, own),
            None => true,
        };
    drop(replayed);
    Ok(is_right)
}

fn is_same(one: &Transcript, other: &Transcript) -> bool {
    one.attempts() == other.attempts() && one.result() == other.result()
}

// The output of the race, polled so; None if it doesn't end.
fn run(
    alloc: Global,
    solo: &Solo,
    timeline: &Timeline,
    polls: Polls,
) -> Result<Option<Raced<()>>, Memory> {
    let unanswered = unanswered(alloc, timeline)?;
    let ended = run_from(alloc, solo, timeline, &unanswered, polls);
    drop(unanswered);
    ended
}

fn run_from(
    alloc: Global,
    solo: &Solo,
    timeline: &Timeline,
    unanswered: &Timeline,
    polls: Polls,
) -> Result<Option<Raced<()>>, Memory> {
    let source = Replies::of(alloc, timeline)?;
    let ticker = PollTicker {
        timeline,
        polls,
        at: first_tick(timeline, polls),
    };
    let connector = Scripted::new(timeline);
    let race = ResolvingRace::new(alloc, unanswered, connector, source, ticker)?;
    match drive(solo, race, timeline.settings().limit()) {
        Some(Ok(raced)) => Ok(Some(raced)),
        Some(Err(RaceFault::Memory)) => Err(Memory),
        _ => Ok(None),
    }
}

fn first_tick(timeline: &Timeline, polls: Polls) -> u64 {
    match polls {
        Polls::OnTime => timeline.seen(0),
        Polls::Drawn(_) => 0,
    }
}

// The race without its answers, and so without its round trip times and earlier uses.
fn unanswered(alloc: Global, timeline: &Timeline) -> Result<Timeline, Memory> {
    let host = timeline.host().copy(alloc)?;
    match timeline.policy().copy(alloc) {
        Ok(policy) => {
            Ok(TimelineBuilder::new(alloc, timeline.settings(), policy, host).finish())
        }
        Err(fault) => {
            drop(host);
            Err(fault)
        }
    }
}

// The output of the future, polled at most once for each tick up to the one after the limit.
fn drive<F: Future>(solo: &Solo, mut future: F, limit: u64) -> Option<F::Output>
    requires { F.can_poll future }
{
    for _ in 0..limit.saturating_add(2) {
        let mut cx = solo.begin();
        let polled = future.poll(&mut cx);
        cx.cancel();
        if let Poll::Ready(given) = polled {
            return Some(given);
        }
    }
    None
}
