// The cause of an attempt's start.

ghost use Rattle.std.specs.Prelude.{◌≡◌, ◌+◌, ◌&&◌, max, nat_lt};
ghost use Rattle.std.specs.List.{list_any};
ghost use Rattle.he_addr.specs.Ip.{is_usable};
ghost use Rattle.he_timeline.specs.Seen.{seen};
ghost use Rattle.he_timeline.specs.Race.{reply_of};
ghost use Rattle.he_course.specs.Causes.{cause_of, failure_of, first_cause_by, floor_cause, is_held, later_cause, later_of, start_of, tick_of, was_floor_over, was_waited_for};

use he_addr::{Family, Ip};
use he_plan::Attempt;
use he_timeline::{Outcome, Timeline};
use std::alloc::Allocator;

/// Why an attempt starts at its tick.
#[derive(Clone, Copy, Debug, PartialEq, Eq)]
pub enum Cause {
    /// The AAAA answer, which has a usable address, began the race (RFC 8305 section 3).
    AaaaAnswer,

    /// The A answer began the race; the AAAA answer had come without a usable address (section 3).
    BothAnswers,

    /// The A answer began the race: the Resolution Delay after it ended without an AAAA answer (section 3).
    ResolutionDelay,

    /// The Connection Attempt Delay, of this number of milliseconds, after the attempt of this place was over
    /// (section 5).
    AttemptDelay(usize, u64),

    /// Every attempt so far had failed, and the floor (own), of this number of milliseconds, after the attempt of
    /// this place was over before that delay.
    Floor(usize, u64),

    /// The last of the attempts so far failed, at this tick if there are no pauses, after the floor was over and
    /// before that delay was.
    LastFailure(u64),

    /// That delay, or the floor after failures, was over before, and the answer of this family brought the address
    /// (sections 3 and 5).
    LaterAnswer(Family),
}

/// The cause of an attempt's start. `last` is the attempt before it, none for the race's first. `failed` is the
/// greatest [`failure_of`] of all attempts before it, if all of them fail. All are attempts of the race.
pub fn cause_of<A: Allocator>(
    timeline: &Timeline<A>,
    last: Option<Attempt>,
    failed: Option<u64>,
    next: Attempt,
) -> Cause
    ensures { result ≡ cause_of timeline.now last failed next }
{
    match last {
        Some(last) => later_cause(timeline, last, failed, next),
        None => first_cause(timeline, next.tick),
    }
}

/// Whether a pause held back an attempt of this cause: it was due before `tick`, at which it starts. `last` is the
/// attempt before it, if there is one.
pub fn is_held<A: Allocator>(
    timeline: &Timeline<A>,
    last: Option<Attempt>,
    cause: Cause,
    tick: u64,
) -> bool
    ensures { result ≡ is_held timeline.now last cause tick }
{
    match cause {
        Cause::AaaaAnswer => answer_tick(timeline, Family::V6) < tick,
        Cause::BothAnswers => last_answer_tick(timeline) < tick,
        Cause::ResolutionDelay => {
            let resolution = timeline.settings().resolution();
            is_before(answer_tick(timeline, Family::V4), resolution, tick)
        }
        Cause::AttemptDelay(_, delay) => is_before(start(last), delay, tick),
        Cause::Floor(_, floor) => is_before(start(last), floor, tick),
        Cause::LastFailure(failed) => failed < tick,
        Cause::LaterAnswer(family) => answer_tick(timeline, family) < tick,
    }
}

/// The tick at which the attempt fails, if there are no pauses; none if it doesn't fail by the race's limit.
pub fn failure_of<A: Allocator>(timeline: &Timeline<A>, attempt: Attempt) -> Option<u64>
    ensures { result ≡ failure_of timeline.now attempt }
{
    match timeline.outcome(attempt.ip) {
        Some(Outcome::Fail(duration)) => {
            let end = attempt.tick.saturating_add(duration);
            if end <= timeline.settings().limit() {
                Some(end)
            } else {
                None
            }
        }
        Some(Outcome::Ok(_)) | None => None,
    }
}

// The later of two ticks, if there are both.
pub(crate) fn later_of(tick: Option<u64>, other: Option<u64>) -> Option<u64>
    ensures { result ≡ later_of tick other }
{
    match (tick, other) {
        (Some(tick), Some(other)) => Some(tick.max(other)),
        _ => None,
    }
}

fn later_cause<A: Allocator>(
    timeline: &Timeline<A>,
    last: Attempt,
    failed: Option<u64>,
    next: Attempt,
) -> Cause
    ensures { result ≡ later_cause timeline.now last failed next }
{
    let delay = timeline.settings().attempt();
    if was_waited_for(timeline, last, failed, next.tick) {
        Cause::LaterAnswer(next.ip.family())
    } else if is_after(last.tick, delay, next.tick) {
        floor_cause(timeline, last, failed)
    } else {
        Cause::AttemptDelay(last.place, delay)
    }
}

// Whether the wait after the last attempt was over before the tick: the Connection Attempt Delay, or the floor after
// failures.
fn was_waited_for<A: Allocator>(
    timeline: &Timeline<A>,
    last: Attempt,
    failed: Option<u64>,
    tick: u64,
) -> bool
    ensures { result ≡ was_waited_for timeline.now last failed tick }
{
    is_seen_before(timeline, last.tick, timeline.settings().attempt(), tick)
        || was_floor_over(timeline, last, failed, tick)
}

// Whether the end of the floor after the last attempt, and the last failure of all so far, were both seen before the
// tick.
fn was_floor_over<A: Allocator>(
    timeline: &Timeline<A>,
    last: Attempt,
    failed: Option<u64>,
    tick: u64,
) -> bool
    ensures { result ≡ was_floor_over timeline.now last timeline.now.settings.floor failed tick }
{
    match (timeline.settings().floor(), failed) {
        (Some(floor), Some(failed)) => {
            is_seen_before(timeline, last.tick, floor, tick) && timeline.seen(failed) < tick
        }
        _ => false,
    }
}

fn floor_cause<A: Allocator>(timeline: &Timeline<A>, last: Attempt, failed: Option<u64>) -> Cause
    ensures { result ≡ floor_cause timeline.now last timeline.now.settings.floor failed }
{
    match (timeline.settings().floor(), failed) {
        (Some(floor), Some(failed)) => {
            if is_before(last.tick, floor, failed) {
                Cause::LastFailure(failed)
            } else {
                Cause::Floor(last.place, floor)
            }
        }
        _ => Cause::AttemptDelay(last.place, timeline.settings().attempt()),
    }
}

fn first_cause<A: Allocator>(timeline: &Timeline<A>, tick: u64) -> Cause
    ensures { result ≡ first_cause_by timeline.now timeline.now.aaaa tick }
{
    let Some((answer, ips)) = timeline.answer(Family::V6) else {
        return Cause::ResolutionDelay;
    };
    if tick < timeline.seen(answer) {
        Cause::ResolutionDelay
    } else if has_usable(ips) {
        Cause::AaaaAnswer
    } else {
        Cause::BothAnswers
    }
}

pub(crate) fn has_usable(ips: &[Ip]) -> bool
    ensures { result ≡ list_any is_usable ips.now }
{
    ips.iter().any(|ip| ip.is_usable())
}

// Whether the client sees the end of the delay that begins at `from` before the tick.
fn is_seen_before<A: Allocator>(timeline: &Timeline<A>, from: u64, delay: u64, tick: u64) -> bool
    ensures { result ≡ nat_lt (seen timeline.now (from + delay)) tick }
{
    let Some(end) = from.checked_add(delay) else {
        return false;
    };
    timeline.seen(end) < tick
}

// Whether the delay that begins at `from` ends before the tick.
fn is_before(from: u64, delay: u64, tick: u64) -> bool
    ensures { result ≡ nat_lt (from + delay) tick }
{
    match from.checked_add(delay) {
        Some(end) => end < tick,
        None => false,
    }
}

// Whether the delay that begins at `from` ends after the tick.
fn is_after(from: u64, delay: u64, tick: u64) -> bool
    ensures { result ≡ nat_lt tick (from + delay) }
{
    match from.checked_add(delay) {
        Some(end) => tick < end,
        None => true,
    }
}

fn answer_tick<A: Allocator>(timeline: &Timeline<A>, family: Family) -> u64
    ensures { result ≡ tick_of (reply_of timeline.now family) }
{
    match timeline.answer(family) {
        Some((tick, _)) => tick,
        None => 0,
    }
}

fn last_answer_tick<A: Allocator>(timeline: &Timeline<A>) -> u64
    ensures { result ≡ max (tick_of timeline.now.aaaa) (tick_of timeline.now.a) }
{
    answer_tick(timeline, Family::V6).max(answer_tick(timeline, Family::V4))
}

fn start(attempt: Option<Attempt>) -> u64
    ensures { result ≡ start_of attempt }
{
    match attempt {
        Some(attempt) => attempt.tick,
        None => 0,
    }
}
