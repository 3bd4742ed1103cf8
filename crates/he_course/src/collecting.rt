// The events of a race, by kind.

ghost use Rattle.std.specs.Prelude.{◌≡◌, ◌++◌, ◌∷◌, [], None, Some, All, count_by, IfOk, OnOk};
ghost use Rattle.std.specs.List.{flat_map};
ghost use Rattle.he_addr.specs.Ip.{InRange, is_usable};
ghost use Rattle.he_addr.specs.declared.ip.Family.TheVariants as families;
ghost use Rattle.he_plan.specs.Attempts.{order_at};
ghost use Rattle.he_plan.specs.Planning.{interlaced_list};
ghost use Rattle.he_timeline.specs.Race.{addresses_of, reply_of};
ghost use Rattle.he_course.specs.Addresses.{all_attributes_of};
ghost use Rattle.he_course.specs.Events.{answer_events, attempt_of, cancelled_by, end_event, event_at, events_of, failed_by, met_events, over_events, pause_events, start_event, start_events, told_events, wait_events};
ghost use Rattle.he_course.specs.Listing.{listed_at};

use crate::cause::{cause_of, failure_of, is_held, later_of};
use crate::delay::{is_aaaa_seen_by, is_waiting};
use crate::events::{Event, EventKind, Start};
use crate::interlaced::{Interlaced, bring_to};
use crate::listing::{Listed, listed_in};
use he_addr::{Family, Ip, Memory};
use he_plan::{Attempt, Line, Mark, Outcome3, Transcript};
use he_select::DestinationAttributes;
use he_timeline::Timeline;
use he_timeline::timeline::are_addresses_in_range;
use std::alloc::Allocator;

// The two answers, the wait for the AAAA answer, the Resolution Delay's end, and the race's end.
const OTHER_EVENTS: usize = 5;

/// The events of the race with this transcript, by kind, including those after its end. `sorted` is its
/// all_attributes.
pub(crate) fn collect_events<A: Allocator + Copy, B: Allocator, C: Allocator>(
    alloc: A,
    timeline: &Timeline<B>,
    sorted: &[DestinationAttributes],
    transcript: &Transcript<C>,
) -> Result<Vec<Event, A>, Memory>
    requires { sorted.now ≡ all_attributes_of timeline.now }
    ensures { IfOk result (λ events. events.items ≡ events_of timeline.now transcript.now) }
{
    let most = most_events(timeline.pauses(), transcript.attempts());
    let mut events = Vec::with_capacity(alloc, most)?;
    push_met(&mut events, timeline)?;
    push_told(alloc, &mut events, timeline, sorted, transcript)?;
    Ok(events)
}

// An upper bound: each attempt starts, and fails or is cancelled.
fn most_events(pauses: &[(u64, u64)], lines: &[Line]) -> usize {
    let of_attempts = lines.len().saturating_mul(2);
    pauses
        .len()
        .saturating_add(of_attempts)
        .saturating_add(OTHER_EVENTS)
}

/// The tick at which the race ends.
pub fn end_tick(ending: Outcome3) -> u64
    ensures { result ≡ (end_event ending).tick }
{
    match ending {
        Outcome3::Won(_, tick) => tick,
        Outcome3::Exhausted(tick) => tick,
        Outcome3::Limit(tick) => tick,
    }
}

fn push<A: Allocator>(events: &mut Vec<Event, A>, tick: u64, kind: EventKind) -> Result<(), Memory>
    ensures { OnOk result (events.new.items ≡ events.old.items ++ event_at tick kind ∷ []) }
{
    events.push(Event { tick, kind })?;
    Ok(())
}

fn push_met<A: Allocator, B: Allocator>(
    events: &mut Vec<Event, A>,
    timeline: &Timeline<B>,
) -> Result<(), Memory>
    ensures { OnOk result (events.new.items ≡ events.old.items ++ met_events timeline.now) }
{
    push_pauses(events, timeline.pauses())?;
    push_answers(events, timeline)?;
    push_wait(events, timeline)
}

fn push_pauses<A: Allocator>(
    events: &mut Vec<Event, A>,
    pauses: &[(u64, u64)],
) -> Result<(), Memory>
    ensures { OnOk result (events.new.items ≡ events.old.items ++ pause_events pauses.now) }
{
    for pause in pauses {
        push(events, pause.0, EventKind::Paused(pause.1))?;
    }
    Ok(())
}

fn push_answers<A: Allocator, B: Allocator>(
    events: &mut Vec<Event, A>,
    timeline: &Timeline<B>,
) -> Result<(), Memory>
    ensures { OnOk result (events.new.items ≡ events.old.items ++
        (answer_events timeline.now families.V6 timeline.now.aaaa ++ answer_events timeline.now families.V4
        timeline.now.a)) }
{
    push_answer(events, timeline, Family::V6)?;
    push_answer(events, timeline, Family::V4)
}

fn push_answer<A: Allocator, B: Allocator>(
    events: &mut Vec<Event, A>,
    timeline: &Timeline<B>,
    family: Family,
) -> Result<(), Memory>
    ensures { OnOk result (events.new.items ≡ events.old.items ++ answer_events timeline.now family
        (reply_of timeline.now family)) }
{
    let Some((tick, ips)) = timeline.answer(family) else {
        return Ok(());
    };
    let seen = timeline.seen(tick);
    push(events, seen, EventKind::Answered(family, usable_count(ips)))
}

fn usable_count(ips: &[Ip]) -> usize
    ensures { result ≡ count_by is_usable ips.now }
{
    ips.iter().filter(|ip| ip.is_usable()).count()
}

// The wait for the AAAA answer, from the A answer on, and the end of the Resolution Delay.
fn push_wait<A: Allocator, B: Allocator>(
    events: &mut Vec<Event, A>,
    timeline: &Timeline<B>,
) -> Result<(), Memory>
    ensures { OnOk result (events.new.items ≡ events.old.items ++ wait_events timeline.now timeline.now.a) }
{
    let Some((tick, ips)) = timeline.answer(Family::V4) else {
        return Ok(());
    };
    if !is_waiting(timeline, tick, ips) {
        return Ok(());
    }
    let delay_end = tick + timeline.settings().resolution();
    push(events, timeline.seen(tick), EventKind::Waits(delay_end))?;
    push_delay_over(events, timeline, timeline.seen(delay_end))
}

// The Resolution Delay's end, if no AAAA answer was seen by then.
fn push_delay_over<A: Allocator, B: Allocator>(
    events: &mut Vec<Event, A>,
    timeline: &Timeline<B>,
    tick: u64,
) -> Result<(), Memory>
    ensures { OnOk result (events.new.items ≡ events.old.items ++ over_events timeline.now tick) }
{
    if is_aaaa_seen_by(timeline, tick) {
        return Ok(());
    }
    push(events, tick, EventKind::DelayOver)
}

fn push_told<A: Allocator + Copy, B: Allocator, C: Allocator>(
    alloc: A,
    events: &mut Vec<Event, A>,
    timeline: &Timeline<B>,
    sorted: &[DestinationAttributes],
    transcript: &Transcript<C>,
) -> Result<(), Memory>
    requires { sorted.now ≡ all_attributes_of timeline.now }
    ensures { OnOk result (events.new.items ≡ events.old.items ++ told_events timeline.now transcript.now) }
{
    push_attempts(alloc, events, timeline, sorted, transcript.attempts())?;
    push_end(events, transcript.result(), transcript.attempts())?;
    Ok(())
}

// The failures and the starts.
fn push_attempts<A: Allocator + Copy, B: Allocator>(
    alloc: A,
    events: &mut Vec<Event, A>,
    timeline: &Timeline<B>,
    sorted: &[DestinationAttributes],
    lines: &[Line],
) -> Result<(), Memory>
    requires { sorted.now ≡ all_attributes_of timeline.now }
    ensures { OnOk result (events.new.items ≡ events.old.items ++ (flat_map
        (λ line. failed_by line.place line.mark) lines.now ++ start_events timeline.now None (Some 0) lines.now)) }
{
    push_failures(events, lines)?;
    push_starts(alloc, events, timeline, sorted, lines)
}

// The end of the race, and the attempts that it cancelled.
fn push_end<A: Allocator>(
    events: &mut Vec<Event, A>,
    ending: Outcome3,
    lines: &[Line],
) -> Result<(), Memory>
    ensures { OnOk result (events.new.items ≡ events.old.items ++ (end_event ending ∷ flat_map
        (λ line. cancelled_by line.place line.mark) lines.now)) }
{
    push_ending(events, ending)?;
    push_cancelled(events, lines)
}

fn push_ending<A: Allocator>(events: &mut Vec<Event, A>, ending: Outcome3) -> Result<(), Memory>
    ensures { OnOk result (events.new.items ≡ events.old.items ++ end_event ending ∷ []) }
{
    match ending {
        Outcome3::Won(place, tick) => push(events, tick, EventKind::Won(place)),
        Outcome3::Exhausted(tick) => push(events, tick, EventKind::Exhausted),
        Outcome3::Limit(tick) => push(events, tick, EventKind::Limit),
    }
}

fn push_failures<A: Allocator>(events: &mut Vec<Event, A>, lines: &[Line]) -> Result<(), Memory>
    ensures { OnOk result (events.new.items ≡ events.old.items ++ flat_map
        (λ line. failed_by line.place line.mark) lines.now) }
{
    for line in lines {
        match line.mark {
            Mark::Failed(tick) => push(events, tick, EventKind::Failed(line.place))?,
            Mark::Won(_) | Mark::Cancelled(_) => {}
        }
    }
    Ok(())
}

fn push_cancelled<A: Allocator>(events: &mut Vec<Event, A>, lines: &[Line]) -> Result<(), Memory>
    ensures { OnOk result (events.new.items ≡ events.old.items ++ flat_map
        (λ line. cancelled_by line.place line.mark) lines.now) }
{
    for line in lines {
        match line.mark {
            Mark::Cancelled(tick) => push(events, tick, EventKind::Cancelled(line.place))?,
            Mark::Won(_) | Mark::Failed(_) => {}
        }
    }
    Ok(())
}

pub(crate) fn attempt(line: &Line) -> Attempt
    ensures { result ≡ attempt_of line.now }
{
    Attempt {
        place: line.place,
        tick: line.tick,
        ip: line.ip,
    }
}

fn push_starts<A: Allocator + Copy, B: Allocator>(
    alloc: A,
    events: &mut Vec<Event, A>,
    timeline: &Timeline<B>,
    sorted: &[DestinationAttributes],
    lines: &[Line],
) -> Result<(), Memory>
    requires { sorted.now ≡ all_attributes_of timeline.now }
    ensures { OnOk result (events.new.items ≡ events.old.items ++ start_events timeline.now None (Some 0) lines.now) }
{
    are_addresses_in_range(timeline);
    let mut list = Interlaced::new(alloc);
    let (mut last, mut failed, mut place) = (None, Some(0), 0);
    for line in lines {
        let next = attempt(line);
        bring_to(alloc, timeline, sorted, next.tick, &mut list)?;
        // Mostly the address after the last tried one is tried.
        let listed = listed_at(timeline, &list, place, next);
        let start = start_of(timeline, listed, last, failed, next);
        push(events, next.tick, start)?;
        place = listed.place.saturating_add(1);
        last = Some(next);
        failed = later_of(failed, failure_of(timeline, next));
    }
    Ok(())
}

// The place of an attempt's address in the list from which it is taken. The search begins at `first`.
fn listed_at<A: Allocator, B: Allocator>(
    timeline: &Timeline<A>,
    list: &Interlaced<B>,
    first: usize,
    next: Attempt,
) -> Listed
    requires six { All InRange (addresses_of timeline.now.aaaa) }
    requires four { All InRange (addresses_of timeline.now.a) }
    requires list { list.now.ips.items ≡ interlaced_list timeline.now list.now.v6 list.now.v4 }
    requires received { list.now.ips.items ≡ order_at timeline.now next.tick }
    ensures { result ≡ listed_at timeline.now next.tick next.ip }
{
    listed_in(&list.ips, first, timeline.settings().count(), next.ip)
}

// The start of an attempt whose address is at this place in its list. `failed` is the last failure of the attempts
// before it, if all of them fail.
fn start_of<A: Allocator>(
    timeline: &Timeline<A>,
    listed: Listed,
    last: Option<Attempt>,
    failed: Option<u64>,
    next: Attempt,
) -> EventKind
    requires { listed ≡ listed_at timeline.now next.tick next.ip }
    ensures { event_at next.tick result ≡ start_event timeline.now last failed next }
{
    let cause = cause_of(timeline, last, failed, next);
    EventKind::Started(Start {
        place: next.place,
        ip: next.ip,
        cause,
        held: is_held(timeline, last, cause, next.tick),
        listed,
    })
}
