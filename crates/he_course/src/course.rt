// The course of a race: all that is reported of it, made once.

ghost use Rattle.std.specs.Prelude.{◌≡◌, ◌++◌, [], count_by, filter, map, IfOk, OnOk};
ghost use Rattle.he_addr.specs.Ip.{is_usable};
ghost use Rattle.he_timeline.specs.Race.{reply_of};
ghost use Rattle.he_plan.specs.Transcript.{IsTranscript};
ghost use Rattle.he_course.specs.Addresses.{all_attributes_of};
ghost use Rattle.he_course.specs.Course.{IsCourse, IsRecordedCourse, answer_of, before_winner, course_times, events_in, lost, put_events, seen_of};
ghost use Rattle.he_course.specs.Events.{comes_by, end_event, events_of};

use crate::accounts::{Account, Times};
use crate::addresses::{Preferred, prefer, transcript_with};
use crate::collecting::{collect_events, end_tick};
use crate::events::{Event, EventKind};
use crate::floor::{Ended, end_with_floor};
use he_addr::{Family, Ip, Memory};
use he_plan::{Line, Transcript, sorted_attributes};
use he_select::DestinationAttributes;
use he_timeline::Timeline;
use std::alloc::Allocator;

/// An answer, as the client sees it.
#[derive(Clone, Copy, Debug, PartialEq, Eq)]
pub struct Seen {
    /// The tick at which it is seen; may be after the race's end.
    pub tick: u64,

    /// The number of its usable addresses.
    pub usable: usize,
}

/// A race with all that is reported of it. Stories, pictures and JSON texts read this value alone.
#[derive(Drop)]
pub struct Course<A: Allocator> {
    /// The number of the race in its input, counted from 1.
    pub number: usize,

    /// The line of the input at which it begins.
    pub line: u64,

    /// The answers that come.
    pub aaaa: Option<Seen>,
    pub a: Option<Seen>,

    /// The usable addresses of both answers, the preferred one first, not interlaced.
    pub addresses: Vec<Preferred, A>,

    /// The attempts, each with its outcome, and the result.
    pub transcript: Transcript<A>,

    /// How the race ended.
    pub ended: Ended,

    /// How it would have ended with the least floor, if it has no floor and that is sooner.
    pub sooner: Option<Ended>,

    /// The events up to the race's end, by tick.
    pub events: Vec<Event, A>,

    /// How many of its milliseconds went into what.
    pub account: Account<A>,

    /// The Connection Attempt Delay, in milliseconds (RFC 8305 section 5).
    pub delay: u64,
}

impl<A: Allocator + Copy> Course<A> {
    /// The course of the race that has this number in its input, counted from 1, and begins at this line of it. Sorts
    /// the addresses once, and makes one transcript.
    ///
    /// # Errors
    ///
    /// `Memory` if an allocation was refused.
    pub fn of<B: Allocator>(
        alloc: A,
        timeline: &Timeline<B>,
        number: usize,
        line: u64,
    ) -> Result<Course<A>, Memory>
        ensures { IfOk result (IsCourse timeline.now number line) }
    {
        Course::recorded(alloc, timeline, &[], number, line)
    }

    /// As [`of`](Course::of), of a race whose record says that no client tried the addresses of `untried`.
    ///
    /// # Errors
    ///
    /// `Memory` if an allocation was refused.
    #[tactic(auto, unfolding(crate::specs::Addresses::all_attributes_of))]
    pub fn recorded<B: Allocator>(
        alloc: A,
        timeline: &Timeline<B>,
        untried: &[Ip],
        number: usize,
        line: u64,
    ) -> Result<Course<A>, Memory>
        ensures { IfOk result (IsRecordedCourse timeline.now untried.now number line) }
    {
        let sorted = sorted_attributes(alloc, timeline)?;
        let transcript = transcript_with(alloc, timeline, &sorted)?;
        let sooner = end_with_floor(alloc, timeline, &sorted, &transcript)?;
        let events = events_in(alloc, timeline, &sorted, &transcript)?;
        let addresses = prefer(alloc, timeline.host().routes(), &sorted)?;
        let account = Account::of(alloc, timeline, &transcript, untried)?;
        Ok(Course {
            number,
            line,
            aaaa: seen_of(timeline, Family::V6),
            a: seen_of(timeline, Family::V4),
            addresses,
            ended: Ended::of(&transcript),
            sooner,
            transcript,
            events,
            account,
            delay: timeline.settings().attempt(),
        })
    }
}

impl<A: Allocator> Course<A> {
    /// The tick at which the race ends.
    pub fn end(&self) -> u64
        ensures { result ≡ (end_event self.now.transcript.result).tick }
    {
        end_tick(self.transcript.result())
    }

    /// The milliseconds of the race, by what they went into.
    pub fn times(&self) -> Times
        ensures { result ≡ course_times self.now }
    {
        self.account.times(self.end())
    }

    /// The answer of a family, if it comes.
    pub fn answer(&self, family: Family) -> Option<Seen>
        ensures { result ≡ answer_of self.now family }
    {
        match family {
            Family::V6 => self.aaaa,
            Family::V4 => self.a,
        }
    }

    /// The milliseconds that a won race lost, by its account. None if the race was not won.
    pub fn lost(&self) -> Option<u64>
        ensures { result ≡ lost self.now }
    {
        match self.ended.winner {
            Some(_) => Some(self.account.lost),
            None => None,
        }
    }

    /// The attempts before the winner's, by place. Each had failed or was running when the winner's started.
    pub fn before_winner(&self) -> &[Line]
        ensures { result.now ≡ before_winner self.now }
    {
        match self.ended.winner {
            Some(line) => {
                let lines = self.transcript.attempts();
                &lines[..line.place.min(lines.len())]
            }
            None => &[],
        }
    }
}

fn seen_of<A: Allocator>(timeline: &Timeline<A>, family: Family) -> Option<Seen>
    ensures { result ≡ seen_of timeline.now (reply_of timeline.now family) }
{
    match timeline.answer(family) {
        Some((tick, ips)) => Some(Seen {
            tick: timeline.seen(tick),
            usable: ips.iter().filter(|ip| ip.is_usable()).count(),
        }),
        None => None,
    }
}

// The events up to the race's end by tick, and by kind within a tick.
fn events_in<A: Allocator + Copy, B: Allocator, C: Allocator>(
    alloc: A,
    timeline: &Timeline<B>,
    sorted: &[DestinationAttributes],
    transcript: &Transcript<C>,
) -> Result<Vec<Event, A>, Memory>
    requires { sorted.now ≡ all_attributes_of timeline.now }
    ensures { IfOk result (λ events. events.items ≡ events_in timeline.now transcript.now) }
{
    let end = end_tick(transcript.result());
    let mut events = collect_events(alloc, timeline, sorted, transcript)?;
    keep_until(&mut events, end);
    sort_by_tick(&mut events)?;
    Ok(events)
}

fn keep_until<A: Allocator>(events: &mut Vec<Event, A>, end: u64)
    ensures { events.new.items ≡ filter (λ event. comes_by end event.tick event.kind) events.old.items }
{
    events.retain(|event| comes_by(event, end));
}

// Whether the event comes by the race's end; a pause must begin before it.
fn comes_by(event: &Event, end: u64) -> bool
    ensures { result ≡ comes_by end event.now.tick event.now.kind }
{
    match event.kind {
        EventKind::Paused(_) => event.tick < end,
        _ => event.tick <= end,
    }
}

fn sort_by_tick<A: Allocator>(events: &mut Vec<Event, A>) -> Result<(), Memory>
    ensures { OnOk result (events.new.items ≡ put_events [] events.old.items) }
{
    events.sort_by_key(|event| event.tick)
}
