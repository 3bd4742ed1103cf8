// The course of a race: its events, one a line.

ghost use Rattle.std.specs.Prelude.{◌≡◌, ◌++◌, IfOk, OnOk};
ghost use Rattle.std.specs.List.{flat_map};
ghost use Rattle.he_story.specs.Lines.{became_facts, cause_facts, event_facts, happening_facts, held_facts, is_seen_by, is_short, is_short_to, kind_facts, late_at, late_facts, listed_facts, met_facts, other_facts, other_of, reply_facts, short_pauses, start_facts, taken, told};

use crate::ends::cut_at;
use crate::preferred::width_of;
use crate::recorded::{course_said, reason_at};
use crate::story::Story;
use he_addr::{Family, Memory};
use he_course::{Cause, Course, Event, EventKind, Listed, Seen, Start};
use he_plan::Line;
use he_print::Part;
use he_record::{LookupReason, Record};
use he_statements::Said;
use he_statements::words::{name_of, noun, turn_words};
use std::alloc::Allocator;

/// The shortest pause, in milliseconds, that has a line in a story.
pub const LEAST_PAUSE: u64 = 5;

// Whether it is a pause that is too short for a line.
fn is_short(event: &Event) -> bool
    ensures { result ≡ is_short event.now.tick event.now.kind }
{
    match event.kind {
        EventKind::Paused(end) => end.saturating_sub(event.tick) < LEAST_PAUSE,
        _ => false,
    }
}

// Whether it is such a pause and ends at this tick.
fn is_short_to(until: u64, event: &Event) -> bool
    ensures { result ≡ is_short_to until event.now.tick event.now.kind }
{
    match event.kind {
        EventKind::Paused(end) => end == until && end.saturating_sub(event.tick) < LEAST_PAUSE,
        _ => false,
    }
}

// The pauses that are too short for a line. They are few, and most lines look through them.
fn short_pauses<A: Allocator>(alloc: A, events: &[Event]) -> Result<Vec<Event, A>, Memory>
    ensures { IfOk result (λ pauses. pauses.items ≡ short_pauses events.now) }
{
    events
        .iter()
        .copied()
        .filter(|event| is_short(event))
        .collect(alloc)
}

// The milliseconds for which the client slept up to a tick, if that pause is too short for a line.
fn late_at(pauses: &[Event], until: u64) -> Option<u64>
    ensures { result ≡ late_at pauses.now until }
{
    let pause = pauses.iter().find(|pause| is_short_to(until, pause))?;
    Some(until.saturating_sub(pause.tick))
}

// The time from the start of an attempt to a tick.
fn taken(lines: &[Line], place: usize, tick: u64) -> u64
    ensures { result ≡ taken lines.now place tick }
{
    match lines.get(place) {
        Some(line) => tick.saturating_sub(line.tick),
        None => 0,
    }
}

fn other_of(family: Family) -> Family
    ensures { result ≡ other_of family }
{
    match family {
        Family::V6 => Family::V4,
        Family::V4 => Family::V6,
    }
}

fn is_seen_by(seen: Option<Seen>, tick: u64) -> bool
    ensures { result ≡ is_seen_by tick seen }
{
    match seen {
        Some(seen) => seen.tick <= tick,
        None => false,
    }
}

impl<A: Allocator> Story<A> {
    fn tell_late(&mut self, late: Option<u64>) -> Result<(), Memory>
        ensures { OnOk result (told self.new ≡ told self.old ++ late_facts late) }
    {
        match late {
            Some(late) => self.tell(Said::Late, &[Part::Number(late)]),
            None => Ok(()),
        }
    }

    // Why an attempt starts at its tick.
    fn tell_cause(&mut self, cause: Cause) -> Result<(), Memory>
        ensures { OnOk result (told self.new ≡ told self.old ++ cause_facts cause) }
    {
        match cause {
            Cause::AaaaAnswer => self.tell(Said::AaaaThere, &[]),
            Cause::BothAnswers => self.tell(Said::BothThere, &[]),
            Cause::ResolutionDelay => self.tell(Said::WaitIsOver, &[]),
            Cause::AttemptDelay(place, delay) => {
                self.tell(Said::AfterStart, &[Part::Number(delay), Part::Place(place)])
            }
            Cause::Floor(place, floor) => {
                let parts = [Part::Number(floor), Part::Place(place)];
                self.tell(Said::FloorIsOver, &parts)
            }
            Cause::LastFailure(_) => self.tell(Said::AllFailed, &[]),
            Cause::LaterAnswer(family) => {
                self.tell(Said::CameWith(family), &[Part::Words(name_of(family))])
            }
        }
    }

    // Whether a pause held the attempt back, and for how long if the pause has no line.
    fn tell_held(&mut self, held: bool, pauses: &[Event], tick: u64) -> Result<(), Memory>
        ensures { OnOk result (told self.new ≡ told self.old ++ held_facts held (late_at pauses.now tick)) }
    {
        if !held {
            return Ok(());
        }
        match late_at(pauses, tick) {
            Some(late) => self.tell_late(Some(late)),
            None => self.tell(Said::HeldBack, &[]),
        }
    }

    // The place of an attempt's address in the list of the known addresses.
    fn tell_listed(&mut self, listed: Listed, family: Family) -> Result<(), Memory>
        ensures { OnOk result (told self.new ≡ told self.old ++ listed_facts listed) }
    {
        if listed.count == 1 {
            return self.tell(Said::OnlyOne, &[]);
        }
        let (place, count) = (Part::Place(listed.place), Part::Number(listed.count as u64));
        let turn = Part::Words(turn_words(listed.turn, family));
        self.tell(Said::Turn(listed.turn), &[place, count, turn])
    }

    fn tell_start(&mut self, start: Start, pauses: &[Event], tick: u64) -> Result<(), Memory>
        ensures { OnOk result (told self.new ≡ told self.old ++ start_facts start (late_at pauses.now tick)) }
    {
        let (place, ip) = (Part::Place(start.place), Part::Ip(start.ip));
        self.tell(Said::Starts, &[place, ip])?;
        self.tell_cause(start.cause)?;
        self.tell_held(start.held, pauses, tick)?;
        self.tell_listed(start.listed, start.ip.family())
    }

    // The outcome of an attempt, and the time that it took.
    fn tell_became(
        &mut self,
        said: Said,
        place: usize,
        taken: u64,
        late: Option<u64>,
    ) -> Result<(), Memory>
        ensures { OnOk result (told self.new ≡ told self.old ++ became_facts said place taken late) }
    {
        self.tell(said, &[Part::Place(place), Part::Number(taken)])?;
        self.tell_late(late)
    }

    // The answer of the family, if it is still to come.
    fn tell_other(&mut self, family: Family, is_seen: bool) -> Result<(), Memory>
        ensures { OnOk result (told self.new ≡ told self.old ++ other_facts family is_seen) }
    {
        if is_seen {
            return Ok(());
        }
        self.tell(Said::StillMissing(family), &[Part::Words(name_of(family))])
    }

    // An answer with this number of addresses, or the reason that it has none.
    fn tell_reply(
        &mut self,
        family: Family,
        count: usize,
        late: Option<u64>,
        reason: Option<LookupReason>,
    ) -> Result<(), Memory>
        ensures { OnOk result (told self.new ≡ told self.old ++ reply_facts family count late reason) }
    {
        let name = Part::Words(name_of(family));
        let noun = Part::Words(noun(count, b"address", b"addresses"));
        let to_try = [Part::Number(count as u64), noun];
        let Some(reason) = reason else {
            self.tell(Said::Answered(family), &[name])?;
            self.tell_late(late)?;
            return self.tell(Said::ToTry, &to_try);
        };
        self.tell(Said::Lookup(family, reason), &[name])?;
        self.tell_late(late)?;
        if count == 0 {
            return Ok(());
        }
        self.tell(Said::ToTry, &to_try)
    }

    // The client's pauses, the answers, and the wait for the AAAA answer.
    fn tell_met<B: Allocator, C: Allocator>(
        &mut self,
        course: &Course<B>,
        recorded: &Record<'_, C>,
        pauses: &[Event],
        event: Event,
    ) -> Result<(), Memory>
        ensures { OnOk result (told self.new ≡ told self.old ++ met_facts recorded.now course.now event.tick
            (late_at pauses.now event.tick) event.kind) }
    {
        match event.kind {
            EventKind::Paused(end) => self.tell(Said::Paused, &[Part::Number(end)]),
            EventKind::Answered(family, count) => {
                let other = other_of(family);
                let late = late_at(pauses, event.tick);
                self.tell_reply(family, count, late, recorded.lookup(family))?;
                self.tell_other(other, is_seen_by(course.answer(other), event.tick))
            }
            EventKind::Waits(end) => self.tell(Said::Waits, &[Part::Number(end)]),
            EventKind::DelayOver => {
                self.tell(Said::DelayOver, &[])?;
                self.tell_late(late_at(pauses, event.tick))
            }
            _ => Ok(()),
        }
    }

    fn tell_kind<B: Allocator, C: Allocator>(
        &mut self,
        course: &Course<B>,
        recorded: &Record<'_, C>,
        pauses: &[Event],
        event: Event,
    ) -> Result<(), Memory>
        ensures { OnOk result (told self.new ≡ told self.old ++ kind_facts recorded.now course.now event.tick
            (late_at pauses.now event.tick) event.kind) }
    {
        let lines = course.transcript.attempts();
        match event.kind {
            EventKind::Started(start) => self.tell_start(start, pauses, event.tick),
            EventKind::Failed(place) => {
                let taken = taken(lines, place, event.tick);
                self.tell_became(Said::Failed, place, taken, late_at(pauses, event.tick))?;
                self.tell_because(reason_at(recorded, lines, place))
            }
            EventKind::Won(place) => {
                let taken = taken(lines, place, event.tick);
                self.tell_became(Said::Won, place, taken, late_at(pauses, event.tick))
            }
            EventKind::Cancelled(place) => {
                let taken = taken(lines, place, event.tick);
                let said = cut_at(recorded, course.delay, lines, place, taken);
                self.tell_became(said, place, taken, None)
            }
            EventKind::Exhausted => self.tell(Said::Exhausted, &[]),
            EventKind::Limit => self.tell(Said::Limit, &[]),
            EventKind::Paused(_)
            | EventKind::Answered(_, _)
            | EventKind::Waits(_)
            | EventKind::DelayOver => self.tell_met(course, recorded, pauses, event),
        }
    }

    // `pauses` are the short ones of the course.
    fn tell_event<B: Allocator, C: Allocator>(
        &mut self,
        course: &Course<B>,
        recorded: &Record<'_, C>,
        pauses: &[Event],
        event: Event,
    ) -> Result<(), Memory>
        requires { pauses.now ≡ short_pauses course.now.events.items }
        ensures { OnOk result (told self.new ≡ told self.old ++ event_facts recorded.now course.now event) }
    {
        if is_short(&event) {
            return Ok(());
        }
        let width = width_of(course.end());
        self.tell(Said::At, &[Part::Aligned(width, event.tick)])?;
        self.tell_kind(course, recorded, pauses, event)
    }

    pub(crate) fn tell_events<B: Allocator, C: Allocator>(
        &mut self,
        alloc: A,
        course: &Course<B>,
        recorded: &Record<'_, C>,
    ) -> Result<(), Memory>
        ensures { OnOk result (told self.new ≡ told self.old ++ happening_facts recorded.now course.now) }
    {
        let pauses = short_pauses(alloc, &course.events)?;
        self.tell(course_said(recorded.end()), &[])?;
        self.tell_each(course, recorded, &pauses)
    }

    fn tell_each<B: Allocator, C: Allocator>(
        &mut self,
        course: &Course<B>,
        recorded: &Record<'_, C>,
        pauses: &[Event],
    ) -> Result<(), Memory>
        requires { pauses.now ≡ short_pauses course.now.events.items }
        ensures { OnOk result (told self.new ≡ told self.old ++ flat_map (event_facts recorded.now course.now)
            course.now.events.items) }
    {
        for event in &course.events {
            self.tell_event(course, recorded, pauses, *event)?;
        }
        Ok(())
    }
}
