// The transcript of a race.

ghost use Rattle.std.specs.Prelude.{◌≡◌, ◌&&◌, ◌||◌, ◌++◌, ◌∷◌, [], not, length, Some, IfNone, IfOk, IsTrue, OnOk};
ghost use Rattle.std.specs.List.{list_all};
ghost use Rattle.he_addr.specs.Ip.{is_usable};
ghost use Rattle.he_plan.specs.Attempts.{AreAttempts, is_tried, last_of, order};
ghost use Rattle.he_plan.specs.Planning.{told_lines, told_one, has_room, last_failure};
ghost use Rattle.he_plan.specs.RaceState.{IsUnderway};
ghost use Rattle.he_timeline.specs.Race.{usable_addresses};
ghost use Rattle.he_timeline.specs.Timeline.{IsRace};
ghost use Rattle.he_plan.specs.Transcript.{IsTranscript, AreKnown, AreTold, stop_of, is_place, failed_mark, mark_at, result_of, without_winner, is_failed, is_tried_out, failures, greatest};

use crate::attempts::{Attempt, Plan, is_tried};
use crate::finish::Fate;
use crate::planning::run_to_stop;
use crate::race_state::RaceState;
use he_addr::{Family, Ip, Memory};
use he_timeline::Timeline;
use he_timeline::timeline::are_addresses_in_range;
use std::alloc::{Allocator, Global};
use std::marker::Model;

/// The end of an attempt, with its tick: it won, it failed at or before the race's end, or it was cancelled at the
/// end.
#[derive(Clone, Copy, Debug, PartialEq, Eq)]
pub enum Mark {
    Won(u64),
    Failed(u64),
    Cancelled(u64),
}

/// An attempt and its end.
#[derive(Clone, Copy, Debug, PartialEq, Eq)]
pub struct Line {
    pub place: usize,
    pub tick: u64,
    pub ip: Ip,
    pub mark: Mark,
}

/// How a race ended: won by the attempt at this place at this tick; exhausted at this tick, since every attempt
/// failed; or at the limit.
#[derive(Clone, Copy, Debug, PartialEq, Eq)]
pub enum Outcome3 {
    Won(usize, u64),
    Exhausted(u64),
    Limit(u64),
}

/// The attempts of a race and the end of each, by place, and how the race ended.
#[derive(Drop)]
pub struct Transcript<A: Allocator = Global> {
    lines: Vec<Line, A>,
    result: Outcome3,
}

impl<A: Allocator> Model for Transcript<A> {
    ghost use Rattle.he_timeline.specs.Timeline.{IsRace};
    ghost use Rattle.he_plan.specs.Transcript.{Report};

    ghost Value = { Report };

    ghost view = { λ t. record { lines = t.lines.items; result = t.result } };
}

impl<A: Allocator> Transcript<A> {
    /// A transcript with these lines and this result.
    pub fn new(lines: Vec<Line, A>, ending: Outcome3) -> Transcript<A>
        ensures { result ≡ record { lines = lines.items; result = ending } }
    {
        Transcript {
            lines,
            result: ending,
        }
    }

    /// The attempts, by place.
    pub fn attempts(&self) -> &[Line]
        ensures { result.now ≡ self.now.lines }
    {
        self.lines.as_slice()
    }

    /// How the race ended.
    pub fn result(&self) -> Outcome3
        ensures { result ≡ self.now.result }
    {
        self.result
    }
}

/// The transcript of the timeline's race, from its plan, one fate for each attempt and the winner of these fates (the
/// least finish and place of a success). An attempt that starts at or after the finish of a success may be Skipped.
pub fn transcript_of_fates<A: Allocator, B: Allocator, C: Allocator>(
    alloc: A,
    timeline: &Timeline<B>,
    plan: &Plan<C>,
    fates: &[Fate],
    winner: Option<(u64, usize)>,
) -> Result<Transcript<A>, Memory>
    requires { AreTold timeline.now plan.now fates.now winner }
    ensures { IfOk result (IsTranscript timeline.now) }
{
    let attempts = plan.attempts();
    let stop = stop(timeline, winner);
    let ending = ending(timeline, attempts, fates, winner);
    let lines = told_lines(alloc, stop, winner, attempts, fates)?;
    Ok(Transcript::new(lines, ending))
}

/// The transcript of the timeline's race, from the attempts that it makes up to its stop, by place, their fates known
/// there, and the winner of these fates. The stop is the winner's finish, or the limit; an attempt that has not
/// finished by then is Running.
pub fn transcript_at_stop<A: Allocator, B: Allocator>(
    alloc: A,
    timeline: &Timeline<B>,
    attempts: &[Attempt],
    known: &[Fate],
    winner: Option<(u64, usize)>,
) -> Result<Transcript<A>, Memory>
    requires { AreKnown timeline.now attempts.now known.now winner }
    ensures transcript { IfOk result (IsTranscript timeline.now) }
    ensures ending { IfOk result (λ t. t.result ≡ result_of timeline.now attempts.now known.now winner) }
{
    are_addresses_in_range(timeline);
    let stop = stop(timeline, winner);
    let ending = ending(timeline, attempts, known, winner);
    let lines = told_lines(alloc, stop, winner, attempts, known)?;
    Ok(Transcript::new(lines, ending))
}

/// The transcript of the timeline's race.
pub fn transcript_of<A: Allocator + Copy, B: Allocator>(
    alloc: A,
    timeline: &Timeline<B>,
) -> Result<Transcript<A>, Memory>
    ensures { IfOk result (IsTranscript timeline.now) }
{
    transcript_from(alloc, timeline, RaceState::new(alloc))
}

/// Like [`transcript_of`], with the usable addresses of both answers, at whichever ticks these come, already in the
/// order of RFC 6724 section 6: they aren't sorted again.
pub fn transcript_by_order<A: Allocator + Copy, B: Allocator>(
    alloc: A,
    timeline: &Timeline<B>,
    sorted: Vec<Ip, A>,
) -> Result<Transcript<A>, Memory>
    requires { sorted.items ≡ order timeline.now (usable_addresses timeline.now) }
    ensures { IfOk result (IsTranscript timeline.now) }
{
    transcript_from(alloc, timeline, RaceState::with_order(alloc, sorted))
}

// The transcript, from a race without attempts.
fn transcript_from<A: Allocator + Copy, B: Allocator>(
    alloc: A,
    timeline: &Timeline<B>,
    not_begun: RaceState<A>,
) -> Result<Transcript<A>, Memory>
    requires underway { IsUnderway timeline.now not_begun }
    requires none { not_begun.fates ≡ [] }
    ensures { IfOk result (IsTranscript timeline.now) }
{
    are_addresses_in_range(timeline);
    let (underway, winner) = run_to_stop(alloc, timeline, not_begun)?;
    let (attempts, fates) = (underway.attempts(), underway.fates());
    let stop = stop(timeline, winner);
    let ending = ending(timeline, attempts, fates, winner);
    let lines = told_lines(alloc, stop, winner, attempts, fates)?;
    Ok(Transcript::new(lines, ending))
}

fn stop<A: Allocator>(timeline: &Timeline<A>, winner: Option<(u64, usize)>) -> u64
    ensures value { result ≡ stop_of timeline.now winner }
    ensures race { IsRace timeline.now }
{
    let limit = timeline.settings().limit();
    match winner {
        Some(winner) => winner.0,
        None => limit,
    }
}

fn told_lines<A: Allocator>(
    alloc: A,
    stop: u64,
    winner: Option<(u64, usize)>,
    attempts: &[Attempt],
    fates: &[Fate],
) -> Result<Vec<Line, A>, Memory>
    requires { length attempts.now ≡ length fates.now }
    ensures { IfOk result (λ v. v.items ≡ told_lines stop winner attempts.now fates.now) }
{
    let mut lines = Vec::with_capacity(alloc, attempts.len())?;
    for (i, attempt) in attempts.iter().enumerate() {
        push_line(&mut lines, stop, winner, attempt, fates[i])?;
    }
    Ok(lines)
}

fn push_line<A: Allocator>(
    lines: &mut Vec<Line, A>,
    stop: u64,
    winner: Option<(u64, usize)>,
    attempt: &Attempt,
    fate: Fate,
) -> Result<(), Memory>
    ensures { OnOk result (lines.new.items ≡ lines.old.items ++ told_one stop winner attempt.now fate) }
{
    if attempt.tick < stop {
        let line = Line {
            place: attempt.place,
            tick: attempt.tick,
            ip: attempt.ip,
            mark: told_mark(stop, winner, attempt.place, fate),
        };
        lines.push(line)?;
    }
    Ok(())
}

fn told_mark(stop: u64, winner: Option<(u64, usize)>, place: usize, fate: Fate) -> Mark
    ensures { result ≡ mark_at stop winner place fate }
{
    if is_place(winner, place) {
        Mark::Won(stop)
    } else {
        failed_mark(stop, fate)
    }
}

fn is_place(winner: Option<(u64, usize)>, place: usize) -> bool
    ensures { result ≡ is_place winner place }
{
    match winner {
        Some(winner) => winner.1 == place,
        None => false,
    }
}

fn failed_mark(stop: u64, fate: Fate) -> Mark
    ensures { result ≡ failed_mark stop fate }
{
    match fate {
        Fate::Failed(finish) if finish <= stop => Mark::Failed(finish),
        _ => Mark::Cancelled(stop),
    }
}

fn ending<A: Allocator>(
    timeline: &Timeline<A>,
    attempts: &[Attempt],
    fates: &[Fate],
    winner: Option<(u64, usize)>,
) -> Outcome3
    requires { IfNone winner (AreAttempts timeline.now attempts.now) }
    ensures { result ≡ result_of timeline.now attempts.now fates.now winner }
{
    match winner {
        Some(winner) => Outcome3::Won(winner.1, winner.0),
        None => without_winner(timeline, attempts, fates),
    }
}

fn without_winner<A: Allocator>(
    timeline: &Timeline<A>,
    attempts: &[Attempt],
    fates: &[Fate],
) -> Outcome3
    requires { AreAttempts timeline.now attempts.now }
    ensures { result ≡ without_winner timeline.now attempts.now fates.now timeline.now.aaaa timeline.now.a }
{
    let limit = timeline.settings().limit();
    let Some(aaaa) = timeline.answer(Family::V6) else {
        return Outcome3::Limit(limit);
    };
    let Some(a) = timeline.answer(Family::V4) else {
        return Outcome3::Limit(limit);
    };
    let aaaa_seen = timeline.seen(aaaa.0);
    let a_seen = timeline.seen(a.0);
    if aaaa_seen <= limit
        && a_seen <= limit
        && are_failed(fates)
        && are_tried_out(timeline, attempts, aaaa, a)
    {
        Outcome3::Exhausted(exhausted_tick(aaaa_seen, a_seen, fates))
    } else {
        Outcome3::Limit(limit)
    }
}

// The greatest of the ticks at which the answers are seen and of all failures.
fn exhausted_tick(aaaa_seen: u64, a_seen: u64, fates: &[Fate]) -> u64
    ensures { result ≡ greatest (aaaa_seen ∷ a_seen ∷ failures fates.now) }
{
    last_failure(aaaa_seen.max(a_seen), fates)
}

fn are_failed(fates: &[Fate]) -> bool
    ensures { result ≡ list_all is_failed fates.now }
{
    fates.iter().all(|fate| is_failed(*fate))
}

fn is_failed(fate: Fate) -> bool
    ensures { result ≡ is_failed fate }
{
    matches!(fate, Fate::Failed(_))
}

// Whether each usable address of both answers (a tick and addresses each) was tried. If there is room for one more
// attempt, it would have tried any remaining address, so no scan is needed.
fn are_tried_out<A: Allocator>(
    timeline: &Timeline<A>,
    attempts: &[Attempt],
    aaaa: (u64, &[Ip]),
    a: (u64, &[Ip]),
) -> bool
    requires are { AreAttempts timeline.now attempts.now }
    requires six { timeline.now.aaaa ≡ Some (record { tick = aaaa.0; addresses = aaaa.1.now }) }
    requires four { timeline.now.a ≡ Some (record { tick = a.0; addresses = a.1.now }) }
    ensures { result ≡ (is_tried_out attempts.now (record { tick = aaaa.entry.0; addresses = aaaa.entry.1.now })
        && is_tried_out attempts.now (record { tick = a.entry.0; addresses = a.entry.1.now })) }
{
    let answered = aaaa.0.max(a.0);
    if has_room(timeline, attempts, answered) {
        return true;
    }
    is_tried_out(attempts, aaaa.1) && is_tried_out(attempts, a.1)
}

// Whether the end of the delay after the last attempt, or `from` if that is later, is seen below the limit.
fn has_room<A: Allocator>(timeline: &Timeline<A>, attempts: &[Attempt], from: u64) -> bool
    ensures room { IsTrue result → IsTrue (has_room timeline.now from (last_of attempts.now)) }
    ensures race { IsRace timeline.now }
{
    let settings = timeline.settings();
    let Some(last) = attempts.last() else {
        return false;
    };
    let Some(next) = last.tick.checked_add(settings.attempt()) else {
        return false;
    };
    timeline.seen(next.max(from)) < settings.limit()
}

fn is_tried_out(attempts: &[Attempt], ips: &[Ip]) -> bool
    ensures { result ≡ list_all (λ ip. not (is_usable ip) || is_tried attempts.now ip) ips.now }
{
    ips.iter()
        .all(|ip| !ip.is_usable() || is_tried(attempts, *ip))
}

fn last_failure(tick: u64, fates: &[Fate]) -> u64
    ensures { result ≡ last_failure tick fates.now }
{
    let mut latest = tick;
    for fate in fates {
        if let Fate::Failed(finish) = *fate {
            latest = latest.max(finish);
        }
    }
    latest
}
