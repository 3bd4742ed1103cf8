// The stages of a race, from one start to the next.

ghost use Rattle.std.specs.Prelude.{false, ◌≡◌, ◌∷◌, ◌++◌, ◌≤◌, ◌<◌, ◌&&◌, [], List, None, Some, length, map, max, min, nat_lt, not, slice_get, take};
ghost use Rattle.std.specs.List.{list_any};
ghost use Rattle.he_addr.specs.Ip.{is_usable, same_ip};
ghost use Rattle.he_timeline.specs.Race.{addresses_of, has_ip, outcome_of, reply_of};
ghost use Rattle.he_course.specs.Accounts.{a_begins, answer_tick, answered_of, begins, came_of, connected_at, due_of, end_of, exhausted_of, first_due, first_stage, floor_end, is_left, is_started, last_line, left_from, owner_of, stage_after, stage_of, stage_of_one, stage_without_winner, usable_from, waited_of, winner_stage};
ghost use Rattle.he_course.specs.Causes.{last_failure};
ghost use Rattle.he_course.specs.Events.{attempt_of};
ghost use Rattle.he_course.specs.LeastFloor.{winner_of};
ghost use Rattle.he_plan.specs.declared.transcript.Line.{Line};
ghost use Rattle.he_course.specs.Started.{AreStarted, IsFirstLeft};

use crate::cause::{failure_of, has_usable, later_of};
use crate::collecting::{attempt, end_tick};
use crate::floor::winner_of;
use crate::owners::{Owner, Stage};
use he_addr::{Family, Ip};
use he_plan::{Line, Transcript};
use he_timeline::{Outcome, Timeline};
use std::alloc::Allocator;

// The first attempts of a transcript, and what is carried from one to the next.
#[derive(Clone, Copy)]
pub struct Started<'a> {
    pub lines: &'a [Line],

    // The last failure of these attempts, if all of them fail.
    pub failed: Option<u64>,

    // The place of the first address that is left in the AAAA and in the A answer, or their numbers of addresses.
    pub aaaa: usize,
    pub a: usize,
}

impl<'a> Started<'a> {
    // No attempt has started.
    pub fn none<A: Allocator>(timeline: &Timeline<A>, lines: &'a [Line]) -> Started<'a>
        requires { lines.now ≡ [] }
        ensures made { AreStarted timeline.now result }
        ensures lines { result.lines.now ≡ [] }
    {
        Started {
            lines,
            failed: Some(0),
            aaaa: first_left(timeline.answered(Family::V6), lines, 0),
            a: first_left(timeline.answered(Family::V4), lines, 0),
        }
    }

    // These attempts and one more; `lines` are all of them.
    pub fn more<A: Allocator>(
        self,
        timeline: &Timeline<A>,
        lines: &'a [Line],
        line: Line,
    ) -> Started<'a>
        requires before { AreStarted timeline.now self }
        requires lines { lines.now ≡ self.lines.now ++ line ∷ [] }
        ensures made { AreStarted timeline.now result }
        ensures lines { result.lines.now ≡ lines.entry.now }
    {
        Started {
            lines,
            failed: later_of(self.failed, failure_of(timeline, attempt(&line))),
            aaaa: first_left(timeline.answered(Family::V6), lines, self.aaaa),
            a: first_left(timeline.answered(Family::V4), lines, self.a),
        }
    }

    // The stage of the race after the start of these attempts.
    #[tactic(auto, unfolding(crate::specs::Accounts::stage_of))]
    pub fn stage<A: Allocator, B: Allocator>(
        self,
        timeline: &Timeline<A>,
        transcript: &Transcript<B>,
        untried: &[Ip],
    ) -> Stage
        requires { AreStarted timeline.now self }
        ensures { result ≡ stage_of timeline.now transcript.now untried.now self.entry.lines.now }
    {
        let end = end_tick(transcript.result());
        match winner_of(self.lines, transcript.result()) {
            Some(winner) => winner_stage(timeline, end, winner),
            None => self.stage_without_winner(timeline, end, untried),
        }
    }

    fn stage_without_winner<A: Allocator>(
        self,
        timeline: &Timeline<A>,
        end: u64,
        untried: &[Ip],
    ) -> Stage
        requires { AreStarted timeline.now self }
        ensures { result ≡ stage_without_winner timeline.now end untried.now self.entry.lines.now
            (last_line self.entry.lines.now) }
    {
        match self.lines.last() {
            Some(last) => self.stage_after(timeline, end, untried, *last),
            None => first_stage(timeline, end),
        }
    }

    fn stage_after<A: Allocator>(
        self,
        timeline: &Timeline<A>,
        end: u64,
        untried: &[Ip],
        last: Line,
    ) -> Stage
        requires { AreStarted timeline.now self }
        ensures { result ≡ stage_after timeline.now end untried.now self.entry.lines.now last }
    {
        let waited = waited_of(timeline, end, last, self.failed);
        let came = self.came(timeline, end);
        let answered = answered_of(timeline, end);
        Stage {
            owner: owner_of(untried, self.lines.len().saturating_sub(1), last.ip),
            waited,
            came,
            answered,
            due: due_of(end, self.failed, waited, came, answered),
        }
    }

    // The tick from which on an address that has come is left.
    fn came<A: Allocator>(self, timeline: &Timeline<A>, end: u64) -> u64
        requires { AreStarted timeline.now self }
        ensures { result ≡ came_of timeline.now end self.entry.lines.now }
    {
        let aaaa = left_from(timeline, Family::V6, end, self.aaaa);
        let a = left_from(timeline, Family::V4, end, self.a);
        aaaa.min(a)
    }
}

// The place of the first address that may be tried and wasn't, the number of addresses if there is none. None is left
// before the place `from`.
fn first_left(ips: &[Ip], started: &[Line], from: usize) -> usize
    requires { list_any (is_left started.now) (take from ips.now) ≡ false }
    ensures { IsFirstLeft started.now ips.now result }
{
    for place in from..ips.len() {
        if is_left(started, ips[place]) {
            return place;
        }
    }
    ips.len()
}

fn is_left(started: &[Line], ip: Ip) -> bool
    ensures { result ≡ is_left started.now ip }
{
    ip.is_usable() && !is_started(started, ip)
}

fn is_started(started: &[Line], ip: Ip) -> bool
    ensures { result ≡ is_started started.now ip }
{
    started.iter().any(|line| line.ip == ip)
}

// The tick of the family's answer, if the place is that of one of its addresses.
fn left_from<A: Allocator>(timeline: &Timeline<A>, family: Family, end: u64, place: usize) -> u64
    ensures { (started : List Line) → IsFirstLeft started (addresses_of (reply_of timeline.now family)) place
        → result ≡ left_from end started (reply_of timeline.now family) }
{
    match timeline.answer(family) {
        Some((tick, ips)) if place < ips.len() => tick.min(end),
        _ => end,
    }
}

fn owner_of(untried: &[Ip], place: usize, ip: Ip) -> Owner
    ensures { result ≡ owner_of untried.now place ip }
{
    if is_in(untried, ip) {
        Owner::Unknown
    } else {
        Owner::Tried(place)
    }
}

fn is_in(ips: &[Ip], ip: Ip) -> bool
    ensures { result ≡ has_ip ip ips.now }
{
    ips.iter().any(|other| *other == ip)
}

// The tick at which the wait after the last attempt is over. `failed` is the last failure, if all attempts fail.
fn waited_of<A: Allocator>(timeline: &Timeline<A>, end: u64, last: Line, failed: Option<u64>) -> u64
    ensures { result ≡ waited_of timeline.now end last failed }
{
    let delay_end = last.tick.saturating_add(timeline.settings().attempt());
    let floor_end = floor_end(end, last, timeline.settings().floor(), failed);
    end.min(delay_end.min(floor_end))
}

fn floor_end(end: u64, last: Line, floor: Option<u64>, failed: Option<u64>) -> u64
    ensures { min end result ≡ min end (floor_end end last floor failed) }
{
    match (floor, failed) {
        (Some(floor), Some(failed)) => last.tick.saturating_add(floor).max(failed),
        _ => end,
    }
}

fn due_of(end: u64, failed: Option<u64>, waited: u64, came: u64, answered: u64) -> u64
    ensures { result ≡ due_of end failed waited came answered }
{
    if came < end {
        waited.max(came)
    } else {
        exhausted_of(end, failed, answered)
    }
}

fn exhausted_of(end: u64, failed: Option<u64>, answered: u64) -> u64
    ensures { result ≡ exhausted_of end failed answered }
{
    match failed {
        Some(tick) => end.min(tick.max(answered)),
        None => end,
    }
}

// The tick from which on no answer is to come.
fn answered_of<A: Allocator>(timeline: &Timeline<A>, end: u64) -> u64
    ensures { result ≡ answered_of timeline.now end }
{
    answer_tick(timeline, Family::V6, end).max(answer_tick(timeline, Family::V4, end))
}

fn answer_tick<A: Allocator>(timeline: &Timeline<A>, family: Family, end: u64) -> u64
    ensures { result ≡ answer_tick end (reply_of timeline.now family) }
{
    match timeline.answer(family) {
        Some((tick, _)) => tick.min(end),
        None => end,
    }
}

fn first_stage<A: Allocator>(timeline: &Timeline<A>, end: u64) -> Stage
    ensures { result ≡ first_stage timeline.now end }
{
    let begins = begins(timeline, end);
    let due = if begins < end {
        begins
    } else {
        answered_of(timeline, end)
    };
    stage_of_one(Owner::Names, due)
}

// The tick at which the race may begin (RFC 8305 section 3).
fn begins<A: Allocator>(timeline: &Timeline<A>, end: u64) -> u64
    ensures { result ≡ begins timeline.now end }
{
    let aaaa = usable_from(timeline, Family::V6, end);
    let a = usable_from(timeline, Family::V4, end);
    let resolution = timeline.settings().resolution();
    let wait_end = a
        .saturating_add(resolution)
        .min(answer_tick(timeline, Family::V6, end));
    end.min(aaaa.min(a.max(wait_end)))
}

// The tick of the family's answer, if it has a usable address.
fn usable_from<A: Allocator>(timeline: &Timeline<A>, family: Family, end: u64) -> u64
    ensures { result ≡ usable_from end (reply_of timeline.now family) }
{
    match timeline.answer(family) {
        Some((tick, ips)) if has_usable(ips) => tick.min(end),
        _ => end,
    }
}

fn winner_stage<A: Allocator>(timeline: &Timeline<A>, end: u64, winner: Line) -> Stage
    ensures { result ≡ winner_stage timeline.now end winner }
{
    let due = match timeline.outcome(winner.ip) {
        Some(Outcome::Ok(duration)) => end.min(winner.tick.saturating_add(duration)),
        _ => end,
    };
    stage_of_one(Owner::Connecting, due)
}

fn stage_of_one(owner: Owner, due: u64) -> Stage
    ensures { result ≡ stage_of_one owner due }
{
    Stage {
        owner,
        waited: 0,
        came: 0,
        answered: 0,
        due,
    }
}
