// A running race without its connections: its record, the attempts made, and the next due tick.

ghost use Rattle.std.specs.Prelude.{◌≡◌, ◌+◌, ◌-◌, ◌<◌, ◌≤◌, ◌&&◌, ◌||◌, not, Bool, [], Ok, Err, Some, None, true, false, length, option_map, IfErr, IfOk, IfSome, OnErr, OnOk};
ghost use Rattle.std.specs.List.{Contains, list_all};
ghost use Rattle.he_addr.specs.Ip.{is_usable};
ghost use Rattle.he_timeline.specs.declared.builder.BuildFault.TheVariants as build_faults;
ghost use Rattle.he_timeline.specs.declared.limits.TheConstants.{MAX_LIMIT, MAX_PAUSES, MAX_PAUSE_END};
ghost use Rattle.he_plan.specs.Attempts.{is_tried};
ghost use Rattle.he_timeline.specs.Building.{last_end, unrecorded, with_outcome, with_pause};
ghost use Rattle.he_plan.specs.Due.{IsAfterTurn, IsDueTick};
ghost use Rattle.he_timeline.specs.Race.{has_outcome, is_in_answer, reply_of};
ghost use Rattle.he_timeline.specs.Timeline.{IsRace, duration_of, is_duration};
ghost use Rattle.he_plan.specs.Transcript.{IsTranscript};
ghost use Rattle.he_plan.specs.RaceState.{IsUnderway};
ghost use Rattle.he_turns.specs.Answered.{earliest, is_taken, is_tried_out_by, untaken_tick};
ghost use Rattle.he_turns.specs.Kept.{Begins, InTurn, IsRecorder, IsEnded, MakesOne, Rests, first_after};
ghost use Rattle.he_turns.specs.Recording.{ended_by, is_won, slept};

use he_addr::{Family, Ip, Memory};
use he_plan::{Attempt, RaceState, Transcript, transcript_at_stop, winner};
use he_timeline::{BuildFault, Outcome, Timeline, TimelineBuilder};
use std::alloc::{Allocator, Global};
use std::mem::drop;

#[derive(Drop)]
pub(crate) struct Recorder {
    pub(crate) alloc: Global,
    pub(crate) recorded: TimelineBuilder,
    pub(crate) underway: RaceState,
    pub(crate) turn: Option<u64>,
    pub(crate) due: u64,
}

impl Recorder {
    // The record of a race with the timeline's settings, policy, host, answers and history, before its first turn.
    pub(crate) fn new<A: Allocator>(
        alloc: Global,
        timeline: &Timeline<A>,
    ) -> Result<Recorder, Memory>
        ensures recorder { IfOk result IsRecorder }
        ensures recorded { IfOk result (λ c. c.recorded ≡ unrecorded timeline.now) }
        ensures turn { IfOk result (λ c. c.turn ≡ None) }
        ensures attempts { IfOk result (λ c. c.underway.attempts ≡ []) }
    {
        let recorded = TimelineBuilder::without_record(alloc, timeline)?;
        let underway = RaceState::new(alloc);
        let due = due_tick(recorded.timeline(), &underway, None);
        Ok(Recorder {
            alloc,
            recorded,
            underway,
            turn: None,
            due,
        })
    }

    pub(crate) fn limit(&self) -> u64
        ensures value { result ≡ self.now.recorded.settings.limit }
        ensures range { result ≤ MAX_LIMIT }
    {
        self.recorded.timeline().settings().limit()
    }

    // Begins the turn at a tick: if something was due before it, records a pause from then on.
    pub(crate) fn begin_turn(&mut self, now: u64) -> Result<(), Memory>
        requires recorder { IsRecorder self.old }
        requires later { first_after self.old.turn ≤ now }
        requires in_time { now ≤ self.old.recorded.settings.limit + 1 }
        ensures recorded { OnOk result (self.new ≡ record self.old {
          recorded = slept self.old.recorded self.old.due
              now;
        }) }
        ensures begins { OnOk result (Begins self.new.recorded now self.new.underway.attempts) }
        ensures underway { OnOk result (IsUnderway self.new.recorded self.new.underway) }
    {
        if self.due < now {
            return add_pause(&mut self.recorded, self.due, now);
        }
        Ok(())
    }

    // Records the outcome of the attempt in the turn at the tick.
    pub(crate) fn finish(&mut self, attempt: Attempt, now: u64, is_won: bool) -> Result<(), Memory>
        requires turn { (won : Bool) × InTurn self.old.recorded now self.old.underway.attempts won }
        requires made { Contains self.old.underway.attempts attempt }
        requires unfinished { has_outcome attempt.ip self.old.recorded.outcomes ≡ false }
        requires underway { IsUnderway self.old.recorded self.old.underway }
        requires in_time { now ≤ MAX_LIMIT }
        ensures recorded { OnOk result (self.new.recorded ≡ with_outcome self.old.recorded attempt.ip (ended_by is_won
            (now - attempt.tick))) }
        ensures attempts { OnOk result (self.new.underway.attempts ≡ self.old.underway.attempts) }
        ensures valid { OnOk result (IsRace self.new.recorded) }
        ensures underway { OnOk result (IsUnderway self.new.recorded self.new.underway) }
    {
        let outcome = ended_by(is_won, now - attempt.tick);
        add_outcome(&mut self.recorded, attempt.ip, outcome)?;
        self.underway.end(self.recorded.timeline(), attempt);
        Ok(())
    }

    // Whether both answers have come by the tick, and each of their usable addresses was tried.
    pub(crate) fn is_tried_out(&self, now: u64) -> bool
        ensures { result ≡ (is_tried_out_by now self.now.underway.attempts self.now.recorded.aaaa
            && is_tried_out_by now self.now.underway.attempts self.now.recorded.a) }
    {
        let race = self.recorded.timeline();
        let attempts = self.underway.attempts();
        is_tried_out_by(now, attempts, race.answer(Family::V6))
            && is_tried_out_by(now, attempts, race.answer(Family::V4))
    }

    // Ends the turn at the tick: starts an attempt if one is due.
    pub(crate) fn end_turn(&mut self, now: u64) -> Result<(), Memory>
        requires in_turn { InTurn self.old.recorded now self.old.underway.attempts false }
        requires underway { IsUnderway self.old.recorded self.old.underway }
        requires early { now < self.old.recorded.settings.limit }
        ensures recorder { OnOk result (IsRecorder self.new) }
        ensures recorded { OnOk result (self.new.recorded ≡ self.old.recorded) }
        ensures turn { OnOk result (self.new.turn ≡ Some now) }
        ensures made { OnOk result (MakesOne self.old.recorded self.old.underway.attempts self.new.underway.attempts
            now) }
    {
        start_due(
            self.alloc,
            self.recorded.timeline(),
            &mut self.underway,
            now,
        )?;
        self.due = due_tick(self.recorded.timeline(), &self.underway, Some(now));
        self.turn = Some(now);
        Ok(())
    }

    // The record of a finished race.
    pub(crate) fn into_record(self) -> Timeline
        ensures { result ≡ self.recorded }
    {
        let Recorder {
            alloc: _,
            recorded,
            underway: _,
            turn: _,
            due: _,
        } = self;
        recorded.finish()
    }

    // The transcript of a finished race.
    pub(crate) fn transcript(&self) -> Result<Transcript, Memory>
        requires ended { (won : Bool) × IsEnded self.now.recorded self.now.underway.attempts won }
        requires underway { IsUnderway self.now.recorded self.now.underway }
        ensures transcript { IfOk result (IsTranscript self.now.recorded) }
        ensures ending { IfOk result (λ t. (won : Bool) → IsEnded self.now.recorded self.now.underway.attempts won
            → is_won t.result ≡ won) }
    {
        let fates = self.underway.fates();
        transcript_at_stop(
            self.alloc,
            self.recorded.timeline(),
            self.underway.attempts(),
            fates,
            winner(fates),
        )
    }
}

// The outcome of an attempt after `duration` ticks.
fn ended_by(is_won: bool, duration: u64) -> Outcome
    ensures { result ≡ ended_by is_won duration }
{
    if is_won {
        Outcome::Ok(duration)
    } else {
        Outcome::Fail(duration)
    }
}

fn add_pause(recorded: &mut TimelineBuilder, from: u64, to: u64) -> Result<(), Memory>
    requires valid { IsRace recorded.old }
    requires later { last_end recorded.old.pauses ≤ from }
    requires some { from < to }
    requires early { to ≤ MAX_PAUSE_END }
    requires few { length recorded.old.pauses < MAX_PAUSES }
    ensures recorded { OnOk result (recorded.new ≡ with_pause recorded.old from to) }
    ensures valid { OnOk result (IsRace recorded.new) }
{
    only_memory(recorded.pause(from, to))
}

fn add_outcome(recorded: &mut TimelineBuilder, ip: Ip, outcome: Outcome) -> Result<(), Memory>
    requires valid { IsRace recorded.old }
    requires lasts { is_duration (duration_of outcome) ≡ true }
    requires known { is_in_answer recorded.old ip ≡ true }
    requires first { has_outcome ip recorded.old.outcomes ≡ false }
    ensures recorded { OnOk result (recorded.new ≡ with_outcome recorded.old ip outcome) }
    ensures valid { OnOk result (IsRace recorded.new) }
{
    only_memory(recorded.outcome_of_known(ip, outcome))
}

// The result of a builder's call whose checks all pass, so that only an allocation can fail.
pub(crate) fn only_memory(answer: Result<(), BuildFault>) -> Result<(), Memory>
    requires { IfErr answer (λ fault. fault ≡ build_faults.Memory) }
    ensures ok { OnOk result (answer ≡ Ok tt) }
    ensures refused { OnErr result (answer ≡ Err build_faults.Memory) }
{
    match answer {
        Ok(()) => Ok(()),
        Err(BuildFault::Memory) => Err(Memory),
        Err(_) => unreachable!(),
    }
}

// Makes the next attempt, if one may start at the tick.
fn start_due(
    alloc: Global,
    race: &Timeline,
    underway: &mut RaceState,
    now: u64,
) -> Result<(), Memory>
    requires in_turn { InTurn race.now now underway.old.attempts false }
    requires underway { IsUnderway race.now underway.old }
    requires early { now < race.now.settings.limit }
    ensures rests { OnOk result (Rests race.now (Some now) underway.new.attempts) }
    ensures made { OnOk result (MakesOne race.now underway.old.attempts underway.new.attempts now) }
    ensures underway { IsUnderway race.now underway.new }
{
    match underway.next_tick(race) {
        Some(tick) if tick <= now => underway.start(alloc, race, tick),
        _ => Ok(()),
    }
}

// The least tick at which something is due after the turn.
fn due_tick(race: &Timeline, underway: &RaceState, turn: Option<u64>) -> u64
    requires underway { IsUnderway race.now underway.now }
    requires after { IsAfterTurn race.now turn underway.now.attempts }
    requires over { last_end race.now.pauses ≤ first_after turn }
    ensures { IsDueTick race.now turn underway.now.attempts result }
{
    let limit = race.settings().limit();
    let due = earliest(limit, underway.next_tick(race));
    let due = earliest(due, untaken_tick(race, Family::V6, turn));
    earliest(due, untaken_tick(race, Family::V4, turn))
}

fn earliest(due: u64, tick: Option<u64>) -> u64
    ensures { result ≡ earliest due tick }
{
    match tick {
        Some(tick) => due.min(tick),
        None => due,
    }
}

// The tick of the family's answer, if the turn did not take it.
fn untaken_tick(race: &Timeline, family: Family, turn: Option<u64>) -> Option<u64>
    ensures { result ≡ untaken_tick turn (reply_of race.now family) }
{
    match race.answer(family) {
        Some((tick, _)) if !is_taken(turn, tick) => Some(tick),
        _ => None,
    }
}

fn is_taken(turn: Option<u64>, tick: u64) -> bool
    ensures { result ≡ is_taken turn tick }
{
    match turn {
        Some(turn) => tick <= turn,
        None => false,
    }
}

fn is_tried_out_by(now: u64, attempts: &[Attempt], answer: Option<(u64, &[Ip])>) -> bool
    ensures { result ≡ is_tried_out_by now attempts.now (option_map
        (λ p. record { tick = p.0; addresses = p.1.now }) answer.entry) }
{
    match answer {
        Some((tick, ips)) => tick <= now && are_tried(attempts, ips),
        None => false,
    }
}

fn are_tried(attempts: &[Attempt], ips: &[Ip]) -> bool
    ensures { result ≡ list_all (λ ip. not (is_usable ip) || is_tried attempts.now ip) ips.now }
{
    ips.iter()
        .all(|ip| !ip.is_usable() || is_tried(attempts, *ip))
}

fn is_tried(attempts: &[Attempt], ip: Ip) -> bool
    ensures { result ≡ is_tried attempts.now ip }
{
    attempts.iter().any(|attempt| attempt.ip == ip)
}
