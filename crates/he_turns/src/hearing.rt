// Records the answers that come in a turn of a running race.

ghost use Rattle.std.specs.Prelude.{◌≡◌, ◌≤◌, ◌&&◌, false, true, not, None, IfNone, IfOk, OnOk, length, nat_lt};
ghost use Rattle.futures.specs.Task.{Keeps};
ghost use Rattle.he_timeline.specs.declared.limits.TheConstants.{MAX_ADDRESSES, MAX_LIMIT};
ghost use Rattle.he_timeline.specs.Building.{with_answer};
ghost use Rattle.he_timeline.specs.Race.{has_ip, reply_of};
ghost use Rattle.he_timeline.specs.Timeline.{IsRace, are_distinct, are_of, is_of};
ghost use Rattle.he_plan.specs.RaceState.{IsUnderway};
ghost use Rattle.he_turns.specs.Heard.{Hears, HearsOf, cleaned, ips_of, lists_of, with_heard};
ghost use Rattle.he_turns.specs.Kept.{InTurn};
ghost use Rattle.he_turns.specs.Listening.{ListensFor, SourceListens};

use crate::answers::{Answer, AnswerSource};
use crate::learning::add_known;
use crate::lines::add_lines;
use crate::recorder::{Recorder, only_memory};
use futures::task::{Context, Poll};
use he_addr::{Family, Ip, Memory};
use he_select::Known;
use he_timeline::TimelineBuilder;
use he_timeline::limits::MAX_ADDRESSES;
use std::alloc::Global;

impl Recorder {
    // Takes the answers that have come: polls once for each family without one, IPv6 first.
    pub(crate) fn hear<S: AnswerSource>(
        &mut self,
        now: u64,
        source: &mut S,
        cx: &mut Context<'_>,
    ) -> Result<(), Memory>
        requires turn { InTurn self.old.recorded now self.old.underway.attempts false }
        requires underway { IsUnderway self.old.recorded self.old.underway }
        requires in_time { now ≤ MAX_LIMIT }
        ensures heard { OnOk result (Hears S.hears source.old self.old.recorded now source.new self.new.recorded) }
        ensures waits { OnOk result (SourceListens S.AnswerSource cx.new source.old self.old.recorded now source.new
            self.new.recorded) }
        ensures attempts { OnOk result (self.new.underway.attempts ≡ self.old.underway.attempts) }
        ensures turn { OnOk result (InTurn self.new.recorded now self.new.underway.attempts false) }
        ensures underway { OnOk result (IsUnderway self.new.recorded self.new.underway) }
        ensures kept { Keeps cx.old cx.new }
    {
        self.hear_of(Family::V6, now, source, cx)?;
        self.hear_of(Family::V4, now, source, cx)
    }

    // Takes the family's answer, if it has none yet and the source gives one.
    fn hear_of<S: AnswerSource>(
        &mut self,
        family: Family,
        now: u64,
        source: &mut S,
        cx: &mut Context<'_>,
    ) -> Result<(), Memory>
        requires turn { InTurn self.old.recorded now self.old.underway.attempts false }
        requires underway { IsUnderway self.old.recorded self.old.underway }
        requires in_time { now ≤ MAX_LIMIT }
        ensures heard { OnOk result (HearsOf S.hears source.old self.old.recorded family now source.new
            self.new.recorded) }
        ensures waits { OnOk result (IfNone (reply_of self.new.recorded family)
            (ListensFor S.AnswerSource cx.new source.new family)) }
        ensures other { OnOk result ((other : _) → (other ≡ family → ⊥)
            → ListensFor S.AnswerSource cx.old source.old other → ListensFor S.AnswerSource cx.new source.new other) }
        ensures attempts { OnOk result (self.new.underway.attempts ≡ self.old.underway.attempts) }
        ensures turn { OnOk result (InTurn self.new.recorded now self.new.underway.attempts false) }
        ensures underway { OnOk result (IsUnderway self.new.recorded self.new.underway) }
        ensures kept { Keeps cx.old cx.new }
    {
        if self.recorded.timeline().answer(family).is_some() {
            return Ok(());
        }
        match source.poll_answer(family, now, cx) {
            Poll::Pending => Ok(()),
            Poll::Ready(told) => self.answer(family, now, &told),
        }
    }

    // Records an answer for a family that has none, in the turn at the tick.
    fn answer(&mut self, family: Family, now: u64, told: &Answer) -> Result<(), Memory>
        requires turn { InTurn self.old.recorded now self.old.underway.attempts false }
        requires underway { IsUnderway self.old.recorded self.old.underway }
        requires first { reply_of self.old.recorded family ≡ None }
        requires in_time { now ≤ MAX_LIMIT }
        ensures recorded { OnOk result (self.new.recorded ≡ with_heard self.old.recorded family now (lists_of told.now)
            (cleaned family (ips_of told.now.known.items))) }
        ensures attempts { OnOk result (self.new.underway.attempts ≡ self.old.underway.attempts) }
        ensures turn { OnOk result (InTurn self.new.recorded now self.new.underway.attempts false) }
        ensures underway { OnOk result (IsUnderway self.new.recorded self.new.underway) }
    {
        record_answer(self.alloc, &mut self.recorded, family, now, told)?;
        self.underway.hear();
        Ok(())
    }
}

// Records an answer for a family that has none, as come at the tick.
pub(crate) fn record_answer(
    alloc: Global,
    recorded: &mut TimelineBuilder,
    family: Family,
    now: u64,
    told: &Answer,
) -> Result<(), Memory>
    requires valid { IsRace recorded.old }
    requires first { reply_of recorded.old family ≡ None }
    requires in_time { now ≤ MAX_LIMIT }
    ensures recorded { OnOk result (recorded.new ≡ with_heard recorded.old family now (lists_of told.now)
        (cleaned family (ips_of told.now.known.items))) }
    ensures valid { OnOk result (IsRace recorded.new) }
{
    let known = told.known.as_slice();
    let addresses = cleaned(alloc, family, known)?;
    add_answer(recorded, family, now, &addresses)?;
    add_known(recorded, known, &addresses)?;
    add_lines(alloc, recorded, family, told)
}

fn add_answer(
    recorded: &mut TimelineBuilder,
    family: Family,
    tick: u64,
    addresses: &[Ip],
) -> Result<(), Memory>
    requires valid { IsRace recorded.old }
    requires first { reply_of recorded.old family ≡ None }
    requires in_time { tick ≤ MAX_LIMIT }
    requires few { length addresses.now ≤ MAX_ADDRESSES }
    requires own { are_of family addresses.now ≡ true }
    requires distinct { are_distinct addresses.now ≡ true }
    ensures recorded { OnOk result (recorded.new ≡ with_answer recorded.old family
        (record { tick = tick; addresses = addresses.now })) }
    ensures valid { OnOk result (IsRace recorded.new) }
{
    only_memory(recorded.answer(family, tick, addresses))
}

// The addresses that a race takes from an answer for a family: those of the family, each once, at most
// `MAX_ADDRESSES`.
fn cleaned(alloc: Global, family: Family, told: &[Known]) -> Result<Vec<Ip>, Memory>
    ensures { IfOk result (λ clean. clean.items ≡ cleaned family (ips_of told.now)) }
{
    let mut clean = Vec::new(alloc);
    for one in told {
        if is_wanted(&clean, family, one.ip) {
            clean.push(one.ip)?;
        }
    }
    Ok(clean)
}

fn is_wanted(clean: &[Ip], family: Family, ip: Ip) -> bool
    ensures { result ≡ (nat_lt (length clean.now) MAX_ADDRESSES && (is_of family ip && not (has_ip ip clean.now))) }
{
    clean.len() < MAX_ADDRESSES && ip.family() == family && !has_ip(clean, ip)
}

fn has_ip(ips: &[Ip], ip: Ip) -> bool
    ensures { result ≡ has_ip ip ips.now }
{
    ips.iter().any(|other| *other == ip)
}
