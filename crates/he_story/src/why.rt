// Why a race did not connect, by its attempts and its record.

ghost use Rattle.std.specs.Prelude.{◌≡◌, ◌++◌, map, OnOk};
ghost use Rattle.std.specs.List.{flat_map};
ghost use Rattle.he_record.specs.Left.{said_of};
ghost use Rattle.he_story.specs.Lines.{told};
ghost use Rattle.he_story.specs.Why.{all_have, common_reason, ended_with, exhausted_facts, failed_count, failed_facts, given_up_facts, have_untried, is_failed, limit_facts, none_facts, rank_of, reason_of_all, reason_of_both, reason_place, same_reason, server_facts, unanswered_facts, unfound_facts, won_facts};

use crate::story::Story;
use he_addr::{Family, Memory};
use he_course::Ended;
use he_plan::{Line, Mark, Outcome3};
use he_print::Part;
use he_record::{AttemptReason, LookupReason, Record, RecordLine};
use he_statements::Said;
use he_statements::words::{noun, version_of};
use std::alloc::Allocator;

// The place of a reason among them.
fn reason_place(reason: AttemptReason) -> u8
    ensures { result ≡ reason_place reason }
{
    match reason {
        AttemptReason::Refused => 0,
        AttemptReason::Unreachable => 1,
        AttemptReason::TimedOut => 2,
        AttemptReason::Reset => 3,
        AttemptReason::Forbidden => 4,
        AttemptReason::NoSource => 5,
        AttemptReason::Other => 6,
    }
}

fn same_reason(one: Option<AttemptReason>, other: Option<AttemptReason>) -> bool
    ensures { result ≡ same_reason one other }
{
    match (one, other) {
        (Some(one), Some(other)) => reason_place(one) == reason_place(other),
        (None, None) => true,
        _ => false,
    }
}

// The attempts failed for this reason each.
fn all_have<A: Allocator>(
    recorded: &Record<'_, A>,
    reason: Option<AttemptReason>,
    lines: &[Line],
) -> bool
    ensures { result ≡ all_have recorded.now reason lines.now }
{
    lines
        .iter()
        .all(|line| same_reason(reason, recorded.attempt(line.ip)))
}

// The reason that all these attempts failed, if the record has one for all.
fn common_reason<A: Allocator>(recorded: &Record<'_, A>, lines: &[Line]) -> Option<AttemptReason>
    ensures { result ≡ common_reason recorded.now lines.now }
{
    match lines.split_first() {
        Some((line, others)) => reason_of_all(recorded, recorded.attempt(line.ip), others),
        None => None,
    }
}

// The reason, if the attempts failed for it each.
fn reason_of_all<A: Allocator>(
    recorded: &Record<'_, A>,
    reason: Option<AttemptReason>,
    lines: &[Line],
) -> Option<AttemptReason>
    ensures { result ≡ reason_of_all recorded.now reason lines.now }
{
    if all_have(recorded, reason, lines) {
        reason
    } else {
        None
    }
}

fn is_failed(mark: Mark) -> bool
    ensures { result ≡ is_failed mark }
{
    match mark {
        Mark::Failed(_) => true,
        _ => false,
    }
}

fn failed_count(lines: &[Line]) -> u64
    ensures { result ≡ failed_count lines.now }
{
    lines.iter().filter(|line| is_failed(line.mark)).count() as u64
}

fn have_untried<A: Allocator>(recorded: &Record<'_, A>, lines: &[Line]) -> bool
    ensures { result ≡ have_untried recorded.now lines.now }
{
    lines.iter().any(|line| recorded.is_untried(line.ip))
}

// The rank of a reason: the first of two says why a name has no address.
fn rank_of(reason: LookupReason) -> u8
    ensures { result ≡ rank_of reason }
{
    match reason {
        LookupReason::NoAnswer => 0,
        LookupReason::Refused => 1,
        LookupReason::Failed => 2,
        LookupReason::Malformed => 3,
        LookupReason::Nat64 => 4,
        LookupReason::NoSuchName => 5,
        LookupReason::NoAddress => 6,
        LookupReason::NotAsked => 7,
    }
}

// Why the name has no address, if there is a reason for each family.
pub(crate) fn reason_of_both(
    aaaa: Option<LookupReason>,
    a: Option<LookupReason>,
) -> Option<LookupReason>
    ensures { result ≡ reason_of_both aaaa a }
{
    match (aaaa, a) {
        (Some(aaaa), Some(a)) => Some(if rank_of(aaaa) <= rank_of(a) { aaaa } else { a }),
        _ => None,
    }
}

// The words for these addresses, before and after their number.
fn all_of(count: usize) -> (&'static [u8], &'static [u8]) {
    if count == 1 {
        (b"its", b"address")
    } else {
        (b"all", b"addresses")
    }
}

fn none_of(count: usize) -> (&'static [u8], &'static [u8]) {
    match count {
        1 => (b"its", b"address did not answer"),
        2 => (b"neither of", b"addresses answered"),
        _ => (b"none of", b"addresses answered"),
    }
}

impl<A: Allocator> Story<A> {
    // How a race ended, with these attempts.
    pub(crate) fn tell_result<B: Allocator>(
        &mut self,
        recorded: &Record<'_, B>,
        lines: &[Line],
        ended: Ended,
    ) -> Result<(), Memory>
        ensures { OnOk result (told self.new ≡ told self.old
            ++ ended_with recorded.now lines.now ended.winner ended.result) }
    {
        match ended.result {
            Outcome3::Won(_, tick) => self.tell_won(ended.winner, tick),
            Outcome3::Exhausted(tick) => self.tell_exhausted(recorded, lines, tick),
            Outcome3::Limit(tick) => self.tell_given_up(recorded, lines, tick),
        }
    }

    // Nothing was left to try at this tick.
    fn tell_exhausted<B: Allocator>(
        &mut self,
        recorded: &Record<'_, B>,
        lines: &[Line],
        tick: u64,
    ) -> Result<(), Memory>
        ensures { OnOk result (told self.new ≡ told self.old
            ++ exhausted_facts recorded.now lines.now tick) }
    {
        if lines.is_empty() {
            self.tell_none(recorded, tick)
        } else {
            self.tell_failed(recorded, lines, tick)
        }
    }

    // The race was given up at its limit, this tick.
    fn tell_given_up<B: Allocator>(
        &mut self,
        recorded: &Record<'_, B>,
        lines: &[Line],
        tick: u64,
    ) -> Result<(), Memory>
        ensures { OnOk result (told self.new ≡ told self.old
            ++ given_up_facts recorded.now lines.now tick) }
    {
        if lines.is_empty() {
            self.tell_none(recorded, tick)
        } else {
            self.tell_limit(recorded, lines, tick)
        }
    }

    fn tell_won(&mut self, winner: Option<Line>, tick: u64) -> Result<(), Memory>
        ensures { OnOk result (told self.new ≡ told self.old ++ won_facts winner tick) }
    {
        let Some(line) = winner else {
            return Ok(());
        };
        let version = Part::Words(version_of(line.ip.family()));
        let parts = [version, Part::Ip(line.ip), Part::Number(tick)];
        self.tell(Said::Connected, &parts)
    }

    // No attempt was made up to this tick.
    fn tell_none<B: Allocator>(&mut self, recorded: &Record<'_, B>, tick: u64) -> Result<(), Memory>
        ensures { OnOk result (told self.new ≡ told self.old ++ none_facts recorded.now tick) }
    {
        let reason = reason_of_both(recorded.lookup(Family::V6), recorded.lookup(Family::V4));
        self.tell_unfound(recorded, reason, tick)
    }

    fn tell_unfound<B: Allocator>(
        &mut self,
        recorded: &Record<'_, B>,
        reason: Option<LookupReason>,
        tick: u64,
    ) -> Result<(), Memory>
        ensures { OnOk result (told self.new ≡ told self.old ++ unfound_facts recorded.now reason tick) }
    {
        match reason {
            None => self.tell(Said::NoneToTry, &[Part::Number(tick)]),
            Some(reason) => {
                self.tell(Said::NotLookedUp(reason), &[Part::Number(tick)])?;
                self.tell_servers(recorded.lines())
            }
        }
    }

    // The name servers that were given up.
    pub(crate) fn tell_servers(&mut self, lines: &[RecordLine<'_>]) -> Result<(), Memory>
        ensures { OnOk result (told self.new ≡ told self.old ++ flat_map server_facts (map said_of lines.now)) }
    {
        for line in lines {
            self.tell_server(*line)?;
        }
        Ok(())
    }

    fn tell_server(&mut self, line: RecordLine<'_>) -> Result<(), Memory>
        ensures { OnOk result (told self.new ≡ told self.old ++ server_facts (said_of line.entry)) }
    {
        match line {
            RecordLine::Server(ip, reason, _) => self.tell(Said::ByServer(reason), &[Part::Ip(ip)]),
            _ => Ok(()),
        }
    }

    // Each attempt failed, by this tick.
    fn tell_failed<B: Allocator>(
        &mut self,
        recorded: &Record<'_, B>,
        lines: &[Line],
        tick: u64,
    ) -> Result<(), Memory>
        ensures { OnOk result (told self.new ≡ told self.old ++ failed_facts recorded.now lines.now tick) }
    {
        let (before, addresses) = all_of(lines.len());
        let parts = [
            Part::Words(before),
            Part::Number(lines.len() as u64),
            Part::Words(addresses),
            Part::Number(tick),
        ];
        self.tell(Said::EachFailed(common_reason(recorded, lines)), &parts)
    }

    // The race met its limit at this tick.
    fn tell_limit<B: Allocator>(
        &mut self,
        recorded: &Record<'_, B>,
        lines: &[Line],
        tick: u64,
    ) -> Result<(), Memory>
        ensures { OnOk result (told self.new ≡ told self.old ++ limit_facts recorded.now lines.now tick) }
    {
        if have_untried(recorded, lines) {
            let attempts = Part::Number(lines.len() as u64);
            let noun = Part::Words(noun(lines.len(), b"attempt", b"attempts"));
            return self.tell(Said::LimitReached, &[Part::Number(tick), attempts, noun]);
        }
        self.tell_unanswered(lines, tick)
    }

    fn tell_unanswered(&mut self, lines: &[Line], tick: u64) -> Result<(), Memory>
        ensures { OnOk result (told self.new ≡ told self.old ++ unanswered_facts lines.now tick) }
    {
        let (tick, attempts) = (Part::Number(tick), Part::Number(lines.len() as u64));
        let failed = failed_count(lines);
        if failed == 0 {
            let (before, after) = none_of(lines.len());
            let parts = [tick, Part::Words(before), attempts, Part::Words(after)];
            return self.tell(Said::NoneAnswered, &parts);
        }
        self.tell(Said::SomeFailed, &[tick, Part::Number(failed), attempts])
    }
}
