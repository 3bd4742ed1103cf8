//! The record of a race.
ghost use Rattle.std.specs.Prelude.{◌≡◌};
ghost use Rattle.he_course.specs.Accounts.{end_of};
ghost use Rattle.he_course.specs.Amounts.{times_of};
ghost use Rattle.he_totals.specs.Kept.{ending_of, has_untried, has_waited, kept_of, loss_of};

use he_addr::{Family, Ip};
use he_course::{Account, Ended, Times, end_tick, is_delay_over};
use he_plan::{Line, Mark, Outcome3, Transcript};
use he_record::{ClientEnd, LookupReason, Record};
use he_timeline::Timeline;
use std::alloc::Allocator;

/// The place of a race in the inputs.
#[derive(Clone, Copy, Debug, PartialEq, Eq)]
pub struct Place {
    /// The place of its input, counted from 0.
    pub file: usize,
    /// Its number in that input, counted from 1.
    pub number: usize,
    /// The line of that input at which it begins.
    pub line: u64,
}

/// How a race ended, with the tick, in milliseconds.
#[derive(Clone, Copy, Debug, PartialEq, Eq)]
pub enum Ending {
    /// It was won by the attempt at this address.
    Won(Option<Ip>, u64),
    Exhausted(u64),
    Limit(u64),
}

/// How an attempt ended that did not connect.
#[derive(Clone, Copy, Debug, PartialEq, Eq)]
pub enum Loss {
    Failed,
    /// At the end of the race it had been under way for the Connection Attempt Delay or longer.
    NoAnswer,
}

/// The record of a race that ran with the settings of one row.
#[derive(Clone, Copy, Debug, PartialEq, Eq)]
pub struct Kept {
    /// The row, counted from 0.
    pub row: usize,
    pub place: Place,
    pub ending: Ending,
    pub attempts: usize,
    /// Its milliseconds, by what they went into.
    pub times: Times,
    /// Whether the Resolution Delay ended before the first attempt, without an AAAA answer.
    pub has_waited: bool,
    /// Whether an attempt was at an address that no client tried, so that its outcome is not known.
    pub has_untried: bool,
    /// The recorded client's own result.
    pub client: Option<ClientEnd>,
    /// The reasons that the AAAA and the A look-up have no address.
    pub aaaa: Option<LookupReason>,
    pub a: Option<LookupReason>,
}

impl Kept {
    // The record of the race of this row and place, with these record lines, this transcript and this account.
    pub(crate) fn of<A: Allocator, B: Allocator, C: Allocator, D: Allocator>(
        at: (usize, Place),
        told: &Record<'_, C>,
        race: &Timeline<A>,
        transcript: &Transcript<B>,
        account: &Account<D>,
    ) -> Kept
        ensures { result ≡ kept_of (record {
          row = at.0;
          place = at.1;
          said = told.now;
          race = race.now;
          report = transcript.now;
          charges = account.now.tried.items;
          times = times_of (end_of transcript.now) account.now;
        }) }
    {
        let (row, place) = at;
        let ended = Ended::of(transcript);
        Kept {
            row,
            place,
            ending: Ending::of(ended),
            attempts: ended.attempts,
            times: account.times(end_tick(transcript.result())),
            has_waited: has_waited(race, transcript),
            has_untried: has_untried(told, transcript.attempts()),
            client: told.end(),
            aaaa: told.lookup(Family::V6),
            a: told.lookup(Family::V4),
        }
    }
}

impl Ending {
    fn of(ended: Ended) -> Ending
        ensures { result ≡ ending_of ended }
    {
        match ended.result {
            Outcome3::Won(_, tick) => Ending::Won(ended.winner.map(|line| line.ip), tick),
            Outcome3::Exhausted(tick) => Ending::Exhausted(tick),
            Outcome3::Limit(tick) => Ending::Limit(tick),
        }
    }
}

// Whether an attempt failed or gave no answer: at the end of the race it had been under way for the Connection Attempt
// Delay or longer. An attempt to an untried address did neither.
pub(crate) fn loss_of<A: Allocator, C: Allocator>(
    told: &Record<'_, C>,
    race: &Timeline<A>,
    line: &Line,
) -> Option<Loss>
    ensures { result ≡ loss_of told.now race.now line.now }
{
    if told.is_untried(line.ip) {
        return None;
    }
    match line.mark {
        Mark::Won(_) => None,
        Mark::Failed(_) => Some(Loss::Failed),
        Mark::Cancelled(end) => {
            if line.tick as u128 + race.settings().attempt() as u128 <= end as u128 {
                Some(Loss::NoAnswer)
            } else {
                None
            }
        }
    }
}

// Whether the Resolution Delay ended without an AAAA answer, and an attempt was made.
fn has_waited<A: Allocator, B: Allocator>(race: &Timeline<A>, transcript: &Transcript<B>) -> bool
    ensures { result ≡ has_waited race.now transcript.now }
{
    is_delay_over(race, transcript) && !transcript.attempts().is_empty()
}

// Whether one of the attempts was at an address that no client tried.
fn has_untried<C: Allocator>(told: &Record<'_, C>, lines: &[Line]) -> bool
    ensures { result ≡ has_untried told.now lines.now }
{
    lines.iter().any(|line| told.is_untried(line.ip))
}
