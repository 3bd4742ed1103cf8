//! The effect of other settings on a race.
ghost use Rattle.std.specs.Prelude.{◌≡◌, count_by, IfOk};
ghost use Rattle.he_compare.specs.Verdicts.{counts_of, finish_of, is_like, own_after, verdict_of, verdicts_on};
ghost use Rattle.he_compare.specs.declared.verdict.Finish.TheVariants.{NotWon};

use he_addr::Memory;
use he_totals::Kept;
use he_totals::totals::{Value, value_of};
use std::alloc::Allocator;

/// The effect of other settings on a race.
#[derive(Clone, Copy, Debug, PartialEq, Eq)]
pub enum Verdict {
    /// The race is won both ways: with them sooner, later, or at an equal tick.
    Sooner,
    Later,
    Same,
    /// The race is won only with them, only without them, or in neither way.
    OnlyWith,
    OnlyWithout,
    Neither,
    /// Not known: one of both ways has an attempt at an address that no client tried.
    Unknown,
}

/// The result of a race with some settings.
#[derive(Clone, Copy, Debug, PartialEq, Eq)]
pub enum Finish {
    /// It is won at this tick.
    Won(u64),
    NotWon,
    /// Not known: an attempt was at an address that no client tried.
    Unknown,
}

/// The number of races of each verdict.
#[derive(Clone, Copy, Debug, PartialEq, Eq)]
pub struct Verdicts {
    pub sooner: u64,
    pub later: u64,
    pub same: u64,
    pub only_with: u64,
    pub only_without: u64,
    pub neither: u64,
    pub unknown: u64,
}

impl Verdict {
    /// The verdict, by the race's results with its own settings, and with the other ones.
    pub fn of(own: Finish, with: Finish) -> Verdict
        ensures { result ≡ verdict_of own with }
    {
        match (own, with) {
            (Finish::Won(own), Finish::Won(other)) if other < own => Verdict::Sooner,
            (Finish::Won(own), Finish::Won(other)) if own < other => Verdict::Later,
            (Finish::Won(_), Finish::Won(_)) => Verdict::Same,
            (Finish::Won(_), Finish::NotWon) => Verdict::OnlyWithout,
            (Finish::NotWon, Finish::Won(_)) => Verdict::OnlyWith,
            (Finish::NotWon, Finish::NotWon) => Verdict::Neither,
            _ => Verdict::Unknown,
        }
    }
}

impl Finish {
    /// The result of the race.
    pub fn of(race: &Kept) -> Finish
        ensures { result ≡ finish_of race.now }
    {
        if race.has_untried {
            return Finish::Unknown;
        }
        match value_of(Value::Time, race) {
            Some(tick) => Finish::Won(tick),
            None => Finish::NotWon,
        }
    }
}

// The verdicts on the races with the settings of a row, each against the race with its own settings, which is in the
// first row.
pub(crate) fn verdicts_on<A: Allocator>(
    alloc: A,
    row: usize,
    kept: &[Kept],
) -> Result<Vec<Verdict, A>, Memory>
    ensures { IfOk result (λ verdicts. verdicts.items ≡ verdicts_on row NotWon kept.now) }
{
    let mut verdicts = Vec::new(alloc);
    let mut own = Finish::NotWon;
    for race in kept {
        own = own_after(own, race);
        if race.row == row {
            verdicts.push(Verdict::of(own, Finish::of(race)))?;
        }
    }
    Ok(verdicts)
}

// The result of the last race with its own settings.
pub(crate) fn own_after(own: Finish, race: &Kept) -> Finish
    ensures { result ≡ own_after own race.now }
{
    if race.row == 0 { Finish::of(race) } else { own }
}

pub(crate) fn counts_of(verdicts: &[Verdict]) -> Verdicts
    ensures { result ≡ counts_of verdicts.now }
{
    Verdicts {
        sooner: count(verdicts, Verdict::Sooner),
        later: count(verdicts, Verdict::Later),
        same: count(verdicts, Verdict::Same),
        only_with: count(verdicts, Verdict::OnlyWith),
        only_without: count(verdicts, Verdict::OnlyWithout),
        neither: count(verdicts, Verdict::Neither),
        unknown: count(verdicts, Verdict::Unknown),
    }
}

fn count(verdicts: &[Verdict], verdict: Verdict) -> u64
    ensures { result ≡ count_by (is_like verdict) verdicts.now }
{
    verdicts
        .iter()
        .filter(|other| is_like(verdict, **other))
        .count() as u64
}

fn is_like(verdict: Verdict, other: Verdict) -> bool
    ensures { result ≡ is_like verdict other }
{
    verdict == other
}
