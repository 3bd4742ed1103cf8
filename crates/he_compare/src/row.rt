//! A row of the table of a comparison.
ghost use Rattle.std.specs.Prelude.{◌≡◌, ◌==◌, ◌++◌, ◌∷◌, ◌<◌, filter, IfOk, OnOk};
ghost use Rattle.std.specs.List.{flat_map};
ghost use Rattle.he_print.specs.Parts.{fact_of};
ghost use Rattle.he_print.specs.declared.part.Fact.TheVariants as facts;
ghost use Rattle.he_summary.specs.Figures.{total_of};
ghost use Rattle.he_compare.specs.Rows.{IsRow, mean, mean_facts, object_facts, row_facts, share_cell, times_facts, verdict_facts};

use crate::verdict::{Verdicts, counts_of, verdicts_on};
use he_addr::Memory;
use he_print::{Part, push_parts};
use he_summary::figures::{share, total_of};
use he_totals::{Kept, Spread, Totals};
use std::alloc::Allocator;

/// The counts of the races with the settings of a row.
#[derive(Clone, Copy, Debug, PartialEq, Eq)]
pub struct Row {
    pub totals: Totals,
    pub verdicts: Verdicts,
}

/// The meaning of a word of a row.
#[derive(Clone, Copy, Debug, PartialEq, Eq)]
pub enum Said {
    /// No race was won.
    NoTime,
}

impl Row {
    /// The row of this place, counted over the races that are kept with the settings of each row.
    ///
    /// # Errors
    ///
    /// `Memory` if an allocation was refused.
    pub fn of<A: Allocator + Copy>(alloc: A, row: usize, kept: &[Kept]) -> Result<Row, Memory>
        ensures { IfOk result (IsRow row kept.now) }
    {
        let own = own_of(alloc, row, kept)?;
        let verdicts = verdicts_on(alloc, row, kept)?;
        Ok(Row {
            totals: Totals::of(alloc, own.as_slice())?,
            verdicts: counts_of(verdicts.as_slice()),
        })
    }
}

fn own_of<A: Allocator>(alloc: A, row: usize, kept: &[Kept]) -> Result<Vec<Kept, A>, Memory>
    ensures { IfOk result (λ own. own.items ≡ filter (λ race. race.row == row) kept.now) }
{
    kept.iter()
        .copied()
        .filter(|race| race.row == row)
        .collect(alloc)
}

// The cells of a row: the times to connect, the attempts per race, the share of the won races that IPv6 won, and the
// verdicts.
pub(crate) fn push_row<A: Allocator>(row: Row, text: &mut Vec<Part<Said>, A>) -> Result<(), Memory>
    ensures { OnOk result (flat_map fact_of text.new.items ≡ flat_map fact_of text.old.items ++ row_facts row) }
{
    let counts = row.totals.counts;
    push_times(row.totals.times, text)?;
    push_mean(row.totals.attempts, text)?;
    push_share(counts.by_v6, counts.won, text)?;
    push_verdicts(row.verdicts, text)
}

pub(crate) fn push_times<A: Allocator>(
    times: Option<Spread>,
    text: &mut Vec<Part<Said>, A>,
) -> Result<(), Memory>
    ensures { OnOk result (flat_map fact_of text.new.items ≡ flat_map fact_of text.old.items ++ times_facts times) }
{
    match times {
        Some(times) => push_parts(
            &[
                Part::Aligned(8, times.median),
                Part::Aligned(8, times.p90),
                Part::Aligned(8, times.p99),
            ],
            text,
        ),
        None => push_parts(
            &[Part::Says(Said::NoTime, b"       -       -       -")],
            text,
        ),
    }
}

// The mean number of attempts of a race, to a hundredth.
pub(crate) fn push_mean<A: Allocator>(
    attempts: Option<Spread>,
    text: &mut Vec<Part<Said>, A>,
) -> Result<(), Memory>
    ensures { OnOk result (flat_map fact_of text.new.items ≡ flat_map fact_of text.old.items ++ mean_facts attempts) }
{
    let hundredths = match attempts {
        Some(attempts) if attempts.count > 0 => mean(attempts.total, attempts.count),
        _ => 0,
    };
    push_parts(
        &[
            Part::Aligned(7, hundredths / 100),
            Part::Words(b"."),
            Part::Number(hundredths / 10 % 10),
            Part::Number(hundredths % 10),
        ],
        text,
    )
}

// The mean in hundredths, rounded to the nearest.
fn mean(total: u64, count: u64) -> u64
    requires { 0 < count }
    ensures { result ≡ mean total count }
{
    let rounded = (200 * total as u128 + count as u128) / (2 * count as u128);
    rounded.min(u64::MAX as u128) as u64
}

pub(crate) fn push_share<A: Allocator>(
    number: u64,
    of: u64,
    text: &mut Vec<Part<Said>, A>,
) -> Result<(), Memory>
    ensures { OnOk result (flat_map fact_of text.new.items ≡ flat_map fact_of text.old.items ++ share_cell number of) }
{
    if of == 0 {
        return push_parts(&[Part::Says(Said::NoTime, b"          -")], text);
    }
    let tenths = share(number, of);
    push_parts(
        &[
            Part::Aligned(7, tenths / 10),
            Part::Words(b"."),
            Part::Number(tenths % 10),
            Part::Words(b" %"),
        ],
        text,
    )
}

fn push_verdicts<A: Allocator>(
    verdicts: Verdicts,
    text: &mut Vec<Part<Said>, A>,
) -> Result<(), Memory>
    ensures { OnOk result (flat_map fact_of text.new.items ≡ flat_map fact_of text.old.items
        ++ verdict_facts verdicts) }
{
    push_parts(
        &[
            Part::Aligned(8, verdicts.sooner),
            Part::Aligned(8, verdicts.later),
            Part::Aligned(8, verdicts.same),
            Part::Aligned(11, verdicts.only_with),
            Part::Aligned(14, verdicts.only_without),
            Part::Aligned(9, verdicts.unknown),
        ],
        text,
    )
}

// The members of a row, except its settings.
pub(crate) fn push_object<A: Allocator>(
    row: Row,
    text: &mut Vec<Part<Said>, A>,
) -> Result<(), Memory>
    ensures { OnOk result (flat_map fact_of text.new.items ≡ flat_map fact_of text.old.items ++ object_facts row) }
{
    let counts = row.totals.counts;
    push_parts(
        &[
            Part::Words(b"{\"races\":"),
            Part::Number(counts.races),
            Part::Words(b",\"connected\":"),
            Part::Number(counts.won),
            Part::Words(b",\"ipv6\":"),
            Part::Number(counts.by_v6),
            Part::Words(b",\"connect_ms\":"),
        ],
        text,
    )?;
    push_time_members(row.totals.times, text)?;
    push_attempt_members(row.totals.attempts, row.verdicts, text)
}

// All attempts, and the verdicts.
fn push_attempt_members<A: Allocator>(
    attempts: Option<Spread>,
    verdicts: Verdicts,
    text: &mut Vec<Part<Said>, A>,
) -> Result<(), Memory>
    ensures { OnOk result (flat_map fact_of text.new.items ≡ flat_map fact_of text.old.items
        ++ facts.Number (total_of attempts) ∷ verdict_facts verdicts) }
{
    push_parts(
        &[
            Part::Words(b",\"attempts\":"),
            Part::Number(total_of(attempts)),
            Part::Words(b",\"sooner\":"),
            Part::Number(verdicts.sooner),
            Part::Words(b",\"later\":"),
            Part::Number(verdicts.later),
            Part::Words(b",\"same\":"),
            Part::Number(verdicts.same),
            Part::Words(b",\"only_with\":"),
            Part::Number(verdicts.only_with),
            Part::Words(b",\"only_without\":"),
            Part::Number(verdicts.only_without),
            Part::Words(b",\"unknown\":"),
            Part::Number(verdicts.unknown),
        ],
        text,
    )
}

fn push_time_members<A: Allocator>(
    times: Option<Spread>,
    text: &mut Vec<Part<Said>, A>,
) -> Result<(), Memory>
    ensures { OnOk result (flat_map fact_of text.new.items ≡ flat_map fact_of text.old.items ++ times_facts times) }
{
    match times {
        Some(times) => push_parts(
            &[
                Part::Words(b"{\"median\":"),
                Part::Number(times.median),
                Part::Words(b",\"p90\":"),
                Part::Number(times.p90),
                Part::Words(b",\"p99\":"),
                Part::Number(times.p99),
                Part::Words(b"}"),
            ],
            text,
        ),
        None => push_parts(&[Part::Says(Said::NoTime, b"null")], text),
    }
}
