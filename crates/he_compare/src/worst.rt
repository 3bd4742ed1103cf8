//! The worst of the groups of races.
ghost use Rattle.std.specs.Prelude.{◌≡◌, ◌++◌, OnOk};
ghost use Rattle.std.specs.List.{flat_map};
ghost use Rattle.he_print.specs.Parts.{fact_of};
ghost use Rattle.he_summary.specs.Written.{Tells};
ghost use Rattle.he_compare.specs.Groups.{division_of, label_of};
ghost use Rattle.he_compare.specs.Worst.{IsWorst, IsWorstLine, cost_facts, is_bad, is_worse, not_won, told_of, worse, worst_of};

use crate::grouping::{Grouping, label_of};
use crate::groups::{Group, groups_of};
use crate::row::Said;
use he_addr::Memory;
use he_print::{Part, push_parts, write_parts};
use he_totals::{Kept, Totals};
use std::alloc::Allocator;

/// Appends a line on the worst of the groups of these races, after these words, if there is more than one: the one
/// with the most races that did not connect, of equal ones the one that lost the most time, of those the first.
/// Nothing if all races connected and lost no time.
///
/// # Errors
///
/// `Memory` if an allocation was refused. A first part of the line may then have been appended.
pub fn write_worst<A: Allocator + Copy>(
    alloc: A,
    words: &[u8],
    grouping: Grouping<'_>,
    kept: &[Kept],
    text: &mut Vec<u8, A>,
) -> Result<(), Memory>
    ensures { OnOk result (IsWorst words.now (division_of grouping.entry) kept.now text.old.items text.new.items) }
{
    let groups = groups_of(alloc, grouping, kept)?;
    write_told(alloc, words, grouping, told_of(groups.as_slice()), text)
}

fn write_told<A: Allocator + Copy>(
    alloc: A,
    words: &[u8],
    grouping: Grouping<'_>,
    told: Option<Group>,
    text: &mut Vec<u8, A>,
) -> Result<(), Memory>
    ensures { OnOk result (IsWorstLine words.now (division_of grouping.entry) told text.old.items text.new.items) }
{
    let Some(group) = told else {
        return Ok(());
    };
    let label = label_of(alloc, grouping, group.key)?;
    text.extend_from_slice(words)?;
    text.extend_from_slice(label.as_slice())?;
    write_cost(alloc, group.totals, text)
}

// ` (N of M not connected, lost L ms)`
fn write_cost<A: Allocator + Copy>(
    alloc: A,
    totals: Totals,
    text: &mut Vec<u8, A>,
) -> Result<(), Memory>
    ensures { OnOk result (Tells (cost_facts totals) text.old.items text.new.items) }
{
    let mut parts = Vec::new(alloc);
    push_cost(totals, &mut parts)?;
    write_parts(parts.as_slice(), text)
}

fn push_cost<A: Allocator>(totals: Totals, parts: &mut Vec<Part<Said>, A>) -> Result<(), Memory>
    ensures { OnOk result (flat_map fact_of parts.new.items ≡ flat_map fact_of parts.old.items ++ cost_facts totals) }
{
    push_parts(
        &[
            Part::Words(b" ("),
            Part::Number(not_won(totals)),
            Part::Words(b" of "),
            Part::Number(totals.counts.races),
            Part::Words(b" not connected, lost "),
            Part::Number(totals.sums.lost),
            Part::Words(b" ms)\n"),
        ],
        parts,
    )
}

// The group that is reported: the worst of several.
fn told_of(groups: &[Group]) -> Option<Group>
    ensures { result ≡ told_of groups.now }
{
    if groups.len() > 1 {
        worst_of(groups)
    } else {
        None
    }
}

fn worst_of(groups: &[Group]) -> Option<Group>
    ensures { result ≡ worst_of groups.now }
{
    let mut worst = None;
    for group in groups {
        worst = worse(worst, *group);
    }
    worst
}

// The worst so far, after one group more.
fn worse(worst: Option<Group>, group: Group) -> Option<Group>
    ensures { result ≡ worse worst group }
{
    match worst {
        None if is_bad(group.totals) => Some(group),
        None => None,
        Some(worst) if is_worse(group.totals, worst.totals) => Some(group),
        Some(worst) => Some(worst),
    }
}

fn is_bad(totals: Totals) -> bool
    ensures { result ≡ is_bad totals }
{
    not_won(totals) > 0 || totals.sums.lost > 0
}

fn is_worse(totals: Totals, other: Totals) -> bool
    ensures { result ≡ is_worse totals other }
{
    let (own, others) = (not_won(totals), not_won(other));
    own > others || own == others && totals.sums.lost > other.sums.lost
}

// The races that did not connect.
fn not_won(totals: Totals) -> u64
    ensures { result ≡ not_won totals }
{
    totals.counts.races.saturating_sub(totals.counts.won)
}
