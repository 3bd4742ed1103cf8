//! The table of groups of races.
ghost use Rattle.std.specs.Prelude.{ℕ, ◌≡◌, ◌++◌, List, OnOk};
ghost use Rattle.std.specs.List.{flat_map};
ghost use Rattle.he_print.specs.Parts.{fact_of};
ghost use Rattle.he_compare.specs.Groups.{IsGroupTable, IsGroupText, cell_facts, division_of, label_of, share_facts};
ghost use Rattle.he_summary.specs.declared.figures.Form.TheVariants as forms;

use crate::grouping::{By, Grouping, label_of};
use crate::groups::{Group, groups_of};
use crate::row::{Said, push_mean, push_share, push_times};
use he_addr::Memory;
use he_print::{Part, push_parts, write_parts, write_string};
use he_summary::{Form, write_totals};
use he_totals::{Kept, Totals};
use std::alloc::Allocator;

/// Appends a table of the groups of these races: a row for each group that has a race, in order. As JSON each row is
/// an object on a line.
///
/// # Errors
///
/// `Memory` if an allocation was refused. A first part of the table may then have been appended.
pub fn write_groups<A: Allocator + Copy>(
    alloc: A,
    form: Form,
    grouping: Grouping<'_>,
    kept: &[Kept],
    text: &mut Vec<u8, A>,
) -> Result<(), Memory>
    ensures { OnOk result (IsGroupTable form (division_of grouping.entry) kept.now text.old.items text.new.items) }
{
    let groups = groups_of(alloc, grouping, kept)?;
    text.extend_from_slice(heading(form, grouping.by))?;
    for group in &groups {
        write_group(alloc, form, grouping, *group, text)?;
    }
    Ok(())
}

fn heading(form: Form, by: By) -> &'static [u8] {
    match (form, by) {
        (Form::Json | Form::Metrics, _) => b"",
        (Form::Text, By::File) =>
            b"  races  connected  p50 ms  p90 ms  p99 ms  attempts       IPv6  names ms   lost ms  file\n",
        (Form::Text, By::Hour) =>
            b"  races  connected  p50 ms  p90 ms  p99 ms  attempts       IPv6  names ms   lost ms  hour\n",
        (Form::Text, By::Family) =>
            b"  races  connected  p50 ms  p90 ms  p99 ms  attempts       IPv6  names ms   lost ms  family\n",
        (Form::Text, By::Host) =>
            b"  races  connected  p50 ms  p90 ms  p99 ms  attempts       IPv6  names ms   lost ms  host\n",
    }
}

fn write_group<A: Allocator + Copy>(
    alloc: A,
    form: Form,
    grouping: Grouping<'_>,
    group: Group,
    text: &mut Vec<u8, A>,
) -> Result<(), Memory>
    ensures { OnOk result ((told : List ℕ) × IsGroupText form group.totals (label_of (division_of grouping.entry) group.key) told
        × (text.new.items ≡ text.old.items ++ told)) }
{
    let label = label_of(alloc, grouping, group.key)?;
    match form {
        Form::Text => write_line(alloc, group.totals, label.as_slice(), text),
        Form::Json | Form::Metrics => write_object(group.totals, label.as_slice(), text),
    }
}

fn write_line<A: Allocator + Copy>(
    alloc: A,
    totals: Totals,
    label: &[u8],
    text: &mut Vec<u8, A>,
) -> Result<(), Memory>
    ensures { OnOk result ((told : List ℕ) × IsGroupText forms.Text totals label.now told
        × (text.new.items ≡ text.old.items ++ told)) }
{
    let mut cells = Vec::new(alloc);
    push_cells(totals, &mut cells)?;
    write_parts(cells.as_slice(), text)?;
    text.extend_from_slice(b"  ")?;
    text.extend_from_slice(label)?;
    text.extend_from_slice(b"\n")?;
    Ok(())
}

fn write_object<A: Allocator + Copy>(
    totals: Totals,
    label: &[u8],
    text: &mut Vec<u8, A>,
) -> Result<(), Memory>
    ensures { OnOk result ((told : List ℕ) × IsGroupText forms.Json totals label.now told
        × (text.new.items ≡ text.old.items ++ told)) }
{
    write_totals(totals, text)?;
    text.extend_from_slice(b",\"group\":")?;
    write_string(label, text)?;
    text.extend_from_slice(b"}\n")?;
    Ok(())
}

// The cells of a group's row.
fn push_cells<A: Allocator>(totals: Totals, cells: &mut Vec<Part<Said>, A>) -> Result<(), Memory>
    ensures { OnOk result (flat_map fact_of cells.new.items ≡ flat_map fact_of cells.old.items ++ cell_facts totals) }
{
    let counts = totals.counts;
    push_parts(&[Part::Aligned(7, counts.races)], cells)?;
    push_share(counts.won, counts.races, cells)?;
    push_times(totals.times, cells)?;
    push_mean(totals.attempts, cells)?;
    push_shares(totals, cells)
}

// The share of the won races that IPv6 won, and the time of all races that waited for the names, and that was lost.
fn push_shares<A: Allocator>(totals: Totals, cells: &mut Vec<Part<Said>, A>) -> Result<(), Memory>
    ensures { OnOk result (flat_map fact_of cells.new.items ≡ flat_map fact_of cells.old.items ++ share_facts totals) }
{
    push_share(totals.counts.by_v6, totals.counts.won, cells)?;
    push_parts(
        &[
            Part::Aligned(10, totals.sums.names),
            Part::Aligned(10, totals.sums.lost),
        ],
        cells,
    )
}
