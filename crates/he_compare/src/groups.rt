//! The groups of races.
ghost use Rattle.std.specs.Prelude.{◌<◌, ◌≤◌, length, IfOk, IsPermutation, OnOk};
ghost use Rattle.std.specs.List.Sorted.{IsNonDecreasingBy, IsPartitionPoint, IsStableByKey};
ghost use Rattle.std.specs.Ordering.{nat_cmp};
ghost use Rattle.he_compare.specs.Groups.{AreGroups, division_of, key_of};

use crate::grouping::{Grouping, key_of};
use he_addr::Memory;
use he_totals::{Kept, Totals};
use std::alloc::Allocator;

/// A group of races: its number, and the totals of its races.
#[derive(Clone, Copy, Debug, PartialEq, Eq)]
pub struct Group {
    pub key: u64,
    pub totals: Totals,
}

// The groups of these races, in order.
pub(crate) fn groups_of<A: Allocator + Copy>(
    alloc: A,
    grouping: Grouping<'_>,
    kept: &[Kept],
) -> Result<Vec<Group, A>, Memory>
    ensures { IfOk result (λ groups. AreGroups (division_of grouping.entry) kept.now groups.items) }
{
    let mut sorted = Vec::from_slice(alloc, kept)?;
    sort_by_key(grouping, &mut sorted)?;
    cut(alloc, grouping, sorted.as_slice())
}

fn sort_by_key<A: Allocator>(grouping: Grouping<'_>, kept: &mut Vec<Kept, A>) -> Result<(), Memory>
    ensures permutation { IsPermutation kept.old.items kept.new.items }
    ensures stable { IsStableByKey (key_of (division_of grouping.entry)) nat_cmp kept.old.items kept.new.items }
    ensures sorted { OnOk result (IsNonDecreasingBy (key_of (division_of grouping.entry)) kept.new.items) }
{
    kept.sort_by_key(|race| key_of(grouping, race))?;
    Ok(())
}

// Cuts races that are in the order of their groups into these groups.
fn cut<A: Allocator + Copy>(
    alloc: A,
    grouping: Grouping<'_>,
    sorted: &[Kept],
) -> Result<Vec<Group, A>, Memory>
    requires { IsNonDecreasingBy (key_of (division_of grouping)) sorted.now }
    ensures { IfOk result (λ groups. AreGroups (division_of grouping.entry) sorted.now groups.items) }
{
    let mut groups = Vec::new(alloc);
    let mut rest = sorted;
    while let Some(first) = rest.first() {
        let key = key_of(grouping, first);
        let (own, later) = rest.split_at(end_of(grouping, key, rest));
        groups.push(Group {
            key,
            totals: Totals::of(alloc, own)?,
        })?;
        rest = later;
    }
    Ok(groups)
}

// The end of the races of this group, where those of later groups begin.
fn end_of(grouping: Grouping<'_>, key: u64, sorted: &[Kept]) -> usize
    requires { IsNonDecreasingBy (key_of (division_of grouping)) sorted.now }
    ensures most { result ≤ length sorted.now }
    ensures point { IsPartitionPoint (λ race. key_of (division_of grouping.entry) race ≤ key)
        (λ race. key < key_of (division_of grouping.entry) race) sorted.now result }
{
    sorted.partition_point(|race| key_of(grouping, race) <= key)
}
