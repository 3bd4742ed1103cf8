// The lists from which attempts take their addresses: the addresses of the included answers, in order and interlaced.

ghost use Rattle.std.specs.Prelude.{◌≡◌, ◌≤◌, ◌++◌, true, filter, length, map, IfOk, OnErr, OnOk};
ghost use Rattle.std.specs.List.Sorted.{IsPermutation};
ghost use Rattle.he_addr.specs.Ip.{is_usable};
ghost use Rattle.he_timeline.specs.declared.limits.TheConstants.{MAX_ADDRESSES};
ghost use Rattle.he_plan.specs.Alternating.{interlace};
ghost use Rattle.he_plan.specs.Attempts.{order};
ghost use Rattle.he_timeline.specs.Building.{empty_history};
ghost use Rattle.he_plan.specs.Planning.{interlaced_list, is_of_included, part_of, parts_of};
ghost use Rattle.he_timeline.specs.Race.{known_of, race_input, reply_of, usable_addresses};
ghost use Rattle.he_timeline.specs.Timeline.{IsRace};
ghost use Rattle.he_plan.specs.RaceState.{AreSorted};
ghost use Rattle.he_select.specs.Attributes.{attributes_of};

use crate::interlacing::{interlace, members};
use he_addr::{Family, Ip, Memory};
use he_select::{DestinationAttributes, Known, order, order_known, order_known_with_attributes};
use he_timeline::Timeline;
use he_timeline::timeline::are_addresses_in_range;
use std::alloc::Allocator;

// The interlaced list of the included answers. The first list that needs it sorts the addresses of both answers into
// `sorted`, which is empty before: the order of some of them is the order of all without the others.
pub(crate) fn interlaced_list<A: Allocator + Copy, B: Allocator>(
    alloc: A,
    timeline: &Timeline<B>,
    sorted: &mut Vec<Ip, A>,
    v6: bool,
    v4: bool,
) -> Result<Vec<Ip, A>, Memory>
    requires { AreSorted timeline.now sorted.old.items }
    ensures value { IfOk result (λ v. v.items ≡ interlaced_list timeline.now v6 v4) }
    ensures members { IfOk result (λ _. IsPermutation (parts_of timeline.now v6 v4) (order timeline.now
        (parts_of timeline.now v6 v4))) }
    ensures sorted { AreSorted timeline.now sorted.new.items }
{
    are_addresses_in_range(timeline);
    // A single address is in order already.
    if included_count(timeline, v6, v4) <= 1 {
        return Ok(included_addresses(alloc, timeline, v6, v4)?);
    }
    sort_once(alloc, timeline, sorted)?;
    interlaced_part(alloc, sorted, v6, v4, timeline.settings().count())
}

// The number of addresses of the included answers, usable or not.
fn included_count<A: Allocator>(timeline: &Timeline<A>, v6: bool, v4: bool) -> usize
    ensures all { length (parts_of timeline.now v6 v4) ≤ result }
    ensures race { IsRace timeline.now }
{
    part_count(timeline, Family::V6, v6) + part_count(timeline, Family::V4, v4)
}

fn part_count<A: Allocator>(timeline: &Timeline<A>, family: Family, included: bool) -> usize
    ensures all { length (part_of included (reply_of timeline.now family)) ≤ result }
    ensures few { result ≤ MAX_ADDRESSES }
    ensures race { IsRace timeline.now }
{
    let addresses = timeline.answered(family);
    if included { addresses.len() } else { 0 }
}

fn sort_once<A: Allocator + Copy, B: Allocator>(
    alloc: A,
    timeline: &Timeline<B>,
    sorted: &mut Vec<Ip, A>,
) -> Result<(), Memory>
    requires { AreSorted timeline.now sorted.old.items }
    ensures ok { OnOk result (sorted.new.items ≡ order timeline.now (usable_addresses timeline.now)) }
    ensures err { OnErr result (sorted.new.items ≡ sorted.old.items) }
{
    if sorted.is_empty() {
        *sorted = sorted_addresses(alloc, timeline)?;
    }
    Ok(())
}

// The usable addresses of both answers, in order.
fn sorted_addresses<A: Allocator + Copy, B: Allocator>(
    alloc: A,
    timeline: &Timeline<B>,
) -> Result<Vec<Ip, A>, Memory>
    ensures { IfOk result (λ v. v.items ≡ order timeline.now (usable_addresses timeline.now)) }
{
    match (timeline.rtts(), timeline.used_addresses()) {
        // Most clients keep no history.
        ([], []) => sorted_unknown(alloc, timeline),
        _ => sorted_known(alloc, timeline),
    }
}

// Those addresses in order, if nothing is known of them.
fn sorted_unknown<A: Allocator + Copy, B: Allocator>(
    alloc: A,
    timeline: &Timeline<B>,
) -> Result<Vec<Ip, A>, Memory>
    requires { timeline.now.history ≡ empty_history }
    ensures { IfOk result (λ v. v.items ≡ order timeline.now (usable_addresses timeline.now)) }
{
    let ips = included_addresses(alloc, timeline, true, true)?;
    order(alloc, timeline.policy(), timeline.host(), &ips)
}

// Those addresses in order, by the knowledge of them.
fn sorted_known<A: Allocator + Copy, B: Allocator>(
    alloc: A,
    timeline: &Timeline<B>,
) -> Result<Vec<Ip, A>, Memory>
    ensures { IfOk result (λ v. v.items ≡ order timeline.now (usable_addresses timeline.now)) }
{
    let known = known_addresses(alloc, timeline)?;
    order_known(alloc, timeline.policy(), timeline.host(), &known)
}

/// The usable addresses of both answers, at whichever ticks these come, in the order of RFC 6724 section 6, each with
/// the attributes that its rules compare. `Memory` if an allocation fails.
pub fn sorted_attributes<A: Allocator + Copy, B: Allocator>(
    alloc: A,
    timeline: &Timeline<B>,
) -> Result<Vec<DestinationAttributes, A>, Memory>
    ensures { IfOk result (λ sorted. sorted.items ≡ map (attributes_of (race_input timeline.now)) (order timeline.now
        (usable_addresses timeline.now))) }
{
    let known = known_addresses(alloc, timeline)?;
    order_known_with_attributes(alloc, timeline.policy(), timeline.host(), &known)
}

// The usable addresses of both answers, as received, each with the client's knowledge of it.
fn known_addresses<A: Allocator + Copy, B: Allocator>(
    alloc: A,
    timeline: &Timeline<B>,
) -> Result<Vec<Known, A>, Memory>
    ensures { IfOk result (λ v. v.items ≡ map (known_of timeline.now.history) (usable_addresses timeline.now)) }
{
    let mut known = Vec::with_capacity(alloc, timeline.address_count())?;
    push_known(&mut known, timeline, timeline.answered(Family::V6))?;
    push_known(&mut known, timeline, timeline.answered(Family::V4))?;
    Ok(known)
}

fn push_known<A: Allocator, B: Allocator>(
    known: &mut Vec<Known, A>,
    timeline: &Timeline<B>,
    addresses: &[Ip],
) -> Result<(), Memory>
    ensures { OnOk result (known.new.items ≡ known.old.items ++ map (known_of timeline.now.history)
        (filter is_usable addresses.now)) }
{
    for ip in addresses {
        if ip.is_usable() {
            known.push(timeline.known(*ip))?;
        }
    }
    Ok(())
}

// The usable addresses of the included answers, as received.
fn included_addresses<A: Allocator + Copy, B: Allocator>(
    alloc: A,
    timeline: &Timeline<B>,
    v6: bool,
    v4: bool,
) -> Result<Vec<Ip, A>, Memory>
    ensures { IfOk result (λ v. v.items ≡ parts_of timeline.now v6 v4) }
{
    let mut ips = Vec::with_capacity(alloc, timeline.address_count())?;
    push_part(&mut ips, timeline, Family::V6, v6)?;
    push_part(&mut ips, timeline, Family::V4, v4)?;
    Ok(ips)
}

fn push_part<A: Allocator, B: Allocator>(
    ips: &mut Vec<Ip, A>,
    timeline: &Timeline<B>,
    family: Family,
    included: bool,
) -> Result<(), Memory>
    ensures { OnOk result (ips.new.items ≡ ips.old.items ++ part_of included (reply_of timeline.now family)) }
{
    match timeline.answer(family) {
        Some((_, addresses)) if included => push_usable(ips, addresses),
        _ => Ok(()),
    }
}

fn push_usable<A: Allocator>(ips: &mut Vec<Ip, A>, addresses: &[Ip]) -> Result<(), Memory>
    ensures { OnOk result (ips.new.items ≡ ips.old.items ++ filter is_usable addresses.now) }
{
    for ip in addresses {
        if ip.is_usable() {
            ips.push(*ip)?;
        }
    }
    Ok(())
}

// The sorted addresses of the included answers, interlaced. A single family keeps its order.
fn interlaced_part<A: Allocator + Copy>(
    alloc: A,
    sorted: &[Ip],
    v6: bool,
    v4: bool,
    count: u64,
) -> Result<Vec<Ip, A>, Memory>
    requires { 1 ≤ count }
    ensures { IfOk result (λ v. v.items ≡ interlace (filter (is_of_included v6 v4) sorted.now) count) }
{
    match (v6, v4) {
        (true, true) => interlace(alloc, sorted, count),
        (true, false) => Ok(members(alloc, Family::V6, sorted)?),
        (false, true) => Ok(members(alloc, Family::V4, sorted)?),
        (false, false) => Ok(Vec::new(alloc)),
    }
}
