// Destinations in the order of preference (RFC 6724 section 6, RFC 8305 section 4).

ghost use Rattle.std.specs.Prelude.{◌≡◌, map, filter_map, slice_get, All, IsPermutation, IsSorted, IsTrue, IfOk, OnOk};
ghost use Rattle.std.specs.List.{list_all};
ghost use Rattle.he_addr.specs.Ip.{InRange, is_usable};
ghost use Rattle.he_select.specs.DestinationKeys.{key_cmp, keys_of};
ghost use Rattle.he_select.specs.HostFaults.{is_sound_source};
ghost use Rattle.he_select.specs.LabelledRules.{labelled_of};
ghost use Rattle.he_select.specs.Preference.{IsOrder, order_of};
ghost use Rattle.he_select.specs.Selection.{known_input, selection_input};
ghost use Rattle.he_select.specs.LookUps.{given, rows_of};
ghost use Rattle.he_select.specs.Attributes.{attributes_from, attributes_of};
ghost use Rattle.he_select.specs.Tables.{IsAdmitted};

use crate::attributes::DestinationAttributes;
use crate::host::{Host, Route, Source};
use crate::known::{Known, told};
use crate::policy::{Policy, Table};
use crate::ranking::Key;
use crate::selection::LabelledSource;
use he_addr::{Ip, Memory};
use std::alloc::Allocator;

/// The addresses in the order in which to try them (RFC 6724 section 6): each is at the place that equals the number
/// of addresses preferred to it. All must be usable. No earlier connections are taken into account.
pub fn order<A: Allocator + Copy, P: Allocator, H: Allocator>(
    alloc: A,
    policy: &Policy<P>,
    host: &Host<H>,
    addresses: &[Ip],
) -> Result<Vec<Ip, A>, Memory>
    requires { IsTrue (list_all is_usable addresses.now) }
    ensures order { IfOk result (λ sorted. IsOrder (selection_input policy.now host.now) addresses.now sorted.items) }
    ensures value { IfOk result (λ sorted.
        sorted.items ≡ order_of (selection_input policy.now host.now) addresses.now) }
{
    let sorted = sort_addresses(
        alloc,
        policy.table(),
        host.sources(),
        host.routes(),
        &[],
        addresses,
    )?;
    Ok(sorted)
}

/// The addresses in the order in which to try them, by the knowledge of them as well (RFC 8305 section 4). All must
/// be usable. The first entry for an address counts.
pub fn order_known<A: Allocator + Copy, P: Allocator, H: Allocator>(
    alloc: A,
    policy: &Policy<P>,
    host: &Host<H>,
    known: &[Known],
) -> Result<Vec<Ip, A>, Memory>
    requires { IsTrue (list_all (λ one. is_usable one.ip) known.now) }
    ensures order { IfOk result (λ sorted.
        IsOrder (known_input policy.now host.now known.now) (map (λ one. one.ip) known.now) sorted.items) }
    ensures value { IfOk result (λ sorted.
        sorted.items ≡ order_of (known_input policy.now host.now known.now) (map (λ one. one.ip) known.now)) }
{
    let addresses = known_addresses(alloc, known)?;
    let sorted = sort_addresses(
        alloc,
        policy.table(),
        host.sources(),
        host.routes(),
        known,
        &addresses,
    )?;
    Ok(sorted)
}

/// The addresses in the order of [`order_known`], each with its attributes. All must be usable.
pub fn order_known_with_attributes<A: Allocator + Copy, P: Allocator, H: Allocator>(
    alloc: A,
    policy: &Policy<P>,
    host: &Host<H>,
    known: &[Known],
) -> Result<Vec<DestinationAttributes, A>, Memory>
    requires { IsTrue (list_all (λ one. is_usable one.ip) known.now) }
    ensures order { IfOk result (λ _.
        IsOrder (known_input policy.now host.now known.now) (map (λ one. one.ip) known.now)
        (order_of (known_input policy.now host.now known.now) (map (λ one. one.ip) known.now))) }
    ensures value { IfOk result (λ sorted.
        sorted.items ≡ map (attributes_of (known_input policy.now host.now known.now))
        (order_of (known_input policy.now host.now known.now) (map (λ one. one.ip) known.now))) }
{
    let addresses = known_addresses(alloc, known)?;
    let sorted = sort_attributes(
        alloc,
        policy.table(),
        host.sources(),
        host.routes(),
        known,
        &addresses,
    )?;
    Ok(sorted)
}

fn known_addresses<A: Allocator>(alloc: A, known: &[Known]) -> Result<Vec<Ip, A>, Memory>
    ensures { IfOk result (λ addresses. addresses.items ≡ map (λ one. one.ip) known.now) }
{
    known.iter().map(|one| one.ip).collect(alloc)
}

/// The addresses in order.
fn sort_addresses<A: Allocator + Copy>(
    alloc: A,
    table: Table<'_>,
    sources: &[Source],
    routes: &[Route],
    known: &[Known],
    addresses: &[Ip],
) -> Result<Vec<Ip, A>, Memory>
    requires admitted { IsAdmitted (rows_of table) }
    requires sound { IsTrue (list_all is_sound_source sources.now) }
    requires usable { IsTrue (list_all is_usable addresses.now) }
    ensures order { IfOk result (λ _. IsOrder (given table.entry sources.now routes.now known.now) addresses.now
        (order_of (given table.entry sources.now routes.now known.now) addresses.now)) }
    ensures value { IfOk result (λ sorted.
        sorted.items ≡ order_of (given table.entry sources.now routes.now known.now) addresses.now) }
{
    let all_attributes = all_attributes_of(alloc, table, sources, routes, known, addresses)?;
    let keys = sorted_keys(alloc, &all_attributes)?;
    pick(alloc, addresses, &keys)
}

/// The attributes of the addresses, in order of preference.
fn sort_attributes<A: Allocator + Copy>(
    alloc: A,
    table: Table<'_>,
    sources: &[Source],
    routes: &[Route],
    known: &[Known],
    addresses: &[Ip],
) -> Result<Vec<DestinationAttributes, A>, Memory>
    requires admitted { IsAdmitted (rows_of table) }
    requires sound { IsTrue (list_all is_sound_source sources.now) }
    requires usable { IsTrue (list_all is_usable addresses.now) }
    ensures order { IfOk result (λ _. IsOrder (given table.entry sources.now routes.now known.now) addresses.now
        (order_of (given table.entry sources.now routes.now known.now) addresses.now)) }
    ensures value { IfOk result (λ sorted. sorted.items
        ≡ map (attributes_of (given table.entry sources.now routes.now known.now))
        (order_of (given table.entry sources.now routes.now known.now) addresses.now)) }
{
    let all_attributes = all_attributes_of(alloc, table, sources, routes, known, addresses)?;
    let keys = sorted_keys(alloc, &all_attributes)?;
    pick(alloc, &all_attributes, &keys)
}

/// The attributes of the addresses, in the addresses' order: computed once for each source and each address.
fn all_attributes_of<A: Allocator + Copy>(
    alloc: A,
    table: Table<'_>,
    sources: &[Source],
    routes: &[Route],
    known: &[Known],
    addresses: &[Ip],
) -> Result<Vec<DestinationAttributes, A>, Memory>
    requires { IsTrue (list_all is_sound_source sources.now) }
    ensures all_attributes { IfOk result (λ all_attributes. all_attributes.items
        ≡ map (attributes_of (given table.entry sources.now routes.now known.now)) addresses.now) }
    ensures range { OnOk result (All InRange addresses.now) }
{
    let labelled = label_sources(alloc, table, sources)?;
    all_attributes_by(alloc, table, routes, &labelled, told(known), addresses)
}

fn label_sources<A: Allocator + Copy>(
    alloc: A,
    table: Table<'_>,
    sources: &[Source],
) -> Result<Vec<LabelledSource, A>, Memory>
    ensures { IfOk result (λ labelled. labelled.items ≡ map (labelled_of (rows_of table.entry)) sources.now) }
{
    sources
        .iter()
        .map(|source| LabelledSource::new(table, source))
        .collect(alloc)
}

/// The attributes of each destination, from the labelled sources and the knowledge of destinations.
fn all_attributes_by<A: Allocator + Copy>(
    alloc: A,
    table: Table<'_>,
    routes: &[Route],
    sources: &[LabelledSource],
    told: &[Known],
    addresses: &[Ip],
) -> Result<Vec<DestinationAttributes, A>, Memory>
    requires { IsTrue (list_all (λ labelled. is_sound_source labelled.source) sources.now) }
    ensures all_attributes { IfOk result (λ all_attributes. all_attributes.items
        ≡ map (attributes_from (rows_of table.entry) routes.now sources.now told.now) addresses.now) }
    ensures range { OnOk result (All InRange addresses.now) }
{
    let mut all_attributes = Vec::with_capacity(alloc, addresses.len())?;
    for ip in addresses {
        all_attributes.push(DestinationAttributes::new(table, routes, sources, told, *ip))?;
    }
    Ok(all_attributes)
}

fn keys_of<A: Allocator + Copy>(
    alloc: A,
    all_attributes: &[DestinationAttributes],
) -> Result<Vec<Key, A>, Memory>
    ensures { IfOk result (λ keys. keys.items ≡ keys_of 0 all_attributes.now) }
{
    let mut keys = Vec::with_capacity(alloc, all_attributes.len())?;
    for (place, attributes) in all_attributes.iter().enumerate() {
        keys.push(attributes.key(place))?;
    }
    Ok(keys)
}

/// Sorts only keys, since they are small; each names the place of its destination.
fn sorted_keys<A: Allocator + Copy>(
    alloc: A,
    all_attributes: &[DestinationAttributes],
) -> Result<Vec<Key, A>, Memory>
    ensures permutation { IfOk result (λ keys. IsPermutation (keys_of 0 all_attributes.now) keys.items) }
    ensures sorted { IfOk result (λ keys. IsSorted key_cmp keys.items) }
{
    let mut keys = keys_of(alloc, all_attributes)?;
    sort(&mut keys);
    Ok(keys)
}

/// The items at the places of the keys, in the order of the keys.
fn pick<T: Copy, A: Allocator + Copy>(
    alloc: A,
    items: &[T],
    keys: &[Key],
) -> Result<Vec<T, A>, Memory>
    ensures { IfOk result (λ picked. picked.items ≡ filter_map (λ key. slice_get items.now key.place) keys.now) }
{
    keys.iter()
        .filter_map(|key| item_at(items, key.place))
        .collect(alloc)
}

/// The item at this place, if there is one.
fn item_at<T: Copy>(items: &[T], place: usize) -> Option<T>
    ensures { result ≡ slice_get items.now place }
{
    items.get(place).copied()
}

#[tactic(auto, unfolding(crate::specs::DestinationKeys::key_cmp))]
fn sort(keys: &mut [Key])
    ensures permutation { IsPermutation keys.old keys.new }
    ensures sorted { IsSorted key_cmp keys.new }
{
    keys.sort_unstable();
}
