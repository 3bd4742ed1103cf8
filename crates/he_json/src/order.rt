// The addresses of a race in order of preference.

ghost use Rattle.std.specs.Prelude.{◌≡◌, ◌++◌, map, IfOk, None, OnOk};
ghost use Rattle.std.specs.List.{flat_map};
ghost use Rattle.he_json.specs.Facts.{place_facts, placed_facts, preferred_facts, reason_facts};
ghost use Rattle.he_json.specs.Json.{fact_of};

use crate::members::{Member, Value, push};
use crate::reasons::push_reason;
use he_addr::Memory;
use he_course::Preferred;
use he_select::DestinationAttributes;
use std::alloc::Allocator;

// The most members that an object of an address has.
const MOST_MEMBERS: usize = 7;

// An object for each of the sorted addresses.
pub(crate) fn place_rows<A: Allocator + Copy>(
    alloc: A,
    sorted: &[DestinationAttributes],
) -> Result<Vec<Vec<Member, A>, A>, Memory>
    ensures { IfOk result (λ rows. map (λ row. flat_map fact_of row.items) rows.items ≡ placed_facts 0 sorted.now) }
{
    let mut rows = Vec::with_capacity(alloc, sorted.len())?;
    for (place, attributes) in sorted.iter().enumerate() {
        rows.push(place_row(alloc, place, attributes)?)?;
    }
    Ok(rows)
}

// An object for each address, with the rule that sorts it after the one before.
pub(crate) fn preferred_rows<A: Allocator + Copy>(
    alloc: A,
    addresses: &[Preferred],
) -> Result<Vec<Vec<Member, A>, A>, Memory>
    ensures { IfOk result (λ rows. map (λ row. flat_map fact_of row.items) rows.items ≡ preferred_facts 0 None
        addresses.now) }
{
    let mut rows = Vec::with_capacity(alloc, addresses.len())?;
    let mut before = None;
    for (place, address) in addresses.iter().enumerate() {
        let mut row = place_row(alloc, place, &address.attributes)?;
        push_reason(address.rule, before, &address.attributes, &mut row)?;
        rows.push(row)?;
        before = Some(address.attributes);
    }
    Ok(rows)
}

fn place_row<A: Allocator + Copy>(
    alloc: A,
    place: usize,
    attributes: &DestinationAttributes,
) -> Result<Vec<Member, A>, Memory>
    ensures { IfOk result (λ row. flat_map fact_of row.items ≡ place_facts place attributes.now) }
{
    let mut row = Vec::with_capacity(alloc, MOST_MEMBERS)?;
    let members = [
        Member(b"place", Value::Number(place as u64)),
        Member(b"address", Value::Address(attributes.ip)),
        Member(b"source", Value::AddressOrNull(attributes.sourced().source)),
    ];
    push(&members, &mut row)?;
    Ok(row)
}
