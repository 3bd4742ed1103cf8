//! The addresses and routes of a machine.

ghost use Rattle.std.specs.Prelude.{◌≡◌, ◌++◌, map, IfOk, OnErr, OnOk};
ghost use Rattle.std.specs.List.{flat_map};
ghost use Rattle.he_json.specs.Documents.{Appends};
ghost use Rattle.he_json.specs.Json.{fact_of};
ghost use Rattle.he_json.specs.Machine.{IsMachineJson, machine_text, prefix_parts, route_facts, source_facts};

use crate::members::{Member, Value, push, write_objects, write_words};
use he_addr::{Ip, Memory, Prefix};
use he_select::{Route, Source};
use std::alloc::Allocator;

// The most members that an object of a source or a route has.
const MOST_MEMBERS: usize = 5;

// The number of IPv4 addresses, and the length of the prefix ::ffff:0:0/96 that has all of them in IPv6.
const V4_NUMBERS: u128 = 0x1_0000_0000;

const MAPPED_LEN: u8 = 96;

// An object for each source.
fn source_rows<A: Allocator + Copy>(
    alloc: A,
    sources: &[Source],
) -> Result<Vec<Vec<Member, A>, A>, Memory>
    ensures { IfOk result (λ rows. map (λ row. flat_map fact_of row.items) rows.items ≡ map source_facts sources.now) }
{
    let mut rows = Vec::with_capacity(alloc, sources.len())?;
    for source in sources {
        rows.push(source_row(alloc, source)?)?;
    }
    Ok(rows)
}

fn source_row<A: Allocator + Copy>(alloc: A, source: &Source) -> Result<Vec<Member, A>, Memory>
    ensures { IfOk result (λ row. flat_map fact_of row.items ≡ source_facts source.now) }
{
    let mut row = Vec::with_capacity(alloc, MOST_MEMBERS)?;
    let members = [
        Member(b"address", Value::Address(source.ip)),
        Member(b"length", Value::Number(source.plen as u64)),
        Member(b"interface", Value::Number(source.interface as u64)),
        Member(b"deprecated", Value::Truth(source.deprecated)),
        Member(b"temporary", Value::Truth(source.temporary)),
    ];
    push(&members, &mut row)?;
    Ok(row)
}

// An object for each route.
fn route_rows<A: Allocator + Copy>(
    alloc: A,
    routes: &[Route],
) -> Result<Vec<Vec<Member, A>, A>, Memory>
    ensures { IfOk result (λ rows. map (λ row. flat_map fact_of row.items) rows.items ≡ map route_facts routes.now) }
{
    let mut rows = Vec::with_capacity(alloc, routes.len())?;
    for route in routes {
        rows.push(route_row(alloc, route)?)?;
    }
    Ok(rows)
}

fn route_row<A: Allocator + Copy>(alloc: A, route: &Route) -> Result<Vec<Member, A>, Memory>
    ensures { IfOk result (λ row. flat_map fact_of row.items ≡ route_facts route.now) }
{
    let mut row = Vec::with_capacity(alloc, MOST_MEMBERS)?;
    let (ip, length) = prefix_parts(route.prefix);
    let members = [
        Member(b"address", Value::Address(ip)),
        Member(b"length", Value::Number(length as u64)),
        Member(b"interface", Value::Number(route.interface as u64)),
        Member(b"tunnel", Value::Truth(route.tunnel)),
    ];
    push(&members, &mut row)?;
    Ok(row)
}

// The first address of a prefix and its length, in IPv4's terms if it has IPv4 addresses alone.
fn prefix_parts(prefix: Prefix) -> (Ip, u8)
    ensures { result ≡ prefix_parts prefix }
{
    let (bits, length) = (prefix.bits(), prefix.len());
    if prefix.is_v4() {
        (
            Ip::V4((bits % V4_NUMBERS) as u32),
            length.saturating_sub(MAPPED_LEN),
        )
    } else {
        (Ip::V6(bits), length)
    }
}

fn write_machine<A: Allocator + Copy>(
    sources: &[Vec<Member, A>],
    routes: &[Vec<Member, A>],
    text: &mut Vec<u8, A>,
) -> Result<(), Memory>
    ensures { OnOk result (text.new.items ≡ text.old.items ++ machine_text (map (λ row. row.items) sources.now)
        (map (λ row. row.items) routes.now)) }
{
    write_words(b"{\"sources\":", text)?;
    write_objects(sources, text)?;
    write_words(b",\"routes\":", text)?;
    write_objects(routes, text)?;
    write_words(b"}\n", text)
}

fn machine_of<A: Allocator + Copy>(
    alloc: A,
    sources: &[Source],
    routes: &[Route],
) -> Result<Vec<u8, A>, Memory>
    ensures { IfOk result (λ text. IsMachineJson sources.now routes.now text.items) }
{
    let sources = source_rows(alloc, sources)?;
    let routes = route_rows(alloc, routes)?;
    let mut text = Vec::new(alloc);
    write_machine(&sources, &routes, &mut text)?;
    Ok(text)
}

/// Appends the addresses and routes of a machine as one JSON object and a line end:
///
/// ```text
/// {"sources":[{"address":"192.0.2.2","length":24,"interface":2,"deprecated":false,"temporary":false}],
/// "routes":[{"address":"0.0.0.0","length":0,"interface":2,"tunnel":false}]}
/// ```
///
/// (On one line.) After `Memory` the vector is unchanged.
pub fn write_machine_json<A: Allocator + Copy, T: Allocator>(
    alloc: A,
    sources: &[Source],
    routes: &[Route],
    out: &mut Vec<u8, T>,
) -> Result<(), Memory>
    ensures ok { OnOk result (Appends (IsMachineJson sources.now routes.now) out.old.items out.new.items) }
    ensures err { OnErr result (out.new.items ≡ out.old.items) }
{
    let text = machine_of(alloc, sources, routes)?;
    out.extend_from_slice(&text)
}
