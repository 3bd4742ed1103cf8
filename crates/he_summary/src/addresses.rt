// The addresses that cost most, as text: a row for each, with the hosts whose races tried it.
ghost use Rattle.std.specs.Prelude.{ℕ, ◌≡◌, ◌++◌, List, map, OnOk};
ghost use Rattle.std.specs.List.{flat_map};
ghost use Rattle.he_summary.specs.Figures.{tally_facts};
ghost use Rattle.he_totals.specs.Hosts.{hosts_in};
ghost use Rattle.he_summary.specs.Written.{HasWords, Tells, TellsAddress, TellsAddresses, after_comma, hosts_text, more_text};

use crate::text::{Said, WIDTH};
use he_addr::{Ip, Memory, write_ip, write_number};
use he_print::{Part, push_parts, write_parts};
use he_totals::hosts::Hosts;
use he_totals::tallies::Tally;
use std::alloc::Allocator;

// The widest address has 39 characters.
const GAP: &[u8] = b"                                         ";

const HEADING: &[u8] = b"\n  attempts    failed no answer   lost ms  address";

// The width of the heading of the addresses.
const LEAST_WIDTH: usize = 7;

// A row names three hosts, two of them after the first.
const MOST_AFTER_FIRST: usize = 2;

// Appends the rows below a heading, each after a line end.
pub(crate) fn write_addresses<A: Allocator + Copy>(
    hosts: &Hosts<A>,
    tallies: &[(Ip, Tally)],
    text: &mut Vec<u8, A>,
) -> Result<(), Memory>
    ensures { OnOk result (TellsAddresses (hosts_in hosts.now) tallies.now text.old.items text.new.items) }
{
    let alloc = *text.allocator();
    let width = width_of(alloc, hosts, tallies)?;
    let heading = heading_of(alloc, width)?;
    let mut is_first = true;
    for tallied in tallies {
        write_before(is_first, heading.as_slice(), text)?;
        write_address(hosts, width, *tallied, text)?;
        is_first = false;
    }
    Ok(())
}

// Appends what is before a row: the heading, or a line end.
fn write_before<A: Allocator>(
    is_first: bool,
    heading: &[u8],
    text: &mut Vec<u8, A>,
) -> Result<(), Memory>
    ensures { OnOk result (HasWords text.old.items text.new.items) }
{
    if is_first {
        text.extend_from_slice(heading)
    } else {
        text.extend_from_slice(b"\n")
    }
}

// The width of the addresses; 0 if none of them has a host.
fn width_of<A: Allocator + Copy>(
    alloc: A,
    hosts: &Hosts<A>,
    tallies: &[(Ip, Tally)],
) -> Result<usize, Memory> {
    let (mut width, mut has_hosts) = (LEAST_WIDTH, false);
    for tallied in tallies {
        width = length_of(alloc, tallied.0)?.max(width);
        has_hosts = has_hosts || !hosts.names_at(alloc, tallied.0)?.is_empty();
    }
    Ok(if has_hosts { width } else { 0 })
}

fn length_of<A: Allocator + Copy>(alloc: A, ip: Ip) -> Result<usize, Memory> {
    let mut text = Vec::new(alloc);
    write_ip(ip, &mut text)?;
    Ok(text.len())
}

fn heading_of<A: Allocator>(alloc: A, width: usize) -> Result<Vec<u8, A>, Memory> {
    let mut text = Vec::new(alloc);
    text.extend_from_slice(HEADING)?;
    if width > 0 {
        write_gap(width.saturating_sub(LEAST_WIDTH), &mut text)?;
        text.extend_from_slice(b"hosts")?;
    }
    text.push(b'\n')?;
    Ok(text)
}

// Appends this number of spaces, and the two between columns.
fn write_gap<A: Allocator>(count: usize, text: &mut Vec<u8, A>) -> Result<(), Memory>
    ensures { OnOk result (HasWords text.old.items text.new.items) }
{
    text.extend_from_slice(&GAP[..count.saturating_add(2).min(GAP.len())])
}

// Appends the row of an address; addresses have this width.
fn write_address<A: Allocator + Copy>(
    hosts: &Hosts<A>,
    width: usize,
    tallied: (Ip, Tally),
    text: &mut Vec<u8, A>,
) -> Result<(), Memory>
    ensures { OnOk result (TellsAddress (hosts_in hosts.now tallied.0) tallied text.old.items text.new.items) }
{
    let alloc = *text.allocator();
    write_tally(tallied, text)?;
    let names = hosts.names_at(alloc, tallied.0)?;
    let gap = width.saturating_sub(length_of(alloc, tallied.0)?);
    write_names(gap, names.as_slice(), text)
}

fn write_tally<A: Allocator + Copy>(
    tallied: (Ip, Tally),
    text: &mut Vec<u8, A>,
) -> Result<(), Memory>
    ensures { OnOk result (Tells (tally_facts tallied) text.old.items text.new.items) }
{
    let (ip, tally) = tallied;
    let mut parts: Vec<Part<Said>, A> = Vec::new(*text.allocator());
    push_parts(
        &[
            Part::Aligned(WIDTH, tally.attempts),
            Part::Aligned(WIDTH, tally.failed),
            Part::Aligned(WIDTH, tally.no_answer),
            Part::Aligned(WIDTH, tally.lost),
            Part::Words(b"  "),
            Part::Ip(ip),
        ],
        &mut parts,
    )?;
    write_parts(parts.as_slice(), text)
}

// Appends the hosts of a row after a gap, if there are any.
fn write_names<A: Allocator + Copy>(
    gap: usize,
    names: &[&[u8]],
    text: &mut Vec<u8, A>,
) -> Result<(), Memory>
    ensures { OnOk result ((gap : List ℕ) × (text.new.items ≡ text.old.items
        ++ (gap ++ hosts_text (map (λ name. name.now) names.now)))) }
{
    let Some((first, more)) = names.split_first() else {
        return Ok(());
    };
    write_gap(gap, text)?;
    text.extend_from_slice(first)?;
    let (named, others) = more.split_at(more.len().min(MOST_AFTER_FIRST));
    write_each(named, text)?;
    write_others(others.len(), text)
}

fn write_each<A: Allocator>(names: &[&[u8]], text: &mut Vec<u8, A>) -> Result<(), Memory>
    ensures { OnOk result (text.new.items ≡ text.old.items ++ flat_map after_comma (map (λ name. name.now) names.now)) }
{
    for name in names {
        text.extend_from_slice(b", ")?;
        text.extend_from_slice(name)?;
    }
    Ok(())
}

fn write_others<A: Allocator + Copy>(count: usize, text: &mut Vec<u8, A>) -> Result<(), Memory>
    ensures { OnOk result (text.new.items ≡ text.old.items ++ more_text count) }
{
    if count == 0 {
        return Ok(());
    }
    text.extend_from_slice(b" and ")?;
    write_number(count as u64, text)?;
    text.extend_from_slice(b" more")?;
    Ok(())
}
