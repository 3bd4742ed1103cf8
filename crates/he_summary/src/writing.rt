// Writes a summary.
ghost use Rattle.std.specs.Prelude.{◌≡◌, ◌++◌, filter, IfOk, IsPermutation, List, OnOk, map, string_bytes};
ghost use Rattle.std.specs.List.{flat_map};
ghost use Rattle.std.specs.List.Sorted.{IsSortedByKey};
ghost use Rattle.he_print.specs.Parts.{fact_of};
ghost use Rattle.he_summary.specs.Figures.{server_facts, text_facts};
ghost use Rattle.he_totals.specs.Hosts.{hosts_in};
ghost use Rattle.he_totals.specs.Kept.{Run};
ghost use Rattle.he_totals.specs.Summed.{HasSummed};
ghost use Rattle.he_totals.specs.Totals.{is_kind};
ghost use Rattle.he_summary.specs.Written.{AreSlowest, HasWords, IsReport, IsText, IsWritten, Tells, TellsEach, TellsSlowest, name_at, place_facts, slow_facts, slow_key, slowest_first};
ghost use Rattle.he_totals.specs.declared.totals.Kind.TheVariants.{Won};

use crate::addresses::write_addresses;
use crate::figures::Form;
use crate::json::write_summary;
use crate::metrics::write_metrics;
use crate::text::{Said, push_servers, push_text};
use he_addr::{Ip, Memory};
use he_print::{Part, push_parts, write_parts, write_string};
use he_totals::hosts::Hosts;
use he_totals::kept::{Ending, Kept, Place};
use he_totals::races::Races;
use he_totals::tallies::Tally;
use he_totals::totals::{Kind, Totals, Value, is_kind, value_of};
use std::alloc::Allocator;
use std::cmp::Reverse;

/// Appends a summary of the races with the `slowest` slowest ones, each with the name of its file: `names` has these
/// by place, in text as a terminal may show them; a file without a name is `-`.
///
/// # Errors
///
/// `Memory` if an allocation was refused. A first part of the summary may then have been appended.
pub fn write<A: Allocator + Copy>(
    races: &Races<A>,
    form: Form,
    slowest: usize,
    names: &[String],
    text: &mut Vec<u8, A>,
) -> Result<(), Memory>
    ensures { (runs : List Run) → HasSummed races.now runs
        → OnOk result (IsWritten form runs slowest text.old.items text.new.items) }
{
    let totals = Totals::of(*text.allocator(), races.kept())?;
    let failing = races.failing()?;
    let servers = races.failing_servers()?;
    let tables = (failing.as_slice(), servers.as_slice());
    write_report(races, form, totals, tables, text)?;
    write_rest(races, form, slowest, names, text)
}

// Appends the report, up to the slowest races.
fn write_report<A: Allocator + Copy>(
    races: &Races<A>,
    form: Form,
    totals: Totals,
    tables: (&[(Ip, Tally)], &[(Ip, Tally)]),
    text: &mut Vec<u8, A>,
) -> Result<(), Memory>
    ensures { OnOk result (IsReport form totals races.now.kept (tables.entry.0.now, tables.entry.1.now)
        (hosts_in races.now.hosts) text.old.items text.new.items) }
{
    match form {
        Form::Text => write_text(totals, races.kept(), tables, races.tried_hosts(), text),
        Form::Json => write_summary(totals, races.kept(), tables, races.tried_hosts(), text),
        Form::Metrics => write_metrics(totals, text),
    }
}

// Appends the `slowest` slowest races, and the end.
fn write_rest<A: Allocator + Copy>(
    races: &Races<A>,
    form: Form,
    slowest: usize,
    names: &[String],
    text: &mut Vec<u8, A>,
) -> Result<(), Memory>
    ensures { OnOk result (TellsSlowest form slowest races.now.kept text.old.items text.new.items) }
{
    let end: &[u8] = match form {
        Form::Text => b"",
        Form::Json => b"}\n",
        Form::Metrics => b"# EOF\n",
    };
    if slowest > 0 {
        let slow = slowest_of(*text.allocator(), races.kept(), slowest)?;
        write_slowest(form, slow.as_slice(), names, text)?;
    }
    text.extend_from_slice(end)?;
    Ok(())
}

fn write_text<A: Allocator + Copy>(
    totals: Totals,
    kept: &[Kept],
    tables: (&[(Ip, Tally)], &[(Ip, Tally)]),
    hosts: &Hosts<A>,
    text: &mut Vec<u8, A>,
) -> Result<(), Memory>
    ensures { OnOk result (IsText totals kept.now (tables.entry.0.now, tables.entry.1.now) (hosts_in hosts.now)
        text.old.items text.new.items) }
{
    write_figures(totals, kept, text)?;
    write_addresses(hosts, tables.0, text)?;
    write_servers(tables.1, text)
}

// Appends the totals, and what the record lines say.
fn write_figures<A: Allocator + Copy>(
    totals: Totals,
    kept: &[Kept],
    text: &mut Vec<u8, A>,
) -> Result<(), Memory>
    ensures { OnOk result (Tells (text_facts totals kept.now) text.old.items text.new.items) }
{
    let mut parts = Vec::new(*text.allocator());
    push_text(totals, kept, &mut parts)?;
    write_parts(parts.as_slice(), text)
}

// Appends the name servers, and the last line end.
fn write_servers<A: Allocator + Copy>(
    servers: &[(Ip, Tally)],
    text: &mut Vec<u8, A>,
) -> Result<(), Memory>
    ensures { OnOk result (Tells (flat_map server_facts servers.now) text.old.items text.new.items) }
{
    let mut parts = Vec::new(*text.allocator());
    push_servers(servers, &mut parts)?;
    push_parts(&[Part::Words(b"\n")], &mut parts)?;
    write_parts(parts.as_slice(), text)
}

// The `most` slowest races that were won: the longest time first, equal ones in the order in which they were read.
fn slowest_of<A: Allocator>(alloc: A, kept: &[Kept], most: usize) -> Result<Vec<Kept, A>, Memory>
    ensures { IfOk result (λ slow. AreSlowest most kept.now slow.items) }
{
    let mut won = won_of(alloc, kept)?;
    sort_slowest(&mut won);
    won.truncate(most);
    Ok(won)
}

fn won_of<A: Allocator>(alloc: A, kept: &[Kept]) -> Result<Vec<Kept, A>, Memory>
    ensures { IfOk result (λ won. won.items ≡ filter (is_kind Won) kept.now) }
{
    let mut won = Vec::new(alloc);
    for race in kept {
        if is_kind(Kind::Won, race) {
            won.push(*race)?;
        }
    }
    Ok(won)
}

fn sort_slowest<A: Allocator>(won: &mut Vec<Kept, A>)
    ensures permutation { IsPermutation won.old.items won.new.items }
    ensures sorted { IsSortedByKey slow_key slowest_first won.new.items }
{
    won.sort_unstable_by_key(|race| {
        (
            Reverse(value_of(Value::Time, race).unwrap_or(0)),
            (race.place.file, race.place.number),
        )
    });
}

fn write_slowest<A: Allocator + Copy>(
    form: Form,
    slow: &[Kept],
    names: &[String],
    text: &mut Vec<u8, A>,
) -> Result<(), Memory>
    ensures { OnOk result (TellsEach (map (slow_facts form) slow.now) text.old.items text.new.items) }
{
    let (begin, between, end): (&[u8], &[u8], &[u8]) = match form {
        Form::Text => (b"slowest:\n  ", b"  ", b""),
        Form::Json if slow.is_empty() => (b"", b"", b",\"slowest\":[]"),
        Form::Json | Form::Metrics => (b",\"slowest\":[{\"file\":", b",{\"file\":", b"]"),
    };
    let mut before = begin;
    for race in slow {
        write_name(form, before, name_of(race.place.file, names), b"", text)?;
        write_slow(form, race, text)?;
        before = between;
    }
    text.extend_from_slice(end)?;
    Ok(())
}

/// The name at this place; `-` if there is none.
pub fn name_of(place: usize, names: &[String]) -> &str
    ensures { result.now ≡ name_at (map string_bytes names.now) place }
{
    match names.get(place) {
        Some(name) => name.as_str(),
        None => "-",
    }
}

/// Appends a name between words: in text as it is, in JSON as a string.
pub fn write_name<A: Allocator>(
    form: Form,
    before: &[u8],
    name: &str,
    after: &[u8],
    text: &mut Vec<u8, A>,
) -> Result<(), Memory>
    ensures { OnOk result (HasWords text.old.items text.new.items) }
{
    text.extend_from_slice(before)?;
    match form {
        Form::Text => text.extend_from_slice(name.as_bytes())?,
        Form::Json | Form::Metrics => write_string(name.as_bytes(), text)?,
    }
    text.extend_from_slice(after)?;
    Ok(())
}

// Appends the figures of a slow race, after the name of its file.
fn write_slow<A: Allocator + Copy>(
    form: Form,
    race: &Kept,
    text: &mut Vec<u8, A>,
) -> Result<(), Memory>
    ensures { OnOk result (Tells (slow_facts form race.now) text.old.items text.new.items) }
{
    let mut parts = Vec::new(*text.allocator());
    push_slow(form, race, &mut parts)?;
    write_parts(parts.as_slice(), text)
}

// FILE:LINE race NUMBER: TIME ms to ADDRESS, NAMES ms names, LOST ms lost
fn push_slow<A: Allocator>(
    form: Form,
    race: &Kept,
    text: &mut Vec<Part<Said>, A>,
) -> Result<(), Memory>
    ensures { OnOk result (flat_map fact_of text.new.items ≡ flat_map fact_of text.old.items
        ++ slow_facts form race.now) }
{
    push_parts(&place_parts(form, race.place), text)?;
    let words = slow_words(form);
    match race.ending {
        Ending::Won(Some(ip), time) => push_parts(
            &[
                Part::Words(words[0]),
                Part::Number(time),
                Part::Words(words[1]),
                Part::Ip(ip),
                Part::Words(words[2]),
                Part::Number(race.times.names),
                Part::Words(words[3]),
                Part::Number(race.times.lost),
                Part::Words(words[4]),
            ],
            text,
        ),
        _ => Ok(()),
    }
}

fn slow_words(form: Form) -> [&'static [u8]; 5] {
    match form {
        Form::Text => [b": ", b" ms to ", b", names ", b" ms, lost ", b" ms\n"],
        Form::Json | Form::Metrics => [
            b",\"ms\":",
            b",\"address\":\"",
            b"\",\"names_ms\":",
            b",\"lost_ms\":",
            b"}",
        ],
    }
}

/// The place of a race, after the name of its file: its first line, and its number.
pub fn place_parts<S: Copy>(form: Form, place: Place) -> [Part<S>; 4]
    ensures { flat_map fact_of result ≡ place_facts form place }
{
    let (line, number) = (Part::Number(place.line), Part::Number(place.number as u64));
    match form {
        Form::Text => [Part::Words(b":"), line, Part::Words(b" race "), number],
        Form::Json | Form::Metrics => [
            Part::Words(b",\"race\":"),
            number,
            Part::Words(b",\"line\":"),
            line,
        ],
    }
}
