//! Making the record of facts.

ghost use Rattle.std.specs.Prelude.{◌≡◌, ◌++◌, map, option_map, IfOk, OnOk};
ghost use Rattle.he_record.specs.Left.{said_of};
ghost use Rattle.he_recording.specs.Added.{added, with_line};
ghost use Rattle.he_recording.specs.Facts.{at_lines, attempt_line, end_lines, facts_lines, facts_said, from_lines, lookup_lines, names_lines, nat64_line, server_line, to_lines};

use crate::facts::{AttemptFailure, Facts, ServerFailure, Target};
use he_addr::{Family, Ip, Memory};
use he_record::nat64::Nat64Prefix;
use he_record::{ClientEnd, LookupReason, Moment, Record, RecordLine};
use he_words::TextKind;
use std::alloc::Global;
use std::mem::drop;

/// The record of the facts. A line that a record can't have is left out: a time or a number out of its range, a text
/// that is not a host, a second line of an address, a ninth name server or prefix, more than 512 attempts.
///
/// # Errors
///
/// `Memory` if an allocation fails.
pub fn record_of<'t>(alloc: Global, facts: &Facts<'t>) -> Result<Record<'t>, Memory>
    ensures { IfOk result (λ told. told ≡ facts_said facts.now) }
{
    let mut told = Record::none(alloc);
    match add_facts(&mut told, facts) {
        Ok(()) => Ok(told),
        Err(refused) => {
            drop(told);
            Err(refused)
        }
    }
}

fn add_facts<'t>(told: &mut Record<'t>, facts: &Facts<'t>) -> Result<(), Memory>
    ensures { OnOk result (told.new ≡ added told.old (facts_lines facts.now)) }
{
    add_at(told, facts.at)?;
    add_to(told, facts.to)?;
    add_from(told, facts.from)?;
    add_names(told, facts)?;
    add_attempts(told, facts.attempts)?;
    add_end(told, facts.end)
}

fn add_names<'t>(told: &mut Record<'t>, facts: &Facts<'t>) -> Result<(), Memory>
    ensures { OnOk result (told.new ≡ added told.old (names_lines facts.now)) }
{
    add_lookup(told, Family::V6, facts.six)?;
    add_lookup(told, Family::V4, facts.four)?;
    add_nat64(told, facts.nat64)?;
    add_servers(told, facts.servers)
}

fn add_at(told: &mut Record<'_>, at: Option<Moment>) -> Result<(), Memory>
    ensures { OnOk result (told.new ≡ added told.old (at_lines at)) }
{
    match at {
        Some(moment) => add(told, RecordLine::At(moment)),
        None => Ok(()),
    }
}

fn add_to<'t>(told: &mut Record<'t>, to: Option<Target<'t>>) -> Result<(), Memory>
    ensures { OnOk result (told.new ≡ added told.old (to_lines to.entry)) }
{
    match to {
        Some(target) => add(told, RecordLine::To(target.host, target.port)),
        None => Ok(()),
    }
}

fn add_from(told: &mut Record<'_>, from: Option<Ip>) -> Result<(), Memory>
    ensures { OnOk result (told.new ≡ added told.old (from_lines from)) }
{
    match from {
        Some(ip) => add(told, RecordLine::From(ip)),
        None => Ok(()),
    }
}

fn add_lookup(
    told: &mut Record<'_>,
    family: Family,
    reason: Option<LookupReason>,
) -> Result<(), Memory>
    ensures { OnOk result (told.new ≡ added told.old (lookup_lines family reason)) }
{
    match reason {
        Some(reason) => add(told, RecordLine::Lookup(family, reason)),
        None => Ok(()),
    }
}

fn add_end(told: &mut Record<'_>, end: Option<ClientEnd>) -> Result<(), Memory>
    ensures { OnOk result (told.new ≡ added told.old (end_lines end)) }
{
    match end {
        Some(end) => add(told, RecordLine::End(end)),
        None => Ok(()),
    }
}

fn add_nat64(told: &mut Record<'_>, prefixes: &[Nat64Prefix]) -> Result<(), Memory>
    ensures { OnOk result (told.new ≡ added told.old (map nat64_line prefixes.now)) }
{
    for prefix in prefixes {
        add(told, RecordLine::Nat64(*prefix))?;
    }
    Ok(())
}

fn add_servers(told: &mut Record<'_>, servers: &[ServerFailure]) -> Result<(), Memory>
    ensures { OnOk result (told.new ≡ added told.old (map server_line servers.now)) }
{
    for server in servers {
        let ServerFailure { ip, reason, ticks } = *server;
        add(told, RecordLine::Server(ip, reason, ticks))?;
    }
    Ok(())
}

fn add_attempts(told: &mut Record<'_>, attempts: &[AttemptFailure]) -> Result<(), Memory>
    ensures { OnOk result (told.new ≡ added told.old (map attempt_line attempts.now)) }
{
    for attempt in attempts {
        let AttemptFailure { ip, reason } = *attempt;
        add(told, RecordLine::Attempt(ip, reason))?;
    }
    Ok(())
}

// Adds the line, unless it fails a check.
#[tactic(auto, unfolding(crate::specs::Added::with_line))]
fn add<'t>(told: &mut Record<'t>, line: RecordLine<'t>) -> Result<(), Memory>
    ensures { OnOk result (told.new ≡ with_line told.old (said_of line.entry)) }
{
    match told.add(line) {
        Ok(()) => Ok(()),
        Err(TextKind::Memory) => Err(Memory),
        Err(_) => Ok(()),
    }
}
