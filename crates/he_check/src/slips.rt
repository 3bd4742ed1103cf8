//! Entries of a race and its record that are allowed, but likely mistakes.
ghost use Rattle.std.specs.Prelude.{◌≡◌, ◌+◌, ◌<◌, ◌^◌, ◌++◌, length, map, OnOk};
ghost use Rattle.std.specs.List.{list_any};
ghost use Rattle.he_addr.specs.Ip.{is_of, is_usable};
ghost use Rattle.he_timeline.specs.Race.{has_ip, reply_of};
ghost use Rattle.he_record.specs.Left.{said_of};
ghost use Rattle.he_check.specs.Slips.{answer_slips, are_unusable, has_route, has_source, is_answered, is_floor_idle, is_longer, is_unanswered, lacks_route, record_warnings, serves, slip_if, slips_of, warning_at, warnings_of};
ghost use Rattle.he_check.specs.declared.slips.Slip.TheVariants.{NoRoute};

use he_addr::{Family, Ip, Memory, Prefix};
use he_record::{Record, RecordLine};
use he_select::{Host, Route, Source};
use he_timeline::{Outcome, Settings, Timeline};
use std::alloc::Allocator;

/// An entry of a race that is allowed, but likely a mistake. It is no fault: the race is replayed as written.
#[derive(Clone, Copy, Debug, PartialEq, Eq)]
pub enum Slip {
    /// The input has no race.
    NoRace,
    /// The race has no source, so its host reaches no address.
    NoSource,
    /// The floor equals the Connection Attempt Delay, so no attempt starts earlier for it.
    IdleFloor,
    /// The host has a source of the family and no route for it, so it reaches none of its addresses.
    NoRoute(Family),
    /// The family has no answer, so the race can't be exhausted.
    NoAnswer(Family),
    /// The family's answer comes after the limit, so it is never seen.
    LateAnswer(Family),
    /// The family's answer has addresses, but none that may be tried, so it counts as an answer without addresses.
    UnusableAnswer(Family),
    /// The family's answer has an address that may be tried, and the host has sources, but none of the family, so it
    /// doesn't reach the address.
    NoSourceOf(Family),
    /// An outcome of the family comes after the limit even if its attempt starts with the answer, so it is never
    /// seen.
    LateOutcome(Family),
    /// The address of a record line `attempt` or `untried` is in no answer of the race, so the line says nothing.
    Unanswered,
}

/// A likely mistake in a race of an input, or in its record.
#[derive(Clone, Copy, Debug, PartialEq, Eq)]
pub struct Warning {
    /// The line of an unanswered address; otherwise the first line of the race, record lines included. Lines are
    /// counted over the whole input from 1; 1 if the input has no race.
    pub line: u64,
    /// The likely mistake.
    pub slip: Slip,
}

// Appends a warning for each likely mistake in a race and its record, which begin on this line.
pub(crate) fn add_warnings<A: Allocator, B: Allocator, C: Allocator>(
    told: &Record<'_, C>,
    race: &Timeline<B>,
    line: u64,
    warnings: &mut Vec<Warning, A>,
) -> Result<(), Memory>
    requires { line + length told.now < 2 ^ 64 }
    ensures { OnOk result (warnings.new.items ≡ warnings.old.items ++ warnings_of line told.now race.now) }
{
    add_slips(race, line, warnings)?;
    add_of_record(told.lines(), race, line, warnings)
}

fn add_slips<A: Allocator, B: Allocator>(
    race: &Timeline<B>,
    line: u64,
    warnings: &mut Vec<Warning, A>,
) -> Result<(), Memory>
    ensures { OnOk result (warnings.new.items ≡ warnings.old.items ++ map (warning_at line) (slips_of race.now)) }
{
    let has_no_source = race.host().sources().is_empty();
    add_if(has_no_source, line, Slip::NoSource, warnings)?;
    add_if(
        is_floor_idle(race.settings()),
        line,
        Slip::IdleFloor,
        warnings,
    )?;
    add_of_routes(race.host(), Family::V6, line, warnings)?;
    add_of_routes(race.host(), Family::V4, line, warnings)?;
    add_of_answer(race, Family::V6, line, warnings)?;
    add_of_answer(race, Family::V4, line, warnings)
}

fn add_of_routes<A: Allocator, B: Allocator>(
    host: &Host<B>,
    family: Family,
    line: u64,
    warnings: &mut Vec<Warning, A>,
) -> Result<(), Memory>
    ensures { OnOk result (warnings.new.items ≡ warnings.old.items ++ map (warning_at line)
        (slip_if (lacks_route host.now family) (NoRoute family))) }
{
    let lacks_route = has_source(host.sources(), family) && !has_route(host.routes(), family);
    add_if(lacks_route, line, Slip::NoRoute(family), warnings)
}

fn add_of_answer<A: Allocator, B: Allocator>(
    race: &Timeline<B>,
    family: Family,
    line: u64,
    warnings: &mut Vec<Warning, A>,
) -> Result<(), Memory>
    ensures { OnOk result (warnings.new.items ≡ warnings.old.items ++ map (warning_at line)
        (answer_slips race.now family (reply_of race.now family))) }
{
    let Some((tick, ips)) = race.answer(family) else {
        return add_if(true, line, Slip::NoAnswer(family), warnings);
    };
    let limit = race.settings().limit();
    let is_late = tick > limit;
    add_if(is_late, line, Slip::LateAnswer(family), warnings)?;
    add_if(
        are_unusable(ips),
        line,
        Slip::UnusableAnswer(family),
        warnings,
    )?;
    let sources = race.host().sources();
    let lacks_source = !sources.is_empty() && !has_source(sources, family) && is_any_usable(ips);
    add_if(lacks_source, line, Slip::NoSourceOf(family), warnings)?;
    let is_missed = !is_late && is_any_longer(race.outcomes(), family, limit - tick);
    add_if(is_missed, line, Slip::LateOutcome(family), warnings)
}

pub(crate) fn add_if<A: Allocator>(
    holds: bool,
    line: u64,
    slip: Slip,
    warnings: &mut Vec<Warning, A>,
) -> Result<(), Memory>
    ensures { OnOk result (warnings.new.items ≡ warnings.old.items ++ map (warning_at line) (slip_if holds slip)) }
{
    if holds {
        warnings.push(Warning { line, slip })?;
    }
    Ok(())
}

// Appends a warning for each record line with an address that is in no answer. The first line has this number.
fn add_of_record<A: Allocator, B: Allocator>(
    lines: &[RecordLine<'_>],
    race: &Timeline<B>,
    first: u64,
    warnings: &mut Vec<Warning, A>,
) -> Result<(), Memory>
    requires { first + length lines.now < 2 ^ 64 }
    ensures { OnOk result (warnings.new.items
        ≡ warnings.old.items ++ record_warnings first race.now (map said_of lines.now)) }
{
    let mut number = first;
    for told in lines {
        add_if(
            is_unanswered(race, told),
            number,
            Slip::Unanswered,
            warnings,
        )?;
        number += 1;
    }
    Ok(())
}

fn is_unanswered<B: Allocator>(race: &Timeline<B>, told: &RecordLine<'_>) -> bool
    ensures { result ≡ is_unanswered race.now (said_of told.now) }
{
    match told {
        RecordLine::Attempt(ip, _) => !is_answered(race, *ip),
        RecordLine::Untried(ip) => !is_answered(race, *ip),
        _ => false,
    }
}

fn is_answered<B: Allocator>(race: &Timeline<B>, ip: Ip) -> bool
    ensures { result ≡ is_answered race.now ip }
{
    has_ip(race.answered(Family::V6), ip) || has_ip(race.answered(Family::V4), ip)
}

fn has_ip(ips: &[Ip], ip: Ip) -> bool
    ensures { result ≡ has_ip ip ips.now }
{
    ips.iter().any(|other| *other == ip)
}

fn is_floor_idle(settings: Settings) -> bool
    ensures { result ≡ is_floor_idle settings }
{
    match settings.floor() {
        Some(floor) => floor == settings.attempt(),
        None => false,
    }
}

fn has_source(sources: &[Source], family: Family) -> bool
    ensures { result ≡ has_source sources.now family }
{
    sources.iter().any(|source| is_of(family, source.ip))
}

fn has_route(routes: &[Route], family: Family) -> bool
    ensures { result ≡ has_route routes.now family }
{
    routes.iter().any(|route| serves(route.prefix, family))
}

// Whether a route of the prefix serves the family.
fn serves(prefix: Prefix, family: Family) -> bool
    ensures { result ≡ serves prefix family }
{
    match family {
        Family::V6 => !prefix.is_v4(),
        Family::V4 => prefix.is_v4(),
    }
}

// Whether an attempt of the family takes longer than `ticks`.
fn is_any_longer(outcomes: &[(Ip, Outcome)], family: Family, ticks: u64) -> bool
    ensures { result ≡ list_any (is_longer family ticks) outcomes.now }
{
    outcomes.iter().any(|told| is_longer(told, family, ticks))
}

fn is_longer(told: &(Ip, Outcome), family: Family, ticks: u64) -> bool
    ensures { result ≡ is_longer family ticks told.now }
{
    is_of(family, told.0) && told.1.duration() > ticks
}

fn is_of(family: Family, ip: Ip) -> bool
    ensures { result ≡ is_of family ip }
{
    ip.family() == family
}

fn are_unusable(ips: &[Ip]) -> bool
    ensures { result ≡ are_unusable ips.now }
{
    !ips.is_empty() && !is_any_usable(ips)
}

fn is_any_usable(ips: &[Ip]) -> bool
    ensures { result ≡ list_any is_usable ips.now }
{
    ips.iter().any(|ip| ip.is_usable())
}
