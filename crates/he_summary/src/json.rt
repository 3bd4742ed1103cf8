// The object of a summary.
ghost use Rattle.std.specs.Prelude.{◌≡◌, ◌++◌, codes, map, OnOk};
ghost use Rattle.std.specs.List.{flat_map};
ghost use Rattle.he_summary.specs.declared.json.Rows.TheVariants.{Servers};
ghost use Rattle.he_totals.specs.Hosts.{hosts_in};
ghost use Rattle.he_summary.specs.Json.{all_lookups_json, attempts_json, clients_json, counts_json, hosts_json, lookups_json, lookups_of, numbers_json, percentiles_json, record_json, spread_json, spreads_json, strings_json, summary_json, sums_json, tallies_json, tally_json, totals_json};

use crate::figures::{greatest_of, total_of};
use crate::members::{Member, write_members};
use he_addr::{Family, Ip, Memory, write_ip};
use he_course::Times;
use he_print::write_string;
use he_record::LookupReason;
use he_totals::hosts::Hosts;
use he_totals::kept::Kept;
use he_totals::tallies::Tally;
use he_totals::times::Spread;
use he_totals::totals::{Counts, Kind, Totals, count};
use std::alloc::Allocator;

// The rows of tallies.
#[derive(Clone, Copy)]
pub(crate) enum Rows {
    Addresses,
    Servers,
}

// Appends the object of a summary, up to the slowest races.
pub(crate) fn write_summary<A: Allocator + Copy>(
    totals: Totals,
    kept: &[Kept],
    tables: (&[(Ip, Tally)], &[(Ip, Tally)]),
    hosts: &Hosts<A>,
    text: &mut Vec<u8, A>,
) -> Result<(), Memory>
    ensures { OnOk result (text.new.items ≡ text.old.items
        ++ summary_json totals kept.now (hosts_in hosts.now) tables.entry.0.now tables.entry.1.now) }
{
    write_totals(totals, text)?;
    text.extend_from_slice(b",\"addresses\":")?;
    write_tallies(Rows::Addresses, hosts, tables.0, text)?;
    write_record(totals, kept, text)?;
    write_servers(hosts, tables.1, text)
}

fn write_servers<A: Allocator + Copy>(
    hosts: &Hosts<A>,
    servers: &[(Ip, Tally)],
    text: &mut Vec<u8, A>,
) -> Result<(), Memory>
    ensures { OnOk result (text.new.items ≡ text.old.items
        ++ (codes ",\"servers\":" ++ tallies_json Servers (hosts_in hosts.now) servers.now)) }
{
    text.extend_from_slice(b",\"servers\":")?;
    write_tallies(Rows::Servers, hosts, servers, text)
}

/// Appends the totals of races as the members of an object, from its beginning on.
///
/// # Errors
///
/// `Memory` if an allocation was refused.
pub fn write_totals<A: Allocator + Copy>(
    totals: Totals,
    text: &mut Vec<u8, A>,
) -> Result<(), Memory>
    ensures { OnOk result (text.new.items ≡ text.old.items ++ totals_json totals) }
{
    write_counts(totals.counts, text)?;
    write_sums(totals.sums, text)?;
    write_spreads(totals, text)?;
    write_attempts(totals, text)
}

fn write_counts<A: Allocator + Copy>(counts: Counts, text: &mut Vec<u8, A>) -> Result<(), Memory>
    ensures { OnOk result (text.new.items ≡ text.old.items ++ counts_json counts) }
{
    write_members(
        &[
            Member(b"{\"races\":", counts.races),
            Member(b",\"connected\":{\"all\":", counts.won),
            Member(b",\"ipv6\":", counts.by_v6),
            Member(b",\"ipv4\":", counts.by_v4),
            Member(
                b"},\"not_connected\":{\"all\":",
                counts.races.saturating_sub(counts.won),
            ),
            Member(b",\"timed_out\":", counts.timed_out),
            Member(b",\"all_failed\":", counts.all_failed),
            Member(b",\"no_address\":", counts.no_address),
        ],
        text,
    )
}

fn write_sums<A: Allocator + Copy>(sums: Times, text: &mut Vec<u8, A>) -> Result<(), Memory>
    ensures { OnOk result (text.new.items ≡ text.old.items ++ sums_json sums) }
{
    write_members(
        &[
            Member(b"},\"total\":{\"ms\":", sums.all),
            Member(b",\"names_ms\":", sums.names),
            Member(b",\"lost_ms\":", sums.lost),
            Member(b",\"unknown_ms\":", sums.unknown),
            Member(b",\"machine_ms\":", sums.machine),
            Member(b",\"connecting_ms\":", sums.connecting),
        ],
        text,
    )
}

fn write_spreads<A: Allocator + Copy>(totals: Totals, text: &mut Vec<u8, A>) -> Result<(), Memory>
    ensures { OnOk result (text.new.items ≡ text.old.items ++ spreads_json totals) }
{
    write_spread(b"},\"connect_ms\":", totals.times, text)?;
    write_spread(b",\"names_ms\":", totals.names, text)?;
    write_spread(b",\"lost_ms\":", totals.lost, text)?;
    write_spread(b",\"given_up_ms\":", totals.given_up, text)
}

fn write_spread<A: Allocator + Copy>(
    name: &'static [u8],
    spread: Option<Spread>,
    text: &mut Vec<u8, A>,
) -> Result<(), Memory>
    ensures { OnOk result (text.new.items ≡ text.old.items ++ spread_json name.now spread) }
{
    text.extend_from_slice(name)?;
    match spread {
        None => text.extend_from_slice(b"null")?,
        Some(spread) => write_percentiles(spread, text)?,
    }
    Ok(())
}

fn write_percentiles<A: Allocator + Copy>(
    spread: Spread,
    text: &mut Vec<u8, A>,
) -> Result<(), Memory>
    ensures { OnOk result (text.new.items ≡ text.old.items ++ percentiles_json spread) }
{
    write_members(
        &[
            Member(b"{\"median\":", spread.median),
            Member(b",\"p90\":", spread.p90),
            Member(b",\"p99\":", spread.p99),
            Member(b",\"max\":", spread.greatest),
        ],
        text,
    )?;
    text.extend_from_slice(b"}")?;
    Ok(())
}

fn write_attempts<A: Allocator + Copy>(totals: Totals, text: &mut Vec<u8, A>) -> Result<(), Memory>
    ensures { OnOk result (text.new.items ≡ text.old.items ++ attempts_json totals) }
{
    write_members(
        &[
            Member(b",\"attempts\":{\"total\":", total_of(totals.attempts)),
            Member(b",\"most\":", greatest_of(totals.attempts)),
            Member(b"},\"resolution_delay\":", totals.counts.waited),
        ],
        text,
    )
}

fn write_tallies<A: Allocator + Copy>(
    rows: Rows,
    hosts: &Hosts<A>,
    tallies: &[(Ip, Tally)],
    text: &mut Vec<u8, A>,
) -> Result<(), Memory>
    ensures { OnOk result (text.new.items ≡ text.old.items
        ++ tallies_json rows (hosts_in hosts.now) tallies.now) }
{
    let Some((first, more)) = tallies.split_first() else {
        text.extend_from_slice(b"[]")?;
        return Ok(());
    };
    text.extend_from_slice(b"[")?;
    write_tally(rows, hosts, *first, text)?;
    for tallied in more {
        text.extend_from_slice(b",")?;
        write_tally(rows, hosts, *tallied, text)?;
    }
    text.extend_from_slice(b"]")?;
    Ok(())
}

fn write_tally<A: Allocator + Copy>(
    rows: Rows,
    hosts: &Hosts<A>,
    tallied: (Ip, Tally),
    text: &mut Vec<u8, A>,
) -> Result<(), Memory>
    ensures { OnOk result (text.new.items ≡ text.old.items ++ tally_json rows (hosts_in hosts.now) tallied) }
{
    text.extend_from_slice(b"{\"address\":\"")?;
    write_ip(tallied.0, text)?;
    write_numbers(rows, tallied.1, text)?;
    write_hosts(rows, hosts, tallied.0, text)?;
    text.extend_from_slice(b"}")?;
    Ok(())
}

// The hosts whose races tried an address.
fn write_hosts<A: Allocator + Copy>(
    rows: Rows,
    hosts: &Hosts<A>,
    ip: Ip,
    text: &mut Vec<u8, A>,
) -> Result<(), Memory>
    ensures { OnOk result (text.new.items ≡ text.old.items ++ hosts_json rows (hosts_in hosts.now ip)) }
{
    match rows {
        Rows::Addresses => {
            let names = hosts.names_at(*text.allocator(), ip)?;
            text.extend_from_slice(b",\"hosts\":")?;
            write_strings(&names, text)
        }
        Rows::Servers => Ok(()),
    }
}

fn write_strings<A: Allocator>(names: &[&[u8]], text: &mut Vec<u8, A>) -> Result<(), Memory>
    ensures { OnOk result (text.new.items ≡ text.old.items
        ++ strings_json (map (λ name. name.now) names.now)) }
{
    let Some((first, more)) = names.split_first() else {
        text.extend_from_slice(b"[]")?;
        return Ok(());
    };
    text.extend_from_slice(b"[")?;
    write_string(first, text)?;
    for name in more {
        text.extend_from_slice(b",")?;
        write_string(name, text)?;
    }
    text.extend_from_slice(b"]")?;
    Ok(())
}

fn write_numbers<A: Allocator + Copy>(
    rows: Rows,
    tally: Tally,
    text: &mut Vec<u8, A>,
) -> Result<(), Memory>
    ensures { OnOk result (text.new.items ≡ text.old.items ++ numbers_json rows tally) }
{
    match rows {
        Rows::Addresses => write_members(
            &[
                Member(b"\",\"attempts\":", tally.attempts),
                Member(b",\"failed\":", tally.failed),
                Member(b",\"no_answer\":", tally.no_answer),
                Member(b",\"lost_ms\":", tally.lost),
            ],
            text,
        ),
        Rows::Servers => write_members(
            &[
                Member(b"\",\"given_up\":", tally.attempts),
                Member(b",\"failed\":", tally.failed),
                Member(b",\"no_answer\":", tally.no_answer),
            ],
            text,
        ),
    }
}

// Appends what the record lines say.
fn write_record<A: Allocator + Copy>(
    totals: Totals,
    kept: &[Kept],
    text: &mut Vec<u8, A>,
) -> Result<(), Memory>
    ensures { OnOk result (text.new.items ≡ text.old.items ++ record_json totals kept.now) }
{
    write_clients(kept, text)?;
    write_spread(b"},\"client_ms\":", totals.clients, text)?;
    write_spread(b",\"rules_ms\":", totals.by_rules, text)?;
    write_all_lookups(kept, text)
}

fn write_clients<A: Allocator + Copy>(kept: &[Kept], text: &mut Vec<u8, A>) -> Result<(), Memory>
    ensures { OnOk result (text.new.items ≡ text.old.items ++ clients_json kept.now) }
{
    write_members(
        &[
            Member(
                b",\"clients\":{\"connected\":",
                count(kept, Kind::Connected),
            ),
            Member(b",\"gave_up\":", count(kept, Kind::GaveUp)),
            Member(b",\"failed\":", count(kept, Kind::Failed)),
        ],
        text,
    )
}

fn write_all_lookups<A: Allocator + Copy>(
    kept: &[Kept],
    text: &mut Vec<u8, A>,
) -> Result<(), Memory>
    ensures { OnOk result (text.new.items ≡ text.old.items ++ all_lookups_json kept.now) }
{
    text.extend_from_slice(b",\"lookups\":{\"aaaa\":")?;
    write_lookups(Family::V6, kept, text)?;
    text.extend_from_slice(b"},\"a\":")?;
    write_lookups(Family::V4, kept, text)?;
    text.extend_from_slice(b"}}")?;
    Ok(())
}

fn write_lookups<A: Allocator + Copy>(
    family: Family,
    kept: &[Kept],
    text: &mut Vec<u8, A>,
) -> Result<(), Memory>
    ensures { OnOk result (text.new.items ≡ text.old.items ++ lookups_json family kept.now) }
{
    write_members(
        &[
            Member(
                b"{\"no_such_name\":",
                lookups(family, LookupReason::NoSuchName, kept),
            ),
            Member(
                b",\"no_address\":",
                lookups(family, LookupReason::NoAddress, kept),
            ),
            Member(
                b",\"no_answer\":",
                lookups(family, LookupReason::NoAnswer, kept),
            ),
            Member(
                b",\"refused\":",
                lookups(family, LookupReason::Refused, kept),
            ),
            Member(b",\"failed\":", lookups(family, LookupReason::Failed, kept)),
            Member(
                b",\"malformed\":",
                lookups(family, LookupReason::Malformed, kept),
            ),
            Member(
                b",\"not_asked\":",
                lookups(family, LookupReason::NotAsked, kept),
            ),
            Member(b",\"nat64\":", lookups(family, LookupReason::Nat64, kept)),
        ],
        text,
    )
}

// The look-ups of a family that have no address for this reason.
fn lookups(family: Family, reason: LookupReason, kept: &[Kept]) -> u64
    ensures { result ≡ lookups_of family reason kept.now }
{
    count(kept, Kind::Lookup(family, reason))
}
