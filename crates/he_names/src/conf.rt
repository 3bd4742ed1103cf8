//! The resolver configuration file.

ghost use Rattle.std.specs.Prelude.{◌≡◌, IfOk, codes, map};
ghost use Rattle.std.specs.Option.{option_map, option_to_list};
ghost use Rattle.he_names.specs.Fields.{texts};
ghost use Rattle.he_names.specs.Literals.{zoned_of};
ghost use Rattle.he_names.specs.Conf.{domains_of, entry_of, has_option, last_of, last_search, number_behind, numbers_behind, numbers_in, numbers_of, option_in, search_in, server_of, servers_in, sets};

use crate::fields::{fields, has_text, is_blank, is_text, lines};
use crate::limits::{
    DEFAULT_ATTEMPTS, DEFAULT_NDOTS, DEFAULT_TIMEOUT, LEAST_ATTEMPTS, LEAST_TIMEOUT, MOST_ATTEMPTS,
    MOST_DOMAINS, MOST_NDOTS, MOST_SERVERS, MOST_TIMEOUT,
};
use crate::literals::{ZonedIp, read_zoned};
use he_addr::{Ip, Memory, read_number};
use std::alloc::Allocator;

const OWN_SERVER: ZonedIp<'static> = ZonedIp {
    ip: Ip::V4(0x7f00_0001),
    zone: None,
};

/// The name servers of a resolver configuration file: the first three, or 127.0.0.1 if it has none. Invalid lines are
/// ignored. A link-local server has its interface as its zone.
///
/// # Errors
///
/// [`Memory`] if an allocation failed.
pub fn read_servers<'t, A: Allocator + Copy>(
    alloc: A,
    text: &'t [u8],
) -> Result<Vec<ZonedIp<'t>, A>, Memory>
    ensures { IfOk result (λ servers. map zoned_of servers.items ≡ servers_in text.now) }
{
    let lines = lines(alloc, text)?;
    let mut servers = Vec::new(alloc);
    for line in &lines {
        let entry = entry(alloc, line)?;
        if let Some(server) = server_of(entry.as_slice()) {
            servers.push(server)?;
        }
    }
    servers.truncate(MOST_SERVERS);
    if servers.is_empty() {
        servers.push(OWN_SERVER)?;
    }
    Ok(servers)
}

/// The search list of a resolver configuration file: the first 32 domains of the last `search` or `domain` line.
///
/// # Errors
///
/// [`Memory`] if an allocation failed.
pub fn read_search<'t, A: Allocator + Copy>(
    alloc: A,
    text: &'t [u8],
) -> Result<Vec<&'t [u8], A>, Memory>
    ensures { IfOk result (λ domains. texts domains.items ≡ search_in text.now) }
{
    let mut search = last_search(alloc, text)?;
    search.truncate(MOST_DOMAINS);
    Ok(search)
}

// The whole of the last search list.
fn last_search<'t, A: Allocator + Copy>(
    alloc: A,
    text: &'t [u8],
) -> Result<Vec<&'t [u8], A>, Memory>
    ensures { IfOk result (λ domains. texts domains.items ≡ last_search text.now) }
{
    let lines = lines(alloc, text)?;
    let mut search = Vec::new(alloc);
    for line in &lines {
        let entry = entry(alloc, line)?;
        let domains = domains_of(entry.as_slice());
        if !domains.is_empty() {
            search.clear();
            search.extend_from_slice(domains)?;
        }
    }
    Ok(search)
}

/// The number of dots from which on a name is first queried as it is (`ndots`), 0 to 15; 1 if the file doesn't set
/// it.
///
/// # Errors
///
/// [`Memory`] if an allocation failed.
pub fn read_ndots<A: Allocator + Copy>(alloc: A, text: &[u8]) -> Result<u64, Memory>
    ensures { IfOk result (λ ndots. ndots ≡ option_in (codes "ndots:") 0 1 15 text.now) }
{
    let ndots = last_option(alloc, text, b"ndots:", DEFAULT_NDOTS)?;
    Ok(ndots.min(MOST_NDOTS))
}

/// The time that a server has for its answer (`timeout`), in seconds, 1 to 30; 5 if the file doesn't set it.
///
/// # Errors
///
/// [`Memory`] if an allocation failed.
pub fn read_timeout<A: Allocator + Copy>(alloc: A, text: &[u8]) -> Result<u64, Memory>
    ensures { IfOk result (λ seconds. seconds ≡ option_in (codes "timeout:") 1 5 30 text.now) }
{
    let seconds = last_option(alloc, text, b"timeout:", DEFAULT_TIMEOUT)?;
    Ok(seconds.min(MOST_TIMEOUT).max(LEAST_TIMEOUT))
}

/// The number of rounds through the servers (`attempts`), 1 to 5; 2 if the file doesn't set it.
///
/// # Errors
///
/// [`Memory`] if an allocation failed.
pub fn read_attempts<A: Allocator + Copy>(alloc: A, text: &[u8]) -> Result<u64, Memory>
    ensures { IfOk result (λ attempts. attempts ≡ option_in (codes "attempts:") 1 2 5 text.now) }
{
    let attempts = last_option(alloc, text, b"attempts:", DEFAULT_ATTEMPTS)?;
    Ok(attempts.min(MOST_ATTEMPTS).max(LEAST_ATTEMPTS))
}

/// Whether the servers are queried over TCP only (`use-vc`).
///
/// # Errors
///
/// [`Memory`] if an allocation failed.
pub fn read_use_vc<A: Allocator + Copy>(alloc: A, text: &[u8]) -> Result<bool, Memory>
    ensures { IfOk result (λ set. set ≡ has_option (codes "use-vc") text.now) }
{
    has_option(alloc, text, b"use-vc")
}

/// Whether name servers are not queried for IPv6 addresses (`no-aaaa`).
///
/// # Errors
///
/// [`Memory`] if an allocation failed.
pub fn read_no_aaaa<A: Allocator + Copy>(alloc: A, text: &[u8]) -> Result<bool, Memory>
    ensures { IfOk result (λ set. set ≡ has_option (codes "no-aaaa") text.now) }
{
    has_option(alloc, text, b"no-aaaa")
}

// Whether the file sets the option.
fn has_option<A: Allocator + Copy>(alloc: A, text: &[u8], name: &[u8]) -> Result<bool, Memory>
    ensures { IfOk result (λ has. has ≡ has_option name.now text.now) }
{
    let lines = lines(alloc, text)?;
    let mut has = false;
    for line in &lines {
        let entry = entry(alloc, line)?;
        has = has || sets(entry.as_slice(), name);
    }
    Ok(has)
}

fn sets(entry: &[&[u8]], name: &[u8]) -> bool
    ensures { result ≡ sets name.now (texts entry.now) }
{
    match entry {
        [keyword, options @ ..] => is_text(keyword, b"options") && has_text(options, name),
        [] => false,
    }
}

// The last number that the file gives for the option.
fn last_option<A: Allocator + Copy>(
    alloc: A,
    text: &[u8],
    name: &[u8],
    default: u64,
) -> Result<u64, Memory>
    ensures { IfOk result (λ number. number ≡ last_of default (numbers_in name.now text.now)) }
{
    let lines = lines(alloc, text)?;
    let mut number = default;
    for line in &lines {
        let entry = entry(alloc, line)?;
        number = last_number(entry.as_slice(), name, number);
    }
    Ok(number)
}

// The fields of a line; none if it begins with a blank.
#[tactic(auto, unfolding(crate::specs::Conf::entry_of))]
fn entry<A: Allocator>(alloc: A, line: &[u8]) -> Result<Vec<&[u8], A>, Memory>
    ensures { IfOk result (λ entry. texts entry.items ≡ entry_of line.now) }
{
    match line {
        [] => Ok(Vec::new(alloc)),
        [byte, ..] if is_blank(*byte) => Ok(Vec::new(alloc)),
        _ => fields(alloc, line),
    }
}

fn server_of<'t>(entry: &[&'t [u8]]) -> Option<ZonedIp<'t>>
    ensures { option_map zoned_of result ≡ server_of (texts entry.now) }
{
    match entry {
        [keyword, address, ..] => {
            if is_text(keyword, b"nameserver") {
                read_zoned(address)
            } else {
                None
            }
        }
        _ => None,
    }
}

fn domains_of<'e, 't>(entry: &'e [&'t [u8]]) -> &'e [&'t [u8]]
    ensures { texts result.now ≡ domains_of (texts entry.now) }
{
    match entry {
        [keyword, _, ..] => {
            if is_text(keyword, b"search") {
                &entry[1..]
            } else if is_text(keyword, b"domain") {
                &entry[1..2]
            } else {
                &[]
            }
        }
        _ => &[],
    }
}

// The last number that an `options` entry gives for the name, or else `before`.
fn last_number(entry: &[&[u8]], name: &[u8], before: u64) -> u64
    ensures { result ≡ last_of before (numbers_of name.now (texts entry.now)) }
{
    match entry {
        [keyword, options @ ..] if is_text(keyword, b"options") => {
            last_behind(options, name, before)
        }
        _ => before,
    }
}

fn last_behind(options: &[&[u8]], name: &[u8], before: u64) -> u64
    ensures { result ≡ last_of before (numbers_behind name.now (texts options.now)) }
{
    let mut last = before;
    for option in options {
        last = later(number_behind(option, name), last);
    }
    last
}

fn later(number: Option<u64>, before: u64) -> u64
    ensures { result ≡ last_of before (option_to_list number) }
{
    match number {
        Some(number) => number,
        None => before,
    }
}

fn number_behind(option: &[u8], name: &[u8]) -> Option<u64>
    ensures { result ≡ number_behind name.now option.now }
{
    read_number(option.strip_prefix(name)?)
}
