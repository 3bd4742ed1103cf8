// The chain of aliases from a name to the host's canonical name.

ghost use Rattle.std.specs.Prelude.{◌≡◌, ◌≤◌, IfOk, OnErr, MatchResult, Ok, Err};
ghost use Rattle.std.specs.Option.{option_map};
ghost use Rattle.std.specs.Result.{IfErr};
ghost use Rattle.he_dns.specs.declared.fault.AnswerFault.TheVariants as faults;
ghost use Rattle.he_dns.specs.Chains.{address_for, addresses_of, alias_of, target_for};
ghost use Rattle.he_dns.specs.Reading.{address_ttl, addresses_ttl, chain_end, chain_ttl, lesser};
ghost use Rattle.he_dns.specs.Ttls.{alias_ttl};

use crate::entries::{Content, Entry};
use crate::fault::AnswerFault;
use crate::limits::MAX_ALIASES;
use crate::question::is_same;
use he_addr::Ip;
use std::alloc::Allocator;

// The maximum number of names of a chain: one more than its aliases.
const MAX_NAMES: usize = MAX_ALIASES + 1;

// The name that this one is an alias of, if the entry states that.
fn target_for<'e>(name: &[u8], entry: &'e Entry) -> Option<&'e [u8]>
    ensures { option_map (λ target. target.now) result ≡ target_for name.now entry.now }
{
    match &entry.content {
        Content::Alias(target) if is_same(entry.owner.as_slice(), name) => Some(target.as_slice()),
        _ => None,
    }
}

// The entry's address, if it is one of this name.
fn address_for(name: &[u8], entry: &Entry) -> Option<Ip>
    ensures { result ≡ address_for name.now entry.now }
{
    match &entry.content {
        Content::Address(ip) if is_same(entry.owner.as_slice(), name) => Some(*ip),
        _ => None,
    }
}

// The name that this one is an alias of, by the first such record, and the TTL of that record.
fn alias_of<'e>(entries: &'e [Entry], name: &[u8]) -> Option<(&'e [u8], u32)>
    ensures target { option_map (λ alias. alias.0.now) result ≡ alias_of entries.now name.now }
    ensures ttl { option_map (λ alias. alias.1) result ≡ alias_ttl entries.now name.now }
{
    for entry in entries {
        if let Some(target) = target_for(name, entry) {
            return Some((target, entry.ttl));
        }
    }
    None
}

// The name at the end of the chain, and the least TTL of the aliases that lead to it, if there are any.
pub(crate) fn chain_end<'e>(
    entries: &'e [Entry],
    name: &'e [u8],
) -> Result<(&'e [u8], Option<u32>), AnswerFault>
    ensures host { MatchResult result (λ end. chain_end 17 entries.now name.now
        ≡ Ok end.0.now) (λ fault. chain_end 17 entries.now name.now ≡ Err fault) }
    ensures ttl { IfOk result (λ end. end.1 ≡ chain_ttl 17 entries.now name.now) }
{
    let mut current = name;
    let mut least = None;
    'names: for passed in 0..MAX_NAMES {
        match alias_of(entries, current) {
            Some((target, ttl)) => {
                current = target;
                least = lesser(least, Some(ttl));
            }
            None => return Ok((current, least)),
        }
    }
    Err(AnswerFault::ChainTooLong)
}

// The lesser of two TTLs, or the only one.
pub(crate) fn lesser(ttl: Option<u32>, other: Option<u32>) -> Option<u32>
    ensures { result ≡ lesser ttl other }
{
    match (ttl, other) {
        (Some(ttl), Some(other)) => Some(ttl.min(other)),
        _ => ttl.or(other),
    }
}

// The least TTL of the addresses of a name, if it has any.
pub(crate) fn addresses_ttl(entries: &[Entry], name: &[u8]) -> Option<u32>
    ensures { result ≡ addresses_ttl entries.now name.now }
{
    let mut least = None;
    for entry in entries {
        least = lesser(least, address_ttl(name, entry));
    }
    least
}

// The entry's TTL, if it has an address of this name.
fn address_ttl(name: &[u8], entry: &Entry) -> Option<u32>
    ensures { result ≡ address_ttl name.now entry.now }
{
    match address_for(name, entry) {
        Some(_) => Some(entry.ttl),
        None => None,
    }
}

// The addresses of a name, in the order of their records.
pub(crate) fn addresses_of<A: Allocator + Copy>(
    alloc: A,
    entries: &[Entry],
    name: &[u8],
) -> Result<Vec<Ip, A>, AnswerFault>
    ensures ok { IfOk result (λ found. found.items ≡ addresses_of entries.now name.now) }
    ensures err { IfErr result (λ fault. fault ≡ faults.Memory) }
{
    let mut addresses = Vec::new(alloc);
    for entry in entries {
        if let Some(ip) = address_for(name, entry) {
            addresses.push(ip)?;
        }
    }
    Ok(addresses)
}
