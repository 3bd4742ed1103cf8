//! IPv4 hosts, embedded by the prefixes of a network's NAT64 (RFC 8305 section 7.1).
ghost use Rattle.std.specs.Prelude.{◌≡◌, IfOk, map};
ghost use Rattle.std.specs.List.{filter_map};
ghost use Rattle.he_addr.specs.declared.ip.Ip.TheVariants.{V6};
ghost use Rattle.he_nat64.specs.Discovery.{discovered};
ghost use Rattle.he_nat64.specs.Synthesis.{synthesized};
ghost use Rattle.he_setup.specs.Embedding.{v4_number, v6_number};

use he_addr::Ip;
use he_nat64::{Prefix64, discover, synthesize};
use he_settings::NamesFault;
use std::alloc::Global;

/// The name that shows the prefixes (RFC 7050 section 3). The final dot leaves out the search list.
pub const KNOWN_HOST: &str = "ipv4only.arpa.";

/// The prefixes that these addresses of `ipv4only.arpa.` show.
///
/// # Errors
///
/// `Memory`.
pub fn prefixes_of(alloc: Global, ips: &[Ip]) -> Result<Vec<Prefix64>, NamesFault>
    ensures { IfOk result (λ prefixes. prefixes.items ≡ discovered (filter_map v6_number ips.now)) }
{
    let numbers = v6_numbers(alloc, ips)?;
    match discover(alloc, &numbers) {
        Ok(prefixes) => Ok(prefixes),
        Err(_) => Err(NamesFault::Memory),
    }
}

/// The hosts, embedded by the prefixes.
///
/// # Errors
///
/// `Memory`.
pub fn embed_by(alloc: Global, prefixes: &[Prefix64], hosts: &[u32]) -> Result<Vec<Ip>, NamesFault>
    ensures { IfOk result (λ ips. ips.items ≡ map (λ n. V6 n) (synthesized prefixes.now hosts.now)) }
{
    match synthesize(alloc, prefixes, hosts) {
        Ok(addresses) => ips_of(alloc, &addresses),
        Err(_) => Err(NamesFault::Memory),
    }
}

fn ips_of(alloc: Global, addresses: &[u128]) -> Result<Vec<Ip>, NamesFault>
    ensures { IfOk result (λ ips. ips.items ≡ map (λ n. V6 n) addresses.now) }
{
    match addresses
        .iter()
        .map(|number| Ip::V6(*number))
        .collect(alloc)
    {
        Ok(ips) => Ok(ips),
        Err(_) => Err(NamesFault::Memory),
    }
}

fn v6_numbers(alloc: Global, ips: &[Ip]) -> Result<Vec<u128>, NamesFault>
    ensures { IfOk result (λ numbers. numbers.items ≡ filter_map v6_number ips.now) }
{
    match ips.iter().filter_map(|ip| v6_number(*ip)).collect(alloc) {
        Ok(numbers) => Ok(numbers),
        Err(_) => Err(NamesFault::Memory),
    }
}

fn v6_number(ip: Ip) -> Option<u128>
    ensures { result ≡ v6_number ip }
{
    match ip {
        Ip::V6(number) => Some(number),
        Ip::V4(_) => None,
    }
}

/// The numbers of the IPv4 addresses.
///
/// # Errors
///
/// `Memory`.
pub fn v4_numbers(alloc: Global, ips: &[Ip]) -> Result<Vec<u32>, NamesFault>
    ensures { IfOk result (λ numbers. numbers.items ≡ filter_map v4_number ips.now) }
{
    match ips.iter().filter_map(|ip| v4_number(*ip)).collect(alloc) {
        Ok(numbers) => Ok(numbers),
        Err(_) => Err(NamesFault::Memory),
    }
}

fn v4_number(ip: Ip) -> Option<u32>
    ensures { result ≡ v4_number ip }
{
    match ip {
        Ip::V4(number) => Some(number),
        Ip::V6(_) => None,
    }
}
