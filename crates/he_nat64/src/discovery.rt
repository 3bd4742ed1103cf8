// The prefixes of a network, found in the addresses that its name server has for a name without IPv6 addresses.

ghost use Rattle.std.specs.Prelude.{◌≡◌, ◌≤◌, IfOk};
ghost use Rattle.he_nat64.specs.Discovery.{counted, discovered, ends_in, instances, is_repeated, known_of, length_before, shown, shows_none, is_embedded};

use crate::length::Length;
use crate::prefix::{Prefix64, is_kept, take};
use std::alloc::{AllocError, Global};

/// The name to ask for. It has only IPv4 addresses, so the network made each IPv6 address of it.
pub const KNOWN_NAME: &str = "ipv4only.arpa";

/// The first address of [`KNOWN_NAME`], 192.0.0.170.
pub const FIRST_KNOWN: u32 = 0xc000_00aa;

/// The second one, 192.0.0.171.
pub const SECOND_KNOWN: u32 = 0xc000_00ab;

// The number of octets of an address at which the four of an IPv4 address can end, one after another.
const ENDS: u32 = 13;

/// The prefixes that the IPv6 addresses of [`KNOWN_NAME`] show (RFC 7050 section 3), in their order. An address shows
/// a prefix if it has the first known IPv4 address once, embedded by this prefix. If an address has that one twice, or
/// no address shows a prefix by it, the second known address is looked for in all of them.
///
/// # Errors
///
/// `AllocError` if an allocation failed.
pub fn discover(alloc: Global, addresses: &[u128]) -> Result<Vec<Prefix64>, AllocError>
    ensures { IfOk result (λ found. found.items ≡ discovered addresses.now) }
{
    let known = known_of(addresses);
    addresses
        .iter()
        .filter_map(|address| shown(known, *address))
        .collect(alloc)
}

// The known address that is looked for.
fn known_of(addresses: &[u128]) -> u32
    ensures { result ≡ known_of addresses.now }
{
    if is_repeated(addresses) || shows_none(addresses) {
        SECOND_KNOWN
    } else {
        FIRST_KNOWN
    }
}

// Whether an address has the first one twice, so that its place is ambiguous.
fn is_repeated(addresses: &[u128]) -> bool
    ensures { result ≡ is_repeated addresses.now }
{
    addresses
        .iter()
        .any(|address| instances(FIRST_KNOWN, *address) > 1)
}

fn shows_none(addresses: &[u128]) -> bool
    ensures { result ≡ shows_none addresses.now }
{
    addresses
        .iter()
        .all(|address| shown(FIRST_KNOWN, *address).is_none())
}

// The prefix that the address shows.
fn shown(v4: u32, address: u128) -> Option<Prefix64>
    ensures { result ≡ shown v4 address }
{
    if instances(v4, address) != 1 {
        return None;
    }
    let length = length_before(v4, address)?;
    Some(Prefix64::of(address, length))
}

// The number of places at which the address has the IPv4 address.
fn instances(v4: u32, address: u128) -> u32
    ensures { result ≡ instances v4 address }
{
    count_ends(v4, address)
        + counted(is_embedded(v4, address, Length::Bits40))
        + counted(is_embedded(v4, address, Length::Bits48))
        + counted(is_embedded(v4, address, Length::Bits56))
}

fn counted(is_one: bool) -> u32
    ensures one { result ≡ counted is_one }
    ensures few { result ≤ 1 }
{
    if is_one { 1 } else { 0 }
}

#[tactic(auto, unfolding(crate::specs::Discovery::ends_in))]
fn count_ends(v4: u32, address: u128) -> u32
    ensures count { result ≡ ends_in v4 address 13 }
    ensures few { result ≤ 13 }
{
    let mut count = 0;
    for octet in 0..ENDS {
        if (address >> (8 * octet)) % (1 << 32) == v4 as u128 {
            count += 1;
        }
    }
    count
}

fn length_before(v4: u32, address: u128) -> Option<Length>
    ensures { result ≡ length_before v4 address }
{
    if is_embedded(v4, address, Length::Bits32) {
        Some(Length::Bits32)
    } else if is_embedded(v4, address, Length::Bits40) {
        Some(Length::Bits40)
    } else if is_embedded(v4, address, Length::Bits48) {
        Some(Length::Bits48)
    } else if is_embedded(v4, address, Length::Bits56) {
        Some(Length::Bits56)
    } else if is_embedded(v4, address, Length::Bits64) {
        Some(Length::Bits64)
    } else if is_embedded(v4, address, Length::Bits96) {
        Some(Length::Bits96)
    } else {
        None
    }
}

// Whether the IPv4 address is embedded by a prefix of the length.
fn is_embedded(v4: u32, address: u128, length: Length) -> bool
    ensures { result ≡ is_embedded v4 address length }
{
    is_kept(address, length) && take(address, length) == v4
}
