// The addresses that a client synthesizes for IPv4 hosts.

ghost use Rattle.std.specs.Prelude.{◌≡◌, IfOk};
ghost use Rattle.std.specs.List.{filter_map};
ghost use Rattle.he_nat64.specs.Synthesis.{is_never_embedded, is_private, is_well_known, may_embed, synthesized, synthesized_one};

use crate::prefix::Prefix64;
use std::alloc::{AllocError, Global};

// 64:ff9b:: (RFC 6052 section 2.1).
const WELL_KNOWN: u128 = 0x64_ff9b << 96;

const BROADCAST: u32 = u32::MAX;

/// Whether a client may synthesize the address of the host by the prefix. It may not for `0.0.0.0/8`, loopback,
/// link-local and multicast addresses and the broadcast address; nor, by `64:ff9b::/96`, for the private addresses of
/// RFC 1918 (RFC 6052 section 3.1).
pub fn may_embed(prefix: Prefix64, v4: u32) -> bool
    ensures { result ≡ may_embed prefix v4 }
{
    !is_never_embedded(v4) && !(is_well_known(prefix) && is_private(v4))
}

/// The addresses of the IPv4 hosts by the prefixes, as far as [`may_embed`] allows (RFC 8305 section 7.1): all hosts
/// by the first prefix, then all by the next.
///
/// # Errors
///
/// `AllocError` if an allocation failed.
pub fn synthesize(
    alloc: Global,
    prefixes: &[Prefix64],
    hosts: &[u32],
) -> Result<Vec<u128>, AllocError>
    ensures { IfOk result (λ addresses. addresses.items ≡ synthesized prefixes.now hosts.now) }
{
    let mut addresses = Vec::new(alloc);
    for prefix in prefixes {
        let more = synthesize_by(alloc, *prefix, hosts)?;
        addresses.extend_from_slice(&more)?;
    }
    Ok(addresses)
}

fn synthesize_by(alloc: Global, prefix: Prefix64, hosts: &[u32]) -> Result<Vec<u128>, AllocError>
    ensures { IfOk result (λ addresses. addresses.items ≡ filter_map (synthesized_one prefix) hosts.now) }
{
    hosts
        .iter()
        .filter_map(|v4| synthesize_one(prefix, *v4))
        .collect(alloc)
}

fn synthesize_one(prefix: Prefix64, v4: u32) -> Option<u128>
    ensures { result ≡ synthesized_one prefix v4 }
{
    if may_embed(prefix, v4) {
        Some(prefix.embed(v4))
    } else {
        None
    }
}

fn is_never_embedded(v4: u32) -> bool
    ensures { result ≡ is_never_embedded v4 }
{
    v4 >> 24 == 0 || v4 >> 24 == 127 || v4 >> 16 == 0xa9fe || v4 >> 28 == 14 || v4 == BROADCAST
}

fn is_private(v4: u32) -> bool
    ensures { result ≡ is_private v4 }
{
    v4 >> 24 == 10 || v4 >> 20 == 0xac1 || v4 >> 16 == 0xc0a8
}

fn is_well_known(prefix: Prefix64) -> bool
    ensures { result ≡ is_well_known prefix }
{
    prefix.bits() == WELL_KNOWN && prefix.length().bits() == 96
}
