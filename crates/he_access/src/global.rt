//! Whether the registries list an address as globally reachable.
ghost use Rattle.std.specs.Prelude.{◌≡◌};
ghost use Rattle.he_access.specs.Registries.{Says, judged, rows};
ghost use Rattle.he_addr.specs.Ip.{mapped_of};

use crate::table::{TABLE, first_says};
use he_addr::Ip;

// The first address of ::ffff:0:0/96 (RFC 4291 section 2.5.5.2).
pub(crate) const MAPPED: u128 = 0xffff_0000_0000;

// The upper 96 bits of 64:ff9b::/96 (RFC 6052 section 2.1).
const NAT64: u128 = 0x0064_ff9b_0000_0000_0000_0000;

// The first 16 bits of 2002::/16 (RFC 3056 section 2).
const SIX_TO_FOUR: u128 = 0x2002;

/// Whether the registries list the address as globally reachable. An IPv6 address with an embedded IPv4 address, in
/// `::/96`, `::ffff:0:0/96`, `64:ff9b::/96` or `2002::/16`, is judged as that IPv4 address.
pub fn is_global(ip: Ip) -> bool
    ensures { Says rows (judged (mapped_of ip)) result }
{
    first_says(&TABLE, judged(ip.mapped()))
}

// The number by which an address is judged.
pub(crate) fn judged(number: u128) -> u128
    ensures { result ≡ judged number }
{
    if number < 1 << 32 {
        MAPPED + number
    } else if number >> 32 == NAT64 {
        MAPPED + number % (1 << 32)
    } else if number >> 112 == SIX_TO_FOUR {
        MAPPED + (number >> 80) % (1 << 32)
    } else {
        number
    }
}
