// The common part of two addresses.

ghost use Rattle.std.specs.Prelude.{◌≡◌, ℕ, ◌≤◌, min};
ghost use Rattle.he_addr.specs.Bits.{IsCommon, GreatestIsGreatest};
ghost use Rattle.he_addr.specs.Prefix.{common_of, width_of};

use crate::ip::Ip;

/// The common prefix length of a source and a destination (RFC 6724 section 2.2), in bits: the number of leading bits
/// that the two share, at most the source's prefix length. 0 if the addresses are of two families.
pub fn common_len(source: Ip, prefix_len: u8, destination: Ip) -> u8
    requires length { prefix_len ≤ width_of source }
    ensures { result ≡ common_of source prefix_len destination }
{
    match (source, destination) {
        (Ip::V4(s), Ip::V4(d)) => common_v4(s, d).min(prefix_len),
        (Ip::V6(s), Ip::V6(d)) => common_v6(s, d).min(prefix_len),
        _ => 0,
    }
}

fn common_v4(a: u32, b: u32) -> u8
    ensures { IsCommon 32 a b result }
{
    (a ^ b).leading_zeros() as u8
}

fn common_v6(a: u128, b: u128) -> u8
    ensures { IsCommon 128 a b result }
{
    (a ^ b).leading_zeros() as u8
}

/// The law of [`common_len`]: the number that its definition calls the greatest is at most the bound and qualifies,
/// and no greater number within the bound qualifies. Runs nothing.
pub fn greatest_is_greatest()
    ensures { GreatestIsGreatest }
{}
