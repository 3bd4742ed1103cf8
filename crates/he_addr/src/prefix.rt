// Address prefixes.

ghost use Rattle.std.specs.Prelude.{◌≡◌, ◌-◌, ◌%◌, ◌^◌, ◌≤◌, ◌==◌, IfSome, IfNone};
ghost use Rattle.he_addr.specs.Bits.{agrees};
ghost use Rattle.he_addr.specs.Ip.{family_of, is_v6};
ghost use Rattle.he_addr.specs.Prefix.{PrefixBits, IsPrefix, contains, is_inside_mapped};

use crate::ip::{Ip, MAPPED};
use std::marker::Model;

/// The number of bits of an IPv6 address.
pub const V6_BITS: u8 = 128;

/// The number of bits of an IPv4 address.
pub const V4_BITS: u8 = 32;

/// The length of `::ffff:0:0/96`, the prefix of the IPv4-mapped addresses.
pub const MAPPED_LEN: u8 = V6_BITS - V4_BITS;

/// An address prefix: the first `len` bits of an IPv6 number; the bits past them are zero. An IPv4 prefix of length n
/// is the mapped prefix of length 96 + n, so `0.0.0.0/0` and `::ffff:0:0/96` are one prefix.
#[derive(Clone, Copy)]
#[derive_where(Debug, PartialEq, Eq)]
pub struct Prefix {
    bits: u128,
    len: u8,

    // The last number that begins with the prefix. Two comparisons with the bounds test an address, which costs less
    // than shifts.
    #[derive_where(skip)]
    last: u128,
}

impl Model for Prefix {
    ghost use Rattle.std.specs.Prelude.{◌≡◌};
    ghost use Rattle.std.proofs.Common.{ap, sym};
    ghost use Rattle.he_addr.specs.Prefix.{PrefixBits, IsPrefix, last_of};

    ghost Value = { PrefixBits };

    ghost view = { λ p. record { bits = p.bits; len = p.len } };

    ghost invariant = { λ p. IsPrefix p.bits p.len × (p.last ≡ last_of p.bits p.len) };

    ghost inverse = { λ b. record { bits = b.bits; len = b.len; last = last_of b.bits b.len } };

    ghost inverse_ok = { λ a h. ap (λ l. record { bits = a.bits; len = a.len; last = l }) (sym h.1) };
}

impl Prefix {
    ghost use Rattle.he_addr.specs.Reading.{checked};

    /// The prefix of the first `len` bits of `bits`; the other bits must be zero.
    pub fn new(bits: u128, len: u8) -> Prefix
        requires { IsPrefix bits len }
        ensures { result ≡ record { bits = bits; len = len } }
    {
        Self {
            bits,
            len,
            last: bits + free_ones(len),
        }
    }

    /// The prefix of the first `len` bits of `bits`. None if `len` is above 128 or a bit past the length is set.
    pub fn try_new(bits: u128, len: u8) -> Option<Prefix>
        ensures value { result ≡ checked (record { bits = bits; len = len }) }
        ensures found { IfSome result (λ prefix. (prefix.bits ≡ bits) × (prefix.len ≡ len) × IsPrefix bits len) }
        ensures none { IfNone result (IsPrefix bits len → ⊥) }
    {
        if len > V6_BITS || !is_clear(bits, len) {
            return None;
        }
        Some(Prefix::new(bits, len))
    }

    /// The bits of the prefix, the first one the most significant.
    pub fn bits(self) -> u128
        ensures { result ≡ self.bits }
    {
        self.bits
    }

    /// The length of the prefix in bits, at most 128.
    pub fn len(self) -> u8
        ensures length { result ≡ self.len }
        ensures prefix { IsPrefix self.bits self.len }
    {
        self.len
    }

    /// Whether the address begins with this prefix; an IPv4 address counts as its mapped one.
    pub fn contains(self, ip: Ip) -> bool
        ensures { result ≡ contains self ip }
    {
        self.begins(ip.mapped())
    }

    /// Whether the number of an address ([`Ip::mapped`]) begins with this prefix. To test one address against many
    /// prefixes, compute its number once.
    #[tactic(auto, using(crate::proofs::Between::before_first))]
    pub fn begins(self, number: u128) -> bool
        ensures { result ≡ agrees 128 number self.bits self.len }
    {
        number >= self.bits && number <= self.last
    }

    /// Whether the prefix is inside `::ffff:0:0/96`, so that it contains only IPv4 addresses.
    pub fn is_v4(self) -> bool
        ensures { result ≡ is_inside_mapped self }
    {
        MAPPED_LEN <= self.len && self.bits >> V4_BITS == MAPPED
    }
}

// The number whose bits past the length are all set.
fn free_ones(len: u8) -> u128
    requires { len ≤ V6_BITS }
    ensures { result ≡ 2 ^ (128 - len) - 1 }
{
    if len == 0 {
        u128::MAX
    } else {
        (1 << (V6_BITS - len)) - 1
    }
}

// Whether no bit past the length is set.
fn is_clear(bits: u128, len: u8) -> bool
    requires { len ≤ V6_BITS }
    ensures { result ≡ (bits % 2 ^ (128 - len) == 0) }
{
    let free = V6_BITS - len;
    bits == 0 || (free < V6_BITS && bits % (1 << free) == 0)
}
