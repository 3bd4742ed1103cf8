// Prefixes, and the addresses that they embed.

ghost use Rattle.std.specs.Prelude.{◌≡◌, ◌+◌, ◌%◌, ◌==◌, ◌&&◌, ◌<◌, ◌↔◌, IsSome, IfSome, IsTrue};
ghost use Rattle.std.specs.Option.{option_map};
ghost use Rattle.he_nat64.specs.Embedding.{at_place, bits_of, free_of, is_kept, leading, length_of, placed, prefix_of};

use crate::length::Length;
use he_addr::Prefix;
use std::marker::Model;

/// A prefix by which a network's NAT64 has the IPv4 addresses (RFC 6052 section 2.2): its leading bits, all others
/// zero.
#[derive(Clone, Copy, Debug, PartialEq, Eq)]
pub struct Prefix64 {
    bits: u128,
    length: Length,
}

impl Model for Prefix64 {
    ghost use Rattle.std.specs.Prelude.{◌≡◌, ◌%◌};
    ghost use Rattle.he_nat64.specs.Embedding.{PrefixBits, free_of};

    ghost Value = { PrefixBits };

    ghost view = { λ p. record { bits = p.bits; length = p.length } };

    ghost invariant = { λ p. p.bits % free_of p.length ≡ 0 };

    ghost inverse = { λ b. record { bits = b.bits; length = b.length } };
}

impl Prefix64 {
    /// The prefix of this length with which the address begins.
    pub fn of(address: u128, length: Length) -> Prefix64
        ensures { result ≡ prefix_of length address }
    {
        Prefix64 {
            bits: lead(address, length),
            length,
        }
    }

    /// The prefix with the length and the bits of this one. None if no NAT64's prefix has this length.
    pub fn read(prefix: Prefix) -> Option<Prefix64>
        ensures { result ≡ option_map (λ length. prefix_of length prefix.bits) (length_of prefix.len) }
    {
        let length = Length::of(prefix.len())?;
        Some(Prefix64::of(prefix.bits(), length))
    }

    /// The prefix as one of addresses.
    pub fn prefix(self) -> Prefix
        ensures { result ≡ record { bits = self.bits; len = bits_of self.length } }
    {
        Prefix::new(self.bits, self.length.bits())
    }

    /// The bits, the first one the most significant, those after the prefix zero.
    pub fn bits(self) -> u128
        ensures bits { result ≡ self.bits }
        ensures clear { self.bits % free_of self.length ≡ 0 }
    {
        self.bits
    }

    /// The length.
    pub fn length(self) -> Length
        ensures { result ≡ self.length }
    {
        self.length
    }

    /// The IPv6 address of the IPv4 host.
    pub fn embed(self, v4: u32) -> u128
        ensures { result ≡ self.bits + placed self.length v4 }
    {
        self.bits + place(v4, self.length)
    }

    /// The IPv4 host of the IPv6 address. None if the address doesn't begin with the prefix, or the octet that is kept
    /// zero isn't zero.
    pub fn extract(self, address: u128) -> Option<u32>
        ensures found { IsSome result ↔ IsTrue (leading self.length address == self.bits
            && is_kept self.length address) }
        ensures value { IfSome result (λ v4. v4 ≡ at_place self.length address) }
    {
        if lead(address, self.length) == self.bits && is_kept(address, self.length) {
            Some(take(address, self.length))
        } else {
            None
        }
    }
}

fn lead(address: u128, length: Length) -> u128
    ensures bits { result ≡ leading length address }
    ensures clear { result % free_of length ≡ 0 }
{
    let free: u128 = match length {
        Length::Bits32 => 1 << 96,
        Length::Bits40 => 1 << 88,
        Length::Bits48 => 1 << 80,
        Length::Bits56 => 1 << 72,
        Length::Bits64 => 1 << 64,
        Length::Bits96 => 1 << 32,
    };
    address - address % free
}

fn place(v4: u32, length: Length) -> u128
    ensures place { result ≡ placed length v4 }
    ensures within { result < free_of length }
{
    let v4 = v4 as u128;
    match length {
        Length::Bits32 => v4 << 64,
        Length::Bits40 => ((v4 >> 8) << 64) + ((v4 % (1 << 8)) << 48),
        Length::Bits48 => ((v4 >> 16) << 64) + ((v4 % (1 << 16)) << 40),
        Length::Bits56 => ((v4 >> 24) << 64) + ((v4 % (1 << 24)) << 32),
        Length::Bits64 => v4 << 24,
        Length::Bits96 => v4,
    }
}

pub(crate) fn take(address: u128, length: Length) -> u32
    ensures { result ≡ at_place length address }
{
    let high = address >> 64;
    let bits = match length {
        Length::Bits32 => high % (1 << 32),
        Length::Bits40 => ((high % (1 << 24)) << 8) + (address >> 48) % (1 << 8),
        Length::Bits48 => ((high % (1 << 16)) << 16) + (address >> 40) % (1 << 16),
        Length::Bits56 => ((high % (1 << 8)) << 24) + (address >> 32) % (1 << 24),
        Length::Bits64 => (address >> 24) % (1 << 32),
        Length::Bits96 => address % (1 << 32),
    };
    bits as u32
}

pub(crate) fn is_kept(address: u128, length: Length) -> bool
    ensures { result ≡ is_kept length address }
{
    match length {
        Length::Bits96 => true,
        _ => (address >> 56) % (1 << 8) == 0,
    }
}
