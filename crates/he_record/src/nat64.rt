// Prefixes of record lines.

ghost use Rattle.std.specs.Prelude.{◌≡◌};
ghost use Rattle.he_addr.specs.Reading.{checked};
ghost use Rattle.he_record.specs.Left.{parts_of};
ghost use Rattle.he_record.specs.Said.{is_nat64, is_nat64_length};

use he_addr::Prefix;

/// The parts of a prefix by which a network's NAT64 has the IPv4 addresses (RFC 6052): the first `len` bits of an IPv6
/// number.
#[derive(Clone, Copy, Debug, PartialEq, Eq)]
pub struct Nat64Prefix {
    pub bits: u128,
    pub len: u8,
}

impl Nat64Prefix {
    /// The parts of this prefix.
    pub fn of(prefix: Prefix) -> Nat64Prefix
        ensures { parts_of result ≡ prefix }
    {
        Nat64Prefix {
            bits: prefix.bits(),
            len: prefix.len(),
        }
    }

    /// The prefix with these parts. None if the length is above 128 or a bit past the length is set.
    pub fn prefix(self) -> Option<Prefix>
        ensures { result ≡ checked (parts_of self) }
    {
        Prefix::try_new(self.bits, self.len)
    }

    /// Whether a NAT64 may have the IPv4 addresses by this prefix (RFC 6052 section 2.2): it has 32, 40, 48, 56, 64 or
    /// 96 bits, no bit past its length is set, and it is not inside `::ffff:0:0/96`.
    pub fn is_nat64(self) -> bool
        ensures { result ≡ is_nat64 (parts_of self) }
    {
        match self.prefix() {
            Some(prefix) => is_nat64_length(prefix.len()) && !prefix.is_v4(),
            None => false,
        }
    }
}

fn is_nat64_length(len: u8) -> bool
    ensures { result ≡ is_nat64_length len }
{
    len == 32 || len == 40 || len == 48 || len == 56 || len == 64 || len == 96
}
