// Addresses: family, number, scope, and whether a client can connect to one.

ghost use Rattle.std.specs.Prelude.{◌≡◌};
ghost use Rattle.he_addr.specs.Ip.{family_of, mapped_of, scope_of, is_usable, InRange};

/// The scope of link-local and loopback addresses (RFC 6724 section 3.1).
pub const LINK_LOCAL_SCOPE: u8 = 2;

/// The scope of site-local addresses.
pub const SITE_LOCAL_SCOPE: u8 = 5;

/// The scope of every other unicast address.
pub const GLOBAL_SCOPE: u8 = 14;

// The upper 96 bits of an IPv4-mapped address, `::ffff:0:0/96`.
pub(crate) const MAPPED: u128 = 0xffff;

/// An address family.
#[derive(Clone, Copy, Debug, PartialEq, Eq)]
pub enum Family {
    V4,
    V6,
}

/// An IPv4 or IPv6 address. `::ffff:192.0.2.1` is an IPv6 address and differs from `192.0.2.1`.
#[derive(Clone, Copy, Debug, PartialEq, Eq, PartialOrd, Ord, Hash)]
pub enum Ip {
    V4(u32),
    V6(u128),
}

impl Ip {
    /// The IPv4 address with this number, its first byte the most significant.
    pub fn v4(number: u32) -> Ip
        ensures { result ≡ Ip.V4 number }
    {
        Self::V4(number)
    }

    /// The IPv6 address with this number, its first byte the most significant.
    pub fn v6(number: u128) -> Ip
        ensures { result ≡ Ip.V6 number }
    {
        Self::V6(number)
    }

    /// The address's family.
    pub fn family(self) -> Family
        ensures { result ≡ family_of self }
    {
        match self {
            Ip::V4(_) => Family::V4,
            Ip::V6(_) => Family::V6,
        }
    }

    /// The address as an IPv6 number; an IPv4 address as its IPv4-mapped one (RFC 4291 section 2.5.5.2).
    pub fn mapped(self) -> u128
        ensures { result ≡ mapped_of self }
    {
        match self {
            Ip::V4(number) => (MAPPED << 32) + number as u128,
            Ip::V6(number) => number,
        }
    }

    /// The scope (RFC 6724 section 3): 2 for `fe80::/10`, `::1`, `169.254.0.0/16` and `127.0.0.0/8`, 5 for
    /// `fec0::/10`, 14 for every other address.
    pub fn scope(self) -> u8
        ensures { result ≡ scope_of self }
    {
        match self {
            Ip::V4(number) if number >> 24 == 0x7f || number >> 16 == 0xa9fe => LINK_LOCAL_SCOPE,
            Ip::V6(number) if number == 1 || number >> 118 == 0xfe80 >> 6 => LINK_LOCAL_SCOPE,
            Ip::V6(number) if number >> 118 == 0xfec0 >> 6 => SITE_LOCAL_SCOPE,
            _ => GLOBAL_SCOPE,
        }
    }

    /// Whether a client can connect to the address: it is not the unspecified address, not multicast (`224.0.0.0/4`,
    /// `ff00::/8`) and not an IPv6 address in `::ffff:0:0/96`.
    pub fn is_usable(self) -> bool
        ensures usable { result ≡ is_usable self }
        ensures range { InRange self }
    {
        match self {
            Ip::V4(number) => number != 0 && number >> 28 != 0xe,
            Ip::V6(number) => number != 0 && number >> 120 != 0xff && number >> 32 != MAPPED,
        }
    }
}
