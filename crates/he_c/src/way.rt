// How a destination is reached, as numbers.

ghost use Rattle.std.specs.Prelude.{◌≡◌};
ghost use Rattle.he_addr.specs.Ip.{mapped_of};
ghost use Rattle.he_c.specs.Lines.{route_of, source_of};

use crate::addresses::address_of;
use he_addr::prefix::V6_BITS;
use he_addr::{Ip, Prefix};
use he_select::{Route, Source};

/// How the machine reaches a destination: `struct he_way` of `he.h`.
#[repr(C)]
#[derive(Clone, Copy)]
pub struct WayNumbers {
    /// 4, or 6.
    pub family: u32,
    /// The number of the interface.
    pub interface: u16,
    /// The length of the prefix that the source shares with its link, in bits.
    pub prefix_length: u8,
    /// Whether the source should be avoided (RFC 4862 section 5.5.4), not 0 if so.
    pub deprecated: u8,
    /// The address to connect to, its first byte first; an IPv4 address is the first 4 bytes.
    pub destination: [u8; 16],
    /// The machine's address for it.
    pub source: [u8; 16],
    /// Whether the interface is a tunnel, not 0 if so.
    pub tunnel: u8,
}

pub(crate) fn source_of(way: &WayNumbers) -> Source
    ensures { result ≡ source_of way.now }
{
    Source {
        ip: address_of(way.family, &way.source),
        plen: way.prefix_length,
        interface: way.interface,
        deprecated: way.deprecated != 0,
        temporary: false,
    }
}

pub(crate) fn route_of(way: &WayNumbers) -> Route
    ensures { result ≡ route_of way.now }
{
    Route {
        prefix: prefix_of(address_of(way.family, &way.destination)),
        interface: way.interface,
        tunnel: way.tunnel != 0,
    }
}

// The prefix of this address alone.
fn prefix_of(ip: Ip) -> Prefix
    ensures { result ≡ record { bits = mapped_of ip; len = 128 } }
{
    Prefix::new(ip.mapped(), V6_BITS)
}
