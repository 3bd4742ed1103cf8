// /proc/net/ipv6_route: the IPv6 routes of all tables.

ghost use Rattle.std.specs.Prelude.{◌≡◌};
ghost use Rattle.he_host.specs.Ipv6Route.{is_internal, is_loopback, route_line, route_of};

use crate::found::Metered;
use he_addr::Prefix;
use he_kernel::hex::{has, read_hex_field};
use he_kernel::link::Link;
use he_kernel::why::Why;
use he_select::Route;

const IN_USE: u128 = 0x0000_0001;

const REJECT: u128 = 0x0000_0200;

const ANYCAST: u128 = 0x0010_0000;

const CACHED: u128 = 0x0100_0000;

const LOCAL: u128 = 0x8000_0000;

// The metric of the unreachable route at the end of each of the kernel's tables.
const LAST_METRIC: u64 = 0xffff_ffff;

// The metric of the kernel's routes to the networks of addresses: those on the loopback interface lead nowhere.
const NETWORK_METRIC: u64 = 0x100;

/// The numbers of a line.
#[derive(Clone, Copy, Debug, PartialEq, Eq)]
pub struct RouteLine {
    pub bits: u128,
    pub len: u8,
    pub metric: u64,
    pub flags: u128,
}

/// The numbers of a line; None if it can't be parsed.
#[tactic(auto, unfolding(crate::specs::Ipv6Route::route_line))]
pub fn read_route_line(line: &[u8]) -> Option<RouteLine>
    ensures { result ≡ route_line line.now }
{
    let bits = read_hex_field(line, 0, 32)?;
    let len = read_hex_field(line, 1, 2)?;
    let metric = read_hex_field(line, 5, 8)?;
    let flags = read_hex_field(line, 8, 8)?;
    Some(RouteLine {
        bits,
        len: len as u8,
        metric: metric as u64,
        flags,
    })
}

// Whether the interface is the loopback: an address on it has no route but that to itself.
fn is_loopback(link: Option<Link>) -> bool
    ensures { result ≡ is_loopback link }
{
    match link {
        Some(link) => link.loopback,
        None => false,
    }
}

/// Whether the route is an internal one of the kernel: to an address of this machine that is not on the loopback
/// interface, to an anycast address, to multicast, cached, not in use, the end of a table, or to a network of the
/// loopback interface.
#[tactic(auto, unfolding(crate::specs::Ipv6Route::is_internal))]
pub fn is_internal(read: RouteLine, link: Option<Link>) -> bool
    ensures { result ≡ is_internal read link }
{
    has(read.flags, LOCAL) && !is_loopback(link)
        || has(read.flags, ANYCAST)
        || has(read.flags, CACHED)
        || has(read.flags, REJECT) && (read.metric == LAST_METRIC || read.metric == NETWORK_METRIC)
        || !has(read.flags, REJECT) && !has(read.flags, IN_USE)
        || read.bits >> 120 == 0xff
}

/// The route of a line, by the link of its interface, or why there is none.
///
/// # Errors
///
/// [`Why::Unclear`], [`Why::Internal`], [`Why::Unreachable`], [`Why::Down`], in this order.
#[tactic(auto, unfolding(crate::specs::Ipv6Route::route_of))]
pub fn make_route(read: RouteLine, link: Option<Link>) -> Result<Metered, Why>
    ensures { result ≡ route_of read link }
{
    let Some(prefix) = Prefix::try_new(read.bits, read.len) else {
        return Err(Why::Unclear);
    };
    if is_internal(read, link) {
        return Err(Why::Internal);
    }
    if has(read.flags, REJECT) {
        return Err(Why::Unreachable);
    }
    match link {
        Some(link) => Ok(Metered {
            route: Route {
                prefix,
                interface: link.number,
                tunnel: link.tunnel,
            },
            metric: read.metric,
            connected: false,
            carrier: link.carrier,
        }),
        None => Err(Why::Down),
    }
}
