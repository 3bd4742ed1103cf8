// The interfaces of IPv4 addresses. No file has them: an address is on the interface of its connected route.

ghost use Rattle.std.specs.Prelude.{◌≡◌, map, IfOk};
ghost use Rattle.he_host.specs.Placing.{holds, is_loopback, longer, longer_route, longest_route, connected_from, asked_for, loopback_place, place_of, source_at, found_own, read_own};

use crate::fib_trie::OwnAddress;
use crate::found::{FoundRoute, FoundSource, Metered};
use crate::interface::{Interface, find_loopback};
use crate::left_out::File;
use he_addr::prefix::{MAPPED_LEN, V4_BITS};
use he_addr::{Ip, Memory};
use he_kernel::link::Link;
use he_kernel::why::Why;
use he_select::{Route, Source};
use std::alloc::Allocator;

/// The prefix length of the loopback addresses, 127.0.0.0/8.
pub const LOOPBACK_LEN: u8 = 8;

/// The interface of an address by the kernel's answer; 0 for none.
#[derive(Clone, Copy, Debug, PartialEq, Eq)]
pub struct InterfaceAnswer {
    pub ip: Ip,
    pub interface: u16,
}

/// The place of an address: its link's prefix length, and its interface.
#[derive(Clone, Copy, Debug, PartialEq, Eq)]
pub struct Place {
    pub plen: u8,
    pub interface: u16,
}

/// The input for locating addresses.
#[derive(Clone, Copy, Debug)]
pub struct Around<'i, 'n, 't> {
    pub interfaces: &'i [Interface<'n>],
    pub routes: &'t [FoundRoute],
    pub asked: &'t [InterfaceAnswer],
}

fn is_loopback(ip: Ip) -> bool
    ensures { result ≡ is_loopback ip }
{
    match ip {
        Ip::V4(number) => number >> 24 == 127,
        Ip::V6(_) => false,
    }
}

// The longer of two routes, the first if they are equally long.
fn longer_route(kept: Route, other: Route) -> Route
    ensures { result ≡ longer_route kept other }
{
    if other.prefix.len() <= kept.prefix.len() {
        kept
    } else {
        other
    }
}

/// Whether a connected route contains the address: its prefix is an IPv4 one other than 0.0.0.0/0.
pub fn holds(metered: Metered, ip: Ip) -> bool
    ensures { result ≡ holds ip metered }
{
    let prefix = metered.route.prefix;
    metered.connected && prefix.len() > MAPPED_LEN && prefix.contains(ip)
}

// The longer of the best route so far, if any, and this one.
fn longest_route(best: Option<Route>, route: Route) -> Route
    ensures { result ≡ longest_route best route }
{
    match best {
        Some(kept) => longer_route(kept, route),
        None => route,
    }
}

// The best connected route after one more.
fn take_longer(best: Option<Route>, metered: Metered, ip: Ip) -> Option<Route>
    ensures { result ≡ longer ip best metered }
{
    let route = metered.route;
    if holds(metered, ip) {
        Some(longest_route(best, route))
    } else {
        best
    }
}

/// The connected route that contains the address: the longest, the first of several.
pub fn find_connected(routes: &[FoundRoute], ip: Ip) -> Option<Route>
    ensures { result ≡ connected_from ip None routes.now }
{
    let mut best = None;
    for found in routes {
        if let Ok(metered) = found.read {
            best = take_longer(best, metered, ip);
        }
    }
    best
}

fn find_asked(asked: &[InterfaceAnswer], ip: Ip) -> Option<Place>
    ensures { result ≡ asked_for ip asked.now }
{
    for told in asked {
        if told.ip == ip && told.interface != 0 {
            return Some(Place {
                plen: V4_BITS,
                interface: told.interface,
            });
        }
    }
    None
}

fn on_loopback(link: Option<Link>) -> Result<Place, Why>
    ensures { result ≡ loopback_place link }
{
    match link {
        Some(link) => Ok(Place {
            plen: LOOPBACK_LEN,
            interface: link.number,
        }),
        None => Err(Why::Down),
    }
}

/// The place of an IPv4 address: the loopback interface, that of its connected route, or the kernel's answer.
///
/// # Errors
///
/// [`Why::Down`] if no loopback interface is up. [`Why::Unconnected`] if the place isn't known.
#[tactic(auto, unfolding(crate::specs::Placing::place_of))]
pub fn find_place(around: Around<'_, '_, '_>, ip: Ip) -> Result<Place, Why>
    ensures { result ≡ place_of around.entry.interfaces.now around.entry.routes.now around.entry.asked.now ip }
{
    if is_loopback(ip) {
        return on_loopback(find_loopback(around.interfaces));
    }
    if let Some(route) = find_connected(around.routes, ip) {
        return Ok(Place {
            plen: route.prefix.len().saturating_sub(MAPPED_LEN),
            interface: route.interface,
        });
    }
    find_asked(around.asked, ip).ok_or(Why::Unconnected)
}

fn source_at(ip: Ip, place: Place) -> Source
    ensures { result ≡ source_at ip place }
{
    Source {
        ip,
        plen: place.plen,
        interface: place.interface,
        deprecated: false,
        temporary: false,
    }
}

/// The source of an IPv4 address of this machine, or why there is none.
///
/// # Errors
///
/// [`Why::Unclear`], [`Why::Unusable`], then those of [`find_place`].
#[tactic(auto, unfolding(crate::specs::Placing::read_own))]
pub fn make_v4_source(around: Around<'_, '_, '_>, ip: Option<Ip>) -> Result<Source, Why>
    ensures { result ≡ read_own around.entry.interfaces.now around.entry.routes.now around.entry.asked.now ip }
{
    let Some(ip) = ip else {
        return Err(Why::Unclear);
    };
    if !ip.is_usable() {
        return Err(Why::Unusable);
    }
    match find_place(around, ip) {
        Ok(place) => Ok(source_at(ip, place)),
        Err(why) => Err(why),
    }
}

/// The sources of the addresses in `/proc/net/fib_trie`.
///
/// # Errors
///
/// [`Memory`] if an allocation fails.
pub fn find_v4_sources<A: Allocator + Copy>(
    alloc: A,
    around: Around<'_, '_, '_>,
    addresses: &[OwnAddress],
) -> Result<Vec<FoundSource, A>, Memory>
    ensures { IfOk result (λ found. found.items ≡ map (found_own around.entry.interfaces.now around.entry.routes.now
        around.entry.asked.now) addresses.now) }
{
    let mut found = Vec::new(alloc);
    for address in addresses {
        found.push(FoundSource {
            file: File::FibTrie,
            line: address.line,
            read: make_v4_source(around, address.ip),
        })?;
    }
    Ok(found)
}
