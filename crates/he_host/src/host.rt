// The machine by the files.

ghost use Rattle.std.specs.Prelude.{◌≡◌, IfOk};
ghost use Rattle.he_host.specs.Gathering.{IsRanked};
ghost use Rattle.he_host.specs.Interfaces.{loopback_of};
ghost use Rattle.he_host.specs.Whole.{routes_in, v4_sources_in, v6_sources_in, loopback_found, IsHostOf, HasKept, in_turn};

use crate::fib_trie::read_own_addresses;
use crate::found::{FoundRoute, FoundSource, Metered};
use crate::gathering::{keep_routes, keep_sources, rank_routes};
use crate::interface::{Interface, find_loopback};
use crate::left_out::{File, LeftOut};
use crate::placing::{Around, find_v4_sources};
use crate::reading::{find_v4_routes, find_v6_routes, find_v6_sources};
use he_addr::{Memory, Prefix};
use he_kernel::keeping::make_host;
use he_kernel::lines::read_lines;
use he_select::{Host, Route, Source};
use std::alloc::Allocator;

/// The number of IPv4 addresses kept before the IPv6 ones. The others come after those, so that many addresses of one
/// family leave room for the other.
pub const FIRST: usize = 32;

/// 127.0.0.0/8 as an IPv4-mapped prefix.
const LOOPBACK_BITS: u128 = 0xffff_7f00_0000;

const LOOPBACK_LEN: u8 = 104;

/// The bytes of the files in `/proc/net`; empty for one that doesn't exist.
#[derive(Clone, Copy, Debug)]
pub struct Files<'t> {
    pub if_inet6: &'t [u8],
    pub fib_trie: &'t [u8],
    pub ipv6_route: &'t [u8],
    pub route: &'t [u8],
}

/// A machine and the lines that it leaves out.
#[derive(Drop)]
pub struct FoundHost<A: Allocator> {
    pub host: Host<A>,
    pub left_out: Vec<LeftOut, A>,
}

// The route to the loopback's IPv4 addresses, which no file has; its line is 0.
fn find_own_route(interfaces: &[Interface<'_>]) -> Option<FoundRoute>
    ensures { result ≡ loopback_found (loopback_of interfaces.now) }
{
    let link = find_loopback(interfaces)?;
    let prefix = Prefix::try_new(LOOPBACK_BITS, LOOPBACK_LEN)?;
    let route = Route {
        prefix,
        interface: link.number,
        tunnel: false,
    };
    Some(FoundRoute {
        file: File::Ipv4Route,
        line: 0,
        read: Ok(Metered {
            route,
            metric: 0,
            connected: false,
            carrier: true,
        }),
    })
}

// The routes of the files, in order.
#[tactic(auto, unfolding(crate::specs::Whole::routes_in))]
fn read_routes<A: Allocator + Copy>(
    alloc: A,
    files: Files<'_>,
    interfaces: &[Interface<'_>],
) -> Result<Vec<FoundRoute, A>, Memory>
    ensures { IfOk result (λ found. found.items ≡ routes_in files.entry interfaces.now) }
{
    let mut found = Vec::new(alloc);
    if let Some(route) = find_own_route(interfaces) {
        found.push(route)?;
    }
    let v6 = read_lines(alloc, files.ipv6_route)?;
    find_v6_routes(interfaces, &v6, &mut found)?;
    let v4 = read_lines(alloc, files.route)?;
    find_v4_routes(interfaces, &v4, &mut found)?;
    Ok(found)
}

/// The routes of the files, by rank.
///
/// # Errors
///
/// [`Memory`] if an allocation fails.
pub fn find_routes<A: Allocator + Copy>(
    alloc: A,
    files: Files<'_>,
    interfaces: &[Interface<'_>],
) -> Result<Vec<FoundRoute, A>, Memory>
    ensures { IfOk result (λ ranked. IsRanked (routes_in files.entry interfaces.now) ranked.items) }
{
    let mut found = read_routes(alloc, files, interfaces)?;
    rank_routes(&mut found)?;
    Ok(found)
}

// The sources of `/proc/net/if_inet6`.
#[tactic(auto, unfolding(crate::specs::Whole::v6_sources_in))]
fn find_v6<A: Allocator + Copy>(
    alloc: A,
    files: Files<'_>,
    interfaces: &[Interface<'_>],
) -> Result<Vec<FoundSource, A>, Memory>
    ensures { IfOk result (λ found. found.items ≡ v6_sources_in files.entry interfaces.now) }
{
    let lines = read_lines(alloc, files.if_inet6)?;
    find_v6_sources(alloc, interfaces, &lines)
}

// The sources of `/proc/net/fib_trie`.
#[tactic(auto, unfolding(crate::specs::Whole::v4_sources_in))]
fn find_v4<A: Allocator + Copy>(
    alloc: A,
    files: Files<'_>,
    around: Around<'_, '_, '_>,
) -> Result<Vec<FoundSource, A>, Memory>
    ensures { IfOk result (λ found. found.items ≡ v4_sources_in files.entry around.entry.interfaces.now
        around.entry.routes.now around.entry.asked.now) }
{
    let lines = read_lines(alloc, files.fib_trie)?;
    let addresses = read_own_addresses(alloc, &lines)?;
    find_v4_sources(alloc, around, &addresses)
}

// The order in which sources are kept.
fn put_in_turn<A: Allocator + Copy>(
    alloc: A,
    v4: &[FoundSource],
    v6: &[FoundSource],
) -> Result<Vec<FoundSource, A>, Memory>
    ensures { IfOk result (λ turn. turn.items ≡ in_turn v4.now v6.now) }
{
    let first = v4.len().min(FIRST);
    let mut turn = Vec::from_slice(alloc, &v4[..first])?;
    turn.extend_from_slice(v6)?;
    turn.extend_from_slice(&v4[first..])?;
    Ok(turn)
}

// The machine that keeps these sources and routes up to the limit. The kept ones are valid for a machine, so only
// memory can fail.
fn keep<A: Allocator + Copy>(
    alloc: A,
    turn: &[FoundSource],
    routes: &[FoundRoute],
) -> Result<FoundHost<A>, Memory>
    ensures { IfOk result (λ found. HasKept turn.now routes.now found.host found.left_out.items) }
{
    let mut left_out = Vec::new(alloc);
    let mut sources = Vec::new(alloc);
    keep_sources(turn, &mut sources, &mut left_out)?;
    let mut kept = Vec::new(alloc);
    keep_routes(routes, &mut kept, &mut left_out)?;
    let host = make_host(sources, kept);
    Ok(FoundHost { host, left_out })
}

/// The machine by the files, and the lines that are left out. `around` has the interfaces, the routes as from
/// [`find_routes`], and the interfaces of IPv4 addresses that no file locates.
///
/// # Errors
///
/// [`Memory`] if an allocation fails.
pub fn find_host<A: Allocator + Copy>(
    alloc: A,
    files: Files<'_>,
    around: Around<'_, '_, '_>,
) -> Result<FoundHost<A>, Memory>
    ensures { IfOk result (λ found. IsHostOf files.entry around.entry.interfaces.now around.entry.routes.now
        around.entry.asked.now found.host found.left_out.items) }
{
    let v6 = find_v6(alloc, files, around.interfaces)?;
    let v4 = find_v4(alloc, files, around)?;
    let turn = put_in_turn(alloc, &v4, &v6)?;
    keep(alloc, &turn, around.routes)
}
