// A machine for which the rules select the kernel's sources, from its answers for destinations.

ghost use Rattle.std.specs.Prelude.{◌≡◌, [], filter, map, not, IfOk};
ghost use Rattle.he_kernel.specs.Keeping.{routes_kept, sources_kept};
ghost use Rattle.he_kernel.specs.Ways.{IsHostTo, is_unsaid, own_of, same_source, source_taken, way_route};

use crate::keeping::{judge_route, judge_source, make_host};
use crate::why::Why;
use he_addr::prefix::V6_BITS;
use he_addr::{Ip, Memory, Prefix};
use he_select::{Host, Policy, Route, Source};
use std::alloc::Allocator;

/// A source that the kernel selects, with the properties that the rules use.
#[derive(Clone, Copy, Debug, PartialEq, Eq)]
pub struct TakenSource {
    pub source: Source,
    /// Whether its interface encapsulates.
    pub tunnel: bool,
}

/// The kernel's answer for a destination.
#[derive(Clone, Copy, Debug, PartialEq, Eq)]
pub struct Way {
    /// The destination.
    pub to: Ip,
    /// The source that the kernel selects; `None` if there is no way.
    pub from: Option<Ip>,
}

// The properties of a source.
fn find_own(own: &[TakenSource], ip: Ip) -> Option<TakenSource>
    ensures { result ≡ own_of ip own.now }
{
    for one in own {
        if one.source.ip == ip {
            return Some(*one);
        }
    }
    None
}

// The route of a way, over the interface of the kernel's source.
#[tactic(auto, unfolding(crate::specs::Ways::way_route))]
fn way_route(own: &[TakenSource], way: Way) -> Result<Route, Why>
    ensures { result ≡ way_route own.now way }
{
    let Some(from) = way.from else {
        return Err(Why::Unreachable);
    };
    let Some(taken) = find_own(own, from) else {
        return Err(Why::Unconnected);
    };
    Ok(Route {
        prefix: Prefix::new(way.to.mapped(), V6_BITS),
        interface: taken.source.interface,
        tunnel: taken.tunnel,
    })
}

// The sources of a machine: each address once, up to the limit.
fn keep_sources<A: Allocator + Copy>(
    alloc: A,
    own: &[TakenSource],
) -> Result<Vec<Source, A>, Memory>
    ensures { IfOk result (λ kept. kept.items ≡ sources_kept [] (map source_taken own.now)) }
{
    let mut kept = Vec::new(alloc);
    for taken in own {
        if let Ok(source) = judge_source(&kept, Ok(taken.source)) {
            kept.push(source)?;
        }
    }
    Ok(kept)
}

// The routes of the ways: each prefix once, up to the limit.
fn keep_ways<A: Allocator + Copy>(
    alloc: A,
    own: &[TakenSource],
    ways: &[Way],
) -> Result<Vec<Route, A>, Memory>
    ensures { IfOk result (λ kept. kept.items ≡ routes_kept [] (map (way_route own.now) ways.now)) }
{
    let mut kept = Vec::new(alloc);
    for way in ways {
        if let Ok(route) = judge_route(&kept, way_route(own, *way)) {
            kept.push(route)?;
        }
    }
    Ok(kept)
}

/// The machine with these sources and, for each way that exists, a route of its own over the interface of the
/// kernel's source: the first 64 of each.
///
/// If each source has an interface of its own, so that rule 5 of RFC 6724 section 5 prefers it to all others, the
/// rules select the kernel's source for each destination, unless one of rules 1 to 3 prefers another. [`find_unsaid`]
/// returns those.
///
/// # Errors
///
/// [`Memory`] if an allocation fails.
#[tactic(auto, using(crate::proofs::Kept::kept_is_host))]
pub fn find_host_to<A: Allocator + Copy>(
    alloc: A,
    own: &[TakenSource],
    ways: &[Way],
) -> Result<Host<A>, Memory>
    ensures { IfOk result (IsHostTo own.now ways.now) }
{
    let sources = keep_sources(alloc, own)?;
    let routes = keep_ways(alloc, own, ways)?;
    Ok(make_host(sources, routes))
}

// Whether the rules select another source for the destination than the kernel.
fn is_unsaid<A: Allocator, B: Allocator>(host: &Host<A>, policy: &Policy<B>, way: Way) -> bool
    ensures { result ≡ is_unsaid policy.now host.now way }
{
    !is_same(host.source(policy, way.to), way.from)
}

fn is_same(said: Option<Ip>, taken: Option<Ip>) -> bool
    ensures { result ≡ same_source said taken }
{
    match (said, taken) {
        (Some(said), Some(taken)) => said == taken,
        (None, None) => true,
        _ => false,
    }
}

/// The destinations for which the rules select another source of the machine than the kernel, or for which only one
/// of the two has a way.
///
/// # Errors
///
/// [`Memory`] if an allocation fails.
pub fn find_unsaid<A: Allocator + Copy, B: Allocator, C: Allocator>(
    alloc: A,
    host: &Host<B>,
    policy: &Policy<C>,
    ways: &[Way],
) -> Result<Vec<Way, A>, Memory>
    ensures { IfOk result (λ unsaid. unsaid.items ≡ filter (is_unsaid policy.now host.now) ways.now) }
{
    let mut unsaid = Vec::new(alloc);
    for way in ways {
        if is_unsaid(host, policy, *way) {
            unsaid.push(*way)?;
        }
    }
    Ok(unsaid)
}
