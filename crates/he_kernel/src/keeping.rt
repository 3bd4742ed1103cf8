// Which of the sources and routes found a machine keeps.

ghost use Rattle.std.specs.Prelude.{◌≡◌, None, Ok};
ghost use Rattle.std.specs.List.{list_any};
ghost use Rattle.he_select.specs.HostFaults.{host_fault, host_of};
ghost use Rattle.he_kernel.specs.Keeping.{same_way, source_behind, route_behind, judged_source, judged_route};

use crate::why::Why;
use he_select::limits::{ROUTES, SOURCES};
use he_select::{Host, Route, Source};
use std::alloc::Allocator;

fn judge_new_source(kept: &[Source], source: Source) -> Result<Source, Why>
    ensures { result ≡ source_behind kept.now source }
{
    if !source.is_sound() {
        return Err(Why::Unusable);
    }
    if source.repeats(kept) {
        return Err(Why::Repeated);
    }
    if kept.len() >= SOURCES {
        return Err(Why::TooMany);
    }
    Ok(source)
}

/// The source, if it is to be kept after these, or why not.
///
/// # Errors
///
/// That of `read`; [`Why::Unusable`], [`Why::Repeated`], [`Why::TooMany`], in this order.
#[tactic(auto, unfolding(crate::specs::Keeping::judged_source))]
pub fn judge_source(kept: &[Source], read: Result<Source, Why>) -> Result<Source, Why>
    ensures { result ≡ judged_source kept.now read }
{
    match read {
        Err(why) => Err(why),
        Ok(source) => judge_new_source(kept, source),
    }
}

// Whether the prefix has a route over the same interface.
fn is_known(route: Route, kept: &[Route]) -> bool
    ensures { result ≡ list_any (same_way route) kept.now }
{
    for other in kept {
        if other.prefix == route.prefix && other.interface == route.interface {
            return true;
        }
    }
    false
}

fn judge_new_route(kept: &[Route], route: Route) -> Result<Route, Why>
    ensures { result ≡ route_behind kept.now route }
{
    if !route.is_sound() {
        return Err(Why::Down);
    }
    if is_known(route, kept) {
        return Err(Why::Again);
    }
    if route.repeats(kept) {
        return Err(Why::Repeated);
    }
    if kept.len() >= ROUTES {
        return Err(Why::TooMany);
    }
    Ok(route)
}

/// The route, if it is to be kept after these, or why not.
///
/// # Errors
///
/// That of `read`; [`Why::Down`], [`Why::Again`], [`Why::Repeated`], [`Why::TooMany`], in this order.
#[tactic(auto, unfolding(crate::specs::Keeping::judged_route))]
pub fn judge_route(kept: &[Route], read: Result<Route, Why>) -> Result<Route, Why>
    ensures { result ≡ judged_route kept.now read }
{
    match read {
        Err(why) => Err(why),
        Ok(route) => judge_new_route(kept, route),
    }
}

/// The machine of valid lists: [`judge_source`] and [`judge_route`] allow only such.
pub fn make_host<A: Allocator + Copy>(sources: Vec<Source, A>, routes: Vec<Route, A>) -> Host<A>
    requires { host_fault sources.items routes.items ≡ None }
    ensures { Ok result ≡ host_of sources.items routes.items }
{
    match Host::from_lists(sources, routes) {
        Ok(host) => host,
        Err(_) => unreachable!(),
    }
}
