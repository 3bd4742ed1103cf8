// Records the machine's sources and routes that come with an answer.

ghost use Rattle.std.specs.Prelude.{◌≡◌, ◌≤◌, ◌≢◌, ◌&&◌, AllPairs, IfOk, OnOk, length, nat_lt, not};
ghost use Rattle.std.specs.List.{list_any};
ghost use Rattle.he_select.specs.declared.limits.TheConstants.{ROUTES, SOURCES};
ghost use Rattle.he_select.specs.Hosts.{IsHost, same_route, same_source};
ghost use Rattle.he_timeline.specs.Timeline.{IsRace};
ghost use Rattle.he_turns.specs.Heard.{is_route_of, is_source_of, lists_of, widened, with_lines, with_routes, with_sources};

use crate::answers::Answer;
use he_addr::{Family, Memory};
use he_select::limits::{ROUTES, SOURCES};
use he_select::{Host, Route, Source};
use he_timeline::TimelineBuilder;
use std::alloc::Global;

// Adds the answer's sources and routes of the family to the race's host.
pub(crate) fn add_lines(
    alloc: Global,
    recorded: &mut TimelineBuilder,
    family: Family,
    told: &Answer,
) -> Result<(), Memory>
    requires valid { IsRace recorded.old }
    ensures recorded { OnOk result (recorded.new ≡ with_lines recorded.old family (lists_of told.now)) }
    ensures valid { OnOk result (IsRace recorded.new) }
{
    let host = widened(alloc, recorded.timeline().host(), family, told)?;
    recorded.set_host(host);
    Ok(())
}

// The host with the answer's sources and routes of the family added.
fn widened(alloc: Global, host: &Host, family: Family, told: &Answer) -> Result<Host, Memory>
    requires { IsHost host.now }
    ensures { IfOk result (λ wider. wider ≡ widened family (lists_of told.now) host.now) }
{
    let sources = with_sources(alloc, host.sources(), family, &told.sources)?;
    let routes = with_routes(alloc, host.routes(), family, &told.routes)?;
    match Host::from_lists(sources, routes) {
        Ok(host) => Ok(host),
        Err(_) => unreachable!(),
    }
}

fn with_sources(
    alloc: Global,
    has: &[Source],
    family: Family,
    told: &[Source],
) -> Result<Vec<Source>, Memory>
    requires apart { AllPairs (λ x y. x.ip ≢ y.ip) has.now }
    requires few { length has.now ≤ SOURCES }
    ensures { IfOk result (λ all. all.items ≡ with_sources family has.now told.now) }
{
    let mut all = Vec::from_slice(alloc, has)?;
    for source in told {
        if is_new_source(&all, family, *source) {
            all.push(*source)?;
        }
    }
    Ok(all)
}

fn is_new_source(all: &[Source], family: Family, source: Source) -> bool
    ensures { result ≡ (nat_lt (length all.now) SOURCES && (is_source_of family source
        && not (list_any (same_source source) all.now))) }
{
    all.len() < SOURCES && is_source_of(family, source) && !source.repeats(all)
}

fn is_source_of(family: Family, source: Source) -> bool
    ensures { result ≡ is_source_of family source }
{
    source.is_sound() && source.ip.family() == family
}

fn with_routes(
    alloc: Global,
    has: &[Route],
    family: Family,
    told: &[Route],
) -> Result<Vec<Route>, Memory>
    requires apart { AllPairs (λ x y. x.prefix ≢ y.prefix) has.now }
    requires few { length has.now ≤ ROUTES }
    ensures { IfOk result (λ all. all.items ≡ with_routes family has.now told.now) }
{
    let mut all = Vec::from_slice(alloc, has)?;
    for route in told {
        if is_new_route(&all, family, *route) {
            all.push(*route)?;
        }
    }
    Ok(all)
}

fn is_new_route(all: &[Route], family: Family, route: Route) -> bool
    ensures { result ≡ (nat_lt (length all.now) ROUTES && (is_route_of family route
        && not (list_any (same_route route) all.now))) }
{
    all.len() < ROUTES && is_route_of(family, route) && !route.repeats(all)
}

fn is_route_of(family: Family, route: Route) -> bool
    ensures { result ≡ is_route_of family route }
{
    match family {
        Family::V6 => route.is_sound() && !route.prefix.is_v4(),
        Family::V4 => route.is_sound() && route.prefix.is_v4(),
    }
}
