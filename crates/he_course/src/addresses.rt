// A race's addresses in the order in which they are preferred.

ghost use Rattle.std.specs.Prelude.{◌≡◌, ◌++◌, List, map, None, option_map, IfOk, OnOk};
ghost use Rattle.he_select.specs.Attributes.{rule_between};
ghost use Rattle.he_select.specs.Selection.{serves};
ghost use Rattle.he_plan.specs.Transcript.{IsTranscript};
ghost use Rattle.he_course.specs.Addresses.{all_attributes_of, is_routed, preferred_after, rule_after};

use he_addr::{Family, Ip, Memory};
use he_plan::{Transcript, transcript_by_order};
use he_select::{DestinationAttributes, DestinationRule, Route};
use he_timeline::Timeline;
use std::alloc::Allocator;

/// An address of a race and its place in the order of preference (RFC 6724 section 6).
#[derive(Clone, Copy)]
pub struct Preferred {
    /// The attributes that the rules compare.
    pub attributes: DestinationAttributes,

    /// The first rule that sorts it after the address before it; none for the first address.
    pub rule: Option<DestinationRule>,

    /// Whether a route of the host leads to it. An address without a route, or without a source, can't be reached.
    pub is_routed: bool,
}

/// Sorted addresses, each with the rule that sorts it after the one before.
pub(crate) fn prefer<A: Allocator>(
    alloc: A,
    routes: &[Route],
    sorted: &[DestinationAttributes],
) -> Result<Vec<Preferred, A>, Memory>
    ensures { IfOk result (λ addresses. addresses.items ≡ preferred_after routes.now None sorted.now) }
{
    let mut addresses = Vec::with_capacity(alloc, sorted.len())?;
    let mut earlier = None;
    for attributes in sorted {
        addresses.push(Preferred {
            attributes: *attributes,
            rule: rule_after(earlier, attributes),
            is_routed: is_routed(routes, attributes.ip),
        })?;
        earlier = Some(*attributes);
    }
    Ok(addresses)
}

/// The transcript of a race whose addresses are sorted.
pub(crate) fn transcript_with<A: Allocator + Copy, B: Allocator>(
    alloc: A,
    timeline: &Timeline<B>,
    sorted: &[DestinationAttributes],
) -> Result<Transcript<A>, Memory>
    requires { sorted.now ≡ all_attributes_of timeline.now }
    ensures { IfOk result (IsTranscript timeline.now) }
{
    let ips = ips_of(alloc, sorted)?;
    transcript_by_order(alloc, timeline, ips)
}

fn ips_of<A: Allocator>(alloc: A, sorted: &[DestinationAttributes]) -> Result<Vec<Ip, A>, Memory>
    ensures { IfOk result (λ ips. ips.items ≡ map (λ attributes. attributes.ip) sorted.now) }
{
    sorted.iter().map(|attributes| attributes.ip).collect(alloc)
}

fn rule_after(
    earlier: Option<DestinationAttributes>,
    later: &DestinationAttributes,
) -> Option<DestinationRule>
    ensures { result ≡ rule_after earlier later.now }
{
    match earlier {
        Some(earlier) => Some(DestinationRule::between(&earlier, later)),
        None => None,
    }
}

fn is_routed(routes: &[Route], ip: Ip) -> bool
    ensures { result ≡ is_routed routes.now ip }
{
    routes.iter().any(|route| serves(route, ip))
}

fn serves(route: &Route, ip: Ip) -> bool
    ensures { result ≡ serves ip route.now }
{
    route.prefix.contains(ip) && route.prefix.is_v4() == (ip.family() == Family::V4)
}
