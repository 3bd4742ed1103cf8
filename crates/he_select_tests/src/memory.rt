// Each growth refused in turn: a refused call returns Memory, and any other its usual result. And copies (`copies`).

ghost use Rattle.std.specs.Prelude.{◌≡◌, IsTrue};
ghost use Rattle.std.specs.List.{list_all};
ghost use Rattle.he_addr.specs.Ip.{is_usable};

use crate::hosts::{V4, V6, route, source};
use crate::known::all_usable as all_known_usable;
use he_addr::Ip;
use he_select::{Host, Known, Policy, Route, Source, order, order_known_with_attributes};
use refusing::{Refusing, refused_in_turn};
use std::mem::drop;

fn all_usable(addresses: &[Ip]) -> bool
    ensures { result ≡ list_all is_usable addresses.now }
{
    addresses.iter().all(|ip| ip.is_usable())
}

// Whether a copy of the table, and the table made again of its rows, are equal to it; none if a growth was refused.
fn is_policy_copied<'h>(heap: &'h Refusing, policy: &Policy<&'h Refusing>) -> Option<bool> {
    let copy = policy.copy(heap).ok()?;
    let is_same = copy == *policy && copy.rows().as_slice() == policy.rows().as_slice();
    drop(copy);
    Some(is_same)
}

fn is_policy_made<'h>(heap: &'h Refusing, policy: &Policy<&'h Refusing>) -> Option<bool> {
    let again = Policy::from_rows(heap, policy.rows().as_slice()).ok()?;
    let is_same = again == *policy;
    drop(again);
    Some(is_same)
}

fn is_host_copied<'h>(heap: &'h Refusing, host: &Host<&'h Refusing>) -> Option<bool> {
    let copy = host.copy(heap).ok()?;
    let is_same = copy == *host
        && copy.sources() == host.sources()
        && copy.routes() == host.routes();
    drop(copy);
    Some(is_same)
}

// An address that is no source of the host.
const FAR: Ip = Ip::V6(0x2001_0db8_0001_0000_0000_0000_0000_0001);

// Whether the IPv6 addresses, which are preferred by the standard table, come first, and of them the host's own one.
fn is_sorted<'h>(
    heap: &'h Refusing,
    policy: &Policy<&'h Refusing>,
    host: &Host<&'h Refusing>,
) -> Option<bool> {
    let given = [V4, FAR, V6, V4, FAR, V6, V4, FAR, V6];
    if !all_usable(&given) {
        return Some(false);
    }
    let sorted = order(heap, policy, host, &given).ok()?;
    Some(sorted.as_slice() == [V6, V6, V6, FAR, FAR, FAR, V4, V4, V4].as_slice())
}

// Whether they are sorted so with the attributes that the rules compare: precedence and label of the standard table,
// and the source. The address that is not the host's own has the source on the interface of its route.
fn is_sorted_with_attributes<'h>(
    heap: &'h Refusing,
    policy: &Policy<&'h Refusing>,
    host: &Host<&'h Refusing>,
) -> Option<bool> {
    let given = [Known::nothing(V4), Known::nothing(FAR), Known::nothing(V6)];
    if !all_known_usable(&given) {
        return Some(false);
    }
    let sorted = order_known_with_attributes(heap, policy, host, &given).ok()?;
    let mut is_right = sorted.len() == given.len();
    for (attributes, (ip, precedence, label, from)) in sorted
        .iter()
        .zip([(V6, 40, 1, V6), (FAR, 40, 1, V6), (V4, 35, 4, V4)])
    {
        is_right &= attributes.ip == ip
            && attributes.precedence == precedence
            && attributes.label == label
            && attributes.source.map_or(false, |source| {
                source.label == label && source.source.ip == from
            });
    }
    Some(is_right)
}

fn is_host_well<'h>(
    heap: &'h Refusing,
    policy: &Policy<&'h Refusing>,
    host: &Host<&'h Refusing>,
) -> Option<bool> {
    Some(
        is_host_copied(heap, host)?
            && is_sorted(heap, policy, host)?
            && is_sorted_with_attributes(heap, policy, host)?,
    )
}

fn is_made_host_well<'h>(
    heap: &'h Refusing,
    policy: &Policy<&'h Refusing>,
    sources: &[Source],
    routes: &[Route],
) -> Option<bool> {
    let host = Host::new(heap, sources, routes).ok()?;
    let is_well = is_host_well(heap, policy, &host);
    let is_made = host.sources() == sources;
    drop(host);
    Some(is_well? && is_made)
}

fn is_policy_well<'h>(
    heap: &'h Refusing,
    policy: &Policy<&'h Refusing>,
    sources: &[Source],
    routes: &[Route],
) -> Option<bool> {
    Some(
        is_policy_copied(heap, policy)?
            && is_policy_made(heap, policy)?
            && is_made_host_well(heap, policy, sources, routes)?,
    )
}

// Whether the results of all calls are right; none if one returned a fault, which only `Memory` may be.
fn is_well(heap: &Refusing, sources: &[Source], routes: &[Route]) -> Option<bool> {
    let policy = Policy::standard(heap).ok()?;
    let is_well = is_policy_well(heap, &policy, sources, routes);
    drop(policy);
    is_well
}

#[test]
fn refused_growths(rt: HostRuntime) {
    let heap = Refusing::new(rt.alloc());
    // More sources than the addresses use, of both families and on two interfaces.
    let sources = [
        source(Ip::V6(0x2001_0db8_0001_0000_0000_0000_0000_0002), 64, 2),
        source(V6, 64, 1),
        source(V4, 24, 1),
        source(Ip::V4(0x0a00_0002), 24, 1),
        source(Ip::V4(0x0a00_0003), 24, 2),
        source(Ip::V4(0x0a00_0004), 24, 2),
        source(Ip::V4(0x0a00_0005), 24, 2),
        source(Ip::V4(0x0a00_0006), 24, 2),
        source(Ip::V4(0x0a00_0007), 24, 2),
    ];
    let refused = match (route("::/0", 1), route("0.0.0.0/0", 1)) {
        (Some(v6), Some(v4)) => refused_in_turn(&heap, || is_well(&heap, &sources, &[v6, v4])),
        _ => None,
    };
    assert!(rt; refused.unwrap_or(0) > 0);
}
