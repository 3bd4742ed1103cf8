// The faults of a host's lists (`host-faults`), including long ones.

use he_addr::{Ip, Prefix, read_prefix};
use he_select::limits::SOURCES;
use he_select::{Host, HostFault, Route, Source};
use refusing::Refusing;

pub const V4: Ip = Ip::V4(0x0a00_0001);

pub const V6: Ip = Ip::V6(0x2001_0db8_0000_0000_0000_0000_0000_0002);

// `V4` as a mapped address, which no source may have.
const MAPPED: Ip = Ip::V6(0xffff_0a00_0001);

const MULTICAST: Ip = Ip::V6(0xff02_0000_0000_0000_0000_0000_0000_0001);

pub fn source(ip: Ip, plen: u8, interface: u16) -> Source {
    Source {
        ip,
        plen,
        interface,
        deprecated: false,
        temporary: false,
    }
}

pub fn route(text: &str, interface: u16) -> Option<Route> {
    let prefix = read_prefix(text.as_bytes())?;
    Some(Route {
        prefix,
        interface,
        tunnel: false,
    })
}

// The sources and routes of the hosts below.
fn sources() -> [Source; 10] {
    [
        source(V4, 24, 1),
        source(V4, 25, 2),
        source(V6, 64, 1),
        source(MULTICAST, 64, 1),
        source(MULTICAST, 64, 1),
        source(V6, 64, 1),
        source(V4, 33, 1),
        source(V6, 129, 1),
        source(V4, 32, 65_535),
        source(V6, 128, 1),
    ]
}

fn routes() -> Option<[Route; 4]> {
    Some([
        route("::/0", 1)?,
        route("::/0", 1)?,
        route("10.0.0.0/8", 1)?,
        route("::/0", 0)?,
    ])
}

// The places of a host's first source and route and the ones after its last, and the fault of the host.
static HOSTS: [(usize, usize, usize, usize, Option<HostFault>); 10] = [
    (0, 2, 0, 0, Some(HostFault::RepeatedSource(1))),
    (0, 0, 0, 2, Some(HostFault::RepeatedRoute(1))),
    (2, 4, 0, 0, Some(HostFault::BadSource(1))),
    (7, 8, 0, 0, Some(HostFault::BadSource(0))),
    (5, 7, 0, 0, Some(HostFault::BadSource(1))),
    (0, 0, 2, 4, Some(HostFault::BadRoute(1))),
    (3, 5, 0, 0, Some(HostFault::RepeatedSource(1))),
    (6, 7, 0, 2, Some(HostFault::RepeatedRoute(1))),
    (6, 7, 2, 4, Some(HostFault::BadSource(0))),
    (8, 10, 1, 3, None),
];

// Whether the lists have this fault, both when copied and when taken over.
fn has_fault(
    heap: &Refusing,
    sources: &[Source],
    routes: &[Route],
    wanted: Option<HostFault>,
) -> Option<bool> {
    let taken = taken_fault(heap, sources, routes)?;
    let copied = Host::new(heap, sources, routes).err();
    Some(taken == wanted && copied == wanted)
}

fn taken_fault(heap: &Refusing, sources: &[Source], routes: &[Route]) -> Option<Option<HostFault>> {
    let source_list = Vec::from_slice(heap, sources).ok()?;
    let route_list = Vec::from_slice(heap, routes).ok()?;
    Some(Host::from_lists(source_list, route_list).err())
}

// The number of hosts that are refused as required, up to the first wrong one.
fn right_hosts(heap: &Refusing) -> Option<usize> {
    let sources = sources();
    let routes = routes()?;
    let mut right: usize = 0;
    for (from, to, first, behind, wanted) in &HOSTS {
        let some_sources = sources.get(*from..*to)?;
        let some_routes = routes.get(*first..*behind)?;
        if !has_fault(heap, some_sources, some_routes, *wanted)? {
            break;
        }
        right = right.saturating_add(1);
    }
    Some(right)
}

// Lists of this number of sources or routes are no longer compared pair by pair.
const MANY: usize = 40;

// Sources without a fault. If the last one is the first one's address as a mapped one, both have one number.
fn long_sources(last: Ip) -> [Source; MANY] {
    let mut sources = [source(V4, 24, 1); MANY];
    for i in 1..MANY - 1 {
        sources[i].ip = Ip::V6(0x2001_0db8_0001_0000_0000_0000_0000_0000 + i as u128);
    }
    sources[MANY - 1].ip = last;
    sources
}

// Routes without a fault. `::/0` and `::80/128` differ and share a number, if both are here.
fn long_routes(last: &str) -> Option<[Route; MANY]> {
    let mut routes = [route("::/0", 1)?; MANY];
    for i in 1..MANY - 1 {
        routes[i].prefix = Prefix::try_new(i as u128, 128)?;
    }
    routes[MANY - 1] = route(last, 1)?;
    Some(routes)
}

// Whether the source at this place is refused if it has the address of an earlier one.
fn is_source_refused(
    heap: &Refusing,
    all: &[Source],
    earlier: usize,
    place: usize,
) -> Option<bool> {
    let mut sources = Vec::from_slice(heap, all).ok()?;
    sources.get_mut(place)?.ip = all.get(earlier)?.ip;
    has_fault(heap, &sources, &[], Some(HostFault::RepeatedSource(place)))
}

// Whether the route at this place is refused if it has the prefix of an earlier one.
fn is_route_refused(heap: &Refusing, all: &[Route], earlier: usize, place: usize) -> Option<bool> {
    let mut routes = Vec::from_slice(heap, all).ok()?;
    routes.get_mut(place)?.prefix = all.get(earlier)?.prefix;
    has_fault(heap, &[], &routes, Some(HostFault::RepeatedRoute(place)))
}

// The number of places at which sources and routes are refused that repeat the first ones, and those before them, up
// to the first place at which they aren't.
fn right_places(heap: &Refusing, sources: &[Source], routes: &[Route]) -> Option<usize> {
    let mut right: usize = 0;
    for place in 1..MANY {
        let first = is_source_refused(heap, sources, 0, place)?
            && is_route_refused(heap, routes, 0, place)?;
        let before = is_source_refused(heap, sources, place - 1, place)?
            && is_route_refused(heap, routes, place - 1, place)?;
        if !first || !before {
            break;
        }
        right = right.saturating_add(1);
    }
    Some(right)
}

// Whether long lists have this fault, and the number of places at which repeats are refused in them.
fn long_lists(
    heap: &Refusing,
    last: Ip,
    route: &str,
    fault: Option<HostFault>,
) -> Option<(bool, usize)> {
    let sources = long_sources(last);
    let routes = long_routes(route)?;
    let whole = has_fault(heap, &sources, &routes, fault)?;
    Some((whole, right_places(heap, &sources, &routes)?))
}

// Whether a source on no interface is refused, and a list of one source more than the maximum, all equal.
fn are_others_refused(heap: &Refusing) -> bool {
    let nowhere = Host::new(heap, &[source(V4, 24, 0)], &[]).err();
    let many = Host::new(heap, &[source(V4, 24, 1); SOURCES + 1], &[]).err();
    nowhere == Some(HostFault::BadSource(0)) && many == Some(HostFault::TooMany)
}

#[test]
fn host_faults(rt: HostRuntime) {
    let heap = Refusing::new(rt.alloc());
    assert!(rt; right_hosts(&heap) == Some(HOSTS.len()));
    assert!(rt; are_others_refused(&heap));
}

#[test]
fn long_hosts(rt: HostRuntime) {
    let heap = Refusing::new(rt.alloc());
    let apart = long_lists(&heap, V6, "::81/128", None);
    let alike = long_lists(
        &heap,
        MAPPED,
        "::80/128",
        Some(HostFault::BadSource(MANY - 1)),
    );
    assert!(rt; apart == Some((true, MANY - 1)));
    assert!(rt; alike == Some((true, MANY - 1)));
}
