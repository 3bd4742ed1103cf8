// Builders over the standard policy table and the hosts of the worked races.

use he_addr::{Ip, Prefix};
use he_select::{Host, Policy, Route, Source};
use he_timeline::{Settings, TimelineBuilder};
use refusing::Refusing;

/// A host, by its peculiarity.
#[derive(Clone, Copy)]
pub enum HostKind {
    /// One source and one route of each family.
    Usual,
    /// The IPv6 source is of link scope.
    LinkLocal,
    /// There is no IPv6 route.
    WithoutV6,
}

const fn source(ip: Ip, plen: u8) -> Source {
    Source {
        ip,
        plen,
        interface: 1,
        deprecated: false,
        temporary: false,
    }
}

// 2001:db8::2/64 or fe80::1/64, and 192.0.2.2/24
fn sources(kind: HostKind) -> [Source; 2] {
    let v6 = match kind {
        HostKind::LinkLocal => 0xfe80_0000_0000_0000_0000_0000_0000_0001,
        _ => 0x2001_0db8_0000_0000_0000_0000_0000_0002,
    };
    [source(Ip::V6(v6), 64), source(Ip::V4(0xc000_0202), 24)]
}

fn route(prefix: Prefix) -> Route {
    Route {
        prefix,
        interface: 1,
        tunnel: false,
    }
}

// 0.0.0.0/0, and ::/0 if the host has it
fn host<'h>(heap: &'h Refusing, kind: HostKind) -> Option<Host<&'h Refusing>> {
    let routes = [
        route(Prefix::new(0xffff_0000_0000, 96)),
        route(Prefix::new(0, 0)),
    ];
    let count = match kind {
        HostKind::WithoutV6 => 1,
        _ => 2,
    };
    Host::new(heap, &sources(kind), &routes[..count]).ok()
}

/// A builder over the standard policy table and this host; `None` only if memory was refused.
pub fn builder<'h>(
    heap: &'h Refusing,
    settings: Settings,
    kind: HostKind,
) -> Option<TimelineBuilder<&'h Refusing>> {
    let policy = Policy::standard(heap).ok()?;
    Some(TimelineBuilder::new(heap, settings, policy, host(heap, kind)?))
}
