//! Which clients are served, and which addresses their races may connect to.
ghost use Rattle.std.specs.Prelude.{◌≡◌, [], true, false, IsTrue};
ghost use Rattle.std.specs.List.{list_any};
ghost use Rattle.he_addr.specs.Prefix.{contains};
ghost use Rattle.he_access.specs.Reaching.{IsGlobal, IsHere, IsLoopback, IsOwn, IsReached, IsServed};
ghost use Rattle.he_access.specs.Tests.{comes_to, is_here, is_loopback, is_same, is_unspecified};

use crate::global::{MAPPED, is_global};
use he_addr::{Ip, Prefix};

/// An address and a port.
#[derive(Clone, Copy, Debug, PartialEq, Eq)]
pub struct Place {
    pub ip: Ip,
    pub port: u16,
}

/// Whether a client with this address is served: a loopback client always is, any other if an allowed network
/// contains its address.
pub fn is_served(client: Ip, allow: &[Prefix]) -> bool
    ensures served { IsTrue result → IsServed client allow.now }
    ensures all { IsServed client allow.now → IsTrue result }
    ensures none { allow.now ≡ [] → IsTrue result → IsLoopback client }
{
    is_loopback(client) || is_allowed(client, allow)
}

fn is_allowed(client: Ip, allow: &[Prefix]) -> bool
    ensures { result ≡ list_any (λ network. contains network client) allow.now }
{
    allow.iter().any(|network| network.contains(client))
}

/// Whether a client's races may connect to the place. `is_wide`: the client is a program of this machine, or has the
/// same rights. `places`: where the proxy listens. `source`: the address from which the kernel connects to the place;
/// it is the place's own address if that belongs to this machine.
pub fn may_reach(is_wide: bool, places: &[Place], to: Place, source: Option<Ip>) -> bool
    ensures reached { IsTrue result → IsReached is_wide places.now to source }
    ensures wide { is_wide ≡ true → (IsOwn places.now to source → ⊥) → IsTrue result }
    ensures others { is_wide ≡ false → (IsOwn places.now to source → ⊥) → (IsHere to.ip source → ⊥)
        → IsGlobal to.ip → IsTrue result }
{
    if is_own(places, to, source) {
        return false;
    }
    is_wide || (!is_here(to.ip, source) && is_global(to.ip))
}

// Whether a connection reaches the proxy itself.
fn is_own(places: &[Place], to: Place, source: Option<Ip>) -> bool
    ensures { result ≡ list_any (λ place. comes_to place to source) places.now }
{
    places.iter().any(|place| comes_to(*place, to, source))
}

fn comes_to(place: Place, to: Place, source: Option<Ip>) -> bool
    ensures { result ≡ comes_to place to source }
{
    place.port == to.port
        && (place.ip.mapped() == to.ip.mapped()
            || (is_unspecified(place.ip) && is_here(to.ip, source))
            || (is_loopback(place.ip) && is_unspecified(to.ip)))
}

/// Whether it is an address of this machine: loopback, unspecified, or the one from which the kernel connects to it.
pub fn is_here(ip: Ip, source: Option<Ip>) -> bool
    ensures { result ≡ is_here ip source }
{
    is_loopback(ip) || is_unspecified(ip) || is_same(source, ip)
}

fn is_same(source: Option<Ip>, ip: Ip) -> bool
    ensures { result ≡ is_same source ip }
{
    match source {
        Some(own) => own.mapped() == ip.mapped(),
        None => false,
    }
}

/// Whether it is a loopback address: 127.0.0.0/8 (RFC 1122 section 3.2.1.3), also mapped, or ::1 (RFC 4291 section
/// 2.5.3).
pub fn is_loopback(ip: Ip) -> bool
    ensures { result ≡ is_loopback ip }
{
    match ip {
        Ip::V4(number) => number >> 24 == 127,
        Ip::V6(number) => number == 1 || number >> 24 == 0xffff7f,
    }
}

// 0.0.0.0 or ::.
fn is_unspecified(ip: Ip) -> bool
    ensures { result ≡ is_unspecified ip }
{
    ip.mapped() == 0 || ip.mapped() == MAPPED
}
