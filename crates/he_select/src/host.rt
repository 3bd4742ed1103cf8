// A host's sources and routes.

ghost use Rattle.std.specs.Prelude.{◌≡◌, not, IfOk, IfErr, IsOk, IsOkUnless};
ghost use Rattle.he_addr.specs.Prefix.{width_of};
ghost use Rattle.std.specs.List.{list_any, position_from};
ghost use Rattle.he_select.specs.Equality.{equal_hosts};
ghost use Rattle.he_select.specs.HostFaults.{is_sound_source, is_sound_route, host_fault, host_of};
ghost use Rattle.he_select.specs.Hosts.{same_source, same_route, IsHost};

use crate::distinct::{Distinct, first_repeated, stands_in};
use crate::limits::{NO_INTERFACE, ROUTES, SOURCES};
use he_addr::prefix::{V4_BITS, V6_BITS};
use he_addr::{Family, Ip, Memory, Prefix};
use std::alloc::{Allocator, Global};
use std::marker::Model;
use thiserror::Error;

/// An address of the host.
#[derive(Clone, Copy, Debug, PartialEq, Eq)]
pub struct Source {
    pub ip: Ip,
    /// The length of the prefix that the address shares with its link, in bits: at most 32 for IPv4 and 128 for IPv6.
    pub plen: u8,
    /// The number of the address's interface, at least 1.
    pub interface: u16,
    /// The address is still valid but should be avoided (RFC 4862 section 5.5.4).
    pub deprecated: bool,
    /// The address is temporary (RFC 8981).
    pub temporary: bool,
}

impl Source {
    /// Whether an earlier source has this source's address.
    pub fn repeats(&self, earlier: &[Source]) -> bool
        ensures { result ≡ list_any (same_source self.now) earlier.now }
    {
        stands_in(self, earlier)
    }

    /// Whether the address is usable, its prefix length fits its family, and its interface is not 0.
    pub fn is_sound(&self) -> bool
        ensures { result ≡ is_sound_source self.now }
    {
        self.ip.is_usable() && self.plen <= width(self.ip) && self.interface != NO_INTERFACE
    }
}

/// The number of bits of an address.
fn width(ip: Ip) -> u8
    ensures { result ≡ width_of ip }
{
    match ip.family() {
        Family::V4 => V4_BITS,
        Family::V6 => V6_BITS,
    }
}

/// A route of the host.
#[derive(Clone, Copy, Debug, PartialEq, Eq)]
pub struct Route {
    pub prefix: Prefix,
    /// The number of the interface that the route leads to, at least 1.
    pub interface: u16,
    /// The route leads through an encapsulating transport.
    pub tunnel: bool,
}

impl Route {
    /// Whether an earlier route has this route's prefix.
    pub fn repeats(&self, earlier: &[Route]) -> bool
        ensures { result ≡ list_any (same_route self.now) earlier.now }
    {
        stands_in(self, earlier)
    }

    /// Whether the interface is not 0.
    pub fn is_sound(&self) -> bool
        ensures { result ≡ is_sound_route self.now }
    {
        self.interface != NO_INTERFACE
    }
}

/// Why lists of sources and routes are not a host's. Places count from 0.
#[derive(Clone, Copy, Debug, PartialEq, Eq, Error)]
pub enum HostFault {
    /// More than [`crate::limits::SOURCES`] sources, or more than [`crate::limits::ROUTES`] routes.
    #[error("too many sources or routes")]
    TooMany,
    /// This source, the first such one, has the address of an earlier source.
    #[error("source {0} repeats an earlier address")]
    RepeatedSource(usize),
    /// This route, the first such one, has the prefix of an earlier route.
    #[error("route {0} repeats an earlier prefix")]
    RepeatedRoute(usize),
    /// This source, the first such one, has an unusable address, or a prefix length or interface out of range.
    #[error("source {0} is out of range")]
    BadSource(usize),
    /// This route, the first such one, has an interface out of range.
    #[error("route {0} is out of range")]
    BadRoute(usize),
    /// An allocation failed.
    #[error("out of memory")]
    Memory,
}

impl Distinct for Source {
    ghost same = { same_source };

    fn is_same(&self, other: &Source) -> bool {
        self.ip == other.ip
    }
}

impl Distinct for Route {
    ghost same = { same_route };

    fn is_same(&self, other: &Route) -> bool {
        self.prefix == other.prefix
    }
}

impl HostFault {
    /// The first fault of the lists, in the order of the variants; `None` if they are a host's. Never `Memory`.
    #[tactic(auto, unfolding(crate::specs::HostFaults::host_fault))]
    pub fn find(sources: &[Source], routes: &[Route]) -> Option<HostFault>
        ensures { result ≡ host_fault sources.now routes.now }
    {
        if sources.len() > SOURCES || routes.len() > ROUTES {
            return Some(HostFault::TooMany);
        }
        if let Some(place) = first_repeated(sources) {
            return Some(HostFault::RepeatedSource(place));
        }
        if let Some(place) = first_repeated(routes) {
            return Some(HostFault::RepeatedRoute(place));
        }
        if let Some(place) = first_unsound_source(sources) {
            return Some(HostFault::BadSource(place));
        }
        let place = first_unsound_route(routes)?;
        Some(HostFault::BadRoute(place))
    }
}

fn first_unsound_source(sources: &[Source]) -> Option<usize>
    ensures { result ≡ position_from (λ source. not (is_sound_source source)) 0 sources.now }
{
    for (i, source) in sources.iter().enumerate() {
        if !source.is_sound() {
            return Some(i);
        }
    }
    None
}

fn first_unsound_route(routes: &[Route]) -> Option<usize>
    ensures { result ≡ position_from (λ route. not (is_sound_route route)) 0 routes.now }
{
    for (i, route) in routes.iter().enumerate() {
        if !route.is_sound() {
            return Some(i);
        }
    }
    None
}

/// A host: at most [`SOURCES`] sources with different addresses, and at most [`ROUTES`] routes with different
/// prefixes. Contracts see it as its two lists.
#[derive(Drop)]
pub struct Host<A: Allocator = Global> {
    sources: Vec<Source, A>,
    routes: Vec<Route, A>,
}

impl<A: Allocator> Model for Host<A> {
    ghost use Rattle.he_select.specs.Hosts.{HostLists, IsHost};

    ghost Value = { HostLists };

    ghost view = { λ h. record { sources = h.sources.items; routes = h.routes.items } };

    ghost invariant = { λ h. IsHost (record { sources = h.sources.items; routes = h.routes.items }) };
}

impl<A: Allocator> PartialEq for Host<A> {
    ghost use Rattle.std.specs.Prelude.{◌≡◌, ◌&&◌, ◌↔◌, IsTrue};
    ghost use Rattle.std.specs.Cmp.{and_per, on_per};
    ghost use Rattle.std.specs.Cmp.Lexicographic.{pointwise, lists_per};
    ghost use Rattle.he_select.specs.Hosts.{HostLists};
    ghost use Rattle.he_select.specs.contracts.host.SourcePartialEq.TheImpl.Laws as of_sources;
    ghost use Rattle.he_select.specs.contracts.host.RoutePartialEq.TheImpl.Laws as of_routes;

    ghost eq = { λ a b. pointwise ⟦<Source as PartialEq>⟧.eq a.sources b.sources
        && pointwise ⟦<Route as PartialEq>⟧.eq a.routes b.routes };

    ghost laws = { and_per (on_per (λ (h : HostLists). h.sources) (lists_per of_sources.laws-law))
        (on_per (λ (h : HostLists). h.routes) (lists_per of_routes.laws-law)) };

    /// Whether both hosts have equal sources and equal routes, in the same order.
    fn eq(&self, other: &Host<A>) -> bool
        ensures value { result ≡ (pointwise ⟦<Source as PartialEq>⟧.eq self.now.sources other.now.sources
            && pointwise ⟦<Route as PartialEq>⟧.eq self.now.routes other.now.routes) }
        ensures lists { IsTrue result ↔ (self.now ≡ other.now) }
    {
        self.has_lists_of(other)
    }
}

impl<A: Allocator> Eq for Host<A> {
    ghost use Rattle.std.specs.Cmp.{and_equiv, on_equiv};
    ghost use Rattle.std.specs.Cmp.Lexicographic.{lists_equiv};
    ghost use Rattle.he_select.specs.Hosts.{HostLists};
    ghost use Rattle.he_select.specs.contracts.host.SourceEq.TheImpl.Laws as of_sources;
    ghost use Rattle.he_select.specs.contracts.host.RouteEq.TheImpl.Laws as of_routes;

    ghost laws = { and_equiv (on_equiv (λ (h : HostLists). h.sources) (lists_equiv of_sources.laws-law))
        (on_equiv (λ (h : HostLists). h.routes) (lists_equiv of_routes.laws-law)) };
}

impl<A: Allocator + Copy> Host<A> {
    /// A host with these sources and routes.
    ///
    /// # Errors
    ///
    /// The first fault of the lists, in the order of [`HostFault`].
    pub fn new(alloc: A, sources: &[Source], routes: &[Route]) -> Result<Host<A>, HostFault>
        ensures refused { IfErr (host_of sources.now routes.now) (λ fault. result ≡ Err fault) }
        ensures made { IfOk (host_of sources.now routes.now) (λ lists. IfOk result (λ host. host ≡ lists)) }
        ensures memory { IsOk (host_of sources.now routes.now) → IsOkUnless result HostFault.Memory }
    {
        if let Some(fault) = HostFault::find(sources, routes) {
            return Err(fault);
        }
        let sources = Vec::from_slice(alloc, sources).map_err(|_| HostFault::Memory)?;
        let routes = Vec::from_slice(alloc, routes).map_err(|_| HostFault::Memory)?;
        Ok(Host { sources, routes })
    }
}

impl<A: Allocator> Host<A> {
    /// A host of these sources and routes. It keeps the lists and allocates nothing.
    ///
    /// # Errors
    ///
    /// The first fault of the lists, in the order of [`HostFault`]; never `Memory`. The lists are dropped then.
    pub fn from_lists(sources: Vec<Source, A>, routes: Vec<Route, A>) -> Result<Host<A>, HostFault>
        ensures { result ≡ host_of sources.items routes.items }
    {
        if let Some(fault) = HostFault::find(&sources, &routes) {
            return Err(fault);
        }
        Ok(Host { sources, routes })
    }

    fn has_lists_of(&self, other: &Host<A>) -> bool
        ensures { result ≡ equal_hosts self.now other.now }
    {
        self.sources == other.sources && self.routes == other.routes
    }

    /// The sources, in the order given.
    pub fn sources(&self) -> &[Source]
        ensures sources { result.now ≡ self.now.sources }
        ensures host { IsHost self.now }
    {
        self.sources.as_slice()
    }

    /// The routes, in the order given.
    pub fn routes(&self) -> &[Route]
        ensures routes { result.now ≡ self.now.routes }
        ensures host { IsHost self.now }
    {
        self.routes.as_slice()
    }

    /// A copy of the host in this allocator's memory.
    pub fn copy<B: Allocator + Copy>(&self, alloc: B) -> Result<Host<B>, Memory>
        ensures { IfOk result (λ host. host ≡ self.now) }
    {
        let sources = Vec::from_slice(alloc, &self.sources)?;
        let routes = Vec::from_slice(alloc, &self.routes)?;
        Ok(Host { sources, routes })
    }
}
