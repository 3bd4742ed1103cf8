//! The rules by which the owner of a proxy says what its clients may reach.
ghost use Rattle.std.specs.Prelude.{◌≡◌, ℕ, ◌↔◌, Option, IsTrue, false, not, true};
ghost use Rattle.std.specs.List.{list_any};
ghost use Rattle.he_access.specs.Rules.{Fits, FitsName, Has, InPorts, IsAfterDot, IsBelow, IsInside, IsNamed, MayFit};
ghost use Rattle.he_access.specs.Rules.{Settles, undotted};
ghost use Rattle.he_access.specs.declared.reach.Place.{Place};

use crate::global::judged;
use crate::reach::Place;
use he_addr::{Ip, Prefix};

/// A network: the addresses whose first `len` bits are those of `bits`, an IPv4 one by its mapped addresses. It has
/// none if a bit past the length is set.
#[derive(Clone, Copy, Debug, PartialEq, Eq)]
pub struct Network {
    pub bits: u128,
    pub len: u8,
}

impl Network {
    fn has(self, ip: Ip) -> bool
        ensures { IsTrue result ↔ Has self ip }
    {
        match Prefix::try_new(self.bits, self.len) {
            Some(prefix) => prefix.contains(ip),
            None => false,
        }
    }
}

/// The targets that a rule is for.
#[derive(Clone, Copy)]
pub enum Targets<'a> {
    /// Each target.
    All,
    /// The addresses of this network, whatever the host's name is.
    Network(Network),
    /// The host of this name, whatever its address is.
    Host(&'a str),
    /// The host of this name and all hosts below it, as `www.example.com` is below `example.com`.
    Domain(&'a str),
}

/// A range of ports.
#[derive(Clone, Copy, Debug, PartialEq, Eq)]
pub struct Ports {
    pub first: u16,
    pub last: u16,
}

impl Ports {
    fn has(self, port: u16) -> bool
        ensures { IsTrue result ↔ InPorts self port }
    {
        self.first <= port && port <= self.last
    }
}

/// A rule: whether clients may reach these targets at these ports.
#[derive(Clone, Copy)]
pub struct Rule<'a> {
    pub allows: bool,
    pub targets: Targets<'a>,
    pub ports: Ports,
}

/// Whether the rules let a client that asks for the host, an address or a name in text, reach the place. The first
/// rule that fits decides. A place that none fits may be reached if no rule allows anything. `embedded`: the IPv4 host
/// that the place's address embeds by a prefix of a NAT64.
pub fn may_go(rules: &[Rule<'_>], host: &str, to: Place, embedded: Option<u32>) -> bool
    ensures { Settles (λ rule. Fits rule host.now to embedded) rules.now result }
{
    for rule in rules {
        if fits(rule, host, to, embedded) {
            return rule.allows;
        }
    }
    !allows_some(rules)
}

/// Whether the rules may let a client that asks for the host at the port reach some address of it. If not, the host
/// need not be looked up.
pub fn may_begin(rules: &[Rule<'_>], host: &str, port: u16) -> bool
    ensures settled { Settles (λ rule. MayFit rule host.now port) rules.now result }
    ensures refused { result ≡ false → (to : Place) (embedded : Option ℕ) → to.port ≡ port
        → Settles (λ rule. Fits rule host.now to embedded) rules.now true → ⊥ }
{
    for rule in rules {
        if may_fit(rule, host, port) {
            return rule.allows;
        }
    }
    !allows_some(rules)
}

// Whether some rule allows something.
fn allows_some(rules: &[Rule<'_>]) -> bool
    ensures { result ≡ list_any (λ rule. rule.allows) rules.now }
{
    rules.iter().any(|rule| rule.allows)
}

fn fits(rule: &Rule<'_>, host: &str, to: Place, embedded: Option<u32>) -> bool
    ensures { IsTrue result ↔ Fits rule.now host.now to embedded }
{
    rule.ports.has(to.port)
        && match &rule.targets {
            Targets::Network(network) => is_inside(*network, to.ip, embedded),
            targets => fits_name(targets, host),
        }
}

// Whether the rule fits the host at the port. A rule for a network fits if it allows, since the host may have an
// address there, and doesn't fit if it refuses.
fn may_fit(rule: &Rule<'_>, host: &str, port: u16) -> bool
    ensures { IsTrue result ↔ MayFit rule.now host.now port }
{
    rule.ports.has(port)
        && match &rule.targets {
            Targets::Network(_) => rule.allows,
            targets => fits_name(targets, host),
        }
}

// Whether the targets have the host, by its name alone.
fn fits_name(targets: &Targets<'_>, host: &str) -> bool
    ensures { IsTrue result ↔ FitsName targets.now host.now }
{
    match targets {
        Targets::All => true,
        Targets::Network(_) => false,
        Targets::Host(name) => is_named(name.as_bytes(), host.as_bytes()),
        Targets::Domain(name) => {
            is_named(name.as_bytes(), host.as_bytes()) || is_below(name.as_bytes(), host.as_bytes())
        }
    }
}

fn is_inside(network: Network, ip: Ip, embedded: Option<u32>) -> bool
    ensures { IsTrue result ↔ IsInside network ip embedded }
{
    if network.has(ip) || network.has(Ip::V6(judged(ip.mapped()))) {
        return true;
    }
    match embedded {
        Some(host) => network.has(Ip::V4(host)),
        None => false,
    }
}

fn is_named(name: &[u8], host: &[u8]) -> bool
    ensures { IsTrue result ↔ IsNamed name.now host.now }
{
    undotted(host).eq_ignore_ascii_case(undotted(name))
}

fn is_below(domain: &[u8], host: &[u8]) -> bool
    ensures { IsTrue result ↔ IsBelow domain.now host.now }
{
    is_after_dot(undotted(domain), undotted(host))
}

// Whether the host ends in a dot and the domain.
fn is_after_dot(domain: &[u8], host: &[u8]) -> bool
    ensures { IsTrue result ↔ IsAfterDot domain.now host.now }
{
    if host.len() <= domain.len() {
        return false;
    }
    let at = host.len() - domain.len();
    host[at - 1] == DOT && host[at..].eq_ignore_ascii_case(domain)
}

// The name without the dot that may end it.
fn undotted(name: &[u8]) -> &[u8]
    ensures { result.now ≡ undotted name.now }
{
    match name.split_last() {
        Some((&DOT, front)) => front,
        _ => name,
    }
}

const DOT: u8 = b'.';
