//! Where a proxy listens.
ghost use Rattle.std.specs.Prelude.{◌≡◌, ◌++◌, ℕ, [], ◌∷◌, IfNone, IfOk, IfSome, OnOk, map};
ghost use Rattle.std.specs.List.{flat_map};
ghost use Rattle.std.specs.Net.Addr.{ipv4_octets, ipv6_segments};
ghost use Rattle.he_proxy_request.specs.Listening.{IsPortAfter, NamesAddress, NamesListen, NamesLoopback};
ghost use Rattle.he_proxy_request.specs.Listening.{NamesNoAddress, NamesNothing, SpellsPort};
ghost use Rattle.he_proxy_request.specs.Listening.{addresses_of, v4_at, v6_at};
ghost use Rattle.he_proxy_request.specs.Proxies.{AreNamed};

use he_addr::{Memory, read_number};
use he_options::limits::{LEAST_PORT, MOST_PORT};
use he_options::{OptionFault, Refusal};
use std::alloc::Global;
use std::net::{Ipv4Addr, Ipv6Addr, SocketAddr, SocketAddrV4, SocketAddrV6};

/// What a word of `--listen` names.
#[derive(Clone, Copy)]
pub enum Listen {
    /// This address, with its port.
    At(SocketAddr),
    /// Both loopback addresses at this port, 127.0.0.1 and ::1.
    Loopback(u16),
    /// All addresses of the machine at this port.
    All(u16),
}

/// Which IPv6 addresses a socket of a machine can be bound to.
#[derive(Clone, Copy)]
pub struct SixUse {
    /// Whether it can be ::1.
    pub loopback: bool,
    /// Whether it can be ::, by which IPv4 clients come too.
    pub any: bool,
}

/// The addresses to listen at for these words, in their order: of a machine without ::1 only the IPv4 loopback
/// address, and of one without IPv6 all IPv4 addresses.
///
/// # Errors
///
/// [`Memory`] if an allocation fails.
pub fn addresses_of(alloc: Global, words: &[Listen], six: SixUse) -> Result<Vec<SocketAddr>, Memory>
    ensures { IfOk result (λ addresses. addresses.items ≡ flat_map (addresses_of six) words.now) }
{
    let mut addresses = Vec::new(alloc);
    for word in words {
        add(&mut addresses, *word, six)?;
    }
    Ok(addresses)
}

fn add(addresses: &mut Vec<SocketAddr>, word: Listen, six: SixUse) -> Result<(), Memory>
    ensures { OnOk result (addresses.new.items ≡ addresses.old.items ++ addresses_of six word) }
{
    match word {
        Listen::At(address) => push(addresses, address),
        Listen::Loopback(port) => {
            push(addresses, v4(Ipv4Addr::LOCALHOST, port))?;
            if six.loopback {
                push(addresses, v6(Ipv6Addr::LOCALHOST, port))
            } else {
                Ok(())
            }
        }
        Listen::All(port) => {
            if six.any {
                push(addresses, v6(Ipv6Addr::UNSPECIFIED, port))
            } else {
                push(addresses, v4(Ipv4Addr::UNSPECIFIED, port))
            }
        }
    }
}

fn v4(ip: Ipv4Addr, port: u16) -> SocketAddr
    ensures { result ≡ v4_at (ipv4_octets ip) port }
{
    SocketAddr::V4(SocketAddrV4::new(ip, port))
}

fn v6(ip: Ipv6Addr, port: u16) -> SocketAddr
    ensures { result ≡ v6_at (ipv6_segments ip) port }
{
    SocketAddr::V6(SocketAddrV6::new(ip, port, 0, 0))
}

fn push(addresses: &mut Vec<SocketAddr>, address: SocketAddr) -> Result<(), Memory>
    ensures { OnOk result (addresses.new.items ≡ addresses.old.items ++ address ∷ []) }
{
    match addresses.push(address) {
        Ok(()) => Ok(()),
        Err(_) => Err(Memory),
    }
}

// What these texts name, each after the other.
pub(crate) fn words_in(alloc: Global, texts: &[&str]) -> Result<Vec<Listen>, Refusal>
    ensures { IfOk result (λ words. AreNamed NamesListen (map (λ text. text.now) texts.now) words.items) }
{
    let mut words = Vec::new(alloc);
    for text in texts {
        let Some(word) = read_listen(text.as_bytes()) else {
            return Err(Refusal::Option(OptionFault::Listen));
        };
        match words.push(word) {
            Ok(()) => {}
            Err(_) => return Err(Refusal::Memory),
        }
    }
    Ok(words)
}

// What a text names: an address with its port, as `127.0.0.1:1080` and `[::1]:1080`; both loopback addresses at a
// port, as `1080` and `localhost:1080`; all addresses, as `:1080`. None for any other text, and for port 0.
fn read_listen(text: &[u8]) -> Option<Listen>
    ensures some { IfSome result (NamesListen text.now) }
    ensures none { IfNone result (NamesNothing text.now) }
{
    match loopback_port(text) {
        Some(port) => Some(Listen::Loopback(port)),
        None => match port_after(b":".as_slice(), text) {
            Some(port) => Some(Listen::All(port)),
            None => match read_address(text) {
                Some(address) => Some(Listen::At(address)),
                None => None,
            },
        },
    }
}

// The address and the port that a text names; None for any other text, and for port 0.
fn read_address(text: &[u8]) -> Option<SocketAddr>
    ensures some { IfSome result (NamesAddress text.now) }
    ensures none { IfNone result (NamesNoAddress text.now) }
{
    match SocketAddr::parse_ascii(text) {
        Ok(address) if address.port() != 0 => Some(address),
        _ => None,
    }
}

// The port of a text that names both loopback addresses.
fn loopback_port(text: &[u8]) -> Option<u16>
    ensures some { IfSome result (NamesLoopback text.now) }
    ensures none { IfNone result ((port : ℕ) → NamesLoopback text.now port → ⊥) }
{
    match read_port(text) {
        Some(port) => Some(port),
        None => port_after(b"localhost:".as_slice(), text),
    }
}

// The port that a text has after these bytes.
fn port_after(front: &[u8], text: &[u8]) -> Option<u16>
    ensures some { IfSome result (IsPortAfter front.now text.now) }
    ensures none { IfNone result ((port : ℕ) → IsPortAfter front.now text.now port → ⊥) }
{
    match text.strip_prefix(front) {
        Some(digits) => read_port(digits),
        None => None,
    }
}

// A port by its number, without leading zeros.
pub(crate) fn read_port(text: &[u8]) -> Option<u16>
    ensures some { IfSome result (SpellsPort text.now) }
    ensures none { IfNone result ((port : ℕ) → SpellsPort text.now port → ⊥) }
{
    match read_number(text) {
        Some(number) if LEAST_PORT <= number && number <= MOST_PORT => Some(number as u16),
        _ => None,
    }
}
