//! The host that a user writes.

ghost use Rattle.std.specs.Prelude.{◌≡◌, IfErr, IfOk, OnOk, false, string_bytes};
ghost use Rattle.he_names.specs.Literals.{zoned_of};
ghost use Rattle.he_names.specs.Targets.{IsUnfit, Means, MeansAt, MeansHere, MeansNamed, IsNumeric};
ghost use Rattle.he_names.specs.Targets.{UnfitAt, UnfitNamed, has_slash, is_name_byte, is_slash, sign_in};
ghost use Rattle.he_names.specs.Numeric.{ends_in_number};
ghost use Rattle.he_names.specs.declared.target.HostFault.TheVariants as faults;

use crate::literals::{ZonedIp, is_interface, is_on_link, read_literal, unmapped};
use crate::numeric::{address_of, ends_in_number, labels};
use crate::special::{SpecialUse, is_localhost, special_use};
use he_addr::{Ip, Memory};
use idna::{AsciiDenyList, Errors, domain_to_ascii_cow};
use std::alloc::Global;
use std::fmt;
use std::net::{Ipv4Addr, Ipv6Addr};

/// The host that a text names.
#[derive(Drop)]
pub enum Target {
    /// An address that needs no interface.
    Address(Ip),
    /// A link-local IPv6 address (RFC 4291 section 2.5.6), and the name or the number of its interface.
    OnLink(Ip, Vec<u8>),
    /// This machine: `localhost` (RFC 6761 section 6.3).
    Loopback,
    /// A name in `localhost`, in ASCII and in lower case: this machine, unless the hosts file has it. No name server
    /// is queried (RFC 6761 section 6.3).
    InLoopback(String),
    /// `local` or a name with one label in it, which multicast DNS resolves (RFC 6762): the system's resolver may
    /// know it, and a name server only if the search list has a domain in `local`
    /// ([`serves_local`](crate::serves_local)).
    Multicast(String),
    /// Any other name, in ASCII and in lower case (UTS 46).
    Name(String),
}

/// Why a text names no host.
#[derive(Clone, Copy, Debug, PartialEq, Eq)]
pub enum HostFault {
    /// A link-local IPv6 address without its interface.
    NoInterface(Ip),
    /// The text after the percent sign names no interface.
    Interface,
    /// An interface with an address that isn't link-local.
    Zone(Ip),
    /// A text with a slash, as a URL.
    Path,
    /// The first byte that no host name has, of a text without a slash.
    Sign(u8),
    /// A non-ASCII name that has no ASCII form (UTS 46 section 4.2).
    NoAsciiForm,
    /// A name that ends in a number, and the IPv4 address that older software reads it as.
    Numeric(Option<Ip>),
    /// A name that must not be queried: in `onion` or `invalid`.
    Special(SpecialUse),
    /// An allocation failed.
    Memory,
}

impl fmt::Display for HostFault {
    fn fmt<W: fmt::Write>(&self, f: &mut fmt::Formatter<W>) -> fmt::Result {
        match self {
            HostFault::NoInterface(ip) => {
                let ip = Shown(*ip);
                write!(f, "a link-local address needs its interface: {ip}%eth0")
            }
            HostFault::Interface => write!(f, "not an interface after '%'"),
            HostFault::Zone(ip) => {
                let ip = Shown(*ip);
                write!(
                    f,
                    "{ip} is not link-local and has no interface: write it without '%'"
                )
            }
            HostFault::Path => {
                write!(
                    f,
                    "not a host name: write only the host, without a scheme or a path"
                )
            }
            HostFault::Sign(byte) => {
                let sign = char::from(*byte);
                match *byte {
                    b':' | b' ' => {
                        write!(f, "not a host name: {sign:?}; write HOST and PORT apart")
                    }
                    _ => write!(f, "not a host name: {sign:?}"),
                }
            }
            HostFault::NoAsciiForm => write!(f, "not a host name: it has no form in ASCII"),
            HostFault::Numeric(Some(ip)) => {
                let ip = Shown(*ip);
                write!(
                    f,
                    "not a host name: a number; if the address {ip} is meant, write that"
                )
            }
            HostFault::Numeric(None) => write!(f, "not a host name: it ends in a number"),
            HostFault::Special(special) => write!(f, "{special}"),
            HostFault::Memory => write!(f, "out of memory"),
        }
    }
}

impl std::error::Error for HostFault {}

// An address as std prints it.
#[derive(Clone, Copy)]
struct Shown(Ip);

impl fmt::Display for Shown {
    fn fmt<W: fmt::Write>(&self, f: &mut fmt::Formatter<W>) -> fmt::Result {
        match self.0 {
            Ip::V4(bits) => fmt::Display::fmt(&Ipv4Addr::from_bits(bits), f),
            Ip::V6(bits) => fmt::Display::fmt(&Ipv6Addr::from_bits(bits), f),
        }
    }
}

impl From<Memory> for HostFault {
    ghost from_gives = { λ _ fault. fault ≡ faults.Memory };

    fn from(_refused: Memory) -> HostFault {
        HostFault::Memory
    }
}

/// Reads a host: an address, this machine, or a name to query. An IPv6 address may be in brackets, and an IPv4-mapped
/// one (`::ffff:0:0/96`) is read as its IPv4 address. A non-ASCII name is returned in its ASCII form (UTS 46).
///
/// # Errors
///
/// [`HostFault`]; its `Display` states what to write in place of the text.
pub fn read_host(alloc: Global, text: &str) -> Result<Target, HostFault>
    ensures target { IfOk result (Means text.now) }
    ensures fault { IfErr result (IsUnfit text.now) }
{
    if let Some(literal) = read_literal(text.as_bytes()) {
        return target_at(alloc, literal);
    }
    if has_slash(text.as_bytes()) {
        return Err(HostFault::Path);
    }
    if let Some(byte) = sign_in(text.as_bytes()) {
        return Err(HostFault::Sign(byte));
    }
    match domain_to_ascii_cow(alloc, text.as_bytes(), AsciiDenyList::URL) {
        Ok(name) => target_named(alloc, name.into_owned(alloc)?),
        Err(Errors::Invalid) => Err(HostFault::NoAsciiForm),
        Err(Errors::OutOfMemory) => Err(HostFault::Memory),
    }
}

fn target_at(alloc: Global, literal: ZonedIp<'_>) -> Result<Target, HostFault>
    ensures target { IfOk result (MeansAt literal.entry.ip (zoned_of literal.entry).1) }
    ensures fault { IfErr result (UnfitAt literal.entry.ip (zoned_of literal.entry).1) }
{
    let ip = literal.ip;
    match literal.zone {
        None if is_on_link(ip) => Err(HostFault::NoInterface(ip)),
        None => Ok(Target::Address(unmapped(ip))),
        Some(_) if !is_on_link(ip) => Err(HostFault::Zone(ip)),
        Some(zone) if !is_interface(zone) => Err(HostFault::Interface),
        Some(zone) => Ok(Target::OnLink(ip, Vec::from_slice(alloc, zone)?)),
    }
}

fn target_named(alloc: Global, name: String) -> Result<Target, HostFault>
    ensures target { IfOk result (MeansNamed (string_bytes name)) }
    ensures fault { IfErr result (UnfitNamed (string_bytes name)) }
{
    match special_use(name.as_bytes()) {
        Some(SpecialUse::Localhost) => return Ok(target_here(name)),
        Some(SpecialUse::Local) => return Ok(Target::Multicast(name)),
        Some(special) => return Err(HostFault::Special(special)),
        None => {}
    }
    check_end(alloc, name.as_bytes())?;
    Ok(Target::Name(name))
}

// The target of a name in `localhost`.
fn target_here(name: String) -> Target
    ensures { MeansHere (string_bytes name) result }
{
    if is_localhost(name.as_bytes()) {
        Target::Loopback
    } else {
        Target::InLoopback(name)
    }
}

// Refuses a name that ends in a number.
fn check_end(alloc: Global, name: &[u8]) -> Result<(), HostFault>
    ensures ok { OnOk result (ends_in_number name.now ≡ false) }
    ensures err { IfErr result (IsNumeric name.now) }
{
    let labels = labels(alloc, name)?;
    if ends_in_number(&labels) {
        return Err(HostFault::Numeric(address_of(&labels).map(Ip::V4)));
    }
    Ok(())
}

fn has_slash(text: &[u8]) -> bool
    ensures { result ≡ has_slash text.now }
{
    text.iter().any(|byte| is_slash(*byte))
}

fn is_slash(byte: u8) -> bool
    ensures { result ≡ is_slash byte }
{
    byte == b'/'
}

// The first byte that no host name has.
fn sign_in(text: &[u8]) -> Option<u8>
    ensures { result ≡ sign_in text.now }
{
    for byte in text {
        if !is_name_byte(*byte) {
            return Some(*byte);
        }
    }
    None
}

fn is_name_byte(byte: u8) -> bool
    ensures { result ≡ is_name_byte byte }
{
    byte.is_ascii_alphanumeric() || byte >= 0x80 || byte == b'-' || byte == b'.' || byte == b'_'
}
