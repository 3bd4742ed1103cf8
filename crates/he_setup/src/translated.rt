//! A race's knowledge of its network's NAT64, and its report.
ghost use Rattle.std.specs.Prelude.{◌≡◌, true};

use crate::families::write_lack;
use crate::setup::Setup;
use he_addr::{Family, Ip, Memory, write_ip};
use he_nat64::Prefix64;
use he_plan::Line;
use he_record::nat64::Nat64Prefix;
use he_settings::NamesFault;
use std::alloc::Global;

/// A race's knowledge of its network's NAT64.
#[derive(Drop)]
pub enum Nat64 {
    /// Its prefixes; without one, the network has no NAT64.
    Prefixes(Vec<Prefix64>),
    /// Why they are not known.
    Unknown(NamesFault),
    /// The host has no IPv6 address; its IPv4 addresses or the prefixes have no answer yet.
    Unanswered,
}

impl Nat64 {
    /// Whether the look-ups for it have their answers.
    pub fn is_answered(&self) -> bool {
        !matches!(self, Nat64::Unanswered)
    }
}

/// Whether the race that is set up reaches its host only through a NAT64, for want of an IPv6 address.
pub fn is_by_nat64(setup: &Setup<'_>, nat64: Option<&Nat64>) -> bool
    ensures { result ≡ true → setup.now.embeds ≡ true }
{
    setup.embeds && nat64.is_some()
}

/// The prefixes of the network's NAT64, as a record has them; none if they are not known.
///
/// # Errors
///
/// `Memory` if an allocation fails.
pub fn nat64_prefixes(alloc: Global, nat64: Option<&Nat64>) -> Result<Vec<Nat64Prefix>, Memory> {
    let Some(Nat64::Prefixes(prefixes)) = nat64 else {
        return Ok(Vec::new(alloc));
    };
    prefixes
        .iter()
        .map(|prefix| Nat64Prefix::of(prefix.prefix()))
        .collect(alloc)
}

/// Appends a line for each address that was tried and has an IPv4 host embedded: `he: 64:ff9b::cb00:7150 is
/// 203.0.113.80`.
///
/// # Errors
///
/// `Memory` if an allocation fails; part may have been appended.
pub fn write_translated(
    nat64: Option<&Nat64>,
    attempts: &[Line],
    out: &mut Vec<u8>,
) -> Result<(), Memory> {
    for attempt in attempts {
        if let Some(host) = embedded_host(nat64, attempt.ip) {
            out.extend_from_slice(b"he: ")?;
            write_ip(attempt.ip, out)?;
            out.extend_from_slice(b" is ")?;
            write_ip(host, out)?;
            out.push(b'\n')?;
        }
    }
    Ok(())
}

/// The IPv4 host that the address has embedded by a prefix of the network's NAT64.
pub fn embedded_host(nat64: Option<&Nat64>, ip: Ip) -> Option<Ip> {
    let (Some(Nat64::Prefixes(prefixes)), Ip::V6(number)) = (nat64, ip) else {
        return None;
    };
    let host = prefixes.iter().find_map(|prefix| prefix.extract(number))?;
    Some(Ip::V4(host))
}

/// Appends a line that says why no IPv4 host was embedded: the network has no prefix, or none for this host, or it is
/// not known. Appends nothing while look-ups have no answer.
///
/// # Errors
///
/// `Memory` if an allocation fails; part of the text may have been appended.
pub fn write_untranslated(
    alloc: Global,
    setup: &Setup<'_>,
    nat64: &Nat64,
    out: &mut Vec<u8>,
) -> Result<(), Memory> {
    let host = setup.request.host;
    let line = match nat64 {
        Nat64::Unanswered => return Ok(()),
        Nat64::Unknown(fault) => format!(in alloc;
            "he: this machine has no IPv4, and its network's NAT64 is unknown: AAAA of ipv4only.arpa: {fault}\n"
        )?,
        Nat64::Prefixes(prefixes) if prefixes.is_empty() => format!(in alloc;
            "he: this machine has no IPv4, and its network no NAT64\n"
        )?,
        Nat64::Prefixes(_) => format!(in alloc;
            "he: this machine has no IPv4, and its network's NAT64 no address for {host}\n"
        )?,
    };
    if setup.known.is_none() {
        write_lack(host, Family::V6, out)?;
    }
    out.extend_from_slice(line.as_bytes())?;
    Ok(())
}
