//! The rows of a round.
ghost use Rattle.std.specs.Prelude.{◌≡◌, IfOk, map};
ghost use Rattle.he_course.specs.declared.addresses.Preferred.{Preferred};
ghost use Rattle.he_probe.specs.Probing.{row_ip};
ghost use Rattle.he_probing.specs.Rows.{has_connected, preferred_ip, probe_of};

use he_addr::{Ip, Memory};
use he_course::Preferred;
use he_live::{Reason, Steps};
use he_probe::ProbeRow;
use he_setup::{Nat64, embedded_host};
use he_timeline::Outcome;
use std::alloc::Global;

/// The result for an address of the host.
#[derive(Clone, Copy, Debug, PartialEq, Eq)]
pub struct AddressRow {
    pub ip: Ip,
    /// The source address by the record's lines; None without a source or a route.
    pub source: Option<Ip>,
    /// None if the attempt had no answer in its time.
    pub outcome: Option<Outcome>,
    /// Why the attempt failed; `Unknown` if it didn't fail.
    pub reason: Reason,
    /// The IPv4 host that the address has embedded by a prefix of the network's NAT64.
    pub host: Option<Ip>,
}

impl AddressRow {
    /// Whether the address connected.
    pub fn has_connected(&self) -> bool
        ensures { result ≡ has_connected self.now }
    {
        matches!(self.outcome, Some(Outcome::Ok(_)))
    }
}

/// The addresses in the order of preference.
///
/// # Errors
///
/// `Memory` if an allocation fails.
pub fn addresses_of(alloc: Global, preferred: &[Preferred]) -> Result<Vec<Ip>, Memory>
    ensures { IfOk result (λ ips. ips.items ≡ map preferred_ip preferred.now) }
{
    let mut ips = Vec::new(alloc);
    for one in preferred {
        ips.push(one.attributes.ip)?;
    }
    Ok(ips)
}

/// The rows of the probes, each with the source of its address and the reason of its failure. The place of an attempt
/// in the steps is that of its probe.
///
/// # Errors
///
/// `Memory` if an allocation fails.
pub fn rows_of(
    alloc: Global,
    probes: &[ProbeRow],
    preferred: &[Preferred],
    steps: &Steps,
    nat64: Option<&Nat64>,
) -> Result<Vec<AddressRow>, Memory>
    ensures { IfOk result (λ rows. map probe_of rows.items ≡ probes.now) }
{
    let mut rows = Vec::new(alloc);
    for probe in probes {
        let place = rows.len();
        rows.push(AddressRow {
            ip: probe.ip,
            source: source_at(preferred, place),
            outcome: probe.outcome,
            reason: steps.reason_of(place),
            host: embedded_host(nat64, probe.ip),
        })?;
    }
    Ok(rows)
}

fn source_at(preferred: &[Preferred], place: usize) -> Option<Ip> {
    let source = preferred.get(place)?.attributes.source?;
    Some(source.source.ip)
}
