//! The address to connect to for one in a file or an answer.

ghost use Rattle.std.specs.Prelude.{◌≡◌, IfErr, IfOk, false, map};
ghost use Rattle.he_names.specs.Answers.{IsAnswer, cleaned};
ghost use Rattle.he_settings.specs.Faults.{is_absence};
ghost use Rattle.he_settings.specs.Meant.{meant_by};

use crate::fault::NamesFault;
use he_addr::{Family, Ip, Memory};
use he_names::clean_of;
use std::alloc::Global;

// The addresses, in order, with unspecified ones replaced.
pub(crate) fn as_meant(alloc: Global, ips: &[Ip]) -> Result<Vec<Ip>, Memory>
    ensures { IfOk result (λ meant. meant.items ≡ map meant_by ips.now) }
{
    ips.iter().map(|ip| meant_by(*ip)).collect(alloc)
}

// The unspecified address means this machine, as for connect(2): it can't be a destination (RFC 4291 section 2.5.2).
fn meant_by(ip: Ip) -> Ip
    ensures { result ≡ meant_by ip }
{
    match ip {
        Ip::V4(0) => Ip::V4(0x7f00_0001),
        Ip::V6(0) => Ip::V6(1),
        other => other,
    }
}

/// The family's addresses in an answer, with unspecified ones replaced by loopback: each once, at most 256.
///
/// # Errors
///
/// `Memory`.
pub fn addresses_of(alloc: Global, family: Family, given: &[Ip]) -> Result<Vec<Ip>, NamesFault>
    ensures answer { IfOk result (λ ips. IsAnswer family ips.items) }
    ensures meant { IfOk result (λ ips. ips.items ≡ cleaned family (map meant_by given.now)) }
    ensures fault { IfErr result (λ fault. is_absence fault ≡ false) }
{
    let meant = as_meant(alloc, given)?;
    Ok(clean_of(alloc, family, &meant)?)
}
