//! The families that a race tries.
ghost use Rattle.std.specs.Prelude.{IfOk};
ghost use Rattle.he_setup.specs.Races.{Tries};

use crate::fault::ConnectFault;
use crate::request::{ConnectRequest, Families, Lines};
use he_addr::{Family, Memory, read_ip};
use he_kernel::asked::AskedWays;
use he_kernel::families::can_use;
use he_live::{Reason, Steps};
use he_plan::Line;
use std::alloc::AllocGlobal;
use std::io::Write;
use std::net::Net;
use std::rt::Files;

// The requested families; if those are both, and this machine has a way for only one, that one (AI_ADDRCONFIG of RFC
// 3493 section 6.1). Both are tried if the addresses are known without a look-up, as those of `localhost`, and if the
// lines are not this machine's.
pub(crate) fn families_to_try<R: Files + Net + AllocGlobal>(
    rt: &R,
    asked: &AskedWays,
    request: &ConnectRequest<'_>,
    is_known: bool,
) -> Result<Families, ConnectFault>
    ensures { IfOk result (Tries request.now.families) }
{
    match (request.families, request.lines) {
        (Families::Both, Lines::Machine) if !is_known => Ok(usable(
            can_use(rt, asked, Family::V6)?,
            can_use(rt, asked, Family::V4)?,
        )),
        _ => Ok(request.families),
    }
}

fn usable(six: bool, four: bool) -> Families {
    match (six, four) {
        (true, false) => Families::Only(Family::V6),
        (false, true) => Families::Only(Family::V4),
        _ => Families::Both,
    }
}

fn version_of(family: Family) -> &'static str {
    match family {
        Family::V6 => "IPv6",
        Family::V4 => "IPv4",
    }
}

/// Appends that the name has no address of the family.
///
/// # Errors
///
/// `Memory` if an allocation fails; part of the line may have been appended.
pub fn write_lack(host: &str, family: Family, out: &mut Vec<u8>) -> Result<(), Memory> {
    out.extend_from_slice(b"he: ")?;
    out.extend_from_slice(host.as_bytes())?;
    out.extend_from_slice(match family {
        Family::V6 => b" has no IPv6 address\n",
        Family::V4 => b" has no IPv4 address\n",
    })?;
    Ok(())
}

/// The family of the host, if the host is an address of a family that is not requested.
pub fn excluded(request: &ConnectRequest<'_>) -> Option<Family> {
    let only = request.families.only()?;
    let family = read_ip(request.host.as_bytes())?.family();
    if family == only { None } else { Some(family) }
}

/// Appends that the host is an address of this family, which an option excludes.
///
/// # Errors
///
/// `Memory` if an allocation fails; part of the line may have been appended.
pub fn write_excluded(host: &str, family: Family, out: &mut Vec<u8>) -> Result<(), Memory> {
    out.extend_from_slice(b"he: ")?;
    out.extend_from_slice(host.as_bytes())?;
    out.extend_from_slice(match family {
        Family::V6 => b" is an IPv6 address, but -4 was given\n",
        Family::V4 => b" is an IPv4 address, but -6 was given\n",
    })?;
    Ok(())
}

/// Appends a line for each family with an unreachable network, if this machine has no way for the family.
///
/// # Errors
///
/// `Machine` if this machine's addresses can't be read; `Memory`. Part may have been appended.
pub fn write_unusable<R: Files + Net + AllocGlobal>(
    rt: &R,
    asked: &AskedWays,
    attempts: &[Line],
    steps: &Steps,
    out: &mut Vec<u8>,
) -> Result<(), ConnectFault> {
    for family in [Family::V6, Family::V4] {
        if lacks_network(attempts, steps, family) && !can_use(rt, asked, family)? {
            let version = version_of(family);
            let line = format!(in rt.alloc();
                "he: this machine has no {version} address or route beyond the local link\n"
            )?;
            out.extend_from_slice(line.as_bytes())?;
        }
    }
    Ok(())
}

// Whether an attempt of the family failed because its network is unreachable.
fn lacks_network(attempts: &[Line], steps: &Steps, family: Family) -> bool {
    for attempt in attempts {
        if attempt.ip.family() == family
            && steps.reason_of(attempt.place) == Reason::NetworkUnreachable
        {
            return true;
        }
    }
    false
}

// Prints which family is not queried, and why; in a race that embeds IPv4 hosts it may be queried later.
pub(crate) fn tell_unasked<F: Write>(
    wanted: Families,
    tried: Families,
    embeds: bool,
    faults: &mut F,
) {
    let Families::Only(family) = tried else {
        return;
    };
    let (record, without, option) = match family {
        Family::V6 => ("A", Family::V4, "-6"),
        Family::V4 => ("AAAA", Family::V6, "-4"),
    };
    let version = version_of(without);
    let asked = if embeds { "not asked yet" } else { "not asked" };
    let _ = if wanted == tried {
        writeln!(faults, "he: 0 ms: {record} {asked} ({option})")
    } else {
        writeln!(
            faults,
            "he: 0 ms: {record} {asked}: this machine has no {version} address or route beyond the local link"
        )
    };
}
