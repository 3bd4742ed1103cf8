//! The addresses of a host that are known without a name server.

ghost use Rattle.std.specs.Prelude.{◌≡◌, IfErr, IfOk};
ghost use Rattle.he_settings.specs.Known.{AreAll, FindsKnown, IsFaultOf, IsKnown, IsKnownTo, IsOfHosts, items_of, known_of, listed, or_here};
ghost use Rattle.he_settings.specs.declared.fault.NamesFault.TheVariants.{Memory};

use crate::choice::Choice;
use crate::fault::NamesFault;
use crate::file_fault::SystemFile;
use crate::files::{HOSTS, read_file};
use crate::meant::as_meant;
use he_addr::Ip;
use he_names::{Target, read_host, read_hosts};
use std::alloc::{AllocGlobal, Global};
use std::rt::Files;

// Every machine's own addresses.
const LOOPBACK: [Ip; 2] = [Ip::V6(1), Ip::V4(0x7f00_0001)];

/// The addresses of a host that are known without a name server: its own if it is an address or this machine, or
/// those in the hosts file. None if a name server must be asked, or the system's resolver, which reads the hosts file
/// itself. The hosts file is read once, and only for a name.
///
/// # Errors
///
/// `Host` if the text is not a host; `Unreadable` and `Files` if the hosts file can't be read; `Memory`.
pub fn find_known<R: Files + AllocGlobal>(
    rt: &R,
    alloc: Global,
    host: &str,
    choice: Choice<'_>,
) -> Result<Option<Vec<Ip>>, NamesFault>
    ensures known { IfOk result (λ known. FindsKnown host.now choice.entry (items_of known)) }
    ensures fault { IfErr result (IsFaultOf host.now) }
{
    let target = read_host(alloc, host)?;
    known_to(rt, alloc, &target, choice)
}

/// The addresses of a host that are known without a file; None if it must be looked up.
///
/// # Errors
///
/// `Memory`.
pub fn known_by_itself(alloc: Global, target: &Target) -> Result<Option<Vec<Ip>>, NamesFault>
    ensures { IfOk result (λ known. IsKnown target.now (items_of known)) }
{
    Ok(some_of(known_of(alloc, target, &[])?))
}

// The known addresses of the host; None if it must be looked up.
fn known_to<R: Files + AllocGlobal>(
    rt: &R,
    alloc: Global,
    target: &Target,
    choice: Choice<'_>,
) -> Result<Option<Vec<Ip>>, NamesFault>
    ensures known { IfOk result (λ known. IsKnownTo choice.entry target.now (items_of known)) }
    ensures fault { IfErr result (IsOfHosts target.now) }
{
    let hosts = match (target, choice) {
        (Target::Multicast(_) | Target::Name(_), Choice::System) => return Ok(None),
        _ => hosts_for(rt, alloc, target)?,
    };
    Ok(some_of(known_of(alloc, target, &hosts)?))
}

// The hosts file, which is read only for a name.
fn hosts_for<R: Files + AllocGlobal>(
    rt: &R,
    alloc: Global,
    target: &Target,
) -> Result<Vec<u8>, NamesFault>
    ensures { IfErr result (IsOfHosts target.now) }
{
    match target {
        Target::InLoopback(_) => read_file(rt, alloc, HOSTS, SystemFile::Hosts),
        Target::Multicast(_) => read_file(rt, alloc, HOSTS, SystemFile::Hosts),
        Target::Name(_) => read_file(rt, alloc, HOSTS, SystemFile::Hosts),
        _ => Ok(Vec::new(alloc)),
    }
}

// The addresses, if any.
fn some_of(known: Vec<Ip>) -> Option<Vec<Ip>>
    ensures { AreAll known.items (items_of result) }
{
    if known.is_empty() { None } else { Some(known) }
}

// The addresses of a host that are known by itself and by the contents of the hosts file.
fn known_of(alloc: Global, target: &Target, hosts: &[u8]) -> Result<Vec<Ip>, NamesFault>
    ensures known { IfOk result (λ known. known.items ≡ known_of target.now hosts.now) }
    ensures fault { IfErr result (λ fault. fault ≡ Memory) }
{
    match target {
        Target::Address(ip) | Target::OnLink(ip, _) => Ok(Vec::from_slice(alloc, &[*ip])?),
        Target::Loopback => Ok(Vec::from_slice(alloc, &LOOPBACK)?),
        Target::InLoopback(name) => or_here(alloc, listed(alloc, name.as_bytes(), hosts)?),
        Target::Multicast(name) | Target::Name(name) => listed(alloc, name.as_bytes(), hosts),
    }
}

// The addresses or, if there are none, this machine's.
fn or_here(alloc: Global, known: Vec<Ip>) -> Result<Vec<Ip>, NamesFault>
    ensures known { IfOk result (λ all. all.items ≡ or_here known.items) }
    ensures fault { IfErr result (λ fault. fault ≡ Memory) }
{
    if known.is_empty() {
        return Ok(Vec::from_slice(alloc, &LOOPBACK)?);
    }
    Ok(known)
}

fn listed(alloc: Global, name: &[u8], hosts: &[u8]) -> Result<Vec<Ip>, NamesFault>
    ensures known { IfOk result (λ known. known.items ≡ listed name.now hosts.now) }
    ensures fault { IfErr result (λ fault. fault ≡ Memory) }
{
    let known = read_hosts(alloc, hosts, name)?;
    Ok(as_meant(alloc, &known)?)
}
