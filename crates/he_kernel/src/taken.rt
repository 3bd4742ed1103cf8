// A machine for which the rules select the kernel's sources: the kernel is asked for each destination, and no routing
// table is read.
//
// Proved: the kernel's answers become the machine that `find_host_to` makes of them. No contract has the answers.

ghost use Rattle.std.specs.Prelude.{◌≡◌, [], IfOk, IfSome, OnOk, length, map, min, take};
ghost use Rattle.std.specs.List.{list_any};
ghost use Rattle.he_addr.specs.declared.ip.Ip.TheVariants.{V6};
ghost use Rattle.he_addr.specs.Ip.{same_ip};
ghost use Rattle.he_kernel.specs.Ways.{IsMachineOf, IsMachineTo, compares_v4, ip_of, is_v4_way, sources_after, with_source};
ghost use Rattle.he_kernel.specs.declared.taken.TheConstants.{MOST_DESTINATIONS};

use crate::asked::AskedWays;
use crate::fault::MachineFault;
use crate::files::{read_if_there, read_link_of};
use crate::if_inet6::{NAME, make_source, read_address_line};
use crate::lines::read_lines;
use crate::link::Link;
use crate::parts::field;
use crate::remarks::write_unsaid;
use crate::sockets::{NO_SCOPE, ask_len};
use crate::ways::{TakenSource, Way, find_host_to, find_unsaid};
use he_addr::prefix::{V4_BITS, V6_BITS};
use he_addr::{Family, Ip};
use he_select::limits::ROUTES;
use he_select::{Host, Policy, Source};
use std::alloc::{AllocGlobal, Global};
use std::net::Net;
use std::rt::Files as FileSystem;

/// The most destinations of one family with lines in a race: half of its routes, to leave room for the other family.
pub const MOST_DESTINATIONS: usize = ROUTES / 2;

// The interface's name in a line of `/proc/net/if_inet6`.
fn interface_in<'t>(line: &'t [u8]) -> Option<&'t str> {
    std::str::from_utf8(field(line, NAME)?).ok()
}

// The interface of a line of `/proc/net/if_inet6`.
pub(crate) fn read_link_in<R: FileSystem + AllocGlobal>(
    rt: &R,
    line: &[u8],
    remarks: &mut Vec<u8>,
) -> Result<Option<Link>, MachineFault> {
    match interface_in(line) {
        Some(name) => Ok(Some(read_link_of(rt, name, remarks)?)),
        None => Ok(None),
    }
}

// The properties of this address, as on the interface of this number, by a line of `/proc/net/if_inet6`. None if the
// line is for another address or can't be used.
fn read_v6_taken<R: FileSystem + AllocGlobal>(
    rt: &R,
    line: &[u8],
    ip: u128,
    interface: u16,
    remarks: &mut Vec<u8>,
) -> Result<Option<TakenSource>, MachineFault>
    ensures { IfOk result (λ found. IfSome found (λ taken. taken.source.ip ≡ V6 ip)) }
{
    let Some(read) = read_address_line(line) else {
        return Ok(None);
    };
    if read.number != ip {
        return Ok(None);
    }
    let Some(mut link) = read_link_in(rt, line, remarks)? else {
        return Ok(None);
    };
    link.number = interface;
    match make_source(read, Some(link)) {
        Ok(source) => Ok(Some(TakenSource {
            source: Source {
                ip: Ip::V6(ip),
                ..source
            },
            tunnel: link.tunnel,
        })),
        Err(_) => Ok(None),
    }
}

// The properties of an IPv6 address of this machine, by `/proc/net/if_inet6`; only the address if it isn't there.
fn find_v6_taken<R: FileSystem + AllocGlobal>(
    rt: &R,
    if_inet6: &[u8],
    ip: u128,
    interface: u16,
    remarks: &mut Vec<u8>,
) -> Result<TakenSource, MachineFault>
    ensures { IfOk result (λ taken. taken.source.ip ≡ V6 ip) }
{
    for line in read_lines(rt.alloc(), if_inet6)?.iter() {
        if let Some(taken) = read_v6_taken(rt, line.text, ip, interface, remarks)? {
            return Ok(taken);
        }
    }
    Ok(taken_alone(Ip::V6(ip), V6_BITS, interface))
}

fn taken_alone(ip: Ip, plen: u8, interface: u16) -> TakenSource
    ensures { result.source.ip ≡ ip }
{
    TakenSource {
        source: Source {
            ip,
            plen,
            interface,
            deprecated: false,
            temporary: false,
        },
        tunnel: false,
    }
}

// How the sources of a machine are looked up.
#[derive(Clone, Copy)]
struct Asking {
    numbering: Numbering,
    // Whether to ask the kernel for the prefix length of an IPv4 source.
    asks_len: bool,
}

// How the sources are looked up, with the text of `/proc/net/if_inet6`.
#[derive(Clone, Copy)]
struct Reading<'t> {
    if_inet6: &'t [u8],
    asking: Asking,
}

// The properties of a source that the kernel selects, as on the interface of this number.
fn find_source<R: FileSystem + Net + AllocGlobal>(
    rt: &R,
    reading: Reading<'_>,
    ip: Ip,
    interface: u16,
    remarks: &mut Vec<u8>,
) -> Result<TakenSource, MachineFault>
    ensures { IfOk result (λ taken. taken.source.ip ≡ ip) }
{
    match ip {
        Ip::V4(bits) if reading.asking.asks_len => Ok(taken_alone(
            ip,
            ask_len(rt, bits),
            interface,
        )),
        Ip::V4(_) => Ok(taken_alone(ip, V4_BITS, interface)),
        Ip::V6(bits) => find_v6_taken(rt, reading.if_inet6, bits, interface, remarks),
    }
}

// Whether rule 9 of RFC 6724 section 6 compares IPv4 destinations: two of them have a source.
fn compares_v4(ways: &[Way]) -> bool
    ensures { result ≡ compares_v4 ways.now }
{
    ways.iter().filter(|way| is_v4_way(**way)).count() >= 2
}

fn is_v4_way(way: Way) -> bool
    ensures { result ≡ is_v4_way way }
{
    match way.from {
        Some(Ip::V4(_)) => true,
        _ => false,
    }
}

fn has_v6(ways: &[Way]) -> bool {
    ways.iter().any(|way| matches!(way.from, Some(Ip::V6(_))))
}

// The interface numbers of sources: each source gets an interface of its own, since Linux doesn't give the interface
// of an IPv4 address, and the rules only compare interfaces for equality.
#[derive(Clone, Copy)]
struct Numbering {
    first: u16,
    step: u16,
}

impl Numbering {
    // 1, 2, 3 and so on.
    fn of_all() -> Numbering {
        Numbering { first: 1, step: 1 }
    }

    // Odd numbers for IPv6, even ones for IPv4.
    fn of(family: Family) -> Numbering {
        let first = match family {
            Family::V6 => 1,
            Family::V4 => 2,
        };
        Numbering { first, step: 2 }
    }

    // The number for the source at this place.
    fn at(self, place: usize) -> u16 {
        let place = u16::try_from(place).unwrap_or(u16::MAX);
        place.saturating_mul(self.step).saturating_add(self.first)
    }
}

// The text of `/proc/net/if_inet6`, if one of the ways has an IPv6 source.
fn read_if_inet6<R: FileSystem + AllocGlobal>(
    rt: &R,
    ways: &[Way],
    remarks: &mut Vec<u8>,
) -> Result<Vec<u8>, MachineFault> {
    if has_v6(ways) {
        read_if_there(rt, "/proc/net/if_inet6", remarks)
    } else {
        Ok(Vec::new(rt.alloc()))
    }
}

// The sources that the kernel selects, each once, in the order of the destinations.
fn find_taken<R: FileSystem + Net + AllocGlobal>(
    rt: &R,
    ways: &[Way],
    asking: Asking,
    remarks: &mut Vec<u8>,
) -> Result<Vec<TakenSource>, MachineFault>
    ensures { IfOk result (λ taken. map ip_of taken.items ≡ sources_after [] ways.now) }
{
    let if_inet6 = read_if_inet6(rt, ways, remarks)?;
    let reading = Reading {
        if_inet6: &if_inet6,
        asking,
    };
    let mut taken = Vec::new(rt.alloc());
    for way in ways {
        add_taken(rt, reading, way.from, &mut taken, remarks)?;
    }
    Ok(taken)
}

// Adds the source of a way, if it isn't there yet.
fn add_taken<R: FileSystem + Net + AllocGlobal>(
    rt: &R,
    reading: Reading<'_>,
    from: Option<Ip>,
    taken: &mut Vec<TakenSource>,
    remarks: &mut Vec<u8>,
) -> Result<(), MachineFault>
    ensures { OnOk result (map ip_of taken.new.items ≡ with_source (map ip_of taken.old.items) from) }
{
    let Some(ip) = from else {
        return Ok(());
    };
    if !is_taken_already(taken, ip) {
        let interface = reading.asking.numbering.at(taken.len());
        taken.push(find_source(rt, reading, ip, interface, remarks)?)?;
    }
    Ok(())
}

fn is_taken_already(taken: &[TakenSource], ip: Ip) -> bool
    ensures { result ≡ list_any (λ other. same_ip other ip) (map ip_of taken.now) }
{
    for one in taken {
        if one.source.ip == ip {
            return true;
        }
    }
    false
}

// The way to each destination, by the kernel's answers in this race.
fn ask_ways<R: Net + AllocGlobal>(
    rt: &R,
    asked: &AskedWays,
    destinations: &[Ip],
    scope: u32,
    remarks: &mut Vec<u8>,
) -> Result<Vec<Way>, MachineFault>
    ensures { IfOk result (λ ways. map (λ way. way.to) ways.items ≡ destinations.now) }
{
    let mut ways = Vec::new(rt.alloc());
    for to in destinations {
        ways.push(asked.way_or_remark(rt, *to, scope, remarks)?)?;
    }
    Ok(ways)
}

// The machine with the sources that the kernel selects for these ways.
fn find_machine<R: FileSystem + Net + AllocGlobal>(
    rt: &R,
    ways: &[Way],
    asking: Asking,
    remarks: &mut Vec<u8>,
) -> Result<Host<Global>, MachineFault>
    ensures { IfOk result (IsMachineOf ways.now) }
{
    let taken = find_taken(rt, ways, asking, remarks)?;
    Ok(find_host_to(rt.alloc(), &taken, ways)?)
}

/// The machine for which the rules select the kernel's source for each of these destinations ([`find_host_to`]).
/// Link-local destinations are reached over the interface `scope` ([`ask_source`]). No routes are read, however many
/// there are: the kernel is asked once in a race for each destination ([`AskedWays`]). An IPv4 source has its
/// network's prefix length only if the rules may use it, for two or more IPv4 destinations, and otherwise 32. A
/// remark is appended for each file that exists but can't be read, and for each destination that the kernel can't be
/// asked for.
///
/// # Errors
///
/// [`MachineFault::Memory`] if an allocation fails.
///
/// [`ask_source`]: crate::sockets::ask_source
pub fn find_machine_to<R: FileSystem + Net + AllocGlobal>(
    rt: &R,
    asked: &AskedWays,
    destinations: &[Ip],
    scope: u32,
    remarks: &mut Vec<u8>,
) -> Result<Host<Global>, MachineFault>
    ensures { IfOk result (IsMachineTo destinations.now) }
{
    let ways = ask_ways(rt, asked, destinations, scope, remarks)?;
    let asking = Asking {
        numbering: Numbering::of_all(),
        asks_len: compares_v4(&ways),
    };
    find_machine(rt, &ways, asking, remarks)
}

/// As [`find_machine_to`], for the first [`MOST_DESTINATIONS`] of these destinations, which are of one family, in a
/// race that gets lines for the other family too: the two families have no interface number in common.
///
/// # Errors
///
/// [`MachineFault::Memory`] if an allocation fails.
pub fn find_machine_of<R: FileSystem + Net + AllocGlobal>(
    rt: &R,
    asked: &AskedWays,
    family: Family,
    destinations: &[Ip],
    remarks: &mut Vec<u8>,
) -> Result<Host<Global>, MachineFault>
    ensures { IfOk result (IsMachineTo (take (min MOST_DESTINATIONS (length destinations.now)) destinations.now)) }
{
    let first = MOST_DESTINATIONS.min(destinations.len());
    let ways = ask_ways(rt, asked, &destinations[..first], NO_SCOPE, remarks)?;
    let asking = Asking {
        numbering: Numbering::of(family),
        asks_len: compares_v4(&ways),
    };
    find_machine(rt, &ways, asking, remarks)
}

/// The machine for which the rules select the kernel's source for each of these destinations ([`find_machine_to`]),
/// each IPv4 source with its network's prefix length. Appends a remark for each destination that no lines can express
/// too. Link-local IPv6 destinations have no interface, and so no way.
///
/// # Errors
///
/// [`MachineFault::Memory`] if an allocation fails.
pub fn read_machine_to<R: FileSystem + Net + AllocGlobal>(
    rt: &R,
    destinations: &[Ip],
    remarks: &mut Vec<u8>,
) -> Result<Host<Global>, MachineFault>
    ensures { IfOk result (IsMachineTo destinations.now) }
{
    let asked = AskedWays::new(rt.alloc())?;
    let ways = ask_ways(rt, &asked, destinations, NO_SCOPE, remarks)?;
    let asking = Asking {
        numbering: Numbering::of_all(),
        asks_len: true,
    };
    let machine = find_machine(rt, &ways, asking, remarks)?;
    remark_unsaid(rt.alloc(), &machine, &ways, remarks)?;
    Ok(machine)
}

// Appends a remark for each destination for which the rules select another source of the machine than the kernel.
fn remark_unsaid(
    alloc: Global,
    machine: &Host<Global>,
    ways: &[Way],
    remarks: &mut Vec<u8>,
) -> Result<(), MachineFault> {
    let policy = Policy::standard(alloc)?;
    for way in find_unsaid(alloc, machine, &policy, ways)?.iter() {
        write_unsaid(*way, remarks)?;
    }
    Ok(())
}
