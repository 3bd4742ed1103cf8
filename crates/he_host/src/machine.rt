// This machine: reads its files, and asks the kernel what they leave open.
//
// Proved: this is safe and ends. No contract has the system's answers.

use crate::fib_trie::{OwnAddress, read_own_addresses};
use crate::found::FoundRoute;
use crate::host::{Files, FoundHost, find_host, find_routes};
use crate::interface::Interface;
use crate::placing::{Around, InterfaceAnswer, find_connected, make_v4_source};
use crate::remarks::{
    is_elsewhere, write_guess, write_other_source, write_remarks, write_unseen_tables,
};
use he_addr::prefix::V6_BITS;
use he_addr::{Ip, Memory, Prefix};
use he_kernel::fault::MachineFault;
use he_kernel::files::{read_if_there, read_link_of};
use he_kernel::lines::read_lines;
use he_kernel::link::Link;
use he_kernel::parts::field;
use he_kernel::sockets::{NO_SCOPE, ROOT_SERVER_V4, ROOT_SERVER_V6, ask_source};
use he_kernel::why::Why;
use he_select::{Host, Policy, Route, Source};
use std::alloc::{AllocGlobal, Global};
use std::fs;
use std::net::Net;
use std::rt::Files as FileSystem;

// An interface with its own copy of its name.
#[derive(Drop)]
struct Named {
    name: Vec<u8>,
    link: Link,
}

// The name in a line of `/proc/net/dev`, before a colon.
fn name_in<'t>(line: &'t [u8]) -> Option<&'t str> {
    let first = field(line, 0)?;
    let end = first.iter().position(|byte| *byte == b':')?;
    std::str::from_utf8(&first[..end]).ok()
}

// The interfaces of `/proc/net/dev`.
fn read_interfaces<R: FileSystem + AllocGlobal>(
    rt: &R,
    remarks: &mut Vec<u8>,
) -> Result<Vec<Named>, MachineFault> {
    let text = fs::read(rt, "/proc/net/dev")?;
    let mut interfaces = Vec::new(rt.alloc());
    for line in read_lines(rt.alloc(), &text)?.iter() {
        if let Some(name) = name_in(line.text) {
            interfaces.push(Named {
                name: Vec::from_slice(rt.alloc(), name.as_bytes())?,
                link: read_link_of(rt, name, remarks)?,
            })?;
        }
    }
    Ok(interfaces)
}

// An IPv4 address that the route leads to: the first after the network's address, if it has more than one.
fn destination_of(route: Route) -> Option<u32> {
    if !route.prefix.is_v4() {
        return None;
    }
    let first = (route.prefix.bits() & 0xffff_ffff) as u32;
    if route.prefix.len() == V6_BITS {
        Some(first)
    } else {
        first.checked_add(1)
    }
}

// The source that the kernel selects for the destinations of a route, with the route's interface.
fn ask_route<R: Net>(rt: &R, found: FoundRoute) -> Option<InterfaceAnswer> {
    let metered = found.read.ok()?;
    let ip = ask_source(rt, Ip::V4(destination_of(metered.route)?), NO_SCOPE)?;
    Some(InterfaceAnswer {
        ip,
        interface: metered.route.interface,
    })
}

// Whether an address is in no connected route.
fn is_open(around: Around<'_, '_, '_>, own: &[OwnAddress]) -> bool {
    for address in own {
        if let Err(Why::Unconnected) = make_v4_source(around, address.ip) {
            return true;
        }
    }
    false
}

// Asks once for each route, if any address is in no connected route.
fn ask<R: Net + AllocGlobal>(
    rt: &R,
    around: Around<'_, '_, '_>,
    own: &[OwnAddress],
) -> Result<Vec<InterfaceAnswer>, MachineFault> {
    let mut asked = Vec::new(rt.alloc());
    if !is_open(around, own) {
        return Ok(asked);
    }
    for found in around.routes {
        if let Some(told) = ask_route(rt, *found) {
            asked.push(told)?;
        }
    }
    Ok(asked)
}

// Whether the kernel selects the address for others of its connected route: then it is on the interface of that
// route.
fn is_taken<R: Net>(rt: &R, ip: Ip, route: Route) -> bool {
    match destination_of(route) {
        Some(other) => {
            let other = Ip::V4(other);
            other != ip && ask_source(rt, other, NO_SCOPE) == Some(ip)
        }
        None => false,
    }
}

// Whether the interface of an address is a guess: its network is on several interfaces, and the kernel selects
// another address there.
fn is_guess<R: Net>(rt: &R, routes: &[FoundRoute], source: Source) -> bool {
    match find_connected(routes, source.ip) {
        Some(route) => is_elsewhere(routes, source) && !is_taken(rt, source.ip, route),
        None => false,
    }
}

// Whether the source's interface is that of a route for which the kernel selects it, since no connected route
// contains it.
fn is_asked_place(routes: &[FoundRoute], source: Source) -> bool {
    match source.ip {
        Ip::V4(bits) => bits >> 24 != 127 && find_connected(routes, source.ip).is_none(),
        Ip::V6(_) => false,
    }
}

// Appends a remark for each source whose interface is a guess.
fn tell_guesses<R: Net>(
    rt: &R,
    routes: &[FoundRoute],
    sources: &[Source],
    remarks: &mut Vec<u8>,
) -> Result<(), MachineFault> {
    for source in sources {
        if is_guess(rt, routes, *source) {
            write_guess(
                *source,
                b", because its network is on several interfaces",
                remarks,
            )?;
        } else if is_asked_place(routes, *source) {
            write_guess(
                *source,
                b", because the kernel uses it for a route there",
                remarks,
            )?;
        }
    }
    Ok(())
}

// An address in the prefix: that of a root name server, or the first after the network's address.
fn probe_of(prefix: Prefix) -> Option<Ip> {
    for ip in [ROOT_SERVER_V4, ROOT_SERVER_V6] {
        if prefix.contains(ip) {
            return Some(ip);
        }
    }
    let bits = if prefix.len() == V6_BITS {
        prefix.bits()
    } else {
        prefix.bits().checked_add(1)?
    };
    Some(if prefix.is_v4() {
        Ip::V4((bits & 0xffff_ffff) as u32)
    } else {
        Ip::V6(bits)
    })
}

// Whether the route is the longest one to the address.
fn leads(route: Route, routes: &[Route], to: Ip) -> bool {
    !routes.iter().any(|other| other.prefix.len() > route.prefix.len() && other.prefix.contains(to))
}

// Appends a remark for each route for which the kernel selects another source than the rules do with these lines:
// policy routing or a source named by the route decides there.
fn tell_other_sources<R: Net + AllocGlobal>(
    rt: &R,
    machine: &Host<Global>,
    remarks: &mut Vec<u8>,
) -> Result<(), MachineFault> {
    let policy = Policy::standard(rt.alloc())?;
    for route in machine.routes() {
        let Some(to) = probe_of(route.prefix) else {
            continue;
        };
        if !leads(*route, machine.routes(), to) {
            continue;
        }
        let taken = ask_source(rt, to, NO_SCOPE);
        if let (Some(said), Some(taken)) = (machine.source(&policy, to), taken) {
            if said != taken {
                write_other_source(route.prefix, said, taken, remarks)?;
            }
        }
    }
    Ok(())
}

// The machine by the files, and by the kernel for what they leave open.
fn ask_host<R: Net + AllocGlobal>(
    rt: &R,
    files: Files<'_>,
    interfaces: &[Interface<'_>],
    remarks: &mut Vec<u8>,
) -> Result<FoundHost<Global>, MachineFault> {
    let routes = find_routes(rt.alloc(), files, interfaces)?;
    let trie = read_lines(rt.alloc(), files.fib_trie)?;
    let own = read_own_addresses(rt.alloc(), &trie)?;
    let around = Around {
        interfaces,
        routes: &routes,
        asked: &[],
    };
    let asked = ask(rt, around, &own)?;
    let around = Around {
        interfaces,
        routes: &routes,
        asked: &asked,
    };
    let found = find_host(rt.alloc(), files, around)?;
    tell_guesses(rt, &routes, found.host.sources(), remarks)?;
    tell_other_sources(rt, &found.host, remarks)?;
    Ok(found)
}

/// The sources and routes of this machine. Appends a remark for each thing that is left out or is a guess, and for
/// each file that exists but can't be read.
///
/// # Errors
///
/// [`MachineFault::NoFiles`] if `/proc/net` can't be read. [`MachineFault::Memory`] if an allocation fails.
pub fn read_machine<R: FileSystem + Net + AllocGlobal>(
    rt: &R,
    remarks: &mut Vec<u8>,
) -> Result<Host<Global>, MachineFault> {
    let named = read_interfaces(rt, remarks)?;
    let mut interfaces = Vec::new(rt.alloc());
    for interface in named.iter() {
        interfaces.push(Interface {
            name: &interface.name,
            link: interface.link,
        })?;
    }
    let if_inet6 = read_if_there(rt, "/proc/net/if_inet6", remarks)?;
    let fib_trie = fs::read(rt, "/proc/net/fib_trie")?;
    let ipv6_route = read_if_there(rt, "/proc/net/ipv6_route", remarks)?;
    let route = fs::read(rt, "/proc/net/route")?;
    let files = Files {
        if_inet6: &if_inet6,
        fib_trie: &fib_trie,
        ipv6_route: &ipv6_route,
        route: &route,
    };
    let FoundHost { host, left_out } = ask_host(rt, files, &interfaces, remarks)?;
    write_remarks(rt.alloc(), files, &left_out, remarks)?;
    write_unseen_tables(rt.alloc(), files.fib_trie, remarks)?;
    Ok(host)
}
