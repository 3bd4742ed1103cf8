// The machine of each recording, and the lines that are left out of it.
//
// A recording `NAME` is `NAME.if_inet6`, `NAME.fib_trie`, `NAME.ipv6_route` and `NAME.route`, in the formats of
// `/proc/net`, and `NAME.interfaces`, a line for each interface: its name, `ifindex`, `flags`, `carrier` and `type`
// of `/sys/class/net`. A recording of the kernel's answers is `NAME.ways`.

use crate::files::read;
use crate::ways;
use he_host::host::{Files, find_host, find_routes};
use he_host::interface::Interface;
use he_host::placing::Around;
use he_host::remarks::write_remarks;
use he_kernel::lines::read_lines;
use he_kernel::parts::field;
use he_kernel::sysfs::{Sysfs, make_link};
use he_kernel::writing::write_host;
use std::alloc::Global;
use std::io::{self, Write};

const NAMES: [&str; 6] = ["edge", "loopback", "machine", "mixed", "none", "vpn"];

const WAYS: [&str; 3] = ["split", "early", "shared"];

pub(crate) fn show_hosts(rt: &HostRuntime) -> io::Result<()> {
    for name in &NAMES {
        show(rt, name)?;
    }
    for name in &WAYS {
        let recording = read(rt, name, "ways")?;
        tell(rt, name, ways::written(rt.alloc(), &recording))?;
    }
    Ok(())
}

// The interface of a line of a recording.
fn read_interface<'t>(line: &'t [u8]) -> Option<Interface<'t>> {
    Some(Interface {
        name: field(line, 0)?,
        link: make_link(Sysfs {
            ifindex: field(line, 1)?,
            flags: field(line, 2)?,
            carrier: field(line, 3)?,
            kind: field(line, 4)?,
        }),
    })
}

fn show(rt: &HostRuntime, name: &str) -> io::Result<()> {
    let told = read(rt, name, "interfaces")?;
    let if_inet6 = read(rt, name, "if_inet6")?;
    let fib_trie = read(rt, name, "fib_trie")?;
    let ipv6_route = read(rt, name, "ipv6_route")?;
    let route = read(rt, name, "route")?;
    let files = Files {
        if_inet6: &if_inet6,
        fib_trie: &fib_trie,
        ipv6_route: &ipv6_route,
        route: &route,
    };
    tell(rt, name, written(rt.alloc(), &told, files))
}

fn tell(rt: &HostRuntime, name: &str, text: Option<Vec<u8>>) -> io::Result<()> {
    match text {
        Some(text) => {
            println!(rt; "{name}")?;
            rt.stdout().write_all(&text)
        }
        None => println!(rt; "{name}: out of memory"),
    }
}

// The lines of a recording's host, and then those of the rest.
fn written(alloc: Global, told: &[u8], files: Files<'_>) -> Option<Vec<u8>> {
    let mut interfaces = Vec::new(alloc);
    for line in read_lines(alloc, told).ok()?.iter() {
        if let Some(interface) = read_interface(line.text) {
            interfaces.push(interface).ok()?;
        }
    }
    let routes = find_routes(alloc, files, &interfaces).ok()?;
    let around = Around {
        interfaces: &interfaces,
        routes: &routes,
        asked: &[],
    };
    let found = find_host(alloc, files, around).ok()?;
    let mut text = Vec::new(alloc);
    write_host(&found.host, &mut text).ok()?;
    write_remarks(alloc, files, &found.left_out, &mut text).ok()?;
    Some(text)
}
