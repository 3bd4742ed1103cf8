// The contents of files of hosts and of resolver settings, and of names beside them.
//
// A recording `NAME` is `NAME.hosts`, `NAME.resolv` and `NAME.names`, a name a line.

use crate::files::read;
use he_addr::{Memory, write_ip, write_number};
use he_names::{
    Environment, Found, amend, names_to_ask, read_attempts, read_hosts, read_ndots, read_no_aaaa,
    read_search, read_servers, read_timeout, read_use_vc, serves_local,
};
use std::alloc::Global;
use std::io::{self, Write};

const NAMES: [&str; 4] = ["bare", "edge", "plain", "root"];

const ENVIRONMENT: Environment<'static> = Environment {
    local_domain: Some("lab.example corp.LOCAL\nother.example"),
    res_options: Some("ndots:0 timeout:9\nndots:5"),
};

// A recording's files.
#[derive(Clone, Copy)]
struct Files<'t> {
    hosts: &'t [u8],
    settings: &'t [u8],
    names: &'t [u8],
}

pub(crate) fn show_names(rt: &HostRuntime) -> io::Result<()> {
    for name in &NAMES {
        show(rt, name)?;
    }
    show_amended(rt, "root")
}

fn show(rt: &HostRuntime, name: &str) -> io::Result<()> {
    println!(rt; "{name}")?;
    let settings = read(rt, name, "resolv")?;
    show_with(rt, name, &settings)
}

// Shows a recording with the settings as the environment amends them.
fn show_amended(rt: &HostRuntime, name: &str) -> io::Result<()> {
    println!(rt; "{name}, amended")?;
    let mut settings = read(rt, name, "resolv")?;
    match amend(rt.alloc(), ENVIRONMENT, &mut settings) {
        Ok(()) => show_with(rt, name, &settings),
        Err(_) => println!(rt; "out of memory"),
    }
}

fn show_with(rt: &HostRuntime, name: &str, settings: &[u8]) -> io::Result<()> {
    let hosts = read(rt, name, "hosts")?;
    let names = read(rt, name, "names")?;
    let files = Files {
        hosts: &hosts,
        settings,
        names: &names,
    };
    let mut text = Vec::new(rt.alloc());
    match write_recording(rt.alloc(), files, &mut text) {
        Ok(()) => rt.stdout().write_all(&text),
        Err(_) => println!(rt; "out of memory"),
    }
}

fn write_recording(alloc: Global, files: Files<'_>, out: &mut Vec<u8>) -> Result<(), Memory> {
    write_settings(alloc, files.settings, out)?;
    for name in files.names.split(|byte| *byte == b'\n') {
        if !name.is_empty() {
            write_asked(alloc, files.settings, name, out)?;
            write_known(alloc, files.hosts, name, out)?;
        }
    }
    Ok(())
}

fn write_settings(alloc: Global, settings: &[u8], out: &mut Vec<u8>) -> Result<(), Memory> {
    out.extend_from_slice(b"servers")?;
    for server in &read_servers(alloc, settings)? {
        out.push(b' ')?;
        write_ip(server.ip, out)?;
        if let Some(zone) = server.zone {
            out.push(b'%')?;
            out.extend_from_slice(zone)?;
        }
    }
    out.extend_from_slice(b"\nsearch")?;
    for domain in &read_search(alloc, settings)? {
        out.push(b' ')?;
        out.extend_from_slice(domain)?;
    }
    out.extend_from_slice(b"\nndots ")?;
    write_number(read_ndots(alloc, settings)?, out)?;
    out.extend_from_slice(b" timeout ")?;
    write_number(read_timeout(alloc, settings)?, out)?;
    out.extend_from_slice(b" attempts ")?;
    write_number(read_attempts(alloc, settings)?, out)?;
    write_flag(read_use_vc(alloc, settings)?, b" use-vc", out)?;
    write_flag(read_no_aaaa(alloc, settings)?, b" no-aaaa", out)?;
    let search = read_search(alloc, settings)?;
    write_flag(serves_local(alloc, &search)?, b" local", out)?;
    out.push(b'\n')?;
    Ok(())
}

fn write_flag(is_set: bool, word: &[u8], out: &mut Vec<u8>) -> Result<(), Memory> {
    if is_set {
        out.extend_from_slice(word)?;
    }
    Ok(())
}

// The names that are asked for to find a name.
fn write_asked(
    alloc: Global,
    settings: &[u8],
    name: &[u8],
    out: &mut Vec<u8>,
) -> Result<(), Memory> {
    out.extend_from_slice(name)?;
    out.push(b':')?;
    let search = read_search(alloc, settings)?;
    for asked in &names_to_ask(alloc, name, read_ndots(alloc, settings)?, &search)? {
        out.push(b' ')?;
        out.extend_from_slice(asked)?;
    }
    out.push(b'\n')?;
    Ok(())
}

// The answers that the file of hosts has for a name.
fn write_known(alloc: Global, hosts: &[u8], name: &[u8], out: &mut Vec<u8>) -> Result<(), Memory> {
    let known = read_hosts(alloc, hosts, name)?;
    if let Some(found) = Found::new(alloc, 0, &known, 0, &known)? {
        found.write(out)?;
    }
    Ok(())
}
