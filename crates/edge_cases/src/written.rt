// The hosts and ports in texts that people write.
//
// `hosts.written` and `ports.written` have a text a line, `written.services` is the file of services.

use crate::files::read;
use he_addr::write_ip;
use he_names::{Target, read_host, read_port};
use std::io::{self, Write};
use std::str::from_utf8;

pub(crate) fn show_written(rt: &HostRuntime) -> io::Result<()> {
    let hosts = read(rt, "hosts", "written")?;
    println!(rt; "hosts that are written")?;
    for line in hosts.split(|byte| *byte == b'\n') {
        if let Ok(text) = from_utf8(line)
            && !text.is_empty()
        {
            show_host(rt, text)?;
        }
    }
    let ports = read(rt, "ports", "written")?;
    let services = read(rt, "written", "services")?;
    println!(rt; "ports that are written")?;
    for line in ports.split(|byte| *byte == b'\n') {
        if let Ok(text) = from_utf8(line)
            && !text.is_empty()
        {
            show_port(rt, &services, text)?;
        }
    }
    Ok(())
}

fn show_host(rt: &HostRuntime, text: &str) -> io::Result<()> {
    match read_host(rt.alloc(), text) {
        Ok(target) => {
            print!(rt; "{text}: ")?;
            let mut line = Vec::new(rt.alloc());
            write_target(&target, &mut line)?;
            rt.stdout().write_all(&line)
        }
        Err(fault) => println!(rt; "{text}: {fault}"),
    }
}

fn write_target(target: &Target, out: &mut Vec<u8>) -> io::Result<()> {
    match target {
        Target::Address(ip) => {
            out.extend_from_slice(b"address ")?;
            write_ip(*ip, out)?;
        }
        Target::OnLink(ip, interface) => {
            out.extend_from_slice(b"address ")?;
            write_ip(*ip, out)?;
            out.extend_from_slice(b" at ")?;
            out.extend_from_slice(interface)?;
        }
        Target::Loopback => out.extend_from_slice(b"this machine")?,
        Target::InLoopback(name) => {
            out.extend_from_slice(b"this machine, or what the file of hosts has for ")?;
            out.extend_from_slice(name.as_bytes())?;
        }
        Target::Multicast(name) => {
            out.extend_from_slice(b"multicast name ")?;
            out.extend_from_slice(name.as_bytes())?;
        }
        Target::Name(name) => {
            out.extend_from_slice(b"name ")?;
            out.extend_from_slice(name.as_bytes())?;
        }
    }
    out.push(b'\n')?;
    Ok(())
}

fn show_port(rt: &HostRuntime, services: &[u8], text: &str) -> io::Result<()> {
    match read_port(rt.alloc(), services, text.as_bytes()) {
        Ok(port) => println!(rt; "{text}: {port}"),
        Err(fault) => println!(rt; "{text}: {fault}"),
    }
}
