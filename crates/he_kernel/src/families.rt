// The families that this machine can use.
//
// Proved: this is safe and ends. No contract has the system's answers.

use crate::asked::AskedWays;
use crate::fault::MachineFault;
use crate::files::is_absent;
use crate::if_inet6::{make_source, read_address_line};
use crate::ipv4_line::read_v4_line;
use crate::lines::read_lines;
use crate::sockets::{NO_SCOPE, ROOT_SERVER_V4, ROOT_SERVER_V6};
use crate::taken::read_link_in;
use he_addr::prefix::V6_BITS;
use he_addr::{Family, Ip};
use std::alloc::AllocGlobal;
use std::fs::File;
use std::io::Read;
use std::net::Net;
use std::rt::Files as FileSystem;

// The bytes read of a file of routes or addresses: if there are any, they are in its first lines.
const MOST_BYTES: u64 = 8_192;

// The scope of a link and of the loopback interface (RFC 6724 section 3.1).
const LINK_SCOPE: u8 = 2;

// The first bytes of a file, up to the end of a line; empty if the file doesn't exist, None if it can't be read.
fn read_head<R: FileSystem + AllocGlobal>(
    rt: &R,
    path: &str,
) -> Result<Option<Vec<u8>>, MachineFault> {
    let mut head = Vec::new(rt.alloc());
    match File::open(rt, path) {
        Ok(file) => {
            file.take(MOST_BYTES).read_to_end(&mut head)?;
        }
        Err(error) if is_absent(&error) => {}
        Err(_) => return Ok(None),
    }
    let end = head.iter().rposition(|byte| *byte == b'\n').unwrap_or(0);
    head.truncate(end);
    Ok(Some(head))
}

fn is_wide(ip: Ip) -> bool {
    ip.is_usable() && ip.scope() > LINK_SCOPE
}

// Whether an IPv6 address of more than link scope is in use on a network; true if a file can't be read.
fn has_v6_network<R: FileSystem + AllocGlobal>(rt: &R) -> Result<bool, MachineFault> {
    let Some(text) = read_head(rt, "/proc/net/if_inet6")? else {
        return Ok(true);
    };
    let mut remarks = Vec::new(rt.alloc());
    for line in read_lines(rt.alloc(), &text)?.iter() {
        if let Some(read) = read_address_line(line.text) {
            let source = make_source(read, read_link_in(rt, line.text, &mut remarks)?);
            if source.is_ok_and(|source| source.plen < V6_BITS && is_wide(source.ip)) {
                return Ok(true);
            }
        }
    }
    Ok(!remarks.is_empty())
}

// Whether an IPv4 route leads to a network; true if the file can't be read.
fn has_v4_network<R: FileSystem + AllocGlobal>(rt: &R) -> Result<bool, MachineFault> {
    let Some(text) = read_head(rt, "/proc/net/route")? else {
        return Ok(true);
    };
    for line in read_lines(rt.alloc(), &text)?.iter() {
        if let Some(read) = read_v4_line(line.text) {
            if !read.nowhere && is_wide(Ip::V4(read.destination)) {
                return Ok(true);
            }
        }
    }
    Ok(false)
}

/// Whether this machine can use a family: it has a source of more than loopback and link scope, and a route
/// (AI_ADDRCONFIG of RFC 3493 section 6.1, and a route too). The kernel is asked for its source to an internet
/// address, which sends nothing; without one, a network of this machine suffices. If its files can't be read, the
/// family counts as usable.
///
/// # Errors
///
/// [`MachineFault::Memory`] if an allocation fails.
pub fn can_use<R: FileSystem + Net + AllocGlobal>(
    rt: &R,
    asked: &AskedWays,
    family: Family,
) -> Result<bool, MachineFault> {
    let far = match family {
        Family::V6 => ROOT_SERVER_V6,
        Family::V4 => ROOT_SERVER_V4,
    };
    if asked.way(rt, far, NO_SCOPE).from.is_some_and(is_wide) {
        return Ok(true);
    }
    match family {
        Family::V6 => has_v6_network(rt),
        Family::V4 => has_v4_network(rt),
    }
}
