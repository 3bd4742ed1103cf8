// Remarks on lines that a race leaves out, and on guesses: one line each.

use crate::fib_trie::{OwnAddress, read_own_addresses};
use crate::found::{FoundRoute, Metered};
use crate::host::Files;
use crate::ipv4_route::read_mask;
use crate::ipv6_route::read_route_line;
use crate::left_out::{File, LeftOut};
use crate::placing::holds;
use he_addr::prefix::MAPPED_LEN;
use he_addr::{Ip, Memory, Prefix, read_number, write_ip, write_number, write_prefix};
use he_kernel::if_inet6::read_address_line;
use he_kernel::ipv4_line::read_v4_line;
use he_kernel::lines::{NumberedLine, read_lines};
use he_kernel::parts::field;
use he_kernel::why::Why;
use he_select::Source;
use std::alloc::Allocator;

fn file_name(file: File) -> &'static [u8] {
    match file {
        File::IfInet6 => b"/proc/net/if_inet6",
        File::FibTrie => b"/proc/net/fib_trie",
        File::Ipv6Route => b"/proc/net/ipv6_route",
        File::Ipv4Route => b"/proc/net/route",
    }
}

// Why a line is left out; None if it needs no remark.
fn reason(why: Why) -> Option<&'static [u8]> {
    match why {
        Why::Unclear => Some(b"is not understood"),
        Why::Unready => Some(b"is not in use: tentative, or found twice on its link"),
        Why::Unusable => Some(b"cannot be used as a source address"),
        Why::Down => Some(b"is of an interface that is down, has no carrier or is not known"),
        Why::Unreachable => Some(b"leads nowhere: unreachable, prohibited or a blackhole"),
        Why::Unconnected => Some(b"is on an unknown interface: no route contains it"),
        Why::Repeated => Some(b"is there already, over another interface"),
        Why::TooMany => Some(b"is more than a race holds: 64 sources and 64 routes"),
        Why::Internal | Why::Again => None,
    }
}

// The subject of a remark.
#[derive(Clone, Copy)]
enum Subject {
    Address(Ip),
    // The bits and the length of a prefix.
    Route(u128, u8),
}

// The line with this number. It is the line at its place, unless an empty line precedes it.
fn line_at<'t>(lines: &[NumberedLine<'t>], number: u64) -> Option<&'t [u8]> {
    let place = usize::try_from(number).ok()?.checked_sub(1)?;
    let line = lines.get(place)?;
    if line.number == number {
        Some(line.text)
    } else {
        None
    }
}

fn find_address(own: &[OwnAddress], number: u64) -> Option<Ip> {
    for address in own {
        if address.line == number {
            return address.ip;
        }
    }
    None
}

fn v6_subject(line: &[u8]) -> Option<Subject> {
    let read = read_route_line(line)?;
    Some(Subject::Route(read.bits, read.len))
}

fn v4_subject(line: &[u8]) -> Option<Subject> {
    let read = read_v4_line(line)?;
    let prefix = read_mask(read.destination, read.mask)?;
    Some(Subject::Route(prefix.bits(), prefix.len()))
}

fn source_subject(line: &[u8]) -> Option<Subject> {
    Some(Subject::Address(Ip::V6(read_address_line(line)?.number)))
}

// The lines of the files, to look up those that are left out.
#[derive(Drop)]
struct Read<'t, A: Allocator> {
    if_inet6: Vec<NumberedLine<'t>, A>,
    own: Vec<OwnAddress, A>,
    ipv6_route: Vec<NumberedLine<'t>, A>,
    route: Vec<NumberedLine<'t>, A>,
}

impl<'t, A: Allocator + Copy> Read<'t, A> {
    fn new(alloc: A, files: Files<'t>) -> Result<Read<'t, A>, Memory> {
        let trie = read_lines(alloc, files.fib_trie)?;
        Ok(Read {
            if_inet6: read_lines(alloc, files.if_inet6)?,
            own: read_own_addresses(alloc, &trie)?,
            ipv6_route: read_lines(alloc, files.ipv6_route)?,
            route: read_lines(alloc, files.route)?,
        })
    }

    fn subject(&self, left: LeftOut) -> Option<Subject> {
        match left.file {
            File::IfInet6 => source_subject(line_at(&self.if_inet6, left.line)?),
            File::FibTrie => Some(Subject::Address(find_address(&self.own, left.line)?)),
            File::Ipv6Route => v6_subject(line_at(&self.ipv6_route, left.line)?),
            File::Ipv4Route => v4_subject(line_at(&self.route, left.line)?),
        }
    }
}

fn write_word<A: Allocator + Copy>(word: &[u8], out: &mut Vec<u8, A>) -> Result<(), Memory> {
    out.extend_from_slice(word)?;
    Ok(())
}

fn write_route<A: Allocator + Copy>(
    bits: u128,
    len: u8,
    out: &mut Vec<u8, A>,
) -> Result<(), Memory> {
    match Prefix::try_new(bits, len) {
        Some(prefix) => {
            write_word(b"the route ", out)?;
            write_prefix(prefix, true, out)
        }
        None => write_word(b"a line", out),
    }
}

fn write_subject<A: Allocator + Copy>(
    subject: Option<Subject>,
    out: &mut Vec<u8, A>,
) -> Result<(), Memory> {
    match subject {
        Some(Subject::Address(ip)) => {
            write_word(b"the address ", out)?;
            write_ip(ip, out)
        }
        Some(Subject::Route(bits, len)) => write_route(bits, len, out),
        None => write_word(b"a line", out),
    }
}

// he: left out: the route 10.0.0.0/8 (/proc/net/route, line 3) REASON
fn write_remark<A: Allocator + Copy>(
    left: LeftOut,
    subject: Option<Subject>,
    reason: &[u8],
    out: &mut Vec<u8, A>,
) -> Result<(), Memory> {
    write_word(b"he: left out: ", out)?;
    write_subject(subject, out)?;
    write_word(b" (", out)?;
    write_word(file_name(left.file), out)?;
    write_word(b", line ", out)?;
    write_number(left.line, out)?;
    write_word(b") ", out)?;
    write_word(reason, out)?;
    write_word(b"\n", out)
}

// Whether a route leads to the network of the address, over another interface than the source's.
fn is_to_network(metered: Metered, source: Source) -> bool {
    let route = metered.route;
    holds(metered, source.ip)
        && route.prefix.len().saturating_sub(MAPPED_LEN) == source.plen
        && route.interface != source.interface
}

/// Whether the network of an IPv4 address is also on another interface, so that no file locates the address.
pub fn is_elsewhere(routes: &[FoundRoute], source: Source) -> bool {
    for found in routes {
        if let Ok(metered) = found.read {
            if is_to_network(metered, source) {
                return true;
            }
        }
    }
    false
}

/// Appends the remark for a source whose interface is a guess, with the reason.
///
/// # Errors
///
/// [`Memory`] if an allocation fails; part of the line may have been appended.
pub fn write_guess<A: Allocator + Copy>(
    source: Source,
    reason: &[u8],
    out: &mut Vec<u8, A>,
) -> Result<(), Memory> {
    write_word(b"he: guess: the address ", out)?;
    write_ip(source.ip, out)?;
    write_word(b" is assumed to be on interface ", out)?;
    write_number(u64::from(source.interface), out)?;
    write_word(reason, out)?;
    write_word(b"\n", out)
}

/// Appends the remark for a route for whose destinations the kernel selects another source than the rules.
///
/// # Errors
///
/// [`Memory`] if an allocation fails; part of the line may have been appended.
pub fn write_other_source<A: Allocator + Copy>(
    prefix: Prefix,
    said: Ip,
    taken: Ip,
    out: &mut Vec<u8, A>,
) -> Result<(), Memory> {
    write_word(b"he: the kernel reaches ", out)?;
    write_prefix(prefix, true, out)?;
    write_word(b" from ", out)?;
    write_ip(taken, out)?;
    write_word(b", and not from ", out)?;
    write_ip(said, out)?;
    write_word(
        b" as these lines say: `he host --for ADDRESS` asks it for single addresses\n",
        out,
    )
}

// The number of a table in its heading in `/proc/net/fib_trie`, as `Id 51820:`; None in other lines, those of the
// tables `main` and `local` included.
fn table_of(line: &[u8]) -> Option<u64> {
    if field(line, 0)? != b"Id".as_slice() {
        return None;
    }
    let number = field(line, 1)?;
    let end = number.iter().position(|byte| *byte == b':')?;
    read_number(&number[..end])
}

/// Appends a remark for each IPv4 routing table other than `main` and `local`, which policy routing may use: Linux
/// has no file of its routes.
///
/// # Errors
///
/// [`Memory`] if an allocation fails; part of the lines may have been appended.
pub fn write_unseen_tables<A: Allocator + Copy>(
    alloc: A,
    fib_trie: &[u8],
    out: &mut Vec<u8, A>,
) -> Result<(), Memory> {
    for line in read_lines(alloc, fib_trie)?.iter() {
        if let Some(table) = table_of(line.text) {
            write_word(b"he: not included: the IPv4 routes of table ", out)?;
            write_number(table, out)?;
            write_word(
                b", which `ip rule` may use: /proc/net/route has only the main table\n",
                out,
            )?;
        }
    }
    Ok(())
}

/// Appends a remark for each line of the files that is left out, except those for the kernel's internal routes and
/// for a route that is already there.
///
/// # Errors
///
/// [`Memory`] if an allocation fails; part of the lines may have been appended.
pub fn write_remarks<A: Allocator + Copy>(
    alloc: A,
    files: Files<'_>,
    left_out: &[LeftOut],
    out: &mut Vec<u8, A>,
) -> Result<(), Memory> {
    let read = Read::new(alloc, files)?;
    for left in left_out {
        if let Some(reason) = reason(left.why) {
            write_remark(*left, read.subject(*left), reason, out)?;
        }
    }
    Ok(())
}
