//! The kernel's answers for destinations, as a recording has them, and the lines that follow from them.
//!
//! A recording of answers is `NAME.ways`: lines `own ADDRESS/LENGTH INTERFACE` with the marks `deprecated` and
//! `tunnel`, and after them lines `way DESTINATION SOURCE`, or `way DESTINATION none`.

use he_addr::{read_ip, read_number, read_source, write_ip};
use he_kernel::lines::read_lines;
use he_kernel::parts::field;
use he_kernel::ways::{TakenSource, Way, find_host_to, find_unsaid};
use he_kernel::writing::write_host;
use he_select::{Policy, Source};
use std::alloc::Global;

// The place of the first mark in a line, and the most marks.
const MARKS: usize = 3;

const MOST_MARKS: usize = 2;

fn has_mark(line: &[u8], mark: &[u8]) -> bool {
    (MARKS..MARKS + MOST_MARKS).any(|place| field(line, place) == Some(mark))
}

fn read_own(line: &[u8]) -> Option<TakenSource> {
    if field(line, 0)? != b"own".as_slice() {
        return None;
    }
    let (ip, plen) = read_source(field(line, 1)?)?;
    Some(TakenSource {
        source: Source {
            ip,
            plen,
            interface: u16::try_from(read_number(field(line, 2)?)?).ok()?,
            deprecated: has_mark(line, b"deprecated"),
            temporary: false,
        },
        tunnel: has_mark(line, b"tunnel"),
    })
}

fn read_way(line: &[u8]) -> Option<Way> {
    if field(line, 0)? != b"way".as_slice() {
        return None;
    }
    let to = read_ip(field(line, 1)?)?;
    Some(Way {
        to,
        from: read_ip(field(line, 2)?),
    })
}

/// The lines of the machine, and after them a line `unsaid DESTINATION` for each destination for which the rules take
/// another source than the kernel; `None` if an allocation was refused.
pub fn written(alloc: Global, recording: &[u8]) -> Option<Vec<u8>> {
    let mut own = Vec::new(alloc);
    let mut ways = Vec::new(alloc);
    for line in read_lines(alloc, recording).ok()?.iter() {
        if let Some(taken) = read_own(line.text) {
            own.push(taken).ok()?;
        }
        if let Some(way) = read_way(line.text) {
            ways.push(way).ok()?;
        }
    }
    let host = find_host_to(alloc, &own, &ways).ok()?;
    let policy = Policy::standard(alloc).ok()?;
    let mut text = Vec::new(alloc);
    write_host(&host, &mut text).ok()?;
    for way in find_unsaid(alloc, &host, &policy, &ways).ok()?.iter() {
        text.extend_from_slice(b"unsaid ").ok()?;
        write_ip(way.to, &mut text).ok()?;
        text.push(b'\n').ok()?;
    }
    Some(text)
}
