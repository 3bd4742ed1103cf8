//! The lines of a race's machine and policy before its start.

use crate::fault::{ConnectFault, ReadError};
use crate::request::Lines;
use he_addr::Ip;
use he_kernel::asked::AskedWays;
use he_kernel::taken::find_machine_to;
use he_kernel::writing::write_host;
use std::alloc::{AllocGlobal, Global};
use std::net::Net;
use std::rt::Files;
use std::{fs, io};

// The destinations known before the start: the addresses known without a look-up, the interface of a link-local one,
// and the kernel's answers in this race.
#[derive(Clone, Copy)]
pub(crate) struct Destinations<'a> {
    pub(crate) known: Option<&'a [Ip]>,
    pub(crate) scope: u32,
    pub(crate) asked: &'a AskedWays,
}

// The lines of this machine, of a file, or of a given text. For this machine, if the host's addresses are known
// without a look-up, the kernel is asked for the ways to them, to a link-local one over its interface; a remark is
// appended for each file that can't be read and each address that the kernel can't be asked for. Otherwise there are
// no lines yet: they come with the addresses, during the race.
pub(crate) fn read_lines_of<R: Files + Net + AllocGlobal>(
    rt: &R,
    alloc: Global,
    lines: Lines<'_>,
    to: Destinations<'_>,
    remarks: &mut Vec<u8>,
) -> Result<Vec<u8>, ConnectFault> {
    match lines {
        Lines::Machine => {
            let mut text = Vec::new(alloc);
            if let Some(ips) = to.known {
                let machine = find_machine_to(rt, to.asked, ips, to.scope, remarks)?;
                write_host(&machine, &mut text)?;
            }
            Ok(text)
        }
        Lines::File(path) => read_lines(rt, path),
        Lines::Text(text) => Ok(Vec::from_slice(alloc, text)?),
    }
}

/// The text of a file of lines, with a newline added to an incomplete last line.
///
/// # Errors
///
/// `File` if it can't be read, `Memory`.
pub fn read_lines<R: Files + AllocGlobal>(rt: &R, path: &str) -> Result<Vec<u8>, ConnectFault> {
    let mut text = read_file(rt, path)?;
    if text.last().is_some_and(|byte| *byte != b'\n') {
        text.push(b'\n')?;
    }
    Ok(text)
}

fn read_file<R: Files + AllocGlobal>(rt: &R, path: &str) -> Result<Vec<u8>, ConnectFault> {
    match fs::read(rt, path) {
        Ok(bytes) => Ok(bytes),
        Err(error) if error.kind() == io::ErrorKind::OutOfMemory => Err(ConnectFault::Memory),
        Err(error) => Err(ConnectFault::File(ReadError::of(&error))),
    }
}
