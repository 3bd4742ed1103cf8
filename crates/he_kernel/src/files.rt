// Reads the kernel's files, where they exist.
//
// Proved: this is safe and ends. No contract has the system's answers.

use crate::fault::MachineFault;
use crate::link::Link;
use crate::sysfs::{Sysfs, make_link};
use std::alloc::AllocGlobal;
use std::rt::Files as FileSystem;
use std::{fs, io};

// Linux's error numbers for a file without contents: it doesn't exist, its interface doesn't exist any more, a part
// of its path is no directory, or the interface is down and so has no carrier.
const ENOENT: i32 = 2;

const ENODEV: i32 = 19;

const ENOTDIR: i32 = 20;

const EINVAL: i32 = 22;

// Whether the file doesn't exist or has no contents.
pub(crate) fn is_absent(error: &io::Error) -> bool {
    matches!(
        error.raw_os_error(),
        Some(ENOENT | ENODEV | ENOTDIR | EINVAL)
    )
}

/// The bytes of a file; empty if it doesn't exist. For a file that exists but can't be read, they are empty and a
/// remark is appended.
///
/// # Errors
///
/// [`MachineFault::Memory`] if an allocation fails.
pub fn read_if_there<R: FileSystem + AllocGlobal>(
    rt: &R,
    path: &str,
    remarks: &mut Vec<u8>,
) -> Result<Vec<u8>, MachineFault> {
    let error = match fs::read(rt, path) {
        Ok(bytes) => return Ok(bytes),
        Err(error) => error,
    };
    if error.kind() == io::ErrorKind::OutOfMemory {
        return Err(MachineFault::Memory);
    }
    if !is_absent(&error) {
        let line = format!(in rt.alloc(); "he: cannot read {path}: {error}\n")?;
        remarks.extend_from_slice(line.as_bytes())?;
    }
    Ok(Vec::new(rt.alloc()))
}

fn read_sysfs<R: FileSystem + AllocGlobal>(
    rt: &R,
    name: &str,
    file: &str,
    remarks: &mut Vec<u8>,
) -> Result<Vec<u8>, MachineFault> {
    let path = format!(in rt.alloc(); "/sys/class/net/{name}/{file}")?;
    read_if_there(rt, path.as_str(), remarks)
}

/// The link of the interface with this name, by its files in `/sys/class/net`, each read as by [`read_if_there`].
///
/// # Errors
///
/// [`MachineFault::Memory`] if an allocation fails.
pub fn read_link_of<R: FileSystem + AllocGlobal>(
    rt: &R,
    name: &str,
    remarks: &mut Vec<u8>,
) -> Result<Link, MachineFault> {
    let ifindex = read_sysfs(rt, name, "ifindex", remarks)?;
    let flags = read_sysfs(rt, name, "flags", remarks)?;
    let carrier = read_sysfs(rt, name, "carrier", remarks)?;
    let kind = read_sysfs(rt, name, "type", remarks)?;
    Ok(make_link(Sysfs {
        ifindex: &ifindex,
        flags: &flags,
        carrier: &carrier,
        kind: &kind,
    }))
}
