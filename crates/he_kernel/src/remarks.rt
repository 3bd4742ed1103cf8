// Remarks on destinations: one line each.

use crate::ways::Way;
use he_addr::{Ip, Memory, write_ip};
use std::alloc::{Allocator, Global};
use std::io;

// Appends the remark that the kernel can't be asked for the way to an address.
pub(crate) fn write_unasked(
    alloc: Global,
    to: Ip,
    why: io::Error,
    remarks: &mut Vec<u8>,
) -> Result<(), Memory> {
    remarks.extend_from_slice(b"he: the kernel can't be asked for the way to ")?;
    write_ip(to, remarks)?;
    let why = format!(in alloc; ": {why}\n")?;
    remarks.extend_from_slice(why.as_bytes())?;
    Ok(())
}

/// Appends the remark for a destination for which the rules select another source than the kernel, whatever the lines
/// are.
///
/// # Errors
///
/// [`Memory`] if an allocation fails; part of the line may have been appended.
pub fn write_unsaid<A: Allocator + Copy>(way: Way, out: &mut Vec<u8, A>) -> Result<(), Memory> {
    out.extend_from_slice(b"he: ")?;
    write_ip(way.to, out)?;
    match way.from {
        Some(from) => {
            out.extend_from_slice(b" is reached from ")?;
            write_ip(from, out)?;
        }
        None => out.extend_from_slice(b" is not reached")?,
    }
    out.extend_from_slice(b", which source and route lines cannot say\n")?;
    Ok(())
}
