//! The sources that the kernel selects, compared with those by the machine's lines.

use he_addr::{Ip, Memory, write_ip};
use he_kernel::asked::AskedWays;
use he_live::Dialed;
use he_turns::Raced;
use std::net::Net;

/// Appends a line for each address that was tried and that the kernel reaches from another source than the race's
/// lines determine: `he: 2001:db8::1 is reached from 2001:db8:5::23, and not from 2001:db8:5::7`. A link-local
/// address is reached over the interface `scope`.
///
/// # Errors
///
/// `Memory` if an allocation fails; part may have been appended.
pub(crate) fn write_other_sources<R: Net>(
    rt: &R,
    asked: &AskedWays,
    scope: u32,
    raced: &Raced<Dialed>,
    out: &mut Vec<u8>,
) -> Result<(), Memory> {
    let recorded = &raced.recorded;
    for attempt in raced.transcript.attempts() {
        let said = recorded.host().source(recorded.policy(), attempt.ip);
        if let Some(taken) = asked.way(rt, attempt.ip, scope).from
            && said != Some(taken)
        {
            write_other_source(attempt.ip, said, taken, out)?;
        }
    }
    Ok(())
}

fn write_other_source(
    ip: Ip,
    said: Option<Ip>,
    taken: Ip,
    out: &mut Vec<u8>,
) -> Result<(), Memory> {
    out.extend_from_slice(b"he: ")?;
    write_ip(ip, out)?;
    out.extend_from_slice(b" is reached from ")?;
    write_ip(taken, out)?;
    match said {
        Some(said) => {
            out.extend_from_slice(b", and not from ")?;
            write_ip(said, out)?;
        }
        None => out.extend_from_slice(b", of which the race has no line")?,
    }
    out.push(b'\n')?;
    Ok(())
}
