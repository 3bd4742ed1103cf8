//! The line that reports the addresses tried if nothing connected.

use he_addr::{Family, Memory, write_ip, write_number};
use he_live::{Dialed, Reason, Steps};
use he_plan::{Line, Mark};
use he_settings::NamesFault;
use he_setup::families::write_lack;
use he_setup::{ConnectRequest, Families, FamilyFaults};
use he_timeline::Timeline;
use he_turns::Raced;
use std::alloc::Global;

/// Appends the line: `he: no connection to example.org port 443: 2 addresses tried: 2001:db8::1 refused after 12 ms,
/// 198.51.100.1 no answer in 30000 ms`, with each family whose look-up failed: `; AAAA: no name server answers`. If
/// the name has addresses of the other family only, the line is `he: example.org has no IPv6 address`.
///
/// # Errors
///
/// `Memory` if an allocation fails; part of the line may have been appended.
pub(crate) fn write_tried(
    alloc: Global,
    request: &ConnectRequest<'_>,
    raced: &Raced<Dialed>,
    steps: &Steps,
    why: FamilyFaults,
    out: &mut Vec<u8>,
) -> Result<(), Memory> {
    if let Some(family) = lacking(request.families, why) {
        return write_lack(request.host, family, out);
    }
    out.extend_from_slice(b"he: no connection to ")?;
    out.extend_from_slice(request.host.as_bytes())?;
    out.extend_from_slice(b" port ")?;
    write_number(u64::from(request.port), out)?;
    write_attempts(&raced.recorded, raced.transcript.attempts(), steps, out)?;
    write_failed(alloc, Family::V6, why, out)?;
    write_failed(alloc, Family::V4, why, out)?;
    out.push(b'\n')?;
    Ok(())
}

// The only family to try, if the name has no address of it.
fn lacking(families: Families, why: FamilyFaults) -> Option<Family> {
    families
        .only()
        .filter(|family| why.of(*family) == Some(NamesFault::NoAddress))
}

// Why the look-up of a family failed, if it did.
fn write_failed(
    alloc: Global,
    family: Family,
    why: FamilyFaults,
    out: &mut Vec<u8>,
) -> Result<(), Memory> {
    let failed = why.of(family).filter(|fault| !fault.is_absence()
        && *fault != NamesFault::NotAsked);
    if let Some(fault) = failed {
        let record_type = match family {
            Family::V6 => "AAAA",
            Family::V4 => "A",
        };
        out.extend_from_slice(format!(in alloc; "; {record_type}: {fault}")?.as_bytes())?;
    }
    Ok(())
}

fn write_attempts(
    recorded: &Timeline,
    attempts: &[Line],
    steps: &Steps,
    out: &mut Vec<u8>,
) -> Result<(), Memory> {
    if attempts.is_empty() {
        return write_none(recorded, out);
    }
    out.extend_from_slice(b": ")?;
    write_number(attempts.len() as u64, out)?;
    out.extend_from_slice(if attempts.len() == 1 {
        b" address tried"
    } else {
        b" addresses tried"
    })?;
    let mut parting: &[u8] = b": ";
    for attempt in attempts {
        out.extend_from_slice(parting)?;
        write_attempt(*attempt, steps, out)?;
        parting = b", ";
    }
    Ok(())
}

// Writes that no address was tried: none came in time, no attempt began in time at one that came, or none that came
// is usable.
fn write_none(recorded: &Timeline, out: &mut Vec<u8>) -> Result<(), Memory> {
    if has_usable(recorded, Family::V6) || has_usable(recorded, Family::V4) {
        out.extend_from_slice(b": no attempt began in ")?;
    } else if recorded.answer(Family::V6).is_some() && recorded.answer(Family::V4).is_some() {
        out.extend_from_slice(b": no usable address")?;
        return Ok(());
    } else {
        out.extend_from_slice(b": no DNS answer in ")?;
    }
    write_number(recorded.settings().limit(), out)?;
    out.extend_from_slice(b" ms")?;
    Ok(())
}

fn has_usable(recorded: &Timeline, family: Family) -> bool {
    match recorded.answer(family) {
        Some((_, ips)) => ips.iter().any(|ip| ip.is_usable()),
        None => false,
    }
}

fn write_attempt(attempt: Line, steps: &Steps, out: &mut Vec<u8>) -> Result<(), Memory> {
    write_ip(attempt.ip, out)?;
    out.push(b' ')?;
    let (words, end): (&[u8], u64) = match attempt.mark {
        Mark::Failed(end) => {
            write_reason(steps.reason_of(attempt.place), out)?;
            (b" after ", end)
        }
        Mark::Won(end) => (b"connected after ", end),
        Mark::Cancelled(end) => (b"no answer in ", end),
    };
    out.extend_from_slice(words)?;
    write_number(end.saturating_sub(attempt.tick), out)?;
    out.extend_from_slice(b" ms")?;
    Ok(())
}

pub(crate) fn write_reason(reason: Reason, out: &mut Vec<u8>) -> Result<(), Memory> {
    out.extend_from_slice(reason.words())?;
    if let Reason::Other(number) = reason {
        write_number(u64::from(number), out)?;
    }
    Ok(())
}
