//! The failed attempts of a live race, and the lines that report them.
ghost use Rattle.std.specs.Prelude.{◌≡◌, ◌++◌, ◌∷◌, [], IfOk, OnOk};
ghost use Rattle.he_live.specs.Reasons.{AreFailed, at_text, failure_line, failure_lines, fault_text, first_local, has_failed, place_text, reason_text, start_text, why_text};

use crate::reason::Reason;
use crate::steps::Steps;
use he_addr::{Ip, Memory, write_ip, write_number};
use he_plan::{Line, Mark};
use itoa::Buffer;
use std::alloc::{Allocator, Global};

/// A failed attempt of a live race.
#[derive(Clone, Copy, Debug, PartialEq, Eq)]
pub struct FailedAttempt {
    /// Its place in the race.
    pub place: usize,
    /// The address that it connected to.
    pub ip: Ip,
    /// Why it failed.
    pub reason: Reason,
}

/// The failed attempts of a transcript, by place, each with its reason.
///
/// # Errors
///
/// `Memory` if an allocation fails.
pub fn failed_attempts(
    alloc: Global,
    attempts: &[Line],
    steps: &Steps,
) -> Result<Vec<FailedAttempt>, Memory>
    ensures { IfOk result (λ failed. AreFailed attempts.now failed.items) }
{
    let mut failed = Vec::new(alloc);
    for line in attempts {
        if has_failed(line) {
            failed.push(FailedAttempt {
                place: line.place,
                ip: line.ip,
                reason: steps.reason_of(line.place),
            })?;
        }
    }
    Ok(failed)
}

fn has_failed(line: &Line) -> bool
    ensures { result ≡ has_failed line.now }
{
    matches!(line.mark, Mark::Failed(_))
}

/// The first attempt that failed on this machine itself: no socket could be made.
pub fn first_local(failed: &[FailedAttempt]) -> Option<FailedAttempt>
    ensures { result ≡ first_local failed.now }
{
    for attempt in failed {
        if attempt.reason.is_local() {
            return Some(*attempt);
        }
    }
    None
}

/// Appends a line for each failed attempt: `he: attempt 3 at 198.51.100.7 failed: refused`, or `could not begin: too
/// many open files` where this machine itself could not begin it. Attempts count from 1.
///
/// # Errors
///
/// `Memory` if an allocation fails.
pub fn write_failures<A: Allocator + Copy>(
    failed: &[FailedAttempt],
    out: &mut Vec<u8, A>,
) -> Result<(), Memory>
    ensures { OnOk result (out.new.items ≡ out.old.items ++ failure_lines failed.now) }
{
    for attempt in failed {
        write_failure(*attempt, out)?;
    }
    Ok(())
}

fn write_failure<A: Allocator + Copy>(
    attempt: FailedAttempt,
    out: &mut Vec<u8, A>,
) -> Result<(), Memory>
    ensures { OnOk result (out.new.items ≡ out.old.items ++ failure_line attempt) }
{
    write_start(attempt, out)?;
    write_why(attempt.reason, out)
}

fn write_start<A: Allocator + Copy>(
    attempt: FailedAttempt,
    out: &mut Vec<u8, A>,
) -> Result<(), Memory>
    ensures { OnOk result (out.new.items ≡ out.old.items ++ start_text attempt) }
{
    write_place(attempt.place, out)?;
    write_at(attempt.ip, out)
}

fn write_place<A: Allocator + Copy>(place: usize, out: &mut Vec<u8, A>) -> Result<(), Memory>
    ensures { OnOk result (out.new.items ≡ out.old.items ++ place_text place) }
{
    let mut digits = Buffer::new();
    out.extend_from_slice(b"he: attempt ")?;
    out.extend_from_slice(digits.format(place as u128 + 1).as_bytes())?;
    Ok(())
}

fn write_at<A: Allocator + Copy>(ip: Ip, out: &mut Vec<u8, A>) -> Result<(), Memory>
    ensures { OnOk result (out.new.items ≡ out.old.items ++ at_text ip) }
{
    out.extend_from_slice(b" at ")?;
    write_ip(ip, out)
}

fn write_why<A: Allocator + Copy>(reason: Reason, out: &mut Vec<u8, A>) -> Result<(), Memory>
    ensures { OnOk result (out.new.items ≡ out.old.items ++ why_text reason) }
{
    out.extend_from_slice(fault_words(reason))?;
    write_reason(reason, out)
}

fn fault_words(reason: Reason) -> &'static [u8]
    ensures { result.now ≡ fault_text reason }
{
    if reason.is_local() {
        b" could not begin: "
    } else {
        b" failed: "
    }
}

// Writes the words and a newline.
fn write_reason<A: Allocator + Copy>(reason: Reason, out: &mut Vec<u8, A>) -> Result<(), Memory>
    ensures { OnOk result (out.new.items ≡ out.old.items ++ reason_text reason ++ 10 ∷ []) }
{
    out.extend_from_slice(reason.words())?;
    if let Reason::Other(number) = reason {
        write_number(u64::from(number), out)?;
    }
    out.push(b'\n')?;
    Ok(())
}
