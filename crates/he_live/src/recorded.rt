//! The failed attempts of a live race, for its record.
ghost use Rattle.std.specs.Prelude.{◌≡◌, IfOk, filter_map};
ghost use Rattle.he_live.specs.Recorded.{AreFailures, attempt_reason, failure_of};

use crate::failures::{FailedAttempt, failed_attempts};
use crate::reason::Reason;
use crate::steps::Steps;
use he_addr::Memory;
use he_plan::Line;
use he_record::AttemptReason;
use he_recording::AttemptFailure;
use std::alloc::Global;
use std::mem::drop;

impl Reason {
    /// The word of a record line for it. None if it is not known.
    pub fn attempt_reason(self) -> Option<AttemptReason>
        ensures { result ≡ attempt_reason self }
    {
        match self {
            Reason::Refused => Some(AttemptReason::Refused),
            Reason::Reset => Some(AttemptReason::Reset),
            Reason::Aborted => Some(AttemptReason::Reset),
            Reason::TimedOut => Some(AttemptReason::TimedOut),
            Reason::HostUnreachable => Some(AttemptReason::Unreachable),
            Reason::NetworkUnreachable => Some(AttemptReason::Unreachable),
            Reason::NetworkDown => Some(AttemptReason::Unreachable),
            Reason::AddressNotAvailable => Some(AttemptReason::NoSource),
            Reason::Prohibited => Some(AttemptReason::Forbidden),
            Reason::Unknown => None,
            _ => Some(AttemptReason::Other),
        }
    }
}

/// The failed attempts of a transcript, by place, each with the word for its reason; without those whose reason is not
/// known.
///
/// # Errors
///
/// `Memory` if an allocation fails.
pub fn attempt_failures(
    alloc: Global,
    attempts: &[Line],
    steps: &Steps,
) -> Result<Vec<AttemptFailure>, Memory>
    ensures { IfOk result (λ failures. AreFailures attempts.now failures.items) }
{
    let failed = failed_attempts(alloc, attempts, steps)?;
    let failures = failures_of(alloc, &failed);
    drop(failed);
    failures
}

fn failures_of(alloc: Global, failed: &[FailedAttempt]) -> Result<Vec<AttemptFailure>, Memory>
    ensures { IfOk result (λ failures. failures.items ≡ filter_map failure_of failed.now) }
{
    failed.iter().filter_map(failure_of).collect(alloc)
}

fn failure_of(attempt: &FailedAttempt) -> Option<AttemptFailure>
    ensures { result ≡ failure_of attempt.now }
{
    let reason = attempt.reason.attempt_reason()?;
    Some(AttemptFailure {
        ip: attempt.ip,
        reason,
    })
}
