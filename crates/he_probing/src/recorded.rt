//! The text of a round's record.
ghost use Rattle.std.specs.Prelude.{◌≡◌, IfOk, filter_map};
ghost use Rattle.he_probing.specs.Recorded.{IsRoundRecord};
ghost use Rattle.he_probing.specs.Rows.{failure_of, is_failed_attempt};

use crate::rows::AddressRow;
use he_addr::Memory;
use he_record::Moment;
use he_record::nat64::Nat64Prefix;
use he_recording::{AttemptFailure, ServerFailure, Target, text_of};
use he_setup::{ConnectRequest, FamilyFaults, KnownFacts, facts_for};
use he_timeline::{Outcome, Timeline};
use std::alloc::Global;
use std::mem::drop;

/// The facts known of a round beside its timeline.
#[derive(Clone, Copy)]
pub struct RoundNotes<'n> {
    /// The time of tick 0.
    pub at: Option<Moment>,
    pub why: FamilyFaults,
    pub servers: &'n [ServerFailure],
    /// The prefixes of the network's NAT64, if they were looked up.
    pub nat64: &'n [Nat64Prefix],
    /// Whether the IPv4 addresses are reached through a NAT64.
    pub by_nat64: bool,
    /// Why no IPv4 host was embedded, if there is no address for that.
    pub told: &'n [u8],
}

/// The text of the timeline with its record lines: the requested host and port, a look-up only for a family whose
/// answer is empty, an attempt for each failed one of the rows whose reason is known.
///
/// # Errors
///
/// `Memory` if an allocation fails.
pub fn write_round(
    alloc: Global,
    request: &ConnectRequest<'_>,
    notes: RoundNotes<'_>,
    rows: &[AddressRow],
    recorded: &Timeline,
) -> Result<Vec<u8>, Memory>
    ensures { IfOk result (λ text. IsRoundRecord notes.entry.by_nat64 request.now recorded.now rows.now text.items) }
{
    let attempts = failures_of(alloc, rows)?;
    let known = KnownFacts {
        at: notes.at,
        why: notes.why,
        nat64: notes.nat64,
        servers: notes.servers,
        attempts: &attempts,
    };
    let target = Target {
        host: request.host.as_bytes(),
        port: request.port,
    };
    let facts = facts_for(notes.by_nat64, target, request.families, recorded, known);
    let text = text_of(alloc, &facts, recorded);
    drop(attempts);
    text
}

// The failed attempts of the rows whose reason is known.
fn failures_of(alloc: Global, rows: &[AddressRow]) -> Result<Vec<AttemptFailure>, Memory>
    ensures { IfOk result (λ failures. failures.items ≡ filter_map failure_of rows.now) }
{
    rows.iter().filter_map(failure_of).collect(alloc)
}

// Whether the attempt failed; one without an answer did not.
pub(crate) fn is_failed_attempt(row: &AddressRow) -> bool
    ensures { result ≡ is_failed_attempt row.now }
{
    matches!(row.outcome, Some(Outcome::Fail(_)))
}

// The row's failed attempt as a record has it.
fn failure_of(row: &AddressRow) -> Option<AttemptFailure>
    ensures { result ≡ failure_of row.now }
{
    if !is_failed_attempt(row) {
        return None;
    }
    let reason = row.reason.attempt_reason()?;
    Some(AttemptFailure { ip: row.ip, reason })
}
