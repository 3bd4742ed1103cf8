//! The record lines of a connection's race.
ghost use Rattle.std.specs.Prelude.{◌≡◌};
ghost use Rattle.he_setup.specs.Recorded.{IsFactsFor, IsFactsOf, is_left_out, or_nat64, reason_of};

use crate::request::Families;
use crate::source::FamilyFaults;
use he_addr::Family;
use he_failures::fault_reason;
use he_record::nat64::Nat64Prefix;
use he_record::{LookupReason, Moment};
use he_recording::{AttemptFailure, Facts, ServerFailure, Target, reason_if_empty};
use he_timeline::Timeline;

/// The facts known of a race that has ended.
#[derive(Clone, Copy)]
pub struct KnownFacts<'n> {
    /// The time of tick 0.
    pub at: Option<Moment>,
    pub why: FamilyFaults,
    /// The prefixes of the network's NAT64, if they were looked up.
    pub nat64: &'n [Nat64Prefix],
    pub servers: &'n [ServerFailure],
    pub attempts: &'n [AttemptFailure],
}

/// The facts of a race to the target: why a family has no address is among them only if its answer in the race is
/// empty. A family that isn't tried was not asked for.
pub fn facts_of<'n>(
    target: Target<'n>,
    families: Families,
    recorded: &Timeline,
    known: KnownFacts<'n>,
) -> Facts<'n>
    ensures { IsFactsOf target.entry families recorded.now known.entry result }
{
    let KnownFacts {
        at,
        why,
        nat64,
        servers,
        attempts,
    } = known;
    Facts {
        at,
        to: Some(target),
        from: None,
        six: reason_if_empty(recorded, Family::V6, reason_of(families, why, Family::V6)),
        four: reason_if_empty(recorded, Family::V4, reason_of(families, why, Family::V4)),
        nat64,
        servers,
        attempts,
        end: None,
    }
}

/// As [`facts_of`]; through a NAT64, the IPv4 look-up has its own reason or, without one, `Nat64`.
pub fn facts_for<'n>(
    by_nat64: bool,
    target: Target<'n>,
    families: Families,
    recorded: &Timeline,
    known: KnownFacts<'n>,
) -> Facts<'n>
    ensures facts { IsFactsFor by_nat64 target.entry families recorded.now known.entry result }
    ensures attempts { result.attempts ≡ known.entry.attempts }
{
    let facts = facts_of(target, families, recorded, known);
    if !by_nat64 {
        return facts;
    }
    let reason = or_nat64(fault_reason(known.why.of(Family::V4)));
    Facts {
        four: reason_if_empty(recorded, Family::V4, reason),
        ..facts
    }
}

// The look-up's own reason or, without one, that IPv4 hosts are reached through a NAT64.
fn or_nat64(reason: Option<LookupReason>) -> Option<LookupReason>
    ensures { result ≡ or_nat64 reason }
{
    match reason {
        Some(reason) => Some(reason),
        None => Some(LookupReason::Nat64),
    }
}

// Why the family has no address, if it has none.
fn reason_of(families: Families, why: FamilyFaults, family: Family) -> Option<LookupReason>
    ensures { result ≡ reason_of families why family }
{
    if is_left_out(families, family) {
        return Some(LookupReason::NotAsked);
    }
    fault_reason(why.of(family))
}

fn is_left_out(families: Families, family: Family) -> bool
    ensures { result ≡ is_left_out families family }
{
    match (families, family) {
        (Families::Only(Family::V6), Family::V4) => true,
        (Families::Only(Family::V4), Family::V6) => true,
        _ => false,
    }
}
