//! The record lines of a look-up.

ghost use Rattle.std.specs.Prelude.{◌≡◌, IfOk};
ghost use Rattle.he_failures.specs.Recorded.{IsLookupRecord, IsOfServers, fault_reason, said_text};

use crate::failures::{failed_servers, lookup_reason};
use he_addr::Memory;
use he_asking::LookupEvent;
use he_record::{LookupReason, Moment, write_record};
use he_recording::{Facts, ServerFailure, record_of};
use he_settings::NamesFault;
use std::alloc::Global;
use std::mem::drop;

/// The facts known of a look-up that has ended.
#[derive(Clone, Copy)]
pub struct HeardFaults<'e> {
    /// Why IPv6 has no address, if it has none.
    pub v6: Option<NamesFault>,
    /// Why IPv4 has no address, if it has none.
    pub v4: Option<NamesFault>,
    /// The events, in order.
    pub events: &'e [LookupEvent],
}

/// The record lines of a look-up, to precede the race that has its answers: the time at which it began, why a
/// family has no address, and the name servers that gave no answer.
///
/// # Errors
///
/// `Memory` if an allocation fails.
pub fn lookup_record(
    alloc: Global,
    at: Option<Moment>,
    heard: HeardFaults<'_>,
) -> Result<Vec<u8>, Memory>
    ensures { IfOk result (λ text. IsLookupRecord at heard.entry text.items) }
{
    let servers = failed_servers(alloc, heard.events)?;
    let facts = facts_of(at, heard, &servers);
    text_of(alloc, &facts)
}

fn facts_of<'s>(
    at: Option<Moment>,
    heard: HeardFaults<'_>,
    servers: &'s [ServerFailure],
) -> Facts<'s>
    ensures { IsOfServers at heard.entry servers.now result }
{
    Facts {
        at,
        to: None,
        from: None,
        six: fault_reason(heard.v6),
        four: fault_reason(heard.v4),
        nat64: &[],
        servers,
        attempts: &[],
        end: None,
    }
}

/// The word of a record line for why a family has no address, if it has none.
pub fn fault_reason(fault: Option<NamesFault>) -> Option<LookupReason>
    ensures { result ≡ fault_reason fault }
{
    match fault {
        Some(fault) => lookup_reason(fault),
        None => None,
    }
}

// The text of the record of the facts.
fn text_of(alloc: Global, facts: &Facts<'_>) -> Result<Vec<u8>, Memory>
    ensures { IfOk result (λ text. text.items ≡ said_text facts.now) }
{
    let record = record_of(alloc, facts)?;
    let mut text = Vec::new(alloc);
    let written = write_record(&record, &mut text);
    drop(record);
    written?;
    Ok(text)
}
