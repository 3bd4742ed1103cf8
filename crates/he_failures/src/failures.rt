//! Record lines of a look-up: why a family has no address, and which name servers gave no answer.

ghost use Rattle.std.specs.Prelude.{◌≡◌, ◌++◌, ◌∷◌, [], IfOk, OnOk};
ghost use Rattle.std.specs.List.{list_any};
ghost use Rattle.std.specs.Net.Socket.{socket_ip};
ghost use Rattle.he_addr.specs.Ip.{same_ip};
ghost use Rattle.he_addr.specs.Text.{ip_of};
ghost use Rattle.he_failures.specs.Failures.{all_noted, and_server, failed_servers, has_answered, is_answer_of, last_failure, lookup_reason, lookup_reason_of_failure, noted_all, server_failure, server_reason, slow_failure};

use he_addr::{Ip, Memory};
use he_asking::{LookupEvent, LookupEventKind};
use he_record::{LookupReason, ServerReason};
use he_recording::ServerFailure;
use he_settings::{Failure, NamesFault};
use std::alloc::Global;
use std::net::{IpAddr, SocketAddr};

/// The word of a record line for why a family has no address. None for a fault of this machine, which no look-up is
/// to blame for.
pub fn lookup_reason(fault: NamesFault) -> Option<LookupReason>
    ensures { result ≡ lookup_reason fault }
{
    match fault {
        NamesFault::NoSuchName => Some(LookupReason::NoSuchName),
        NamesFault::NoAddress => Some(LookupReason::NoAddress),
        NamesFault::NoAnswer => Some(LookupReason::NoAnswer),
        NamesFault::Server(fault) => Some(lookup_reason_of(fault.failure)),
        NamesFault::NotAsked => Some(LookupReason::NotAsked),
        NamesFault::System => Some(LookupReason::Failed),
        _ => None,
    }
}

fn lookup_reason_of(failure: Failure) -> LookupReason
    ensures { result ≡ lookup_reason_of_failure failure }
{
    match failure {
        Failure::Refused => LookupReason::Refused,
        Failure::Malformed => LookupReason::Malformed,
        Failure::Aliases => LookupReason::Malformed,
        Failure::Unreachable => LookupReason::NoAnswer,
        _ => LookupReason::Failed,
    }
}

fn server_reason(failure: Failure) -> ServerReason
    ensures { result ≡ server_reason failure }
{
    match failure {
        Failure::Refused => ServerReason::Refused,
        Failure::Unreachable => ServerReason::Unreachable,
        _ => ServerReason::Failed,
    }
}

/// The name servers that gave no answer, each once, with why and since when: first those that failed or did not
/// answer in all their time, by their first such event; then those that had not answered when the next one was asked,
/// and did not answer later.
///
/// # Errors
///
/// `Memory` if an allocation fails.
pub fn failed_servers(alloc: Global, events: &[LookupEvent]) -> Result<Vec<ServerFailure>, Memory>
    ensures { IfOk result (λ failed. failed.items ≡ failed_servers events.now) }
{
    let mut failed = Vec::new(alloc);
    note_last(events, &mut failed)?;
    note_slow(events, &mut failed)?;
    Ok(failed)
}

fn note_last(events: &[LookupEvent], failed: &mut Vec<ServerFailure>) -> Result<(), Memory>
    ensures { OnOk result (failed.new.items ≡ noted_all last_failure failed.old.items events.now) }
{
    for event in events {
        note(last_failure(event), failed)?;
    }
    Ok(())
}

fn note_slow(events: &[LookupEvent], failed: &mut Vec<ServerFailure>) -> Result<(), Memory>
    ensures { OnOk result (failed.new.items ≡ noted_all (slow_failure events.now) failed.old.items events.now) }
{
    for event in events {
        note(slow_failure(events, event), failed)?;
    }
    Ok(())
}

// Adds the server, if there is one and it is not there yet.
fn note(failure: Option<ServerFailure>, failed: &mut Vec<ServerFailure>) -> Result<(), Memory>
    ensures { OnOk result (failed.new.items ≡ all_noted failed.old.items failure) }
{
    let Some(failure) = failure else {
        return Ok(());
    };
    if has_server(failed, failure.ip) {
        return Ok(());
    }
    failed.push(failure)?;
    Ok(())
}

fn has_server(failed: &[ServerFailure], ip: Ip) -> bool
    ensures { result ≡ list_any (λ other. same_ip other.ip ip) failed.now }
{
    failed.iter().any(|other| other.ip == ip)
}

// A server's failure or silence in all its time.
fn last_failure(event: &LookupEvent) -> Option<ServerFailure>
    ensures { result ≡ last_failure event.now }
{
    match event.kind {
        LookupEventKind::Silent(server) => {
            Some(server_failure(server, ServerReason::Silent, event.tick))
        }
        LookupEventKind::Failed(fault) => Some(server_failure(
            fault.server,
            server_reason(fault.failure),
            event.tick,
        )),
        _ => None,
    }
}

// A server that had not answered when the next one was asked, if it did not answer at all.
fn slow_failure(events: &[LookupEvent], event: &LookupEvent) -> Option<ServerFailure>
    ensures { result ≡ slow_failure events.now event.now }
{
    match event.kind {
        LookupEventKind::Slow(server, _) if !has_answered(events, ip_of(server)) => {
            Some(server_failure(server, ServerReason::Silent, event.tick))
        }
        _ => None,
    }
}

fn has_answered(events: &[LookupEvent], ip: Ip) -> bool
    ensures { result ≡ has_answered events.now ip }
{
    events.iter().any(|event| is_answer_of(event, ip))
}

fn is_answer_of(event: &LookupEvent, ip: Ip) -> bool
    ensures { result ≡ is_answer_of event.now ip }
{
    match event.kind {
        LookupEventKind::Addresses(_, server) => ip_of(server) == ip,
        LookupEventKind::NoAddress(server) => ip_of(server) == ip,
        LookupEventKind::NoSuchName(server) => ip_of(server) == ip,
        _ => false,
    }
}

fn server_failure(server: SocketAddr, reason: ServerReason, ticks: u64) -> ServerFailure
    ensures { result ≡ server_failure server reason ticks }
{
    ServerFailure {
        ip: ip_of(server),
        reason,
        ticks,
    }
}

fn ip_of(server: SocketAddr) -> Ip
    ensures { result ≡ ip_of (socket_ip server) }
{
    match server.ip() {
        IpAddr::V4(ip) => Ip::V4(ip.to_bits()),
        IpAddr::V6(ip) => Ip::V6(ip.to_bits()),
    }
}
