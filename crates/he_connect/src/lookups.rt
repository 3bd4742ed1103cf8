//! The look-ups of a race.
ghost use Rattle.std.specs.Prelude.{IfOk, Some};
ghost use Rattle.he_addr.specs.declared.ip.Family.TheVariants as ips;
ghost use Rattle.he_resolver.specs.Begins.{BeginsFor};
ghost use Rattle.he_resolver.specs.Heard.{IsSound};
ghost use Rattle.he_connect.specs.Origins.{AreSoundLookups, BeginEmbedded, ComesFor, lookups_origins};
ghost use Rattle.he_setup.specs.Embedding.{known_name};
ghost use Rattle.he_setup.specs.Races.{KnowsHost};

use he_addr::{Family, Memory};
use he_resolver::{Lookup, SystemResolver};
use he_settings::Wanted;
use he_setup::synthesis::KNOWN_HOST;
use he_setup::{ConnectFault, Setup};
use std::alloc::{AllocGlobal, Global};
use std::mem::drop;
use std::net::Net;
use std::random::RandomSource;
use std::rt::Files;
use std::sync::Wait;
use std::thread::Threads;
use std::time::Clock;
use tokio::runtime::Handle;

/// The look-ups of a race: of the host's addresses; on a machine with only IPv6 maybe also of its network's NAT64.
#[derive(Drop)]
pub enum RaceLookups<'h, R> {
    Host(Lookup<'h, R>),
    Embedded(EmbeddedLookups<'h, R>),
}

/// The look-ups of a race that embeds IPv4 hosts.
#[derive(Drop)]
pub struct EmbeddedLookups<'h, R> {
    /// Of the host's IPv6 addresses.
    pub six: Lookup<'h, R>,
    /// Of its IPv4 addresses.
    pub four: Lookup<'h, R>,
    /// Of the addresses of `ipv4only.arpa.`
    pub prefixes: Lookup<'h, R>,
}

/// The look-ups of the race that is set up, in the event loop.
///
/// # Errors
///
/// `Name`, `Memory`.
pub fn look_up<'h, R>(
    rt: &'h R,
    alloc: Global,
    handle: &'h Handle,
    setup: &Setup<'_>,
) -> Result<RaceLookups<'h, R>, ConnectFault>
where
    R: Threads + Wait + Clock + RandomSource + AllocGlobal + Net + Files + Sync,
    R: SystemResolver + Copy + Send + 'static,
    ensures comes { KnowsHost setup.now → IfOk result (λ lookups. ComesFor setup.now.embeds setup.now.request
        (lookups_origins lookups)) }
    ensures sound { IfOk result AreSoundLookups }
{
    if setup.embeds {
        let lookups = look_up_embedded(rt, alloc, handle, setup)?;
        Ok(RaceLookups::Embedded(lookups))
    } else {
        let lookup = look_up_host(rt, alloc, handle, setup, setup.request.families.only())?;
        Ok(RaceLookups::Host(lookup))
    }
}

// A look-up of the host: of the addresses known by the set-up, or by queries, for the only family if there is one.
fn look_up_host<'h, R>(
    rt: &'h R,
    alloc: Global,
    handle: &'h Handle,
    setup: &Setup<'_>,
    only: Option<Family>,
) -> Result<Lookup<'h, R>, ConnectFault>
where
    R: Threads + Wait + Clock + RandomSource + AllocGlobal + Net + Files + Sync,
    R: SystemResolver + Copy + Send + 'static,
    ensures begins { KnowsHost setup.now → IfOk result (λ lookup. BeginsFor setup.now.request.host.now
        setup.now.request.resolver setup.now.request.environment only lookup.source) }
    ensures sound { IfOk result (λ lookup. IsSound lookup.source) }
{
    match &setup.known {
        Some(known) => Ok(Lookup::of_known(rt, alloc, Vec::from_slice(alloc, known)?)?),
        None => {
            let wanted = Wanted {
                host: setup.request.host,
                only,
                choice: setup.request.resolver,
                environment: setup.request.environment,
            };
            Ok(Lookup::new(rt, alloc, handle, wanted)?)
        }
    }
}

// The look-up of `ipv4only.arpa.`, for AAAA.
fn look_up_prefixes<'h, R>(
    rt: &'h R,
    alloc: Global,
    handle: &'h Handle,
    setup: &Setup<'_>,
) -> Result<Lookup<'h, R>, ConnectFault>
where
    R: Threads + Wait + Clock + RandomSource + AllocGlobal + Net + Files + Sync,
    R: SystemResolver + Copy + Send + 'static,
    ensures begins { IfOk result (λ lookup. BeginsFor known_name setup.now.request.resolver
        setup.now.request.environment (Some ips.V6) lookup.source) }
    ensures sound { IfOk result (λ lookup. IsSound lookup.source) }
{
    let wanted = Wanted {
        host: KNOWN_HOST,
        only: Some(Family::V6),
        choice: setup.request.resolver,
        environment: setup.request.environment,
    };
    Ok(Lookup::new(rt, alloc, handle, wanted)?)
}

// The look-ups of a race that embeds. Where the addresses are known, only the first one's events say so.
fn look_up_embedded<'h, R>(
    rt: &'h R,
    alloc: Global,
    handle: &'h Handle,
    setup: &Setup<'_>,
) -> Result<EmbeddedLookups<'h, R>, ConnectFault>
where
    R: Threads + Wait + Clock + RandomSource + AllocGlobal + Net + Files + Sync,
    R: SystemResolver + Copy + Send + 'static,
    ensures begin { KnowsHost setup.now → IfOk result (BeginEmbedded setup.now.request) }
    ensures six { IfOk result (λ lookups. IsSound lookups.six.source) }
    ensures four { IfOk result (λ lookups. IsSound lookups.four.source) }
    ensures prefixes { IfOk result (λ lookups. IsSound lookups.prefixes.source) }
{
    let six = look_up_host(rt, alloc, handle, setup, Some(Family::V6))?;
    let four = look_up_host(rt, alloc, handle, setup, Some(Family::V4))?;
    let prefixes = look_up_prefixes(rt, alloc, handle, setup)?;
    if setup.known.is_some() {
        skip_events(&four)?;
    }
    Ok(EmbeddedLookups {
        six,
        four,
        prefixes,
    })
}

// Forgets the events of the look-up so far.
fn skip_events<R: Net + RandomSource + Clock>(lookup: &Lookup<'_, R>) -> Result<(), Memory> {
    let log = lookup.log()?;
    let events = log.take();
    drop(events);
    Ok(())
}
