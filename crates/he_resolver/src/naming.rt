//! Finds the addresses of a name.

use crate::gathering::{Gathered, Gathering};
use crate::lookup::Lookup;
use crate::system::SystemResolver;
use he_asking::LookupEvent;
use he_names::Found;
use he_settings::{NamesFault, Wanted, find_known};
use std::alloc::{AllocGlobal, Global};
use std::net::Net;
use std::random::RandomSource;
use std::rt::Files;
use std::sync::Wait;
use std::thread::Threads;
use std::time::Clock;
use tokio::runtime::{Handle, LocalRuntime};

/// The report of a look-up, beside its answers.
#[derive(Drop)]
pub struct LookupReport {
    /// Why IPv6 has no address, if it has none.
    pub v6: Option<NamesFault>,
    /// Why IPv4 has no address, if it has none.
    pub v4: Option<NamesFault>,
    /// The events, in order.
    pub events: Vec<LookupEvent>,
}

impl LookupReport {
    /// An empty report.
    pub fn new(alloc: Global) -> LookupReport {
        LookupReport {
            v6: None,
            v4: None,
            events: Vec::new(alloc),
        }
    }
}

/// Finds the addresses of a host: starts the look-up and waits for the answers of both families, each with its tick,
/// in milliseconds since the look-up began. The report has the events, and why a family has no address, even if the
/// other family has some or the call fails.
///
/// # Errors
///
/// `NoSuchName`, `NoAddress`, `NoAnswer`, `Server` and `System` if the host has no address of either family; `Host`
/// and `Name` if it is not a host name or may not be queried; `Unreadable`, `Interface`, `Files`, `Runtime` and
/// `Memory` if it could not be queried.
pub fn find_names<R>(
    rt: &R,
    alloc: Global,
    wanted: Wanted<'_>,
    report: &mut LookupReport,
) -> Result<Found, NamesFault>
where
    R: Wait + Clock + RandomSource + AllocGlobal + Net + Files + Threads,
    R: SystemResolver + Copy + Send + 'static,
{
    let mut runtime = LocalRuntime::new(rt)?;
    let handle = runtime.handle().clone()?;
    let lookup = look_up(rt, alloc, &handle, wanted)?;
    let log = lookup.log()?;
    let gathered = runtime.block_on(rt, Gathering::new(alloc, lookup));
    report.events = log.take();
    let Gathered { found, v6, v4 } = gathered?;
    report.v6 = v6;
    report.v4 = v4;
    found
}

// A look-up of the host, from known addresses or by queries.
fn look_up<'h, R>(
    rt: &'h R,
    alloc: Global,
    handle: &'h Handle,
    wanted: Wanted<'_>,
) -> Result<Lookup<'h, R>, NamesFault>
where
    R: Clock + RandomSource + AllocGlobal + Net + Files + Threads,
    R: SystemResolver + Copy + Send + 'static,
{
    match find_known(rt, alloc, wanted.host, wanted.choice)? {
        Some(known) => Lookup::of_known(rt, alloc, known),
        None => Lookup::new(rt, alloc, handle, wanted),
    }
}
