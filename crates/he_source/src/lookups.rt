//! The look-ups of a race, in the event loop.
ghost use Rattle.std.specs.Prelude.{◌≡◌, IfOk, IfSome, option_map, string_bytes};
ghost use Rattle.he_setup.specs.Races.{only_of};
ghost use Rattle.he_settings.specs.Known.{items_of};
ghost use Rattle.he_source.specs.Kept.{BeginsSought, IsKeptOf, ips_kept};

use crate::system::RaceSystem;
use he_addr::{Family, Ip, Memory};
use he_kept::{KeptAnswers, KeptHost};
use he_live::Quiet;
use he_loop::SharedLoop;
use he_resolver::Lookup;
use he_settings::Wanted;
use he_setup::{ConnectFault, ConnectRequest, HostAnswers, LookupFaults, OwnMachine, Setup};
use std::alloc::Global;
use std::time::Clock;

/// A host whose addresses are sought: of the only family, if there is one.
#[derive(Clone, Copy)]
pub struct Sought<'a> {
    pub host: &'a str,
    pub only: Option<Family>,
    /// Its addresses, if they are known without queries.
    pub known: Option<&'a [Ip]>,
}

/// A host, the only family that is looked up, if there is one, and the answers of its look-up.
#[derive(Drop)]
pub struct HostLookup<'h, R> {
    pub host: String,
    pub only: Option<Family>,
    /// Whether its addresses are asked for: they are not known.
    pub asks: bool,
    pub answers: HostAnswers<'h, R, Quiet>,
}

impl<'h, R> HostLookup<'h, R>
where
    R: RaceSystem,
{
    // Notes why the cached answers have no address.
    pub(crate) fn note(&self, kept: &Option<KeptHost>) {
        let Some(kept) = kept else {
            return;
        };
        for family in [Family::V6, Family::V4] {
            if let Some(fault) = kept.fault(family) {
                self.answers.note(family, fault);
            }
        }
    }
}

// The look-up of a host in the race that is set up, and its answers.
pub(crate) fn look_up<'h, R>(
    shared: SharedLoop<'h, R>,
    setup: &Setup<'_>,
    sought: Sought<'_>,
    why: &LookupFaults,
) -> Result<HostLookup<'h, R>, ConnectFault>
where
    R: RaceSystem,
    ensures host { IfOk result (λ made. string_bytes made.host ≡ sought.entry.host.now) }
    ensures begins { IfOk result (λ made. BeginsSought setup.now.request sought.entry made.answers.lookup.source) }
{
    let SharedLoop { rt, alloc, .. } = shared;
    let lookup = begin_lookup(shared, &setup.request, sought)?;
    let machine = OwnMachine::of_setup(rt, setup)?;
    Ok(HostLookup {
        host: String::from_str(alloc, sought.host)?,
        only: sought.only,
        asks: sought.known.is_none(),
        answers: HostAnswers::new(alloc, lookup, machine, why.share()?, Quiet)?,
    })
}

// The look-up: from known addresses, or by name servers.
fn begin_lookup<'h, R>(
    shared: SharedLoop<'h, R>,
    request: &ConnectRequest<'_>,
    sought: Sought<'_>,
) -> Result<Lookup<'h, R>, ConnectFault>
where
    R: RaceSystem,
    ensures { IfOk result (λ lookup. BeginsSought request.now sought.entry lookup.source) }
{
    let SharedLoop { rt, alloc, handle } = shared;
    let Sought { host, only, known } = sought;
    if let Some(ips) = known {
        let known = Vec::from_slice(alloc, ips)?;
        return Ok(Lookup::of_known(rt, alloc, known)?);
    }
    let wanted = Wanted {
        host,
        only,
        choice: request.resolver,
        environment: request.environment,
    };
    Ok(Lookup::by_servers(rt, alloc, handle, wanted)?)
}

// The cached answers of the host, if that of each family that is tried is cached.
pub(crate) fn kept_host<R: Clock>(
    shared: SharedLoop<'_, R>,
    request: &ConnectRequest<'_>,
    kept: &KeptAnswers,
) -> Option<KeptHost>
    ensures { IfSome result (IsKeptOf request.now.host.now (only_of request.now.families)) }
{
    let now = kept.second(shared.rt)?;
    kept.known(now, request.host, request.families.only())
}

// The addresses of cached answers.
pub(crate) fn kept_ips(alloc: Global, kept: &Option<KeptHost>) -> Result<Option<Vec<Ip>>, Memory>
    ensures { IfOk result (λ found. items_of found ≡ option_map ips_kept kept.now) }
{
    match kept {
        Some(kept) => Ok(Some(kept.ips(alloc)?)),
        None => Ok(None),
    }
}
