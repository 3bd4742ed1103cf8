//! A round of probes.
ghost use Rattle.std.specs.Prelude.{◌≡◌, ◌≤◌, ◌+◌, ◌*◌, IfOk, length};
ghost use Rattle.he_setup.specs.Races.{KnowsHost};
ghost use Rattle.he_turns.specs.declared.limits.TheConstants.{MAX_POLL_TICK};
ghost use Rattle.he_probing.specs.Rounds.{IsInRange, IsJudged, IsRound, IsRoundFrom};

use crate::fastest::{Fastest, fastest_of};
use crate::outcomes::with_probes;
use crate::recorded::{RoundNotes, write_round};
use crate::request::RoundRequest;
use crate::rows::{AddressRow, addresses_of, rows_of};
use crate::verdict::{Verdict, verdict_of};
use he_addr::{Ip, Memory};
use he_connect::{RaceAnswers, Telling, look_up};
use he_course::Course;
use he_live::{Endpoint, ProbeRequest, Steps, gather_on, probe_on};
use he_record::Moment;
use he_recording::moment_now;
use he_resolver::SystemResolver;
use he_settings::NamesFault;
use he_setup::families::{excluded, write_excluded};
use he_setup::{
    ConnectFault, FamilyFaults, LookupFaults, Nat64, OwnMachine, Setup, is_by_nat64,
    nat64_prefixes, set_up_any, write_untranslated,
};
use he_timeline::Timeline;
use he_timeline::limits::MAX_ATTEMPTS;
use std::alloc::{AllocGlobal, Global};
use std::io::Write;
use std::mem::drop;
use std::net::Net;
use std::random::RandomSource;
use std::rt::Files;
use std::sync::Wait;
use std::thread::Threads;
use std::time::Clock;
use tokio::runtime::LocalRuntime;

/// The results of a round.
#[derive(Drop)]
pub struct Round {
    /// The time of tick 0.
    pub at: Option<Moment>,
    /// A row for each address, in the order of preference.
    pub rows: Vec<AddressRow>,
    /// The course of the race that a client has by the record.
    pub course: Course<Global>,
    pub verdict: Verdict,
    pub fastest: Option<Fastest>,
    /// The text of the record: record lines, and the timeline with all outcomes.
    pub text: Vec<u8>,
    /// Why a family has no address, if its look-up found none.
    pub why: FamilyFaults,
    /// Why there is no address at all, if a look-up failed.
    pub nameless: Option<NamesFault>,
    /// A line that says why there is no address, if that is for an option, or since no IPv4 host was embedded.
    pub told: Vec<u8>,
}

/// Looks up the host's addresses, connects to each, and judges the results. Each step is printed to `faults` as it
/// happens, if requested; a failed write there is ignored.
///
/// # Errors
///
/// Those of [`ConnectFault`].
pub fn run_round<R, F>(
    rt: &R,
    alloc: Global,
    request: &RoundRequest<'_>,
    faults: &mut F,
) -> Result<Round, ConnectFault>
where
    F: Write,
    R: Threads + Wait + Clock + RandomSource + AllocGlobal + Net + Files + Sync,
    R: SystemResolver + Copy + Send + 'static,
    requires { IsInRange request.now }
    ensures { IfOk result (IsRound request.now) }
{
    let setup = set_up_any(rt, alloc, &request.connect, faults)?;
    let round = round_of(rt, alloc, &setup, request, faults);
    drop(setup);
    round
}

// Runs the round of the set-up.
fn round_of<R, F>(
    rt: &R,
    alloc: Global,
    setup: &Setup<'_>,
    request: &RoundRequest<'_>,
    faults: &mut F,
) -> Result<Round, ConnectFault>
where
    F: Write,
    R: Threads + Wait + Clock + RandomSource + AllocGlobal + Net + Files + Sync,
    R: SystemResolver + Copy + Send + 'static,
    requires { IsInRange request.now }
    ensures { KnowsHost setup.now → IfOk result (IsRoundFrom setup.now.embeds setup.now.request setup.now.start) }
{
    let mut runtime = LocalRuntime::new(rt)?;
    let handle = runtime.handle().clone()?;
    let why = LookupFaults::new(alloc)?;
    let telling = Telling::new(alloc, faults, &setup.request);
    let lookups = look_up(rt, alloc, &handle, setup)?;
    let machine = OwnMachine::of_setup(rt, setup)?;
    let source = RaceAnswers::new(alloc, lookups, machine, why.share()?, &telling)?;
    let at = moment_now(rt);
    let gathered = gather_on(rt, alloc, &mut runtime, &setup.start, source)?;
    let steps = Steps::new(alloc)?;
    let preferred = Course::of(alloc, &gathered, 1, 1)?.addresses;
    let addresses = addresses_of(alloc, &preferred)?;
    let probe = probe_of(&addresses, setup.to, request, &steps)?;
    let probes = probe_on(rt, alloc, &mut runtime, probe, &telling)?;
    let servers = why.servers(alloc)?;
    let nat64 = why.take_nat64();
    let prefixes = nat64_prefixes(alloc, nat64.as_ref())?;
    let told = told_of(alloc, setup, nat64.as_ref(), &addresses)?;
    let notes = RoundNotes {
        at,
        why: why.families(),
        servers: &servers,
        nat64: &prefixes,
        by_nat64: is_by_nat64(setup, nat64.as_ref()),
        told: &told,
    };
    let recorded = with_probes(alloc, &gathered, &probes)?;
    let rows = rows_of(alloc, &probes, &preferred, &steps, nat64.as_ref())?;
    judge(alloc, setup, notes, rows, &recorded)
}

// Why there is no address, if that is for an option, or since no IPv4 host was embedded.
fn told_of(
    alloc: Global,
    setup: &Setup<'_>,
    nat64: Option<&Nat64>,
    addresses: &[Ip],
) -> Result<Vec<u8>, Memory> {
    let mut told = Vec::new(alloc);
    if !addresses.is_empty() {
        return Ok(told);
    }
    match (nat64, excluded(&setup.request)) {
        (Some(nat64), _) => write_untranslated(alloc, setup, nat64, &mut told)?,
        (None, Some(family)) => write_excluded(setup.request.host, family, &mut told)?,
        (None, None) => {}
    }
    Ok(told)
}

// The addresses at their port, with the request's times. A race has at most `MAX_ATTEMPTS`.
fn probe_of<'a>(
    addresses: &'a [Ip],
    to: Endpoint,
    request: &RoundRequest<'_>,
    steps: &'a Steps,
) -> Result<ProbeRequest<'a>, ConnectFault>
    requires { IsInRange request.now }
    ensures in_time { IfOk result (λ probe. length probe.addresses.now * probe.pace + probe.timeout ≤ MAX_POLL_TICK) }
    ensures addresses { IfOk result (λ probe. probe.addresses.now ≡ addresses.now) }
    ensures to { IfOk result (λ probe. probe.to ≡ to) }
    ensures pace { IfOk result (λ probe. probe.pace ≡ request.now.pace) }
    ensures timeout { IfOk result (λ probe. probe.timeout ≡ request.now.timeout) }
{
    if addresses.len() > MAX_ATTEMPTS {
        return Err(ConnectFault::Memory);
    }
    Ok(ProbeRequest {
        addresses,
        to,
        pace: request.pace,
        timeout: request.timeout,
        steps,
    })
}

// The results of the round, by its rows and its record.
fn judge(
    alloc: Global,
    setup: &Setup<'_>,
    notes: RoundNotes<'_>,
    rows: Vec<AddressRow>,
    recorded: &Timeline,
) -> Result<Round, ConnectFault>
    ensures { IfOk result (IsJudged notes.entry.by_nat64 setup.now.request recorded.now rows.items) }
{
    let text = write_round(alloc, &setup.request, notes, &rows, recorded)?;
    let course = Course::of(alloc, recorded, 1, 1)?;
    Ok(Round {
        at: notes.at,
        verdict: verdict_of(&rows, &course),
        fastest: fastest_of(&rows, &course),
        why: notes.why,
        nameless: notes.why.nameless(setup.request.families),
        told: Vec::from_slice(alloc, notes.told)?,
        rows,
        course,
        text,
    })
}
