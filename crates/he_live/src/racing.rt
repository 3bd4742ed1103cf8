//! A race on real sockets.
ghost use Rattle.std.specs.Prelude.{IfErr, IfOk};
ghost use Rattle.he_turns.specs.OfSource.{IsOfSource};
ghost use Rattle.he_turns.specs.Resolving.{ReplaysGiven};
ghost use Rattle.he_turns.specs.Turns.{Replays};
ghost use Rattle.he_turns.specs.Winner.{WinnerGoes};
ghost use Rattle.he_timeline.specs.Building.{unrecorded};
ghost use Rattle.he_live.specs.Dials.{at_port, goes_to};
ghost use Rattle.he_live.specs.Live.{IsRunFault};

use crate::clock::LiveTicker;
use crate::dialed::Dialed;
use crate::endpoint::Endpoint;
use crate::fault::LiveFault;
use crate::sockets::TcpConnector;
use crate::steps::{Quiet, Steps, Watcher};
use he_timeline::Timeline;
use he_turns::{AnswerSource, RaceFault, RaceFuture, Raced, ResolvingRace};
use std::alloc::{AllocGlobal, Allocator, Global};
use std::net::Net;
use std::random::RandomSource;
use std::sync::Wait;
use std::time::Clock;
use tokio::runtime::LocalRuntime;

/// Races the addresses of the timeline's answers at the port by the rules of a race (RFC 8305 sections 4 and 5), with
/// a TCP connection for each attempt. Returns the first connection, the transcript and the record.
///
/// A tick is a millisecond since the first turn. An answer counts from its tick on; tick 0 is at once. Only the
/// timeline's settings, policy, host, answers and history are used: the outcomes of the addresses and the client's
/// pauses are recorded. The record replays to the transcript. The steps of attempts are noted in `steps`, which must
/// be new for each race.
///
/// The losers are closed before the call returns. The winner's connection goes to the address of the transcript's
/// winning line, at the port. Its stream is as from `TcpStream::connect`: reads and writes block.
///
/// # Errors
///
/// - `Runtime` if the event loop cannot be made or fails, or the clock fails; `Files` if no descriptor is left for
///   the event loop.
/// - `Memory` if an allocation fails that the race can't go on without.
///
/// A socket that cannot be made, as for lack of a descriptor, is a failed attempt, and so is a refused connection.
pub fn live_race<R, A>(
    rt: &R,
    alloc: Global,
    timeline: &Timeline<A>,
    port: u16,
    steps: &Steps,
) -> Result<Raced<Dialed>, LiveFault>
where
    R: Wait + Clock + RandomSource + AllocGlobal + Net,
    A: Allocator,
    ensures replays { IfOk result (Replays timeline.now) }
    ensures winner { IfOk result (WinnerGoes (goes_to (at_port port))) }
    ensures fault { IfErr result IsRunFault }
{
    let mut runtime = LocalRuntime::new(rt)?;
    live_race_on(rt, alloc, &mut runtime, timeline, port, steps)
}

/// As [`live_race`], on the caller's event loop.
///
/// # Errors
///
/// Those of [`live_race`].
pub fn live_race_on<R, A>(
    rt: &R,
    alloc: Global,
    runtime: &mut LocalRuntime,
    timeline: &Timeline<A>,
    port: u16,
    steps: &Steps,
) -> Result<Raced<Dialed>, LiveFault>
where
    R: Wait + Clock + RandomSource + AllocGlobal + Net,
    A: Allocator,
    ensures replays { IfOk result (Replays timeline.now) }
    ensures winner { IfOk result (WinnerGoes (goes_to (at_port port))) }
    ensures fault { IfErr result IsRunFault }
{
    // A handle of its own: the run borrows the event loop.
    let handle = runtime.handle().clone()?;
    let to = Endpoint::at_port(port);
    let connector = TcpConnector::new(rt, handle.reactor(), to, steps.share()?);
    let ticker = LiveTicker::new(rt, handle.time(), steps.share()?, Quiet);
    let race = RaceFuture::new(alloc, timeline, connector, ticker)?;
    match runtime.block_on(rt, race)? {
        Ok(raced) => Ok(raced),
        Err(fault) => Err(fault_of(fault)),
    }
}

/// A race whose answers come during it.
#[derive(Drop)]
pub struct ResolvingRequest<'t, A: Allocator, S> {
    /// The input, used as by [`live_race`].
    pub timeline: &'t Timeline<A>,
    /// The source of answers for each family that has none in the timeline.
    pub source: S,
    /// The port and the interface of the connections.
    pub to: Endpoint,
}

/// As [`live_race_on`], with answers that come during the race (RFC 8305 section 3): the source answers for each
/// family that has no answer in the timeline. Its answer counts from the tick of the turn in which it comes, and is
/// recorded at that tick. A source's sockets and timers are those of this event loop. A connection to a link-local
/// IPv6 address goes over the endpoint's interface. Each step is reported to the watcher.
///
/// # Errors
///
/// Those of [`live_race`].
pub fn resolving_race_on<R, A, S, W>(
    rt: &R,
    alloc: Global,
    runtime: &mut LocalRuntime,
    request: ResolvingRequest<'_, A, S>,
    steps: &Steps,
    watcher: &W,
) -> Result<Raced<Dialed>, LiveFault>
where
    R: Wait + Clock + RandomSource + AllocGlobal + Net,
    A: Allocator,
    S: AnswerSource,
    W: Watcher,
    ensures replays { IfOk result (ReplaysGiven request.entry.timeline.now) }
    ensures winner { IfOk result (WinnerGoes (goes_to request.entry.to)) }
    ensures source { IfOk result (λ raced. IsOfSource S.hears request.entry.source
        (unrecorded request.entry.timeline.now) raced.recorded) }
    ensures fault { IfErr result IsRunFault }
{
    let handle = runtime.handle().clone()?;
    let ResolvingRequest {
        timeline,
        source,
        to,
    } = request;
    let connector = TcpConnector::new(rt, handle.reactor(), to, steps.share()?);
    let ticker = LiveTicker::new(rt, handle.time(), steps.share()?, watcher);
    let race = ResolvingRace::new(alloc, timeline, connector, source, ticker)?;
    let ended = runtime.block_on(rt, race);
    steps.tell_new(watcher);
    match ended? {
        Ok(raced) => Ok(raced),
        Err(fault) => Err(fault_of(fault)),
    }
}

pub(crate) fn fault_of(fault: RaceFault) -> LiveFault
    ensures { IsRunFault result }
{
    match fault {
        RaceFault::Memory => LiveFault::Memory,
        _ => LiveFault::Runtime,
    }
}
