//! The answers of a source, without attempts to connect.
ghost use Rattle.std.specs.Prelude.{IfErr, IfOk};
ghost use Rattle.he_turns.specs.Gathering.{IsGatheredFrom};
ghost use Rattle.he_timeline.specs.Building.{unrecorded};
ghost use Rattle.he_live.specs.Live.{IsRunFault};

use crate::clock::LiveTicker;
use crate::fault::LiveFault;
use crate::racing::fault_of;
use crate::steps::{Quiet, Steps};
use he_timeline::Timeline;
use he_turns::{AnswerSource, Gathering};
use std::alloc::{AllocGlobal, Allocator, Global};
use std::net::Net;
use std::random::RandomSource;
use std::sync::Wait;
use std::time::Clock;
use tokio::runtime::LocalRuntime;

/// The timeline with the answers of the source for each family that has none: each at the tick at which it came, in
/// milliseconds since the first poll, as in [`resolving_race_on`](crate::resolving_race_on). A family has no answer if
/// none came by the tick `MAX_LIMIT`. No attempt is made. A source's sockets and timers are those of this event loop.
///
/// # Errors
///
/// As for [`live_race`](crate::live_race).
pub fn gather_on<R, A, S>(
    rt: &R,
    alloc: Global,
    runtime: &mut LocalRuntime,
    timeline: &Timeline<A>,
    source: S,
) -> Result<Timeline, LiveFault>
where
    R: Wait + Clock + RandomSource + AllocGlobal + Net,
    A: Allocator,
    S: AnswerSource,
    ensures source { IfOk result (IsGatheredFrom S.hears source (unrecorded timeline.now)) }
    ensures fault { IfErr result IsRunFault }
{
    let handle = runtime.handle().clone()?;
    let steps = Steps::new(alloc)?;
    let ticker = LiveTicker::new(rt, handle.time(), steps.share()?, Quiet);
    let gathering = Gathering::new(alloc, timeline, source, ticker)?;
    match runtime.block_on(rt, gathering)? {
        Ok(gathered) => Ok(gathered),
        Err(fault) => Err(fault_of(fault)),
    }
}
