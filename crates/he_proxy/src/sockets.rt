//! The race of a session on the sockets of the event loop.
ghost use Rattle.std.specs.Prelude.{IfOk, Ok};
ghost use Rattle.he_setup.specs.Races.{KnowsHost};
ghost use Rattle.he_proxy.specs.Races.{RunsFrom};

use futures::Future;
use futures::task::{Context, Poll};
use he_addr::Memory;
use he_kernel::asked::AskedWays;
use he_live::{LiveTicker, Quiet, Steps};
use he_loop::{Joined, LoopConnector, Progress, RaceTicker, Reach, SharedLoop, Target};
use he_setup::{ConnectFault, LookupFaults, Setup};
use he_source::{Earlier, RaceSystem, SessionAnswers, answers_of};
use he_turns::{RaceFault, Raced, ResolvingRace};
use std::alloc::Global;

/// The race on the sockets of the event loop.
#[derive(Drop)]
pub struct SocketRace<'h, R>
where
    R: RaceSystem,
{
    race: ResolvingRace<LoopConnector<'h, R>, SessionAnswers<'h, R>, RaceTicker<'h, R>>,
}

impl<'h, R> Future for SocketRace<'h, R>
where
    R: RaceSystem,
{
    type Output = Result<Raced<Joined>, RaceFault>;

    ghost can_poll = { λ s. ⟦<ResolvingRace<LoopConnector<'h, R>, SessionAnswers<'h, R>, RaceTicker<'h, R>> as Future>⟧.can_poll s.race };

    ghost gives = { λ s end. ⟦<ResolvingRace<LoopConnector<'h, R>, SessionAnswers<'h, R>, RaceTicker<'h, R>> as Future>⟧.gives s.race end };

    fn poll(&mut self, cx: &mut Context<'_>) -> Poll<Result<Raced<Joined>, RaceFault>> {
        self.race.poll(cx)
    }
}

/// The notes of a running race.
#[derive(Drop)]
pub struct Noted {
    /// The steps of its attempts.
    pub steps: Steps,
    /// Why its families have no address, and what it learns of its network's NAT64.
    pub why: LookupFaults,
    /// Its progress, and whether its client has left.
    pub progress: Progress,
    /// The kernel's answers.
    pub asked: AskedWays,
}

impl Noted {
    /// No notes but the kernel's answers.
    ///
    /// # Errors
    ///
    /// `Memory` if an allocation fails.
    pub fn new(alloc: Global, asked: AskedWays) -> Result<Noted, Memory> {
        Ok(Noted {
            steps: Steps::new(alloc)?,
            why: LookupFaults::new(alloc)?,
            progress: Progress::new(alloc)?,
            asked,
        })
    }
}

/// The race of the set-up, before its first turn.
///
/// # Errors
///
/// `Name` if the host can't be looked up, `Runtime` if the clock fails, `Memory`.
pub fn socket_race<'h, R>(
    shared: SharedLoop<'h, R>,
    setup: &Setup<'_>,
    reach: Reach<'h>,
    earlier: Earlier<'h>,
    noted: &Noted,
) -> Result<SocketRace<'h, R>, ConnectFault>
where
    R: RaceSystem,
    ensures can { IfOk result ⟦<SocketRace<'h, R> as Future>⟧.can_poll }
    ensures runs { KnowsHost setup.now → IfOk result (λ race. (raced : _)
        → ⟦<SocketRace<'h, R> as Future>⟧.gives race (Ok raced) → RunsFrom R setup.now reach.entry raced) }
{
    let SharedLoop { rt, alloc, handle } = shared;
    let source = answers_of(shared, setup, earlier, &noted.why)?;
    let steps = noted.steps.share()?;
    let ways = noted.asked.share()?;
    let asked = String::from_str(alloc, setup.request.host)?;
    let target = Target {
        asked,
        to: setup.to,
    };
    let connector = LoopConnector::new(shared, target, reach, steps, ways);
    let steps = noted.steps.share()?;
    let ticks = LiveTicker::new(rt, handle.time(), steps, Quiet);
    let ticker = RaceTicker::new(ticks, noted.progress.share()?);
    let race = ResolvingRace::new(alloc, &setup.start, connector, source, ticker)?;
    Ok(SocketRace { race })
}
