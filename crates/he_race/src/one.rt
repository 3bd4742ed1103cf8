// A recorded race from its first turn to its end.

ghost use Rattle.std.specs.Prelude.{◌≡◌, ◌+◌, ◌≤◌, ℕ, IfNone, IfOk, IfSome};
ghost use Rattle.futures.specs.Poll.{OnPending};
ghost use Rattle.he_timeline.specs.declared.limits.TheConstants.{MAX_LIMIT};
ghost use Rattle.he_timeline.specs.Race.{Race};
ghost use Rattle.he_plan.specs.Transcript.{IsTranscript};
ghost use Rattle.he_race.specs.Following.{GivesScripts, IsUnderWay};
ghost use Rattle.he_turns.specs.Racing.{RacePolls};
ghost use Rattle.he_turns.specs.Winner.{MayPoll};

use crate::alone::Alone;
use crate::scripted::{Scripted, ScriptedTrial};
use crate::wheel::WheelTicker;
use futures::Future;
use futures::task::{Doorbell, Poll, Solo};
use he_addr::Memory;
use he_plan::Transcript;
use he_timeline::Timeline;
use he_timeline::timeline::are_addresses_in_range;
use he_turns::{Connector, RaceFault, RaceFuture, Raced, Ticker};
use std::alloc::{Allocator, Global};
use std::mem::drop;

/// Runs the timeline's race (RFC 8305 sections 3 to 5) and returns its transcript: a `RaceFuture` over `Scripted` and
/// `WheelTicker`, polled on the calling thread at each tick that it requests, moved by the timeline's pauses. It
/// takes at most one turn for each tick up to the limit. `Memory` if an allocation fails.
pub fn race_one<A: Allocator>(alloc: Global, timeline: &Timeline<A>) -> Result<Transcript, Memory>
    ensures { IfOk result (IsTranscript timeline.now) }
{
    let solo = Solo::new(&Alone { alloc }, Doorbell::spinning()).map_err(|_| Memory)?;
    let transcript = run_race(alloc, &solo, timeline);
    drop(solo);
    transcript
}

// Runs the race as the only task of this executor.
fn run_race<A: Allocator>(
    alloc: Global,
    solo: &Solo,
    timeline: &Timeline<A>,
) -> Result<Transcript, Memory>
    ensures { IfOk result (IsTranscript timeline.now) }
{
    are_addresses_in_range(timeline);
    let limit = timeline.settings().limit();
    let ticker = WheelTicker::new(alloc, timeline)?;
    let mut race = RaceFuture::new(alloc, timeline, Scripted::new(timeline), ticker)?;
    let given = drive(solo, limit, &mut race);
    drop(race);
    transcript_in(given)
}

// The transcript of a scripted race, from its result.
fn transcript_in(given: Result<Raced<()>, RaceFault>) -> Result<Transcript, Memory>
    requires { (script : Race) × GivesScripts script given }
    ensures { (script : Race) → GivesScripts script given → IfOk result (IsTranscript script) }
{
    match given {
        Ok(
            Raced {
                transcript,
                recorded,
                winner: _,
            },
        ) => {
            drop(recorded);
            Ok(transcript)
        }
        Err(RaceFault::Memory) => Err(Memory),
        Err(_) => unreachable!(),
    }
}

// The result of the race, polled at each tick to which its ticker jumps.
fn drive<C: Connector<Conn = (), Run = ScriptedTrial>, A: Allocator>(
    solo: &Solo,
    limit: u64,
    race: &mut RaceFuture<C, WheelTicker<'_, Global, A>>,
) -> Result<Raced<()>, RaceFault>
    requires under_way { IsUnderWay C.Connector 0 race.old }
    requires limit { limit ≡ race.old.ticker.race.settings.limit }
    requires range { limit ≤ MAX_LIMIT }
    ensures { GivesScripts race.old.ticker.race result }
{
    for _ in 0..limit + 1 {
        if let Some(given) = advance(solo, race) {
            return given;
        }
    }
    unreachable!()
}

// The result of a poll at the ticker's current tick. If the race is pending, the ticker jumps to the next requested
// tick.
fn advance<C: Connector<Conn = (), Run = ScriptedTrial>, A: Allocator>(
    solo: &Solo,
    race: &mut RaceFuture<C, WheelTicker<'_, Global, A>>,
) -> Option<Result<Raced<()>, RaceFault>>
    requires { (turns : ℕ) × IsUnderWay C.Connector turns race.old }
    ensures given { IfSome result (GivesScripts race.old.ticker.race) }
    ensures script { IfNone result (race.new.ticker.race ≡ race.old.ticker.race) }
    ensures further { IfNone result ((turns : ℕ) → IsUnderWay C.Connector turns race.old
        → IsUnderWay C.Connector (turns + 1) race.new) }
{
    match poll_once(solo, race) {
        Poll::Ready(given) => Some(given),
        Poll::Pending => {
            drop(race.ticker_mut().jump());
            None
        }
    }
}

// Polls once, as the only task of an executor.
fn poll_once<C: Connector, T: Ticker>(
    solo: &Solo,
    race: &mut RaceFuture<C, T>,
) -> Poll<Result<Raced<C::Conn>, RaceFault>>
    requires { IfSome race.old.live (MayPoll C.Connector C.Run.Trial race.old.connector) }
    ensures { RacePolls C.Connector C.Run.Trial T.Ticker race.old result race.new }
{
    let mut cx = solo.begin();
    let polled = race.poll(&mut cx);
    cx.cancel();
    polled
}
