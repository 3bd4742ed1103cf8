// Races as futures, over tickers that don't advance, go back, jump or fail, with a connector that cannot begin, and
// with floors.

ghost use Rattle.std.specs.Prelude.{◌≡◌, ◌≤◌, IfSome, None};
ghost use Rattle.futures.specs.Poll.{IfReady, OnPending};
ghost use Rattle.he_turns.specs.Winner.{MayPoll};

use crate::homes::{PlannedRace, V4_A, V6_A, first_race, many_race, race};
use futures::Future;
use futures::task::{Context, Doorbell, Poll, Solo};
use he_addr::Ip;
use he_plan::{Mark, Outcome3};
use he_race::{
    AttemptFault, Connector, RaceFault, RaceFuture, Raced, Scripted, ScriptedTrial, TickFault,
    Ticker, WheelTicker,
};
use he_timeline::{Outcome, Timeline};
use std::alloc::Global;
use std::mem::drop;
use std::test::Fail;

// Gives these ticks, one at each poll, and then the last one again. It fails if it isn't asked for these in order, or
// if it has no memory.
#[derive(Drop)]
struct Moments {
    ticks: [u64; 4],
    asks: [u64; 4],
    told: usize,
    is_full: bool,
}

fn told_at(ticks: [u64; 4], asks: [u64; 4]) -> Moments {
    Moments {
        ticks,
        asks,
        told: 0,
        is_full: false,
    }
}

impl Ticker for Moments {
    ghost use Rattle.std.specs.Prelude.{⊤};

    ghost tells = { λ _ _ _. ⊤ };

    ghost wakes = { λ _ _ _ _. ⊤ };

    fn now(&mut self) -> u64 {
        self.ticks[self.told.min(3)]
    }

    fn wake_at(&mut self, tick: u64, cx: &mut Context<'_>) -> Result<(), TickFault> {
        if self.is_full {
            return Err(TickFault::Memory);
        }
        if tick != self.asks[self.told.min(3)] {
            return Err(TickFault::Lost);
        }
        self.told = self.told.saturating_add(1);
        let _ = cx.yield_now::<()>();
        Ok(())
    }
}

/// Advances to the next requested tick whenever it is asked for the tick.
#[derive(Drop)]
pub struct Stepping<'a> {
    pub wheel: WheelTicker<'a>,
}

impl<'a> Ticker for Stepping<'a> {
    ghost use Rattle.std.specs.Prelude.{⊤};

    ghost tells = { λ _ _ _. ⊤ };

    ghost wakes = { λ _ _ _ _. ⊤ };

    fn now(&mut self) -> u64 {
        let _ = self.wheel.jump();
        self.wheel.now()
    }

    fn wake_at(&mut self, tick: u64, cx: &mut Context<'_>) -> Result<(), TickFault> {
        self.wheel.wake_at(tick, cx)
    }
}

// Connects as the script does, but cannot begin at the first `faulty` places.
#[derive(Drop)]
struct FailsFirst<'a> {
    script: Scripted<'a>,
    faulty: usize,
}

impl<'a> Connector for FailsFirst<'a> {
    type Conn = ();

    type Run = ScriptedTrial;

    ghost use Rattle.std.specs.Prelude.{⊤};

    ghost begins = { λ _ _ _ _ _ _. ⊤ };

    fn begin(&mut self, place: usize, ip: Ip, now: u64) -> Result<ScriptedTrial, AttemptFault> {
        if place < self.faulty {
            return Err(AttemptFault::Begin);
        }
        self.script.begin(place, ip, now)
    }
}

/// The future's output within this number of polls; it is dropped then.
pub fn drive<F: Future>(solo: &Solo, mut future: F, polls: u8) -> Option<F::Output>
    requires { F.can_poll future }
{
    for _ in 0..polls {
        let mut cx = solo.begin();
        let polled = future.poll(&mut cx);
        cx.cancel();
        if let Poll::Ready(given) = polled {
            return Some(given);
        }
    }
    None
}

// A race in short: its result, its attempts, and the pauses and the outcomes of its record.
#[derive(Clone, Copy, Debug, PartialEq, Eq)]
struct Short {
    result: Outcome3,
    attempts: usize,
    last: Option<(u64, Mark)>,
    pauses: usize,
    pause: Option<(u64, u64)>,
    v6: Option<Outcome>,
    v4: Option<Outcome>,
}

fn summary(raced: &Raced<()>) -> Short {
    let lines = raced.transcript.attempts();
    let pauses = raced.recorded.pauses();
    Short {
        result: raced.transcript.result(),
        attempts: lines.len(),
        last: lines.last().map(|line| (line.tick, line.mark)),
        pauses: pauses.len(),
        pause: pauses.last().copied(),
        v6: raced.recorded.outcome(V6_A),
        v4: raced.recorded.outcome(V4_A),
    }
}

// The observed end of a race. `GoesOn` if a poll after the result does not answer that the race is over.
#[derive(Clone, Copy, Debug, PartialEq, Eq)]
enum Seen {
    Pending,
    Gave(Short),
    Failed(RaceFault),
    GoesOn,
}

// Polls of a race that never ends.
const MOST_POLLS: u8 = 100;

fn poll_once<C: Connector, T: Ticker>(
    solo: &Solo,
    race: &mut RaceFuture<C, T>,
) -> Poll<Result<Raced<C::Conn>, RaceFault>>
    requires { IfSome race.old.live (MayPoll C.Connector C.Run.Trial race.old.connector) }
    ensures again { OnPending result (IfSome race.new.live (MayPoll C.Connector C.Run.Trial race.new.connector)) }
    ensures over { IfReady result (λ _. race.new.live ≡ None) }
{
    let mut cx = solo.begin();
    let polled = race.poll(&mut cx);
    cx.cancel();
    polled
}

// The observed end of the race within `MOST_POLLS` polls, with one more poll after its result.
fn seen_of<C: Connector<Conn = ()>, T: Ticker>(solo: &Solo, mut future: RaceFuture<C, T>) -> Seen
    requires { IfSome future.live (MayPoll C.Connector C.Run.Trial future.connector) }
{
    for _ in 0..MOST_POLLS {
        if let Poll::Ready(given) = poll_once(solo, &mut future) {
            let seen = seen_in(&given);
            drop(given);
            let again = poll_once(solo, &mut future);
            let is_over = is_over(&again);
            drop(again);
            drop(future);
            return if is_over { seen } else { Seen::GoesOn };
        }
    }
    drop(future);
    Seen::Pending
}

fn is_over(given: &Poll<Result<Raced<()>, RaceFault>>) -> bool {
    match given {
        Poll::Ready(Err(fault)) => *fault == RaceFault::Over,
        _ => false,
    }
}

fn seen_in(given: &Result<Raced<()>, RaceFault>) -> Seen {
    match given {
        Ok(raced) => Seen::Gave(summary(raced)),
        Err(fault) => Seen::Failed(*fault),
    }
}

// The first race, over this ticker.
fn by_ticker<T: Ticker>(alloc: Global, solo: &Solo, ticker: T) -> Result<Seen, Fail> {
    match race(alloc, &first_race(None)) {
        Ok(timeline) => {
            let seen = seen_by(alloc, solo, &timeline, ticker);
            drop(timeline);
            seen
        }
        Err(fault) => {
            drop(ticker);
            Err(fault)
        }
    }
}

fn seen_by<T: Ticker>(
    alloc: Global,
    solo: &Solo,
    timeline: &Timeline,
    ticker: T,
) -> Result<Seen, Fail> {
    let future = RaceFuture::new(alloc, timeline, Scripted::new(timeline), ticker)?;
    Ok(seen_of(solo, future))
}

fn won_at(tick: u64, duration: u64, pause: (u64, u64)) -> Seen {
    Seen::Gave(Short {
        result: Outcome3::Won(0, tick),
        attempts: 1,
        last: Some((20, Mark::Won(tick))),
        pauses: 1,
        pause: Some(pause),
        v6: Some(Outcome::Ok(duration)),
        v4: None,
    })
}

// A ticker that jumps past the finish or past the limit: the time that the race slept is recorded.
#[test]
fn jumps_are_recorded_as_pauses(rt: HostRuntime) -> Result<(), Fail> {
    let solo = Solo::new(&rt, Doorbell::spinning())?;
    let alloc: Global = rt.alloc();
    let late = told_at([0, 20, 500, 500], [20, 21, 0, 0]);
    assert_eq!(rt; by_ticker(alloc, &solo, late)?, won_at(500, 480, (25, 500)));
    let past = told_at([0, 20, 40_000, 40_000], [20, 21, 0, 0]);
    let limit = Seen::Gave(Short {
        result: Outcome3::Limit(30_000),
        attempts: 1,
        last: Some((20, Mark::Cancelled(30_000))),
        pauses: 1,
        pause: Some((25, 30_001)),
        v6: None,
        v4: None,
    });
    assert_eq!(rt; by_ticker(alloc, &solo, past)?, limit);
    Ok(())
}

// A ticker that goes back or doesn't advance is asked for the tick after the last turn; one fails, or has no memory.
#[test]
fn tickers_that_misbehave(rt: HostRuntime) -> Result<(), Fail> {
    let solo = Solo::new(&rt, Doorbell::spinning())?;
    let alloc: Global = rt.alloc();
    let back = told_at([0, 20, 10, 55], [20, 21, 21, 0]);
    assert_eq!(rt; by_ticker(alloc, &solo, back)?, won_at(55, 35, (25, 55)));
    let still = told_at([0, 20, 20, 20], [20, 21, 21, 21]);
    assert_eq!(rt; by_ticker(alloc, &solo, still)?, Seen::Pending);
    let lost = told_at([0, 20, 21, 55], [0, 0, 0, 0]);
    assert_eq!(rt;
        by_ticker(alloc, &solo, lost)?,
        Seen::Failed(RaceFault::Clock)
    );
    let mut full = told_at([0, 20, 21, 55], [0, 0, 0, 0]);
    full.is_full = true;
    assert_eq!(rt;
        by_ticker(alloc, &solo, full)?,
        Seen::Failed(RaceFault::Memory)
    );
    Ok(())
}

// The race over a wheel, with a connector that cannot begin at the first `faulty` places.
fn by_wheel(alloc: Global, solo: &Solo, given: &PlannedRace, faulty: usize) -> Result<Seen, Fail> {
    let timeline = race(alloc, given)?;
    let seen = seen_at(alloc, solo, &timeline, faulty);
    drop(timeline);
    seen
}

fn seen_at(alloc: Global, solo: &Solo, timeline: &Timeline, faulty: usize) -> Result<Seen, Fail> {
    let wheel = WheelTicker::new(alloc, timeline)?;
    let connector = FailsFirst {
        script: Scripted::new(timeline),
        faulty,
    };
    let future = RaceFuture::new(alloc, timeline, connector, Stepping { wheel })?;
    Ok(seen_of(solo, future))
}

// Five attempts that cannot begin, of both families in turn: the last one fails a tick after its start.
#[test]
fn none_can_begin(rt: HostRuntime) -> Result<(), Fail> {
    let solo = Solo::new(&rt, Doorbell::spinning())?;
    let alloc: Global = rt.alloc();
    let timeline = many_race(alloc)?;
    let seen = seen_at(alloc, &solo, &timeline, 5);
    drop(timeline);
    let none = Short {
        result: Outcome3::Exhausted(1_021),
        attempts: 5,
        last: Some((1_020, Mark::Failed(1_021))),
        pauses: 0,
        pause: None,
        v6: Some(Outcome::Fail(1)),
        v4: Some(Outcome::Fail(1)),
    };
    assert_eq!(rt; seen?, Seen::Gave(none));
    Ok(())
}

// The first attempt cannot begin, and the second wins; then none can begin.
#[test]
fn attempts_that_cannot_begin_fail(rt: HostRuntime) -> Result<(), Fail> {
    let solo = Solo::new(&rt, Doorbell::spinning())?;
    let alloc: Global = rt.alloc();
    let given = first_race(Some(Outcome::Ok(5)));
    let second = Short {
        result: Outcome3::Won(1, 275),
        attempts: 2,
        last: Some((270, Mark::Won(275))),
        pauses: 0,
        pause: None,
        v6: Some(Outcome::Fail(1)),
        v4: Some(Outcome::Ok(5)),
    };
    assert_eq!(rt; by_wheel(alloc, &solo, &given, 1)?, Seen::Gave(second));
    let none = Short {
        result: Outcome3::Exhausted(271),
        last: Some((270, Mark::Failed(271))),
        v4: Some(Outcome::Fail(1)),
        ..second
    };
    assert_eq!(rt; by_wheel(alloc, &solo, &given, 2)?, Seen::Gave(none));
    Ok(())
}

// A pause over the start: the record has the part that the race slept.
#[test]
fn pause_over_the_start_is_recorded(rt: HostRuntime) -> Result<(), Fail> {
    let solo = Solo::new(&rt, Doorbell::spinning())?;
    let alloc: Global = rt.alloc();
    let given = PlannedRace {
        limit: 30_000,
        floor: None,
        has_second: false,
        answers: (90, 10),
        v6: Some(Outcome::Ok(20)),
        v4: None,
        pause: Some((30, 400)),
    };
    let slept = Short {
        result: Outcome3::Won(0, 420),
        attempts: 1,
        last: Some((400, Mark::Won(420))),
        pauses: 1,
        pause: Some((60, 400)),
        v6: Some(Outcome::Ok(20)),
        v4: None,
    };
    assert_eq!(rt; by_wheel(alloc, &solo, &given, 0)?, Seen::Gave(slept));
    Ok(())
}

// A race with this floor, both answers at 20 and these failures, and its observed end: the second attempt starts at
// this tick and fails 5 ticks later, which ends the race unless overridden.
fn by_floor(floor: u64, v6: u64, start: u64) -> (PlannedRace, Short)
    requires { start ≤ 270 }
{
    let given = PlannedRace {
        limit: 30_000,
        floor: Some(floor),
        has_second: false,
        answers: (20, 20),
        v6: Some(Outcome::Fail(v6)),
        v4: Some(Outcome::Fail(5)),
        pause: None,
    };
    let seen = Short {
        result: Outcome3::Exhausted(start + 5),
        attempts: 2,
        last: Some((start, Mark::Failed(start + 5))),
        pauses: 0,
        pause: None,
        v6: given.v6,
        v4: given.v4,
    };
    (given, seen)
}

// With a floor a start waits for it, for the first attempt's failure at 25, 30, 80 or 320, and for no more than the
// attempt delay; a pause moves the start; and if the first attempt keeps running, only the attempt delay counts.
fn floors() -> [(PlannedRace, Short); 6] {
    let (plain, seen) = by_floor(100, 5, 120);
    let (late, exhausted) = by_floor(10, 300, 270);
    let late_end = Short {
        result: Outcome3::Exhausted(320),
        ..exhausted
    };
    let paused = PlannedRace {
        pause: Some((100, 200)),
        ..plain
    };
    let slept = Short {
        result: Outcome3::Exhausted(205),
        last: Some((200, Mark::Failed(205))),
        pauses: 1,
        pause: Some((120, 200)),
        ..seen
    };
    let running = PlannedRace {
        limit: 1_000,
        floor: Some(10),
        has_second: true,
        v6: None,
        ..plain
    };
    let limit = Short {
        result: Outcome3::Limit(1_000),
        attempts: 3,
        last: Some((520, Mark::Cancelled(1_000))),
        v6: None,
        ..seen
    };
    [
        (plain, seen),
        by_floor(10, 10, 30),
        by_floor(10, 60, 80),
        (late, late_end),
        (paused, slept),
        (running, limit),
    ]
}

#[test]
fn starts_by_the_floor(rt: HostRuntime) -> Result<(), Fail> {
    let solo = Solo::new(&rt, Doorbell::spinning())?;
    let alloc: Global = rt.alloc();
    for (given, short) in floors() {
        assert_eq!(rt; by_wheel(alloc, &solo, &given, 0)?, Seen::Gave(short));
    }
    Ok(())
}
