// A ticker over a race that sleeps from 30 to 399.

use crate::homes::{PlannedRace, race};
use futures::task::{Doorbell, Solo};
use he_race::{TickFault, Ticker, WheelTicker};
use he_timeline::Timeline;
use refusing::{Refusing, refused_in_turn};
use std::alloc::Global;
use std::mem::drop;
use std::test::Fail;

static ASKED: [u8; 4] = [60, 10, 5, 60];

// Asks for 60, 10, 5 and 60 again at tick 0, and for 3 once it is at 10.
fn visited(solo: &Solo, alloc: Global, timeline: &Timeline) -> Result<[u64; 4], Fail> {
    let mut ticker = WheelTicker::new(alloc, timeline)?;
    let visited = ticks(solo, &mut ticker);
    drop(ticker);
    visited
}

fn ask(solo: &Solo, ticker: &mut WheelTicker<'_>, tick: u8) -> Result<(), Fail> {
    let mut cx = solo.begin();
    let asked = ticker.wake_at(u64::from(tick), &mut cx);
    cx.cancel();
    Ok(asked?)
}

fn ticks(solo: &Solo, ticker: &mut WheelTicker<'_>) -> Result<[u64; 4], Fail> {
    for tick in &ASKED {
        ask(solo, ticker, *tick)?;
    }
    ticker.jump()?;
    let first = ticker.now();
    ticker.jump()?;
    let second = ticker.now();
    ask(solo, ticker, 3)?;
    ticker.jump()?;
    let third = ticker.now();
    ticker.jump()?;
    let went = ticker.jump()?;
    let last = if went { 0 } else { ticker.now() };
    Ok([first, second, third, last])
}

// A ticker over a heap of the test's own, asked for 60: if memory was granted it goes there, else it doesn't move.
fn is_asked<'a, 'h>(
    solo: &Solo,
    heap: &'h Refusing<Global>,
    timeline: &'a Timeline,
) -> Option<bool> {
    let mut ticker: WheelTicker<'a, &'h Refusing<Global>> = WheelTicker::new(heap, timeline).ok()?;
    let mut cx = solo.begin();
    let asked = ticker.wake_at(60, &mut cx);
    cx.cancel();
    let has_gone = ticker.jump().unwrap_or(false);
    let at = ticker.now();
    drop(ticker);
    match asked {
        Ok(()) => Some(has_gone && at == 60),
        Err(TickFault::Memory) if !has_gone && at == 0 => None,
        Err(_) => Some(false),
    }
}

#[test]
fn a_refused_wake_leaves_the_ticker(rt: HostRuntime) -> Result<(), Fail> {
    let alloc: Global = rt.alloc();
    let timeline = race(
        alloc,
        &PlannedRace {
            limit: 30_000,
            floor: None,
            has_second: false,
            answers: (90, 10),
            v6: None,
            v4: None,
            pause: None,
        },
    )?;
    let solo = Solo::new(&rt, Doorbell::spinning())?;
    let heap = Refusing::new(alloc);
    let refused = refused_in_turn(&heap, || is_asked(&solo, &heap, &timeline));
    drop(timeline);
    assert!(rt; refused.unwrap_or(0) > 0);
    Ok(())
}

#[test]
fn ticker_goes_where_it_was_asked(rt: HostRuntime) -> Result<(), Fail> {
    let alloc: Global = rt.alloc();
    let timeline = race(
        alloc,
        &PlannedRace {
            limit: 30_000,
            floor: None,
            has_second: false,
            answers: (90, 10),
            v6: None,
            v4: None,
            pause: Some((30, 400)),
        },
    )?;
    let solo = Solo::new(&rt, Doorbell::spinning())?;
    let visited = visited(&solo, alloc, &timeline);
    drop(timeline);
    assert_eq!(rt; visited?, [5, 10, 11, 400]);
    Ok(())
}
