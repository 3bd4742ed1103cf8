// Races with known round trip times and earlier uses: they decide the order, and the record has them.

use crate::homes::{Known, V4_A, V6_A, V6_B, known_race};
use crate::races::{Stepping, drive};
use futures::task::{Doorbell, Solo};
use he_plan::{Line, Mark, Outcome3};
use he_race::{RaceFault, RaceFuture, Raced, Scripted, WheelTicker};
use he_timeline::Timeline;
use std::alloc::Global;
use std::mem::drop;
use std::test::Fail;

// The race is won at 30 by its first attempt, at the address that succeeds, and its record is the timeline.
fn is_won_by_first(raced: &Raced<()>, known: &Known, timeline: &Timeline) -> bool {
    let won = Line {
        place: 0,
        tick: 20,
        ip: known.succeeds,
        mark: Mark::Won(30),
    };
    raced.transcript.result() == Outcome3::Won(0, 30)
        && raced.transcript.attempts() == [won].as_slice()
        && raced.recorded == *timeline
}

fn is_right(alloc: Global, solo: &Solo, known: &Known, timeline: &Timeline) -> Result<bool, Fail> {
    let wheel = WheelTicker::new(alloc, timeline)?;
    let connector = Scripted::new(timeline);
    let future = RaceFuture::new(alloc, timeline, connector, Stepping { wheel })?;
    let given = drive(solo, future, 40);
    let is_right = is_given(&given, known, timeline);
    drop(given);
    Ok(is_right)
}

fn is_given(
    given: &Option<Result<Raced<()>, RaceFault>>,
    known: &Known,
    timeline: &Timeline,
) -> bool {
    match given {
        Some(Ok(raced)) => is_won_by_first(raced, known, timeline),
        _ => false,
    }
}

fn by_known(alloc: Global, solo: &Solo, known: &Known) -> Result<bool, Fail> {
    let timeline = known_race(alloc, known)?;
    let is_right = is_right(alloc, solo, known, &timeline);
    drop(timeline);
    is_right
}

// The address of the lower round trip time comes first; a used one comes after one whose round trip time is known.
#[test]
fn known_addresses_come_first(rt: HostRuntime) -> Result<(), Fail> {
    let solo = Solo::new(&rt, Doorbell::spinning())?;
    let alloc: Global = rt.alloc();
    let lower = Known {
        rtts: &[(V6_A, 80), (V6_B, 30)],
        used: &[],
        succeeds: V6_B,
    };
    assert_eq!(rt; by_known(alloc, &solo, &lower)?, true);
    let known_one = Known {
        rtts: &[(V6_A, 80)],
        used: &[V6_B, V4_A],
        succeeds: V6_A,
    };
    assert_eq!(rt; by_known(alloc, &solo, &known_one)?, true);
    let used = Known {
        rtts: &[],
        used: &[V6_B],
        succeeds: V6_B,
    };
    assert_eq!(rt; by_known(alloc, &solo, &used)?, true);
    Ok(())
}
