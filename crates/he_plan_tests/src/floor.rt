// The floor after failures: its range, and the worked races that have one.

use crate::hosts::{HostKind, builder};
use he_addr::{Family, Ip};
use he_plan::{Line, Mark, Outcome3, transcript_of};
use he_timeline::{BuildFault, Outcome, Range, Settings, TimelineBuilder};
use refusing::Refusing;
use std::mem::drop;

// 2001:db8:1::1 and 2001:db8:1::2
const V6_A: Ip = Ip::V6(0x2001_0db8_0001_0000_0000_0000_0000_0001);

const V6_B: Ip = Ip::V6(0x2001_0db8_0001_0000_0000_0000_0000_0002);

// 198.51.100.1
const V4_A: Ip = Ip::V4(0xc633_6401);

fn settings(limit: u64, floor: u64) -> Result<Settings, Range> {
    Settings::new(50, 250, 1, limit)?.with_floor(floor)
}

fn floor_of(floor: u64) -> Result<Option<u64>, Range> {
    Ok(settings(30_000, floor)?.floor())
}

#[test]
fn floor_is_from_ten_to_the_attempt_delay(rt: HostRuntime) {
    assert!(rt; floor_of(9) == Err(Range::Floor));
    assert!(rt; floor_of(10) == Ok(Some(10)));
    assert!(rt; floor_of(250) == Ok(Some(250)));
    assert!(rt; floor_of(251) == Err(Range::Floor));
}

#[test]
fn new_settings_have_no_floor(rt: HostRuntime) {
    let floor = match Settings::new(50, 250, 1, 30_000) {
        Ok(settings) => settings.floor(),
        Err(_) => Some(0),
    };
    assert!(rt; floor == None);
}

// A race of both answers at tick 20: its IPv6 addresses, the outcomes of its addresses, and a pause.
#[derive(Drop)]
struct Race<'c> {
    settings: Result<Settings, Range>,
    aaaa: &'c [Ip],
    outcomes: &'c [(Ip, Outcome)],
    pauses: &'c [(u64, u64)],
}

fn fill(builder: &mut TimelineBuilder<&Refusing>, race: &Race) -> Result<(), BuildFault> {
    builder.answer(Family::V6, 20, race.aaaa)?;
    builder.answer(Family::V4, 20, &[V4_A])?;
    for told in race.outcomes {
        builder.outcome(told.0, told.1)?;
    }
    for pause in race.pauses {
        builder.pause(pause.0, pause.1)?;
    }
    Ok(())
}

// Whether the race's transcript has these lines and this result.
fn has_transcript(heap: &Refusing, race: &Race, lines: &[Line], ending: Outcome3) -> Option<bool> {
    let settings = race.settings.ok()?;
    let mut builder = builder(heap, settings, HostKind::Usual)?;
    if fill(&mut builder, race).is_err() {
        drop(builder);
        return None;
    }
    let timeline = builder.finish();
    let transcript = transcript_of(heap, &timeline);
    drop(timeline);
    let transcript = transcript.ok()?;
    Some(transcript.attempts() == lines && transcript.result() == ending)
}

fn line(place: usize, tick: u64, ip: Ip, mark: Mark) -> Line {
    Line {
        place,
        tick,
        ip,
        mark,
    }
}

#[test]
fn failure_before_the_floor(rt: HostRuntime) {
    let heap = Refusing::new(rt.alloc());
    let race = Race {
        settings: settings(30_000, 100),
        aaaa: &[V6_A],
        outcomes: &[(V6_A, Outcome::Fail(5)), (V4_A, Outcome::Fail(5))],
        pauses: &[],
    };
    let lines = [
        line(0, 20, V6_A, Mark::Failed(25)),
        line(1, 120, V4_A, Mark::Failed(125)),
    ];
    assert!(rt; has_transcript(&heap, &race, &lines, Outcome3::Exhausted(125)) == Some(true));
}

#[test]
fn failure_on_the_floor(rt: HostRuntime) {
    let heap = Refusing::new(rt.alloc());
    let race = Race {
        settings: settings(30_000, 10),
        aaaa: &[V6_A],
        outcomes: &[(V6_A, Outcome::Fail(10)), (V4_A, Outcome::Fail(5))],
        pauses: &[],
    };
    let lines = [
        line(0, 20, V6_A, Mark::Failed(30)),
        line(1, 30, V4_A, Mark::Failed(35)),
    ];
    assert!(rt; has_transcript(&heap, &race, &lines, Outcome3::Exhausted(35)) == Some(true));
}

#[test]
fn failure_after_the_floor(rt: HostRuntime) {
    let heap = Refusing::new(rt.alloc());
    let race = Race {
        settings: settings(30_000, 10),
        aaaa: &[V6_A],
        outcomes: &[(V6_A, Outcome::Fail(60)), (V4_A, Outcome::Fail(5))],
        pauses: &[],
    };
    let lines = [
        line(0, 20, V6_A, Mark::Failed(80)),
        line(1, 80, V4_A, Mark::Failed(85)),
    ];
    assert!(rt; has_transcript(&heap, &race, &lines, Outcome3::Exhausted(85)) == Some(true));
}

#[test]
fn failure_after_the_attempt_delay(rt: HostRuntime) {
    let heap = Refusing::new(rt.alloc());
    let race = Race {
        settings: settings(30_000, 10),
        aaaa: &[V6_A],
        outcomes: &[(V6_A, Outcome::Fail(300)), (V4_A, Outcome::Fail(5))],
        pauses: &[],
    };
    let lines = [
        line(0, 20, V6_A, Mark::Failed(320)),
        line(1, 270, V4_A, Mark::Failed(275)),
    ];
    assert!(rt; has_transcript(&heap, &race, &lines, Outcome3::Exhausted(320)) == Some(true));
}

#[test]
fn pause_over_the_floor(rt: HostRuntime) {
    let heap = Refusing::new(rt.alloc());
    let race = Race {
        settings: settings(30_000, 100),
        aaaa: &[V6_A],
        outcomes: &[(V6_A, Outcome::Fail(5)), (V4_A, Outcome::Fail(5))],
        pauses: &[(100, 200)],
    };
    let lines = [
        line(0, 20, V6_A, Mark::Failed(25)),
        line(1, 200, V4_A, Mark::Failed(205)),
    ];
    assert!(rt; has_transcript(&heap, &race, &lines, Outcome3::Exhausted(205)) == Some(true));
}

#[test]
fn no_floor_while_another_attempt_runs(rt: HostRuntime) {
    let heap = Refusing::new(rt.alloc());
    let race = Race {
        settings: settings(1_000, 10),
        aaaa: &[V6_A, V6_B],
        outcomes: &[(V4_A, Outcome::Fail(5))],
        pauses: &[],
    };
    let lines = [
        line(0, 20, V6_A, Mark::Cancelled(1_000)),
        line(1, 270, V4_A, Mark::Failed(275)),
        line(2, 520, V6_B, Mark::Cancelled(1_000)),
    ];
    assert!(rt; has_transcript(&heap, &race, &lines, Outcome3::Limit(1_000)) == Some(true));
}

// A success is no failure: the next attempt is due after the Connection Attempt Delay, and the race is won before
// that.
#[test]
fn no_floor_after_a_success(rt: HostRuntime) {
    let heap = Refusing::new(rt.alloc());
    let race = Race {
        settings: settings(30_000, 10),
        aaaa: &[V6_A, V6_B],
        outcomes: &[(V6_A, Outcome::Ok(100)), (V4_A, Outcome::Fail(5))],
        pauses: &[],
    };
    let lines = [line(0, 20, V6_A, Mark::Won(120))];
    assert!(rt; has_transcript(&heap, &race, &lines, Outcome3::Won(0, 120)) == Some(true));
}
