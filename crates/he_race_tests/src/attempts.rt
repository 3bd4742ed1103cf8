// Single attempts, and their fates by the rules of a race.

use crate::homes::{PlannedRace, race};
use he_plan::{Fate, Plan, plan};
use he_race::run_attempt;
use he_timeline::{Outcome, Timeline};
use std::alloc::Global;
use std::mem::drop;
use std::test::Fail;

/// A race, the place of an attempt, and its fate.
#[derive(Clone, Copy)]
struct Case {
    given: PlannedRace,
    place: usize,
    fate: Fate,
}

const fn plain(limit: u64, v6: Option<Outcome>, v4: Option<Outcome>) -> PlannedRace {
    PlannedRace {
        limit,
        floor: None,
        has_second: false,
        answers: (20, 20),
        v6,
        v4,
        pause: None,
    }
}

const fn row(given: PlannedRace, place: usize, fate: Fate) -> Case {
    Case { given, place, fate }
}

// The attempts start at 20 and 270; with the pause from 30 on at 400, with the later one at 60 and 310.
fn cases() -> [Case; 9] {
    let tie = plain(30_000, Some(Outcome::Ok(300)), Some(Outcome::Ok(50)));
    let fails = plain(30_000, Some(Outcome::Fail(5)), Some(Outcome::Fail(5)));
    let silent = plain(30_000, None, None);
    let paused = PlannedRace {
        limit: 30_000,
        floor: None,
        has_second: false,
        answers: (90, 10),
        v6: Some(Outcome::Ok(20)),
        v4: None,
        pause: Some((30, 400)),
    };
    let slept = PlannedRace {
        pause: Some((320, 500)),
        ..paused
    };
    [
        row(tie, 0, Fate::Succeeded(320)),
        row(tie, 1, Fate::Succeeded(320)),
        row(fails, 0, Fate::Failed(25)),
        row(fails, 1, Fate::Failed(275)),
        row(silent, 0, Fate::Running),
        row(paused, 0, Fate::Succeeded(420)),
        row(slept, 1, Fate::Succeeded(500)),
        row(
            plain(100, Some(Outcome::Ok(80)), None),
            0,
            Fate::Succeeded(100),
        ),
        row(plain(100, Some(Outcome::Ok(81)), None), 0, Fate::Running),
    ]
}

fn is_right(alloc: Global, case: &Case) -> Result<bool, Fail> {
    let timeline = race(alloc, &case.given)?;
    let is_right = is_right_of(alloc, case, &timeline);
    drop(timeline);
    is_right
}

fn is_right_of(alloc: Global, case: &Case, timeline: &Timeline) -> Result<bool, Fail> {
    let plan = plan(alloc, timeline)?;
    let is_right = is_fate(alloc, case, timeline, &plan);
    drop(plan);
    is_right
}

fn is_fate(alloc: Global, case: &Case, timeline: &Timeline, plan: &Plan) -> Result<bool, Fail> {
    if case.place >= plan.attempts().len() {
        return Ok(false);
    }
    Ok(run_attempt(alloc, timeline, plan, case.place)? == case.fate)
}

fn right_cases(alloc: Global) -> Result<usize, Fail> {
    let mut right: usize = 0;
    for case in &cases() {
        if !is_right(alloc, case)? {
            return Ok(right);
        }
        right = right.saturating_add(1);
    }
    Ok(right)
}

#[test]
fn attempts_come_to_their_fates(rt: HostRuntime) -> Result<(), Fail> {
    assert_eq!(rt; right_cases(rt.alloc())?, 9);
    Ok(())
}
