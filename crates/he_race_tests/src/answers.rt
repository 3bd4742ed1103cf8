// Races whose answers come while they run, over a source that gives them from a tick on and a ticker with fixed
// ticks.

use crate::homes::{PlannedRace, V4_A, V6_A, V6_B, race, unanswered};
use crate::races::drive;
use futures::task::{Context, Doorbell, Poll, Solo};
use he_addr::{Family, Ip, Memory};
use he_plan::{Mark, Outcome3};
use he_race::{
    Answer, AnswerSource, Known, RaceFault, Raced, ResolvingRace, Scripted, TickFault, Ticker,
    nothing_known,
};
use he_timeline::{Outcome, Timeline};
use std::alloc::Global;
use std::mem::drop;
use std::test::Fail;

// The answer that a source gives for a family.
#[derive(Clone, Copy)]
enum SourceAnswer {
    Nothing,
    One(Ip),
    // addresses of both families, some of them twice
    Mixed,
    // 300 IPv6 addresses
    Many,
}

fn addresses(alloc: Global, told: SourceAnswer) -> Result<Vec<Known>, Memory> {
    match told {
        SourceAnswer::Nothing => Ok(Vec::new(alloc)),
        SourceAnswer::One(ip) => nothing_known(alloc, &[ip]),
        SourceAnswer::Mixed => nothing_known(alloc, &[V4_A, V6_A, V6_A, V4_A, V6_B]),
        SourceAnswer::Many => many(alloc),
    }
}

fn many(alloc: Global) -> Result<Vec<Known>, Memory> {
    let mut known = Vec::new(alloc);
    for i in 0..300u16 {
        let ip = Ip::V6(0x2001_0db8_0001_0000_0000_0000_0000_0000 + u128::from(i));
        known.push(Known::nothing(ip))?;
    }
    Ok(known)
}

// Gives the answer of each family from a tick on, at each poll, or never.
#[derive(Clone, Copy, Drop)]
struct Telling {
    alloc: Global,
    six: Option<(u64, SourceAnswer)>,
    four: Option<(u64, SourceAnswer)>,
}

impl AnswerSource for Telling {
    ghost use Rattle.std.specs.Prelude.{⊤};

    ghost hears = { λ _ _ _ _ _. ⊤ };

    fn poll_answer(&mut self, family: Family, now: u64, cx: &mut Context<'_>) -> Poll<Answer> {
        let told = match family {
            Family::V6 => self.six,
            Family::V4 => self.four,
        };
        if let Some((from, told)) = told {
            if from <= now {
                if let Ok(known) = addresses(self.alloc, told) {
                    return Poll::Ready(Answer::without_lines(known));
                }
            }
        }
        cx.yield_now()
    }
}

// Gives these ticks, one at each call, and then the last one again.
#[derive(Drop)]
struct Visiting {
    ticks: [u64; 6],
    told: usize,
}

impl Ticker for Visiting {
    ghost use Rattle.std.specs.Prelude.{⊤};

    ghost tells = { λ _ _ _. ⊤ };

    ghost wakes = { λ _ _ _ _. ⊤ };

    fn now(&mut self) -> u64 {
        self.ticks[self.told.min(5)]
    }

    fn wake_at(&mut self, _tick: u64, cx: &mut Context<'_>) -> Result<(), TickFault> {
        self.told = self.told.saturating_add(1);
        let _ = cx.yield_now::<()>();
        Ok(())
    }
}

// A race in short: its result, its last attempt, and the ticks and lengths of the answers and the pauses in its
// record.
#[derive(Clone, Copy, Debug, PartialEq, Eq)]
struct Short {
    result: Outcome3,
    attempts: usize,
    last: Option<(u64, Mark)>,
    six: Option<(u64, usize)>,
    four: Option<(u64, usize)>,
    pauses: usize,
}

fn answer_of(timeline: &Timeline, family: Family) -> Option<(u64, usize)> {
    timeline.answer(family).map(|told| (told.0, told.1.len()))
}

fn summary(raced: &Raced<()>) -> Short {
    let lines = raced.transcript.attempts();
    Short {
        result: raced.transcript.result(),
        attempts: lines.len(),
        last: lines.last().map(|line| (line.tick, line.mark)),
        six: answer_of(&raced.recorded, Family::V6),
        four: answer_of(&raced.recorded, Family::V4),
        pauses: raced.recorded.pauses().len(),
    }
}

fn short_in(given: &Option<Result<Raced<()>, RaceFault>>) -> Option<Short> {
    match given {
        Some(Ok(raced)) => Some(summary(raced)),
        _ => None,
    }
}

// The answers of a source, and the ticks at which the race is polled.
#[derive(Clone, Copy)]
struct Case {
    six: Option<(u64, SourceAnswer)>,
    four: Option<(u64, SourceAnswer)>,
    ticks: [u64; 6],
}

// The outcomes of the race: the IPv6 address fails after 2, the IPv4 address succeeds after 10.
fn script() -> PlannedRace {
    PlannedRace {
        limit: 1_000,
        floor: None,
        has_second: false,
        answers: (0, 0),
        v6: Some(Outcome::Fail(2)),
        v4: Some(Outcome::Ok(10)),
        pause: None,
    }
}

fn run(alloc: Global, solo: &Solo, case: Case) -> Result<Option<Short>, Fail> {
    let given = script();
    let timeline = race(alloc, &given)?;
    let short = run_by(alloc, solo, &timeline, &given, case);
    drop(timeline);
    short
}

fn run_by(
    alloc: Global,
    solo: &Solo,
    timeline: &Timeline,
    given: &PlannedRace,
    case: Case,
) -> Result<Option<Short>, Fail> {
    let unanswered = unanswered(alloc, given)?;
    let short = run_from(alloc, solo, timeline, &unanswered, case);
    drop(unanswered);
    short
}

fn run_from(
    alloc: Global,
    solo: &Solo,
    timeline: &Timeline,
    unanswered: &Timeline,
    case: Case,
) -> Result<Option<Short>, Fail> {
    let source = Telling {
        alloc,
        six: case.six,
        four: case.four,
    };
    let ticks = case.ticks;
    let ticker = Visiting { ticks, told: 0 };
    let connector = Scripted::new(timeline);
    let future = ResolvingRace::new(alloc, unanswered, connector, source, ticker)?;
    let given = drive(solo, future, 40);
    let short = short_in(&given);
    drop(given);
    Ok(short)
}

// The A answer comes first and waits for the AAAA answer, which comes within the Resolution Delay: IPv6 is tried
// first.
#[test]
fn late_answer_takes_part(rt: HostRuntime) -> Result<(), Fail> {
    let solo = Solo::new(&rt, Doorbell::spinning())?;
    let alloc: Global = rt.alloc();
    let within = Case {
        six: Some((33, SourceAnswer::One(V6_A))),
        four: Some((4, SourceAnswer::One(V4_A))),
        ticks: [0, 4, 33, 35, 283, 293],
    };
    let won = Short {
        result: Outcome3::Won(1, 293),
        attempts: 2,
        last: Some((283, Mark::Won(293))),
        six: Some((33, 1)),
        four: Some((4, 1)),
        pauses: 0,
    };
    assert_eq!(rt; run(alloc, &solo, within)?, Some(won));
    // It comes at the tick of a success of the other family, and is recorded.
    let at_success = Case {
        six: Some((64, SourceAnswer::One(V6_A))),
        four: Some((4, SourceAnswer::One(V4_A))),
        ticks: [0, 4, 54, 64, 64, 64],
    };
    let first = Short {
        result: Outcome3::Won(0, 64),
        attempts: 1,
        last: Some((54, Mark::Won(64))),
        six: Some((64, 1)),
        ..won
    };
    assert_eq!(rt; run(alloc, &solo, at_success)?, Some(first));
    // It never comes: the race begins at the end of the Resolution Delay.
    let never = Case {
        six: None,
        ..at_success
    };
    assert_eq!(rt;
        run(alloc, &solo, never)?,
        Some(Short { six: None, ..first })
    );
    Ok(())
}

// The A answer comes after the first attempt, at one of two IPv6 addresses, which fails: the second attempt is at its
// address, since the families take turns, 250 after the first.
#[test]
fn late_answer_takes_its_turn(rt: HostRuntime) -> Result<(), Fail> {
    let solo = Solo::new(&rt, Doorbell::spinning())?;
    let alloc: Global = rt.alloc();
    let behind = Case {
        six: Some((4, SourceAnswer::Mixed)),
        four: Some((30, SourceAnswer::One(V4_A))),
        ticks: [0, 4, 6, 30, 254, 264],
    };
    let second = Short {
        result: Outcome3::Won(1, 264),
        attempts: 2,
        last: Some((254, Mark::Won(264))),
        six: Some((4, 2)),
        four: Some((30, 1)),
        pauses: 0,
    };
    assert_eq!(rt; run(alloc, &solo, behind)?, Some(second));
    Ok(())
}

// A client that slept over both answers gets them at the tick at which it woke; it slept over nothing that was due.
#[test]
fn answers_count_from_their_turn(rt: HostRuntime) -> Result<(), Fail> {
    let solo = Solo::new(&rt, Doorbell::spinning())?;
    let alloc: Global = rt.alloc();
    let slept = Case {
        six: Some((33, SourceAnswer::One(V6_A))),
        four: Some((4, SourceAnswer::One(V4_A))),
        ticks: [0, 100, 102, 350, 360, 360],
    };
    let won = Short {
        result: Outcome3::Won(1, 360),
        attempts: 2,
        last: Some((350, Mark::Won(360))),
        six: Some((100, 1)),
        four: Some((100, 1)),
        pauses: 0,
    };
    assert_eq!(rt; run(alloc, &solo, slept)?, Some(won));
    Ok(())
}

// An answer at the limit is recorded, one past it isn't; without answers the race runs to its limit.
#[test]
fn answers_at_the_limit(rt: HostRuntime) -> Result<(), Fail> {
    let solo = Solo::new(&rt, Doorbell::spinning())?;
    let alloc: Global = rt.alloc();
    let at = Case {
        six: Some((1_000, SourceAnswer::One(V6_A))),
        four: Some((1_001, SourceAnswer::One(V4_A))),
        ticks: [0, 1_000, 1_000, 1_000, 1_000, 1_000],
    };
    let limit = Short {
        result: Outcome3::Limit(1_000),
        attempts: 0,
        last: None,
        six: Some((1_000, 1)),
        four: None,
        pauses: 0,
    };
    assert_eq!(rt; run(alloc, &solo, at)?, Some(limit));
    let past = Case {
        ticks: [0, 1_002, 1_002, 1_002, 1_002, 1_002],
        ..at
    };
    let unheard = Short {
        six: None,
        pauses: 1,
        ..limit
    };
    assert_eq!(rt; run(alloc, &solo, past)?, Some(unheard));
    Ok(())
}

// Answers are cleaned: an empty answer counts as come, addresses of the other family and repeated ones are left out,
// and of 300 addresses 256 are taken.
#[test]
fn told_addresses_are_cleaned(rt: HostRuntime) -> Result<(), Fail> {
    let solo = Solo::new(&rt, Doorbell::spinning())?;
    let alloc: Global = rt.alloc();
    let nothing = Case {
        six: Some((5, SourceAnswer::Nothing)),
        four: Some((7, SourceAnswer::One(V6_A))),
        ticks: [0, 5, 7, 7, 7, 7],
    };
    let exhausted = Short {
        result: Outcome3::Exhausted(7),
        attempts: 0,
        last: None,
        six: Some((5, 0)),
        four: Some((7, 0)),
        pauses: 0,
    };
    assert_eq!(rt; run(alloc, &solo, nothing)?, Some(exhausted));
    let mixed = Case {
        six: Some((0, SourceAnswer::Mixed)),
        four: Some((0, SourceAnswer::Mixed)),
        ticks: [0, 2, 250, 260, 260, 260],
    };
    let won = Short {
        result: Outcome3::Won(1, 260),
        attempts: 2,
        last: Some((250, Mark::Won(260))),
        six: Some((0, 2)),
        four: Some((0, 1)),
        pauses: 0,
    };
    assert_eq!(rt; run(alloc, &solo, mixed)?, Some(won));
    let many = Case {
        six: Some((0, SourceAnswer::Many)),
        ..mixed
    };
    assert_eq!(rt;
        run(alloc, &solo, many)?,
        Some(Short {
            six: Some((0, 256)),
            ..won
        })
    );
    Ok(())
}
