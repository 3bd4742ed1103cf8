// Races whose answers bring round trip times and earlier uses: they decide the order, and the record has them.

use crate::homes::{
    Known as KnownRace, V4_A, V6_A, V6_B, first_race, half_known_race, known_race, unanswered,
};
use crate::races::{Stepping, drive};
use futures::task::{Context, Doorbell, Poll, Solo};
use he_addr::{Family, Ip, Memory};
use he_race::{
    Answer, AnswerSource, Known, RaceFault, Raced, ResolvingRace, Scripted, WheelTicker, race_one,
};
use he_timeline::Timeline;
use std::alloc::Global;
use std::mem::drop;
use std::test::Fail;

// An address, its known round trip time in milliseconds, and whether it was used before.
type Told = (Ip, Option<u64>, bool);

fn known_of(alloc: Global, told: &[Told]) -> Result<Vec<Known>, Memory> {
    let mut known = Vec::new(alloc);
    for (ip, rtt, used) in told {
        known.push(Known {
            ip: *ip,
            rtt: *rtt,
            used: *used,
        })?;
    }
    Ok(known)
}

// Gives this answer of each family at its first poll.
#[derive(Clone, Copy, Drop)]
struct Remembering {
    alloc: Global,
    six: &'static [Told],
    four: &'static [Told],
}

impl AnswerSource for Remembering {
    ghost use Rattle.std.specs.Prelude.{⊤};

    ghost hears = { λ _ _ _ _ _. ⊤ };

    fn poll_answer(&mut self, family: Family, _now: u64, cx: &mut Context<'_>) -> Poll<Answer> {
        let told = match family {
            Family::V6 => self.six,
            Family::V4 => self.four,
        };
        match known_of(self.alloc, told) {
            Ok(known) => Poll::Ready(Answer::without_lines(known)),
            Err(_) => cx.yield_now(),
        }
    }
}

// The answers, and their effects: the addresses that are tried, and the record's round trip times and earlier uses.
#[derive(Clone, Copy)]
struct Learnt {
    six: &'static [Told],
    four: &'static [Told],
    tried: &'static [Ip],
    rtts: &'static [(Ip, u64)],
    used: &'static [Ip],
}

fn is_as(alloc: Global, raced: &Raced<()>, wanted: &Learnt) -> Result<bool, Fail> {
    let mut are_tried = raced.transcript.attempts().len() == wanted.tried.len();
    for (line, ip) in raced.transcript.attempts().iter().zip(wanted.tried) {
        are_tried = are_tried && line.ip == *ip;
    }
    let replayed = race_one(alloc, &raced.recorded)?;
    let replays = replayed.attempts() == raced.transcript.attempts()
        && replayed.result() == raced.transcript.result();
    drop(replayed);
    Ok(
        are_tried
            && replays
            && raced.recorded.rtts() == wanted.rtts
            && raced.recorded.used_addresses() == wanted.used,
    )
}

fn is_given(
    alloc: Global,
    given: &Option<Result<Raced<()>, RaceFault>>,
    wanted: &Learnt,
) -> Result<bool, Fail> {
    match given {
        Some(Ok(raced)) => is_as(alloc, raced, wanted),
        _ => Ok(false),
    }
}

// Runs the race from this start; the address that succeeds does so after 10.
fn run(
    alloc: Global,
    solo: &Solo,
    script: &Timeline,
    start: &Timeline,
    wanted: &Learnt,
) -> Result<bool, Fail> {
    let source = Remembering {
        alloc,
        six: wanted.six,
        four: wanted.four,
    };
    let wheel = WheelTicker::new(alloc, script)?;
    let ticker = Stepping { wheel };
    let future = ResolvingRace::new(alloc, start, Scripted::new(script), source, ticker)?;
    let given = drive(solo, future, 40);
    let is_right = is_given(alloc, &given, wanted);
    drop(given);
    is_right
}

fn run_from(
    alloc: Global,
    solo: &Solo,
    succeeds: Ip,
    start: &Timeline,
    wanted: &Learnt,
) -> Result<bool, Fail> {
    let planned = KnownRace {
        rtts: &[],
        used: &[],
        succeeds,
    };
    let script = known_race(alloc, &planned)?;
    let is_right = run(alloc, solo, &script, start, wanted);
    drop(script);
    is_right
}

// Runs it with nothing known at the start.
fn run_new(alloc: Global, solo: &Solo, succeeds: Ip, wanted: &Learnt) -> Result<bool, Fail> {
    let start = unanswered(alloc, &first_race(None))?;
    let is_right = run_from(alloc, solo, succeeds, &start, wanted);
    drop(start);
    is_right
}

// Runs it with the IPv4 address known at the start.
fn run_half(alloc: Global, solo: &Solo, succeeds: Ip, wanted: &Learnt) -> Result<bool, Fail> {
    let start = half_known_race(alloc)?;
    let is_right = run_from(alloc, solo, succeeds, &start, wanted);
    drop(start);
    is_right
}

// Nothing is known: the first address of an answer comes first.
const NOTHING: Learnt = Learnt {
    six: &[(V6_A, None, false), (V6_B, None, false)],
    four: &[(V4_A, None, false)],
    tried: &[V6_A, V4_A, V6_B],
    rtts: &[],
    used: &[],
};

const BY_RTT: Learnt = Learnt {
    six: &[(V6_A, None, true), (V6_B, Some(30), false)],
    tried: &[V6_B],
    rtts: &[(V6_B, 30)],
    used: &[V6_A],
    ..NOTHING
};

const BY_USE: Learnt = Learnt {
    six: &[(V6_A, None, false), (V6_B, None, true)],
    tried: &[V6_B],
    used: &[V6_B],
    ..NOTHING
};

const MIXED: Learnt = Learnt {
    six: &[
        (V4_A, Some(5), true),
        (V6_A, Some(0), false),
        (V6_A, Some(9), true),
        (V6_B, Some(u64::MAX), true),
    ],
    four: &[(V4_A, Some(3_600_000), false), (V6_B, Some(2), false)],
    tried: &[V6_A],
    rtts: &[(V6_A, 1), (V6_B, 3_600_000), (V4_A, 3_600_000)],
    used: &[V6_B],
};

const LATER: Learnt = Learnt {
    six: &[(V6_A, None, false), (V6_B, Some(7), true)],
    four: &[(V4_A, Some(1), true)],
    tried: &[V6_B],
    rtts: &[(V4_A, 40), (V6_B, 7)],
    used: &[V4_A, V6_B],
};

// The address with a known round trip time comes first, and so does the one that was used before; if nothing is
// known, the first one of the answer.
#[test]
fn chooses_by_what_is_told(rt: HostRuntime) -> Result<(), Fail> {
    let solo = Solo::new(&rt, Doorbell::spinning())?;
    let alloc: Global = rt.alloc();
    assert_eq!(rt; run_new(alloc, &solo, V6_B, &NOTHING)?, true);
    assert_eq!(rt; run_new(alloc, &solo, V6_B, &BY_RTT)?, true);
    assert_eq!(rt; run_new(alloc, &solo, V6_B, &BY_USE)?, true);
    Ok(())
}

// Of a repeated address the first entry counts; an address of the other family is left out with its round trip time
// and use; and round trip times are recorded within 1 ms and an hour.
#[test]
fn what_is_told_is_cleaned(rt: HostRuntime) -> Result<(), Fail> {
    let solo = Solo::new(&rt, Doorbell::spinning())?;
    let alloc: Global = rt.alloc();
    assert_eq!(rt; run_new(alloc, &solo, V6_A, &MIXED)?, true);
    Ok(())
}

// Knowledge from the start comes first; a family whose answer is known gets no second one.
#[test]
fn what_was_known_stands_first(rt: HostRuntime) -> Result<(), Fail> {
    let solo = Solo::new(&rt, Doorbell::spinning())?;
    let alloc: Global = rt.alloc();
    assert_eq!(rt; run_half(alloc, &solo, V6_B, &LATER)?, true);
    Ok(())
}
