// A race whose answers bring lines of the machine: its host gets them, and they decide the order.

use crate::homes::{Known, V4_A, V6_A, V6_B, bare_race, known_race, route_on, source_on};
use crate::races::{Stepping, drive};
use futures::task::{Context, Doorbell, Poll, Solo};
use he_addr::{Family, Ip, Memory, Prefix};
use he_plan::Outcome3;
use he_race::{
    Answer, AnswerSource, RaceFault, Raced, ResolvingRace, Route, Scripted, Source, WheelTicker,
    nothing_known, race_one,
};
use he_timeline::Timeline;
use std::alloc::Global;
use std::mem::drop;
use std::test::Fail;

// 2001:db8::2
const SOURCE_6: Ip = Ip::V6(0x2001_0db8_0000_0000_0000_0000_0000_0002);

// 2001:db8:1::99
const OTHER_6: Ip = Ip::V6(0x2001_0db8_0001_0000_0000_0000_0000_0099);

// 192.0.2.2 and 192.0.2.3
const SOURCE_4: Ip = Ip::V4(0xc000_0202);

const OTHER_4: Ip = Ip::V4(0xc000_0203);

// A route to the address alone, on this interface.
fn route_to(interface: u16, ip: Ip) -> Route {
    route_on(interface, Prefix::new(ip.mapped(), 128))
}

// The IPv6 answer has no route to its first address.
fn six(alloc: Global) -> Result<Answer, Memory> {
    let known = nothing_known(alloc, &[V6_A, V6_B])?;
    let sources = Vec::from_slice(alloc, &[source_on(1, SOURCE_6, 64)])?;
    let routes = Vec::from_slice(alloc, &[route_to(1, V6_B)])?;
    Ok(Answer {
        known,
        sources,
        routes,
    })
}

// The IPv4 answer has lines that a race drops: those of IPv6, one without an interface, and repeated ones.
fn four(alloc: Global) -> Result<Answer, Memory> {
    let known = nothing_known(alloc, &[V4_A])?;
    let sources = [
        source_on(1, OTHER_6, 64),
        source_on(0, OTHER_4, 24),
        source_on(3, SOURCE_4, 24),
        source_on(4, SOURCE_4, 16),
    ];
    let sources = Vec::from_slice(alloc, &sources)?;
    let routes = [route_to(1, V6_A), route_to(3, V4_A), route_to(4, V4_A)];
    let routes = Vec::from_slice(alloc, &routes)?;
    Ok(Answer {
        known,
        sources,
        routes,
    })
}

// Gives the IPv6 answer at its first poll, and the IPv4 answer after tick 0.
#[derive(Clone, Copy, Drop)]
struct Lined {
    alloc: Global,
}

impl AnswerSource for Lined {
    ghost use Rattle.std.specs.Prelude.{⊤};

    ghost hears = { λ _ _ _ _ _. ⊤ };

    fn poll_answer(&mut self, family: Family, now: u64, cx: &mut Context<'_>) -> Poll<Answer> {
        let told = match family {
            Family::V6 => six(self.alloc),
            Family::V4 => {
                if now == 0 {
                    return cx.yield_now();
                }
                four(self.alloc)
            }
        };
        match told {
            Ok(answer) => Poll::Ready(answer),
            Err(_) => cx.yield_now(),
        }
    }
}

// The sources of the record's host at the end.
const SOURCES: [Source; 2] = [
    Source {
        ip: SOURCE_6,
        plen: 64,
        interface: 1,
        deprecated: false,
        temporary: false,
    },
    Source {
        ip: SOURCE_4,
        plen: 24,
        interface: 3,
        deprecated: false,
        temporary: false,
    },
];

// The address of the only route is tried first, then the one whose line came with the second answer.
fn has_tried(raced: &Raced<()>) -> bool {
    let lines = raced.transcript.attempts();
    raced.transcript.result() == Outcome3::Won(1, 260)
        && lines.len() == 2
        && lines[0].ip == V6_B
        && lines[0].tick == 0
        && lines[1].ip == V4_A
        && lines[1].tick == 250
}

// Each address has the source that came with its answer, and one without a line has none.
fn has_lines(recorded: &Timeline) -> bool {
    let host = recorded.host();
    let policy = recorded.policy();
    host.sources() == SOURCES.as_slice()
        && host.routes() == [route_to(1, V6_B), route_to(3, V4_A)].as_slice()
        && host.source(policy, V6_B) == Some(SOURCE_6)
        && host.source(policy, V4_A) == Some(SOURCE_4)
        && host.source(policy, V6_A).is_none()
}

fn is_replayed(alloc: Global, raced: &Raced<()>) -> Result<bool, Fail> {
    let replayed = race_one(alloc, &raced.recorded)?;
    let is_same = replayed.attempts() == raced.transcript.attempts()
        && replayed.result() == raced.transcript.result();
    drop(replayed);
    Ok(is_same)
}

fn run(alloc: Global, solo: &Solo, script: &Timeline) -> Result<[bool; 3], Fail> {
    let start = bare_race(alloc)?;
    let wheel = WheelTicker::new(alloc, script)?;
    let ticker = Stepping { wheel };
    let future = ResolvingRace::new(
        alloc,
        &start,
        Scripted::new(script),
        Lined { alloc },
        ticker,
    )?;
    let given = drive(solo, future, 40);
    drop(start);
    let seen = seen_of(alloc, &given);
    drop(given);
    seen
}

fn seen_of(alloc: Global, given: &Option<Result<Raced<()>, RaceFault>>) -> Result<[bool; 3], Fail> {
    match given {
        Some(Ok(raced)) => Ok([
            has_tried(raced),
            has_lines(&raced.recorded),
            is_replayed(alloc, raced)?,
        ]),
        _ => Ok([false; 3]),
    }
}

// By its answer's line the second IPv6 address is reached, and the first one is not: this stays so when the IPv4
// answer comes, although it has a line for it.
#[test]
fn lines_come_with_their_answer(rt: HostRuntime) -> Result<(), Fail> {
    let solo = Solo::new(&rt, Doorbell::spinning())?;
    let alloc: Global = rt.alloc();
    let planned = Known {
        rtts: &[],
        used: &[],
        succeeds: V4_A,
    };
    let script = known_race(alloc, &planned)?;
    let seen = run(alloc, &solo, &script);
    drop(script);
    assert_eq!(rt; seen?, [true, true, true]);
    Ok(())
}
