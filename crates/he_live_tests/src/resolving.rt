// Races whose answers come while they run: their results, the steps that are reported meanwhile, and the winner's
// stream.

use crate::homes::{
    End, Lender, Result3, Wanted, descriptors, free_port, is_right, is_told, listen,
};
use futures::task::{Context, Poll};
use he_addr::{Family, Ip};
use he_inputs::read_one_race;
use he_live::{
    Dialed, Endpoint, Quiet, Reason, ResolvingRequest, Step, StepKind, Steps, Watcher,
    resolving_race_on,
};
use he_turns::{Answer, AnswerSource, nothing_known};
use std::alloc::Global;
use std::cell::Cell;
use std::io;
use std::io::{Read, Write};
use std::mem::drop;
use std::net::{IpAddr, Ipv4Addr, Net, SocketAddr, TcpListener, TcpStream};
use std::test::Fail;
use std::time::{Clock, Duration, Instant};
use tokio::runtime::LocalRuntime;

// Nothing is known of the addresses.
const UNKNOWN: &[u8] = b"race 1
set attempt 20
set limit 300
source ::1/128 1
source 127.0.0.1/8 1
route ::1/128 1
route 127.0.0.0/8 1
end
";

const LOOPBACK_6: Ip = Ip::V6(1);

const LOOPBACK_4: Ip = Ip::V4(0x7f00_0001);

const NEVER: u64 = u64::MAX;

// The most milliseconds by which the report of a step may be late: a race here goes on for at least 200 after its
// last step.
const MOST_LATE: u128 = 150;

// A source that gives the loopback address of each family at a tick.
#[derive(Drop)]
struct AtTicks {
    alloc: Global,
    aaaa: u64,
    a: u64,
}

impl AnswerSource for AtTicks {
    ghost use Rattle.std.specs.Prelude.{⊤};

    ghost hears = { λ _ _ _ _ _. ⊤ };

    fn poll_answer(&mut self, family: Family, now: u64, cx: &mut Context<'_>) -> Poll<Answer> {
        let (tick, ip) = match family {
            Family::V6 => (self.aaaa, LOOPBACK_6),
            Family::V4 => (self.a, LOOPBACK_4),
        };
        if now < tick {
            return cx.yield_now();
        }
        match nothing_known(self.alloc, &[ip]) {
            Ok(known) => Poll::Ready(Answer::without_lines(known)),
            Err(_) => cx.yield_now(),
        }
    }
}

// Only the IPv4 answer comes: it waits for the other one for the Resolution Delay, 50 ms (RFC 8305 section 3).
const FOUR_ALONE: Wanted<'static> = Wanted {
    attempts: &[(50, End::Won)],
    result: Result3::Won(0),
    least: 50,
    reason: Reason::Refused,
};

// The IPv6 answer comes after the IPv4 one, and its address is tried first.
const SIX_FIRST: Wanted<'static> = Wanted {
    attempts: &[(20, End::Failed), (40, End::Won)],
    result: Result3::Won(1),
    least: 40,
    reason: Reason::Refused,
};

// An IPv6 answer that comes after the first start takes part.
const SIX_LATE: Wanted<'static> = Wanted {
    attempts: &[(50, End::Failed), (80, End::Failed)],
    result: Result3::Exhausted,
    least: 80,
    reason: Reason::Refused,
};

const SIX_AT_ONCE: Wanted<'static> = Wanted {
    attempts: &[(0, End::Failed), (20, End::Won)],
    result: Result3::Won(1),
    least: 20,
    reason: Reason::Refused,
};

// The IPv6 answer never comes, so the race goes on after all other attempts have failed.
const FOUR_REFUSED: Wanted<'static> = Wanted {
    attempts: &[(50, End::Failed)],
    result: Result3::Limit,
    least: 300,
    reason: Reason::Refused,
};

const NO_ANSWER: Wanted<'static> = Wanted {
    attempts: &[],
    result: Result3::Limit,
    least: 300,
    reason: Reason::Refused,
};

// Whether the race has the wanted result, and its winner's connection.
fn resolve<R: Lender + Net, W: Watcher>(
    rt: &R,
    runtime: &mut LocalRuntime,
    source: AtTicks,
    port: u16,
    wanted: &Wanted<'_>,
    watcher: &W,
) -> Result<(bool, Option<Dialed>), Fail> {
    let timeline = read_one_race(rt.alloc(), UNKNOWN, false)?;
    let steps = Steps::new(rt.alloc())?;
    let request = ResolvingRequest {
        timeline: &timeline,
        source,
        to: Endpoint::at_port(port),
    };
    let raced = resolving_race_on(rt, rt.alloc(), runtime, request, &steps, watcher);
    drop(timeline);
    let raced = raced?;
    let is_right = is_right(rt, &raced, wanted);
    let is_told = is_told(&raced.transcript, wanted.reason, &steps);
    drop(steps);
    Ok((is_right? && is_told, raced.winner))
}

// Whether the race has the wanted result, without a watcher.
fn resolves<R: Lender + Net>(
    rt: &R,
    (aaaa, a): (u64, u64),
    port: u16,
    wanted: &Wanted<'_>,
) -> Result<bool, Fail> {
    let mut runtime = LocalRuntime::new(rt)?;
    let source = AtTicks {
        alloc: rt.alloc(),
        aaaa,
        a,
    };
    let resolved = resolve(rt, &mut runtime, source, port, wanted, &Quiet);
    drop(runtime);
    let (is_right, winner) = resolved?;
    drop(winner);
    Ok(is_right)
}

#[test]
fn answers_take_part_when_they_come(rt: HostRuntime) -> Result<(), Fail> {
    let (listener, port) = listen(&rt, IpAddr::V4(Ipv4Addr::LOCALHOST), 0)?;
    assert!(rt; resolves(&rt, (NEVER, 0), port, &FOUR_ALONE)?);
    assert!(rt; resolves(&rt, (20, 0), port, &SIX_FIRST)?);
    assert!(rt; resolves(&rt, (NEVER, NEVER), port, &NO_ANSWER)?);
    drop(listener);
    let port = free_port(&rt)?;
    assert!(rt; resolves(&rt, (80, 0), port, &SIX_LATE)?);
    Ok(())
}

// Whether the steps reported to it are these, in order.
#[derive(Drop)]
struct Expecting<'a> {
    wanted: &'a [(usize, Ip, StepKind)],
    count: Cell<usize>,
    are_right: Cell<bool>,
}

impl<'a> Watcher for Expecting<'a> {
    fn tell(&self, step: Step) {
        let count = self.count.get();
        let is_right = self.wanted.get(count) == Some(&(step.place, step.ip, step.what));
        self.are_right.set(self.are_right.get() && is_right);
        self.count.set(count.saturating_add(1));
    }
}

const TOLD: [(usize, Ip, StepKind); 4] = [
    (0, LOOPBACK_6, StepKind::Began),
    (0, LOOPBACK_6, StepKind::Failed(Reason::Refused)),
    (1, LOOPBACK_4, StepKind::Began),
    (1, LOOPBACK_4, StepKind::Connected),
];

// Whether server and winner read each other's bytes, and the winner's read waits.
fn is_connection(
    rt: &HostRuntime,
    winner: &mut TcpStream,
    listener: &TcpListener,
) -> io::Result<bool> {
    let (mut peer, addr) = listener.accept()?;
    let mut there = [0u8; 4];
    let mut back = [0u8; 4];
    winner.write_all(b"ping")?;
    peer.read_exact(&mut there)?;
    winner.set_read_timeout(Some(Duration::from_millis(30)))?;
    let start = Instant::now(rt)?;
    let has_waited = winner.read(&mut back).is_err()
        && Instant::now(rt)?.saturating_duration_since(start) >= Duration::from_millis(20);
    peer.write_all(b"pong")?;
    winner.read_exact(&mut back)?;
    Ok(addr == winner.local_addr()? && has_waited && there == *b"ping" && back == *b"pong")
}

// The greatest delay of the report of a step, in milliseconds.
#[derive(Drop)]
struct Timing<'r, R: Clock> {
    clock: &'r R,
    start: Instant,
    late: Cell<u128>,
}

impl<'r, R: Clock> Watcher for Timing<'r, R> {
    fn tell(&self, step: Step) {
        let late = match Instant::now(self.clock) {
            Ok(now) => {
                let millis = now.saturating_duration_since(self.start).as_millis();
                millis.saturating_sub(u128::from(step.tick))
            }
            Err(_) => u128::MAX,
        };
        self.late.set(self.late.get().max(late));
    }
}

#[test]
fn steps_are_told_as_they_happen(rt: HostRuntime) -> Result<(), Fail> {
    let port = free_port(&rt)?;
    let mut runtime = LocalRuntime::new(&rt)?;
    let source = AtTicks {
        alloc: rt.alloc(),
        aaaa: NEVER,
        a: 0,
    };
    let watcher = Timing {
        clock: &rt,
        start: Instant::now(&rt)?,
        late: Cell::new(0),
    };
    let resolved = resolve(&rt, &mut runtime, source, port, &FOUR_REFUSED, &watcher);
    drop(runtime);
    let (is_right, winner) = resolved?;
    drop(winner);
    assert!(rt; is_right && watcher.late.get() < MOST_LATE);
    Ok(())
}

#[test]
fn the_winner_outlives_its_loop(rt: HostRuntime) -> Result<(), Fail> {
    let (listener, port) = listen(&rt, IpAddr::V4(Ipv4Addr::LOCALHOST), 0)?;
    let before = descriptors(&rt)?;
    let mut runtime = LocalRuntime::new(&rt)?;
    let source = AtTicks {
        alloc: rt.alloc(),
        aaaa: 0,
        a: 0,
    };
    let watcher = Expecting {
        wanted: &TOLD,
        count: Cell::new(0),
        are_right: Cell::new(true),
    };
    let resolved = resolve(&rt, &mut runtime, source, port, &SIX_AT_ONCE, &watcher);
    drop(runtime);
    let (is_right, winner) = resolved?;
    let Some(dialed) = winner else {
        return Err(Fail::new("nothing has won"));
    };
    let to = dialed.to();
    let mut winner = dialed.into_stream();
    assert!(rt;
        to == SocketAddr::new(IpAddr::V4(Ipv4Addr::LOCALHOST), port) && winner.peer_addr()? == to
    );
    assert_eq!(rt; descriptors(&rt)?, before.saturating_add(1));
    assert!(rt; is_right && is_connection(&rt, &mut winner, &listener)?);
    assert_eq!(rt;
        (watcher.count.get(), watcher.are_right.get()),
        (TOLD.len(), true)
    );
    drop(winner);
    assert_eq!(rt; descriptors(&rt)?, before);
    Ok(())
}
