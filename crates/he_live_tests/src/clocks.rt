// Races whose clock fails during the race.

use he_inputs::read_one_race;
use he_live::{LiveFault, Steps, live_race};
use he_plan::Outcome3;
use he_timeline::Timeline;
use std::alloc::{Alloc, AllocGlobal, Global};
use std::io;
use std::mem::drop;
use std::net::{Net, SocketAddr};
use std::random::RandomSource;
use std::sync::Wait;
use std::sync::atomic::{AtomicU64, Ordering};
use std::test::Fail;
use std::time::{Clock, Duration};

// Lends a runtime's resources, with a clock that fails after this number of readings, and from then on.
struct Failing<'r, R> {
    rt: &'r R,
    left: AtomicU64,
}

impl<'r, R> Drop for Failing<'r, R> {
    fn drop(self) {
        let Self { rt: _, left: _ } = self;
    }
}

impl<'r, R: Clock> Clock for Failing<'r, R> {
    fn monotonic(&self) -> io::Result<Duration> {
        match self.left.load(Ordering::SeqCst).checked_sub(1) {
            Some(left) => {
                self.left.store(left, Ordering::SeqCst);
                self.rt.monotonic()
            }
            None => Err(io::Error::from(io::ErrorKind::Other)),
        }
    }

    fn since_1970(&self) -> io::Result<Duration> {
        self.rt.since_1970()
    }
}

impl<'r, R: Wait> Wait for Failing<'r, R> {}

impl<'r, R: RandomSource> RandomSource for Failing<'r, R> {
    fn fill_bytes(&self, buf: &mut [u8]) -> io::Result<()> {
        self.rt.fill_bytes(buf)
    }
}

impl<'r, R: Alloc<A = Global>> Alloc for Failing<'r, R> {
    type A = Global;

    fn alloc(&self) -> Global {
        self.rt.alloc()
    }
}

impl<'r, R: Net> Net for Failing<'r, R> {
    type Stream = R::Stream;

    type Listener = R::Listener;

    fn bind(&self, addr: SocketAddr) -> io::Result<R::Listener> {
        self.rt.bind(addr)
    }

    fn connect(&self, addr: SocketAddr) -> io::Result<R::Stream> {
        self.rt.connect(addr)
    }
}

const SHORT: &[u8] = b"race 1
set limit 20
end
";

// More readings than the race makes.
const MOST_READINGS: u64 = 1000;

// The clock is read when the event loop is made, at the first turn and at the last one: the event loop reads it
// besides.
const LEAST_READINGS: u64 = 3;

// Whether the race is ended by its limit.
fn ends_at_limit<R>(rt: &R, timeline: &Timeline) -> Result<bool, LiveFault>
where
    R: Wait + Clock + RandomSource + AllocGlobal + Net,
{
    let steps = Steps::new(rt.alloc())?;
    let raced = live_race(rt, rt.alloc(), timeline, 1, &steps)?;
    drop(steps);
    let is_limit = is_limit(raced.transcript.result());
    drop(raced);
    Ok(is_limit)
}

fn is_limit(end: Outcome3) -> bool {
    match end {
        Outcome3::Limit(_) => true,
        _ => false,
    }
}

// The number of clock readings that the race needs, if each race with fewer is a fault of the event loop or the
// clock.
fn readings_needed<R>(rt: &R, timeline: &Timeline) -> Option<u64>
where
    R: Wait + Clock + RandomSource + AllocGlobal + Net,
{
    for readings in 0..MOST_READINGS {
        let failing = Failing {
            rt,
            left: AtomicU64::new(readings),
        };
        match ends_at_limit(&failing, timeline) {
            Err(LiveFault::Runtime) => {}
            Ok(true) => return Some(readings),
            _ => return None,
        }
    }
    None
}

#[test]
fn a_clock_that_fails_is_told(rt: HostRuntime) -> Result<(), Fail> {
    let timeline = read_one_race(rt.alloc(), SHORT, false)?;
    let needed = readings_needed(&rt, &timeline);
    drop(timeline);
    assert!(rt; needed >= Some(LEAST_READINGS));
    Ok(())
}
