//! The time at which a race's ticks begin.

use std::time::{Duration, Instant};
use tokio::time::Handle;

// How far back the timers' last millisecond is searched for, and the number of halvings of that distance: down to 8
// microseconds.
const FARTHEST_NANOS: u64 = 1 << 37;

const HALVINGS: u32 = 24;

const NANOS_PER_MILLI: u64 = 1_000_000;

// The last time, up to now, that is a whole millisecond of the timers, or up to 8 microseconds earlier: a deadline
// whole milliseconds after it isn't rounded up. It is now if an allocation fails.
//
// The timers count from when the event loop was made, which they don't reveal. They report which deadlines have
// passed: those up to the last millisecond that the event loop gave them.
pub(crate) fn last_millisecond(timers: &Handle, now: Instant) -> Instant {
    let Ok(mut probe) = timers.sleep_until(now) else {
        return now;
    };
    let (mut passed, mut to_come) = (FARTHEST_NANOS, 0);
    for _ in 0..HALVINGS {
        let middle = passed.saturating_add(to_come) / 2;
        probe.reset(before(now, middle));
        if probe.is_elapsed() {
            passed = middle;
        } else {
            to_come = middle;
        }
    }
    before(now, passed % NANOS_PER_MILLI)
}

fn before(now: Instant, nanos: u64) -> Instant {
    now.checked_sub(Duration::from_nanos(nanos)).unwrap_or(now)
}
