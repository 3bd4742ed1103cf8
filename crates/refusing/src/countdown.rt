// A count of calls, one of which is due.
use std::sync::atomic::{AtomicU64, Ordering};

// The most calls before the due one. The word holds their number; after the due call it wraps around below 0, to more
// than this.
const MOST_LEFT: u64 = u64::MAX / 2;

pub(crate) struct Countdown {
    left: AtomicU64,
}

impl Countdown {
    // No call is due until the word wraps around.
    pub(crate) fn new() -> Countdown {
        Countdown {
            left: AtomicU64::new(MOST_LEFT),
        }
    }

    // The `nth` call from now on is due, the next one being the first. At 0 none is.
    pub(crate) fn start(&self, nth: u64) {
        let left = nth.checked_sub(1).unwrap_or(MOST_LEFT).min(MOST_LEFT);
        self.left.store(left, Ordering::SeqCst);
    }

    // Counts a call; true if it is the due one.
    pub(crate) fn is_due(&self) -> bool {
        self.left.fetch_sub(1, Ordering::SeqCst) == 0
    }

    pub(crate) fn is_past(&self) -> bool {
        self.left.load(Ordering::SeqCst) > MOST_LEFT
    }
}

impl Drop for Countdown {
    fn drop(self) {
        let Self { left: _ } = self;
    }
}
