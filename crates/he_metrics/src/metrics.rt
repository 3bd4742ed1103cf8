//! The counts that the sessions of a proxy share.

use crate::counts::Counts;
use crate::events::Event;
use he_addr::Memory;
use std::cell::Cell;

/// The counts that the sessions of a proxy share.
#[derive(Drop)]
pub struct Metrics {
    counts: Cell<Counts>,
}

/// Numbers of the moment at which the metrics are written.
#[derive(Clone, Copy)]
pub struct Now {
    /// Sessions whose client has sent nothing yet.
    pub waiting: u64,
    /// Lines of the log that were lost.
    pub lines_lost: u64,
}

impl Metrics {
    /// No events.
    pub fn new() -> Metrics {
        Metrics {
            counts: Cell::new(Counts::NONE),
        }
    }

    /// Counts the event. Allocates nothing.
    pub fn count(&self, event: Event) {
        let mut counts = self.counts.get();
        counts.add(event);
        self.counts.set(counts);
    }

    /// Appends the counts as OpenMetrics text, with times in seconds.
    ///
    /// # Errors
    ///
    /// `Memory` if an allocation fails; part of the text may have been appended.
    pub fn write(&self, now: Now, out: &mut Vec<u8>) -> Result<(), Memory> {
        self.counts.get().write(now, out)
    }
}
