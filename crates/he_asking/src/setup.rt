//! The environment of a look-up.

use crate::log::{LookupEventKind, LookupLog};
use he_addr::Family;
use he_settings::QueryPlan;
use std::alloc::Global;
use std::io;
use std::time::{Clock, Duration};
use tokio::reactor::Handle;
use tokio::time::Sleep;

/// The runtime, the allocator, the event loop, the plan, and the log.
#[derive(Drop)]
pub struct Setup<'h, R> {
    pub rt: &'h R,
    pub alloc: Global,
    pub reactor: &'h Handle,
    pub timers: &'h tokio::time::Handle,
    pub plan: QueryPlan,
    pub log: LookupLog,
}

impl<R: Clock> Setup<'_, R> {
    /// Records an event of the family, now.
    pub fn note(&self, family: Family, kind: LookupEventKind) {
        self.log.note(self.rt, family, kind);
    }

    /// A timer of this number of milliseconds.
    ///
    /// # Errors
    ///
    /// An error of the event loop or of the clock.
    pub fn sleep(&self, millis: u64) -> io::Result<Sleep> {
        self.timers.sleep(self.rt, Duration::from_millis(millis))
    }
}
