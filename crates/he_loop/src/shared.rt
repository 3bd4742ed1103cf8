//! The event loop that all races share.
ghost use Rattle.futures.specs.Task.{Keeps};

use futures::task::Context;
use std::alloc::Global;
use std::time::{Clock, Duration};
use tokio::runtime::Handle;
use tokio::time::Sleep;

/// The event loop that all races share.
#[derive(Clone, Copy)]
pub struct SharedLoop<'h, R> {
    pub rt: &'h R,
    pub alloc: Global,
    pub handle: &'h Handle,
}

impl<R: Clock> SharedLoop<'_, R> {
    /// Makes places in the event loop for all sockets so far. For a socket without a place, the loop loses the events
    /// before the socket's first poll, which is at the next tick: if a server greets and closes by then, its end
    /// would be missed. Keep the returned timer: the task is woken once when it is dropped.
    pub fn make_places(&self, cx: &mut Context<'_>) -> Option<Sleep>
        ensures { Keeps cx.old cx.new }
    {
        // Places are made in the order of the sockets and timers, up to the one that is polled.
        let mut last = self
            .handle
            .time()
            .sleep(self.rt, Duration::from_secs(NEVER))
            .ok()?;
        let _ = last.poll_elapsed(cx);
        Some(last)
    }
}

// Seconds; longer than any race.
const NEVER: u64 = 86_400;
