// The trait that gives the time and wakes the task.

ghost use Rattle.std.specs.Prelude.{◌≡◌, ◌≤◌, ℕ, Result, OnOk};
ghost use Rattle.futures.specs.Task.{IsArmed, Keeps};
ghost use Rattle.he_turns.specs.declared.faults.TickFault.{TickFault};
ghost use Rattle.he_turns.specs.declared.limits.TheConstants.{MAX_POLL_TICK};

use crate::faults::TickFault;
use crate::limits::MAX_POLL_TICK;
use futures::task::Context;

/// Gives the tick, in milliseconds since the race's start, and wakes the race's task at a requested tick.
pub trait Ticker: Drop {
    // The results of `now`, and the state that it leaves.
    ghost tells: { Self → ℕ → Self → Type 0 };

    // The results of `wake_at` for a tick, and the state that it leaves.
    ghost wakes: { Self → ℕ → Result (Unit {0}) TickFault → Self → Type 0 };

    /// The current tick.
    fn now(&mut self) -> u64
        ensures { tells self.old result self.new };

    /// Requests that the task be polled again at the tick, at most `MAX_POLL_TICK`, or soon after. On Ok it has
    /// registered in `cx` or yielded.
    fn wake_at(&mut self, tick: u64, cx: &mut Context<'_>) -> Result<(), TickFault>
        requires in_time { tick ≤ MAX_POLL_TICK }
        ensures step { wakes self.old tick result self.new }
        ensures armed { OnOk result (IsArmed cx.new) }
        ensures kept { Keeps cx.old cx.new };
}
