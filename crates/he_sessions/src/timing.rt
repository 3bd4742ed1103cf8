// The timer of a session.
ghost use Rattle.futures.specs.Task.{IsArmed, Keeps};

use crate::ending::Ending;
use crate::session::Next;
use crate::states::Progress;
use futures::task::Context;
use std::time::{Clock, Duration, Instant};
use tokio::time::Sleep;

// Sets the sleep to end after the limit, from now.
pub(crate) fn restart<K: Clock>(clock: &K, sleep: &mut Sleep, limit: Duration) {
    if let Some(deadline) = time_after(clock, limit) {
        sleep.reset(deadline);
    }
}

// If there is a limit, sets the sleep to end after it, from now.
pub(crate) fn restart_within<K: Clock>(clock: &K, sleep: &mut Sleep, limit: Option<Duration>) {
    if let Some(limit) = limit {
        restart(clock, sleep, limit);
    }
}

// The time after the limit, from now, if the clock has it.
pub(crate) fn time_after<K: Clock>(clock: &K, limit: Duration) -> Option<Instant> {
    Instant::now(clock).ok()?.checked_add(limit)
}

// The progress of a tunnel that has moved nothing.
pub(crate) fn no_progress() -> Progress {
    Progress {
        seen: 0,
        until: None,
    }
}

// The next step of a tunnel that waits and has moved this number of bytes: it ends if none moved for its idle
// time.
pub(crate) fn poll_idle<K: Clock>(
    clock: &K,
    sleep: &mut Sleep,
    limit: Option<Duration>,
    progress: &mut Progress,
    moved: u64,
    cx: &mut Context<'_>,
) -> Next
    requires armed { IsArmed cx.old }
    ensures armed { IsArmed cx.new }
    ensures kept { Keeps cx.old cx.new }
{
    let Some(limit) = limit else {
        return Next::Waits;
    };
    if moved != progress.seen {
        progress.seen = moved;
        progress.until = time_after(clock, limit);
        if let Some(until) = progress.until
            && until < sleep.deadline()
        {
            sleep.reset(until);
        }
    }
    if sleep.poll_elapsed(cx).is_pending() {
        return Next::Waits;
    }
    if let Some(until) = progress.until
        && until > sleep.deadline()
    {
        sleep.reset(until);
        return Next::GoesOn;
    }
    Next::Ends(Ending::Idle)
}
