// A connection in progress.

ghost use Rattle.std.specs.Prelude.{◌≡◌, ◌≤◌, ℕ, ⊤, Option, Result, ◌⊎◌, IfOk};
ghost use Rattle.futures.specs.Poll.{IfReady, OnPending};
ghost use Rattle.futures.specs.Task.{Covers, Keeps};
ghost use Rattle.futures.specs.declared.task.Poll.{Poll};
ghost use Rattle.he_turns.specs.declared.faults.AttemptFault.{AttemptFault};
ghost use Rattle.he_turns.specs.declared.limits.TheConstants.{MAX_POLL_TICK};
ghost use Rattle.he_turns.specs.Reach.{AreAmong};
ghost use Rattle.he_turns.specs.Waiting.{WaitsForTick};

use crate::faults::AttemptFault;
use crate::limits::MAX_POLL_TICK;
use futures::task::{Context, Poll};

/// A connection in progress, polled with the tick of the poll.
///
/// A pending poll guarantees one of three: it has registered in `cx` at each source that it waits for (`needs`), so
/// that the task is polled again once something happens; or `due` names a tick before which every poll is pending; or
/// `due` is None, and every later poll is pending. In the first case it has registered or yielded in `cx` even if it
/// states no source: with no `needs` it guarantees no more than that. A trial is dropped with its attempt, answered
/// or not: its `Drop` closes what it opened.
pub trait Trial: Drop {
    /// The connection.
    type Conn: Drop;

    // Holds for the states in which `poll_trial` may be called.
    ghost can_poll: { Self → Type 0 } = { λ _. ⊤ };

    // Holds for each source that the trial waits for.
    ghost needs: { Self → ℕ → Type 0 } = { λ _ _. ⊥ };

    // The results of a poll at a tick, and the state that it leaves.
    ghost polls: { Self → ℕ → Poll (Result Self.Conn AttemptFault) → Self → Type 0 };

    ghost due_tick: { Self → Option ℕ };

    // The connections that it may give: those that go to the address for which it began. Each poll keeps it.
    ghost may_give: { Self → Self.Conn → Type 0 } = { λ _ _. ⊤ };

    /// Polls at the tick `now`, at most `MAX_POLL_TICK`. Returns the connection, or why there is none; after that it
    /// must not be polled again.
    fn poll_trial(
        &mut self,
        now: u64,
        cx: &mut Context<'_>,
    ) -> Poll<Result<Self::Conn, AttemptFault>>
        requires can { can_poll self.old }
        requires in_time { now ≤ MAX_POLL_TICK }
        ensures step { polls self.old now result self.new }
        ensures again { OnPending result (can_poll self.new) }
        ensures aim { OnPending result (AreAmong (may_give self.new) (may_give self.old)) }
        ensures gives { IfReady result (λ answer. IfOk answer (may_give self.old)) }
        ensures waits { OnPending result (Covers cx.new (needs self.new)
            ⊎ WaitsForTick polls self.new (due_tick self.new)) }
        ensures kept { Keeps cx.old cx.new };

    /// The tick before which nothing changes, if the trial knows it.
    fn due(&self) -> Option<u64>
        ensures { result ≡ due_tick self.now };
}
