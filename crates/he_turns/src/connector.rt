// The trait that makes connections.

ghost use Rattle.std.specs.Prelude.{◌≡◌, ◌≤◌, ℕ, ⊤, Result, IfOk};
ghost use Rattle.he_addr.specs.declared.ip.Ip.{Ip};
ghost use Rattle.he_turns.specs.declared.faults.AttemptFault.{AttemptFault};
ghost use Rattle.he_turns.specs.declared.limits.TheConstants.{MAX_POLL_TICK};
ghost use Rattle.he_turns.specs.Reach.{AreAmong, ReachAlike};

use crate::faults::AttemptFault;
use crate::limits::MAX_POLL_TICK;
use crate::trial::Trial;
use he_addr::Ip;

/// Makes the connections of a race.
pub trait Connector: Drop {
    /// The connection.
    type Conn: Drop;
    /// A connection in progress.
    type Run: Trial<Conn = Self::Conn>;

    // The results of `begin` for the attempt at a place, to an address at a tick, and the state that it leaves.
    ghost begins: { Self → ℕ → Ip → ℕ → Result Self.Run AttemptFault → Self → Type 0 };

    // Which connections go to an address.
    ghost reaches: { Self → Ip → Self.Conn → Type 0 } = { λ _ _ _. ⊤ };

    /// Begins to connect to the address, for the attempt at this place, at the tick `now`, at most `MAX_POLL_TICK`. A
    /// fault is the attempt's failure.
    fn begin(&mut self, place: usize, ip: Ip, now: u64) -> Result<Self::Run, AttemptFault>
        requires in_time { now ≤ MAX_POLL_TICK }
        ensures step { begins self.old place ip now result self.new }
        ensures can { IfOk result Self.Run.can_poll }
        ensures leads { IfOk result (λ run. AreAmong (Self.Run.may_give run) (reaches self.old ip)) }
        ensures still { ReachAlike (reaches self.old) (reaches self.new) };
}
