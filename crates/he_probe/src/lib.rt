//! Probes: attempts to connect to each of some addresses, none of which ends another.
//!
//! A race (RFC 8305) ends at its first connection and says nothing of the other addresses. [`Probing`] is a future
//! that polls one attempt for each address, over the connector and the ticker of a race, until each has an outcome or
//! its time is over. It returns a row for each address, in their order. Ticks are milliseconds.
//!
//! Proved: a row has the outcome that its own attempt gave, with the ticks from the attempt's start, or none if the
//! attempt was pending at its end; no attempt is ended by another; when the future is ready, no attempt is open; a
//! pending poll has registered for each open attempt, and for the tick at which the next one can change or ends
//! (`specs/Probing`).
//!
//! Tested only: the ticks of real sockets.
#![tactic(auto)]

pub mod probe;
pub mod probing;

pub use probe::{Probe, ProbeRow};
pub use probing::{Probing, schedule};
