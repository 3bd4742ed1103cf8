//! A running race whose whole state is the text of its record so far.
//!
//! [`next_step`] returns what is due at a tick, by the record: an attempt to start, a tick to wait for, or how the
//! race has ended. The caller connects, waits and records events as lines of the record; nothing is kept between two
//! calls. If the client was late for a start, the step has the pause that the record must have, and is the step after
//! that pause.
//!
//! Proved (`specs/Steps`): the record, with the reported pause if there is one and a line `end`, is one race's text,
//! and the step follows from that race's transcript, so it agrees with a replay of the record: the next attempt
//! starts at the tick, or is waited for; the race has ended if it ends at or before the tick in the transcript. A
//! pause is reported exactly if that attempt's start is before the tick. By [`laws`], without a pause an attempt
//! starts at exactly this tick, and a tick to wait for is after it. In a race that runs this way, whatever answers,
//! ends of attempts and pauses are recorded meanwhile, and whatever lines `rtt`, `used`, `source` and `route` come
//! with an answer for its addresses (`specs/Runs`), the attempts started are those of its record's transcript.
//!
//! Tested only: that a call succeeds if memory is available.
#![tactic(auto)]

mod fault;
pub mod laws;
mod so_far;
mod step;

pub use fault::NextFault;
pub use step::{Action, Pause, Step, next_step};
