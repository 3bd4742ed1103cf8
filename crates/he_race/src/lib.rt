//! A race of connection attempts (RFC 8305 section 5) as futures, with the connector and the ticker of a recorded
//! race.
//!
//! This crate re-exports the futures and traits of `he_turns`, so a user of the library needs no other crate. It adds
//! the parts that run a recorded race:
//!
//! - [`Scripted`] is the connector that gives a timeline's outcomes, and [`ScriptedTrial`] its trial.
//! - [`WheelTicker`] is the ticker that jumps from one requested tick to the next.
//! - [`race_one`] runs a race over these two to its transcript, and [`run_attempt`] runs one attempt to its fate.
//!
//! No call takes a handle: nothing here waits, starts a thread or reads a clock.
//!
//! # What is proved
//!
//! - A trial of `Scripted` that begins at `s` returns its address's outcome, of duration `d`, at polls from `s + d`
//!   on, and is pending before; a silent one is always pending.
//! - `WheelTicker` starts at the first tick that no pause covers, and jumps to the least requested tick, moved by the
//!   pauses; a refused request leaves it unchanged (`specs/Wheel.antt`).
//! - `race_one` returns the transcript that `he_plan` defines (`Transcript`): a `RaceFuture` over `Scripted` and
//!   `WheelTicker` ends with the transcript of the script, whatever pauses the script has, though its own record has
//!   only the pauses that it noticed. Its only fault is `Memory`.
//! - `run_attempt` returns the fate that `he_plan` defines (`Finish`).
//!
//! Tested only, in `he_race_tests`: that calls succeed if memory is available.
#![tactic(auto)]

mod alone;
pub mod one;
pub mod run;
pub mod scripted;
pub mod wheel;

pub use he_turns::{
    Answer, AnswerSource, AttemptFault, AttemptFuture, Connector, Finish, Known, RaceFault,
    RaceFuture, Raced, ResolvingRace, Route, Source, TickFault, Ticker, Trial, answers, attempt,
    connector, faults, laws, limits, nothing_known, race, resolving, ticker, trial,
};
pub use one::race_one;
pub use run::run_attempt;
pub use scripted::{Scripted, ScriptedTrial};
pub use wheel::WheelTicker;
