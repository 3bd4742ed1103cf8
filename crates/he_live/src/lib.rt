//! A Happy Eyeballs client on real sockets (RFC 8305): it connects to the addresses of a name, staggered by the rules
//! of a race, keeps the first connection, and records the race so that it replays to the same transcript.
//!
//! # A connection of your own
//!
//! A timeline has the input: the sources and routes of this machine (which order the addresses, RFC 6724), and the
//! addresses of the name, each answer with the tick from which it counts as known; 0 is at once. `he_inputs` reads a
//! timeline from a text, and `TimelineBuilder` of `he_timeline` makes one.
//!
//! ```text
//! fn connect<R>(rt: &R, text: &[u8], port: u16) -> Result<Option<Dialed>, LiveFault>
//! where
//!     R: Wait + Clock + RandomSource + AllocGlobal + Net,
//! {
//!     let timeline = read_one_race(rt.alloc(), text, false)?;
//!     let steps = Steps::new(rt.alloc())?;
//!     let raced = live_race(rt, rt.alloc(), &timeline, port, &steps)?;
//!     Ok(raced.winner)
//! }
//! ```
//!
//! `Dialed::into_stream` gives std's stream, whose reads and writes block; nothing else of the race is left.
//! `raced.transcript` is the course of the race. `raced.recorded` is the record, which `write_timeline` (`he_write`)
//! turns into a text for `he replay`. [`failed_attempts`] gives the reasons of failed attempts, and
//! [`attempt_failures`] their words in record lines, which `he_recording` writes.
//!
//! [`live_race`] makes and ends its own event loop; [`live_race_on`] takes one of the crate `tokio`. Where answers
//! come during the race, as from a resolver, [`resolving_race_on`] asks a source for them, and reports each step to a
//! [`Watcher`]. Its [`Endpoint`] also has the interface for link-local IPv6 addresses, which a timeline doesn't have.
//!
//! [`gather_on`] takes the answers of a source and connects to none. [`probe_on`] connects to each of some addresses,
//! one after another at a pace, and reports the outcome of each.
//!
//! A race that is one task of several in an event loop uses its parts: [`LiveTicker`], [`socket_of`] and [`Steps`],
//! with its own connector.
//!
//! [`live`] runs a race from an input to an output: `he live` is this call.
//!
//! # What is proved
//!
//! - The result of [`live_race`] replays, whatever the sockets and the clock did: its transcript is the one that the
//!   rules of a race determine for its record; the record has the given settings, policy, host, answers and history;
//!   and there is a winner's stream exactly if the race was won (`Replays` of `he_turns`). Its faults are `Runtime`,
//!   `Files` and `Memory` only.
//! - The winner's connection was made to the address of the transcript's winning line and the given port, over the
//!   given interface if that address is a link-local IPv6 one, and over none otherwise (`goes_to` in `specs/Dials`).
//! - The result of [`resolving_race_on`] replays too, for every source: its record has the given settings, policy and
//!   answers, begins with the given host and history, and has the source's answers for the other families
//!   (`ReplaysGiven` and `IsOfSource` of `he_turns`).
//! - [`live`] writes the transcript's text and then the record's, for the input's one race with the given changes of
//!   its settings, and returns the record's text. Its record lines are a time and an attempt for each failed attempt
//!   of the transcript whose reason is known, with the word for that; the text reads back as the race with these
//!   lines (`IsRaceRecord` in `specs/Recorded`). It makes all of it before it writes the first byte; after any fault
//!   but `Write` nothing is written. `Text`, `Read` and `OneRace` come only if the input has this fault
//!   (`specs/Live`). It reports each failed attempt of the transcript, and no other, by place and address.
//! - The result of [`gather_on`] is the given timeline with the source's answers for both families; one that has no
//!   answer had none at the tick `MAX_LIMIT` (`IsGatheredFrom` of `he_turns`).
//! - [`probe_on`] returns a row for each address, in their order, of attempts that start at the request's pace and
//!   have the request's time; each row has the outcome that its own attempt gave, or none if the attempt was pending
//!   at its end (`specs/Probed`, `he_probe`).
//! - The reason for each error of the system, which reasons concern this machine only, the word of each reason in a
//!   record line, and the lines that report failed attempts ([`Reason::of`], [`Reason::is_local`],
//!   [`Reason::attempt_reason`], [`write_failures`]; `specs/Reasons`, `specs/Recorded`).
//!
//! All this holds if the call returns: it waits for the system.
//!
//! Tested only, on loopback: that it connects, and when; that a wake comes on time; that `Runtime` comes only if the
//! event loop or the clock failed; that reported steps and reasons belong to their attempt; that the winner's stream
//! is connected and blocks; and that no socket of a race but the winner's is left.
#![tactic(auto)]

pub mod clock;
pub mod dialed;
mod dialing;
pub mod endpoint;
pub mod failures;
pub mod fault;
pub mod gathering;
pub mod probing;
pub mod racing;
pub mod reason;
pub mod recorded;
pub mod recording;
pub mod sockets;
mod start;
pub mod steps;

pub use clock::LiveTicker;
pub use dialed::Dialed;
pub use endpoint::Endpoint;
pub use failures::{FailedAttempt, failed_attempts, first_local, write_failures};
pub use fault::LiveFault;
pub use gathering::gather_on;
pub use probing::{ProbeRequest, probe_on};
pub use racing::{ResolvingRequest, live_race, live_race_on, resolving_race_on};
pub use reason::Reason;
pub use recorded::attempt_failures;
pub use recording::{LiveReport, live};
pub use sockets::socket_of;
pub use steps::{Quiet, Step, StepKind, Steps, Watcher};
