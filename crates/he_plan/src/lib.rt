//! The rules of a race (RFC 8305 sections 3 to 5 and 8), and code that computes them.
//!
//! A `TimelineBuilder` collects a race's input: settings, the policy table and the host that determine the order of
//! addresses, the answers of both families, the client's knowledge of addresses from earlier connections, the outcome
//! of each address, and the pauses of the client. `plan` returns the attempts that the race makes if no success stops
//! it, `fate_of` the fate of each, `winner` the one that wins, and `transcript_of_fates` the transcript.
//! `transcript_of` does all of this in one call, and looks at no outcome of an attempt that starts at or after the
//! success of an earlier one. A tick is a millisecond.
//!
//! ```text
//! let settings = Settings::new(50, 250, 1, 30_000)?;
//! let host = Host::new(alloc, &sources, &routes)?;
//! let mut builder = TimelineBuilder::new(alloc, settings, Policy::standard(alloc)?, host);
//! builder.answer(Family::V6, 20, &[v6])?;
//! builder.answer(Family::V4, 25, &[v4])?;
//! builder.outcome(v6, Outcome::Ok(35))?;
//! let transcript = transcript_of(alloc, &builder.finish())?;
//! ```
//!
//! Proved, against the definitions of `specs/`: each call of the builder yields the new race or the first fault, and
//! a refused call leaves the race unchanged; `plan` returns the one list of attempts (`Attempts`), whatever the
//! pauses; `Timeline::seen` the least tick, at or after the given one, that no pause covers; `interlace` the
//! interlaced list (`Interlacing`). The transcript is the race's (`Transcript`), even if attempts that start after a
//! success are reported as skipped, and if only the fates by the race's end are known. `laws` has consequences of the
//! definitions alone, such as that a race has one transcript; `due` has which attempts a running race may start, and
//! when; `agreement` has what is kept when a race grows. Addresses are tried in the order of RFC 6724 section 6,
//! interlaced; `he_select` defines and computes that order, with the knowledge of addresses (RFC 8305 section 4).
//!
//! Tested only: that a call succeeds if memory is available.
#![tactic(auto)]

pub mod agreement;
pub mod attempts;
pub mod due;
pub mod finish;
pub mod interlacing;
pub mod laws;
pub mod listing;
pub mod planning;
pub mod race_state;
mod starts;
pub mod transcript;
mod tried;
mod untried;

pub use attempts::{Attempt, Plan};
pub use finish::{Fate, fate_of, winner};
pub use he_timeline::{
    BuildFault, Changes, Outcome, Range, Settings, Timeline, TimelineBuilder, limits,
};
pub use interlacing::interlace;
pub use listing::sorted_attributes;
pub use planning::plan;
pub use race_state::RaceState;
pub use transcript::{
    Line, Mark, Outcome3, Transcript, transcript_at_stop, transcript_by_order, transcript_of,
    transcript_of_fates,
};
