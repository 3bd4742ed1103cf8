//! The input of a race: its settings, the answers of both families, the client's knowledge of addresses from earlier
//! connections, the outcome of each address, and the pauses of the client.
//!
//! A [`TimelineBuilder`] collects them and makes a [`Timeline`]. A tick is a millisecond.
//!
//! ```text
//! let settings = Settings::new(50, 250, 1, 30_000)?;
//! let host = Host::new(alloc, &sources, &routes)?;
//! let mut builder = TimelineBuilder::new(alloc, settings, Policy::standard(alloc)?, host);
//! builder.answer(Family::V6, 20, &[v6])?;
//! builder.answer(Family::V4, 25, &[v4])?;
//! builder.outcome(v6, Outcome::Ok(35))?;
//! let timeline = builder.finish();
//! ```
//!
//! Proved, against the definitions of `specs/`: each call of the builder yields the new race or the first fault, and
//! a refused call leaves the race unchanged; `Timeline::seen` returns the least tick, at or after the given one, that
//! no pause covers; two timelines are equal exactly if their races are; settings and changes are those given, each in
//! its range.
//!
//! Tested only, in he_plan_tests: that a call succeeds if memory is available.
#![tactic(auto)]

mod addresses;
pub mod assigning;
pub mod builder;
mod by_address;
pub mod changes;
mod history;
pub mod limits;
pub mod outcome;
pub mod settings;
pub mod timeline;

pub use assigning::put;
pub use builder::{BuildFault, TimelineBuilder};
pub use changes::Changes;
pub use outcome::Outcome;
pub use settings::{Range, Settings};
pub use timeline::Timeline;
