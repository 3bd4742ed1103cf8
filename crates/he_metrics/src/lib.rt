//! The metrics of a proxy: counts of its sessions, races, look-ups, records and log lines, and their text for
//! monitoring.
//!
//! [`Metrics`] counts [`Event`]s, and writes the counts as OpenMetrics text. [`Counts`] are the counts themselves, and
//! [`Histogram`] has times by their lengths. A count that has reached 2^64 - 1 stays there; none ever falls.
//!
//! Proved: an event adds one to its own count, and changes no other (`IsCounted` in `specs/Counting`). For any times,
//! each bucket of a histogram has the number of those that are at most its bound, and the sum is theirs (`Shows` in
//! `specs/Histograms`). The text is that of the counts, octet for octet: each name's value is the count of that name
//! (`specs/Exposition`). Tested only: that [`Metrics`] adds to the counts that it had, since no contract can describe
//! the content of a cell.
#![tactic(auto)]

pub mod counts;
pub mod events;
mod exposition;
pub mod histogram;
pub mod metrics;
mod samples;
pub mod tables;

pub use counts::Counts;
pub use events::{End, Event, Lookup, Loss, Refusal, Win};
pub use histogram::Histogram;
pub use metrics::{Metrics, Now};
