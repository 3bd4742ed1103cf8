//! Records of many races, their totals, and what their addresses cost.
//!
//! [`Races`] reads inputs of timelines, one after the other, and keeps a small record of each race ([`Kept`]) for
//! each row of settings ([`Changes`](he_timeline::Changes)): a summary (he_summary) has one row, a comparison
//! (he_compare) several. The times of a record are those of the race's account (he_course). [`Totals`] counts these
//! records and sums their times up.
//!
//! Proved, whatever the inputs: the records are those of the transcripts and accounts of all races of the inputs with
//! each row's settings, each input up to its first fault, which is the result (`specs/Kept`, `specs/Summed`). A
//! percentile is the least number within which that percentage lies (`specs/Times`); each count and each sum is one
//! over the records (`specs/Totals`); no attempt to an untried address counts as failed or as one without an answer.
//! The addresses are the ten whose attempts own the most time, the name servers the ten that most often did not
//! answer (`specs/Tries`). What the attempts to all addresses own and what was lost with nothing left to try is what
//! all races lost ([`laws`]).
//!
//! Not proved: that a call succeeds if memory is granted.
#![tactic(auto)]

mod adding;
pub mod hosts;
pub mod kept;
pub mod laws;
pub mod races;
pub mod tallies;
pub mod times;
pub mod totals;
mod tried;

pub use hosts::Hosts;
pub use kept::{Ending, Kept, Loss, Place};
pub use races::Races;
pub use tallies::Tally;
pub use times::Spread;
pub use totals::{Counts, Totals};
