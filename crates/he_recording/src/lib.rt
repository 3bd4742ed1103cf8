//! The record lines that a client writes before a race (`he_record`), and the text of a race with them.
//!
//! [`record_of`] makes the record of [`Facts`]: what a client knows of its race beside the race itself. A line that a
//! record can't have, as for a host of more than 255 bytes or a ninth name server, is left out. [`write_recorded`]
//! writes a record and the race after it, [`text_of`] both. [`moment_now`] is the system's time.
//!
//! Proved: the record has the lines of the facts (`specs/Facts`), in order, without those that fail a check of a
//! record line (`specs/Added`); if these lines together are a record, all of them ([`laws`]). The text is the writers'
//! text of the record and of the race, and reads back as this race with this record, whatever they are
//! ([`laws::recorded_reads_back`]).
//!
//! Only tested: that the time is the system's.
#![tactic(auto)]

mod clock;
pub mod empty;
pub mod facts;
pub mod laws;
pub mod making;
pub mod writing;

pub use clock::moment_now;
pub use empty::reason_if_empty;
pub use facts::{AttemptFailure, Facts, ServerFailure, Target};
pub use making::record_of;
pub use writing::{text_of, write_recorded};
