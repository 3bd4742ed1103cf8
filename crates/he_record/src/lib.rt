//! Record lines: when, for whom and why a race was recorded, and what its client did.
//!
//! A race may have lines that begin with `record` right before its first line. They don't change the race. A
//! [`Record`] holds these lines: [`RecordLine`]s, ordered by the groups of [`RecordWord`]. [`read_record`] reads the
//! record with which a text begins, maybe one without lines; [`write_record`] writes one.
//!
//! Proved: unless an allocation fails, `read_record` finds the record with which a text begins, if its lines keep to
//! `specs/Text`, with its number of bytes and of lines. If it returns a fault, this is the first check that fails on
//! the first faulty record line (`specs/Faults`), counted from 1, or an allocation failed at a line before which
//! nothing is wrong. [`Record::add`] makes the longer record or returns the first fault. And by [`laws`]: a text is a
//! text of one record at most; a written record reads back; the lines of a record are read alike whatever follows
//! them.
//!
//! Only tested: a call succeeds if no allocation fails.
#![tactic(auto)]

mod checks;
mod forms;
pub mod laws;
pub mod limits;
pub mod line;
pub mod moment;
pub mod nat64;
pub mod reading;
pub mod reasons;
pub mod records;
mod tokens;
pub mod words;
pub mod writing;

pub use line::{RecordLine, is_host};
pub use moment::Moment;
pub use reading::{goes_on, read_record};
pub use reasons::{AttemptReason, ClientEnd, LookupReason, ServerReason};
pub use records::Record;
pub use words::RecordWord;
pub use writing::write_record;
