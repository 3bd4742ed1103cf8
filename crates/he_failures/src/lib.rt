//! Record lines (`he_record`) of a look-up: why a family has no address, and which name servers gave no
//! answer.
//!
//! [`lookup_reason`] is the word for a fault of a look-up, [`failed_servers`] the name servers of its events that gave
//! no answer. [`lookup_record`] is the text of both, to precede a race that has the look-up's answers.
//!
//! Proved: the words and the name servers are those of `specs/Failures`, and the text that of `specs/Recorded`.
#![tactic(auto)]

pub mod failures;
pub mod recorded;

pub use failures::{failed_servers, lookup_reason};
pub use recorded::{HeardFaults, fault_reason, lookup_record};
