//! Explanations of the faults of timeline texts.
//!
//! [`explain_fault`] explains a fault as a compiler does: the line, a mark below the wrong part, and the form
//! expected. If a word of the line or the input's first bytes show the likely meaning, the sentence ends in a clause
//! with it.
//!
//! Proved: the explanation is appended to the vector, and a failed allocation leaves the vector unchanged. It ends in
//! the clause of the likely meaning of a word of the line or of the input's first bytes (`specs/Clauses`,
//! `specs/Meant`), exactly if one of them has such a meaning.
//!
//! Only tested: the rest of an explanation. Checks of its own read the line again for it (`finding.rt`): a wrong one
//! would mislead, but does not change the fault's line and kind. If these checks don't find a fault's cause, the
//! sentence is the general one of its kind.
#![tactic(auto)]

mod clause;
pub mod explaining;
mod finding;
mod flaws;
mod forms;
pub mod limits;
pub mod meant;
mod place;
mod record_lines;
mod repeats;
pub mod rest;
mod sentence;
mod showing;

pub use explaining::{explain_fault, explanation_of, sentence_of};
pub use meant::Meant;
pub use rest::RestOfInput;
