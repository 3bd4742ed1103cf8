//! Checks of timeline texts, with an explanation of the first fault, or of the first fault of each part of a text.
//!
//! [`check_input`] counts the races and lines of an input and warns of entries that are allowed, but likely mistakes
//! ([`Slip`]), or returns the input's first fault. [`check`] does this for a stream: it writes the numbers to an
//! output, and each warning as a line. If all faults are asked for, it continues after a faulty race, at the next
//! line that is `race 1` or `race 2` or a record line. [`explain_fault`] of he_faults explains a fault. [`check_json`]
//! writes the report of [`check`] as a JSON object (`objects.rt`).
//!
//! Proved: a check reports the input's first fault, by kind and line (`HasRaces` of he_inputs, `specs/Inputs`). If
//! there is none, it reports the number of its races and lines (`specs/Checked`), and exactly the likely mistakes of
//! its races and their records as warnings, each with its line (`specs/Slips`) and its sentence (`specs/Sentences`). A
//! replay reads its input by the same definition, so both report one fault. Over streams, whatever they do
//! (`specs/Stream`): the whole input is read; the numbers are written and flushed if there is no fault, and otherwise
//! nothing is written; after a write or flush that failed, a first part is written. The explanation of the first fault
//! ends in the clause of its likely meaning (he_faults). A check for all faults reports the first fault of each part
//! of an input, in order, with its line counted over the whole input and its clause, and last that the input broke
//! off (`specs/AllFaults`); it returns the first of these faults. The JSON object has the same contents (`IsObject`
//! of `specs/Stream`, `specs/Objects`), with names and sentences as strings (`he_print`).
#![tactic(auto)]

mod all_faults;
pub mod checking;
mod counting;
mod form;
pub mod input;
mod kind;
pub mod limits;
mod objects;
mod parts;
pub mod slips;
mod taking;
mod telling;

pub use checking::{check, check_json};
pub use he_faults::explain_fault;
pub use input::{Checked, check_input};
pub use slips::{Slip, Warning};
