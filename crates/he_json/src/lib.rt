//! A race as `he` prints it in JSON, one object on one line.
//!
//! [`write_transcript_json`] writes the race's attempts and how it ended, [`write_order_json`] its addresses in order
//! of preference, and [`write_explanation_json`] that order with its reasons and the events of the race. Each object
//! of a race begins with the name of the race's file, its number and its line ([`Place`]). Attempts and places are
//! counted from 0, ticks are milliseconds. [`write_machine_json`] writes the addresses and routes of a machine, and
//! [`write_names_json`] the addresses of a host. An explanation has the race's record too (he_record): the host and
//! port, the time, the client's address and its own result, failed look-ups, name servers that were given up, and for
//! addresses the reason that the attempt failed, or that no client tried them; and its times (he_course), which add
//! up.
//!
//! The texts are JSON (RFC 8259) without spaces between their parts.
//!
//! Proved: the facts of a text and their order (`specs/Facts`), numbers, addresses and the meaning of its words; that
//! it is made of objects and arrays with their brackets, and of strings that nothing in them can end (`specs/Json`,
//! and `specs/Escaping` of he_print); that it is one line ([`laws`]); and that the vector is unchanged if memory is
//! refused. Words and the names of members are no facts.
//!
//! Not proved: that a reader of JSON takes the text, and that a call succeeds if memory is granted.
#![tactic(auto)]

mod attempts;
pub mod documents;
mod events;
pub mod laws;
pub mod machine;
mod members;
pub mod names;
mod order;
pub mod place;
mod reasons;
mod recorded;
mod times;

pub use documents::{write_explanation_json, write_order_json, write_transcript_json};
pub use machine::write_machine_json;
pub use names::write_names_json;
pub use place::Place;
