//! The printed texts of races, for people and for scripts, made of words and facts.
//!
//! A printer pushes the [`Part`]s of its text to a vector ([`push_parts`]), and then writes them ([`write_parts`]).
//! It is proved which facts the text has, and in which order (`specs/Parts`): numbers, places, addresses, and the
//! meaning of its words. The wording is free, so that a better sentence changes no theorem.
//!
//! [`write_string`] writes a name as a JSON string, which no byte of the name can end (`specs/Escaping`, [`laws`]).
#![tactic(auto)]

mod escaping;
pub mod laws;
mod part;

pub use escaping::write_string;
pub use part::{Fact, Part, push_parts, write_parts};
