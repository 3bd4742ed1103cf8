//! Tests that no file of races can hold: of `he_text` timelines written and texts that may go on, of `he_course` the
//! accounts of races, of `he_text`, `he_course` and `he_json` want of memory. The examples, `crates/cases/data`, test
//! reading, writing and explaining.
#![tactic(auto)]

#[cfg(test)]
mod accounts;
#[cfg(test)]
mod explained;
#[cfg(test)]
mod explanations;
#[cfg(test)]
mod race_reader;
#[cfg(test)]
mod written;
