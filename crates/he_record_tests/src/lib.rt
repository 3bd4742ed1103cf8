//! Tests of `he_record` that no file of races can hold: records that a program makes, the faults of their lines, the
//! values of a record, and want of memory; and of `he_recording`, the records of a race's facts. The files in
//! `crates/cases/data` test the lines of a text, and their faults.
#![tactic(auto)]

#[cfg(test)]
mod making;
#[cfg(test)]
mod recorded;
#[cfg(test)]
mod written;
