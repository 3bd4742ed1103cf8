//! Texts of timelines, transcripts and orders: one name for several crates, and the laws of reading and writing
//! together.
//!
//! [`read_race`] and its faults are those of `he_reading` and `he_words`, the writers those of `he_write`, inputs of
//! many races those of `he_inputs`. A crate that needs only one of these depends on that one.
//!
//! Proved, by [`laws`]: a text is at most one race's, no race's text is the beginning of another's, the reader gets
//! from a line exactly its content, and a timeline that is written is read back, whatever follows it.
#![tactic(auto)]

pub mod laws;
mod ranges;

pub use he_inputs::{
    Ending, InputFault, NotOneRace, RaceReader, RaceReaderFault, StreamFault, inputs, race_reader,
    read_one_race, stream_fault,
};
pub use he_reading::{read_race, reading};
pub use he_words::{
    LINE_END, Name, TOKEN_END, TextFault, TextKind, Version, Word, fault, limits, words,
};
pub use he_write::{orders, timelines, transcripts, write_order, write_timeline, write_transcript};
