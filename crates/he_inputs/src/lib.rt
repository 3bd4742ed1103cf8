//! Reading the races of an input, one by one, as its bytes arrive.
//!
//! [`RaceStream`] takes an input step by step and returns its races; [`HeldInput`] holds the bytes that it took.
//! [`RaceReader`] reads the races of bytes in memory. [`read_one_race`] reads an input of one race, and
//! [`take_one_race`] takes one step by step. [`StreamFault`] is the error of work on a stream of timelines.
//!
//! A race may have record lines right before it (`he_record`). They don't change the race: readers pass them with it,
//! and [`RaceReader::next_recorded`] returns their contents; [`record_of`] reads them of [`RaceStream::text`].
//!
//! Proved: the reader returns the races and the first fault of the input (`specs/Inputs`, `specs/Recorded`). Of bytes
//! that may go on, it returns the races and the fault that every input has that begins with them
//! (`specs/RaceReading`). A fault of a text is that of each longer text too, unless later bytes may mend it
//! (`specs/Beginnings`): then some longer text does not have this fault. A fault is that of the first check that
//! fails on the first faulty line (`specs/FirstFault`). And by [`laws`]: an input without a fault has the same races
//! without its record lines, and a text without record lines has the race and the fault of its race lines
//! (`specs/Plain`).
#![tactic(auto)]

mod changes;
pub mod held_input;
pub mod input_fault;
pub mod inputs;
pub mod laws;
pub mod race_reader;
pub mod race_stream;
mod recorded;
pub mod stream_fault;

pub use held_input::HeldInput;
pub use input_fault::InputFault;
pub use inputs::{NotOneRace, read_one_race, take_one_race};
pub use race_reader::{Ending, RaceReader, RaceReaderFault};
pub use race_stream::RaceStream;
pub use recorded::record_of;
pub use stream_fault::StreamFault;
