//! The limits of a check.

/// The number of first bytes of an input that identify another file format.
pub const FIRST_BYTES: usize = 6;

/// The room for a step of an input, in bytes. The reader checks all bytes in memory for lines that may mend a fault,
/// so a larger room makes each of many faults more expensive; with a smaller one more races are read twice.
pub const STEP_ROOM: usize = 16_384;

/// The maximum number of faults that a check explains. It reports the number of the others.
pub const MOST_TOLD: u64 = 1_000;
