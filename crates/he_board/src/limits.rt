//! The limits of a board.

/// The maximum number of jobs of a board.
pub const JOBS: usize = 2_097_152;

/// The maximum number of races of a board.
pub const RACES: usize = 4_096;

/// The number of parts of the pass that comes with a board.
pub const PARTS: u32 = 1_048_576;

/// The number of places of a race, from 0 on; also the factor of the tick in a key.
pub const PLACES: usize = 512;

/// The minimum number of workers that share a board.
pub const LEAST_WORKERS: u16 = 1;

/// The maximum number of workers that share a board.
pub const MOST_WORKERS: u16 = 64;

/// The maximum tick of an offer, in milliseconds.
pub const LAST_TICK: u64 = 7_200_000;

/// The winner word of a race without offers. It is above every key.
pub const NO_OFFER: u64 = u64::MAX;
