//! The limits of reading and writing.

/// The maximum number of reads in one call.
pub const MOST_READS: u64 = 4_294_967_296;

/// The maximum number of writes in one call, and of tries of one flush.
pub const MOST_WRITES: u64 = 4_294_967_296;

/// The maximum room for a read, in bytes.
pub const READ_SIZE: usize = 4_194_304;

/// The room for each read of `read_input`, in bytes.
pub const INPUT_ROOM: usize = 262_144;
