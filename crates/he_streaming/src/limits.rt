//! The limits of a replay.

pub use he_board::{LEAST_WORKERS, MOST_WORKERS};
pub use he_words::limits::MOST_RACES;

/// The bytes of a piece, which a worker takes at a time, up to the end of its last race.
pub const PIECE_BYTES: usize = 65_536;

/// The most pieces into which the bytes of a step are cut.
pub const MOST_PIECES: usize = 1_024;

/// The fewest pieces per worker: with fewer pieces, `replay` takes fewer workers.
pub const PIECES_OF_A_WORKER: usize = 2;

/// The bytes that end a race: its last line, with the line end before it.
pub const RACE_END: &[u8] = b"\nend\n";

/// The room for the first read, in bytes, if one worker writes all races. A read that fills its room is followed by
/// one with four times as much: a short input takes little memory, and a long one is read in few steps.
pub const FIRST_ROOM: usize = 65_536;

/// The room for the first read, in bytes, if several workers share the races.
pub const SHARED_ROOM: usize = 262_144;

/// The most room for a read, in bytes: more takes memory, and saves no time.
pub const MOST_ROOM: usize = 1_048_576;

/// The initial size in bytes of the arena that holds a race while it is written: the calling thread has one, and each
/// worker. Races of a few addresses need no more.
pub const ARENA_BYTES: usize = 65_536;

/// The initial room for the text of a race, in bytes, other than a transcript: enough for most orders of three
/// addresses.
pub const TEXT_ROOM: usize = 128;

/// The bytes after the last whole race that are held before they are searched for a fault, if more bytes are ready to
/// be taken. Most races are shorter, so their bytes are read once.
pub const TRIED_BYTES: usize = 32_768;
