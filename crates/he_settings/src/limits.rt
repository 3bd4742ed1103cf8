//! The limits of a look-up's input.

/// The port of a name server (RFC 1035 section 4.2).
pub const SERVER_PORT: u16 = 53;

/// The most attempts to read a file, if signals interrupt each.
pub const MOST_READS: usize = 64;
