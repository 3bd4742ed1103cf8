//! The limits of queries.

/// Milliseconds until the next name server is asked too.
pub const ALONE: u64 = 250;

/// Milliseconds without an answer until a query is sent again.
pub const AGAIN: u64 = 1_000;

/// The size of datagrams that a query offers the server, in bytes (RFC 6891 section 6.2.3): a datagram of this size
/// is not fragmented on any link that carries IPv6.
pub const OFFERED_ROOM: u16 = 1_232;

/// The most bytes that are read of a datagram: more than are offered, for a server that sends more.
pub const DATAGRAM_ROOM: usize = 4_096;

/// The most datagrams read in one poll.
pub const DATAGRAMS_IN_A_ROW: usize = 64;

/// The most events that a look-up keeps between two takes.
pub const MOST_EVENTS: usize = 1_024;

/// The most steps in one poll of a query.
pub const MOST_STEPS: usize = 64;
