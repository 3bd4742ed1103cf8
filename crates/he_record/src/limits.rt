// The limits of record lines.

/// The maximum length of a host, in bytes.
pub const MOST_HOST_BYTES: usize = 255;

/// The minimum of a port.
pub const MIN_PORT: u16 = 1;

/// The maximum of a port.
pub const MAX_PORT: u16 = 65_535;

/// The maximum number of lines of each kind that a record has once.
pub const MOST_ONCE: usize = 1;

/// The maximum number of NAT64 prefixes of a record.
pub const MOST_PREFIXES: usize = 8;

/// The maximum number of name servers of a record.
pub const MOST_SERVERS: usize = 8;

/// The maximum number of attempts of a record, and of untried addresses.
pub const MOST_TOLD: usize = 512;
