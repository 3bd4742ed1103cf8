//! The limits of the files and the answers.

/// The maximum number of name servers used from the configuration file (resolver(5), MAXNS).
pub const MOST_SERVERS: usize = 3;

/// The maximum number of domains of a search list.
pub const MOST_DOMAINS: usize = 32;

/// The number of dots from which on a name is first queried as it is: the default and the maximum.
pub const DEFAULT_NDOTS: u64 = 1;

pub const MOST_NDOTS: u64 = 15;

/// The time that a server has for its answer, in seconds: the minimum, the default and the maximum.
pub const LEAST_TIMEOUT: u64 = 1;

pub const DEFAULT_TIMEOUT: u64 = 5;

pub const MOST_TIMEOUT: u64 = 30;

/// The number of rounds through the servers: the minimum, the default and the maximum.
pub const LEAST_ATTEMPTS: u64 = 1;

pub const DEFAULT_ATTEMPTS: u64 = 2;

pub const MOST_ATTEMPTS: u64 = 5;

/// The maximum number of addresses kept of an answer, that of a timeline line.
pub const MOST_ADDRESSES: usize = 256;

/// The maximum length of an interface name on Linux, in bytes (IFNAMSIZ without the final NUL).
pub const MOST_INTERFACE_BYTES: usize = 15;

/// The minimum and the maximum port of a connection.
pub const LEAST_PORT: u64 = 1;

pub const MOST_PORT: u64 = 65_535;
