//! The numbers in the documents.
ghost use Rattle.he_proxy.specs.Limits.{AreLimits};

/// The default limit of sessions at once.
pub const DEFAULT_SESSIONS: u32 = 1_000;

/// The default limit of records.
pub const DEFAULT_RECORDS: u32 = 10_000;

/// The default port to listen at: that of SOCKS (RFC 1928 section 3).
pub const DEFAULT_PORT: u16 = 1_080;

/// Seconds that a client has for its request.
pub const REQUEST_SECONDS: u64 = 10;

/// Proves that they are the numbers of `specs/Limits`. Does nothing when run.
pub fn limits_are_the_numbers()
    ensures { AreLimits }
{}
