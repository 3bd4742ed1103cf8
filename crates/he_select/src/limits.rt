// The limits of the crate.

/// The maximum number of rows of a policy table.
pub const ROWS: usize = 64;

/// The number of rows of the standard policy table.
pub const STANDARD_ROWS: usize = 9;

/// The maximum number of sources of a host.
pub const SOURCES: usize = 64;

/// The maximum number of routes of a host.
pub const ROUTES: usize = 64;

/// Names no interface: interface numbers start at 1.
pub const NO_INTERFACE: u16 = 0;
