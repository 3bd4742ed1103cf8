// The separators and limits of texts. The limits of a race are those of its timeline.

/// The byte after each line.
pub const LINE_END: u8 = b'\n';

/// The byte between two tokens of a line.
pub const TOKEN_END: u8 = b' ';

/// The maximum length of a line in bytes, without its line end.
pub const MAX_LINE: usize = 16_384;

/// The maximum precedence of a policy row.
pub const MAX_PRECEDENCE: u64 = 65_535;

/// The maximum label of a policy row.
pub const MAX_LABEL: u64 = 65_535;

/// The minimum number of an interface.
pub const MIN_INTERFACE: u64 = 1;

/// The maximum number of an interface.
pub const MAX_INTERFACE: u64 = 65_535;

/// The maximum number of marks of a source: `deprecated` and `temporary`.
pub const SOURCE_MARKS: usize = 2;

/// The maximum number of marks of a route: `tunnel`.
pub const ROUTE_MARKS: usize = 1;

/// The maximum number of answers of one family, each on one line.
pub const MAX_ANSWERS: usize = 1;

/// The minimum end of a pause: the first tick after it.
pub const MIN_PAUSE_END: u64 = 1;

/// The maximum number of races in a text.
pub const MOST_RACES: usize = 4_096;
