//! The limits of the command line.

/// The least, the default and the most workers. The default also as the text that clap reads.
pub const LEAST_WORKERS: u16 = 1;

pub const DEFAULT_WORKERS: u16 = 4;

pub const DEFAULT_WORKERS_TEXT: &str = "4";

pub const MOST_WORKERS: u16 = 64;

/// The least and the greatest port that a connection can be made to.
pub const LEAST_PORT: u64 = 1;

pub const MOST_PORT: u64 = 65_535;

/// The port of a name server (RFC 1035 section 4.2).
pub const SERVER_PORT: u16 = 53;

/// The most characters of a service's name (RFC 6335 section 5.1).
pub const MOST_SERVICE: usize = 15;

/// The longest that a race may take, and that standard input is waited for after the remote's end, in milliseconds.
pub const MOST_WAIT: u32 = 3_600_000;

/// The milliseconds of a second, and the greatest number of a time.
pub const SECOND: u64 = 1_000;

pub const MOST_COUNT: u64 = 4_000_000_000;

/// A `--timeout` without a unit that is below it may be meant as seconds.
pub const LEAST_TIMEOUT: u64 = 100;

/// The most files of a line: more than any system takes.
pub const MOST_FILES: usize = 4_294_967_296;

/// The fewest and the most columns of a picture, and those of one where a terminal's aren't known.
pub const LEAST_WIDTH: u16 = 40;

pub const MOST_WIDTH: u16 = 1_000;

pub const DEFAULT_WIDTH: u16 = 80;

/// The most sessions of a proxy at once, its most records, and the longest that an idle tunnel may last, in
/// milliseconds.
pub const MOST_SESSIONS: u32 = 100_000;

pub const MOST_RECORDS: u32 = 100_000_000;

pub const MOST_IDLE: u64 = 1_000_000_000;

/// The most milliseconds between the starts of two probes, and the most rounds of probes.
pub const MOST_PACE: u32 = 5_000;

pub const MOST_ROUNDS: u32 = 1_000_000;
