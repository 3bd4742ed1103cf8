// The bound of ticks, named in one place.

/// The maximum tick that is passed to a poll of a trial or an attempt, to a connector or a ticker: twice the maximum
/// limit of a race, plus one.
pub const MAX_POLL_TICK: u64 = 7_200_001;
