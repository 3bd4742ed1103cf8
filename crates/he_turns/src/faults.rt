// The errors of connecting and of tickers.

use thiserror::Error;

/// Why an address has no connection.
#[derive(Clone, Copy, Debug, PartialEq, Eq, Error)]
pub enum AttemptFault {
    /// The attempt could not begin.
    #[error("the attempt could not begin")]
    Begin,
    /// The attempt began and failed.
    #[error("the attempt failed")]
    Failed,
}

/// Why a ticker cannot wake the task.
#[derive(Clone, Copy, Debug, PartialEq, Eq, Error)]
pub enum TickFault {
    /// An allocation failed.
    #[error("out of memory")]
    Memory,
    /// The clock is lost: no later tick can be waited for.
    #[error("the clock is lost")]
    Lost,
}

/// Why a race gives no result.
#[derive(Clone, Copy, Debug, PartialEq, Eq, Error)]
pub enum RaceFault {
    /// An allocation failed, in the race or in its ticker.
    #[error("out of memory")]
    Memory,
    /// The ticker reported that its clock is lost.
    #[error("the clock is lost")]
    Clock,
    /// The race has given its result already.
    #[error("the race is over")]
    Over,
}
