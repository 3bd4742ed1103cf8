//! The request of a round of probes.

use he_setup::ConnectRequest;

/// The most milliseconds between the starts of two attempts, and the most that an attempt has.
pub const MAX_PACE: u64 = 5_000;

pub const MAX_TIMEOUT: u64 = 3_600_000;

/// A request for a round of probes.
#[derive(Clone, Copy)]
pub struct RoundRequest<'a> {
    /// The host, its look-up, and the settings of the race that the round is judged by. Their limit is at most the
    /// timeout.
    pub connect: ConnectRequest<'a>,
    /// The milliseconds between the starts of two attempts, at most `MAX_PACE`.
    pub pace: u64,
    /// The milliseconds that an attempt has, at most `MAX_TIMEOUT`.
    pub timeout: u64,
}
