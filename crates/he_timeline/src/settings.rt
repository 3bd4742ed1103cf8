// The settings of a race (RFC 8305 section 8).

ghost use Rattle.std.specs.Prelude.{◌≡◌, ◌≤◌};
ghost use Rattle.he_timeline.specs.Settings.{settings_of, with_floor, IsSettings};

use crate::limits::{
    MAX_ATTEMPT, MAX_COUNT, MAX_LIMIT, MAX_RESOLUTION, MIN_ATTEMPT, MIN_COUNT, MIN_FLOOR, MIN_LIMIT,
};
use std::marker::Model;
use thiserror::Error;

/// A setting that is out of its range: the first one.
#[derive(Clone, Copy, Debug, PartialEq, Eq, Error)]
pub enum Range {
    #[error("the resolution delay is out of range")]
    Resolution,
    #[error("the attempt delay is out of range")]
    Attempt,
    #[error("the first address family count is out of range")]
    Count,
    #[error("the limit is out of range")]
    Limit,
    #[error("the floor is out of range")]
    Floor,
}

/// The settings of a race, in ticks of one millisecond: Resolution Delay 0 to 1,000, Connection Attempt Delay 10 to
/// 2,000, First Address Family Count 1 to 8, limit 1 to 3,600,000, and an optional floor, 10 to the Connection
/// Attempt Delay (RFC 8305 section 8; the limit and the floor are this project's own).
#[derive(Clone, Copy, Debug, PartialEq, Eq)]
pub struct Settings {
    pub(crate) resolution: u64,
    pub(crate) attempt: u64,
    pub(crate) count: u64,
    pub(crate) limit: u64,
    pub(crate) floor: Option<u64>,
}

impl Model for Settings {
    ghost use Rattle.he_timeline.specs.Settings.{SettingValues, IsSettings};

    ghost Value = { SettingValues };

    ghost view = { λ s. record { resolution = s.resolution; attempt = s.attempt; count = s.count; limit = s.limit; floor = s.floor } };

    ghost invariant = { λ s. IsSettings (record { resolution = s.resolution; attempt = s.attempt; count = s.count; limit = s.limit; floor = s.floor }) };

    ghost inverse = { λ v. record { resolution = v.resolution; attempt = v.attempt; count = v.count; limit = v.limit; floor = v.floor } };
}

impl Settings {
    /// The settings with these values and without a floor. The error is the first value that is out of its range, in
    /// the order of the arguments.
    pub fn new(resolution: u64, attempt: u64, count: u64, limit: u64) -> Result<Settings, Range>
        ensures { result ≡ settings_of resolution attempt count limit }
    {
        if resolution > MAX_RESOLUTION {
            return Err(Range::Resolution);
        }
        if attempt < MIN_ATTEMPT || attempt > MAX_ATTEMPT {
            return Err(Range::Attempt);
        }
        if count < MIN_COUNT || count > MAX_COUNT {
            return Err(Range::Count);
        }
        if limit < MIN_LIMIT || limit > MAX_LIMIT {
            return Err(Range::Limit);
        }
        Ok(Settings {
            resolution,
            attempt,
            count,
            limit,
            floor: None,
        })
    }

    /// The settings with this floor, in ticks; an error unless it is 10 to the Connection Attempt Delay. If all
    /// attempts so far have failed, the next one waits no longer than the floor after the last start (own).
    pub fn with_floor(self, floor: u64) -> Result<Settings, Range>
        ensures { result ≡ with_floor self floor }
    {
        if floor < MIN_FLOOR || floor > self.attempt {
            return Err(Range::Floor);
        }
        Ok(Settings {
            floor: Some(floor),
            ..self
        })
    }

    /// The Resolution Delay, in ticks.
    pub fn resolution(self) -> u64
        ensures value { result ≡ self.resolution }
        ensures range { IsSettings self }
    {
        self.resolution
    }

    /// The Connection Attempt Delay, in ticks.
    pub fn attempt(self) -> u64
        ensures value { result ≡ self.attempt }
        ensures range { IsSettings self }
    {
        self.attempt
    }

    /// The First Address Family Count.
    pub fn count(self) -> u64
        ensures value { result ≡ self.count }
        ensures range { IsSettings self }
    {
        self.count
    }

    /// The limit, in ticks: no attempt starts at or after it.
    pub fn limit(self) -> u64
        ensures value { result ≡ self.limit }
        ensures range { IsSettings self }
    {
        self.limit
    }

    /// The floor, in ticks: the least time between two starts if all attempts so far have failed. Without it, only
    /// the Connection Attempt Delay counts.
    pub fn floor(self) -> Option<u64>
        ensures value { result ≡ self.floor }
        ensures range { IsSettings self }
    {
        self.floor
    }
}
