// Settings that replace those of a race.

ghost use Rattle.std.specs.Prelude.{◌≡◌, min, option_map, None};
ghost use Rattle.he_timeline.specs.Changes.{changed_settings, changes_of, is_out};

use crate::limits::{
    MAX_ATTEMPT, MAX_COUNT, MAX_LIMIT, MAX_RESOLUTION, MIN_ATTEMPT, MIN_COUNT, MIN_FLOOR, MIN_LIMIT,
};
use crate::settings::{Range, Settings};
use std::marker::Model;

/// Settings that replace a race's own, in ticks of one millisecond; None keeps the race's own. Each is in the range
/// that [`Settings`] gives it.
#[derive(Clone, Copy, Debug, PartialEq, Eq)]
pub struct Changes {
    resolution: Option<u64>,
    attempt: Option<u64>,
    count: Option<u64>,
    limit: Option<u64>,
    floor: Option<u64>,
}

impl Model for Changes {
    ghost use Rattle.he_timeline.specs.Changes.{ChangeValues, IsChange};

    ghost Value = { ChangeValues };

    ghost view = { λ c. record { resolution = c.resolution; attempt = c.attempt; count = c.count; limit = c.limit; floor = c.floor } };

    ghost invariant = { λ c. IsChange (record { resolution = c.resolution; attempt = c.attempt; count = c.count; limit = c.limit; floor = c.floor }) };

    ghost inverse = { λ v. record { resolution = v.resolution; attempt = v.attempt; count = v.count; limit = v.limit; floor = v.floor } };
}

impl Changes {
    /// No changes: a race keeps all its settings.
    pub fn none() -> Changes
        ensures { result ≡ record { resolution = None; attempt = None; count = None; limit = None; floor = None } }
    {
        Changes {
            resolution: None,
            attempt: None,
            count: None,
            limit: None,
            floor: None,
        }
    }

    /// The changes to the given settings. The error is the first setting that is out of its range, in the order of
    /// the arguments: Resolution Delay, Connection Attempt Delay, First Address Family Count, limit and floor. A
    /// floor above a Connection Attempt Delay given with it is out of range.
    pub fn new(
        resolution: Option<u64>,
        attempt: Option<u64>,
        count: Option<u64>,
        limit: Option<u64>,
        floor: Option<u64>,
    ) -> Result<Changes, Range>
        ensures { result ≡ changes_of (record {
          resolution = resolution;
          attempt = attempt;
          count = count;
          limit =
              limit;
          floor = floor;
        }) }
    {
        if is_out(resolution, 0, MAX_RESOLUTION) {
            return Err(Range::Resolution);
        }
        if is_out(attempt, MIN_ATTEMPT, MAX_ATTEMPT) {
            return Err(Range::Attempt);
        }
        if is_out(count, MIN_COUNT, MAX_COUNT) {
            return Err(Range::Count);
        }
        if is_out(limit, MIN_LIMIT, MAX_LIMIT) {
            return Err(Range::Limit);
        }
        if is_out(floor, MIN_FLOOR, attempt.unwrap_or(MAX_ATTEMPT)) {
            return Err(Range::Floor);
        }
        Ok(Changes {
            resolution,
            attempt,
            count,
            limit,
            floor,
        })
    }

    /// The settings with the changes applied. A floor above the resulting Connection Attempt Delay is lowered to that
    /// delay, where it has no effect.
    pub fn apply(self, own: Settings) -> Settings
        ensures { result ≡ changed_settings self own }
    {
        let attempt = self.attempt.unwrap_or(own.attempt());
        Settings {
            resolution: self.resolution.unwrap_or(own.resolution()),
            attempt,
            count: self.count.unwrap_or(own.count()),
            limit: self.limit.unwrap_or(own.limit()),
            floor: at_most(self.floor.or(own.floor()), attempt),
        }
    }
}

fn is_out(given: Option<u64>, least: u64, most: u64) -> bool
    ensures { result ≡ is_out given least most }
{
    match given {
        Some(given) => given < least || given > most,
        None => false,
    }
}

fn at_most(floor: Option<u64>, most: u64) -> Option<u64>
    ensures { result ≡ option_map (min most) floor }
{
    match floor {
        Some(floor) => Some(floor.min(most)),
        None => None,
    }
}
