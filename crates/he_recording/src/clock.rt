// The system's time.

use he_record::Moment;
use jiff::Timestamp;
use jiff::tz::TimeZone;
use std::time::Clock;

/// The current time in UTC, to the millisecond. None if the clock fails, or is outside the years 0 to 9999.
pub fn moment_now<R: Clock>(rt: &R) -> Option<Moment> {
    let now = TimeZone::UTC.to_datetime(Timestamp::now(rt).ok()?);
    Some(Moment {
        year: u16::try_from(now.year()).ok()?,
        month: u8::try_from(now.month()).ok()?,
        day: u8::try_from(now.day()).ok()?,
        hour: u8::try_from(now.hour()).ok()?,
        minute: u8::try_from(now.minute()).ok()?,
        second: u8::try_from(now.second()).ok()?,
        millisecond: u16::try_from(now.millisecond()).ok()?,
    })
}
