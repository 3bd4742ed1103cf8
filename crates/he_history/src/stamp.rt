//! Times, in UTC.

use he_addr::Memory;
use he_record::Moment;
use jiff::Timestamp;
use std::alloc::Global;
use std::time::Clock;

/// The current time as in RFC 3339, with milliseconds: `2026-11-26T16:34:40.123Z`. None if the clock fails.
pub fn stamp_now<R: Clock>(rt: &R, alloc: Global) -> Option<String> {
    let now = Timestamp::now(rt).ok()?;
    format!(in alloc; "{now:.3}").ok()
}

/// The time as in RFC 3339, with milliseconds, as from [`stamp_now`].
///
/// # Errors
///
/// `Memory` if an allocation fails.
pub fn stamp_of(alloc: Global, at: Moment) -> Result<String, Memory> {
    let mut stamp = String::new(alloc);
    for byte in at.text() {
        stamp.push(char::from(byte))?;
    }
    Ok(stamp)
}

/// Whole seconds since 1970, by the system clock. None if the clock fails, or is before 1970.
pub fn second_now<R: Clock>(rt: &R) -> Option<u64> {
    u64::try_from(Timestamp::now(rt).ok()?.as_second()).ok()
}
