//! The times that options have: `5s`, `500ms`, or a number alone, in the unit of its option.
ghost use Rattle.std.specs.Prelude.{◌≡◌, ◌≤◌, IfOk, IfSome};
ghost use Rattle.clap.specs.Matches.{first_value, found_of};
ghost use Rattle.he_addr.specs.Reading.{number_in};
ghost use Rattle.he_options.specs.Times.{scaled, time_in, time_of};
ghost use Rattle.he_options.specs.declared.limits.TheConstants.{SECOND};

use crate::limits::{LEAST_TIMEOUT, MOST_COUNT, SECOND};
use crate::refusal::OptionFault;
use clap::ArgMatches;
use he_addr::read_number;

const TIMEOUT: &str = "--timeout";

/// The milliseconds, 1 to the most, that an option has, of which a number alone counts units of `unit` milliseconds;
/// None where the line has no such option.
///
/// # Errors
///
/// This fault where it has no such time.
pub fn time_of(
    matches: &ArgMatches<'_>,
    id: &str,
    unit: u64,
    most: u64,
    fault: OptionFault,
) -> Result<Option<u64>, OptionFault>
    requires { unit ≤ SECOND }
    ensures is { IfOk result (λ time. time ≡ time_of unit (first_value (found_of matches.now) id.now)) }
    ensures range { IfOk result (λ time. IfSome time (λ count. count ≤ most)) }
{
    let Some(text) = matches.get_str(id) else {
        return Ok(None);
    };
    match time_in(text.as_bytes(), unit) {
        Some(time) if 0 < time && time <= most => Ok(Some(time)),
        _ => Err(fault),
    }
}

fn time_in(text: &[u8], unit: u64) -> Option<u64>
    requires { unit ≤ SECOND }
    ensures { result ≡ time_in unit text.now }
{
    if let Some(count) = text.strip_suffix(b"ms".as_slice()) {
        return scaled(count, 1);
    }
    if let Some(count) = text.strip_suffix(b"s".as_slice()) {
        return scaled(count, SECOND);
    }
    scaled(text, unit)
}

fn scaled(text: &[u8], unit: u64) -> Option<u64>
    requires { unit ≤ SECOND }
    ensures { result ≡ scaled unit (number_in text.now) }
{
    match read_number(text) {
        Some(count) if count <= MOST_COUNT => Some(count * unit),
        _ => None,
    }
}

/// The number of a `--timeout` that is below 100 and has no unit, of a line that is no refusal. It is milliseconds,
/// and may be meant as seconds.
pub fn short_timeout<'a>(words: &[&'a str]) -> Option<&'a str> {
    let mut is_next = false;
    for word in words {
        if *word == "--" {
            return None;
        }
        let value = if is_next {
            Some(*word)
        } else {
            word.strip_prefix(TIMEOUT)
                .and_then(|rest| rest.strip_prefix("="))
        };
        if let Some(value) = value {
            return Some(value).filter(|value| is_short(value.as_bytes()));
        }
        is_next = *word == TIMEOUT;
    }
    None
}

fn is_short(text: &[u8]) -> bool {
    matches!(read_number(text), Some(number) if number < LEAST_TIMEOUT)
}
