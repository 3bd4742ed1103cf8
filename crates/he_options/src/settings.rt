//! The settings of a race, as a line gives them.
ghost use Rattle.std.specs.Prelude.{◌≡◌, All, IfOk, Ok, codes, map, true};
ghost use Rattle.clap.specs.Matches.{first_value, found_of};
ghost use Rattle.he_options.specs.Times.{time_of};
ghost use Rattle.he_options.specs.Words.{AsksChanges, AsksSettings, connect_defaults, connect_settings};
ghost use Rattle.he_options.specs.Words.{is_setting, last_number, number_for, values_of};

use crate::arguments::{value, values_of};
use crate::limits::MOST_WAIT;
use crate::refusal::OptionFault;
use crate::time::time_of;
use clap::{Arg, ArgAction, ArgMatches};
use he_addr::read_number;
use he_timeline::limits::{
    DEFAULT_ATTEMPT, DEFAULT_COUNT, DEFAULT_LIMIT, DEFAULT_RESOLUTION, MIN_FLOOR,
};
use he_timeline::{Changes, Range, Settings};
use std::alloc::Global;

const TIMEOUT_HELP: &str = "Give up after MS milliseconds without a connection,\n\
1 to 3600000, or as 5s";

const SET_HELP: &str = "Override a setting in every race; repeatable.\n\
NAME is attempt, resolution, count, limit or floor";

/// The option that says how long a race may take.
pub fn timeout<'a>(alloc: Global) -> Arg<'a> {
    value(alloc, "timeout", "MS", TIMEOUT_HELP)
}

/// The option that gives settings of a race, each by its name.
pub fn set<'a>(alloc: Global) -> Arg<'a> {
    value(alloc, "set", "NAME=N", SET_HELP).action(ArgAction::Append)
}

/// The settings that the line gives.
///
/// # Errors
///
/// `Form`, `List`, `Range`, `Timeout` where one is no setting or out of its range.
pub fn changes_of(matches: &ArgMatches<'_>) -> Result<Changes, OptionFault>
    ensures { IfOk result (AsksChanges (found_of matches.now)) }
{
    let timeout = timeout_of(matches)?;
    changes_in(values_of(matches, "set"), timeout)
}

/// The settings of these texts of `--set`, and of `--timeout`. Of two for one name the later counts, and `--set
/// limit=N` before `--timeout`.
///
/// # Errors
///
/// `Form`, `List`, `Range`.
pub fn changes_in(texts: &[&str], timeout: Option<u64>) -> Result<Changes, OptionFault>
    ensures { IfOk result (AsksSettings (map (λ text. text.now) texts.now) timeout) }
{
    if !are_settings(texts) {
        return Err(form_fault(texts));
    }
    Changes::new(
        last_number(b"resolution=", texts),
        last_number(b"attempt=", texts),
        last_number(b"count=", texts),
        last_number(b"limit=", texts).or(timeout),
        last_number(b"floor=", texts),
    )
    .map_err(OptionFault::Range)
}

// The milliseconds of `--timeout`.
fn timeout_of(matches: &ArgMatches<'_>) -> Result<Option<u64>, OptionFault>
    ensures { IfOk result (λ timeout. timeout ≡ time_of 1 (first_value (found_of matches.now) (codes "timeout"))) }
{
    time_of(
        matches,
        "timeout",
        1,
        u64::from(MOST_WAIT),
        OptionFault::Timeout,
    )
}

// Whether each of the texts gives a setting a number.
fn are_settings(texts: &[&str]) -> bool
    ensures { result ≡ true → All (λ text. is_setting text.now ≡ true) texts.now }
{
    for text in texts {
        if !is_setting(text.as_bytes()) {
            return false;
        }
    }
    true
}

// Why texts of which one gives no setting a number are refused.
fn form_fault(texts: &[&str]) -> OptionFault {
    if texts.iter().any(|text| is_list(text)) {
        OptionFault::List
    } else {
        OptionFault::Form
    }
}

// Whether the text gives a setting several numbers, as `attempt=100,150`.
fn is_list(text: &str) -> bool {
    match text.split_once(',') {
        Some((first, _)) => is_setting(first.as_bytes()),
        None => false,
    }
}

fn is_setting(text: &[u8]) -> bool
    ensures { result ≡ is_setting text.now }
{
    number_for(b"resolution=", text).is_some()
        || number_for(b"attempt=", text).is_some()
        || number_for(b"count=", text).is_some()
        || number_for(b"limit=", text).is_some()
        || number_for(b"floor=", text).is_some()
}

// The number that the last of the texts which gives the setting one gives it.
fn last_number(name: &[u8], texts: &[&str]) -> Option<u64>
    ensures { result ≡ last_number name.now (map (λ text. text.now) texts.now) }
{
    let mut last = None;
    for text in texts {
        last = number_for(name, text.as_bytes()).or(last);
    }
    last
}

// The number that the text gives the setting, as `attempt=100`.
fn number_for(name: &[u8], text: &[u8]) -> Option<u64>
    ensures { result ≡ number_for name.now text.now }
{
    read_number(text.strip_prefix(name)?)
}

/// The settings of `he connect`: where none is given that of RFC 8305 section 8, and the least floor.
pub fn settings_of(changes: Changes) -> Settings
    ensures { result ≡ connect_settings changes }
{
    changes.apply(connect_defaults().unwrap())
}

// These are in their ranges.
fn connect_defaults() -> Result<Settings, Range>
    ensures { result ≡ Ok connect_defaults }
{
    Settings::new(
        DEFAULT_RESOLUTION,
        DEFAULT_ATTEMPT,
        DEFAULT_COUNT,
        DEFAULT_LIMIT,
    )?
    .with_floor(MIN_FLOOR)
}
