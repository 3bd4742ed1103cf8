//! The hour in the name of a record.
ghost use Rattle.std.specs.Prelude.{◌≡◌, ◌≤◌, ◌++◌, length, OnOk};
ghost use Rattle.he_compare.specs.Hours.{digit, digit_at, fits, hour_in, hour_number, hour_of, hour_text, is_like, piece, pieces, two_at};

use he_addr::Memory;
use std::alloc::Allocator;

// The pattern of the directory of a day, and of the beginning of a record's name in it: `0` is any digit.
const DAY: &[u8] = b"0000-00-00";

const TIME: &[u8] = b"00-00-00.000-";

// The hour in the name of a record, as 2026112616.
pub(crate) fn hour_of(name: &str) -> Option<u64>
    ensures { result ≡ hour_of name.now }
{
    let count = piece_count(name);
    if count < 2 {
        return None;
    }
    hour_in(
        piece(name, count - 2).as_bytes(),
        piece(name, count - 1).as_bytes(),
    )
}

fn piece_count(name: &str) -> usize
    ensures { result ≡ length (pieces name.now) }
{
    name.split('/').count()
}

// The piece of this place between the slashes of a name.
fn piece(name: &str, place: usize) -> &str
    ensures { result.now ≡ piece name.now place }
{
    name.split('/').nth(place).unwrap_or("")
}

fn hour_in(day: &[u8], time: &[u8]) -> Option<u64>
    ensures { result ≡ hour_in day.now time.now }
{
    if day.len() == 10 && fits(DAY, day) && fits(TIME, time) {
        Some(hour_number(day, time))
    } else {
        None
    }
}

// Whether the text begins with the pattern.
fn fits(form: &[u8], text: &[u8]) -> bool
    ensures { result ≡ fits form.now text.now }
{
    for at in 0..form.len() {
        if at >= text.len() {
            return false;
        }
        if !is_like(form[at], text[at]) {
            return false;
        }
    }
    true
}

fn is_like(wanted: u8, byte: u8) -> bool
    ensures { result ≡ is_like wanted byte }
{
    if wanted == b'0' {
        b'0' <= byte && byte <= b'9'
    } else {
        byte == wanted
    }
}

// The digits of the day and of the hour as one number.
fn hour_number(day: &[u8], time: &[u8]) -> u64
    ensures { result ≡ hour_number day.now time.now }
{
    two_at(day, 0) * 100_000_000
        + two_at(day, 2) * 1_000_000
        + two_at(day, 5) * 10_000
        + two_at(day, 8) * 100
        + two_at(time, 0)
}

fn two_at(text: &[u8], place: usize) -> u64
    requires { place ≤ 8 }
    ensures is { result ≡ two_at text.now place }
    ensures most { result ≤ 99 }
{
    digit_at(text, place) * 10 + digit_at(text, place + 1)
}

fn digit_at(text: &[u8], place: usize) -> u64
    ensures is { result ≡ digit_at text.now place }
    ensures most { result ≤ 9 }
{
    let byte = text.get(place).copied().unwrap_or(b'0');
    u64::from(byte.saturating_sub(b'0')).min(9)
}

// Appends an hour, as `2026-11-26 16`.
pub(crate) fn push_hour<A: Allocator>(hour: u64, text: &mut Vec<u8, A>) -> Result<(), Memory>
    ensures { OnOk result (text.new.items ≡ text.old.items ++ hour_text hour) }
{
    text.extend_from_slice(&[
        digit(hour / 1_000_000_000),
        digit(hour / 100_000_000),
        digit(hour / 10_000_000),
        digit(hour / 1_000_000),
        b'-',
        digit(hour / 100_000),
        digit(hour / 10_000),
        b'-',
        digit(hour / 1_000),
        digit(hour / 100),
        b' ',
        digit(hour / 10),
        digit(hour),
    ])?;
    Ok(())
}

// The last digit of a number.
fn digit(number: u64) -> u8
    ensures { result ≡ digit number }
{
    b'0' + (number % 10) as u8
}
