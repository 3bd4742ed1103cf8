//! Numbers that older software reads as an IPv4 address (inet_aton(3)).

ghost use Rattle.std.specs.Prelude.{◌≡◌, ◌<◌, ◌≤◌, ◌==◌, [], IfOk, IfSome};
ghost use Rattle.std.specs.Char.{is_ascii_digit, is_ascii_hexdigit};
ghost use Rattle.std.specs.List.{list_all, slice_split};
ghost use Rattle.he_names.specs.Conf.{last_of};
ghost use Rattle.he_names.specs.Fields.{texts};
ghost use Rattle.he_names.specs.Numeric.{address_of, body_of, digits_after, ends_in_number, is_hexadecimal, is_number, labels_of, numeric_address, part_below, part_in};

use he_addr::Memory;
use std::alloc::Allocator;

const DOT: u8 = b'.';

const OCTET_END: u32 = 0x100;

const OCTAL: u32 = 8;

const DECIMAL: u32 = 10;

const HEXADECIMAL: u32 = 16;

// The name without a final dot.
pub(crate) fn body_of(name: &[u8]) -> &[u8]
    ensures { result.now ≡ body_of name.now }
{
    match name {
        [] => name,
        _ if name[name.len() - 1] == DOT => &name[..name.len() - 1],
        _ => name,
    }
}

// The labels of a name.
pub(crate) fn labels<A: Allocator>(alloc: A, name: &[u8]) -> Result<Vec<&[u8], A>, Memory>
    ensures { IfOk result (λ labels. texts labels.items ≡ labels_of name.now) }
{
    parts(alloc, body_of(name))
}

// The parts of a text between its dots.
fn parts<A: Allocator>(alloc: A, text: &[u8]) -> Result<Vec<&[u8], A>, Memory>
    ensures { IfOk result (λ parts. texts parts.items ≡ slice_split (λ byte. byte == 46) text.now) }
{
    text.split(|byte| *byte == DOT).collect(alloc)
}

// Whether the last label is a number.
pub(crate) fn ends_in_number(labels: &[&[u8]]) -> bool
    ensures { result ≡ is_number (last_of [] (texts labels.now)) }
{
    match labels {
        [.., last] => is_number(last),
        [] => false,
    }
}

fn is_number(label: &[u8]) -> bool
    ensures { result ≡ is_number label.now }
{
    (!label.is_empty() && are_digits(label))
        || (is_hexadecimal(label) && are_hex_digits(&label[2..]))
}

pub(crate) fn are_digits(label: &[u8]) -> bool
    ensures { result ≡ list_all is_ascii_digit label.now }
{
    label.iter().all(|byte| byte.is_ascii_digit())
}

fn are_hex_digits(label: &[u8]) -> bool
    ensures { result ≡ list_all is_ascii_hexdigit label.now }
{
    label.iter().all(|byte| byte.is_ascii_hexdigit())
}

fn is_hexadecimal(part: &[u8]) -> bool
    ensures { result ≡ is_hexadecimal part.now }
{
    part.len() >= 2 && part[0] == b'0' && part[1] == b'x'
}

// The number that the digits write; None if a byte is no digit of the radix, or if the number doesn't fit in 32 bits.
fn number_of(digits: &[u8], radix: u32) -> Option<u32>
    requires least { 2 ≤ radix }
    requires most { radix ≤ 16 }
    ensures { result ≡ digits_after radix 0 digits.now }
{
    let mut value = 0u32;
    for byte in digits {
        let digit = char::from(*byte).to_digit(radix)?;
        value = value.checked_mul(radix)?.checked_add(digit)?;
    }
    Some(value)
}

#[tactic(auto, unfolding(crate::specs::Numeric::part_in))]
fn read_part(part: &[u8]) -> Option<u32>
    ensures { result ≡ part_in part.now }
{
    if is_hexadecimal(part) {
        number_of(&part[2..], HEXADECIMAL)
    } else if part.is_empty() {
        None
    } else if part[0] == b'0' {
        number_of(part, OCTAL)
    } else {
        number_of(part, DECIMAL)
    }
}

#[tactic(auto, unfolding(crate::specs::Numeric::part_below))]
fn part_below(part: &[u8], limit: u64) -> Option<u32>
    ensures value { result ≡ part_below limit part.now }
    ensures below { IfSome result (λ number. number < limit) }
{
    let number = read_part(part)?;
    if u64::from(number) < limit {
        Some(number)
    } else {
        None
    }
}

fn octet(part: &[u8]) -> Option<u32>
    ensures value { result ≡ part_below 256 part.now }
    ensures below { IfSome result (λ number. number < 256) }
{
    part_below(part, 256)
}

// The IPv4 address of one to four parts.
#[tactic(auto, unfolding(crate::specs::Numeric::address_of))]
pub(crate) fn address_of(parts: &[&[u8]]) -> Option<u32>
    ensures { result ≡ address_of (texts parts.now) }
{
    match parts {
        [a] => part_below(a, 1 << 32),
        [a, b] => Some(octet(a)? * 0x100_0000 + part_below(b, 1 << 24)?),
        [a, b, c] => {
            Some(octet(a)? * 0x100_0000 + octet(b)? * 0x1_0000 + part_below(c, 1 << 16)?)
        }
        [a, b, c, d] => {
            Some(octet(a)? * 0x100_0000 + octet(b)? * 0x1_0000 + octet(c)? * 0x100 + octet(d)?)
        }
        _ => None,
    }
}
