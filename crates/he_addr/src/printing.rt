// Texts of addresses, written into a buffer from its end to its front.

ghost use Rattle.std.specs.Prelude.{◌≡◌, ◌+◌, ◌-◌, ◌*◌, ◌/◌, ◌%◌, ◌^◌, ◌<◌, ◌≤◌, ◌++◌, ◌∷◌, [], length, false, decimal};
ghost use Rattle.std.specs.Fmt.{digit_glyph};
ghost use Rattle.he_addr.specs.Prepending.{Prepends};
ghost use Rattle.he_addr.specs.Printed.{dotted, groups_of, hex, joined};
ghost use Rattle.he_addr.specs.Printing.{longest, printed, printed_v6, source_text};

use crate::ip::Ip;
use crate::prepending::prepend_byte;
use itoa::write_digits;

/// The maximum length of the text of an address, in bytes.
pub const ADDRESS_LEN: usize = 39;

/// The maximum length of the text of a prefix or a source, in bytes: an address, `/` and three digits.
pub const PREFIX_LEN: usize = 43;

const COLON: u8 = b':';

const DOT: u8 = b'.';

pub(crate) const SLASH: u8 = b'/';

// The number of groups of an IPv6 address.
const GROUPS: usize = 8;

// The maximum number of digits of a group.
const GROUP_DIGITS: usize = 4;

// The maximum number of bytes of a group in a text, with the colon after it.
const GROUP_LEN: usize = 5;

// The maximum number of digits of a number up to 255.
const BYTE_DIGITS: usize = 3;

// A run of consecutive zero groups.
#[derive(Clone, Copy)]
struct ZeroGroups {
    start: usize,
    len: usize,
}

fn group(number: u128, place: u32) -> u16
    requires { place < 8 }
    ensures { result ≡ number / 2 ^ (16 * place) % 65536 }
{
    (number >> (16 * place) & 0xffff) as u16
}

fn groups(number: u128) -> [u16; GROUPS]
    ensures { result ≡ groups_of number }
{
    [
        group(number, 7),
        group(number, 6),
        group(number, 5),
        group(number, 4),
        group(number, 3),
        group(number, 2),
        group(number, 1),
        group(number, 0),
    ]
}

// The first of the longest runs of zero groups.
fn longest_run(groups: &[u16; GROUPS]) -> ZeroGroups
    ensures longest { result ≡ longest groups.now }
    ensures within { result.start + result.len ≤ GROUPS }
{
    let mut best = ZeroGroups {
        start: GROUPS,
        len: 0,
    };
    let mut len = 0;
    for start in (0..GROUPS).rev() {
        len = if groups[start] == 0 { len + 1 } else { 0 };
        if len >= best.len {
            best = ZeroGroups { start, len };
        }
    }
    best
}

fn digit(value: u16) -> u8
    requires { value < 16 }
    ensures { result ≡ digit_glyph false value }
{
    if value < 10 {
        b'0' + value as u8
    } else {
        b'a' + (value - 10) as u8
    }
}

// Writes the last digit first, then those before it.
fn prepend_group(group: u16, buffer: &mut [u8], end: usize) -> usize
    requires { (length (hex group) ≤ end) × (end ≤ length buffer.old) }
    ensures { Prepends buffer.old end buffer.new result (hex group) }
{
    let start = prepend_byte(digit(group % 16), buffer, end);
    if group < 16 {
        return start;
    }
    prepend_group(group / 16, buffer, start)
}

// The groups, joined by colons.
fn prepend_groups(groups: &[u16], buffer: &mut [u8], end: usize) -> usize
    requires { (GROUP_LEN * length groups.now - 1 ≤ end) × (end ≤ length buffer.old) }
    ensures joined { Prepends buffer.old end buffer.new result (joined groups.now) }
    ensures near { end ≤ result + (GROUP_LEN * length groups.now - 1) }
{
    let mut start = end;
    for place in (0..groups.len()).rev() {
        if place + 1 < groups.len() {
            start = prepend_byte(COLON, buffer, start);
        }
        start = prepend_group(groups[place], buffer, start);
    }
    start
}

// The text of the IPv6 address with this number.
#[tactic(auto, unfolding(crate::specs::Printing::printed_v6))]
fn prepend_v6(number: u128, buffer: &mut [u8], end: usize) -> usize
    requires { (ADDRESS_LEN ≤ end) × (end ≤ length buffer.old) }
    ensures printed { Prepends buffer.old end buffer.new result (printed_v6 number) }
    ensures near { end ≤ result + ADDRESS_LEN }
{
    let groups = groups(number);
    let run = longest_run(&groups);
    if run.len < 2 {
        return prepend_groups(&groups, buffer, end);
    }
    let behind = prepend_groups(&groups[run.start + run.len..], buffer, end);
    let second = prepend_byte(COLON, buffer, behind);
    let first = prepend_byte(COLON, buffer, second);
    prepend_groups(&groups[..run.start], buffer, first)
}

// A number up to 255 in decimal.
fn prepend_small(byte: u8, buffer: &mut [u8], end: usize) -> usize
    requires { (BYTE_DIGITS ≤ end) × (end ≤ length buffer.old) }
    ensures written { Prepends buffer.old end buffer.new result (decimal byte) }
    ensures near { end ≤ result + BYTE_DIGITS }
{
    write_digits(u64::from(byte), buffer, end)
}

// The text of the IPv4 address with this number.
fn prepend_v4(number: u32, buffer: &mut [u8], end: usize) -> usize
    requires { (ADDRESS_LEN ≤ end) × (end ≤ length buffer.old) }
    ensures printed { Prepends buffer.old end buffer.new result (dotted number) }
    ensures near { end ≤ result + ADDRESS_LEN }
{
    let [first, second, third, fourth] = number.to_be_bytes();
    let start = prepend_small(fourth, buffer, end);
    let start = prepend_dotted(third, buffer, start);
    let start = prepend_dotted(second, buffer, start);
    prepend_dotted(first, buffer, start)
}

// A number up to 255 and the dot after it.
fn prepend_dotted(byte: u8, buffer: &mut [u8], end: usize) -> usize
    requires { (BYTE_DIGITS < end) × (end ≤ length buffer.old) }
    ensures written { Prepends buffer.old end buffer.new result (decimal byte ++ 46 ∷ []) }
    ensures near { end ≤ result + (BYTE_DIGITS + 1) }
{
    let dot = prepend_byte(DOT, buffer, end);
    prepend_small(byte, buffer, dot)
}

/// Puts the text of the address (RFC 5952 section 4), as [`write_ip`](crate::write_ip) appends it, before the text
/// that begins at `end` in the buffer, and returns the new start of the text. The buffer must have room for
/// [`ADDRESS_LEN`] bytes.
pub fn prepend_ip(ip: Ip, buffer: &mut [u8], end: usize) -> usize
    requires { (ADDRESS_LEN ≤ end) × (end ≤ length buffer.old) }
    ensures written { Prepends buffer.old end buffer.new result (printed ip) }
    ensures near { end ≤ result + ADDRESS_LEN }
{
    match ip {
        Ip::V4(number) => prepend_v4(number, buffer, end),
        Ip::V6(number) => prepend_v6(number, buffer, end),
    }
}

// The text of an address and a prefix length.
pub(crate) fn prepend_source(ip: Ip, len: u8, buffer: &mut [u8], end: usize) -> usize
    requires { (PREFIX_LEN ≤ end) × (end ≤ length buffer.old) }
    ensures { Prepends buffer.old end buffer.new result (source_text ip len) }
{
    let digits = prepend_small(len, buffer, end);
    let slash = prepend_byte(SLASH, buffer, digits);
    prepend_ip(ip, buffer, slash)
}
