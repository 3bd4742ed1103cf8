// A fast reader of IPv6 texts: groups joined by colons, with `::` at most once. It agrees with the standard library's
// reader, which reads every text that this one refuses, such as one that ends in an IPv4 text.

ghost use Rattle.std.specs.Prelude.{◌≡◌, ◌<◌, ◌≤◌, ◌∷◌, IfSome, Some, length, slice_index, take};
ghost use Rattle.std.specs.Char.{digit_value};
ghost use Rattle.std.specs.Net.Grammar.{IsGroup};
ghost use Rattle.he_addr.specs.Reading.{v6_in};
ghost use Rattle.he_addr.specs.Sides.{IsFront, IsSide};

const COLON: u8 = b':';

const GROUPS: u32 = 8;

const GROUP_BITS: u32 = 16;

// The value of each byte as a hexadecimal digit, 16 for every other byte. One look-up replaces comparisons with the
// three ranges of digits, all of which a colon would have to fail.
static VALUES: [u8; 256] = [
    16, 16, 16, 16, 16, 16, 16, 16, 16, 16, 16, 16, 16, 16, 16, 16, 16, 16, 16, 16, 16, 16, 16, 16,
    16, 16, 16, 16, 16, 16, 16, 16, 16, 16, 16, 16, 16, 16, 16, 16, 16, 16, 16, 16, 16, 16, 16, 16,
    0, 1, 2, 3, 4, 5, 6, 7, 8, 9, 16, 16, 16, 16, 16, 16, 16, 10, 11, 12, 13, 14, 15, 16, 16, 16,
    16, 16, 16, 16, 16, 16, 16, 16, 16, 16, 16, 16, 16, 16, 16, 16, 16, 16, 16, 16, 16, 16, 16, 10,
    11, 12, 13, 14, 15, 16, 16, 16, 16, 16, 16, 16, 16, 16, 16, 16, 16, 16, 16, 16, 16, 16, 16, 16,
    16, 16, 16, 16, 16, 16, 16, 16, 16, 16, 16, 16, 16, 16, 16, 16, 16, 16, 16, 16, 16, 16, 16, 16,
    16, 16, 16, 16, 16, 16, 16, 16, 16, 16, 16, 16, 16, 16, 16, 16, 16, 16, 16, 16, 16, 16, 16, 16,
    16, 16, 16, 16, 16, 16, 16, 16, 16, 16, 16, 16, 16, 16, 16, 16, 16, 16, 16, 16, 16, 16, 16, 16,
    16, 16, 16, 16, 16, 16, 16, 16, 16, 16, 16, 16, 16, 16, 16, 16, 16, 16, 16, 16, 16, 16, 16, 16,
    16, 16, 16, 16, 16, 16, 16, 16, 16, 16, 16, 16, 16, 16, 16, 16, 16, 16, 16, 16, 16, 16, 16, 16,
    16, 16, 16, 16, 16, 16, 16, 16, 16, 16, 16, 16, 16, 16,
];

// The value of a hexadecimal digit.
fn digit(byte: u8) -> Option<u32>
    ensures { IfSome result (λ value. (value < 16) × (digit_value byte ≡ value)) }
{
    let value = VALUES[byte as usize];
    if value < 16 {
        Some(u32::from(value))
    } else {
        None
    }
}

// The value of the hexadecimal digit at this place.
fn digit_at(text: &[u8], at: usize) -> Option<u32>
    ensures { IfSome result
        (λ value. (at < length text.now) × (value < 16) × (digit_value (slice_index text.now at) ≡ value)) }
{
    if at < text.len() {
        digit(text[at])
    } else {
        None
    }
}

// The value of the first one to four hexadecimal digits, and their number. A fifth digit is left unread.
fn digits(text: &[u8]) -> Option<(u32, usize)>
    ensures { IfSome result
        (λ read. (read.0 < 65536) × (read.1 ≤ length text.now) × IsGroup (take read.1 text.now) read.0) }
{
    let one = digit_at(text, 0)?;
    let Some(second) = digit_at(text, 1) else {
        return Some((one, 1));
    };
    let two = one * 16 + second;
    let Some(third) = digit_at(text, 2) else {
        return Some((two, 2));
    };
    let three = two * 16 + third;
    let Some(fourth) = digit_at(text, 3) else {
        return Some((three, 3));
    };
    Some((three * 16 + fourth, 4))
}

// The value of the first group, and the text after it.
fn group(text: &[u8]) -> Option<(u32, &[u8])>
    ensures { IfSome result (λ read. IsFront text.now read.1.now read.0) }
{
    let (value, len) = digits(text)?;
    Some((value, &text[len..]))
}

// Whether no group follows: the text ends here, or `::` comes next.
fn ends(text: &[u8]) -> bool {
    matches!(text, [] | [COLON, COLON, ..])
}

// The text after a leading colon.
fn behind_colon(text: &[u8]) -> Option<&[u8]>
    ensures { IfSome result (λ rest. text.now ≡ 58 ∷ rest.now) }
{
    match text {
        [COLON, rest @ ..] => Some(rest),
        _ => None,
    }
}

// Some groups of a text: their value, the first group the most significant, and their count.
#[derive(Clone, Copy)]
struct Side {
    number: u128,
    count: u32,
}

// The groups at the front, one to eight, and the text after them. A group is 16 bits.
fn groups(text: &[u8]) -> Option<(Side, &[u8])>
    ensures { IfSome result (λ read. IsSide text.now read.1.now read.0.number read.0.count) }
{
    let mut number = 0;
    let mut rest = text;
    for count in 0..GROUPS {
        let (value, behind) = group(rest)?;
        number = number * 65536 + u128::from(value);
        if ends(behind) {
            return Some((
                Side {
                    number,
                    count: count + 1,
                },
                behind,
            ));
        }
        rest = behind_colon(behind)?;
    }
    None
}

// The groups on one side of `::`, or all groups of a text without it; there may be none.
fn read_side(text: &[u8]) -> Option<(Side, &[u8])>
    ensures { IfSome result (λ read. IsSide text.now read.1.now read.0.number read.0.count) }
{
    if ends(text) {
        Some((
            Side {
                number: 0,
                count: 0,
            },
            text,
        ))
    } else {
        groups(text)
    }
}

// Reads an IPv6 text as a number.
pub(crate) fn read_groups(text: &[u8]) -> Option<u128>
    ensures { IfSome result (λ n. v6_in text.now ≡ Some n) }
{
    let (front, rest) = read_side(text)?;
    if front.count == GROUPS && rest.is_empty() {
        return Some(front.number);
    }
    let (back, rest) = read_side(behind_colon(behind_colon(rest)?)?)?;
    if !rest.is_empty() || front.count + back.count >= GROUPS {
        return None;
    }
    Some(((front.number << GROUP_BITS) << (GROUP_BITS * (GROUPS - 1 - front.count))) + back.number)
}
