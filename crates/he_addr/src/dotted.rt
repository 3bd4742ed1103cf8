// A fast reader of IPv4 texts. It agrees with the standard library's reader, which reads every text that this one
// refuses.

ghost use Rattle.std.specs.Prelude.{◌≡◌, ℕ, ◌+◌, ◌<◌, ◌++◌, ◌∷◌, [], IfSome, decimal};
ghost use Rattle.he_addr.specs.Reading.{v4_in};

const DOT: u8 = b'.';

// The value of a decimal digit. One comparison rejects every other byte.
fn digit(byte: u8) -> Option<u32>
    ensures { IfSome result (λ value. (value < 10) × (byte ≡ 48 + value)) }
{
    let value = byte.wrapping_sub(b'0');
    if value < 10 {
        Some(u32::from(value))
    } else {
        None
    }
}

// A number of one digit.
fn one(a: u8) -> Option<u8>
    ensures { IfSome result (λ n. (n < 256) × (a ∷ [] ≡ decimal n)) }
{
    Some(digit(a)? as u8)
}

// A number of two digits.
fn two(a: u8, b: u8) -> Option<u8>
    ensures { IfSome result (λ n. (n < 256) × (a ∷ b ∷ [] ≡ decimal n)) }
{
    let (first, second) = (digit(a)?, digit(b)?);
    if first == 0 {
        None
    } else {
        Some((first * 10 + second) as u8)
    }
}

// A number of three digits, up to 255.
fn three(a: u8, b: u8, c: u8) -> Option<u8>
    ensures { IfSome result (λ n. (n < 256) × (a ∷ b ∷ c ∷ [] ≡ decimal n)) }
{
    let (first, second, third) = (digit(a)?, digit(b)?, digit(c)?);
    let number = (first * 10 + second) * 10 + third;
    if first == 0 || number > 255 {
        None
    } else {
        Some(number as u8)
    }
}

// The number before the first dot, and the text after the dot. The match finds the dot first, so the number of digits
// is known before any is read.
fn octet(text: &[u8]) -> Option<(u8, &[u8])>
    ensures { IfSome result (λ read. (read.0 < 256) × (text.now ≡ decimal read.0 ++ 46 ∷ read.1.now)) }
{
    match text {
        [a, DOT, rest @ ..] => Some((one(*a)?, rest)),
        [a, b, DOT, rest @ ..] => Some((two(*a, *b)?, rest)),
        [a, b, c, DOT, rest @ ..] => Some((three(*a, *b, *c)?, rest)),
        _ => None,
    }
}

// Reads the whole text as one number.
fn last_octet(text: &[u8]) -> Option<u8>
    ensures { IfSome result (λ n. (n < 256) × (text.now ≡ decimal n)) }
{
    match text {
        [a] => one(*a),
        [a, b] => two(*a, *b),
        [a, b, c] => three(*a, *b, *c),
        _ => None,
    }
}

// Reads an IPv4 text as a number.
pub(crate) fn read_dotted(text: &[u8]) -> Option<u32>
    ensures { IfSome result (λ n. v4_in text.now ≡ Some n) }
{
    let (a, text) = octet(text)?;
    let (b, text) = octet(text)?;
    let (c, text) = octet(text)?;
    let d = last_octet(text)?;
    Some(u32::from_be_bytes([a, b, c, d]))
}
