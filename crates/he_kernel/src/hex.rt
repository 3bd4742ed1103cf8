// Numbers in hexadecimal, and flags.

ghost use Rattle.std.specs.Prelude.{◌≡◌, ◌≤◌, ◌<◌, ◌^◌, IfSome};
ghost use Rattle.he_kernel.specs.Hex.{has, hex_in, hex_field};

use crate::parts::field;

const HEXADECIMAL: u32 = 16;

/// The most digits of a number.
pub const HEX_DIGITS: usize = 32;

/// The number of one to `most` hexadecimal digits; None for any other text.
#[tactic(auto, unfolding(crate::specs::Hex::hex_in))]
pub fn read_hex(text: &[u8], most: usize) -> Option<u128>
    requires { most ≤ HEX_DIGITS }
    ensures value { result ≡ hex_in most text.now }
    ensures small { IfSome result (λ n. n < 16 ^ most) }
{
    if text.is_empty() || text.len() > most {
        return None;
    }
    let mut value = 0;
    for byte in text {
        let digit = char::from(*byte).to_digit(HEXADECIMAL)?;
        value = value * HEXADECIMAL as u128 + digit as u128;
    }
    Some(value)
}

/// The number of one to `most` hexadecimal digits in the field at this place.
#[tactic(auto, unfolding(crate::specs::Hex::hex_field))]
pub fn read_hex_field(line: &[u8], place: usize, most: usize) -> Option<u128>
    requires { most ≤ HEX_DIGITS }
    ensures value { result ≡ hex_field most place line.now }
    ensures small { IfSome result (λ n. n < 16 ^ most) }
{
    read_hex(field(line, place)?, most)
}

/// Whether a bit of the mask is set.
pub fn has(flags: u128, mask: u128) -> bool
    ensures { result ≡ has flags mask }
{
    flags & mask != 0
}
