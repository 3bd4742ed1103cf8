// Decimal numbers in texts: one to ten digits without leading zeros.

ghost use Rattle.std.specs.Prelude.{◌≡◌, ℕ, ◌≤◌, ◌++◌, IfSome, IfNone, OnOk, OnErr, decimal};
ghost use Rattle.he_addr.specs.Reading.{digits_in, numeral_in, number_in};
ghost use Rattle.he_addr.specs.Text.{SpellsNumber};

use itoa::Buffer;
use std::alloc::{AllocError as Memory, Allocator};

/// The maximum number of digits of a number in a text.
pub const NUMBER_DIGITS: usize = 10;

const DECIMAL: u32 = 10;

// Reads one to `most` decimal digits; leading zeros are allowed.
#[tactic(auto, unfolding(crate::specs::Reading::digits_in))]
fn read_digits(text: &[u8], most: usize) -> Option<u64>
    requires { most ≤ NUMBER_DIGITS }
    ensures { result ≡ digits_in most text.now }
{
    if text.is_empty() || text.len() > most {
        return None;
    }
    let mut value = 0;
    for byte in text {
        let digit = char::from(*byte).to_digit(DECIMAL)?;
        value = value * DECIMAL as u64 + digit as u64;
    }
    Some(value)
}

// Reads one to `most` decimal digits without leading zeros.
#[tactic(auto, unfolding(crate::specs::Reading::numeral_in))]
pub(crate) fn read_numeral(text: &[u8], most: usize) -> Option<u64>
    requires { most ≤ NUMBER_DIGITS }
    ensures { result ≡ numeral_in most text.now }
{
    if text.len() > 1 && text[0] == b'0' {
        return None;
    }
    read_digits(text, most)
}

/// Reads a decimal number of one to ten digits without leading zeros (`0` itself is one). None for every other text.
#[tactic(auto, unfolding(crate::specs::Reading::number_in))]
pub fn read_number(text: &[u8]) -> Option<u64>
    ensures value { result ≡ number_in text.now }
    ensures found { IfSome result (λ number. SpellsNumber text.now number) }
    ensures none { IfNone result ((number : ℕ) → SpellsNumber text.now number → ⊥) }
{
    read_numeral(text, NUMBER_DIGITS)
}

/// Appends the number in decimal. On [`Memory`] the text is unchanged. [`read_number`] reads a number below 10^10
/// back.
pub fn write_number<A: Allocator + Copy>(number: u64, out: &mut Vec<u8, A>) -> Result<(), Memory>
    ensures ok { OnOk result (out.new.items ≡ out.old.items ++ decimal number) }
    ensures err { OnErr result (out.new.items ≡ out.old.items) }
{
    let mut digits = Buffer::new();
    out.extend_from_slice(digits.format(number).as_bytes())?;
    Ok(())
}
