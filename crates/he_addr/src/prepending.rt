// Texts written from their end to their front, in a buffer of fixed size: division yields the least digit of a number
// first, and no length has to be known before. Each call takes the index at which the text in the buffer begins, and
// returns the new one. The bytes before that index are unchanged.

ghost use Rattle.std.specs.Prelude.{◌≡◌, ◌+◌, ◌<◌, ◌≤◌, ◌∷◌, [], length, decimal};
ghost use Rattle.he_addr.specs.Prepending.{Prepends};

use itoa::write_digits;

/// The maximum number of digits of a 64-bit number.
pub const WIDEST_NUMBER: usize = 20;

/// Puts a byte before the text that begins at `end` in the buffer, and returns the new start of the text. The buffer
/// must have room for it.
#[inline(always)]
pub fn prepend_byte(byte: u8, buffer: &mut [u8], end: usize) -> usize
    requires { (0 < end) × (end ≤ length buffer.old) }
    ensures { Prepends buffer.old end buffer.new result (byte ∷ []) }
{
    let start = end - 1;
    buffer[start] = byte;
    start
}

/// Puts bytes before the text that begins at `end` in the buffer, and returns the new start of the text. The buffer
/// must have room for them.
#[inline(always)]
pub fn prepend_bytes(part: &[u8], buffer: &mut [u8], end: usize) -> usize
    requires { (length part.now ≤ end) × (end ≤ length buffer.old) }
    ensures { Prepends buffer.old end buffer.new result part.now }
{
    let start = end - part.len();
    buffer[start..end].copy_from_slice(part);
    start
}

/// Puts the number, in decimal, before the text that begins at `end` in the buffer, and returns the new start of the
/// text. The buffer must have room for [`WIDEST_NUMBER`] bytes.
#[inline]
pub fn prepend_number(number: u64, buffer: &mut [u8], end: usize) -> usize
    requires { (WIDEST_NUMBER ≤ end) × (end ≤ length buffer.old) }
    ensures written { Prepends buffer.old end buffer.new result (decimal number) }
    ensures near { end ≤ result + WIDEST_NUMBER }
{
    write_digits(number, buffer, end)
}
