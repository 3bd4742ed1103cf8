// Strings of JSON texts (RFC 8259 section 7).

ghost use Rattle.std.specs.Prelude.{◌≡◌, ◌<◌, ◌++◌, OnOk};
ghost use Rattle.std.specs.List.{flat_map, list_all};
ghost use Rattle.he_print.specs.Escaping.{digit, escaped, is_plain, string_text};

use he_addr::Memory;
use std::alloc::Allocator;

/// Appends the bytes as a string, with quotation marks. A backslash precedes a quotation mark and a backslash; a
/// control character is written by its number; all other bytes are unchanged. So no byte in it ends the string.
///
/// On `Memory` the beginning of the string may have been appended.
pub fn write_string<A: Allocator>(bytes: &[u8], text: &mut Vec<u8, A>) -> Result<(), Memory>
    ensures { OnOk result (text.new.items ≡ text.old.items ++ string_text bytes.now) }
{
    text.push(b'"')?;
    write_escaped(bytes, text)?;
    text.push(b'"')?;
    Ok(())
}

fn write_escaped<A: Allocator>(bytes: &[u8], text: &mut Vec<u8, A>) -> Result<(), Memory>
    ensures { OnOk result (text.new.items ≡ text.old.items ++ flat_map escaped bytes.now) }
{
    if are_plain(bytes) {
        text.extend_from_slice(bytes)?;
    } else {
        write_each(bytes, text)?;
    }
    Ok(())
}

// Whether no byte needs an escape.
fn are_plain(bytes: &[u8]) -> bool
    ensures { result ≡ list_all is_plain bytes.now }
{
    bytes.iter().all(|byte| is_plain(*byte))
}

fn is_plain(byte: u8) -> bool
    ensures { result ≡ is_plain byte }
{
    byte >= b' ' && byte != b'"' && byte != b'\\' && byte != 127
}

fn write_each<A: Allocator>(bytes: &[u8], text: &mut Vec<u8, A>) -> Result<(), Memory>
    ensures { OnOk result (text.new.items ≡ text.old.items ++ flat_map escaped bytes.now) }
{
    for byte in bytes {
        write_byte(*byte, text)?;
    }
    Ok(())
}

fn write_byte<A: Allocator>(byte: u8, text: &mut Vec<u8, A>) -> Result<(), Memory>
    ensures { OnOk result (text.new.items ≡ text.old.items ++ escaped byte) }
{
    if is_plain(byte) {
        text.push(byte)?;
    } else if byte == b'"' || byte == b'\\' {
        text.extend_from_slice(&[b'\\', byte])?;
    } else {
        text.extend_from_slice(&[b'\\', b'u', b'0', b'0', digit(byte / 16), digit(byte % 16)])?;
    }
    Ok(())
}

// A hexadecimal digit.
fn digit(number: u8) -> u8
    requires { number < 16 }
    ensures { result ≡ digit number }
{
    if number < 10 {
        b'0' + number
    } else {
        b'a' + number - 10
    }
}
