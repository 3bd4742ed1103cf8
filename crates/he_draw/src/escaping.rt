// Texts in a page.

ghost use Rattle.std.specs.Prelude.{◌≡◌, ◌++◌, OnOk};
ghost use Rattle.std.specs.List.{flat_map, list_all};
ghost use Rattle.he_draw.specs.Page.{NamesAreNoTags, escaped, is_plain};

use he_addr::Memory;
use std::alloc::Allocator;

/// Appends a text so that none of it is read as a tag. After `Memory` the vector holds a first part of it too.
pub(crate) fn write_escaped<A: Allocator + Copy>(
    bytes: &[u8],
    text: &mut Vec<u8, A>,
) -> Result<(), Memory>
    ensures { OnOk result (text.new.items ≡ text.old.items ++ flat_map escaped bytes.now) }
{
    if are_plain(bytes) {
        text.extend_from_slice(bytes)?;
        return Ok(());
    }
    write_each(bytes, text)
}

fn are_plain(bytes: &[u8]) -> bool
    ensures { result ≡ list_all is_plain bytes.now }
{
    bytes.iter().all(|byte| is_plain(*byte))
}

fn is_plain(byte: u8) -> bool
    ensures { result ≡ is_plain byte }
{
    byte != b'&' && byte != b'<'
}

fn write_each<A: Allocator + Copy>(bytes: &[u8], text: &mut Vec<u8, A>) -> Result<(), Memory>
    ensures { OnOk result (text.new.items ≡ text.old.items ++ flat_map escaped bytes.now) }
{
    for byte in bytes {
        write_byte(*byte, text)?;
    }
    Ok(())
}

fn write_byte<A: Allocator + Copy>(byte: u8, text: &mut Vec<u8, A>) -> Result<(), Memory>
    ensures { OnOk result (text.new.items ≡ text.old.items ++ escaped byte) }
{
    if is_plain(byte) {
        text.push(byte)?;
    } else if byte == b'&' {
        text.extend_from_slice(b"&amp;")?;
    } else {
        text.extend_from_slice(b"&lt;")?;
    }
    Ok(())
}

/// No byte of an escaped text begins a tag.
pub fn names_are_no_tags()
    ensures { NamesAreNoTags }
{}
