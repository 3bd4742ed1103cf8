// The lines of a system file, and their fields.

ghost use Rattle.std.specs.Prelude.{◌≡◌, ◌==◌, IfOk, position};
ghost use Rattle.std.specs.List.{list_any};
ghost use Rattle.std.specs.Str.{bytes_eq};
ghost use Rattle.he_names.specs.Fields.{before, fields_of, is_blank, lines_of, texts};

use he_addr::Memory;
use std::alloc::Allocator;

pub(crate) const LINE_END: u8 = b'\n';

pub(crate) fn is_text(a: &[u8], b: &[u8]) -> bool
    ensures { result ≡ bytes_eq a.now b.now }
{
    a == b
}

// Whether one of the others equals the text.
pub(crate) fn has_text(others: &[&[u8]], text: &[u8]) -> bool
    ensures { result ≡ list_any (bytes_eq text.now) (texts others.now) }
{
    others.iter().any(|other| is_text(text, other))
}

pub(crate) fn is_blank(byte: u8) -> bool
    ensures { result ≡ is_blank byte }
{
    byte == b' ' || byte == b'\t' || byte == b'\r'
}

pub(crate) fn find(text: &[u8], mark: u8) -> Option<usize>
    ensures { result ≡ position (λ byte. byte == mark) text.now }
{
    text.iter().position(|byte| *byte == mark)
}

// The text up to the first mark.
pub(crate) fn before(text: &[u8], mark: u8) -> &[u8]
    ensures { result.now ≡ before mark text.now }
{
    match find(text, mark) {
        Some(at) => &text[..at],
        None => text,
    }
}

// The lines of a text.
pub(crate) fn lines<A: Allocator>(alloc: A, text: &[u8]) -> Result<Vec<&[u8], A>, Memory>
    ensures { IfOk result (λ lines. texts lines.items ≡ lines_of text.now) }
{
    text.split(|byte| *byte == LINE_END).collect(alloc)
}

// The fields of a line, separated by blanks.
#[tactic(auto, unfolding(crate::specs::Fields::fields_of))]
pub(crate) fn fields<A: Allocator>(alloc: A, line: &[u8]) -> Result<Vec<&[u8], A>, Memory>
    ensures { IfOk result (λ fields. texts fields.items ≡ fields_of line.now) }
{
    line.split(|byte| is_blank(*byte))
        .filter(|field| !field.is_empty())
        .collect(alloc)
}
