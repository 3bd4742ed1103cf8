//! How the body of a message is framed by its fields (RFC 9112 section 6.3).

ghost use Rattle.std.specs.Prelude.{◌≡◌, ℕ, All, IfNone, IfSome, Some, codes, false, length, true};
ghost use Rattle.std.specs.Char.{digit_value, is_ascii_digit};
ghost use Rattle.std.specs.List.{list_all};
ghost use Rattle.std.specs.Option.{option_map};
ghost use Rattle.httparse.specs.Spans.{IsHeaderWithin};
ghost use Rattle.he_forward.specs.Lengths.{HasLength, IsFramed, IsLength, IsUnframed, are_other, by_chunks, ends_in_comma, has_other_coding, is_chunked, is_other_coding, value_in};

use crate::fields::{begins, lists};
use he_body::Framing;
use he_front::http::{count_named, field_named, is_named};
use httparse::spans::HeaderSpan;

const CHUNKED: &[u8] = b"chunked";

/// How the fields of a message of this minor version of HTTP/1 frame its body; `None` if they do it in two ways, or in
/// one that isn't known. Without such fields it has none of its octets.
#[tactic(auto, using(crate::proofs::Framings::no_length, crate::proofs::Framings::no_coding))]
pub fn framing_of(octets: &[u8], fields: &[HeaderSpan], version: u8) -> Option<Framing>
    requires { All (IsHeaderWithin (length octets.now)) fields.now }
    ensures found { IfSome result (IsFramed octets.now fields.now version) }
    ensures none { IfNone result (IsUnframed octets.now fields.now version) }
{
    let codings = count_named(octets, fields, b"transfer-encoding");
    if codings == 0 {
        return match length_of(octets, fields) {
            Some(length) => Some(Framing::Length(length)),
            None => None,
        };
    }
    if by_chunks(octets, fields, version) {
        Some(Framing::Chunked)
    } else {
        None
    }
}

// Whether the fields frame it by the one transfer coding chunked.
fn by_chunks(octets: &[u8], fields: &[HeaderSpan], version: u8) -> bool
    requires { All (IsHeaderWithin (length octets.now)) fields.now }
    ensures { result ≡ by_chunks octets.now fields.now version }
{
    count_named(octets, fields, b"transfer-encoding") == 1
        && count_named(octets, fields, b"content-length") == 0
        && version == 1
        && is_chunked(octets, fields)
}

// Whether the fields frame it by chunked as the last of several transfer codings, of which the others aren't known.
pub(crate) fn has_other_coding(octets: &[u8], fields: &[HeaderSpan], version: u8) -> bool
    requires { All (IsHeaderWithin (length octets.now)) fields.now }
    ensures { result ≡ has_other_coding octets.now fields.now version }
{
    let lengths = count_named(octets, fields, b"content-length");
    lengths == 0
        && count_named(octets, fields, b"transfer-encoding") == 1
        && version == 1
        && is_other_coding(octets, fields)
}

fn is_other_coding(octets: &[u8], fields: &[HeaderSpan]) -> bool
    requires { All (IsHeaderWithin (length octets.now)) fields.now }
    ensures { result ≡ is_other_coding (value_in octets.now fields.now (codes "transfer-encoding")) }
{
    match value_of(octets, fields, b"transfer-encoding") {
        Some(value) => ends_chunked(value),
        None => false,
    }
}

// Whether the last of the transfer codings is chunked, and there are others.
fn ends_chunked(value: &[u8]) -> bool
    ensures { result ≡ is_other_coding (Some value.now) }
{
    if value.len() < CHUNKED.len() {
        return false;
    }
    let at = value.len() - CHUNKED.len();
    is_named(&value[at..], CHUNKED) && are_other(&value[..at])
}

// Whether these transfer codings before the last one are some, and none is chunked.
fn are_other(codings: &[u8]) -> bool
    ensures { result ≡ are_other codings.now }
{
    !begins(codings) && ends_in_comma(codings) && !lists(codings, CHUNKED)
}

// Whether only spaces and tabs follow the last comma.
fn ends_in_comma(text: &[u8]) -> bool
    ensures { result ≡ ends_in_comma false text.now }
{
    let mut follows = false;
    for octet in text {
        follows = *octet == b',' || (follows && (*octet == b' ' || *octet == b'\t'));
    }
    follows
}

// Whether the first transfer coding is chunked.
fn is_chunked(octets: &[u8], fields: &[HeaderSpan]) -> bool
    requires { All (IsHeaderWithin (length octets.now)) fields.now }
    ensures { result ≡ is_chunked (value_in octets.now fields.now (codes "transfer-encoding")) }
{
    match value_of(octets, fields, b"transfer-encoding") {
        Some(value) => is_named(value, CHUNKED),
        None => false,
    }
}

// The length that the fields say: 0 if they say none.
fn length_of(octets: &[u8], fields: &[HeaderSpan]) -> Option<u64>
    requires { All (IsHeaderWithin (length octets.now)) fields.now }
    ensures found { IfSome result (HasLength octets.now fields.now) }
    ensures none { IfNone result ((count : ℕ) → HasLength octets.now fields.now count → ⊥) }
{
    match count_named(octets, fields, b"content-length") {
        0 => Some(0),
        1 => match value_of(octets, fields, b"content-length") {
            Some(value) => read_length(value),
            None => None,
        },
        _ => None,
    }
}

// The value of the first field with this name.
fn value_of<'a>(octets: &'a [u8], fields: &[HeaderSpan], name: &[u8]) -> Option<&'a [u8]>
    requires { All (IsHeaderWithin (length octets.now)) fields.now }
    ensures { option_map (λ value. value.now) result ≡ value_in octets.now fields.now name.now }
{
    match field_named(octets, fields, name) {
        Some(field) => Some(field.value.of(octets)),
        None => None,
    }
}

// A number in decimal that is below 2^64.
#[tactic(auto, using(std::proofs::lemmas::Int::Digits::digits_value_more, crate::proofs::Framings::too_large))]
fn read_length(text: &[u8]) -> Option<u64>
    ensures found { IfSome result (IsLength text.now) }
    ensures none { IfNone result ((count : ℕ) → IsLength text.now count → ⊥) }
{
    if text.is_empty() || !are_digits(text) {
        return None;
    }
    let mut length = 0u64;
    for octet in text {
        length = length.checked_mul(10)?.checked_add(digit(*octet))?;
    }
    Some(length)
}

fn are_digits(text: &[u8]) -> bool
    ensures { result ≡ list_all is_ascii_digit text.now }
{
    text.iter().all(|octet| octet.is_ascii_digit())
}

fn digit(octet: u8) -> u64
    requires { is_ascii_digit octet ≡ true }
    ensures { result ≡ digit_value octet }
{
    (octet - b'0') as u64
}
