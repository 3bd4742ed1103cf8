//! The fields of a request: which of them go on to the server.

ghost use Rattle.std.specs.Prelude.{◌≡◌, All, length, true};
ghost use Rattle.httparse.specs.Spans.{IsHeaderWithin};
ghost use Rattle.he_forward.specs.Fields.{begins, begins_with, has_prefix, is_framing, is_option, is_own, lists, stays};

use he_body::octets::is_token;
use he_front::http::is_named;
use httparse::spans::HeaderSpan;

const PROXY: &[u8] = b"proxy-";

// Whether a field goes on to the server.
pub(crate) fn stays(octets: &[u8], fields: &[HeaderSpan], field: HeaderSpan) -> bool
    requires all { All (IsHeaderWithin (length octets.now)) fields.now }
    requires one { IsHeaderWithin (length octets.now) field }
    ensures { result ≡ stays octets.now fields.now field }
{
    let name = field.name.of(octets);
    is_framing(name) || !(is_own(name) || is_option(octets, fields, name))
}

/// Whether the field frames the body.
pub fn is_framing(name: &[u8]) -> bool
    ensures { result ≡ is_framing name.now }
{
    is_named(name, b"content-length") || is_named(name, b"transfer-encoding")
}

// Whether the field is for this connection alone (RFC 9110 section 7.6.1), for a proxy, or written anew.
fn is_own(name: &[u8]) -> bool
    ensures { result ≡ is_own name.now }
{
    is_named(name, b"host")
        || is_named(name, b"connection")
        || is_named(name, b"keep-alive")
        || is_named(name, b"te")
        || is_named(name, b"upgrade")
        || has_prefix(name)
}

fn has_prefix(name: &[u8]) -> bool
    ensures { result ≡ has_prefix name.now }
{
    name.len() >= PROXY.len() && is_named(&name[..PROXY.len()], PROXY)
}

/// Whether a field Connection names this field (RFC 9110 section 7.6.1).
pub fn is_option(octets: &[u8], fields: &[HeaderSpan], name: &[u8]) -> bool
    requires { All (IsHeaderWithin (length octets.now)) fields.now }
    ensures { result ≡ is_option octets.now fields.now name.now }
{
    for field in fields {
        if is_named(field.name.of(octets), b"connection") && lists(field.value.of(octets), name) {
            return true;
        }
    }
    false
}

// Whether one of the tokens of the value is this one.
pub(crate) fn lists(value: &[u8], name: &[u8]) -> bool
    ensures { result ≡ lists name.now true value.now }
{
    let mut rest = value;
    let mut starts = true;
    while let Some((first, more)) = rest.split_first() {
        if starts && begins_with(rest, name) {
            return true;
        }
        starts = !is_token(*first);
        rest = more;
    }
    false
}

fn begins_with(text: &[u8], name: &[u8]) -> bool
    ensures { result ≡ begins_with name.now text.now }
{
    if text.len() < name.len() {
        return false;
    }
    is_named(&text[..name.len()], name) && begins(&text[name.len()..])
}

// Whether no token goes on here.
pub(crate) fn begins(text: &[u8]) -> bool
    ensures { result ≡ begins text.now }
{
    match text.first() {
        Some(octet) => !is_token(*octet),
        None => true,
    }
}
