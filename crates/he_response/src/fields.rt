// The fields of a response: which of them go on to the client.

ghost use Rattle.std.specs.Prelude.{◌≡◌, All, length};
ghost use Rattle.httparse.specs.Spans.{IsHeaderWithin};
ghost use Rattle.he_response.specs.Fields.{is_own, stays};

use he_forward::fields::{is_framing, is_option};
use he_front::http::is_named;
use httparse::spans::HeaderSpan;

// Whether a field goes on to the client.
pub(crate) fn stays(octets: &[u8], fields: &[HeaderSpan], field: HeaderSpan) -> bool
    requires all { All (IsHeaderWithin (length octets.now)) fields.now }
    requires one { IsHeaderWithin (length octets.now) field }
    ensures { result ≡ stays octets.now fields.now field }
{
    let name = field.name.of(octets);
    is_framing(name) || !(is_own(name) || is_option(octets, fields, name))
}

// Whether the field is for this connection alone (RFC 9110 section 7.6.1), or of a proxy for its own client (section
// 11.7).
fn is_own(name: &[u8]) -> bool
    ensures { result ≡ is_own name.now }
{
    is_named(name, b"connection")
        || is_named(name, b"keep-alive")
        || is_named(name, b"te")
        || is_named(name, b"upgrade")
        || is_named(name, b"proxy-connection")
        || is_named(name, b"proxy-authenticate")
        || is_named(name, b"proxy-authentication-info")
}
