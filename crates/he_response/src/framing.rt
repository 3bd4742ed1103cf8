// Where the body of a response ends (RFC 9112 section 6.3).

ghost use Rattle.std.specs.Prelude.{◌≡◌, All, IfNone, IfSome, length};
ghost use Rattle.httparse.specs.Spans.{IsHeaderWithin};
ghost use Rattle.he_response.specs.Framings.{IsFramed, IsUnframed, is_bodiless, is_open_ended};

use he_body::Framing;
use he_forward::length;
use he_front::http::count_named;
use httparse::spans::{HeaderSpan, ResponseSpans};

// How the body of a response is framed, which may be one to HEAD: `Some(None)` if it ends with the connection. None if
// the fields frame it in two ways, or in one that isn't known.
#[tactic(auto, using(crate::proofs::Framings::no_body, crate::proofs::Framings::no_end, crate::proofs::Framings::by_fields, crate::proofs::Framings::unframed))]
pub(crate) fn framing_of(
    octets: &[u8],
    fields: &[HeaderSpan],
    spans: &ResponseSpans,
    to_head: bool,
) -> Option<Option<Framing>>
    requires { All (IsHeaderWithin (length octets.now)) fields.now }
    ensures found { IfSome result (IsFramed to_head octets.now fields.now spans.now) }
    ensures none { IfNone result (IsUnframed to_head octets.now fields.now spans.now) }
{
    if is_bodiless(to_head, spans.code) {
        return Some(Some(Framing::Length(0)));
    }
    if is_open_ended(octets, fields) {
        return Some(None);
    }
    match length::framing_of(octets, fields, spans.version) {
        Some(framing) => Some(Some(framing)),
        None => None,
    }
}

// Whether the response has no body, whatever its fields say.
fn is_bodiless(to_head: bool, code: u16) -> bool
    ensures { result ≡ is_bodiless to_head code }
{
    to_head || code < 200 || code == 204 || code == 304
}

// Whether no field says where the body ends.
fn is_open_ended(octets: &[u8], fields: &[HeaderSpan]) -> bool
    requires { All (IsHeaderWithin (length octets.now)) fields.now }
    ensures { result ≡ is_open_ended octets.now fields.now }
{
    count_named(octets, fields, b"transfer-encoding") == 0
        && count_named(octets, fields, b"content-length") == 0
}
