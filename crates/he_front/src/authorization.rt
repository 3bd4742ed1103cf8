// The credentials of HTTP clients for a proxy (RFC 9110 section 11.7.2).

ghost use Rattle.std.specs.Prelude.{◌≡◌, IfNone, IfSome, length};
ghost use Rattle.httparse.specs.Spans.{IsRequestOf, IsRequestWithin, IsWithin};
ghost use Rattle.he_front.specs.Authorizations.{Authorizes, HasAuthorization, LacksAuthorization};

use crate::http::{MOST_FIELDS, value_named};
use httparse::Status;
use httparse::spans::{EMPTY_HEADER_SPAN, HeaderSpan, RequestSpans, Span, parse_request};

const FIELD: &[u8] = b"proxy-authorization";

/// The span of the value of the first field Proxy-Authorization of the head with which the octets begin. None if they
/// begin with no head of at most [`MOST_FIELDS`] fields, or the head has no such field.
pub fn read_authorization(octets: &[u8]) -> Option<Span>
    ensures given { IfSome result (Authorizes octets.now) }
    ensures none { IfNone result (LacksAuthorization octets.now) }
    ensures within { IfSome result (IsWithin (length octets.now)) }
{
    let mut fields = [EMPTY_HEADER_SPAN; MOST_FIELDS];
    match parse_request(octets, &mut fields) {
        Ok(Status::Complete(spans)) => authorization_of(octets, &fields, &spans),
        Ok(Status::Partial) | Err(_) => None,
    }
}

// The span in the head with these parts.
fn authorization_of(octets: &[u8], fields: &[HeaderSpan], spans: &RequestSpans) -> Option<Span>
    requires within { IsRequestWithin octets.now fields.now spans.now }
    requires at { IsRequestOf octets.now fields.now spans.now }
    ensures value { HasAuthorization octets.now spans.now.len result }
    ensures within { IfSome result (IsWithin (length octets.now)) }
{
    value_named(octets, &fields[..spans.headers], FIELD)
}
