// The requests of HTTP clients (RFC 9112 section 3; a tunnel: RFC 9110 section 9.3.6; a request to forward: RFC 9112
// section 3.2.2).

ghost use Rattle.std.specs.Prelude.{◌≡◌, All, IfSome, length, map};
ghost use Rattle.std.specs.Option.{option_map};
ghost use Rattle.httparse.specs.Spans.{header_bytes, span_bytes, IsHeaderWithin, IsRequestOf, IsRequestWithin, IsWithin};
ghost use Rattle.he_front.specs.Http.{HasHead, IsMethod, IsReadWithin, LiesWithin, ReadsHead, count_named, field_named, is_forwarded, is_named, value_of};

use httparse::Status;
use httparse::spans::{EMPTY_HEADER_SPAN, HeaderSpan, RequestSpans, Span, parse_request};

/// The maximum number of fields of a head.
pub const MOST_FIELDS: usize = 64;

const HTTP: &[u8] = b"http://";

/// The head of a request.
#[derive(Clone, Copy, Debug, PartialEq, Eq)]
pub enum Head {
    /// CONNECT, with the span of its target.
    Tunnel(Span),
    /// GET, with the spans of its target and of the value of its field Host.
    Get(Span, Option<Span>),
    /// HEAD, with the same spans as GET.
    Head(Span, Option<Span>),
    /// A request of any other method to forward: its target is in absolute form with the scheme http (RFC 9112
    /// section 3.2.2).
    Forward,
    /// A request of any method with more than one field Host (RFC 9112 section 3.2).
    TwoHosts,
    /// Another method.
    Other,
}

/// The result of reading a request's head.
#[derive(Clone, Copy, Debug, PartialEq, Eq)]
pub enum ReadHead {
    /// The octets begin with this head, of this length.
    Whole(Head, usize),
    /// The octets begin with no whole head, but more octets can complete one.
    Partial,
    /// The octets begin with no head of at most [`MOST_FIELDS`] fields, whatever follows.
    Refused,
}

#[derive(Clone, Copy, PartialEq, Eq)]
enum Method {
    Get,
    Head,
    Other,
}

fn method_of(method: &[u8]) -> Method
    ensures { IsMethod method.now result }
{
    if method == b"GET".as_slice() {
        Method::Get
    } else if method == b"HEAD".as_slice() {
        Method::Head
    } else {
        Method::Other
    }
}

/// Reads the head with which the octets begin.
pub fn read_head(octets: &[u8]) -> ReadHead
    ensures head { ReadsHead octets.now result }
    ensures within { IsReadWithin (length octets.now) result }
{
    let mut fields = [EMPTY_HEADER_SPAN; MOST_FIELDS];
    match parse_request(octets, &mut fields) {
        Ok(Status::Complete(spans)) => {
            ReadHead::Whole(head_of(octets, &fields, &spans), spans.len)
        }
        Ok(Status::Partial) => ReadHead::Partial,
        Err(_) => ReadHead::Refused,
    }
}

// The head with these parts.
fn head_of(octets: &[u8], fields: &[HeaderSpan], spans: &RequestSpans) -> Head
    requires within { IsRequestWithin octets.now fields.now spans.now }
    requires at { IsRequestOf octets.now fields.now spans.now }
    ensures head { HasHead octets.now result spans.now.len }
    ensures within { LiesWithin (length octets.now) result }
{
    let given = &fields[..spans.headers];
    if count_named(octets, given, b"host") >= 2 {
        return Head::TwoHosts;
    }
    let method = spans.method.of(octets);
    if method == b"CONNECT".as_slice() {
        return Head::Tunnel(spans.path);
    }
    if is_forwarded(spans.path.of(octets)) {
        return Head::Forward;
    }
    let host = value_named(octets, given, b"host");
    match method_of(method) {
        Method::Get => Head::Get(spans.path, host),
        Method::Head => Head::Head(spans.path, host),
        Method::Other => Head::Other,
    }
}

/// Whether a target is in absolute form with the scheme http, whose case does not matter (RFC 3986 section 3.1).
pub fn is_forwarded(target: &[u8]) -> bool
    ensures { result ≡ is_forwarded target.now }
{
    target.len() >= HTTP.len() && is_named(&target[..HTTP.len()], HTTP)
}

/// The number of fields with this name.
pub fn count_named(octets: &[u8], fields: &[HeaderSpan], name: &[u8]) -> usize
    requires { All (IsHeaderWithin (length octets.now)) fields.now }
    ensures { result ≡ count_named octets.now name.now fields.now }
{
    let mut count = 0usize;
    for field in fields {
        if is_named(field.name.of(octets), name) {
            count += 1;
        }
    }
    count
}

// The span of the value of the first field with this name.
pub(crate) fn value_named(octets: &[u8], fields: &[HeaderSpan], name: &[u8]) -> Option<Span>
    requires { All (IsHeaderWithin (length octets.now)) fields.now }
    ensures value { option_map (span_bytes octets.now) result
        ≡ value_of name.now (map (header_bytes octets.now) fields.now) }
    ensures within { IfSome result (IsWithin (length octets.now)) }
{
    match field_named(octets, fields, name) {
        Some(field) => Some(field.value),
        None => None,
    }
}

/// The first field with this name.
pub fn field_named(octets: &[u8], fields: &[HeaderSpan], name: &[u8]) -> Option<HeaderSpan>
    requires { All (IsHeaderWithin (length octets.now)) fields.now }
    ensures field { result ≡ field_named octets.now name.now fields.now }
    ensures within { IfSome result (IsHeaderWithin (length octets.now)) }
{
    for field in fields {
        if is_named(field.name.of(octets), name) {
            return Some(*field);
        }
    }
    None
}

/// Whether the name of a field is this one: case does not matter (RFC 9110 section 5.1).
pub fn is_named(field: &[u8], name: &[u8]) -> bool
    ensures { result ≡ is_named name.now field.now }
{
    field.eq_ignore_ascii_case(name)
}
