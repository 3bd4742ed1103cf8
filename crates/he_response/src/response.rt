// A response that is returned to the client.

ghost use Rattle.std.specs.Prelude.{◌≡◌, IfOk, MatchOption, take};
ghost use Rattle.httparse.specs.Spans.{IsResponseOf, IsResponseWithin};
ghost use Rattle.he_response.specs.Responses.{IsRefused, IsReturnOf, Reads, may_return};

use crate::framing::framing_of;
use crate::writing::write_head;
use he_addr::Memory;
use he_body::Framing;
use httparse::Status;
use httparse::spans::{EMPTY_HEADER_SPAN, HeaderSpan, ResponseSpans, parse_response};
use std::alloc::Global;

/// The maximum number of fields of a response.
pub const MOST_FIELDS: usize = 128;

/// A response that is to be returned to the client.
#[derive(Drop)]
pub struct Response {
    /// The head that the client gets in place of the server's.
    pub head: Vec<u8>,
    /// How its body is framed (RFC 9112 section 6.3); `None` if it ends with the connection.
    pub framing: Option<Framing>,
    /// The number of octets of the server's head.
    pub len: usize,
    /// Whether no other response follows (RFC 9110 section 15.2).
    pub is_final: bool,
}

/// The result of reading a response.
#[derive(Drop)]
pub enum ReadResponse {
    /// The octets begin with this one.
    Whole(Response),
    /// The octets begin with no whole head, but more octets can complete one.
    Partial,
    /// The octets begin with none that is returned.
    Refused,
}

/// Reads the head of the response with which the octets begin, which may be one to HEAD, and rewrites it for the
/// client.
///
/// # Errors
///
/// [`Memory`] if an allocation failed.
pub fn read_response(alloc: Global, octets: &[u8], to_head: bool) -> Result<ReadResponse, Memory>
    ensures { IfOk result (Reads to_head octets.now) }
{
    let mut fields = [EMPTY_HEADER_SPAN; MOST_FIELDS];
    match parse_response(octets, &mut fields) {
        Ok(Status::Complete(spans)) => match response_of(alloc, octets, &fields, &spans, to_head) {
            Ok(Some(response)) => Ok(ReadResponse::Whole(response)),
            Ok(None) => Ok(ReadResponse::Refused),
            Err(refused) => Err(refused),
        },
        Ok(Status::Partial) => Ok(ReadResponse::Partial),
        Err(_) => Ok(ReadResponse::Refused),
    }
}

#[tactic(auto, using(crate::proofs::Heads::is_head, crate::proofs::Heads::is_code, crate::proofs::Refusals::refused_code, crate::proofs::Refusals::refused_framing))]
fn response_of(
    alloc: Global,
    octets: &[u8],
    room: &[HeaderSpan],
    spans: &ResponseSpans,
    to_head: bool,
) -> Result<Option<Response>, Memory>
    requires within { IsResponseWithin octets.now room.now spans.now }
    requires at { IsResponseOf octets.now room.now spans.now }
    ensures { IfOk result (λ response. MatchOption response
        (IsRefused to_head octets.now (take spans.now.headers room.now) spans.now)
        (IsReturnOf to_head octets.now (take spans.now.headers room.now) spans.now)) }
{
    let fields = &room[..spans.headers];
    if !may_return(spans.code) {
        return Ok(None);
    }
    let Some(framing) = framing_of(octets, fields, spans, to_head) else {
        return Ok(None);
    };
    let head = write_head(alloc, octets, fields, spans)?;
    Ok(Some(Response {
        head,
        framing,
        len: spans.len,
        is_final: spans.code >= 200,
    }))
}

// Whether a response with this status code may go to a client that asked for no other protocol (RFC 9110 section
// 15.2.2).
fn may_return(code: u16) -> bool
    ensures { result ≡ may_return code }
{
    code >= 100 && code != 101
}
