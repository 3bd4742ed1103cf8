// A request that is forwarded.

ghost use Rattle.std.specs.Prelude.{◌≡◌, ◌≤◌, All, IfOk, MatchOption, false, length, take};
ghost use Rattle.httparse.specs.Spans.{IsHeaderWithin, IsRequestOf, IsRequestWithin, IsWithin};
ghost use Rattle.he_forward.specs.Requests.{IsForwardOf, IsRefused, Reads, fault_of, has_host, has_line_feed_alone, is_counted, may_go_on};

use crate::length::{framing_of, has_other_coding};
use crate::target::{asked_of, read_absolute};
use crate::writing::write_head;
use he_addr::Memory;
use he_body::Framing;
use he_front::http::count_named;
use he_front::{Asked, MOST_FIELDS};
use httparse::Status;
use httparse::spans::{EMPTY_HEADER_SPAN, HeaderSpan, RequestSpans, parse_request};
use std::alloc::{Allocator, Global};

/// A request that is to be forwarded.
#[derive(Drop)]
pub struct Forward<A: Allocator = Global> {
    /// The host and the port that its target names; 80 if it names none.
    pub asked: Asked<A>,
    /// The head that the server gets in place of the client's.
    pub head: Vec<u8, A>,
    /// How its body is framed (RFC 9112 section 6.3).
    pub framing: Framing,
    /// The number of octets of the client's head.
    pub len: usize,
}

/// Why a request is not forwarded.
#[derive(Clone, Copy, Debug, PartialEq, Eq)]
pub enum Fault {
    /// It is malformed, or servers read it in different ways.
    Malformed,
    /// Its body has a transfer coding that this proxy does not understand (RFC 9112 section 6.1).
    Coding,
}

/// The result of reading a request in absolute form.
#[derive(Drop)]
pub enum ReadForward<A: Allocator = Global> {
    /// The octets begin with this one.
    Whole(Forward<A>),
    /// The octets begin with no whole head, but more octets can complete one.
    Partial,
    /// The octets begin with none that is forwarded.
    Refused(Fault),
}

/// Reads the request in absolute form with which the octets begin, and rewrites its head for the server.
///
/// # Errors
///
/// [`Memory`] if an allocation failed.
pub fn read_forward<A: Allocator + Copy>(alloc: A, octets: &[u8]) -> Result<ReadForward<A>, Memory>
    ensures { IfOk result (Reads octets.now) }
{
    let mut fields = [EMPTY_HEADER_SPAN; MOST_FIELDS];
    match parse_request(octets, &mut fields) {
        Ok(Status::Complete(spans)) => match forward_of(alloc, octets, &fields, &spans) {
            Ok(Some(forward)) => Ok(ReadForward::Whole(forward)),
            Ok(None) => {
                let fault = fault_of(octets, &fields[..spans.headers], spans.version);
                Ok(ReadForward::Refused(fault))
            }
            Err(refused) => Err(refused),
        },
        Ok(Status::Partial) => Ok(ReadForward::Partial),
        Err(_) => Ok(ReadForward::Refused(Fault::Malformed)),
    }
}

#[tactic(auto, using(crate::proofs::Heads::is_head, crate::proofs::Refusals::refused_target, crate::proofs::Refusals::refused_framing, crate::proofs::Refusals::refused_head, crate::proofs::Refusals::refused_names))]
fn forward_of<A: Allocator + Copy>(
    alloc: A,
    octets: &[u8],
    room: &[HeaderSpan],
    spans: &RequestSpans,
) -> Result<Option<Forward<A>>, Memory>
    requires within { IsRequestWithin octets.now room.now spans.now }
    requires at { IsRequestOf octets.now room.now spans.now }
    ensures { IfOk result (λ forward. MatchOption forward
        (IsRefused octets.now (take spans.now.headers room.now) spans.now)
        (IsForwardOf octets.now (take spans.now.headers room.now) spans.now)) }
{
    let fields = &room[..spans.headers];
    let Some((authority, rest)) = read_absolute(spans.path.of(octets)) else {
        return Ok(None);
    };
    let Some(framing) = framing_of(octets, fields, spans.version) else {
        return Ok(None);
    };
    if !may_go_on(octets, fields, spans) {
        return Ok(None);
    }
    let Some(asked) = asked_of(alloc, authority)? else {
        return Ok(None);
    };
    let head = write_head(
        alloc,
        octets,
        fields,
        spans.method.of(octets),
        authority,
        rest,
        spans.version,
    )?;
    Ok(Some(Forward {
        asked,
        head,
        framing,
        len: spans.len,
    }))
}

// Why a head with these fields is not forwarded.
fn fault_of(octets: &[u8], fields: &[HeaderSpan], version: u8) -> Fault
    requires { All (IsHeaderWithin (length octets.now)) fields.now }
    ensures { result ≡ fault_of octets.now fields.now version }
{
    if has_other_coding(octets, fields, version) {
        Fault::Coding
    } else {
        Fault::Malformed
    }
}

// Whether it has a field Host, no line feed alone, and no count of proxies.
fn may_go_on(octets: &[u8], fields: &[HeaderSpan], spans: &RequestSpans) -> bool
    requires fields { All (IsHeaderWithin (length octets.now)) fields.now }
    requires method { IsWithin (length octets.now) spans.now.method }
    requires within { spans.now.len ≤ length octets.now }
    ensures { result ≡ may_go_on octets.now fields.now spans.now }
{
    has_host(octets, fields, spans.version)
        && !has_line_feed_alone(&octets[..spans.len])
        && !is_counted(octets, fields, spans.method.of(octets))
}

// Whether it has one field Host, which a request of HTTP/1.0 may lack.
fn has_host(octets: &[u8], fields: &[HeaderSpan], version: u8) -> bool
    requires { All (IsHeaderWithin (length octets.now)) fields.now }
    ensures { result ≡ has_host octets.now fields.now version }
{
    let count = count_named(octets, fields, b"host");
    count == 1 || (count == 0 && version == 0)
}

// Whether a field counts the proxies of a request that may be answered by one (RFC 9110 section 7.6.2).
fn is_counted(octets: &[u8], fields: &[HeaderSpan], method: &[u8]) -> bool
    requires { All (IsHeaderWithin (length octets.now)) fields.now }
    ensures { result ≡ is_counted octets.now fields.now method.now }
{
    (method == b"TRACE".as_slice() || method == b"OPTIONS".as_slice())
        && count_named(octets, fields, b"max-forwards") >= 1
}

// Whether the head has a line feed without a carriage return before it.
fn has_line_feed_alone(head: &[u8]) -> bool
    ensures { result ≡ has_line_feed_alone false head.now }
{
    let mut after_return = false;
    for octet in head {
        if *octet == b'\n' && !after_return {
            return true;
        }
        after_return = *octet == b'\r';
    }
    false
}
