// Requests that were put together by hand from RFC 9112, and those of known ways to smuggle one.

use he_body::Framing;
use he_forward::{Fault, ReadForward, read_forward};
use std::alloc::Global;
use std::test::Fail;

const GET: &[u8] =
    b"GET HTTP://user-agent.example/a?b HTTP/1.1\r\nHost: other\r\nUser-Agent: x\r\nProxy-Connection: keep-alive\r\nConnection: X-A, close\r\nX-A: 1\r\nx-ab: 2\r\nTE: trailers\r\nKeep-Alive: 5\r\nProxy-Authorization: Basic x\r\nAccept: */*\r\n\r\nGET /";

const GOT: &[u8] =
    b"GET /a?b HTTP/1.1\r\nHost: user-agent.example\r\nUser-Agent: x\r\nx-ab: 2\r\nAccept: */*\r\nVia: 1.1 he\r\nConnection: close\r\n\r\n";

const POST: &[u8] =
    b"POST http://[::1]:8080 HTTP/1.0\r\nConnection: content-length, transfer-encoding\r\nContent-Length: 4\r\n\r\nGET / HTTP/1.1";

const POSTED: &[u8] =
    b"POST / HTTP/1.0\r\nHost: [::1]:8080\r\nContent-Length: 4\r\nVia: 1.0 he\r\nConnection: close\r\n\r\n";

const OPTIONS: &[u8] = b"OPTIONS http://a HTTP/1.1\r\nHost: a\r\nUpgrade: x\r\n\r\n";

const OPTED: &[u8] = b"OPTIONS * HTTP/1.1\r\nHost: a\r\nVia: 1.1 he\r\nConnection: close\r\n\r\n";

const REFUSED: &[&[u8]] = &[
    b"POST http://a/ HTTP/1.1\r\nHost: a\r\nContent-Length: 4\r\nTransfer-Encoding: chunked\r\n\r\n",
    b"POST http://a/ HTTP/1.1\r\nHost: a\r\nTransfer-Encoding: chunked\r\nContent-Length: 4\r\n\r\n",
    b"POST http://a/ HTTP/1.1\r\nHost: a\r\nTransfer-Encoding: chunked\r\nTransfer-encoding: x\r\n\r\n",
    b"POST http://a/ HTTP/1.1\r\nHost: a\r\nTransfer-Encoding: xchunked\r\n\r\n",
    b"POST http://a/ HTTP/1.1\r\nHost: a\r\nTransfer-Encoding: chunked, identity\r\n\r\n",
    b"POST http://a/ HTTP/1.1\r\nHost: a\r\nTransfer-Encoding: \x0bchunked\r\n\r\n",
    b"POST http://a/ HTTP/1.1\r\nHost: a\r\nTransfer-Encoding : chunked\r\n\r\n",
    b"POST http://a/ HTTP/1.1\r\nHost: a\r\nTransfer-Encoding:\r\n chunked\r\n\r\n",
    b"POST http://a/ HTTP/1.1\nHost: a\r\nTransfer-Encoding: chunked\r\n\r\n",
    b"POST http://a/ HTTP/1.1\r\nHost: a\r\nA: b\nTransfer-Encoding: chunked\r\n\r\n",
    b"POST http://a/ HTTP/1.1\r\nHost: a\r\nA: b\rTransfer-Encoding: chunked\r\n\r\n",
    b"POST http://a/ HTTP/1.0\r\nTransfer-Encoding: chunked\r\n\r\n",
    b"POST http://a/ HTTP/1.1\r\nHost: a\r\nContent-Length: 4\r\nContent-Length: 4\r\n\r\n",
    b"POST http://a/ HTTP/1.1\r\nHost: a\r\nContent-Length: 4, 4\r\n\r\n",
    b"POST http://a/ HTTP/1.1\r\nHost: a\r\nContent-Length: +4\r\n\r\n",
    b"POST http://a/ HTTP/1.1\r\nHost: a\r\nContent-Length: -4\r\n\r\n",
    b"POST http://a/ HTTP/1.1\r\nHost: a\r\nContent-Length: 0x4\r\n\r\n",
    b"POST http://a/ HTTP/1.1\r\nHost: a\r\nContent-Length: 18446744073709551620\r\n\r\n",
    b"POST http://a/ HTTP/1.1\r\nHost: a\r\nContent-Length:\r\n\r\n",
    b"GET http://a/ HTTP/1.1\r\nHost: a\r\nHost: b\r\n\r\n",
    b"GET http://a/ HTTP/1.1\r\n\r\n",
    b"TRACE http://a/ HTTP/1.1\r\nHost: a\r\nMax-Forwards: 0\r\n\r\n",
    b"GET http://user@a/ HTTP/1.1\r\nHost: a\r\n\r\n",
    b"GET https://a/ HTTP/1.1\r\nHost: a\r\n\r\n",
    b"GET ftp://a/ HTTP/1.1\r\nHost: a\r\n\r\n",
    b"GET /a HTTP/1.1\r\nHost: a\r\n\r\n",
    b"GET http:///a HTTP/1.1\r\nHost: a\r\n\r\n",
    b"GET http://a:0/ HTTP/1.1\r\nHost: a\r\n\r\n",
    b"GET http://a/#b HTTP/1.1\r\nHost: a\r\n\r\n",
    b"GET http://a\\b/ HTTP/1.1\r\nHost: a\r\n\r\n",
];

// Whether these octets are forwarded with this head, to this host and port, and a body that is framed so.
fn gives(
    alloc: Global,
    octets: &[u8],
    head: &[u8],
    host: &str,
    port: u16,
    framing: Framing,
) -> bool {
    match read_forward(alloc, octets) {
        Ok(ReadForward::Whole(forward)) => {
            forward.head.as_slice() == head
                && forward.asked.host.as_str() == host
                && forward.asked.port == port
                && forward.framing == framing
        }
        _ => false,
    }
}

// Transfer codings that the proxy doesn't understand, before chunked (RFC 9112 section 6.1).
const CODED: &[&[u8]] = &[
    b"POST http://a/ HTTP/1.1\r\nHost: a\r\nTransfer-Encoding: gzip, chunked\r\n\r\n",
    b"POST http://a/ HTTP/1.1\r\nHost: a\r\nTransfer-Encoding: identity,Chunked \r\n\r\n",
    b"POST http://a/ HTTP/1.1\r\nHost: a\r\nTransfer-Encoding: x;a=b , gzip,\t chunked\r\n\r\n",
    b"POST http://a/ HTTP/1.1\r\nHost: a\r\nTransfer-Encoding: xchunked, ,chunked\r\n\r\n",
];

// A body whose end isn't known, as chunked isn't its last transfer coding (RFC 9112 section 6.3), and others that are
// malformed.
const MISCODED: &[&[u8]] = &[
    b"POST http://a/ HTTP/1.1\r\nHost: a\r\nTransfer-Encoding: gzip\r\n\r\n",
    b"POST http://a/ HTTP/1.1\r\nHost: a\r\nTransfer-Encoding: gzip, xchunked\r\n\r\n",
    b"POST http://a/ HTTP/1.1\r\nHost: a\r\nTransfer-Encoding: gzip chunked\r\n\r\n",
    b"POST http://a/ HTTP/1.1\r\nHost: a\r\nTransfer-Encoding: gzip, chunked, gzip\r\n\r\n",
    b"POST http://a/ HTTP/1.1\r\nHost: a\r\nTransfer-Encoding: chunked, chunked\r\n\r\n",
    b"POST http://a/ HTTP/1.1\r\nHost: a\r\nTransfer-Encoding: gzip, chunked, chunked\r\n\r\n",
    b"POST http://a/ HTTP/1.1\r\nHost: a\r\nTransfer-Encoding: , chunked\r\n\r\n",
    b"POST http://a/ HTTP/1.1\r\nHost: a\r\nTransfer-Encoding: \"gzip\", chunked\r\n\r\n",
    b"POST http://a/ HTTP/1.0\r\nTransfer-Encoding: gzip, chunked\r\n\r\n",
    b"POST http://a/ HTTP/1.1\r\nHost: a\r\nContent-Length: 4\r\nTransfer-Encoding: gzip, chunked\r\n\r\n",
    b"POST http://a/ HTTP/1.1\r\nHost: a\r\nTransfer-Encoding: gzip\r\nTransfer-Encoding: chunked\r\n\r\n",
];

fn is_refused(alloc: Global, octets: &[u8], wanted: Fault) -> bool {
    match read_forward(alloc, octets) {
        Ok(ReadForward::Refused(fault)) => fault == wanted,
        _ => false,
    }
}

#[test]
fn a_head_is_written_anew(rt: HostRuntime) {
    assert!(rt;
        gives(
            rt.alloc(),
            GET,
            GOT,
            "user-agent.example",
            80,
            Framing::Length(0)
        )
    );
    assert!(rt; gives(rt.alloc(), POST, POSTED, "::1", 8080, Framing::Length(4)));
    assert!(rt; gives(rt.alloc(), OPTIONS, OPTED, "a", 80, Framing::Length(0)));
}

#[test]
fn what_can_be_read_in_two_ways_is_refused(rt: HostRuntime) {
    for octets in REFUSED {
        assert!(rt; is_refused(rt.alloc(), octets, Fault::Malformed));
    }
}

#[test]
fn a_coding_that_is_not_understood_has_its_fault(rt: HostRuntime) {
    for octets in CODED {
        assert!(rt; is_refused(rt.alloc(), octets, Fault::Coding));
    }
    for octets in MISCODED {
        assert!(rt; is_refused(rt.alloc(), octets, Fault::Malformed));
    }
}
