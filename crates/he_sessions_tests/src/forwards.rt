// Requests that are forwarded, and what the server gets of them.

use crate::homes::{Course, Lender, Outcome, Part, WINNER, run};
use he_front::Ended;
use he_sessions::Ending;
use std::io;
use std::net::{Net, TcpListener, TcpStream};
use std::test::Fail;

const TARGET: (&str, u16) = ("example.org", 8080);

const SECOND: &[u8] = b"GET http://other.example/ HTTP/1.1\r\nHost: other.example\r\n\r\n";

const GETS: &[u8] =
    b"GET http://example.org:8080/a?b HTTP/1.1\r\nHost: other\r\nConnection: x\r\nX: 1\r\nAccept: */*\r\n\r\n";

const GOT: &[u8] =
    b"GET /a?b HTTP/1.1\r\nHost: example.org:8080\r\nAccept: */*\r\nVia: 1.1 he\r\nConnection: close\r\n\r\n";

const POSTS: &[u8] =
    b"POST http://example.org:8080 HTTP/1.1\r\nHost: a\r\nTransfer-Encoding: chunked\r\nExpect: 100-continue\r\n\r\n";

const CODED: &[u8] =
    b"POST http://example.org:8080 HTTP/1.1\r\nHost: a\r\nTransfer-Encoding: gzip, chunked\r\n\r\n";

const POSTED: &[u8] =
    b"POST / HTTP/1.1\r\nHost: example.org:8080\r\nTransfer-Encoding: chunked\r\nExpect: 100-continue\r\nVia: 1.1 he\r\nConnection: close\r\n\r\n";

const CHUNKS: &[u8] = b"5;a=b\r\nhello\r\n00c\r\n GET / HTTP/\r\n0\r\nTrailer: x\r\n\r\n";

const BROKEN: &[u8] = b"5\r\nhello\r\n0x1\r\n";

const RESPONSE: &[u8] =
    b"HTTP/1.1 103 Early Hints\r\n\r\nHTTP/1.1 200 OK\r\nConnection: close\r\n\r\nbody\n";

const RETURNED: &[u8] =
    b"HTTP/1.1 103 Early Hints\r\nVia: 1.1 he\r\n\r\nHTTP/1.1 200 OK\r\nVia: 1.1 he\r\nConnection: close\r\n\r\nbody\n";

const KEPT: &[u8] =
    b"HTTP/1.1 200 OK\r\nConnection: keep-alive\r\nContent-Length: 5\r\n\r\nbody\nHTTP/1.1 200 OK\r\n\r\n";

const CLOSED: &[u8] =
    b"HTTP/1.1 200 OK\r\nContent-Length: 5\r\nVia: 1.1 he\r\nConnection: close\r\n\r\nbody\n";

// The outcome for a client that sends these parts one after the other, in pieces of `piece` octets, to a server that
// answers at once with this response and ends once it has got `count` octets.
fn outcome<R: Lender + Net<Listener = TcpListener, Stream = TcpStream>>(
    rt: &R,
    course: Course,
    parts: &[&[u8]],
    piece: usize,
    response: &[u8],
    count: usize,
) -> io::Result<Outcome> {
    let mut sends = Vec::new(rt.alloc());
    for part in parts {
        sends.extend_from_slice(part)?;
    }
    let client = Part {
        sends,
        piece,
        ends_after: usize::MAX,
    };
    let server = Part {
        sends: Vec::from_slice(rt.alloc(), response)?,
        piece: usize::MAX,
        ends_after: count,
    };
    run(rt, TARGET, course, None, client, server)
}

// Whether the server gets this head and this body and nothing else, and the client the whole response.
fn is_forwarded(outcome: &Outcome, head: &[u8], body: &[u8]) -> bool {
    let got = outcome.server_got.as_slice();
    let is_told = match outcome.told {
        Some(told) => {
            told.how == Ending::Closed
                && told.result == Some(Ok(WINNER))
                && told.port == TARGET.1
                && told.sent == got.len() as u64
                && told.received == RETURNED.len() as u64
        }
        None => false,
    };
    is_told && got.strip_prefix(head) == Some(body) && outcome.client_got.as_slice() == RETURNED
}

#[test]
fn only_the_first_request_reaches_its_server(rt: HostRuntime) -> Result<(), Fail> {
    for piece in [usize::MAX, 7] {
        let parts = [GETS, SECOND, SECOND];
        let outcome = outcome(&rt, Course::Wins, &parts, piece, RESPONSE, GOT.len())?;
        assert!(rt; is_forwarded(&outcome, GOT, b""));
    }
    Ok(())
}

#[test]
fn a_body_is_forwarded_to_its_end(rt: HostRuntime) -> Result<(), Fail> {
    let count = POSTED.len().saturating_add(CHUNKS.len());
    for piece in [usize::MAX, 5] {
        let parts = [POSTS, CHUNKS, SECOND];
        let outcome = outcome(&rt, Course::Wins, &parts, piece, RESPONSE, count)?;
        assert!(rt; is_forwarded(&outcome, POSTED, CHUNKS));
    }
    Ok(())
}

#[test]
fn a_request_without_a_server_is_answered(rt: HostRuntime) -> Result<(), Fail> {
    for (ended, line) in [
        (Ended::Refused, b"HTTP/1.1 502 Bad Gateway\r\n".as_slice()),
        (Ended::TimedOut, b"HTTP/1.1 504 Gateway Timeout\r\n"),
        (Ended::Forbidden, b"HTTP/1.1 403 Forbidden\r\n"),
    ] {
        let outcome = outcome(&rt, Course::Ends(ended), &[GETS], usize::MAX, RESPONSE, 0)?;
        assert!(rt; outcome.client_got.starts_with(line));
    }
    Ok(())
}

#[test]
fn a_malformed_body_is_refused(rt: HostRuntime) -> Result<(), Fail> {
    let parts = [POSTS, BROKEN, SECOND];
    let outcome = outcome(&rt, Course::Wins, &parts, usize::MAX, RESPONSE, 0)?;
    assert!(rt;
        outcome
            .client_got
            .starts_with(b"HTTP/1.1 400 Bad Request\r\n")
    );
    assert!(rt; outcome.server_got.is_empty());
    Ok(())
}

#[test]
fn a_coding_that_is_not_understood_gets_501(rt: HostRuntime) -> Result<(), Fail> {
    let parts = [CODED, CHUNKS];
    let outcome = outcome(&rt, Course::GoesOn, &parts, usize::MAX, RESPONSE, 0)?;
    assert!(rt;
        outcome
            .client_got
            .starts_with(b"HTTP/1.1 501 Not Implemented\r\n")
    );
    assert!(rt;
        outcome
            .client_got
            .ends_with(b" transfer coding but chunked: 192.0.2.1\n")
    );
    Ok(())
}

#[test]
fn a_response_ends_though_its_server_does_not(rt: HostRuntime) -> Result<(), Fail> {
    let outcome = outcome(&rt, Course::Wins, &[GETS], 5, KEPT, usize::MAX)?;
    assert!(rt; outcome.client_got.as_slice() == CLOSED);
    Ok(())
}

#[test]
fn a_server_without_a_response_is_answered_for(rt: HostRuntime) -> Result<(), Fail> {
    for response in [
        b"hello\n".as_slice(),
        b"HTTP/1.1 200 OK\r\n",
        b"HTTP/1.1 101 x\r\n\r\n",
    ] {
        let outcome = outcome(&rt, Course::Wins, &[GETS], 5, response, GOT.len())?;
        assert!(rt;
            outcome
                .client_got
                .starts_with(b"HTTP/1.1 502 Bad Gateway\r\n")
        );
    }
    Ok(())
}
