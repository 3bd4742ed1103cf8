// The answers to clients whose tunnels are not opened, and pages.

use crate::homes::{Course, Lender, Outcome, Part, run};
use he_front::Ended;
use he_sessions::Ending;
use std::io;
use std::net::{Net, TcpListener, TcpStream};
use std::test::Fail;

const TARGET: (&str, u16) = ("example.org", 443);

// RFC 1928: one method, none; CONNECT to example.org at port 443.
const ASKS: &[u8] = b"\x05\x01\x00\x05\x01\x00\x03\x0bexample.org\x01\xbb";

// SOCKS 4A: CONNECT to example.org at port 443 for the user "me"; and without its last octet.
const OLD_ASKS: &[u8] = b"\x04\x01\x01\xbb\x00\x00\x00\x01me\x00example.org\x00";

const OLD_PART: &[u8] = b"\x04\x01\x01\xbb\x00\x00\x00\x01me\x00example.org";

const CONNECTS: &[u8] = b"CONNECT example.org:443 HTTP/1.1\r\nHost: example.org:443\r\n\r\n";

// The outcome for a client that sends this in pieces of `piece` octets.
fn ask_in_pieces<R: Lender + Net<Listener = TcpListener, Stream = TcpStream>>(
    rt: &R,
    course: Course,
    sends: &[u8],
    piece: usize,
) -> io::Result<Outcome> {
    let client = Part {
        sends: Vec::from_slice(rt.alloc(), sends)?,
        piece,
        ends_after: usize::MAX,
    };
    let server = Part {
        sends: Vec::new(rt.alloc()),
        piece: usize::MAX,
        ends_after: 0,
    };
    run(rt, TARGET, course, None, client, server)
}

// The outcome for a client that sends this at once.
fn ask<R: Lender + Net<Listener = TcpListener, Stream = TcpStream>>(
    rt: &R,
    course: Course,
    sends: &[u8],
) -> io::Result<Outcome> {
    ask_in_pieces(rt, course, sends, usize::MAX)
}

// Whether the client gets this and nothing else, and the session has this ending.
fn is_answered<R: Lender + Net<Listener = TcpListener, Stream = TcpStream>>(
    rt: &R,
    course: Course,
    sends: &[u8],
    gets: &[u8],
    how: Ending,
) -> Result<bool, Fail> {
    let outcome = ask(rt, course, sends)?;
    let is_told = match outcome.told {
        Some(told) => told.how == how,
        None => false,
    };
    Ok(is_told && outcome.client_got.as_slice() == gets)
}

// Whether the client gets an HTTP response with this first line.
fn is_response<R: Lender + Net<Listener = TcpListener, Stream = TcpStream>>(
    rt: &R,
    course: Course,
    sends: &[u8],
    line: &[u8],
) -> Result<bool, Fail> {
    let outcome = ask(rt, course, sends)?;
    Ok(outcome.client_got.starts_with(line))
}

#[test]
fn socks_is_refused_by_its_replies(rt: HostRuntime) -> Result<(), Fail> {
    let refused = Course::Ends(Ended::Refused);
    let reply = b"\x05\x00\x05\x05\x00\x01\x00\x00\x00\x00\x00\x00";
    assert!(rt; is_answered(&rt, refused, ASKS, reply, Ending::Refused)?);
    let forbidden = Course::IsRefused(Ended::Forbidden);
    let reply = b"\x05\x00\x05\x02\x00\x01\x00\x00\x00\x00\x00\x00";
    assert!(rt; is_answered(&rt, forbidden, ASKS, reply, Ending::Refused)?);
    // The racer reports that nothing was won, with the word for a connection.
    let wrong = Course::IsRefused(Ended::Connected);
    let reply = b"\x05\x00\x05\x01\x00\x01\x00\x00\x00\x00\x00\x00";
    assert!(rt; is_answered(&rt, wrong, ASKS, reply, Ending::Refused)?);
    // BIND is another command.
    let bind = b"\x05\x01\x00\x05\x02\x00\x01\x7f\x00\x00\x01\x00\x50";
    let reply = b"\x05\x00\x05\x07\x00\x01\x00\x00\x00\x00\x00\x00";
    assert!(rt; is_answered(&rt, Course::GoesOn, bind, reply, Ending::Refused)?);
    Ok(())
}

#[test]
fn old_socks_is_refused_by_its_reply(rt: HostRuntime) -> Result<(), Fail> {
    let reply = b"\x00\x5b\x00\x00\x00\x00\x00\x00";
    // The race has no winner, or isn't begun.
    let refused = Course::Ends(Ended::Refused);
    assert!(rt; is_answered(&rt, refused, OLD_ASKS, reply, Ending::Refused)?);
    let forbidden = Course::IsRefused(Ended::Forbidden);
    assert!(rt; is_answered(&rt, forbidden, OLD_ASKS, reply, Ending::Refused)?);
    // BIND, a name with a space, port 0, and no octets of a name.
    let bind = b"\x04\x02\x01\xbb\x7f\x00\x00\x01me\x00";
    assert!(rt; is_answered(&rt, Course::GoesOn, bind, reply, Ending::Refused)?);
    let space = b"\x04\x01\x01\xbb\x00\x00\x00\x01me\x00a b\x00";
    assert!(rt; is_answered(&rt, Course::GoesOn, space, reply, Ending::Refused)?);
    let zero = b"\x04\x01\x00\x00\x7f\x00\x00\x01\x00";
    assert!(rt; is_answered(&rt, Course::GoesOn, zero, reply, Ending::Refused)?);
    let empty = b"\x04\x01\x01\xbb\x00\x00\x00\x01me\x00\x00";
    assert!(rt; is_answered(&rt, Course::GoesOn, empty, reply, Ending::Refused)?);
    // A request without its last NUL is waited for.
    assert!(rt; is_answered(&rt, Course::GoesOn, OLD_PART, b"", Ending::Late)?);
    Ok(())
}

#[test]
fn other_methods_and_versions_are_refused(rt: HostRuntime) -> Result<(), Fail> {
    // User name and password are the only method.
    assert!(rt;
        is_answered(
            &rt,
            Course::GoesOn,
            b"\x05\x01\x02",
            b"\x05\xff",
            Ending::Refused
        )?
    );
    // TLS.
    assert!(rt; is_answered(&rt, Course::GoesOn, b"\x16\x03\x01", b"", Ending::Unknown)?);
    Ok(())
}

// Whether a client that sends this is refused, and this is the reason.
fn is_refused_for<R: Lender + Net<Listener = TcpListener, Stream = TcpStream>>(
    rt: &R,
    sends: &[u8],
    reason: Ended,
) -> Result<bool, Fail> {
    let outcome = ask(rt, Course::GoesOn, sends)?;
    Ok(match outcome.told {
        Some(told) => told.how == Ending::Refused && told.result == Some(Err(reason)),
        None => false,
    })
}

#[test]
fn a_refusal_has_its_reason(rt: HostRuntime) -> Result<(), Fail> {
    // BIND, by SOCKS 5 and SOCKS 4, and another method than CONNECT.
    let bind = b"\x05\x01\x00\x05\x02\x00\x01\x7f\x00\x00\x01\x00\x50";
    assert!(rt; is_refused_for(&rt, bind, Ended::Command)?);
    assert!(rt; is_refused_for(&rt, b"\x04\x02", Ended::Command)?);
    assert!(rt; is_refused_for(&rt, b"POST / HTTP/1.1\r\n\r\n", Ended::Command)?);
    // A reserved octet that isn't 0, an unknown type of addresses, no port, and two hosts.
    assert!(rt; is_refused_for(&rt, b"\x05\x01\x00\x05\x01\x07", Ended::Kind)?);
    assert!(rt; is_refused_for(&rt, b"\x05\x01\x00\x05\x01\x00\x02", Ended::Kind)?);
    assert!(rt; is_refused_for(&rt, b"CONNECT a HTTP/1.1\r\n\r\n", Ended::Kind)?);
    let hosts = b"GET http://a/ HTTP/1.1\r\nHost: a\r\nHost: a\r\n\r\n";
    assert!(rt; is_refused_for(&rt, hosts, Ended::Kind)?);
    // A greeting that offers only a password, and a transfer coding before chunked.
    assert!(rt; is_refused_for(&rt, b"\x05\x01\x02", Ended::Kind)?);
    let coded = b"POST http://a/ HTTP/1.1\r\nHost: a\r\nTransfer-Encoding: gzip, chunked\r\n\r\n";
    assert!(rt; is_refused_for(&rt, coded, Ended::Coding)?);
    Ok(())
}

#[test]
fn http_is_answered_by_its_status(rt: HostRuntime) -> Result<(), Fail> {
    assert!(rt;
        is_response(
            &rt,
            Course::Ends(Ended::Refused),
            CONNECTS,
            b"HTTP/1.1 502 "
        )?
    );
    assert!(rt;
        is_response(
            &rt,
            Course::Ends(Ended::TimedOut),
            CONNECTS,
            b"HTTP/1.1 504 "
        )?
    );
    assert!(rt;
        is_response(
            &rt,
            Course::IsRefused(Ended::Forbidden),
            CONNECTS,
            b"HTTP/1.1 403 "
        )?
    );
    assert!(rt;
        is_response(
            &rt,
            Course::GoesOn,
            b"POST / HTTP/1.1\r\n\r\n",
            b"HTTP/1.1 501 "
        )?
    );
    assert!(rt;
        is_response(
            &rt,
            Course::GoesOn,
            b"CONNECT example.org HTTP/1.1\r\n\r\n",
            b"HTTP/1.1 400 "
        )?
    );
    Ok(())
}

#[test]
fn a_client_that_says_nothing_makes_room(rt: HostRuntime) -> Result<(), Fail> {
    assert!(rt; is_answered(&rt, Course::LosesPlace, b"", b"", Ending::Displaced)?);
    Ok(())
}

#[test]
fn a_client_from_which_something_has_come_makes_no_room(rt: HostRuntime) -> Result<(), Fail> {
    let reply = b"\x05\x00\x05\x05\x00\x01\x00\x00\x00\x00\x00\x00";
    assert!(rt; is_answered(&rt, Course::LosesPlace, ASKS, reply, Ending::Refused)?);
    let slow = ask_in_pieces(&rt, Course::LosesPlace, ASKS, 1)?;
    assert!(rt; slow.client_got.as_slice() == reply.as_slice());
    Ok(())
}

#[test]
fn pages_are_asked_of_the_racer(rt: HostRuntime) -> Result<(), Fail> {
    let get = b"GET /proxy.pac HTTP/1.1\r\nHost: localhost:1080\r\n\r\n";
    assert!(rt;
        is_answered(
            &rt,
            Course::GoesOn,
            get,
            b"/proxy.pac at localhost:1080",
            Ending::Page
        )?
    );
    Ok(())
}
