// The clients of a proxy with users: by SOCKS 5 as in RFC 1928 and RFC 1929, by HTTP as in RFC 7617. The Base64 texts
// are those of base64(1).

use crate::homes::{Course, Lender, Outcome, Part, Who, run_of};
use he_front::Ended;
use he_sessions::Ending;
use std::io;
use std::net::{Net, TcpListener, TcpStream};
use std::test::Fail;

const USERS: &[u8] = b"# the office\n\nme:secret\nyou:a:b\n";

const TARGET: (&str, u16) = ("example.org", 80);

// The reply of SOCKS 5 to a request, after the answers to the greeting and to the password.
const OPENED: &[u8] = b"\x05\x02\x01\x00\x05\x00\x00\x01\x00\x00\x00\x00\x00\x00hi";

// The outcome for a client that sends this at once, and whose server sends "hi" once it has got anything.
fn outcome<R: Lender + Net<Listener = TcpListener, Stream = TcpStream>>(
    rt: &R,
    course: Course,
    sends: &[&[u8]],
) -> io::Result<Outcome> {
    let mut octets = Vec::new(rt.alloc());
    for part in sends {
        octets.extend_from_slice(part)?;
    }
    let client = Part {
        sends: octets,
        piece: usize::MAX,
        ends_after: 1,
    };
    let server = Part {
        sends: Vec::from_slice(rt.alloc(), b"hi")?,
        piece: usize::MAX,
        ends_after: 0,
    };
    run_of(rt, USERS, TARGET, course, [client, server])
}

// Whether the client is refused as no user, and gets this first. A race for it would not end.
fn is_turned_away<R: Lender + Net<Listener = TcpListener, Stream = TcpStream>>(
    rt: &R,
    sends: &[&[u8]],
    gets: &[u8],
) -> Result<bool, Fail> {
    let outcome = outcome(rt, Course::GoesOn, sends)?;
    let is_refused = match outcome.told {
        Some(told) => {
            let is_no_user = told.result == Some(Err(Ended::NoUser));
            told.how == Ending::Refused && is_no_user && !told.has_user
        }
        None => false,
    };
    Ok(is_refused && outcome.client_got.starts_with(gets))
}

// Whether a tunnel is opened for the client, which gets this.
fn is_let_in<R: Lender + Net<Listener = TcpListener, Stream = TcpStream>>(
    rt: &R,
    sends: &[&[u8]],
    gets: &[u8],
) -> Result<bool, Fail> {
    let outcome = outcome(rt, Course::Wins, sends)?;
    let asks = match outcome.asked {
        Some(asked) => asked.has_user && !asked.is_get,
        None => false,
    };
    let has_user = match outcome.told {
        Some(told) => told.has_user,
        None => false,
    };
    Ok(asks && has_user && outcome.client_got.as_slice() == gets)
}

const BOTH: &[u8] = b"\x05\x02\x00\x02";

const ASKS: &[u8] = b"\x05\x01\x00\x03\x0bexample.org\x00\x50";

#[test]
fn socks_needs_a_name_and_its_password(rt: HostRuntime) -> Result<(), Fail> {
    assert!(rt; is_let_in(&rt, &[BOTH, b"\x01\x02me\x06secret", ASKS], OPENED)?);
    assert!(rt; is_let_in(&rt, &[BOTH, b"\x01\x03you\x03a:b", ASKS], OPENED)?);
    let refused = b"\x05\x02\x01\x01";
    // A wrong password, another user's, the first octets of one, none, and a name with the colon.
    assert!(rt; is_turned_away(&rt, &[BOTH, b"\x01\x02me\x06secreT", ASKS], refused)?);
    assert!(rt; is_turned_away(&rt, &[BOTH, b"\x01\x02me\x03a:b", ASKS], refused)?);
    assert!(rt; is_turned_away(&rt, &[BOTH, b"\x01\x02me\x05secre", ASKS], refused)?);
    assert!(rt; is_turned_away(&rt, &[BOTH, b"\x01\x02me\x00", ASKS], refused)?);
    assert!(rt; is_turned_away(&rt, &[BOTH, b"\x01\x05you:a\x01b", ASKS], refused)?);
    // Another version of the message, and no message.
    assert!(rt; is_turned_away(&rt, &[BOTH, b"\x05\x02me\x06secret", ASKS], refused)?);
    assert!(rt; is_turned_away(&rt, &[BOTH, ASKS], refused)?);
    // No method but the open one, and SOCKS 4.
    assert!(rt; is_turned_away(&rt, &[b"\x05\x01\x00", ASKS], b"\x05\xff")?);
    let old = b"\x04\x01\x00\x50\x00\x00\x00\x01me\x00example.org\x00";
    assert!(rt; is_turned_away(&rt, &[old], b"\x00\x5b\x00\x00\x00\x00\x00\x00")?);
    Ok(())
}

const CONNECT: &[u8] = b"CONNECT example.org:80 HTTP/1.1\r\nHost: example.org:80\r\n";

const OK: &[u8] = b"HTTP/1.1 200 Connection established\r\n\r\nhi";

const ASKED: &[u8] =
    b"HTTP/1.1 407 Proxy Authentication Required\r\nProxy-Authenticate: Basic realm=\"he\", charset=\"UTF-8\"\r\n";

#[test]
fn http_needs_a_name_and_its_password(rt: HostRuntime) -> Result<(), Fail> {
    let me = b"Proxy-Authorization: Basic bWU6c2VjcmV0\r\n\r\n";
    assert!(rt; is_let_in(&rt, &[CONNECT, me], OK)?);
    let you = b"proxy-authorization: bASIC  eW91OmE6Yg==\r\n\r\n";
    assert!(rt; is_let_in(&rt, &[CONNECT, you], OK)?);
    // None, a wrong password, another user's, another scheme, another field, and a text without padding.
    assert!(rt; is_turned_away(&rt, &[CONNECT, b"\r\n"], ASKED)?);
    let wrong = b"Proxy-Authorization: Basic bWU6c2VjcmVU\r\n\r\n";
    assert!(rt; is_turned_away(&rt, &[CONNECT, wrong], ASKED)?);
    let other = b"Proxy-Authorization: Basic bWU6YTpi\r\n\r\n";
    assert!(rt; is_turned_away(&rt, &[CONNECT, other], ASKED)?);
    let scheme = b"Proxy-Authorization: Bearer bWU6c2VjcmV0\r\n\r\n";
    assert!(rt; is_turned_away(&rt, &[CONNECT, scheme], ASKED)?);
    let field = b"Authorization: Basic bWU6c2VjcmV0\r\n\r\n";
    assert!(rt; is_turned_away(&rt, &[CONNECT, field], ASKED)?);
    let bare = b"Proxy-Authorization: Basic eW91OmE6Yg\r\n\r\n";
    assert!(rt; is_turned_away(&rt, &[CONNECT, bare], ASKED)?);
    let get = b"GET http://example.org/ HTTP/1.1\r\nHost: example.org\r\n\r\n";
    assert!(rt; is_turned_away(&rt, &[get], ASKED)?);
    Ok(())
}

const SENT_ON: &[u8] =
    b"GET / HTTP/1.1\r\nHost: example.org\r\nVia: 1.1 he\r\nConnection: close\r\n\r\n";

#[test]
fn a_password_is_not_sent_on(rt: HostRuntime) -> Result<(), Fail> {
    let get = b"GET http://example.org/ HTTP/1.1\r\nHost: example.org\r\n\
Proxy-Authorization: Basic bWU6c2VjcmV0\r\n\r\n";
    let outcome = outcome(&rt, Course::Wins, &[get])?;
    // The server's "hi" begins no response.
    assert!(rt;
        outcome
            .client_got
            .starts_with(b"HTTP/1.1 502 Bad Gateway\r\n")
    );
    assert!(rt; outcome.server_got.as_slice() == SENT_ON);
    let who = Some(Who {
        has_user: true,
        is_get: true,
    });
    assert!(rt; outcome.asked == who);
    Ok(())
}

#[test]
fn pages_need_no_user(rt: HostRuntime) -> Result<(), Fail> {
    let get = b"GET /proxy.pac HTTP/1.1\r\nHost: localhost:1080\r\n\r\n";
    let outcome = outcome(&rt, Course::GoesOn, &[get])?;
    assert!(rt; outcome.client_got.as_slice() == b"/proxy.pac at localhost:1080".as_slice());
    Ok(())
}
