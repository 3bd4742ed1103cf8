// Tunnels that are opened, and clients that leave before.

use crate::homes::{Course, Lender, Outcome, Part, WINNER, run};
use he_addr::Memory;
use he_sessions::Ending;
use std::alloc::Global;
use std::io;
use std::net::{Net, TcpListener, TcpStream};
use std::test::Fail;
use std::time::Duration;

const NAMED: &[u8] = b"\x05\x01\x00\x05\x01\x00\x03\x0bexample.org\x01\xbb";

const FOUR: &[u8] = b"\x05\x02\x02\x00\x05\x01\x00\x01\xc0\x00\x02\x07\x00\x50";

const SIX: &[u8] =
    b"\x05\x01\x00\x05\x01\x00\x04\x20\x01\x0d\xb8\0\0\0\0\0\0\0\0\0\0\0\x01\x1f\x90";

const CONNECTS: &[u8] = b"CONNECT [2001:db8::1]:8080 HTTP/1.1\r\nHost: h\r\n\r\n";

// SOCKS 4 for the user "me", SOCKS 4A for none, and an IPv6 address as a name.
const OLD_FOUR: &[u8] = b"\x04\x01\x00\x50\xc0\x00\x02\x07me\x00";

const OLD_NAMED: &[u8] = b"\x04\x01\x01\xbb\x00\x00\x00\x01\x00example.org\x00";

const OLD_SIX: &[u8] = b"\x04\x01\x1f\x90\x00\x00\x00\xff\x002001:db8::1\x00";

const OLD_OPEN: &[u8] = b"\x00\x5a\x00\x00\x00\x00\x00\x00";

const SOCKS_OPEN: &[u8] = b"\x05\x00\x05\x00\x00\x01\x00\x00\x00\x00\x00\x00";

const HTTP_OPEN: &[u8] = b"HTTP/1.1 200 Connection established\r\n\r\n";

const MEGABYTE: usize = 1_000_000;

// `count` octets, of which no short piece comes twice.
fn octets(alloc: Global, count: usize) -> Result<Vec<u8>, Memory> {
    let mut made = Vec::with_capacity(alloc, count)?;
    let mut state = 1u32;
    for _ in 0..count {
        state = state.wrapping_mul(1_664_525).wrapping_add(1_013_904_223);
        made.extend_from_slice(&[(state >> 24) as u8])?;
    }
    Ok(made)
}

fn joined(alloc: Global, first: &[u8], second: &[u8]) -> Result<Vec<u8>, Memory> {
    let mut all = Vec::from_slice(alloc, first)?;
    all.extend_from_slice(second)?;
    Ok(all)
}

// The outcome for a client that asks for a tunnel so, with `count` octets each way.
fn tunnel<R: Lender + Net<Listener = TcpListener, Stream = TcpStream>>(
    rt: &R,
    target: (&'static str, u16),
    asks: &[u8],
    opens: &[u8],
    count: usize,
    piece: usize,
) -> io::Result<Outcome> {
    let payload = octets(rt.alloc(), count)?;
    let client = Part {
        sends: joined(rt.alloc(), asks, &payload)?,
        piece,
        ends_after: opens.len(),
    };
    let server = Part {
        sends: payload,
        piece: usize::MAX,
        ends_after: count,
    };
    run(rt, target, Course::Wins, None, client, server)
}

// Whether all octets arrive, both ways, and the session's report of its end is right.
fn is_whole<R: Lender + Net<Listener = TcpListener, Stream = TcpStream>>(
    rt: &R,
    target: (&'static str, u16),
    asks: &[u8],
    opens: &[u8],
    count: usize,
    piece: usize,
) -> Result<bool, Fail> {
    let outcome = tunnel(rt, target, asks, opens, count, piece)?;
    let payload = octets(rt.alloc(), count)?;
    let answer = joined(rt.alloc(), opens, &payload)?;
    let is_told = match outcome.told {
        Some(told) => {
            told.port == target.1
                && told.how == Ending::Closed
                && told.result == Some(Ok(WINNER))
                && told.sent == count as u64
                && told.received == count as u64
        }
        None => false,
    };
    let is_sent = outcome.server_got.as_slice() == payload.as_slice();
    let is_got = outcome.client_got.as_slice() == answer.as_slice();
    Ok(is_told && is_sent && is_got)
}

#[test]
fn each_kind_of_target_is_raced_for(rt: HostRuntime) -> Result<(), Fail> {
    assert!(rt; is_whole(&rt, ("example.org", 443), NAMED, SOCKS_OPEN, 40, usize::MAX)?);
    assert!(rt; is_whole(&rt, ("192.0.2.7", 80), FOUR, SOCKS_OPEN, 40, usize::MAX)?);
    assert!(rt; is_whole(&rt, ("2001:db8::1", 8080), SIX, SOCKS_OPEN, 40, usize::MAX)?);
    assert!(rt;
        is_whole(
            &rt,
            ("2001:db8::1", 8080),
            CONNECTS,
            HTTP_OPEN,
            40,
            usize::MAX
        )?
    );
    Ok(())
}

#[test]
fn each_kind_of_old_target_is_raced_for(rt: HostRuntime) -> Result<(), Fail> {
    assert!(rt; is_whole(&rt, ("192.0.2.7", 80), OLD_FOUR, OLD_OPEN, 40, usize::MAX)?);
    assert!(rt;
        is_whole(
            &rt,
            ("example.org", 443),
            OLD_NAMED,
            OLD_OPEN,
            40,
            usize::MAX
        )?
    );
    assert!(rt;
        is_whole(
            &rt,
            ("2001:db8::1", 8080),
            OLD_SIX,
            OLD_OPEN,
            40,
            usize::MAX
        )?
    );
    Ok(())
}

#[test]
fn a_request_may_come_octet_by_octet(rt: HostRuntime) -> Result<(), Fail> {
    assert!(rt; is_whole(&rt, ("example.org", 443), NAMED, SOCKS_OPEN, 40, 1)?);
    assert!(rt; is_whole(&rt, ("2001:db8::1", 8080), CONNECTS, HTTP_OPEN, 40, 1)?);
    assert!(rt; is_whole(&rt, ("192.0.2.7", 80), OLD_FOUR, OLD_OPEN, 40, 1)?);
    assert!(rt; is_whole(&rt, ("example.org", 443), OLD_NAMED, OLD_OPEN, 40, 1)?);
    Ok(())
}

#[test]
fn a_megabyte_arrives_both_ways(rt: HostRuntime) -> Result<(), Fail> {
    assert!(rt;
        is_whole(
            &rt,
            ("example.org", 443),
            NAMED,
            SOCKS_OPEN,
            MEGABYTE,
            usize::MAX
        )?
    );
    Ok(())
}

// The outcome for a client whose race goes on, or whose tunnel is silent.
fn wait<R: Lender + Net<Listener = TcpListener, Stream = TcpStream>>(
    rt: &R,
    course: Course,
    idle: Option<Duration>,
    ends_after: usize,
) -> io::Result<Outcome> {
    let client = Part {
        sends: Vec::from_slice(rt.alloc(), NAMED)?,
        piece: usize::MAX,
        ends_after,
    };
    let server = Part {
        sends: Vec::new(rt.alloc()),
        piece: usize::MAX,
        ends_after: 1,
    };
    run(rt, ("example.org", 443), course, idle, client, server)
}

#[test]
fn a_client_that_leaves_ends_its_race(rt: HostRuntime) -> Result<(), Fail> {
    let outcome = wait(&rt, Course::GoesOn, None, 2)?;
    assert!(rt;
        matches!(outcome.told, Some(told) if told.how == Ending::Left && told.result == None)
    );
    Ok(())
}

#[test]
fn a_silent_tunnel_ends_after_its_limit(rt: HostRuntime) -> Result<(), Fail> {
    let idle = Some(Duration::from_millis(50));
    let outcome = wait(&rt, Course::Wins, idle, usize::MAX)?;
    assert!(rt; matches!(outcome.told, Some(told) if told.how == Ending::Idle));
    Ok(())
}

#[test]
fn a_request_that_does_not_come_is_waited_for(rt: HostRuntime) -> Result<(), Fail> {
    let client = Part {
        sends: Vec::from_slice(rt.alloc(), b"\x05\x01")?,
        piece: usize::MAX,
        ends_after: usize::MAX,
    };
    let server = Part {
        sends: Vec::new(rt.alloc()),
        piece: 1,
        ends_after: 0,
    };
    let outcome = run(
        &rt,
        ("example.org", 443),
        Course::GoesOn,
        None,
        client,
        server,
    )?;
    assert!(rt; matches!(outcome.told, Some(told) if told.how == Ending::Late));
    Ok(())
}
