// Requests of SOCKS 4 and 4A, put together by hand from the protocol and its extension.

use he_addr::{Ip, Memory};
use he_front::asked::Asked;
use he_front::old_socks::read_old_request;
use he_front::opening::{Opening, opening_of};
use he_front::replies::Ended;
use he_front::socks::{Read, Refusal, Request, Target};
use std::alloc::Global;
use std::test::Fail;

// CONNECT to 192.0.2.7 at port 80 for the user "me".
const BY_ADDRESS: &[u8] = b"\x04\x01\x00\x50\xc0\x00\x02\x07me\x00";

// CONNECT to example.org at port 443, by an address of 0.0.0.x, for no user.
const BY_NAME: &[u8] = b"\x04\x01\x01\xbb\x00\x00\x00\x01\x00example.org\x00";

// One that names a host by the largest such address, for a user.
const BY_LAST: &[u8] = b"\x04\x01\x01\xbb\x00\x00\x00\xffme\x00h\x00";

const USER: &[u8] = b"\x04\x01\x00\x50\xc0\x00\x02\x07";

const NAME: &[u8] = b"\x04\x01\x00\x50\x00\x00\x00\x07\x00";

// Whether all of the octets are read, as a request for this.
fn is_whole(octets: &[u8], target: Target<'_>, port: u16) -> bool {
    match read_old_request(octets) {
        Read::Whole(request, len) => {
            request.target == target && request.port == port && len == octets.len()
        }
        _ => false,
    }
}

// Whether more octets are needed wherever these are cut.
fn is_partial(octets: &[u8]) -> bool {
    for end in 0..octets.len() {
        if read_old_request(&octets[..end]) != Read::Partial {
            return false;
        }
    }
    true
}

#[test]
fn an_old_request_is_taken_whole(rt: HostRuntime) {
    assert!(rt; opening_of(4) == Opening::OldSocks);
    assert!(rt; is_whole(BY_ADDRESS, Target::Address(Ip::V4(0xc000_0207)), 80));
    assert!(rt; is_whole(BY_NAME, Target::Name(b"example.org"), 443));
    assert!(rt; is_whole(BY_LAST, Target::Name(b"h"), 443));
    assert!(rt; is_partial(BY_ADDRESS) && is_partial(BY_NAME) && is_partial(BY_LAST));
}

#[test]
fn an_address_of_other_octets_is_no_sign_of_a_name(rt: HostRuntime) {
    let zero = b"\x04\x01\x00\x50\x00\x00\x00\x00\x00";
    let next = b"\x04\x01\x00\x50\x00\x00\x01\x00\x00";
    let first = b"\x04\x01\x00\x50\x01\x00\x00\x01\x00";
    assert!(rt; is_whole(zero, Target::Address(Ip::V4(0)), 80));
    assert!(rt; is_whole(next, Target::Address(Ip::V4(0x100)), 80));
    assert!(rt; is_whole(first, Target::Address(Ip::V4(0x0100_0001)), 80));
}

#[test]
fn another_command_or_version_is_refused(rt: HostRuntime) {
    assert!(rt; read_old_request(b"\x04\x02") == Read::Refused(Refusal::Command));
    assert!(rt; read_old_request(b"\x04\x00") == Read::Refused(Refusal::Command));
    assert!(rt; read_old_request(b"\x05") == Read::Refused(Refusal::Message));
}

fn repeated(alloc: Global, head: &[u8], count: usize, tail: &[u8]) -> Result<Vec<u8>, Memory> {
    let mut made = Vec::from_slice(alloc, head)?;
    for _ in 0..count {
        made.push(b'a')?;
    }
    made.extend_from_slice(tail)?;
    Ok(made)
}

// The length of the request in these octets, with one of them repeated; 0 if more are needed, None if it is refused.
fn length_of(
    rt: HostRuntime,
    head: &[u8],
    count: usize,
    tail: &[u8],
) -> Result<Option<usize>, Fail> {
    let octets = repeated(rt.alloc(), head, count, tail)?;
    Ok(match read_old_request(&octets) {
        Read::Whole(_, len) => Some(len),
        Read::Partial => Some(0),
        Read::Refused(_) => None,
    })
}

#[test]
fn a_text_has_at_most_255_octets(rt: HostRuntime) -> Result<(), Fail> {
    assert!(rt; length_of(rt, USER, 255, b"\x00")? == Some(264));
    assert!(rt; length_of(rt, USER, 255, b"")? == Some(0));
    assert!(rt; length_of(rt, USER, 256, b"")?.is_none());
    assert!(rt; length_of(rt, USER, 256, b"\x00")?.is_none());
    assert!(rt; length_of(rt, NAME, 255, b"\x00")? == Some(265));
    assert!(rt; length_of(rt, NAME, 255, b"")? == Some(0));
    assert!(rt; length_of(rt, NAME, 256, b"")?.is_none());
    assert!(rt; length_of(rt, NAME, 256, b"\x00")?.is_none());
    Ok(())
}

// Whether a request names this host; an empty one if it names none.
fn asks_for(rt: HostRuntime, request: &Request<'_>, host: &str) -> Result<bool, Fail> {
    match Asked::by_socks(rt.alloc(), request)? {
        Some(asked) => Ok(asked.host.as_str() == host && asked.port == request.port),
        None => Ok(host.is_empty()),
    }
}

fn is_for(rt: HostRuntime, octets: &[u8], host: &str) -> Result<bool, Fail> {
    match read_old_request(octets) {
        Read::Whole(request, _) => asks_for(rt, &request, host),
        _ => Ok(false),
    }
}

#[test]
fn an_old_request_names_a_host(rt: HostRuntime) -> Result<(), Fail> {
    assert!(rt; is_for(rt, BY_ADDRESS, "192.0.2.7")? && is_for(rt, BY_NAME, "example.org")?);
    assert!(rt;
        is_for(
            rt,
            b"\x04\x01\x00\x50\x00\x00\x00\x01\x002001:db8::1\x00",
            "2001:db8::1"
        )?
    );
    assert!(rt; is_for(rt, b"\x04\x01\x00\x50\x00\x00\x00\x01me\x00\x00", "")?);
    assert!(rt; is_for(rt, b"\x04\x01\x00\x50\x00\x00\x00\x01\x00a b\x00", "")?);
    assert!(rt; is_for(rt, b"\x04\x01\x00\x00\xc0\x00\x02\x07\x00", "")?);
    Ok(())
}

#[test]
fn an_old_reply_says_whether_it_is_granted(rt: HostRuntime) {
    assert!(rt; Ended::Connected.old_socks_reply() == [0, 0x5a, 0, 0, 0, 0, 0, 0]);
    assert!(rt; Ended::Command.old_socks_reply() == [0, 0x5b, 0, 0, 0, 0, 0, 0]);
    assert!(rt; Ended::TimedOut.old_socks_reply() == [0, 0x5b, 0, 0, 0, 0, 0, 0]);
}
