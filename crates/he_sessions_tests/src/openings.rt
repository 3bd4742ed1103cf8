// Messages put together by hand from RFC 1928 sections 3, 4 and 6 and RFC 9112.

use he_addr::Ip;
use he_front::asked::Asked;
use he_front::authority::read_authority;
use he_front::http::{Head, ReadHead, read_head};
use he_front::line::request_line;
use he_front::opening::{Opening, opening_of};
use he_front::pages::{Page, page_asked};
use he_front::passwords::{Credentials, read_password};
use he_front::replies::{Ended, method_reply, password_reply};
use he_front::responses::{write_advice, write_config, write_page};
use he_front::socks::{Method, Read, Refusal, Target, read_greeting, read_request};
use std::test::Fail;

const LOOPBACK: Ip = Ip::V4(0x7f00_0001);

const BY_NAME: &[u8] = &[
    5, 1, 0, 3, 11, 0x65, 0x78, 0x61, 0x6d, 0x70, 0x6c, 0x65, 0x2e, 0x6f, 0x72, 0x67, 0x01, 0xbb,
];

const BY_IPV4: &[u8] = &[5, 1, 0, 1, 192, 0, 2, 7, 0, 80];

const BY_IPV6: &[u8] = &[
    5, 1, 0, 4, 0x20, 0x01, 0x0d, 0xb8, 0, 0, 0, 0, 0, 0, 0, 0, 0, 0, 0, 1, 0, 80,
];

const WITHOUT_PORT: &[u8] = &[5, 1, 0, 1, 192, 0, 2, 7, 0, 0];

const WITH_A_SPACE: &[u8] = &[5, 1, 0, 3, 3, 0x61, 0x20, 0x62, 0, 80];

const CONNECT: &[u8] = b"CONNECT example.org:443 HTTP/1.1\r\nHost: example.org:443\r\n\r\n\x16\x03";

const GET: &[u8] = b"GET /proxy.pac HTTP/1.1\r\nhost: 127.0.0.1:1080 \r\n\r\n";

#[test]
fn a_greeting_offers_methods(rt: HostRuntime) {
    assert!(rt; opening_of(5) == Opening::Socks && opening_of(b'C') == Opening::Http);
    let open = Method::Open;
    assert!(rt; read_greeting(&[5, 2, 2, 0, 5], open) == Read::Whole(true, 4));
    assert!(rt; read_greeting(&[5, 1, 2], open) == Read::Whole(false, 3));
    assert!(rt; read_greeting(&[5, 2, 0], open) == Read::Partial);
    assert!(rt; read_greeting(&[4, 1], open) == Read::Refused(Refusal::Message));
    assert!(rt; read_greeting(&[5, 1, 2], Method::Password) == Read::Whole(true, 3));
    assert!(rt; read_greeting(&[5, 1, 0], Method::Password) == Read::Whole(false, 3));
    assert!(rt; method_reply(Some(open)) == [5, 0] && method_reply(None) == [5, 0xff]);
    assert!(rt; method_reply(Some(Method::Password)) == [5, 2]);
}

// RFC 1929 section 2: version 1, a name and a password, each after its length.
#[test]
fn a_name_and_a_password_are_taken_whole(rt: HostRuntime) {
    let given = Credentials {
        name: b"me",
        password: b"a:b",
    };
    assert!(rt; read_password(b"\x01\x02me\x03a:b\x05") == Read::Whole(given, 8));
    for end in 0..8usize {
        assert!(rt; read_password(&b"\x01\x02me\x03a:b"[..end]) == Read::Partial);
    }
    assert!(rt; read_password(b"\x05\x02me") == Read::Refused(Refusal::Message));
    assert!(rt; password_reply(true) == [1, 0] && password_reply(false) == [1, 1]);
}

#[test]
fn a_request_is_taken_whole(rt: HostRuntime) {
    let Read::Whole(request, len) = read_request(BY_NAME) else {
        return assert!(rt; false);
    };
    assert!(rt; request.target == Target::Name(b"example.org") && request.port == 443);
    assert!(rt; len == BY_NAME.len());
    assert!(rt; read_request(&BY_NAME[..17]) == Read::Partial);
    assert!(rt; read_request(&[5, 2]) == Read::Refused(Refusal::Command));
    assert!(rt; read_request(&[5, 1, 0, 2]) == Read::Refused(Refusal::Kind));
}

// Whether a SOCKS request names this host.
fn asks_for(rt: HostRuntime, octets: &[u8], host: &str) -> Result<bool, Fail> {
    let Read::Whole(request, _) = read_request(octets) else {
        return Ok(false);
    };
    match Asked::by_socks(rt.alloc(), &request)? {
        Some(asked) => Ok(asked.host.as_str() == host && asked.port == request.port),
        None => Ok(host.is_empty()),
    }
}

#[test]
fn a_request_names_a_host(rt: HostRuntime) -> Result<(), Fail> {
    assert!(rt; asks_for(rt, BY_NAME, "example.org")?);
    assert!(rt; asks_for(rt, BY_IPV4, "192.0.2.7")?);
    assert!(rt; asks_for(rt, BY_IPV6, "2001:db8::1")?);
    assert!(rt; asks_for(rt, WITHOUT_PORT, "")? && asks_for(rt, WITH_A_SPACE, "")?);
    Ok(())
}

#[test]
fn a_target_is_a_host_and_a_port(rt: HostRuntime) {
    assert!(rt; read_authority(b"192.0.2.7:1") == Some((b"192.0.2.7".as_slice(), 1)));
    assert!(rt; read_authority(b"[::1]:65535") == Some((b"::1".as_slice(), 65535)));
    assert!(rt; read_authority(b"example.org").is_none() && read_authority(b":80").is_none());
    assert!(rt; read_authority(b"a:0").is_none() && read_authority(b"a:65536").is_none());
    assert!(rt; read_authority(b"a:+1").is_none() && read_authority(b"a:").is_none());
    assert!(rt; read_authority(b"::1:80").is_none() && read_authority(b"[::1]").is_none());
    assert!(rt; read_authority(b"[192.0.2.7]:80").is_none());
    assert!(rt; read_authority(b"user@a:80").is_none() && read_authority(b"a b:80").is_none());
}

#[test]
fn a_connect_names_its_target(rt: HostRuntime) -> Result<(), Fail> {
    let ReadHead::Whole(Head::Tunnel(target), len) = read_head(CONNECT) else {
        return Ok(assert!(rt; false));
    };
    assert!(rt; CONNECT.get(len..) == Some(b"\x16\x03".as_slice()));
    let Some(text) = CONNECT.get(target.start..target.end) else {
        return Ok(assert!(rt; false));
    };
    let asked = Asked::by_connect(rt.alloc(), text)?;
    assert!(rt;
        asked.is_some_and(|asked| asked.host.as_str() == "example.org" && asked.port == 443)
    );
    Ok(())
}

// Whether the octets begin with this head.
fn begins_with(octets: &[u8], wanted: Head) -> bool {
    match read_head(octets) {
        ReadHead::Whole(head, _) => head == wanted,
        _ => false,
    }
}

#[test]
fn a_target_with_a_scheme_is_forwarded(rt: HostRuntime) {
    assert!(rt; begins_with(b"GET http://a/ HTTP/1.1\r\nHost: a\r\n\r\n", Head::Forward));
    assert!(rt; begins_with(b"PURGE HtTp:// HTTP/1.0\r\n\r\n", Head::Forward));
    assert!(rt; begins_with(b"POST https://a/ HTTP/1.1\r\n\r\n", Head::Other));
    assert!(rt; begins_with(b"POST http:/ HTTP/1.1\r\n\r\n", Head::Other));
    assert!(rt;
        begins_with(
            b"GET http://a/ HTTP/1.1\r\nHost: a\r\nHost: a\r\n\r\n",
            Head::TwoHosts
        )
    );
}

#[test]
fn a_page_is_asked_for(rt: HostRuntime) {
    let ReadHead::Whole(Head::Get(target, Some(host)), _) = read_head(GET) else {
        return assert!(rt; false);
    };
    assert!(rt; GET.get(target.start..target.end) == Some(b"/proxy.pac".as_slice()));
    assert!(rt; GET.get(host.start..host.end) == Some(b"127.0.0.1:1080".as_slice()));
    assert!(rt; read_head(&GET[..9]) == ReadHead::Partial);
    assert!(rt; page(b"/proxy.pac", b"LocalHost:1080") == Some(Page::Config));
    assert!(rt; page(b"/", b"[::1]:1080") == Some(Page::Races));
    assert!(rt; page(b"/", b"[2001:db8::7]:1080") == Some(Page::Races));
    assert!(rt; page(b"/", b"127.0.0.1:8080").is_none());
    assert!(rt; page(b"/", b"example.org:1080").is_none());
    assert!(rt; page(b"http://127.0.0.1:1080/", b"127.0.0.1:1080").is_none());
    assert!(rt; page_asked(b"/", None, LOOPBACK, 1080).is_none());
}

#[test]
fn what_is_refused_has_a_line(rt: HostRuntime) {
    let post = request_line(b"POST /form HTTP/1.1\r\nHost: a b\r\n\r\n");
    assert!(rt; post.method == b"POST".as_slice() && post.target == b"/form".as_slice());
    let short = request_line(b"OPTIONS *\r\n");
    assert!(rt; short.method == b"OPTIONS".as_slice() && short.target == b"*".as_slice());
    let none = request_line(b"\nGET / HTTP/1.1\n");
    assert!(rt; none.method.is_empty() && none.target.is_empty());
    let long = request_line(&[b'A'; 40]);
    assert!(rt; long.method.len() == 32 && long.target.is_empty());
}

fn page(target: &[u8], host: &[u8]) -> Option<Page> {
    let own = Ip::V6(0x2001_0db8_0000_0000_0000_0000_0000_0007);
    page_asked(target, Some(host), own, 1080)
}

#[test]
fn a_response_has_its_reason(rt: HostRuntime) -> Result<(), Fail> {
    let mut out = Vec::new(rt.alloc());
    Ended::Connected.write_response(b"", &mut out)?;
    Ended::TimedOut.write_response(b"no answer", &mut out)?;
    assert!(rt; Ended::Refused.socks_reply() == [5, 5, 0, 1, 0, 0, 0, 0, 0, 0]);
    assert!(rt;
        out.as_slice()
            == b"HTTP/1.1 200 Connection established\r\n\r\n\
        HTTP/1.1 504 Gateway Timeout\r\nContent-Type: text/plain\r\nContent-Length: 10\r\n\
        Cache-Control: no-store\r\nX-Frame-Options: DENY\r\n\
        Cross-Origin-Resource-Policy: same-origin\r\nConnection: close\r\n\r\nno answer\n"
                .as_slice()
    );
    Ok(())
}

#[test]
fn a_page_has_its_text(rt: HostRuntime) -> Result<(), Fail> {
    let mut body = Vec::new(rt.alloc());
    write_advice(Ip::V6(1), 1080, &mut body)?;
    assert!(rt; body.ends_with(b" https_proxy=http://[::1]:1080".as_slice()));
    body.clear();
    write_config(LOOPBACK, 1080, &mut body)?;
    assert!(rt; body.ends_with(b"\n  return \"SOCKS5 127.0.0.1:1080; DIRECT\";\n}\n".as_slice()));
    let mut out = Vec::new(rt.alloc());
    write_page(Page::Config, &body, &mut out)?;
    assert!(rt;
        out.starts_with(b"HTTP/1.1 200 OK\r\nContent-Type: application/x-ns-proxy".as_slice())
    );
    assert!(rt; out.ends_with(body.as_slice()));
    Ok(())
}
