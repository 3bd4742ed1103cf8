// HTTP responses: to CONNECT, and of the proxy's own pages.

ghost use Rattle.std.specs.Prelude.{◌≡◌, ◌++◌, length, OnOk};
ghost use Rattle.he_addr.specs.Printing.{printed};
ghost use Rattle.he_front.specs.Responses.{advice_text, challenge_text, config_text, head_text, len_text, media_of, media_text, message_text, page_text, phrase_of, refusal_text, response_text, socket_text, status_text, tunnel_text, url_host};

use crate::pages::Page;
use crate::replies::Ended;
use he_addr::{Ip, Memory, write_ip, write_number};
use std::alloc::Allocator;

const OK: u16 = 200;

const NO_USER: u16 = 407;

impl Ended {
    fn phrase(self) -> &'static [u8]
        ensures { result.now ≡ phrase_of self }
    {
        match self {
            Ended::Connected => b"Connection established",
            Ended::Kind => b"Bad Request",
            Ended::Forbidden => b"Forbidden",
            Ended::NoUser => b"Proxy Authentication Required",
            Ended::Failed => b"Internal Server Error",
            Ended::Command | Ended::Coding => b"Not Implemented",
            Ended::NoNetwork | Ended::NoHost | Ended::Refused => b"Bad Gateway",
            Ended::TimedOut => b"Gateway Timeout",
        }
    }

    /// Appends the response to an HTTP client. For a CONNECT with a tunnel it has neither fields nor a body, since
    /// the octets that follow are the remote's (RFC 9110 section 9.3.6). Any other response has the reason as its
    /// body, as a line of text; and one that asks for a user has the challenge (RFC 9110 section 15.5.8).
    ///
    /// # Errors
    ///
    /// [`Memory`] if an allocation failed: `out` then has a part of the response.
    pub fn write_response<A: Allocator + Copy>(
        self,
        reason: &[u8],
        out: &mut Vec<u8, A>,
    ) -> Result<(), Memory>
        ensures { OnOk result (out.new.items ≡ out.old.items ++ response_text self reason.now) }
    {
        match self.status() {
            OK => write_tunnel(out),
            NO_USER => write_challenge(reason, out),
            _ => self.write_refusal(reason, out),
        }
    }

    fn write_refusal<A: Allocator + Copy>(
        self,
        reason: &[u8],
        out: &mut Vec<u8, A>,
    ) -> Result<(), Memory>
        ensures { OnOk result (out.new.items ≡ out.old.items ++ refusal_text self reason.now) }
    {
        let len = reason.len() + 1;
        write_head(self.status(), self.phrase(), b"text/plain", len, out)?;
        write_octets(reason, out)?;
        write_octets(b"\n", out)
    }
}

// The client may ask again with a name and a password in UTF-8 (RFC 7617 section 2).
fn write_challenge<A: Allocator + Copy>(reason: &[u8], out: &mut Vec<u8, A>) -> Result<(), Memory>
    ensures { OnOk result (out.new.items ≡ out.old.items ++ challenge_text reason.now) }
{
    write_status(NO_USER, Ended::NoUser.phrase(), out)?;
    write_octets(
        b"Proxy-Authenticate: Basic realm=\"he\", charset=\"UTF-8\"\r\n",
        out,
    )?;
    write_media(b"text/plain", out)?;
    write_len(reason.len() + 1, out)?;
    write_octets(reason, out)?;
    write_octets(b"\n", out)
}

fn write_tunnel<A: Allocator + Copy>(out: &mut Vec<u8, A>) -> Result<(), Memory>
    ensures { OnOk result (out.new.items ≡ out.old.items ++ tunnel_text) }
{
    write_status(OK, Ended::Connected.phrase(), out)?;
    write_octets(b"\r\n", out)
}

/// Appends the response with this page's text as its body.
///
/// # Errors
///
/// [`Memory`] if an allocation failed: `out` then has a part of the response.
pub fn write_page<A: Allocator + Copy>(
    page: Page,
    body: &[u8],
    out: &mut Vec<u8, A>,
) -> Result<(), Memory>
    ensures { OnOk result (out.new.items ≡ out.old.items ++ page_text page body.now) }
{
    write_message(OK, b"OK", media_of(page), body, out)
}

fn media_of(page: Page) -> &'static [u8]
    ensures { result.now ≡ media_of page }
{
    match page {
        Page::Config => b"application/x-ns-proxy-autoconfig",
        Page::Races => b"text/html; charset=utf-8",
        Page::Metrics => b"application/openmetrics-text; version=1.0.0; charset=utf-8",
        Page::Health => b"text/plain",
    }
}

// A response with a body, after which the connection is closed.
fn write_message<A: Allocator + Copy>(
    status: u16,
    phrase: &[u8],
    media: &[u8],
    body: &[u8],
    out: &mut Vec<u8, A>,
) -> Result<(), Memory>
    ensures { OnOk result (out.new.items ≡ out.old.items ++ message_text status phrase.now media.now body.now) }
{
    write_head(status, phrase, media, body.len(), out)?;
    write_octets(body, out)
}

// The head before a body of `len` octets.
#[tactic(auto, unfolding(crate::specs::Responses::head_text))]
fn write_head<A: Allocator + Copy>(
    status: u16,
    phrase: &[u8],
    media: &[u8],
    len: usize,
    out: &mut Vec<u8, A>,
) -> Result<(), Memory>
    ensures { OnOk result (out.new.items ≡ out.old.items ++ head_text status phrase.now media.now len) }
{
    write_status(status, phrase, out)?;
    write_media(media, out)?;
    write_len(len, out)
}

#[tactic(auto, unfolding(crate::specs::Responses::status_text))]
fn write_status<A: Allocator + Copy>(
    status: u16,
    phrase: &[u8],
    out: &mut Vec<u8, A>,
) -> Result<(), Memory>
    ensures { OnOk result (out.new.items ≡ out.old.items ++ status_text status phrase.now) }
{
    write_octets(b"HTTP/1.1 ", out)?;
    write_number(status as u64, out)?;
    write_octets(b" ", out)?;
    write_octets(phrase, out)?;
    write_octets(b"\r\n", out)
}

#[tactic(auto, unfolding(crate::specs::Responses::media_text))]
fn write_media<A: Allocator + Copy>(media: &[u8], out: &mut Vec<u8, A>) -> Result<(), Memory>
    ensures { OnOk result (out.new.items ≡ out.old.items ++ media_text media.now) }
{
    write_octets(b"Content-Type: ", out)?;
    write_octets(media, out)?;
    write_octets(b"\r\n", out)
}

#[tactic(auto, unfolding(crate::specs::Responses::len_text))]
fn write_len<A: Allocator + Copy>(len: usize, out: &mut Vec<u8, A>) -> Result<(), Memory>
    ensures { OnOk result (out.new.items ≡ out.old.items ++ len_text len) }
{
    write_octets(b"Content-Length: ", out)?;
    write_number(len as u64, out)?;
    write_octets(
        b"\r\nCache-Control: no-store\r\nX-Frame-Options: DENY\r\n",
        out,
    )?;
    write_octets(
        b"Cross-Origin-Resource-Policy: same-origin\r\nConnection: close\r\n\r\n",
        out,
    )
}

/// Appends a proxy auto-config text: it sends a browser's requests to this address and port by SOCKS 5, and directly
/// to their hosts if the proxy can't be reached. Requests for this machine and for hosts without a dot go directly.
///
/// # Errors
///
/// [`Memory`] if an allocation failed: `out` then has a part of the text.
pub fn write_config<A: Allocator + Copy>(
    ip: Ip,
    port: u16,
    out: &mut Vec<u8, A>,
) -> Result<(), Memory>
    ensures { OnOk result (out.new.items ≡ out.old.items ++ config_text ip port) }
{
    write_octets(b"function FindProxyForURL(url, host) {\n", out)?;
    write_octets(
        b"  if (isPlainHostName(host) || dnsDomainIs(host, \".localhost\") ||\n",
        out,
    )?;
    write_octets(
        b"      shExpMatch(host, \"127.*\") || host == \"::1\" || host == \"[::1]\")\n",
        out,
    )?;
    write_octets(b"    return \"DIRECT\";\n  return \"SOCKS5 ", out)?;
    write_socket(ip, port, out)?;
    write_octets(b"; DIRECT\";\n}\n", out)
}

/// Appends the reason for refusing a client that requests neither a tunnel nor a page: how to set the variables from
/// which clients take their proxy.
///
/// # Errors
///
/// [`Memory`] if an allocation failed: `out` then has a part of the line.
pub fn write_advice<A: Allocator + Copy>(
    ip: Ip,
    port: u16,
    out: &mut Vec<u8, A>,
) -> Result<(), Memory>
    ensures { OnOk result (out.new.items ≡ out.old.items ++ advice_text ip port) }
{
    write_octets(
        b"This is a proxy (SOCKS 5, HTTP). Set ALL_PROXY=socks5h://",
        out,
    )?;
    write_socket(ip, port, out)?;
    write_octets(b", or http_proxy and https_proxy=http://", out)?;
    write_socket(ip, port, out)
}

// An address and a port, as in the authority of a URL (RFC 3986 section 3.2).
fn write_socket<A: Allocator + Copy>(ip: Ip, port: u16, out: &mut Vec<u8, A>) -> Result<(), Memory>
    ensures { OnOk result (out.new.items ≡ out.old.items ++ socket_text ip port) }
{
    write_url_host(ip, out)?;
    write_octets(b":", out)?;
    write_number(port as u64, out)
}

fn write_url_host<A: Allocator + Copy>(ip: Ip, out: &mut Vec<u8, A>) -> Result<(), Memory>
    ensures { OnOk result (out.new.items ≡ out.old.items ++ url_host ip) }
{
    match ip {
        Ip::V4(_) => write_ip(ip, out),
        Ip::V6(_) => {
            write_octets(b"[", out)?;
            write_ip(ip, out)?;
            write_octets(b"]", out)
        }
    }
}

fn write_octets<A: Allocator>(octets: &[u8], out: &mut Vec<u8, A>) -> Result<(), Memory>
    ensures { OnOk result (out.new.items ≡ out.old.items ++ octets.now) }
{
    out.extend_from_slice(octets)?;
    Ok(())
}
