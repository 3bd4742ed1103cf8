//! The proxy's own pages.

use he_access::reach::Place;
use he_addr::Memory;
use he_front::{Ended, Page, page_asked, write_advice, write_config, write_page};
use he_history::Recent;
use he_metrics::{Metrics, Now};
use std::alloc::Global;

// The port of an http:// URL that has none (RFC 9110 section 4.2.1).
const URL_PORT: u16 = 80;

/// A GET to answer: its target, and the value of its field Host.
#[derive(Clone, Copy)]
pub struct Asked<'a> {
    pub path: &'a [u8],
    pub host: Option<&'a [u8]>,
    /// The place that the client came to.
    pub at: Place,
    /// Whether the client is on this machine.
    pub is_near: bool,
}

/// The state that the pages show.
#[derive(Clone, Copy)]
pub struct Shown<'a> {
    pub recent: &'a Recent,
    pub metrics: &'a Metrics,
    pub now: Now,
}

/// Appends the response: the requested page, for a client that names the proxy itself, the races and the metrics only
/// for one on this machine; otherwise a 501 response with a line on how to use the proxy.
///
/// # Errors
///
/// `Memory` if an allocation fails; part of it may have been appended.
pub fn write_answer(
    alloc: Global,
    shown: Shown<'_>,
    asked: Asked<'_>,
    out: &mut Vec<u8>,
) -> Result<(), Memory> {
    let at = asked.at;
    if let Some(page) = named_page(alloc, asked)?
        && (asked.is_near || is_for_all(page))
    {
        return write_own(alloc, at, shown, page, out);
    }
    let mut advice = Vec::new(alloc);
    write_advice(at.ip, at.port, &mut advice)?;
    Ended::Command.write_response(&advice, out)
}

// The page that the request names. At the port of http:// URLs its field Host has no port (RFC 9110 section 7.2).
fn named_page(alloc: Global, asked: Asked<'_>) -> Result<Option<Page>, Memory> {
    let (path, at) = (without_query(asked.path), asked.at);
    let page = page_asked(path, asked.host, at.ip, at.port);
    match asked.host {
        Some(host) if page.is_none() && at.port == URL_PORT => {
            let mut authority = Vec::from_slice(alloc, host)?;
            authority.extend_from_slice(b":80")?;
            let named = Some(authority.as_slice());
            Ok(page_asked(path, named, at.ip, at.port))
        }
        _ => Ok(page),
    }
}

// Whether the page is for all clients: it says nothing of others' sessions.
fn is_for_all(page: Page) -> bool {
    match page {
        Page::Config | Page::Health => true,
        Page::Races | Page::Metrics => false,
    }
}

// A target in origin form without its query (RFC 9112 section 3.2.1).
fn without_query(target: &[u8]) -> &[u8] {
    match target.iter().position(|octet| *octet == b'?') {
        Some(end) => &target[..end],
        None => target,
    }
}

fn write_own(
    alloc: Global,
    place: Place,
    shown: Shown<'_>,
    page: Page,
    out: &mut Vec<u8>,
) -> Result<(), Memory> {
    let mut body = Vec::new(alloc);
    match page {
        Page::Config => write_config(place.ip, place.port, &mut body)?,
        Page::Races => shown.recent.write_page(&mut body)?,
        Page::Metrics => shown.metrics.write(shown.now, &mut body)?,
        Page::Health => body.extend_from_slice(b"ok\n")?,
    }
    write_page(page, &body, out)
}
