// The racer's pages.

use crate::racer::{PageAsked, Racer};
use he_addr::Memory;
use he_handshake::Extent;
use std::alloc::Global;

// The response to a request for a page.
pub(crate) fn page_of<Q: Racer>(
    racer: &Q,
    alloc: Global,
    extent: Extent,
    asked: &PageAsked<'_>,
) -> Result<Vec<u8>, Memory> {
    let mut out = Vec::new(alloc);
    racer.page(asked, &mut out)?;
    if extent == Extent::Head {
        cut_body(&mut out);
    }
    Ok(out)
}

// Keeps the head of a response, which ends with an empty line (RFC 9112 section 2.1).
fn cut_body(response: &mut Vec<u8>) {
    let end = response
        .windows(4)
        .position(|part| part == b"\r\n\r\n".as_slice());
    if let Some(end) = end {
        response.truncate(end.saturating_add(4));
    }
}
