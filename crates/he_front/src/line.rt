// The request line of a refused request, for a log.

ghost use Rattle.std.specs.Prelude.{◌≡◌, take};
ghost use Rattle.he_front.specs.Lines.{after, before, method_in, target_in};

use crate::authority::cut;

const SPACE: u8 = b' ';

const LF: u8 = b'\n';

const CR: u8 = b'\r';

/// The maximum number of octets returned of a method.
pub const MOST_METHOD: usize = 32;

/// The maximum number of octets returned of a target.
pub const MOST_TARGET: usize = 256;

/// The method and the target of a refused request, each cut to its maximum length. They may be any octets but a space
/// and the end of a line.
#[derive(Clone, Copy, Debug, PartialEq, Eq)]
pub struct RequestLine<'o> {
    pub method: &'o [u8],
    pub target: &'o [u8],
}

/// The method and the target with which the octets begin (RFC 9112 section 3), as far as they have them: the first
/// line up to its first space, and from there up to its second.
pub fn request_line(octets: &[u8]) -> RequestLine<'_>
    ensures method { result.method.now ≡ take 32 (method_in octets.now) }
    ensures target { result.target.now ≡ take 256 (target_in octets.now) }
{
    let line = before(before(octets, LF), CR);
    RequestLine {
        method: first(before(line, SPACE), MOST_METHOD),
        target: first(before(after(line, SPACE), SPACE), MOST_TARGET),
    }
}

// The text before the first mark; all of it if there is none.
fn before(text: &[u8], mark: u8) -> &[u8]
    ensures { result.now ≡ before mark text.now }
{
    match cut(text, mark) {
        Some((before, _)) => before,
        None => text,
    }
}

// The text after the first mark; empty if there is none.
fn after(text: &[u8], mark: u8) -> &[u8]
    ensures { result.now ≡ after mark text.now }
{
    match cut(text, mark) {
        Some((_, after)) => after,
        None => &[],
    }
}

fn first(text: &[u8], most: usize) -> &[u8]
    ensures { result.now ≡ take most text.now }
{
    if text.len() <= most {
        text
    } else {
        &text[..most]
    }
}
