// The parts of a response.

ghost use Rattle.std.specs.Prelude.{◌≤◌, IfSome, length};
ghost use Rattle.he_response.specs.Answers.{IsBegun};

use he_body::{Body, Framing};

/// The part of a response that comes next.
#[derive(Clone, Copy, Debug, PartialEq, Eq)]
pub enum Part {
    /// A head.
    Head,
    /// The body, of which so much has come.
    Body(Body),
    /// The rest of what the server sends, which is the body.
    Rest,
    /// Nothing: the octets are no response that is returned, or there was no memory for them.
    Broken,
}

// The body that begins, and how many of these octets are of it. None if no such body begins with them.
pub(crate) fn begun(framing: Option<Framing>, rest: &[u8]) -> Option<(Part, usize)>
    ensures within { IfSome result (λ (part, count). count ≤ length rest.now) }
    ensures begun { IfSome result (λ (part, count). IsBegun framing rest.now part count) }
{
    let Some(framing) = framing else {
        return Some((Part::Rest, rest.len()));
    };
    let mut body = Body::new(framing);
    match body.take(rest) {
        Ok(count) => Some((Part::Body(body), count)),
        Err(_) => None,
    }
}
