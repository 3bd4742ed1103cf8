//! Laws of what a client gets of a server's octets.
ghost use Rattle.he_response.specs.Answers.{EndsWhole, NothingAfterTheBody};

/// Where a response with a length or chunks has ended, the client was given its head in its new form and its whole
/// body.
pub fn a_response_that_ends_is_whole()
    ensures { EndsWhole }
{}

/// Of all that a server sends, however it is cut into reads, nothing after the body goes on.
pub fn nothing_goes_on_after_the_body()
    ensures { NothingAfterTheBody }
{}
