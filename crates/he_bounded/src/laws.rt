//! A law of what goes on of a client's octets.
ghost use Rattle.he_bounded.specs.Goes.{NothingAfterTheBody};

/// Of all that a client sends, however it is cut into reads, nothing after the body goes on.
pub fn nothing_goes_on_after_the_body()
    ensures { NothingAfterTheBody }
{}
