//! Responses of plain HTTP that a proxy returns to its client: the heads that the client gets in place of the
//! server's, and where the last response's body ends (RFC 9112 sections 4 and 6.3).
//!
//! Proved, for all octets, of [`read_response`]:
//!
//! - `Whole`: they begin with a response head by the grammar of `httparse`, of which this is what the client gets:
//!   HTTP/1.1, the server's status code and reason, each field that stays (`stays` in `specs/Fields`) in the server's
//!   order, a field Via, and in a final response `Connection: close` (`returned` in `specs/Heads`). It is a head by
//!   the same grammar. The body ends as RFC 9112 section 6.3 says (`IsFramed` in `specs/Framings`).
//! - Nothing that clients read in different ways goes on: no second length, no length beside chunks.
//! - `Refused`: none is returned for the head with which they begin (`IsRefused`), or they begin with none of at most
//!   128 fields, whatever follows. `Partial`: they begin with no whole head, and more octets can complete one.
//!
//! Proved of [`Returned`], for every connection of tokio's traits and every cut of its octets into reads: what it
//! gives is a front of the heads of the interim responses in their new form, of that of the final one, and of its
//! body (`Stands` in `specs/Answers`). It ends only where that response is whole, whether the server closes or not.
#![tactic(auto)]

pub mod answer;
pub mod fields;
pub mod framing;
pub mod laws;
pub mod part;
pub mod response;
pub mod returned;
mod writing;

pub use answer::Answer;
pub use part::Part;
pub use response::{MOST_FIELDS, ReadResponse, Response, read_response};
pub use returned::Returned;
