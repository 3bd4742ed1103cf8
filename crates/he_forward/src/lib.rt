//! Requests of plain HTTP that a proxy forwards (absolute form, RFC 9112 section 3.2.2): what the server gets in
//! place of the client's head. This crate reads and writes octets, and has no sockets.
//!
//! Proved, for all octets, of [`read_forward`]:
//!
//! - `Whole`: they begin with a request head by the grammar of `httparse`, of which this is what is forwarded. The
//!   host and the port are those that its target names. The new head has the method, the target in origin form, the
//!   client's version, a field Host with the target's authority, each field that stays (`stays` in `specs/Fields`) in
//!   the client's order, a field Via and `Connection: close` (`forwarded` in `specs/Forwards`). It is a head by the
//!   same grammar. The body is framed in one way, as the fields say (`IsFramed` in `specs/Lengths`).
//! - Nothing that servers read in different ways goes on: no second field Host, Content-Length or Transfer-Encoding,
//!   no line feed alone (`IsForwardOf` in `specs/Requests`).
//! - `Refused`: none is forwarded for the head with which they begin (`IsRefused`), or they begin with none of at most
//!   64 fields, whatever follows; the fault is `Coding` exactly for a head whose body has another transfer coding
//!   before chunked (`fault_of`). `Partial`: they begin with no whole head, and more octets can complete one.
//!
//! Only tested: the heads of some requests, and which forms of request smuggling are refused.
#![tactic(auto)]

pub mod fields;
mod forward;
pub mod length;
mod target;
pub mod writing;

pub use forward::{Fault, Forward, ReadForward, read_forward};
