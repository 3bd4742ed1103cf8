//! A client's handshake with a proxy: the message or the request with which its octets begin, and the replies.
//!
//! A client of SOCKS 5 greets, shows a name and a password if it is asked for them, and requests (RFC 1928, RFC 1929);
//! one of SOCKS 4 or HTTP requests at once. A [`Stage`] is how far it has come. This crate reads and writes octets,
//! and has no sockets: `he_front` and `he_forward` parse the single messages.
//!
//! Proved, for all octets, users and stages:
//!
//! - [`read_ask`]: a message is one that leads to the next stage; a request for a server begins the octets, with this
//!   host and port, by the protocol of this stage; so does a request for a page (`Asks` in `specs/Asks`). With users,
//!   the name and the password of one of them are in a message that leads on, and in the head of a request of HTTP
//!   (`LeadsTo`, `IsAdmitted`). A refusal is never that of a connection.
//! - [`user_in`]: the name is that of the user whose name and password the head has (`HasUser`).
//! - [`reply_to`], [`answer_to`], [`no_method`], [`no_user`] and [`no_response`]: their octets (`specs/Replies`).
//!
//! Only tested, by `he_sessions_tests`: which requests are refused, by which end, and when more octets are waited for.
#![tactic(auto)]

mod admitting;
mod asking;
mod reply;

pub use admitting::user_in;
pub use asking::{
    Ask, Extent, Outgoing, Protocol, Stage, Wanted, ended_without_method, piece, protocol_at,
    protocol_of, read_ask,
};
pub use reply::{answer_to, http_reply, no_method, no_response, no_user, reason_of, reply_to};
