//! A query to a name server over a socket, and the log of a look-up.
//!
//! A [`Query`] has a random id and a port that the kernel chooses; its socket is connected, so it receives nothing
//! from other peers. A response with another id or another question is ignored, over TCP too. A truncated response is
//! asked for again over TCP. The query offers datagrams of 1,232 bytes (RFC 6891); a server that can't read that, or
//! has not answered for a second, is asked again without it. The query is sent once a second, as often as the plan of
//! `he_settings` has it; only after all that time does the server count as silent. A server fails if it is
//! unreachable, if its code is neither 0 nor 3, if its answer can't be read, or if it is lame: its answer has no
//! address, and it is neither authoritative for the name nor recursive.
//!
//! Proved: addresses, no address, or no such name are the answer to the question in a message with the id that was
//! sent (`specs/Said`); the reply that a message makes (`specs/Replies`); a pending poll has registered for the
//! query's socket and timer (`specs/Needs`); the event of an answer (`specs/Events`). No clause has the contents of a
//! log, since it is shared. Tested only, on loopback: that queries are sent, when, and that the message read is a
//! server's.
#![tactic(auto)]

mod datagrams;
pub mod limits;
pub mod log;
pub mod query;
pub mod question;
mod replies;
pub mod setup;
mod streams;

pub use log::{LookupEvent, LookupEventKind, LookupLog, Origin};
pub use query::Query;
pub use question::Question;
pub use setup::Setup;
