//! A client of which no more is read than the body of its request (RFC 9112 section 6).
//!
//! A [`Bounded`] connection gives the octets of one body, and drops what comes after it: on a proxy's connection that
//! is a second request, which may be for another server. It never reports the body's end as the end of the
//! connection, since a server takes a half-closed connection for a client that has left.
//!
//! Proved, for every connection of tokio's traits and every cut of its octets into reads:
//!
//! - What goes on is a front of the body: none of the octets after the body does (`IsInBody` in `specs/Goes`).
//! - Once the body is over, what went on is all of it (`EndsWhole`).
//! - What is written to the client is unchanged.
//!
//! Neither proved nor tested here: the count of the octets that were dropped.
#![tactic(auto)]

pub mod bounded;
pub mod laws;

pub use bounded::Bounded;
