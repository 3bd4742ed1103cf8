//! Where the body of a request ends, as its octets come (RFC 9112 section 6).
#![tactic(auto)]

pub mod body;
pub mod octets;

pub use body::{Body, Framing, Malformed};
