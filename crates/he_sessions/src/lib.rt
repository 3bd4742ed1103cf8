//! Sessions of a proxy: each reads one client's request, races for it, answers and relays, as a future.
//!
//! A [`Session`] is one client's connection from start to end. It reads the client's request: a tunnel by SOCKS 5 (RFC
//! 1928), by SOCKS 4 or by CONNECT (RFC 9110 section 9.3.6), a request of HTTP to forward (RFC 9112 section 3.2.2), or
//! a page by GET or HEAD. Until the first octet has come, the client may have to make room for another one
//! ([`Place`]). A [`Racer`] races for the connection; meanwhile the session keeps what the client sends, at most 16
//! KiB, and ends the race if the client leaves. It answers in the client's protocol, and relays in both directions
//! until both have ended. If one connection breaks off, the other one is reset once all earlier bytes are sent, after
//! at most ten seconds. A refused client is sent the reason before the connection is closed. Other methods of HTTP are
//! refused; a client whose first octet begins none of these protocols is closed. A request has at most 16 KiB, beside
//! its body. Each session has one timer: it closes a request that is not complete within [`Limits::request`], and a
//! tunnel in which no byte moved for [`Limits::idle`]. A race has the racer's own limit.
//!
//! The server of a request to forward gets the head of `he_forward` in place of the client's, and then the body, which
//! `he_bounded` bounds. The response goes to the client as `he_response` has it, with all responses of 1xx, up to its
//! end, whether the server ends or not; then the connection to the server is closed, and the client's once it closes
//! too, or after [`Limits::request`]. So a connection has one request. The server is not sent the end of the client's
//! sending at the body's end, only if the client ends it. Where the server gives no response, the client gets 502.
//!
//! # What is proved
//!
//! For every racer and every kind of connection, since a session only uses the traits:
//!
//! - At each moment, of all octets that went over the client's connection since it was accepted (`Went` in
//!   `specs/Went`), by the progress of the session (`IsAt` in `specs/Sessions`): the client has sent its greeting,
//!   its request, and what came after these; it was sent the answer to its greeting and a part of one reply.
//!   `Session::new` begins like this, and `Session::poll` keeps it (`IsStep`).
//! - A race is begun only for the host and port that the client's octets name, as `he_front` and `he_forward` define
//!   it (`AsksServer` of he_handshake), and for this client.
//! - With users, a race is begun only for a client whose octets have the name and the password of one of them: in the
//!   message before a request of SOCKS 5 (`LeadsTo` of he_handshake), which is answered by success only then, or in
//!   the head of a request of HTTP (`IsAdmitted`). Without users nobody is asked for a password.
//! - Success is sent to the client only if such a race gave a connection, and once. From then on, the client is
//!   written that connection's octets, in order, none twice and none left out except those held for it; that
//!   connection is written the client's octets after its request likewise. The two are never exchanged, and the
//!   recorded winner is that connection's (`IsRelaying`). The transfer of a tunnel is proved in `he_relay`.
//! - The connection that such a race gave for a request to forward is written the new head and then octets of the
//!   body, in order, none twice and none left out except those held for it, and never one that comes after the body
//!   (`IsInBody`). The client is written the response that came likewise, its heads in their new form, and nothing
//!   that comes after it; and it ends in order only where it is whole or ends with the connection (`IsForwarding` in
//!   `specs/Forwarding`).
//! - A client without a server is sent the reason, by its protocol's reply for an end other than a connection
//!   (`IsTurnedAway` in `specs/Talks`, `IsReply` of he_handshake), whatever the racer returns, or a page that it
//!   requested by GET or HEAD. No such reply begins with a success ([`laws::no_refusal_succeeds`]). While a refusal is
//!   sent, the session's result is its reason (`IsLast` in `specs/Sessions`).
//! - A session never goes back: it reads, races, answers and relays in this order, and a client that was sent a
//!   success or a response, even in part, is sent no failure (`Follows` in `specs/Follows`, `IsClosing` in
//!   `specs/Sessions`).
//! - If one connection of a tunnel broke off, the other one is reset, and the session's end names the one that broke
//!   (`IsCutOf`).
//! - A waiting session has asked to be woken, and a race is polled only while it may be.
//!
//! No contract defines an octet of a real socket: that the octets of these relations are those of the sockets is only
//! tested. So are the octets written to a client in the step that ends its session, the limits of time and room, that
//! each session is reported once, and its counts.
#![tactic(auto)]

mod closing;
pub mod connection;
pub mod ending;
mod forwarding;
mod hearing;
pub mod laws;
mod pages;
pub mod racer;
mod races;
mod requests;
pub mod session;
pub mod states;
mod timing;
mod tunnels;

pub use connection::Connection;
pub use ending::{Ending, SessionEnd};
pub use racer::{PageAsked, Place, RaceAsked, Racer, Winner, Won};
pub use session::{Limits, Session};
