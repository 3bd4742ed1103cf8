//! The states of a session.

use crate::ending::Ending;
use crate::racer::Won;
use bytes::BytesMut;
use he_bounded::Bounded;
use he_handshake::{Stage, Wanted};
use he_relay::{Cut, Tunnel};
use he_response::Returned;
use std::time::Instant;

/// The state of a session.
#[derive(Drop)]
pub enum State<F, S> {
    /// The client's request is being read.
    Asking(Asking<S>),
    /// The race for it is in progress.
    Racing(Racing<F, S>),
    /// The race is won, and the client is being sent the success.
    Answering(Answering<S>),
    /// The client is being sent a final reply: why there is no tunnel, or a page.
    Closing(Closing<S>),
    /// The tunnel is open.
    Relaying(Relaying<S>),
    /// The server is being sent the client's request, and the client the response.
    Forwarding(Forwarding<S>),
    /// The response is written, and the client is to close.
    Parting(Parting<S>),
    /// One of the two connections broke off, and the other one will be reset.
    Cutting(Cutting),
    /// The session has ended.
    Over,
}

/// The client's request is being read.
#[derive(Drop)]
pub struct Asking<S> {
    /// The client.
    pub client: S,
    /// The octets that have come and are not answered yet.
    pub come: Vec<u8>,
    /// How far it has come.
    pub stage: Stage,
    /// The octets to write before more is read.
    pub reply: BytesMut,
}

/// The race is in progress.
#[derive(Drop)]
pub struct Racing<F, S> {
    /// The client.
    pub client: S,
    /// The octets after the request.
    pub early: Vec<u8>,
    /// Whether the client has ended its direction.
    pub has_ended: bool,
    /// The client's wish for the connection.
    pub wanted: Wanted,
    /// The race.
    pub race: F,
}

/// The race is won.
#[derive(Drop)]
pub struct Answering<S> {
    /// The client.
    pub client: S,
    /// The octets after the request.
    pub early: Vec<u8>,
    /// The result of the race.
    pub won: Won<S>,
    /// The octets to write before the tunnel is open.
    pub reply: BytesMut,
}

/// There is no tunnel.
#[derive(Drop)]
pub struct Closing<S> {
    /// The client.
    pub client: S,
    /// The octets to write before the close.
    pub reply: BytesMut,
    /// How the session ends.
    pub how: Ending,
}

/// The tunnel is open.
#[derive(Drop)]
pub struct Relaying<S> {
    /// The tunnel.
    pub tunnel: Tunnel<S, S>,
    /// The bytes that it has moved.
    pub progress: Progress,
}

/// A request is being forwarded, and its response relayed.
#[derive(Drop)]
pub struct Forwarding<S> {
    /// The tunnel, which takes no more from the client than the body of the request, and from the server than one
    /// response.
    pub tunnel: Tunnel<Bounded<S>, Returned<S>>,
    /// The bytes that it has moved.
    pub progress: Progress,
}

/// The response is written.
#[derive(Drop)]
pub struct Parting<S> {
    /// The client.
    pub client: S,
}

/// The progress of a tunnel.
#[derive(Drop)]
pub struct Progress {
    /// The bytes moved in both directions at the last look.
    pub seen: u64,
    /// When the idle time ends, after the last byte that moved.
    pub until: Option<Instant>,
}

/// One of the two connections broke off.
#[derive(Drop)]
pub struct Cutting {
    /// The connection that did not break off.
    pub cut: Cut,
    /// How the session ends.
    pub how: Ending,
    /// The most looks that remain for whether all is sent.
    pub looks: u32,
}
