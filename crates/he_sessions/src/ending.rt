//! How a session ended.

use crate::racer::Winner;
use he_front::{Ended, RequestLine};
use std::fmt;
use std::fmt::{Display, Formatter, Write};
use std::net::SocketAddr;

/// How a session ended.
#[derive(Clone, Copy, Debug, PartialEq, Eq)]
pub enum Ending {
    /// Both directions of the tunnel ended, or the response to a forwarded request was written.
    Closed,
    /// The connection to the client broke off, and so the tunnel.
    ClientBroke,
    /// The connection to the server broke off, and so the tunnel.
    ServerBroke,
    /// No byte moved for the idle time.
    Idle,
    /// The client left before its tunnel was open.
    Left,
    /// Nothing had come from the client yet, and it made room for another one.
    Displaced,
    /// The request was not complete, or its answer not taken, in time.
    Late,
    /// The client was refused, or its race was lost; it was sent the reason.
    Refused,
    /// The server gave no response that can be returned; the client was sent the reason.
    NoResponse,
    /// The client requested a page.
    Page,
    /// The first octet begins no protocol of this proxy.
    Unknown,
    /// The proxy had no memory for the session.
    Failed,
}

impl Display for Ending {
    fn fmt<W: Write>(&self, f: &mut Formatter<W>) -> fmt::Result {
        f.write_str(match self {
            Ending::Closed => "closed",
            Ending::ClientBroke => "client-broke",
            Ending::ServerBroke => "server-broke",
            Ending::Idle => "idle",
            Ending::Left => "client-left",
            Ending::Displaced => "displaced",
            Ending::Late => "too-late",
            Ending::Refused => "refused",
            Ending::NoResponse => "no-response",
            Ending::Page => "page",
            Ending::Unknown => "unknown-protocol",
            Ending::Failed => "no-memory",
        })
    }
}

/// An ended session, for a log.
#[derive(Clone, Copy, Debug, PartialEq, Eq)]
pub struct SessionEnd<'a> {
    /// The client's address and port.
    pub client: SocketAddr,
    /// The host of its request; empty if none.
    pub host: &'a str,
    /// The port of its request; 0 if none.
    pub port: u16,
    /// The name of its user, if it was asked for one: any octets.
    pub user: Option<&'a [u8]>,
    /// How its race ended, or why it was refused; `None` if it ended before.
    pub result: Option<Result<Winner, Ended>>,
    /// The method and the target of an HTTP request for a page or of a refused one; of a forwarded one only the
    /// method. They are any octets.
    pub request: Option<RequestLine<'a>>,
    /// Bytes written to the server.
    pub sent: u64,
    /// Bytes written to the client after the tunnel was opened.
    pub received: u64,
    /// How it ended.
    pub how: Ending,
}
