//! Races for connections.
ghost use Rattle.std.specs.Prelude.{◌≡◌, ℕ, List, Result, IfOk, IsTrue};
ghost use Rattle.std.specs.declared.net.socket_addr.SocketAddr.{SocketAddr};
ghost use Rattle.futures.specs.Task.{Keeps};
ghost use Rattle.he_front.specs.declared.replies.Ended.{Ended};
ghost use Rattle.he_users.specs.declared.users.Users.{Users};
ghost use Rattle.he_sessions.specs.declared.racer.Won.{Won};

use crate::connection::Connection;
use crate::ending::SessionEnd;
use futures::Future;
use futures::task::{Context, Poll};
use he_addr::{Ip, Memory};
use he_front::Ended;
use he_users::Users;
use std::io;
use std::net::SocketAddr;

/// The address that won a race.
#[derive(Clone, Copy, Debug, PartialEq, Eq)]
pub struct Winner {
    /// The address.
    pub ip: Ip,
    /// Milliseconds from the start of the race to the connection.
    pub ticks: u64,
    /// Milliseconds of these lost to addresses that failed or came late.
    pub lost: u64,
}

/// The result of a won race.
#[derive(Drop)]
pub struct Won<S> {
    /// The connection.
    pub stream: S,
    /// The address of the connection.
    pub winner: Winner,
}

/// A request for a connection.
#[derive(Clone, Copy, Debug, PartialEq, Eq)]
pub struct RaceAsked<'a> {
    /// The client's address.
    pub client: SocketAddr,
    /// The name of its user, if it gave one: any octets.
    pub user: Option<&'a [u8]>,
    /// The method of a request to forward: any octets.
    pub method: Option<&'a [u8]>,
    /// The host: an address or a name in text.
    pub host: &'a str,
    /// The port.
    pub port: u16,
}

/// A request for a page.
#[derive(Clone, Copy, Debug, PartialEq, Eq)]
pub struct PageAsked<'a> {
    /// The client's address.
    pub client: SocketAddr,
    /// The local address that it came to.
    pub at: SocketAddr,
    /// The target of the request.
    pub path: &'a [u8],
    /// The value of the request's field Host.
    pub host: Option<&'a [u8]>,
}

/// A client's place among those that have sent nothing yet. Dropping it gives it back.
pub trait Place: Drop {
    /// Ready once the client must leave, since another one takes its place.
    fn poll_lost(&mut self, cx: &mut Context<'_>) -> Poll<()>
        ensures kept { Keeps cx.old cx.new };
}

/// Races for connections, shows pages and logs sessions.
pub trait Racer {
    /// The connections of clients and of races.
    type Stream: Connection;

    /// A race in progress.
    type Race: Future<Output = Result<Won<Self::Stream>, Ended>>;

    /// A place of a client that has sent nothing yet.
    type Place: Place;

    // The client of this address is served.
    ghost serves: { Self → SocketAddr → Type 0 };

    // Who may use the proxy.
    ghost all_users: { Self → Users };

    // A possible result of a race for the client of this address, to the host of these octets at this port.
    ghost answers: { Self → SocketAddr → List ℕ → ℕ → Result (Won Self.Stream) Ended → Type 0 };

    /// Whether the client of this address is served.
    fn is_served(&self, client: SocketAddr) -> bool
        ensures { IsTrue result → Self.serves self.now client };

    /// The users of the proxy. With none, each client that is served may use it.
    fn users(&self) -> &Users
        ensures { result.now ≡ Self.all_users self.now };

    /// The place of the client of this address, which has just connected.
    ///
    /// # Errors
    ///
    /// Those of the clock, and `OutOfMemory`.
    fn place(&self, client: SocketAddr) -> io::Result<Self::Place>;

    /// Begins a race for a connection to the host at the port.
    ///
    /// # Errors
    ///
    /// The end of the session: `Forbidden` if this client may not reach this target, as if that is the proxy itself.
    fn race(&self, asked: &RaceAsked<'_>) -> Result<Self::Race, Ended>
        ensures can { IfOk result Self.Race.can_poll }
        ensures answers { IfOk result (λ race. (end : Result (Won Self.Stream) Ended) → Self.Race.gives race end
            → Self.answers self.now asked.now.client asked.now.host.now asked.now.port end) };

    /// Writes the whole HTTP response to a GET of a page.
    ///
    /// # Errors
    ///
    /// `Memory` if an allocation fails.
    fn page(&self, asked: &PageAsked<'_>, out: &mut Vec<u8>) -> Result<(), Memory>;

    /// Appends, to the reason that the client of a lost race gets as text, what the race tried.
    ///
    /// # Errors
    ///
    /// `Memory` if an allocation fails.
    fn write_tried(&self, client: SocketAddr, reason: &mut Vec<u8>) -> Result<(), Memory>;

    /// The client of this address has left during its race. The race is polled once more after that, and then
    /// dropped.
    fn left(&self, client: SocketAddr);

    /// Records the end of a session, once for each.
    fn ended(&self, end: &SessionEnd<'_>);
}
