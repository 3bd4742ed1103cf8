//! Connections that sessions read from, write to and reset.
ghost use Rattle.std.specs.Prelude.{◌≡◌};
ghost use Rattle.he_relay.specs.declared.sockets.Cut.{Cut};

use he_relay::Cut;
use std::io;
use std::net::SocketAddr;
use tokio::io::{AsyncRead, AsyncWrite};
use tokio::net::TcpStream;

/// A connection of a session: to its client, or from its race.
pub trait Connection: AsyncRead + AsyncWrite {
    // This cut resets this connection.
    ghost cuts: { Self → Cut → Type 0 };

    /// The address of the local end.
    ///
    /// # Errors
    ///
    /// Those of the system.
    fn own_address(&self) -> io::Result<SocketAddr>;

    /// Has the system send written octets at once, however few (TCP_NODELAY; RFC 9293 section 3.7.4). If the system
    /// refuses, nothing changes.
    fn send_at_once(&self);

    /// The cut that resets it.
    fn into_cut(self) -> Cut
        ensures { cuts self result };
}

impl Connection for TcpStream {
    ghost cuts = { λ stream cut. cut.stream ≡ stream };

    fn own_address(&self) -> io::Result<SocketAddr> {
        self.local_addr()
    }

    fn send_at_once(&self) {
        let _ = self.set_nodelay(true);
    }

    fn into_cut(self) -> Cut {
        Cut::new(self)
    }
}
