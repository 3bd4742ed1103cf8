//! The connection that won.
ghost use Rattle.std.specs.Prelude.{◌≡◌};

use std::net::{SocketAddr, TcpStream};

/// The winner's connection, with the address, port and interface that it was made to.
#[derive(Drop)]
pub struct Dialed {
    to: SocketAddr,
    stream: TcpStream,
}

impl Dialed {
    pub(crate) fn new(to: SocketAddr, stream: TcpStream) -> Dialed
        ensures { result.to ≡ to }
    {
        Dialed { to, stream }
    }

    /// The address, port and interface that it was made to.
    pub fn to(&self) -> SocketAddr
        ensures { result ≡ self.now.to }
    {
        self.to
    }

    /// The stream. Its reads and writes block.
    pub fn into_stream(self) -> TcpStream
        ensures { result ≡ self.stream }
    {
        self.stream
    }
}
