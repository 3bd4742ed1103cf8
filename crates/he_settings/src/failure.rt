//! How a name server fails.

ghost use Rattle.std.specs.Prelude.{◌≡◌};
ghost use Rattle.he_settings.specs.Faults.{is_of_room};

use crate::limits::SERVER_PORT;
use std::fmt;
use std::net::SocketAddr;
use thiserror::Error;

/// How a name server failed to answer for a name.
#[derive(Clone, Copy, Debug, PartialEq, Eq, Error)]
pub enum Failure {
    /// RCODE 1: the server could not read the query.
    #[error("FORMERR")]
    FormatError,
    /// RCODE 2: the server failed.
    #[error("SERVFAIL")]
    ServerFailure,
    /// RCODE 4: the server doesn't support the kind of query.
    #[error("NOTIMP")]
    NotImplemented,
    /// RCODE 5: the server refused.
    #[error("REFUSED")]
    Refused,
    /// Extended RCODE 16: the server doesn't support the EDNS version (RFC 6891 section 6.1.3).
    #[error("BADVERS")]
    BadVersion,
    /// Any other code of 12 bits but 0 and 3.
    #[error("response code {0}")]
    Code(u16),
    /// The answer has no address, and the server is neither authoritative for the name nor recursive (AA and RA are
    /// 0).
    #[error("is not responsible for the name and does not ask other servers")]
    Lame,
    /// The answer can't be read.
    #[error("answered what can't be read")]
    Malformed,
    /// The answer has more aliases than are followed.
    #[error("answered more than 16 aliases in a row, as in a loop of them")]
    Aliases,
    /// The server is unreachable, or nothing listens there.
    #[error("cannot be reached")]
    Unreachable,
}

impl Failure {
    /// Whether the OPT record, which gives the size of the datagrams that the client takes, may be why the server
    /// failed.
    pub fn is_of_room(self) -> bool
        ensures { result ≡ is_of_room self }
    {
        matches!(
            self,
            Failure::FormatError | Failure::NotImplemented | Failure::BadVersion
        )
    }
}

/// A name server that failed, and how it failed.
#[derive(Clone, Copy, PartialEq, Eq)]
pub struct ServerFault {
    pub server: SocketAddr,
    pub failure: Failure,
}

// The address, with its port unless it is 53, and the failure: `192.0.2.1: SERVFAIL`.
impl fmt::Display for ServerFault {
    fn fmt<W: fmt::Write>(&self, f: &mut fmt::Formatter<W>) -> fmt::Result {
        let (server, failure) = (ShownServer(self.server), self.failure);
        write!(f, "{server}: {failure}")
    }
}

/// Prints the address of a server, with its port unless it is 53.
#[derive(Clone, Copy)]
pub struct ShownServer(pub SocketAddr);

impl fmt::Display for ShownServer {
    fn fmt<W: fmt::Write>(&self, f: &mut fmt::Formatter<W>) -> fmt::Result {
        let server = self.0;
        match server {
            SocketAddr::V6(six) if six.port() == SERVER_PORT && six.scope_id() != 0 => {
                let (ip, scope) = (server.ip(), six.scope_id());
                write!(f, "{ip}%{scope}")
            }
            _ if server.port() == SERVER_PORT => {
                let ip = server.ip();
                write!(f, "{ip}")
            }
            _ => write!(f, "{server}"),
        }
    }
}

impl fmt::Debug for ServerFault {
    fn fmt<W: fmt::Write>(&self, f: &mut fmt::Formatter<W>) -> fmt::Result {
        fmt::Display::fmt(self, f)
    }
}
