//! Why a proxy doesn't serve.

use he_addr::Memory;
use he_history::Cause;
use he_live::Reason;
use he_setup::ConnectFault;
use he_users::UsersFault;
use std::alloc::AllocFailed;
use std::io;
use std::net::SocketAddr;
use thiserror::Error;

/// Why a proxy doesn't serve.
#[derive(Clone, Copy, Debug, PartialEq, Eq, Error)]
pub enum ProxyFault {
    /// The proxy can't listen at the address.
    #[error("cannot listen at {0}: {1}")]
    Listen(SocketAddr, Cause),
    /// The address is open to other machines, but no network is allowed.
    #[error("other machines can reach {0}: give their networks with --allow")]
    Open(SocketAddr),
    /// The records' directory can't be made or read.
    #[error("cannot keep records there (--record): {0}")]
    Record(Cause),
    /// The history file can't be read or written.
    #[error("cannot read or write the file of --history: {0}")]
    History(Cause),
    /// The file of users can't be read.
    #[error("cannot read the file of --users: {0}")]
    UsersFile(Cause),
    /// The file of users is wrong.
    #[error("{0}")]
    Users(UsersFault),
    /// The lines of the races can't be read.
    #[error("{0}")]
    Lines(ConnectFault),
    /// The process or the machine has no descriptor left.
    #[error("too many open files")]
    Files,
    /// The event loop could not be made or failed.
    #[error("the event loop or the clock failed")]
    Runtime,
    /// An allocation failed.
    #[error("out of memory")]
    Memory,
}

impl From<Memory> for ProxyFault {
    fn from(_refused: Memory) -> ProxyFault {
        ProxyFault::Memory
    }
}

impl<T: Drop> From<AllocFailed<T>> for ProxyFault {
    fn from(_refused: AllocFailed<T>) -> ProxyFault {
        ProxyFault::Memory
    }
}

// A fault of the event loop.
impl From<io::Error> for ProxyFault {
    fn from(error: io::Error) -> ProxyFault {
        match Reason::of(&error) {
            Reason::TooManyFiles | Reason::TooManyFilesInSystem => ProxyFault::Files,
            Reason::OutOfMemory => ProxyFault::Memory,
            _ => ProxyFault::Runtime,
        }
    }
}
