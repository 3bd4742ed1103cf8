// Why a machine has no lines.

use he_addr::Memory;
use std::alloc::AllocFailed;
use std::io;
use thiserror::Error;

/// Why this machine's source and route lines are not written.
#[derive(Clone, Copy, Debug, PartialEq, Eq, Error)]
pub enum MachineFault {
    /// `/proc/net/route` or `/proc/net/fib_trie` can't be read.
    #[error("cannot read /proc/net")]
    NoFiles,
    /// An allocation failed.
    #[error("out of memory")]
    Memory,
}

impl From<Memory> for MachineFault {
    fn from(_refused: Memory) -> MachineFault {
        MachineFault::Memory
    }
}

impl<T: Drop> From<AllocFailed<T>> for MachineFault {
    fn from(_refused: AllocFailed<T>) -> MachineFault {
        MachineFault::Memory
    }
}

impl From<io::Error> for MachineFault {
    fn from(error: io::Error) -> MachineFault {
        match error.kind() {
            io::ErrorKind::OutOfMemory => MachineFault::Memory,
            _ => MachineFault::NoFiles,
        }
    }
}
