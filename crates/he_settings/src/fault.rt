//! Why a name has no addresses.

ghost use Rattle.std.specs.Prelude.{◌≡◌, ◌⊎◌};
ghost use Rattle.he_settings.specs.Faults.{first_of, is_absence, is_of_host, is_of_server, of_host, rank_of};
ghost use Rattle.he_settings.specs.declared.fault.NamesFault.TheVariants.{Files, Memory, Runtime};

use crate::failure::ServerFault;
use crate::file_fault::FileFault;
use he_addr::Memory;
use he_dns::NameFault;
use he_names::HostFault;
use std::alloc::AllocFailed;
use std::io;
use thiserror::Error;

// Linux's error numbers for too many open files, of the machine and of the process.
const ENFILE: i32 = 23;

const EMFILE: i32 = 24;

/// Why a name has no addresses.
#[derive(Clone, Copy, Debug, PartialEq, Eq, Error)]
pub enum NamesFault {
    /// The text is not a host.
    #[error(transparent)]
    Host(HostFault),
    /// The text is not a host name.
    #[error("not a host name: {0}")]
    Name(NameFault),
    /// The name exists, but has no address.
    #[error("the name has no address")]
    NoAddress,
    /// The name does not exist (RFC 1035 section 4.1.1, RCODE 3).
    #[error("no such name")]
    NoSuchName,
    /// No name server answered in time.
    #[error("no name server answers")]
    NoAnswer,
    /// No name server answered for the name; the first of those that failed.
    #[error("name server {0}")]
    Server(ServerFault),
    /// The family is not queried.
    #[error("not asked for: the option no-aaaa of /etc/resolv.conf or RES_OPTIONS")]
    NotAsked,
    /// The system's resolver has no address for the name.
    #[error("the system's resolver has no address")]
    System,
    /// A system file exists but can't be read.
    #[error("{0}")]
    Unreadable(FileFault),
    /// This machine doesn't have the name server's interface.
    #[error("the interface after '%' of the name server does not exist: `ip link` lists those that do")]
    Interface,
    /// The process or the machine has no descriptor left.
    #[error("too many open files")]
    Files,
    /// The event loop could not be made or failed, or the clock failed.
    #[error("the event loop or the clock failed")]
    Runtime,
    /// An allocation failed.
    #[error("out of memory")]
    Memory,
}

impl NamesFault {
    /// Whether the fault concerns the host, so that its message must name the host.
    pub fn is_of_host(self) -> bool
        ensures { result ≡ is_of_host self }
    {
        !matches!(
            self,
            NamesFault::Unreadable(_)
                | NamesFault::Interface
                | NamesFault::Files
                | NamesFault::Runtime
                | NamesFault::Memory
        )
    }

    /// Whether a name server answered that there is no such name or no address.
    pub fn is_absence(self) -> bool
        ensures { result ≡ is_absence self }
    {
        matches!(self, NamesFault::NoSuchName | NamesFault::NoAddress)
    }

    /// Whether another name server may have an answer.
    pub fn is_of_server(self) -> bool
        ensures { result ≡ is_of_server self }
    {
        matches!(self, NamesFault::NoAnswer | NamesFault::Server(_))
    }

    // The rank of the fault where the families differ: the lowest is reported.
    fn rank(self) -> u8
        ensures { result ≡ rank_of self }
    {
        match self {
            NamesFault::Memory => 0,
            NamesFault::Unreadable(_)
            | NamesFault::Interface
            | NamesFault::Files
            | NamesFault::Runtime => 1,
            NamesFault::Host(_) | NamesFault::Name(_) | NamesFault::System => 2,
            NamesFault::NoAnswer => 3,
            NamesFault::Server(_) => 4,
            NamesFault::NoSuchName => 5,
            NamesFault::NoAddress => 6,
            NamesFault::NotAsked => 7,
        }
    }
}

impl From<Memory> for NamesFault {
    ghost from_gives = { λ _ fault. fault ≡ Memory };

    fn from(_refused: Memory) -> NamesFault {
        NamesFault::Memory
    }
}

impl<T: Drop> From<AllocFailed<T>> for NamesFault {
    ghost from_gives = { λ _ fault. fault ≡ Memory };

    fn from(_refused: AllocFailed<T>) -> NamesFault {
        NamesFault::Memory
    }
}

impl From<HostFault> for NamesFault {
    ghost from_gives = { λ host fault. fault ≡ of_host host };

    fn from(fault: HostFault) -> NamesFault {
        match fault {
            HostFault::Memory => NamesFault::Memory,
            fault => NamesFault::Host(fault),
        }
    }
}

impl From<io::Error> for NamesFault {
    ghost from_gives = { λ _ fault. (fault ≡ Files) ⊎ (fault ≡ Runtime) ⊎ (fault ≡ Memory) };

    fn from(error: io::Error) -> NamesFault {
        if let Some(EMFILE | ENFILE) = error.raw_os_error() {
            return NamesFault::Files;
        }
        match error.kind() {
            io::ErrorKind::OutOfMemory => NamesFault::Memory,
            _ => NamesFault::Runtime,
        }
    }
}

/// The fault to report if neither family has an address: first those of this machine, then those of the host name or
/// of the system's resolver, then that no server answered, then that one failed, then that the name does not exist,
/// then that it has no address.
pub fn first_fault(v6: NamesFault, v4: NamesFault) -> NamesFault
    ensures { result ≡ first_of v6 v4 }
{
    if v6.rank() <= v4.rank() { v6 } else { v4 }
}
