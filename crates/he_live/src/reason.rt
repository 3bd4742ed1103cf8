//! Why attempts of a live race failed, by the system's error.
ghost use Rattle.std.specs.Prelude.{◌≡◌};
ghost use Rattle.he_live.specs.Reasons.{is_local, reason_of, reason_of_number, words_of};

use std::io;

/// Why an attempt failed, by the system's error.
#[derive(Clone, Copy, Debug, PartialEq, Eq)]
pub enum Reason {
    Refused,
    Reset,
    Aborted,
    TimedOut,
    /// The host is unreachable: nothing on the way or in its own network takes the packets.
    HostUnreachable,
    NetworkUnreachable,
    NetworkDown,
    /// No local address or port is left for the connection (EADDRNOTAVAIL).
    AddressNotAvailable,
    /// This machine has no sockets of the address's family.
    NoFamily,
    /// The process has no descriptor left.
    TooManyFiles,
    /// The system has no descriptor left.
    TooManyFilesInSystem,
    OutOfMemory,
    NoBuffers,
    /// A filter or a route forbids it, on a router or on this machine: the system's errors for both are equal.
    Prohibited,
    /// Any other error, by its number; 0 if it has none.
    Other(u32),
    /// Not known: no memory was left to note it.
    Unknown,
}

impl Reason {
    /// The reason for this error.
    pub fn of(error: &io::Error) -> Reason
        ensures { result ≡ reason_of error.now }
    {
        match (error.raw_os_error(), error.kind()) {
            (Some(number), _) => Reason::of_number(number.unsigned_abs()),
            (None, io::ErrorKind::OutOfMemory) => Reason::OutOfMemory,
            (None, _) => Reason::Other(0),
        }
    }

    // By Linux's error number on x86-64 and aarch64.
    fn of_number(number: u32) -> Reason
        ensures { result ≡ reason_of_number number }
    {
        match number {
            1 | 13 => Reason::Prohibited,
            12 => Reason::OutOfMemory,
            23 => Reason::TooManyFilesInSystem,
            24 => Reason::TooManyFiles,
            97 => Reason::NoFamily,
            99 => Reason::AddressNotAvailable,
            100 => Reason::NetworkDown,
            101 => Reason::NetworkUnreachable,
            103 => Reason::Aborted,
            104 => Reason::Reset,
            105 => Reason::NoBuffers,
            110 => Reason::TimedOut,
            111 => Reason::Refused,
            112 | 113 => Reason::HostUnreachable,
            _ => Reason::Other(number),
        }
    }

    /// Whether this machine could not make a socket, for lack of a descriptor, memory, buffers or the family. This is
    /// no fault of the address.
    pub fn is_local(self) -> bool
        ensures { result ≡ is_local self }
    {
        matches!(
            self,
            Reason::NoFamily
                | Reason::TooManyFiles
                | Reason::TooManyFilesInSystem
                | Reason::OutOfMemory
                | Reason::NoBuffers
        )
    }

    /// Its words, without the number of `Other`.
    pub fn words(self) -> &'static [u8]
        ensures { result.now ≡ words_of self }
    {
        match self {
            Reason::Refused => b"refused",
            Reason::Reset => b"reset",
            Reason::Aborted => b"aborted",
            Reason::TimedOut => b"timed out",
            Reason::HostUnreachable => b"unreachable",
            Reason::NetworkUnreachable => b"network unreachable",
            Reason::NetworkDown => b"network down",
            Reason::AddressNotAvailable => b"address not available",
            Reason::NoFamily => b"address family not supported",
            Reason::TooManyFiles => b"too many open files",
            Reason::TooManyFilesInSystem => b"too many open files in system",
            Reason::OutOfMemory => b"out of memory",
            Reason::NoBuffers => b"no buffer space",
            Reason::Prohibited => b"prohibited",
            Reason::Other(_) => b"system error ",
            Reason::Unknown => b"unknown reason",
        }
    }
}
