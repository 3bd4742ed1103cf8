//! Why a race was not run.
use he_addr::Memory;
use he_inputs::{InputFault, NotOneRace};
use he_kernel::fault::MachineFault;
use he_live::{LiveFault, Reason};
use he_settings::NamesFault;
use he_words::TextFault;
use std::alloc::AllocFailed;
use std::{fmt, io};
use thiserror::Error;

/// Why a race was not run to its end. It is no fault if no address could be connected to.
#[derive(Clone, Copy, Debug, PartialEq, Eq, Error)]
pub enum ConnectFault {
    /// The addresses and routes of this machine can't be read.
    #[error("cannot read /proc/net: give a file of source and route lines with --machine")]
    Machine,
    /// The file of lines can't be read.
    #[error("cannot read the --machine file: {0}")]
    File(ReadError),
    /// A line of the file of lines is wrong.
    #[error("the --machine file: {0}")]
    Lines(TextFault),
    /// The file of lines has lines other than source, route and policy lines.
    #[error("the --machine file may contain only source, route and policy lines")]
    OtherLines,
    /// The host has no address, or can't be looked up.
    #[error("{0}")]
    Name(NamesFault),
    /// The process or the machine has no descriptor left.
    #[error("too many open files")]
    Files,
    /// The event loop could not be made or failed, or the clock failed.
    #[error("the event loop or the clock failed")]
    Runtime,
    /// An allocation failed.
    #[error("out of memory")]
    Memory,
}

/// Why a file can't be read.
#[derive(Clone, Copy, Debug, PartialEq, Eq)]
pub struct ReadError {
    kind: io::ErrorKind,
    number: Option<i32>,
}

impl ReadError {
    pub(crate) fn of(error: &io::Error) -> ReadError {
        ReadError {
            kind: error.kind(),
            number: error.raw_os_error(),
        }
    }
}

// In the system's words, if it has a number.
impl fmt::Display for ReadError {
    fn fmt<W: fmt::Write>(&self, f: &mut fmt::Formatter<W>) -> fmt::Result {
        match self.number {
            Some(number) => fmt::Display::fmt(&io::Error::from_raw_os_error(number), f),
            None => fmt::Display::fmt(&self.kind, f),
        }
    }
}

impl ConnectFault {
    /// Whether the fault concerns the host, so that its message must name the host.
    pub fn is_of_host(self) -> bool {
        match self {
            ConnectFault::Name(fault) => fault.is_of_host(),
            _ => false,
        }
    }
}

impl From<Memory> for ConnectFault {
    fn from(_refused: Memory) -> ConnectFault {
        ConnectFault::Memory
    }
}

impl<T: Drop> From<AllocFailed<T>> for ConnectFault {
    fn from(_refused: AllocFailed<T>) -> ConnectFault {
        ConnectFault::Memory
    }
}

impl From<MachineFault> for ConnectFault {
    fn from(fault: MachineFault) -> ConnectFault {
        match fault {
            MachineFault::NoFiles => ConnectFault::Machine,
            MachineFault::Memory => ConnectFault::Memory,
        }
    }
}

// A fault in the text of a file's lines, after one line that was added.
impl From<NotOneRace> for ConnectFault {
    fn from(fault: NotOneRace) -> ConnectFault {
        match fault {
            NotOneRace::Fault(InputFault::Text(fault)) => ConnectFault::Lines(TextFault {
                line: fault.line.saturating_sub(1),
                kind: fault.kind,
            }),
            NotOneRace::Fault(InputFault::Read) => ConnectFault::File(ReadError {
                kind: io::ErrorKind::Other,
                number: None,
            }),
            NotOneRace::Count => ConnectFault::OtherLines,
            NotOneRace::Memory => ConnectFault::Memory,
        }
    }
}

impl From<NamesFault> for ConnectFault {
    fn from(fault: NamesFault) -> ConnectFault {
        ConnectFault::Name(fault)
    }
}

impl From<LiveFault> for ConnectFault {
    fn from(fault: LiveFault) -> ConnectFault {
        match fault {
            LiveFault::Memory => ConnectFault::Memory,
            LiveFault::Files => ConnectFault::Files,
            _ => ConnectFault::Runtime,
        }
    }
}

// A fault of the event loop.
impl From<io::Error> for ConnectFault {
    fn from(error: io::Error) -> ConnectFault {
        match Reason::of(&error) {
            Reason::OutOfMemory => ConnectFault::Memory,
            Reason::TooManyFiles | Reason::TooManyFilesInSystem => ConnectFault::Files,
            _ => ConnectFault::Runtime,
        }
    }
}
