//! Why a system call failed.

use std::fmt::{Display, Formatter};
use std::io::ErrorKind;
use std::{fmt, io};

// Linux's error numbers for no sockets of the family, and no such address on this machine.
const EAFNOSUPPORT: i32 = 97;

const EADDRNOTAVAIL: i32 = 99;

/// Why a system call failed, printed in the system's words if it has a number.
#[derive(Clone, Copy, Debug, PartialEq, Eq)]
pub struct Cause {
    kind: ErrorKind,
    number: Option<i32>,
}

impl Cause {
    /// The cause of this error.
    pub fn of(error: &io::Error) -> Cause {
        Cause {
            kind: error.kind(),
            number: error.raw_os_error(),
        }
    }

    /// Whether this machine doesn't have the address, or any of its family.
    pub fn is_no_address(self) -> bool {
        matches!(self.number, Some(EAFNOSUPPORT | EADDRNOTAVAIL))
    }
}

impl Display for Cause {
    fn fmt<W: fmt::Write>(&self, f: &mut Formatter<W>) -> fmt::Result {
        match self.number {
            Some(number) => Display::fmt(&io::Error::from_raw_os_error(number), f),
            None => Display::fmt(&self.kind, f),
        }
    }
}
