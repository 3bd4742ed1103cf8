//! Why a system file can't be read.

use std::{fmt, io};

/// A system file that can't be read, and the error.
#[derive(Clone, Copy, PartialEq, Eq)]
pub struct FileFault {
    pub file: SystemFile,
    pub error: FileError,
}

/// A system file that a look-up reads.
#[derive(Clone, Copy, PartialEq, Eq)]
pub enum SystemFile {
    /// The hosts file.
    Hosts,
    /// The resolver configuration.
    Settings,
    /// The index of an interface.
    Interface,
}

/// An error of the system, by kind and number.
#[derive(Clone, Copy, PartialEq, Eq)]
pub struct FileError {
    kind: io::ErrorKind,
    number: Option<i32>,
}

impl FileError {
    pub(crate) fn new(error: &io::Error) -> FileError {
        FileError {
            kind: error.kind(),
            number: error.raw_os_error(),
        }
    }
}

// `cannot read /etc/hosts: permission denied`.
impl fmt::Display for FileFault {
    fn fmt<W: fmt::Write>(&self, f: &mut fmt::Formatter<W>) -> fmt::Result {
        let (file, error) = (self.file, self.error);
        write!(f, "cannot read {file}: {error}")
    }
}

impl fmt::Debug for FileFault {
    fn fmt<W: fmt::Write>(&self, f: &mut fmt::Formatter<W>) -> fmt::Result {
        fmt::Display::fmt(self, f)
    }
}

impl fmt::Display for SystemFile {
    fn fmt<W: fmt::Write>(&self, f: &mut fmt::Formatter<W>) -> fmt::Result {
        match self {
            SystemFile::Hosts => write!(f, "/etc/hosts"),
            SystemFile::Settings => write!(f, "/etc/resolv.conf"),
            SystemFile::Interface => write!(f, "the number of the interface in /sys/class/net"),
        }
    }
}

// An error of a kind without a name is printed in the system's words.
impl fmt::Display for FileError {
    fn fmt<W: fmt::Write>(&self, f: &mut fmt::Formatter<W>) -> fmt::Result {
        let kind = self.kind;
        match self.number {
            Some(number) if kind == io::ErrorKind::Uncategorized => {
                let error = io::Error::from_raw_os_error(number);
                write!(f, "{error}")
            }
            _ => write!(f, "{kind}"),
        }
    }
}
