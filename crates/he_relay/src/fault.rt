//! Why a pump stopped before its input's end, and why a relay ended before both ways did.

ghost use Rattle.std.specs.Prelude.{◌≡◌};
ghost use Rattle.he_relay.specs.declared.fault.PumpFault.TheVariants as faults;
ghost use Rattle.he_relay.specs.declared.fault.RelayFault.TheVariants as relay_faults;

use he_stream::WriteFault;
use std::alloc::AllocError;
use std::fmt;
use std::fmt::{Display, Formatter, Write};
use thiserror::Error;

/// Why a pump stopped before its input's end.
#[derive(Clone, Copy, Debug, PartialEq, Eq, Error)]
pub enum PumpFault {
    /// A step of the input failed, or 4,294,967,296 steps did not reach its end.
    #[error("cannot read the input")]
    Input,
    /// A write or a flush of the output failed, or a write took no byte.
    #[error("cannot write the output")]
    Output,
    /// The pump's watch wanted no further step of the input.
    #[error("the input was not read to its end")]
    Cut,
}

impl From<WriteFault> for PumpFault {
    ghost from_gives = { λ _ fault. fault ≡ faults.Output };

    fn from(_fault: WriteFault) -> PumpFault {
        PumpFault::Output
    }
}

/// How a connection broke off.
#[derive(Clone, Copy, Debug, PartialEq, Eq, Error)]
pub enum Breakage {
    /// The remote reset the connection.
    #[error("the remote reset the connection")]
    Reset,
    /// The remote stopped answering.
    #[error("the connection timed out")]
    TimedOut,
    /// The connection broke off in any other way.
    #[error("the connection broke off")]
    Other,
}

/// The number of bytes that passed over a connection.
#[derive(Clone, Copy, Debug, PartialEq, Eq)]
pub struct Traffic {
    /// The bytes that this host's system accepted for sending.
    pub sent: u64,
    /// The bytes received.
    pub received: u64,
}

impl Display for Traffic {
    fn fmt<W: Write>(&self, f: &mut Formatter<W>) -> fmt::Result {
        let noun = if self.sent == 1 { "byte" } else { "bytes" };
        write!(f, "{} {noun} sent, {} received", self.sent, self.received)
    }
}

/// The number of bytes not sent; it prints as `6 bytes more were not sent`.
#[derive(Clone, Copy, Debug, PartialEq, Eq)]
pub struct Unsent(pub u64);

impl Display for Unsent {
    fn fmt<W: Write>(&self, f: &mut Formatter<W>) -> fmt::Result {
        let words = if self.0 == 1 {
            "byte more was"
        } else {
            "bytes more were"
        };
        write!(f, "{} {words} not sent", self.0)
    }
}

/// Why a relay ended before both ways did.
#[derive(Clone, Copy, Debug, PartialEq, Eq, Error)]
pub enum RelayFault {
    /// A read of the input failed.
    #[error("cannot read the input")]
    Input,
    /// A write or a flush of the output failed, or a write took no byte.
    #[error("cannot write the output")]
    Output,
    /// The connection broke before the remote ended it.
    #[error("{0}: {1}")]
    Broken(Breakage, Traffic),
    /// The remote closed the connection before it accepted all bytes of the input.
    #[error("the remote has closed, and {0}")]
    Unsent(Unsent),
    /// The remote ended its way, and input that came after the wait for it was not read.
    #[error("the remote has closed, and standard input was not read to its end")]
    Unread,
    /// An allocation failed.
    #[error("out of memory")]
    Memory,
}

impl From<AllocError> for RelayFault {
    ghost from_gives = { λ _ fault. fault ≡ relay_faults.Memory };

    fn from(_refused: AllocError) -> RelayFault {
        RelayFault::Memory
    }
}
