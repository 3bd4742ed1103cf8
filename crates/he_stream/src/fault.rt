//! Why an input could not be read or an output could not be written.
ghost use Rattle.he_stream.specs.declared.fault.ReadFault.TheVariants.{Memory};
ghost use Rattle.std.specs.Prelude.{◌≡◌};

use std::alloc::AllocError;
use thiserror::Error;

/// Why an input could not be read to its end.
#[derive(Clone, Copy, Debug, PartialEq, Eq, Error)]
pub enum ReadFault {
    /// A step failed.
    #[error("cannot read the input")]
    Failed,
    /// The maximum number of steps was reached.
    #[error("cannot read the input")]
    Bound,
    /// An allocation failed.
    #[error("out of memory")]
    Memory,
}

impl From<AllocError> for ReadFault {
    ghost from_gives = { λ _ fault. fault ≡ Memory };

    fn from(_error: AllocError) -> ReadFault {
        ReadFault::Memory
    }
}

/// A write or a flush failed, a write took no byte, or the maximum number of writes was reached.
#[derive(Clone, Copy, Debug, PartialEq, Eq, Error)]
#[error("cannot write the output")]
pub struct WriteFault;
