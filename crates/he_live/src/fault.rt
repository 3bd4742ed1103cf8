//! Why a live race has no result.
ghost use Rattle.std.specs.Prelude.{◌≡◌};
ghost use Rattle.he_live.specs.declared.fault.LiveFault.TheVariants.{Memory};
ghost use Rattle.he_live.specs.Live.{IsRunFault, fault_of_input, run_fault};
ghost use Rattle.he_live.specs.Reasons.{reason_of};

use crate::reason::Reason;
use he_addr::Memory;
use he_inputs::{InputFault, NotOneRace};
use he_words::TextFault;
use std::io;
use thiserror::Error;

/// Why a live race has no result.
#[derive(Clone, Copy, Debug, PartialEq, Eq, Error)]
pub enum LiveFault {
    /// The input is not a timeline text.
    #[error(transparent)]
    Text(TextFault),
    /// The input has no race, or more than one.
    #[error("live needs one race")]
    OneRace,
    /// A step of the input failed, or the limit of steps was reached.
    #[error("cannot read the input")]
    Read,
    /// A step of the output failed or took no byte, the flush failed, or the limit of steps was reached.
    #[error("cannot write the output")]
    Write,
    /// The process or the machine has no descriptor left.
    #[error("too many open files")]
    Files,
    /// The event loop could not be made or failed, or the clock failed.
    #[error("the event loop or the clock failed")]
    Runtime,
    /// An allocation failed.
    #[error("out of memory")]
    Memory,
}

impl From<Memory> for LiveFault {
    ghost from_gives = { λ _ fault. fault ≡ Memory };

    fn from(_refused: Memory) -> LiveFault {
        LiveFault::Memory
    }
}

impl From<io::Error> for LiveFault {
    ghost from_gives = { λ error fault. (fault ≡ run_fault (reason_of error)) × IsRunFault fault };

    fn from(error: io::Error) -> LiveFault {
        match Reason::of(&error) {
            Reason::TooManyFiles | Reason::TooManyFilesInSystem => LiveFault::Files,
            Reason::OutOfMemory => LiveFault::Memory,
            _ => LiveFault::Runtime,
        }
    }
}

impl From<NotOneRace> for LiveFault {
    ghost from_gives = { λ input fault. fault ≡ fault_of_input input };

    fn from(input: NotOneRace) -> LiveFault {
        match input {
            NotOneRace::Fault(InputFault::Text(fault)) => LiveFault::Text(fault),
            NotOneRace::Fault(InputFault::Read) => LiveFault::Read,
            NotOneRace::Count => LiveFault::OneRace,
            NotOneRace::Memory => LiveFault::Memory,
        }
    }
}
