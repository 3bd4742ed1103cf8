//! The error of work on a stream of timelines.
ghost use Rattle.std.specs.Prelude.{◌≡◌};
ghost use Rattle.he_inputs.specs.StreamFaults.{fault_of_input, fault_of_reader};
ghost use Rattle.he_inputs.specs.declared.stream_fault.StreamFault.TheVariants.{Memory, Write};

use crate::input_fault::InputFault;
use crate::race_reader::RaceReaderFault;
use he_addr::Memory;
use he_stream::WriteFault;
use he_words::TextFault;
use thiserror::Error;

/// The error of work that reads timelines from an input and writes its results to an output.
#[derive(Clone, Copy, Debug, PartialEq, Eq, Error)]
pub enum StreamFault {
    /// A fault of the input's text.
    #[error(transparent)]
    Text(TextFault),
    /// A step of the input failed, or the limit on steps was reached.
    #[error("cannot read the input")]
    Read,
    /// A step of the output failed or took no byte, the flush failed, or the limit on steps was reached.
    #[error("cannot write the output")]
    Write,
    /// An allocation failed.
    #[error("out of memory")]
    Memory,
}

impl From<Memory> for StreamFault {
    ghost from_gives = { λ _ fault. fault ≡ Memory };

    fn from(_refused: Memory) -> StreamFault {
        StreamFault::Memory
    }
}

impl From<WriteFault> for StreamFault {
    ghost from_gives = { λ _ fault. fault ≡ Write };

    fn from(_fault: WriteFault) -> StreamFault {
        StreamFault::Write
    }
}

impl From<InputFault> for StreamFault {
    ghost from_gives = { λ found fault. fault ≡ fault_of_input found };

    fn from(found: InputFault) -> StreamFault {
        match found {
            InputFault::Text(fault) => StreamFault::Text(fault),
            InputFault::Read => StreamFault::Read,
        }
    }
}

impl From<RaceReaderFault> for StreamFault {
    ghost from_gives = { λ found fault. fault ≡ fault_of_reader found };

    fn from(found: RaceReaderFault) -> StreamFault {
        match found {
            RaceReaderFault::Input(fault) => StreamFault::from(fault),
            RaceReaderFault::Memory => StreamFault::Memory,
        }
    }
}
