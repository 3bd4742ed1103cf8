// The error of a step.

ghost use Rattle.std.specs.Prelude.{◌≡◌};
ghost use Rattle.he_next.specs.Faults.{next_fault};
ghost use Rattle.he_next.specs.declared.fault.NextFault.TheVariants as faults;

use he_addr::Memory;
use he_inputs::{InputFault, NotOneRace};

/// The error of `next_step`.
#[derive(Clone, Copy, Debug, PartialEq, Eq)]
pub enum NextFault {
    /// The fault of the record with `end` added.
    Record(InputFault),
    /// The record with `end` added has more than one race.
    NotOne,
    /// An allocation failed.
    Memory,
}

impl From<NotOneRace> for NextFault {
    ghost from_gives = { λ fault told. told ≡ next_fault fault };

    fn from(fault: NotOneRace) -> NextFault {
        match fault {
            NotOneRace::Fault(fault) => NextFault::Record(fault),
            NotOneRace::Count => NextFault::NotOne,
            NotOneRace::Memory => NextFault::Memory,
        }
    }
}

impl From<Memory> for NextFault {
    ghost from_gives = { λ _ fault. fault ≡ faults.Memory };

    fn from(_refused: Memory) -> NextFault {
        NextFault::Memory
    }
}
