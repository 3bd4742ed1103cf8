//! Why a board can't be made.
ghost use Rattle.std.specs.Prelude.{◌≡◌};
ghost use Rattle.he_board.specs.declared.fault.BoardFault.TheVariants.{Memory};

use std::alloc::AllocError;
use thiserror::Error;

/// Why a board can't be made.
#[derive(Clone, Copy, Debug, PartialEq, Eq, Error)]
pub enum BoardFault {
    /// More than `JOBS` jobs or more than `RACES` races.
    #[error("too many jobs or races for a board")]
    Size,
    /// The allocation of the board's words failed.
    #[error("out of memory")]
    Memory,
}

impl From<AllocError> for BoardFault {
    ghost from_gives = { λ _ fault. fault ≡ Memory };

    fn from(_refused: AllocError) -> BoardFault {
        BoardFault::Memory
    }
}
