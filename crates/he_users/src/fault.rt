//! Why a file of users can't be used.
ghost use Rattle.std.specs.Prelude.{◌≡◌};
ghost use Rattle.he_users.specs.declared.fault.UsersFault.TheVariants.{Memory};

use he_addr::Memory;
use std::alloc::AllocFailed;
use thiserror::Error;

/// Why a line of the file is wrong.
#[derive(Clone, Copy, Debug, PartialEq, Eq, Error)]
pub enum LineFault {
    /// It has no colon.
    #[error("has no colon: write NAME:PASSWORD, or # before a comment")]
    NoColon,
    /// The name or the password is empty or too long (RFC 1929 section 2).
    #[error("has a name or a password that is empty or longer than 255 bytes: give each 1 to 255 bytes")]
    Length,
    /// It has a control character (RFC 7617 section 2).
    #[error("has a control character: end it with a line feed only, and use no other control character")]
    Control,
}

/// Why a file of users can't be used.
#[derive(Clone, Copy, Debug, PartialEq, Eq, Error)]
pub enum UsersFault {
    /// A wrong line, with its number, counted from 1.
    #[error("line {0} {1}")]
    Line(u64, LineFault),
    /// There is no user.
    #[error("there is no user: add a line NAME:PASSWORD")]
    NoUser,
    /// An allocation failed.
    #[error("out of memory")]
    Memory,
}

impl From<Memory> for UsersFault {
    ghost from_gives = { λ _ fault. fault ≡ Memory };

    fn from(_refused: Memory) -> UsersFault {
        UsersFault::Memory
    }
}

impl<T: Drop> From<AllocFailed<T>> for UsersFault {
    ghost from_gives = { λ _ fault. fault ≡ Memory };

    fn from(_refused: AllocFailed<T>) -> UsersFault {
        UsersFault::Memory
    }
}
