// The first fault of a text, and its line.

ghost use Rattle.std.specs.Prelude.{◌≡◌};
ghost use Rattle.he_words.specs.declared.fault.TextKind.TheVariants as kinds;
ghost use Rattle.he_words.specs.Kinds.{kind_of, table_kind, host_kind};

use he_select::{HostFault, PolicyFault};
use he_timeline::{BuildFault, Range};
use std::alloc::{AllocError, AllocFailed};
use thiserror::Error;

/// The kind of a text's first fault. Lines count from 1. The first faulty line decides; within a line, the first
/// check that fails.
#[derive(Clone, Copy, Debug, PartialEq, Eq, Error)]
pub enum TextKind {
    /// The first line of a race is neither `race 1` nor `race 2`.
    #[error("header")]
    Header,
    /// A line begins with no word of its group or a later one, has too few or too many tokens, or has a token that is
    /// none of the keywords allowed there.
    #[error("word")]
    Word,
    /// A number is not one to ten decimal digits without leading zeros.
    #[error("number")]
    Number,
    /// An address is malformed, is of the wrong family for its answer, is in no answer, or is a source's and not
    /// usable.
    #[error("address")]
    Address,
    /// A prefix or a source is malformed.
    #[error("prefix")]
    Prefix,
    /// Something that may be given only once is given twice.
    #[error("repeated")]
    Repeated,
    /// A number is out of its range, a pause overlaps the one before, or the floor is above the attempt delay.
    #[error("range")]
    Range,
    /// A line is too long, or there are too many lines or addresses.
    #[error("too many")]
    TooMany,
    /// The text ends inside a race.
    #[error("unfinished")]
    Unfinished,
    /// The rows of the policy table, of which this line is the last, are not a table: `NoDefault`, `NoMapped` or
    /// `SharedPrecedence`. Rows count from 0.
    #[error("{0}")]
    Policy(PolicyFault),
    /// An allocation failed while the line was read; the line may be correct.
    #[error("out of memory")]
    Memory,
}

/// The first fault of a text.
#[derive(Clone, Copy, Debug, PartialEq, Eq, Error)]
#[error("line {line}: {kind}")]
pub struct TextFault {
    /// The line, counted from 1.
    pub line: u64,
    /// The kind of the fault.
    pub kind: TextKind,
}

impl From<BuildFault> for TextKind {
    ghost from_gives = { λ fault kind. kind ≡ kind_of fault };

    fn from(fault: BuildFault) -> TextKind {
        match fault {
            BuildFault::Answered => TextKind::Repeated,
            BuildFault::Range => TextKind::Range,
            BuildFault::TooMany => TextKind::TooMany,
            BuildFault::Stranger => TextKind::Address,
            BuildFault::Repeated => TextKind::Repeated,
            BuildFault::Memory => TextKind::Memory,
        }
    }
}

impl From<PolicyFault> for TextKind {
    ghost from_gives = { λ fault kind. kind ≡ table_kind fault };

    fn from(fault: PolicyFault) -> TextKind {
        match fault {
            PolicyFault::Size => TextKind::TooMany,
            PolicyFault::Repeated(_) => TextKind::Repeated,
            PolicyFault::Memory => TextKind::Memory,
            _ => TextKind::Policy(fault),
        }
    }
}

impl From<HostFault> for TextKind {
    ghost from_gives = { λ fault kind. kind ≡ host_kind fault };

    fn from(fault: HostFault) -> TextKind {
        match fault {
            HostFault::TooMany => TextKind::TooMany,
            HostFault::RepeatedSource(_) | HostFault::RepeatedRoute(_) => TextKind::Repeated,
            HostFault::BadSource(_) | HostFault::BadRoute(_) => TextKind::Range,
            HostFault::Memory => TextKind::Memory,
        }
    }
}

impl From<Range> for TextKind {
    ghost from_gives = { λ range kind. kind ≡ kinds.Range };

    fn from(_range: Range) -> TextKind {
        TextKind::Range
    }
}

impl From<AllocError> for TextKind {
    ghost from_gives = { λ refused kind. kind ≡ kinds.Memory };

    fn from(_refused: AllocError) -> TextKind {
        TextKind::Memory
    }
}

impl<T: Drop> From<AllocFailed<T>> for TextKind {
    ghost from_gives = { λ refused kind. kind ≡ kinds.Memory };

    fn from(_refused: AllocFailed<T>) -> TextKind {
        TextKind::Memory
    }
}
