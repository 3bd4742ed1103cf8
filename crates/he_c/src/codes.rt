// The numbers of answers, kinds of faults and actions in `he.h`.

ghost use Rattle.std.specs.Prelude.{◌≡◌};
ghost use Rattle.he_c.specs.Answers.{fault_kind, fault_line, kind_code, policy_code};

use he_inputs::InputFault;
use he_select::PolicyFault;
use he_words::TextKind;

/// Success.
pub const DONE: u32 = 0;

/// The text has a fault, whose line and kind are reported.
pub const FAULT: u32 = 1;

/// The buffer is too small; the length needed is reported.
pub const BUFFER_TOO_SMALL: u32 = 2;

/// An allocation failed.
pub const NO_MEMORY: u32 = 3;

/// The record of a running race has more than one race.
pub const NOT_ONE_RACE: u32 = 4;

// The kinds of faults, in the order of `TextKind`. No text has another kind of fault: that has the number of none.
pub const NO_KIND: u32 = 0;

pub const HEADER: u32 = 1;

pub const WORD: u32 = 2;

pub const NUMBER: u32 = 3;

pub const ADDRESS: u32 = 4;

pub const PREFIX: u32 = 5;

pub const REPEATED: u32 = 6;

pub const RANGE: u32 = 7;

pub const TOO_MANY: u32 = 8;

pub const UNFINISHED: u32 = 9;

pub const NO_DEFAULT_ROW: u32 = 10;

pub const NO_MAPPED_ROW: u32 = 11;

pub const SHARED_PRECEDENCE: u32 = 12;

/// An attempt starts.
pub const START: u32 = 1;

/// Nothing is due before a tick.
pub const WAIT: u32 = 2;

/// The race is won.
pub const WON: u32 = 3;

/// Every attempt failed.
pub const EXHAUSTED: u32 = 4;

/// The race ended at its limit.
pub const LIMIT: u32 = 5;

pub(crate) fn kind_code(kind: TextKind) -> u32
    ensures { result ≡ kind_code kind }
{
    match kind {
        TextKind::Header => HEADER,
        TextKind::Word => WORD,
        TextKind::Number => NUMBER,
        TextKind::Address => ADDRESS,
        TextKind::Prefix => PREFIX,
        TextKind::Repeated => REPEATED,
        TextKind::Range => RANGE,
        TextKind::TooMany => TOO_MANY,
        TextKind::Unfinished => UNFINISHED,
        TextKind::Policy(fault) => policy_code(fault),
        TextKind::Memory => NO_KIND,
    }
}

fn policy_code(fault: PolicyFault) -> u32
    ensures { result ≡ policy_code fault }
{
    match fault {
        PolicyFault::NoDefault => NO_DEFAULT_ROW,
        PolicyFault::NoMapped => NO_MAPPED_ROW,
        PolicyFault::SharedPrecedence(_, _) => SHARED_PRECEDENCE,
        _ => NO_KIND,
    }
}

pub(crate) fn fault_kind(fault: Option<InputFault>) -> u32
    ensures { result ≡ fault_kind fault }
{
    match fault {
        None => NO_KIND,
        Some(InputFault::Read) => UNFINISHED,
        Some(InputFault::Text(found)) => kind_code(found.kind),
    }
}

pub(crate) fn fault_line(fault: Option<InputFault>) -> u64
    ensures { result ≡ fault_line fault }
{
    match fault {
        Some(InputFault::Text(found)) => found.line,
        _ => 0,
    }
}
