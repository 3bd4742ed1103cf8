// Why a text is no host name, and why a message has no addresses.

use he_addr::Memory;
use std::alloc::AllocFailed;
use thiserror::Error;

/// Why a text is no host name.
#[derive(Clone, Copy, Debug, PartialEq, Eq, Error)]
pub enum NameFault {
    /// The name has more than 255 octets in a message (RFC 1035 section 2.3.4).
    #[error("name too long")]
    LongName,
    /// A label before, between or after the dots is empty.
    #[error("empty label")]
    EmptyLabel,
    /// A label has more than 63 bytes.
    #[error("label too long")]
    LongLabel,
    /// An allocation failed.
    #[error("out of memory")]
    Memory,
}

/// Why a message has no addresses of a host.
#[derive(Clone, Copy, Debug, PartialEq, Eq, Error)]
pub enum AnswerFault {
    /// The message is no response, or one to another query: ignore it and wait on.
    #[error("not a response to this query")]
    NotOurs,
    /// The response is cut off (TC): query again over TCP.
    #[error("truncated")]
    Truncated,
    /// The name does not exist (RCODE 3).
    #[error("no such name")]
    NoSuchName,
    /// The server failed (RCODE 2).
    #[error("server failure")]
    ServerFailure,
    /// The server refused (RCODE 5).
    #[error("refused")]
    Refused,
    /// Another 12-bit response code than 0, 2, 3 and 5 (RFC 6891 section 6.1.3).
    #[error("response code {0}")]
    OtherCode(u16),
    /// The sections don't have as many whole records as the header states, an alias or address in the answer section
    /// is malformed, or there are two records of RFC 6891, or one whose owner isn't the root.
    #[error("malformed")]
    Malformed,
    /// There are more aliases than are followed.
    #[error("too many aliases")]
    ChainTooLong,
    /// An allocation failed.
    #[error("out of memory")]
    Memory,
}

impl From<Memory> for NameFault {
    ghost use Rattle.std.specs.Prelude.{◌≡◌};
    ghost use Rattle.he_dns.specs.declared.fault.NameFault.TheVariants as faults;

    ghost from_gives = { λ _ fault. fault ≡ faults.Memory };

    fn from(_refused: Memory) -> NameFault {
        NameFault::Memory
    }
}

impl<T: Drop> From<AllocFailed<T>> for NameFault {
    ghost use Rattle.std.specs.Prelude.{◌≡◌};
    ghost use Rattle.he_dns.specs.declared.fault.NameFault.TheVariants as faults;

    ghost from_gives = { λ _ fault. fault ≡ faults.Memory };

    fn from(_refused: AllocFailed<T>) -> NameFault {
        NameFault::Memory
    }
}

impl<T: Drop> From<AllocFailed<T>> for AnswerFault {
    ghost use Rattle.std.specs.Prelude.{◌≡◌};
    ghost use Rattle.he_dns.specs.declared.fault.AnswerFault.TheVariants as faults;

    ghost from_gives = { λ _ fault. fault ≡ faults.Memory };

    fn from(_refused: AllocFailed<T>) -> AnswerFault {
        AnswerFault::Memory
    }
}
