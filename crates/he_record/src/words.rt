//! The words of record lines.

ghost use Rattle.std.specs.Prelude.{◌≡◌};
ghost use Rattle.he_record.specs.Words.{most_record_lines, record_word_in, word_group, word_spelling};

use crate::limits::{MOST_ONCE, MOST_PREFIXES, MOST_SERVERS, MOST_TOLD};
use he_words::TextKind;

/// The first token of a record line.
pub const FIRST_TOKEN: &[u8] = b"record";

/// The words after `record`, in the order of their lines. The last three are one group.
#[derive(Clone, Copy, Debug, PartialEq, Eq)]
pub enum RecordWord {
    At,
    To,
    From,
    Lookup,
    Nat64,
    Server,
    Attempt,
    Untried,
    Connected,
    GaveUp,
    Failed,
}

impl RecordWord {
    /// Reads a word from its spelling.
    #[tactic(auto, unfolding(crate::specs::Words::record_word_in))]
    pub fn read(token: &[u8]) -> Option<RecordWord>
        ensures { result ≡ record_word_in token.now }
    {
        if token == b"at".as_slice() {
            Some(RecordWord::At)
        } else if token == b"to".as_slice() {
            Some(RecordWord::To)
        } else if token == b"from".as_slice() {
            Some(RecordWord::From)
        } else if token == b"lookup".as_slice() {
            Some(RecordWord::Lookup)
        } else if token == b"nat64".as_slice() {
            Some(RecordWord::Nat64)
        } else if token == b"server".as_slice() {
            Some(RecordWord::Server)
        } else if token == b"attempt".as_slice() {
            Some(RecordWord::Attempt)
        } else if token == b"untried".as_slice() {
            Some(RecordWord::Untried)
        } else if token == b"connected".as_slice() {
            Some(RecordWord::Connected)
        } else if token == b"gave-up".as_slice() {
            Some(RecordWord::GaveUp)
        } else if token == b"failed".as_slice() {
            Some(RecordWord::Failed)
        } else {
            None
        }
    }

    /// The spelling.
    pub fn spelling(self) -> &'static str
        ensures { result.now ≡ word_spelling self }
    {
        match self {
            RecordWord::At => "at",
            RecordWord::To => "to",
            RecordWord::From => "from",
            RecordWord::Lookup => "lookup",
            RecordWord::Nat64 => "nat64",
            RecordWord::Server => "server",
            RecordWord::Attempt => "attempt",
            RecordWord::Untried => "untried",
            RecordWord::Connected => "connected",
            RecordWord::GaveUp => "gave-up",
            RecordWord::Failed => "failed",
        }
    }

    /// The number of its group, from 1. The lines of a record are ordered by group.
    pub fn group(self) -> u8
        ensures { result ≡ word_group self }
    {
        match self {
            RecordWord::At => 1,
            RecordWord::To => 2,
            RecordWord::From => 3,
            RecordWord::Lookup => 4,
            RecordWord::Nat64 => 5,
            RecordWord::Server => 6,
            RecordWord::Attempt => 7,
            RecordWord::Untried => 8,
            RecordWord::Connected | RecordWord::GaveUp | RecordWord::Failed => 9,
        }
    }

    /// The maximum number of lines of its group, if it is limited, and the fault of one more.
    pub fn most_lines(self) -> Option<(usize, TextKind)>
        ensures { result ≡ most_record_lines self }
    {
        match self {
            RecordWord::Lookup => None,
            RecordWord::Nat64 => Some((MOST_PREFIXES, TextKind::TooMany)),
            RecordWord::Server => Some((MOST_SERVERS, TextKind::TooMany)),
            RecordWord::Attempt | RecordWord::Untried => Some((MOST_TOLD, TextKind::TooMany)),
            _ => Some((MOST_ONCE, TextKind::Repeated)),
        }
    }
}
