//! Reasons of failed look-ups and attempts, and the recorded client's own result.

ghost use Rattle.std.specs.Prelude.{◌≡◌};
ghost use Rattle.he_record.specs.Said.{EndSaid, ticks_of, word_said};
ghost use Rattle.he_record.specs.Words.{attempt_in, attempt_spelling, lookup_in, lookup_spelling, server_in, server_spelling};

use crate::words::RecordWord;

/// The reason that a family has no address.
#[derive(Clone, Copy, Debug, PartialEq, Eq)]
pub enum LookupReason {
    /// The name does not exist.
    NoSuchName,
    /// The name has no address of the family.
    NoAddress,
    /// No name server answered in its time.
    NoAnswer,
    /// The name servers refused to answer.
    Refused,
    /// The name servers failed.
    Failed,
    /// The answer was malformed.
    Malformed,
    /// The client did not look up the family.
    NotAsked,
    /// The client has IPv6 alone and reached the host's IPv4 addresses through its network's NAT64 (RFC 8305 section
    /// 7): the answer of the other family has them embedded.
    Nat64,
}

impl LookupReason {
    /// Reads a reason from its spelling.
    #[tactic(auto, unfolding(crate::specs::Words::lookup_in))]
    pub fn read(token: &[u8]) -> Option<LookupReason>
        ensures { result ≡ lookup_in token.now }
    {
        if token == b"no-such-name".as_slice() {
            Some(LookupReason::NoSuchName)
        } else if token == b"no-address".as_slice() {
            Some(LookupReason::NoAddress)
        } else if token == b"no-answer".as_slice() {
            Some(LookupReason::NoAnswer)
        } else if token == b"refused".as_slice() {
            Some(LookupReason::Refused)
        } else if token == b"failed".as_slice() {
            Some(LookupReason::Failed)
        } else if token == b"malformed".as_slice() {
            Some(LookupReason::Malformed)
        } else if token == b"not-asked".as_slice() {
            Some(LookupReason::NotAsked)
        } else if token == b"nat64".as_slice() {
            Some(LookupReason::Nat64)
        } else {
            None
        }
    }

    /// The spelling.
    pub fn spelling(self) -> &'static str
        ensures { result.now ≡ lookup_spelling self }
    {
        match self {
            LookupReason::NoSuchName => "no-such-name",
            LookupReason::NoAddress => "no-address",
            LookupReason::NoAnswer => "no-answer",
            LookupReason::Refused => "refused",
            LookupReason::Failed => "failed",
            LookupReason::Malformed => "malformed",
            LookupReason::NotAsked => "not-asked",
            LookupReason::Nat64 => "nat64",
        }
    }
}

/// The reason that the client gave up a name server.
#[derive(Clone, Copy, Debug, PartialEq, Eq)]
pub enum ServerReason {
    /// It didn't answer.
    Silent,
    /// It refused to answer.
    Refused,
    /// It failed.
    Failed,
    /// The server is unreachable.
    Unreachable,
}

impl ServerReason {
    /// Reads a reason from its spelling.
    #[tactic(auto, unfolding(crate::specs::Words::server_in))]
    pub fn read(token: &[u8]) -> Option<ServerReason>
        ensures { result ≡ server_in token.now }
    {
        if token == b"silent".as_slice() {
            Some(ServerReason::Silent)
        } else if token == b"refused".as_slice() {
            Some(ServerReason::Refused)
        } else if token == b"failed".as_slice() {
            Some(ServerReason::Failed)
        } else if token == b"unreachable".as_slice() {
            Some(ServerReason::Unreachable)
        } else {
            None
        }
    }

    /// The spelling.
    pub fn spelling(self) -> &'static str
        ensures { result.now ≡ server_spelling self }
    {
        match self {
            ServerReason::Silent => "silent",
            ServerReason::Refused => "refused",
            ServerReason::Failed => "failed",
            ServerReason::Unreachable => "unreachable",
        }
    }
}

/// The reason that an attempt failed.
#[derive(Clone, Copy, Debug, PartialEq, Eq)]
pub enum AttemptReason {
    /// The host refused the connection.
    Refused,
    /// The host is unreachable.
    Unreachable,
    /// No answer came in the time that the client or its system allowed.
    TimedOut,
    /// The connection was reset during the handshake.
    Reset,
    /// A filter or a rule forbids the connection.
    Forbidden,
    /// The client's host has no source address for the connection.
    NoSource,
    /// Another reason.
    Other,
}

impl AttemptReason {
    /// Reads a reason from its spelling.
    #[tactic(auto, unfolding(crate::specs::Words::attempt_in))]
    pub fn read(token: &[u8]) -> Option<AttemptReason>
        ensures { result ≡ attempt_in token.now }
    {
        if token == b"refused".as_slice() {
            Some(AttemptReason::Refused)
        } else if token == b"unreachable".as_slice() {
            Some(AttemptReason::Unreachable)
        } else if token == b"timed-out".as_slice() {
            Some(AttemptReason::TimedOut)
        } else if token == b"reset".as_slice() {
            Some(AttemptReason::Reset)
        } else if token == b"forbidden".as_slice() {
            Some(AttemptReason::Forbidden)
        } else if token == b"no-source".as_slice() {
            Some(AttemptReason::NoSource)
        } else if token == b"other".as_slice() {
            Some(AttemptReason::Other)
        } else {
            None
        }
    }

    /// The spelling.
    pub fn spelling(self) -> &'static str
        ensures { result.now ≡ attempt_spelling self }
    {
        match self {
            AttemptReason::Refused => "refused",
            AttemptReason::Unreachable => "unreachable",
            AttemptReason::TimedOut => "timed-out",
            AttemptReason::Reset => "reset",
            AttemptReason::Forbidden => "forbidden",
            AttemptReason::NoSource => "no-source",
            AttemptReason::Other => "other",
        }
    }
}

/// The recorded client's own result, by its own rules, and the milliseconds from tick 0 until then, 0 to 3,600,000.
#[derive(Clone, Copy, Debug, PartialEq, Eq)]
pub enum ClientEnd {
    /// The client connected.
    Connected(u64),
    /// The client gave up while attempts were running.
    GaveUp(u64),
    /// All attempts of the client had failed.
    Failed(u64),
}

impl ClientEnd {
    /// The word of the line with this result.
    pub fn word(self) -> RecordWord
        ensures { result ≡ word_said (EndSaid self) }
    {
        match self {
            ClientEnd::Connected(_) => RecordWord::Connected,
            ClientEnd::GaveUp(_) => RecordWord::GaveUp,
            ClientEnd::Failed(_) => RecordWord::Failed,
        }
    }

    /// The milliseconds from tick 0.
    pub fn ticks(self) -> u64
        ensures { result ≡ ticks_of self }
    {
        match self {
            ClientEnd::Connected(ticks) => ticks,
            ClientEnd::GaveUp(ticks) => ticks,
            ClientEnd::Failed(ticks) => ticks,
        }
    }
}
