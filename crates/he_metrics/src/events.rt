//! The events that are counted.

use he_addr::Family;

/// An event of a proxy.
#[derive(Clone, Copy)]
pub enum Event {
    /// A session began.
    Begun,
    /// A session ended.
    Ended(End),
    /// A client was not served.
    Refused(Refusal),
    /// A race connected.
    Won(Win),
    /// A race did not connect, or none could begin.
    Lost(Loss),
    /// A race needed the addresses of a name.
    LookedUp(Lookup),
    /// The record of a race was written.
    Recorded,
    /// The record of a race could not be written.
    NotRecorded,
}

/// How a session ended: the words after `end=` in the log.
#[derive(Clone, Copy)]
pub enum End {
    Closed,
    ClientBroke,
    ServerBroke,
    Idle,
    ClientLeft,
    Displaced,
    TooLate,
    Refused,
    NoResponse,
    Page,
    UnknownProtocol,
    NoMemory,
}

/// Why a client is not served.
#[derive(Clone, Copy)]
pub enum Refusal {
    /// It comes from no allowed network.
    TurnedAway,
    /// Its address has the most sessions already.
    TooMany,
}

/// The result of a race that connected. Times are milliseconds.
#[derive(Clone, Copy)]
pub struct Win {
    /// The family of the address.
    pub family: Family,
    /// From the start of the race to the connection.
    pub connect: u64,
    /// From the start of the race to its first attempt.
    pub names: u64,
    /// The part of `connect` that was lost to addresses that failed or came late.
    pub lost: u64,
}

/// Why a race did not connect: the words after `fault=` in the log, and that the client left.
#[derive(Clone, Copy)]
pub enum Loss {
    ClientLeft,
    Forbidden,
    AllFailed,
    TimedOut,
    Unreachable,
    NoNetwork,
    NoDescriptor,
    NotAName,
    NoSuchName,
    NoAddress,
    NoAnswer,
    DnsRefused,
    DnsFailed,
    ProxyFailed,
}

/// Where the addresses of a name come from.
#[derive(Clone, Copy)]
pub enum Lookup {
    /// The race asks for them.
    Asked,
    /// Another race asks for them already.
    Shared,
    /// An answer that was kept.
    Kept,
}
