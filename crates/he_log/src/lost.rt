//! Why a session has no connection.
ghost use Rattle.std.specs.Prelude.{◌≡◌};
ghost use Rattle.he_log.specs.Lost.{ended_of, of_attempt, of_failure, of_names};

use he_front::Ended;
use he_live::Reason;
use he_settings::{Failure, NamesFault};

/// Why a session has no connection.
#[derive(Clone, Copy, Debug, PartialEq, Eq)]
pub enum Lost {
    /// The client may not reach the target.
    Forbidden,
    /// No attempt connected, and one was refused or reset.
    AllFailed,
    /// No attempt had an answer by the race's limit.
    TimedOut,
    /// The host is unreachable: nothing on the way takes the packets.
    Unreachable,
    /// No network leads to an address of the host.
    NoNetwork,
    /// The process or the machine has no descriptor left.
    NoDescriptor,
    /// The text is not a host name.
    NotAName,
    /// The name does not exist.
    NoSuchName,
    /// The name has no usable address.
    NoAddress,
    /// No name server answered in time.
    NoAnswer,
    /// A name server refused to answer.
    DnsRefused,
    /// The name servers failed.
    DnsFailed,
    /// The proxy failed: no memory, no clock, or a file of this machine that can't be read.
    ProxyFailed,
}

impl Lost {
    /// Why a look-up has no address.
    pub fn of_names(fault: NamesFault) -> Lost
        ensures { result ≡ of_names fault }
    {
        match fault {
            NamesFault::Host(_) | NamesFault::Name(_) => Lost::NotAName,
            NamesFault::NoSuchName => Lost::NoSuchName,
            NamesFault::NoAddress | NamesFault::NotAsked | NamesFault::System => Lost::NoAddress,
            NamesFault::NoAnswer => Lost::NoAnswer,
            NamesFault::Server(server) => Lost::of_failure(server.failure),
            NamesFault::Files => Lost::NoDescriptor,
            // Faults of this machine.
            _ => Lost::ProxyFailed,
        }
    }

    fn of_failure(failure: Failure) -> Lost
        ensures { result ≡ of_failure failure }
    {
        match failure {
            Failure::Refused => Lost::DnsRefused,
            _ => Lost::DnsFailed,
        }
    }

    /// Why an attempt failed.
    pub fn of_attempt(reason: Reason) -> Lost
        ensures { result ≡ of_attempt reason }
    {
        match reason {
            Reason::Refused | Reason::Reset => Lost::AllFailed,
            Reason::TimedOut => Lost::TimedOut,
            Reason::NetworkUnreachable | Reason::NetworkDown | Reason::NoFamily => Lost::NoNetwork,
            Reason::TooManyFiles | Reason::TooManyFilesInSystem => Lost::NoDescriptor,
            Reason::OutOfMemory | Reason::NoBuffers => Lost::ProxyFailed,
            _ => Lost::Unreachable,
        }
    }

    /// The reply to the client.
    pub fn ended(self) -> Ended
        ensures { result ≡ ended_of self }
    {
        match self {
            Lost::Forbidden => Ended::Forbidden,
            Lost::AllFailed => Ended::Refused,
            Lost::TimedOut => Ended::TimedOut,
            Lost::NoNetwork => Ended::NoNetwork,
            Lost::NoDescriptor | Lost::ProxyFailed => Ended::Failed,
            _ => Ended::NoHost,
        }
    }

    /// Why a look-up has no address, for people. `None` if a look-up is not the cause.
    pub fn nameless(self) -> Option<&'static str> {
        Some(match self {
            Lost::NotAName => "not a host name",
            Lost::NoSuchName => "no such name",
            Lost::NoAddress => "the name has no address",
            Lost::NoAnswer => "no name server answered",
            Lost::DnsRefused => "a name server refused to answer",
            Lost::DnsFailed => "the name servers failed",
            _ => return None,
        })
    }

    /// The word in the log.
    pub fn word(self) -> &'static str {
        match self {
            Lost::Forbidden => "forbidden",
            Lost::AllFailed => "all-failed",
            Lost::TimedOut => "timed-out",
            Lost::Unreachable => "unreachable",
            Lost::NoNetwork => "no-network",
            Lost::NoDescriptor => "no-descriptor",
            Lost::NotAName => "not-a-name",
            Lost::NoSuchName => "no-such-name",
            Lost::NoAddress => "no-address",
            Lost::NoAnswer => "no-answer",
            Lost::DnsRefused => "dns-refused",
            Lost::DnsFailed => "dns-failed",
            Lost::ProxyFailed => "proxy-failed",
        }
    }
}
