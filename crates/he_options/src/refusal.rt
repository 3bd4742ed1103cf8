//! Why a command line asks for nothing that is done.
ghost use Rattle.std.specs.Prelude.{◌≡◌};
ghost use Rattle.clap.specs.Values.{kind_of};
ghost use Rattle.he_options.specs.Refusals.{refusal_by};

use clap::Error;
use clap::error::ErrorKind;
use he_addr::Memory;
use he_names::HostFault;
use he_timeline::Range;
use thiserror::Error;

/// Why a command line asks for nothing that is done. Its text is for a person, and has the words as the line has them.
#[derive(Debug, Drop, Error)]
pub enum Refusal {
    /// Help or the version was asked for, and is the text.
    #[error("{0}")]
    Help(Error),
    /// The words are wrong.
    #[error("{0}")]
    Words(Error),
    /// The words are wrong, and mean a host and a port: the line that works.
    #[error("he: HOST and PORT are two words: {0}\n\nFor more information, try '--help'.\n")]
    Meant(String),
    /// An option has a value that it can't have.
    #[error("he: {0}\n\nFor more information, try '--help'.\n")]
    Option(OptionFault),
    /// Memory was refused.
    #[error("out of memory")]
    Memory,
}

/// Which option has a value that it can't have.
#[derive(Clone, Copy, Debug, PartialEq, Eq, Error)]
pub enum OptionFault {
    #[error("invalid value for HOST: the host is empty")]
    Host,
    #[error("invalid value for PORT: neither a number from 1 to 65535 nor the name of a service, as `https`")]
    Port,
    #[error("invalid value for '--resolver <RESOLVER>': neither an address, alone or with a port or an interface, nor `system`")]
    Resolver,
    #[error("invalid value for '--resolver <RESOLVER>': {0}")]
    Server(HostFault),
    #[error("invalid value for '--for <ADDRESS>...': not an IPv4 or IPv6 address")]
    Destination,
    #[error("invalid value for '--record <FILE>': `-` goes with `-z`, since the connection has standard output")]
    Record,
    #[error("invalid value for '--record <FILE>': standard output (`-`) has the answers")]
    Answers,
    #[error("invalid value for '--record <FILE>': standard output (`-`) has the line of the check")]
    Check,
    #[error("'--json' goes with `-z`, and not with `--record -`: nothing else may have standard output")]
    Json,
    #[error("invalid value for '--listen <ADDR:PORT>': expected an address and a port, as 127.0.0.1:1080, [::1]:1080 or localhost:1080, or a port, as 1080 or :1080")]
    Listen,
    #[error("invalid value for '--allow <NETWORK>': expected a prefix with no bit set past its length, as 192.0.2.0/24")]
    Network,
    #[error("invalid value for '--to <RULE>' or '--not-to <RULE>': expected a network, a name or a .domain, alone or with ports, as 192.0.2.0/24, [2001:db8::/32]:443 or .example.com:80-443, or ports, as :443")]
    Rule,
    #[error("invalid value for '--timeout <MS>': expected 1 to 3600000 milliseconds, as 500, 500ms or 5s")]
    Timeout,
    #[error("invalid value for '--idle <SECONDS>': expected 1 to 1000000 seconds, as 90 or 90s, or less, as 500ms")]
    Idle,
    #[error("invalid value for '--interval <SECONDS>': expected 1 to 1000000 seconds, as 60 or 60s, or less, as 500ms")]
    Interval,
    #[error("invalid value for '--count <N>': expected a number from 1 to 1000000")]
    Count,
    #[error("invalid value for '--record <FILE>': `-` goes with none of --json, --openmetrics and -q")]
    Output,
    #[error("invalid value for '--record': the name is empty")]
    NoName,
    #[error("more than 4294967296 files")]
    Files,
    #[error("invalid value for '--html <FILE>': the name of a page ends in `.html`, or is `-` for standard output")]
    Page,
    /// A setting isn't a number, or has a name that there isn't.
    #[error("invalid value for '--set <NAME=N>': expected NAME=N, with NAME one of attempt, resolution, count, limit, floor")]
    Form,
    /// A setting has a list of numbers, which only a comparison takes.
    #[error("invalid value for '--set <NAME=N>': a list of numbers is for `he compare`")]
    List,
    #[error("invalid value for '--set <NAME=N,..>': one NAME may have a list, of at most 64 numbers")]
    Lists,
    /// This setting is out of its range.
    #[error("invalid value for '--set <NAME=N>': {text}", text = range_text(.0))]
    Range(Range),
}

fn range_text(range: &Range) -> &'static str {
    match range {
        Range::Resolution => "resolution is 0 to 1000",
        Range::Attempt => "attempt is 10 to 2000",
        Range::Count => "count is 1 to 8",
        Range::Limit => "limit is 1 to 3600000",
        Range::Floor => "floor is 10 to 2000, and at most an attempt that is given beside it",
    }
}

impl From<Error> for Refusal {
    ghost from_gives = { λ error refusal. refusal ≡ refusal_by (kind_of error) error };

    fn from(error: Error) -> Refusal {
        match error.kind() {
            ErrorKind::OutOfMemory => Refusal::Memory,
            ErrorKind::DisplayHelp | ErrorKind::DisplayVersion => Refusal::Help(error),
            _ => Refusal::Words(error),
        }
    }
}

impl From<Memory> for Refusal {
    fn from(_refused: Memory) -> Refusal {
        Refusal::Memory
    }
}

impl From<OptionFault> for Refusal {
    fn from(fault: OptionFault) -> Refusal {
        match fault {
            OptionFault::Server(HostFault::Memory) => Refusal::Memory,
            fault => Refusal::Option(fault),
        }
    }
}
