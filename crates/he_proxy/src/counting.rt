//! Counts for the proxy's metrics: the log's words as the events of he_metrics.
ghost use Rattle.std.specs.Prelude.{◌≡◌};
ghost use Rattle.he_proxy.specs.Counting.{end_of, loss_of};

use he_log::Lost;
use he_metrics::{End, Loss};
use he_sessions::Ending;

/// How a session ended, as it is counted.
pub fn counted_end(how: Ending) -> End
    ensures { result ≡ end_of how }
{
    match how {
        Ending::Closed => End::Closed,
        Ending::ClientBroke => End::ClientBroke,
        Ending::ServerBroke => End::ServerBroke,
        Ending::Idle => End::Idle,
        Ending::Left => End::ClientLeft,
        Ending::Displaced => End::Displaced,
        Ending::Late => End::TooLate,
        Ending::Refused => End::Refused,
        Ending::NoResponse => End::NoResponse,
        Ending::Page => End::Page,
        Ending::Unknown => End::UnknownProtocol,
        Ending::Failed => End::NoMemory,
    }
}

/// Why a race has no connection, as it is counted.
pub fn counted_loss(lost: Lost) -> Loss
    ensures { result ≡ loss_of lost }
{
    match lost {
        Lost::Forbidden => Loss::Forbidden,
        Lost::AllFailed => Loss::AllFailed,
        Lost::TimedOut => Loss::TimedOut,
        Lost::Unreachable => Loss::Unreachable,
        Lost::NoNetwork => Loss::NoNetwork,
        Lost::NoDescriptor => Loss::NoDescriptor,
        Lost::NotAName => Loss::NotAName,
        Lost::NoSuchName => Loss::NoSuchName,
        Lost::NoAddress => Loss::NoAddress,
        Lost::NoAnswer => Loss::NoAnswer,
        Lost::DnsRefused => Loss::DnsRefused,
        Lost::DnsFailed => Loss::DnsFailed,
        Lost::ProxyFailed => Loss::ProxyFailed,
    }
}
