//! The facts that a client knows of its race beside the race itself.

ghost use Rattle.he_recording.specs.Alone.{IsAlone};

use he_addr::Ip;
use he_record::nat64::Nat64Prefix;
use he_record::{AttemptReason, ClientEnd, LookupReason, Moment, ServerReason};

/// A requested host and port.
#[derive(Clone, Copy)]
pub struct Target<'t> {
    pub host: &'t [u8],
    pub port: u16,
}

/// A name server that gave no answer.
#[derive(Clone, Copy, Debug, PartialEq, Eq)]
pub struct ServerFailure {
    pub ip: Ip,
    pub reason: ServerReason,
    /// Milliseconds from the start of the look-up until the server failed or was given up.
    pub ticks: u64,
}

/// An address to which an attempt failed.
#[derive(Clone, Copy, Debug, PartialEq, Eq)]
pub struct AttemptFailure {
    pub ip: Ip,
    pub reason: AttemptReason,
}

/// The facts of a race that its record has.
#[derive(Clone, Copy)]
pub struct Facts<'t> {
    /// The time of tick 0.
    pub at: Option<Moment>,
    pub to: Option<Target<'t>>,
    /// The client, if the connection isn't this program's own.
    pub from: Option<Ip>,
    /// Why IPv6 has no address.
    pub six: Option<LookupReason>,
    /// Why IPv4 has no address.
    pub four: Option<LookupReason>,
    /// The prefixes of the network's NAT64, if they were looked up.
    pub nat64: &'t [Nat64Prefix],
    pub servers: &'t [ServerFailure],
    pub attempts: &'t [AttemptFailure],
    /// The client's own result.
    pub end: Option<ClientEnd>,
}

impl<'t> Facts<'t> {
    /// No facts but the time of tick 0.
    pub fn at(at: Option<Moment>) -> Facts<'t>
        ensures { IsAlone at result }
    {
        Facts {
            at,
            to: None,
            from: None,
            six: None,
            four: None,
            nat64: &[],
            servers: &[],
            attempts: &[],
            end: None,
        }
    }
}
