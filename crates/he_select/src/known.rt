// A client's knowledge of destinations from earlier connections (RFC 8305 section 4).

ghost use Rattle.std.specs.Prelude.{◌≡◌};
ghost use Rattle.std.specs.List.{list_any};
ghost use Rattle.he_select.specs.Selection.{known_of, nothing_known, rtt_or_unknown};
ghost use Rattle.he_select.specs.Attributes.{tells, told_of};

use he_addr::Ip;

/// A client's knowledge of one destination, from earlier connections.
#[derive(Clone, Copy, Debug, PartialEq, Eq)]
pub struct Known {
    /// The destination.
    pub ip: Ip,
    /// The last round trip time in milliseconds, if one is known. 2^64 - 1 counts as 2^64 - 2.
    pub rtt: Option<u64>,
    /// Whether the address was used before.
    pub used: bool,
}

/// The value of an unknown round trip time, greater than every known one.
const UNKNOWN_RTT: u64 = u64::MAX;

impl Known {
    /// An entry without knowledge of the destination.
    pub fn nothing(ip: Ip) -> Known
        ensures { result ≡ nothing_known ip }
    {
        Known {
            ip,
            rtt: None,
            used: false,
        }
    }

    fn tells(&self) -> bool
        ensures { result ≡ tells self.now }
    {
        self.rtt.is_some() || self.used
    }
}

/// The list; an empty one if no entry holds any knowledge, so that nothing is looked up.
pub(crate) fn told(known: &[Known]) -> &[Known]
    ensures { result.now ≡ told_of known.now }
{
    if is_any_known(known) { known } else { &[] }
}

fn is_any_known(known: &[Known]) -> bool
    ensures { result ≡ list_any tells known.now }
{
    known.iter().any(|one| one.tells())
}

/// The first entry for the address.
pub(crate) fn find_known(known: &[Known], ip: Ip) -> Option<Known>
    ensures { result ≡ known_of known.now ip }
{
    for one in known {
        if one.ip == ip {
            return Some(*one);
        }
    }
    None
}

/// The round trip time as a number; an unknown one is greater than every known one.
pub(crate) fn rtt_or_unknown(rtt: Option<u64>) -> u64
    ensures { result ≡ rtt_or_unknown rtt }
{
    match rtt {
        Some(rtt) => rtt.min(UNKNOWN_RTT - 1),
        None => UNKNOWN_RTT,
    }
}
