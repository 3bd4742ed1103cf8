//! Record lines.

ghost use Rattle.std.specs.Prelude.{◌≡◌, ◌≤◌};
ghost use Rattle.std.specs.List.{list_all};
ghost use Rattle.he_addr.specs.Ip.{InRange};
ghost use Rattle.he_words.specs.declared.fault.TextKind.TheVariants as kinds;
ghost use Rattle.he_words.specs.Ranges.{most_u16};
ghost use Rattle.he_reading.specs.Faults.{test};
ghost use Rattle.he_record.specs.Adding.{HasTypes, value_fault};
ghost use Rattle.he_record.specs.Left.{said_of};
ghost use Rattle.he_record.specs.Said.{ToSaid, group_said, is_host, is_host_byte, looks_up, tells_of, word_said};

use crate::limits::{MIN_PORT, MOST_HOST_BYTES};
use crate::moment::Moment;
use crate::nat64::Nat64Prefix;
use crate::reasons::{AttemptReason, ClientEnd, LookupReason, ServerReason};
use crate::words::RecordWord;
use he_addr::{Family, Ip};
use he_timeline::limits::MAX_TICK;
use he_words::TextKind;

/// A record line.
#[derive(Clone, Copy, Debug)]
pub enum RecordLine<'t> {
    /// The time of tick 0.
    At(Moment),
    /// The requested host and port: 1 to 255 printable ASCII bytes without a space, and 1 to 65535.
    To(&'t [u8], u16),
    /// The client's address, if the connection isn't this program's own.
    From(Ip),
    /// The reason that a family has no address.
    Lookup(Family, LookupReason),
    /// A prefix by which the network's NAT64 has the IPv4 addresses (RFC 6052): 32, 40, 48, 56, 64 or 96 bits, and not
    /// inside `::ffff:0:0/96`.
    Nat64(Nat64Prefix),
    /// A name server that gave no answer, the reason, and the milliseconds until the client gave it up, 0 to
    /// 3,600,000.
    Server(Ip, ServerReason, u64),
    /// An address, and the reason that the attempt at it failed.
    Attempt(Ip, AttemptReason),
    /// An address that no client tried: its outcome is not known.
    Untried(Ip),
    /// The recorded client's own result.
    End(ClientEnd),
}

impl<'t> RecordLine<'t> {
    /// The line's word.
    pub fn word(&self) -> RecordWord
        ensures { result ≡ word_said (said_of self.now) }
    {
        match self {
            RecordLine::At(_) => RecordWord::At,
            RecordLine::To(_, _) => RecordWord::To,
            RecordLine::From(_) => RecordWord::From,
            RecordLine::Lookup(_, _) => RecordWord::Lookup,
            RecordLine::Nat64(_) => RecordWord::Nat64,
            RecordLine::Server(_, _, _) => RecordWord::Server,
            RecordLine::Attempt(_, _) => RecordWord::Attempt,
            RecordLine::Untried(_) => RecordWord::Untried,
            RecordLine::End(end) => end.word(),
        }
    }

    // The group of the line's word.
    pub(crate) fn group(&self) -> u8
        ensures { result ≡ group_said (said_of self.now) }
    {
        self.word().group()
    }

    // Whether the line gives the reason that the family has no address.
    pub(crate) fn looks_up(&self, family: Family) -> bool
        ensures { result ≡ looks_up family (said_of self.now) }
    {
        match (self, family) {
            (RecordLine::Lookup(Family::V6, _), Family::V6) => true,
            (RecordLine::Lookup(Family::V4, _), Family::V4) => true,
            _ => false,
        }
    }

    // Whether the line is an attempt at the address, or marks it as untried.
    pub(crate) fn tells_of(&self, ip: Ip) -> bool
        ensures { result ≡ tells_of ip (said_of self.now) }
    {
        match self {
            RecordLine::Attempt(other, _) => *other == ip,
            RecordLine::Untried(other) => *other == ip,
            _ => false,
        }
    }

    // The fault of a value out of its range.
    pub(crate) fn value_fault(&self) -> Option<TextKind>
        ensures { result ≡ value_fault (said_of self.now) }
    {
        match self {
            RecordLine::At(moment) => out_of_range(!moment.is_moment()),
            RecordLine::To(host, port) => target_fault(host, *port),
            RecordLine::Nat64(prefix) => out_of_range(!prefix.is_nat64()),
            RecordLine::Server(_, _, ticks) => out_of_range(*ticks > MAX_TICK),
            RecordLine::End(end) => out_of_range(end.ticks() > MAX_TICK),
            _ => None,
        }
    }

    // Proves the ranges that the types of its values imply.
    pub(crate) fn has_types(&self)
        ensures { HasTypes (said_of self.now) }
    {
        match self {
            RecordLine::To(_, port) => port_range(*port),
            RecordLine::From(ip) => ip_range(*ip),
            RecordLine::Server(ip, _, _) => ip_range(*ip),
            RecordLine::Attempt(ip, _) => ip_range(*ip),
            RecordLine::Untried(ip) => ip_range(*ip),
            _ => {}
        }
    }
}

fn out_of_range(is_out: bool) -> Option<TextKind>
    ensures { result ≡ test is_out kinds.Range }
{
    if is_out { Some(TextKind::Range) } else { None }
}

fn target_fault(host: &[u8], port: u16) -> Option<TextKind>
    ensures { result ≡ value_fault (ToSaid host.now port) }
{
    if !is_host(host) {
        return Some(TextKind::Word);
    }
    out_of_range(port < MIN_PORT)
}

fn port_range(port: u16)
    ensures { port ≤ most_u16 }
{}

fn ip_range(ip: Ip)
    ensures { InRange ip }
{
    let _usable = ip.is_usable();
}

/// Whether the token is 1 to 255 printable ASCII bytes, none of them a space.
pub fn is_host(token: &[u8]) -> bool
    ensures { result ≡ is_host token.now }
{
    1 <= token.len() && token.len() <= MOST_HOST_BYTES && are_host_bytes(token)
}

fn are_host_bytes(token: &[u8]) -> bool
    ensures { result ≡ list_all is_host_byte token.now }
{
    token.iter().all(|byte| is_host_byte(*byte))
}

fn is_host_byte(byte: u8) -> bool
    ensures { result ≡ is_host_byte byte }
{
    33 <= byte && byte <= 126
}
