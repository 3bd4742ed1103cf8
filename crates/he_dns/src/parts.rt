// The parts of a name in a message (RFC 1035 section 4.1.4).

ghost use Rattle.std.specs.Prelude.{◌≡◌, ◌+◌, ◌<◌, IfSome, length};
ghost use Rattle.he_dns.specs.declared.parts.NamePart.TheVariants.{Label};
ghost use Rattle.he_dns.specs.Reading.{IsWithin, label_at, part_at};

use crate::limits::{MAX_LABEL, POINTER};
use crate::words::octet_at;

// A part of a name.
#[derive(Clone, Copy)]
pub(crate) enum NamePart {
    // The empty label, the name's end.
    Root,
    // A label of this number of octets, after the octet with its length.
    Label(usize),
    // Two octets with the place where the name continues.
    Pointer(usize),
}

#[tactic(auto, unfolding(crate::specs::Reading::part_at, crate::specs::Reading::octet_at))]
pub(crate) fn part_at(message: &[u8], at: usize) -> Option<NamePart>
    ensures value { result ≡ part_at message.now at }
    ensures within { IfSome result (IsWithin (length message.now) at) }
{
    let first = octet_at(message, at)?;
    if first == 0 {
        return Some(NamePart::Root);
    }
    if first as usize <= MAX_LABEL {
        return label_at(message, at, first as usize);
    }
    if first < POINTER {
        return None;
    }
    let second = octet_at(message, at + 1)?;
    Some(NamePart::Pointer((first - POINTER) as usize * 256 + second as usize))
}

// A label inside the message.
#[tactic(auto, unfolding(crate::specs::Reading::label_at))]
fn label_at(message: &[u8], at: usize, len: usize) -> Option<NamePart>
    ensures value { result ≡ label_at message.now at len }
    ensures within { IfSome result (λ part. (part ≡ Label len) × (at + len < length message.now)) }
{
    if at < message.len() && len < message.len() - at {
        Some(NamePart::Label(len))
    } else {
        None
    }
}
