// Numbers of a message: octets, and words of two octets, the high one first (RFC 1035 section 2.3.2).

ghost use Rattle.std.specs.Prelude.{◌≡◌};
ghost use Rattle.he_dns.specs.Reading.{octet_at, ttl_at, word_at};

use crate::limits::MAX_TTL;

#[tactic(auto, unfolding(crate::specs::Reading::octet_at))]
pub(crate) fn octet_at(message: &[u8], at: usize) -> Option<u8>
    ensures { result ≡ octet_at message.now at }
{
    if at < message.len() {
        Some(message[at])
    } else {
        None
    }
}

#[tactic(auto, unfolding(crate::specs::Reading::word_at))]
pub(crate) fn word_at(message: &[u8], at: usize) -> Option<u16>
    ensures { result ≡ word_at message.now at }
{
    if at < message.len() && 1 < message.len() - at {
        Some(u16::from_be_bytes([message[at], message[at + 1]]))
    } else {
        None
    }
}

// The TTL at a place, in seconds (RFC 1035 section 3.2.1). A TTL above 2^31 - 1 counts as 0 (RFC 2181 section 8).
#[tactic(auto, unfolding(crate::specs::Reading::ttl_at, crate::specs::Reading::word_at))]
pub(crate) fn ttl_at(message: &[u8], at: usize) -> Option<u32>
    ensures { result ≡ ttl_at message.now at }
{
    let high = word_at(message, at)?;
    let low = word_at(message, at + 2)?;
    let ttl = u32::from(high) * 65_536 + u32::from(low);
    Some(if ttl > MAX_TTL { 0 } else { ttl })
}
