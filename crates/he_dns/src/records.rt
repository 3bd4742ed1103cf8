// Resource records (RFC 1035 section 4.1.3).

ghost use Rattle.std.specs.Prelude.{◌≡◌, ◌+◌, ◌≤◌, IfSome, length};
ghost use Rattle.he_dns.specs.Reading.{record_at};

use crate::names::read_name;
use crate::octets::Octets;
use crate::words::{octet_at, ttl_at, word_at};

// The fields of a record before its data, and the place of the data.
#[derive(Drop)]
pub(crate) struct Record {
    // NAME
    pub(crate) owner: Octets,
    // TYPE
    pub(crate) kind: u16,
    // CLASS
    pub(crate) class: u16,
    // TTL
    pub(crate) ttl: u32,
    // The first octet of TTL.
    pub(crate) ttl_first: u8,
    // The place of RDATA.
    pub(crate) place: usize,
    // RDLENGTH
    pub(crate) size: usize,
}

// The record at a place.
#[tactic(auto, unfolding(crate::specs::Reading::record_at, crate::specs::Reading::word_at, crate::specs::Reading::octet_at))]
pub(crate) fn read_record(message: &[u8], at: usize) -> Option<Record>
    ensures value { result ≡ record_at message.now at }
    ensures within { IfSome result (λ r. r.place + r.size ≤ length message.now) }
{
    let (owner, end) = read_name(message, at)?;
    let kind = word_at(message, end)?;
    let class = word_at(message, end + 2)?;
    let ttl = ttl_at(message, end + 4)?;
    let ttl_first = octet_at(message, end + 4)?;
    let size = word_at(message, end + 8)? as usize;
    let place = end + 10;
    if message.len() - place < size {
        return None;
    }
    Some(Record {
        owner,
        kind,
        class,
        ttl,
        ttl_first,
        place,
        size,
    })
}
