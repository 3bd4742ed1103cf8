// The contents of the records of an answer section.

ghost use Rattle.std.specs.Prelude.{◌≡◌, ◌+◌, ◌≤◌, Ok, Err, Some, None, MatchResult, length};
ghost use Rattle.he_dns.specs.Reading.{address_of, alias_at, content_of, entries_from, entry_at, Refuses};

use crate::fault::AnswerFault;
use crate::limits::{CLASS_IN, TYPE_CNAME};
use crate::names::read_name;
use crate::octets::Octets;
use crate::question::type_of;
use crate::records::{Record, read_record};
use he_addr::{Family, Ip};
use std::alloc::Allocator;

// The content of a record, about its owner.
#[derive(Drop)]
pub(crate) enum Content {
    // The owner is an alias of this name.
    Alias(Octets),
    Address(Ip),
    // Anything that was not requested.
    Other,
}

#[derive(Drop)]
pub(crate) struct Entry {
    pub(crate) owner: Octets,
    // The time for which it may be kept, in seconds.
    pub(crate) ttl: u32,
    pub(crate) content: Content,
}

// Reads an alias: a name that is the whole data.
#[tactic(auto, unfolding(crate::specs::Reading::alias_at))]
fn read_alias(message: &[u8], place: usize, size: usize) -> Option<Content>
    ensures { result ≡ alias_at message.now place size }
{
    let (target, end) = read_name(message, place)?;
    if end < place || end - place != size {
        return None;
    }
    Some(Content::Alias(target))
}

// Reads an address that is the whole data.
#[tactic(auto, unfolding(crate::specs::Reading::address_of))]
fn read_address(octets: &[u8], family: Family) -> Option<Content>
    ensures { result ≡ address_of octets.now family }
{
    let ip = match family {
        Family::V4 => Ip::V4(u32::from_be_bytes(*octets.as_array()?)),
        Family::V6 => Ip::V6(u128::from_be_bytes(*octets.as_array()?)),
    };
    Some(Content::Address(ip))
}

#[tactic(auto, unfolding(crate::specs::Reading::content_of))]
fn read_content(message: &[u8], source: &Record, family: Family) -> Option<Content>
    requires { source.now.place + source.now.size ≤ length message.now }
    ensures { result ≡ content_of message.now family source.now }
{
    if source.class != CLASS_IN {
        return Some(Content::Other);
    }
    if source.kind == TYPE_CNAME {
        return read_alias(message, source.place, source.size);
    }
    if source.kind == type_of(family) {
        return read_address(&message[source.place..source.place + source.size], family);
    }
    Some(Content::Other)
}

// The entry of the record at a place, and the end of the record.
#[tactic(auto, unfolding(crate::specs::Reading::entry_at))]
fn read_entry(message: &[u8], at: usize, family: Family) -> Option<(Entry, usize)>
    ensures { result ≡ entry_at message.now family at }
{
    let source = read_record(message, at)?;
    let content = read_content(message, &source, family)?;
    let end = source.place + source.size;
    Some((
        Entry {
            owner: source.owner,
            ttl: source.ttl,
            content,
        },
        end,
    ))
}

// The entries of `count` records from a place on.
pub(crate) fn read_entries<A: Allocator + Copy>(
    alloc: A,
    message: &[u8],
    at: usize,
    count: u16,
    family: Family,
) -> Result<Vec<Entry, A>, AnswerFault>
    ensures { MatchResult result (λ entries. entries_from count message.now family at
        ≡ Some entries.items) (λ fault. Refuses (entries_from count message.now family at) fault) }
{
    let mut entries = Vec::new(alloc);
    let mut at = at;
    'records: for read in 0..count {
        match read_entry(message, at, family) {
            None => return Err(AnswerFault::Malformed),
            Some((entry, end)) => {
                entries.push(entry)?;
                at = end;
            }
        }
    }
    Ok(entries)
}
