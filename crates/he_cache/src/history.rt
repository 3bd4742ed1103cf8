//! The history of addresses that were connected to (RFC 8305 section 4).

ghost use Rattle.std.specs.Prelude.{◌≡◌, ◌==◌, ◌<◌, ◌⊎◌, IfOk, None, OnErr, OnOk, Some, [], false, length, nat_eq};
ghost use Rattle.std.specs.Map.{remove_entry};
ghost use Rattle.lru.specs.LruCache.{lru_cache};
ghost use Rattle.he_addr.specs.Ip.{mapped_of};
ghost use Rattle.he_addr.specs.declared.ip.Ip.{Ip};
ghost use Rattle.he_cache.specs.Known.{counts, seen_of};

use he_addr::{Ip, Memory};
use lru::LruCache;
use std::alloc::Global;
use std::num::NonZeroUsize;

/// The maximum number of addresses in a history.
pub const MOST_ADDRESSES: usize = 4_096;

/// The time for which an entry counts, in seconds: a day.
pub const SECONDS_KNOWN: u64 = 86_400;

/// The last connection to an address.
#[derive(Clone, Copy, Debug, PartialEq, Eq)]
pub struct Seen {
    pub ip: Ip,
    /// The address of this machine from which the connection came.
    pub source: Ip,
    /// The time from the start of the attempt to its connection, in milliseconds.
    pub rtt: u64,
    /// The second of the connection, by any clock that never goes back.
    pub at: u64,
}

impl Seen {
    /// Whether the entry counts at the second `now` for a connection to the address from this source: for
    /// [`SECONDS_KNOWN`] seconds, and only from the same source, since another source means another network.
    pub fn counts(self, source: Ip, now: u64) -> bool
        ensures { result ≡ counts source now self }
    {
        self.source == source && now.saturating_sub(self.at) <= SECONDS_KNOWN
    }
}

/// The last connections to the [`MOST_ADDRESSES`] addresses that were connected to most recently.
#[derive(Drop)]
pub struct History {
    // By the address's number, that of an IPv4 address as its mapped one.
    pub(crate) seen: LruCache<u128, Seen>,
}

impl History {
    /// An empty history.
    ///
    /// # Errors
    ///
    /// `Memory` if an allocation failed.
    pub fn new(alloc: Global) -> Result<History, Memory>
        ensures { IfOk result (λ history. history.seen ≡ lru_cache [] 4096) }
    {
        let most = NonZeroUsize::new(MOST_ADDRESSES).unwrap_or(NonZeroUsize::MIN);
        Ok(History {
            seen: LruCache::new(alloc, most)?,
        })
    }

    /// Records a connection to an address, and replaces an earlier entry for it. Other entries are unchanged; but if
    /// their number is at its maximum, the address connected to longest ago is forgotten.
    ///
    /// # Errors
    ///
    /// `Memory` if an allocation failed; nothing has changed.
    pub fn learn(&mut self, seen: Seen) -> Result<(), Memory>
        ensures learnt { OnOk result (seen_of self.new seen.ip ≡ Some seen) }
        ensures others { (other : Ip) → (mapped_of other == mapped_of seen.ip) ≡ false
            → (seen_of self.new other ≡ seen_of self.old other) ⊎ (seen_of self.new other ≡ None) }
        ensures room { length self.old.seen.entries < self.old.seen.cap → (other : Ip)
            → (mapped_of other == mapped_of seen.ip) ≡ false → seen_of self.new other ≡ seen_of self.old other }
        ensures same { OnErr result (self.new ≡ self.old) }
        ensures most { self.new.seen.cap ≡ self.old.seen.cap }
    {
        self.seen.put(seen.ip.mapped(), seen)?;
        Ok(())
    }

    /// Records a failed attempt to connect to the address: forgets its entry, and no other.
    pub fn forget(&mut self, ip: Ip)
        ensures { self.new.seen
            ≡ lru_cache (remove_entry (nat_eq (mapped_of ip)) self.old.seen.entries) self.old.seen.cap }
    {
        self.seen.pop(&ip.mapped());
    }

    /// Whether the history is empty.
    pub fn is_empty(&self) -> bool
        ensures { result ≡ (length self.now.seen.entries == 0) }
    {
        self.seen.is_empty()
    }

    /// The entry of the address.
    pub fn seen(&self, ip: Ip) -> Option<Seen>
        ensures { result ≡ seen_of self.now ip }
    {
        self.seen.peek(&ip.mapped()).copied()
    }
}
