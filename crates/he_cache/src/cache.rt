//! The cache of answers.

ghost use Rattle.std.specs.Prelude.{◌≡◌, ◌<◌, ◌⊎◌, IfOk, None, OnErr, OnOk, Some, false, length, map, string_bytes, ◌≢◌, []};
ghost use Rattle.std.specs.Char.{to_ascii_lowercase};
ghost use Rattle.std.specs.Option.{option_copied};
ghost use Rattle.std.specs.Str.{bytes_eq};
ghost use Rattle.lru.specs.LruCache.{lru_cache};
ghost use Rattle.he_cache.specs.Keeping.{answer_at, has_room, is_same, kept_in, kept_of, seconds_for};

use he_addr::{Family, Memory};
use lru::LruCache;
use std::alloc::Global;
use std::num::NonZeroUsize;
use std::string::String;

/// The maximum number of hosts whose answer of a family is kept.
pub const MOST_HOSTS: usize = 1_024;

/// The maximum time that an answer is kept, in seconds, whatever its TTL.
pub const MOST_SECONDS: u32 = 300;

/// The time that an answer without a TTL is kept, in seconds.
pub const SECONDS_WITHOUT_TTL: u32 = 5;

// An answer, the second in which it was kept, and the number of seconds for which it is valid.
#[derive(Drop)]
pub(crate) struct Kept<V> {
    answer: V,
    at: u64,
    seconds: u64,
}

/// The answers of look-ups: for each family those of the last [`MOST_HOSTS`] hosts that were kept.
#[derive(Drop)]
pub struct AnswerCache<V> {
    alloc: Global,
    // By host, in lower case.
    v6: LruCache<String, Kept<V>>,
    v4: LruCache<String, Kept<V>>,
}

impl<V: Drop> AnswerCache<V> {
    /// An empty cache.
    ///
    /// # Errors
    ///
    /// `Memory` if an allocation failed.
    pub fn new(alloc: Global) -> Result<AnswerCache<V>, Memory>
        ensures six { IfOk result (λ cache. cache.v6 ≡ lru_cache [] 1024) }
        ensures four { IfOk result (λ cache. cache.v4 ≡ lru_cache [] 1024) }
    {
        let most = NonZeroUsize::new(MOST_HOSTS).unwrap_or(NonZeroUsize::MIN);
        Ok(AnswerCache {
            alloc,
            v6: LruCache::new(alloc, most)?,
            v4: LruCache::new(alloc, most)?,
        })
    }

    /// The answer kept last for this family of the host, if it is still valid at `now`, a second of any clock that
    /// never goes back.
    ///
    /// # Errors
    ///
    /// `Memory` if an allocation failed.
    pub fn answer(&self, now: u64, host: &str, family: Family) -> Result<Option<&V>, Memory>
        ensures { IfOk result (λ answer. option_copied answer ≡ answer_at now (kept_of self.now host.now family)) }
    {
        let host = lower_case(self.alloc, host)?;
        let kept = match family {
            Family::V6 => self.v6.peek(&host),
            Family::V4 => self.v4.peek(&host),
        };
        match kept {
            Some(kept) if now.saturating_sub(kept.at) < kept.seconds => Ok(Some(&kept.answer)),
            _ => Ok(None),
        }
    }

    /// Keeps the answer for this family of the host from the second `now` on, and replaces an earlier one. It is
    /// valid for its TTL in seconds, at most [`MOST_SECONDS`]; without a TTL, as when there are no addresses, for
    /// [`SECONDS_WITHOUT_TTL`]. The answers of other hosts are unchanged; but if their number is at its maximum, the
    /// host that was kept longest ago is forgotten.
    ///
    /// # Errors
    ///
    /// `Memory` if an allocation failed; nothing has changed.
    pub fn keep(
        &mut self,
        now: u64,
        host: &str,
        family: Family,
        answer: V,
        ttl: Option<u32>,
    ) -> Result<(), Memory>
        ensures kept { OnOk result (kept_of self.new host.now family
            ≡ Some (record { answer = answer; at = now; seconds = seconds_for ttl })) }
        ensures other_hosts { (other : _) → is_same host.now other ≡ false
            → (kept_of self.new other family ≡ kept_of self.old other family)
            ⊎ (kept_of self.new other family ≡ None) }
        ensures room { has_room self.old family → (other : _) → is_same host.now other ≡ false
            → kept_of self.new other family ≡ kept_of self.old other family }
        ensures other_family { (other : _) → other ≢ family → (host : _) → kept_of self.new host other
            ≡ kept_of self.old host other }
        ensures same { OnErr result (self.new ≡ self.old) }
        ensures most { (self.new.v6.cap ≡ self.old.v6.cap) × (self.new.v4.cap ≡ self.old.v4.cap) }
    {
        let host = lower_case(self.alloc, host)?;
        let kept = Kept {
            answer,
            at: now,
            seconds: seconds_for(ttl),
        };
        match family {
            Family::V6 => put(&mut self.v6, host, kept),
            Family::V4 => put(&mut self.v4, host, kept),
        }
    }
}

// Keeps an answer for a host in lower case, and replaces an earlier one.
fn put<V: Drop>(
    hosts: &mut LruCache<String, Kept<V>>,
    host: String,
    kept: Kept<V>,
) -> Result<(), Memory>
    ensures kept { OnOk result (kept_in hosts.new.entries (string_bytes host) ≡ Some kept) }
    ensures others { (other : _) → bytes_eq (string_bytes host) other ≡ false
        → (kept_in hosts.new.entries other ≡ kept_in hosts.old.entries other)
        ⊎ (kept_in hosts.new.entries other ≡ None) }
    ensures room { length hosts.old.entries < hosts.old.cap → (other : _)
        → bytes_eq (string_bytes host) other ≡ false
        → kept_in hosts.new.entries other ≡ kept_in hosts.old.entries other }
    ensures same { OnErr result (hosts.new ≡ hosts.old) }
    ensures cap { hosts.new.cap ≡ hosts.old.cap }
{
    hosts.put(host, kept)?;
    Ok(())
}

// The number of seconds for which an answer is kept.
fn seconds_for(ttl: Option<u32>) -> u64
    ensures { result ≡ seconds_for ttl }
{
    match ttl {
        Some(ttl) => u64::from(ttl.min(MOST_SECONDS)),
        None => u64::from(SECONDS_WITHOUT_TTL),
    }
}

fn lower_case(alloc: Global, host: &str) -> Result<String, Memory>
    ensures { IfOk result (λ lower. string_bytes lower ≡ map to_ascii_lowercase host.now) }
{
    let mut lower = String::from_str(alloc, host)?;
    lower.make_ascii_lowercase();
    Ok(lower)
}
