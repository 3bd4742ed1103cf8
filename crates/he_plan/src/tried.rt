// The set of the addresses that attempts have tried, which finds one without a scan of the attempts.

ghost use Rattle.std.specs.Prelude.{◌≡◌, IfOk};
ghost use Rattle.he_addr.specs.declared.ip.Ip.{Ip};
ghost use Rattle.he_plan.specs.Attempts.{is_tried};
ghost use Rattle.he_timeline.specs.Race.{has_ip};

use crate::attempts::Attempt;
use he_addr::{Ip, Memory};
use indexmap::IndexSet;
use std::alloc::Allocator;
use std::hash::{BuildHasherDefault, FoldHasher};

// Up to this many attempts, a scan costs less than a set of their addresses.
pub(crate) const FEW: usize = 8;

// Addresses in a hash set.
pub(crate) type Tried<A> = IndexSet<Ip, BuildHasherDefault<FoldHasher>, A>;

pub(crate) fn tried_by<A: Allocator + Copy>(alloc: A, done: &[Attempt]) -> Result<Tried<A>, Memory>
    ensures { IfOk result (λ tried. (ip : Ip) → has_ip ip tried.keys ≡ is_tried done.now ip) }
{
    let mut tried = IndexSet::with_capacity(alloc, done.len())?;
    for attempt in done {
        tried.insert(attempt.ip)?;
    }
    Ok(tried)
}

pub(crate) fn has<A: Allocator>(tried: &Tried<A>, ip: Ip) -> bool
    ensures { result ≡ has_ip ip tried.now.keys }
{
    tried.contains(&ip)
}
