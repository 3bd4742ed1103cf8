// The set of an answer's addresses, which finds an address without a scan of the list.

ghost use Rattle.std.specs.Prelude.{◌≡◌, true, false, None, Some, IfOk, IfSome, IfNone};
ghost use Rattle.he_timeline.specs.Race.{has_ip};
ghost use Rattle.he_timeline.specs.Timeline.{are_distinct};

use he_addr::{Ip, Memory};
use indexmap::IndexSet;
use std::alloc::Allocator;
use std::hash::{BuildHasherDefault, FoldHasher};
use std::marker::Model;

// Up to this many addresses, a scan costs less than a hash and a set.
const FEW: usize = 8;

// Addresses in a hash set.
pub(crate) type Hashed<A> = IndexSet<Ip, BuildHasherDefault<FoldHasher>, A>;

// The addresses of an answer; None for up to `FEW`, which are scanned instead. Boxed, since most answers have no set
// and a set moves with its race.
#[derive(Drop)]
pub(crate) struct AddressSet<A: Allocator> {
    found: Option<Box<Hashed<A>, A>>,
}

impl<A: Allocator> Model for AddressSet<A> {
    ghost use Rattle.std.specs.Prelude.{List, Option, option_map};
    ghost use Rattle.he_addr.specs.declared.ip.Ip.{Ip};

    ghost Value = { Option (List Ip) };

    ghost view = { λ a. option_map (λ found. found.value.keys) a.found };
}

impl<A: Allocator + Copy> AddressSet<A> {
    // The set of the addresses; None if one appears twice.
    pub(crate) fn new(alloc: A, ips: &[Ip]) -> Result<Option<AddressSet<A>>, Memory>
        ensures some { IfOk result (λ o. IfSome o (λ set. IfSome set (λ keys. keys ≡ ips.now))) }
        ensures distinct { IfOk result (λ o. IfSome o (λ _. are_distinct ips.now ≡ true)) }
        ensures none { IfOk result (λ o. IfNone o (are_distinct ips.now ≡ false)) }
    {
        if ips.len() > FEW {
            return set_of(alloc, ips);
        }
        if are_distinct(ips) {
            Ok(Some(AddressSet::none()))
        } else {
            Ok(None)
        }
    }
}

impl<A: Allocator> AddressSet<A> {
    #[inline(always)]
    pub(crate) fn none() -> AddressSet<A>
        ensures { result ≡ None }
    {
        AddressSet { found: None }
    }

    // Whether the address is one of `ips`, from which the set was made.
    pub(crate) fn has(&self, ips: &[Ip], ip: Ip) -> bool
        requires { IfSome self.now (λ keys. keys ≡ ips.now) }
        ensures { result ≡ has_ip ip ips.now }
    {
        match &self.found {
            None => ips.contains(&ip),
            Some(found) => found.contains(&ip),
        }
    }
}

// The set of all the addresses; None if one appears twice.
fn set_of<A: Allocator + Copy>(alloc: A, ips: &[Ip]) -> Result<Option<AddressSet<A>>, Memory>
    ensures some { IfOk result (λ o. IfSome o (λ set. set ≡ Some ips.now)) }
    ensures distinct { IfOk result (λ o. IfSome o (λ _. are_distinct ips.now ≡ true)) }
    ensures none { IfOk result (λ o. IfNone o (are_distinct ips.now ≡ false)) }
{
    let mut found = IndexSet::with_capacity(alloc, ips.len())?;
    for ip in ips {
        if !found.insert(*ip)? {
            return Ok(None);
        }
    }
    let found = Some(Box::new(alloc, found)?);
    Ok(Some(AddressSet { found }))
}

pub(crate) fn are_distinct(ips: &[Ip]) -> bool
    ensures { result ≡ are_distinct ips.now }
{
    match ips {
        [] => true,
        [ip, rest @ ..] => !rest.contains(ip) && are_distinct(rest),
    }
}
