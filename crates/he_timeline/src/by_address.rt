// Values by address.

ghost use Rattle.std.specs.Prelude.{◌≡◌, ◌++◌, [], ◌∷◌, true, find, option_copied, IfOk, IfSome, OnOk, OnErr};
ghost use Rattle.std.specs.Map.{keys_of};
ghost use Rattle.he_addr.specs.Ip.{same_ip};
ghost use Rattle.he_timeline.specs.Race.{is_told, told_of};
ghost use Rattle.he_timeline.specs.Timeline.{are_told_once};

use crate::addresses::Hashed;
use crate::assigning::put;
use he_addr::{Ip, Memory};
use indexmap::IndexSet;
use std::alloc::Allocator;
use std::marker::Model;

// Up to this many addresses, a scan costs less than a hash and an index.
const FEW: usize = 8;

// An index of the addresses of the entries, by place.
type Places<A> = Box<Hashed<A>, A>;

// Values by address, in the order given; no address occurs twice.
#[derive(Drop)]
pub(crate) struct ByAddress<V: Copy, A: Allocator> {
    told: Vec<(Ip, V), A>,
    // the addresses of `told` in its order; None for few of them, which are scanned instead
    places: Option<Places<A>>,
}

impl<V: Copy, A: Allocator> Model for ByAddress<V, A> {
    ghost use Rattle.std.specs.Prelude.{List, ◌≡◌, IfSome};
    ghost use Rattle.std.specs.Map.{keys_of};
    ghost use Rattle.he_addr.specs.declared.ip.Ip.{Ip};

    ghost Value = { List (Ip × V) };

    ghost view = { λ t. t.told.items };

    ghost invariant = { λ t. IfSome t.places (λ places. places.value.keys ≡ keys_of t.told.items) };
}

impl<V: Copy, A: Allocator + Copy> ByAddress<V, A> {
    #[inline(always)]
    pub(crate) fn none(alloc: A) -> ByAddress<V, A>
        ensures { result ≡ [] }
    {
        ByAddress {
            told: Vec::new(alloc),
            places: None,
        }
    }

    // Makes room for `count` entries if there are none yet, so that the first push doesn't allocate room for only a
    // few.
    pub(crate) fn make_room(&mut self, count: usize) -> Result<(), Memory>
        ensures { self.new ≡ self.old }
    {
        if self.told.is_empty() {
            self.told.reserve_exact(count)
        } else {
            Ok(())
        }
    }

    pub(crate) fn push(&mut self, ip: Ip, value: V) -> Result<(), Memory>
        requires { are_told_once (self.old ++ (ip, value) ∷ []) ≡ true }
        ensures ok { OnOk result (self.new ≡ self.old ++ (ip, value) ∷ []) }
        ensures err { OnErr result (self.new ≡ self.old) }
    {
        if self.told.len() >= FEW {
            make_places(&mut self.places, &self.told)?;
        }
        match &mut self.places {
            None => self.told.push((ip, value))?,
            Some(places) => push_placed(&mut self.told, places, ip, value)?,
        }
        Ok(())
    }
}

impl<V: Copy, A: Allocator> ByAddress<V, A> {
    pub(crate) fn has(&self, ip: Ip) -> bool
        ensures { result ≡ is_told ip self.now }
    {
        match &self.places {
            None => is_told(&self.told, ip),
            Some(places) => places.contains(&ip),
        }
    }

    pub(crate) fn of(&self, ip: Ip) -> Option<V>
        ensures { result ≡ told_of self.now ip }
    {
        let Some(places) = &self.places else {
            return told_of_few(&self.told, ip);
        };
        match places.get_index_of(&ip) {
            Some(place) => Some(self.told[place].1),
            None => None,
        }
    }

    pub(crate) fn copy<B: Allocator + Copy>(&self, alloc: B) -> Result<ByAddress<V, B>, Memory>
        requires { are_told_once self.now ≡ true }
        ensures { IfOk result (λ copy. copy ≡ self.now) }
    {
        let told = Vec::from_slice(alloc, &self.told)?;
        let places = match &self.places {
            None => None,
            Some(_) => Some(places_of(alloc, &told, told.len())?),
        };
        Ok(ByAddress { told, places })
    }

    pub(crate) fn as_slice(&self) -> &[(Ip, V)]
        ensures { result.now ≡ self.now }
    {
        self.told.as_slice()
    }
}

fn is_told<V: Copy>(told: &[(Ip, V)], ip: Ip) -> bool
    ensures { result ≡ is_told ip told.now }
{
    told.iter().any(|one| one.0 == ip)
}

fn told_of_few<V: Copy>(told: &[(Ip, V)], ip: Ip) -> Option<V>
    ensures { result ≡ told_of told.now ip }
{
    match find_told(told, ip) {
        Some(found) => Some(found.1),
        None => None,
    }
}

fn find_told<V: Copy>(told: &[(Ip, V)], ip: Ip) -> Option<&(Ip, V)>
    ensures { option_copied result ≡ find (λ p. same_ip p.0 ip) told.now }
{
    told.iter().find(|one| one.0 == ip)
}

// Makes the index of the addresses, if there is none yet, with room for the capacity of `told`.
fn make_places<V: Copy, A: Allocator + Copy>(
    places: &mut Option<Places<A>>,
    told: &Vec<(Ip, V), A>,
) -> Result<(), Memory>
    requires places { IfSome places.old (λ places. places.value.keys ≡ keys_of told.now.items) }
    requires once { are_told_once told.now.items ≡ true }
    ensures { IfSome places.new (λ places. places.value.keys ≡ keys_of told.now.items) }
{
    if places.is_none() {
        let made = places_of(*told.allocator(), told, told.capacity())?;
        put(places, Some(made));
    }
    Ok(())
}

// Appends an entry to the list and to the index.
fn push_placed<V: Copy, A: Allocator>(
    told: &mut Vec<(Ip, V), A>,
    places: &mut Places<A>,
    ip: Ip,
    value: V,
) -> Result<(), Memory>
    requires places { places.old.value.keys ≡ keys_of told.old.items }
    requires once { are_told_once (told.old.items ++ (ip, value) ∷ []) ≡ true }
    ensures ok { OnOk result (told.new.items ≡ told.old.items ++ (ip, value) ∷ []) }
    ensures err { OnErr result (told.new.items ≡ told.old.items) }
    ensures places { places.new.value.keys ≡ keys_of told.new.items }
{
    told.push((ip, value))?;
    if let Err(refused) = places.insert(ip) {
        told.pop();
        return Err(refused.into());
    }
    Ok(())
}

// The index of these entries' addresses, with this room.
fn places_of<V: Copy, A: Allocator + Copy>(
    alloc: A,
    told: &[(Ip, V)],
    room: usize,
) -> Result<Places<A>, Memory>
    requires { are_told_once told.now ≡ true }
    ensures { IfOk result (λ places. places.value.keys ≡ keys_of told.now) }
{
    let mut places = IndexSet::with_capacity(alloc, room)?;
    for one in told {
        places.insert(one.0)?;
    }
    Ok(Box::new(alloc, places)?)
}
