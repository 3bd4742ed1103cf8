// The hosts and ports that races were for.
ghost use Rattle.std.specs.Prelude.{ℕ, ◌≡◌, ◌++◌, [], ◌∷◌, List, map, string_bytes, IfOk, OnOk};
ghost use Rattle.he_record.specs.Left.{target_shown};
ghost use Rattle.he_totals.specs.Hosts.{AreNamed, HasTried, at_host, at_hosts, host_said, hosts_in, target_text, text_at, tried_lines};

use crate::kept::{Kept, Place};
use crate::tried::Tried;
use he_addr::{Ip, Memory, write_number};
use he_plan::Line;
use he_record::Record;
use indexmap::IndexSet;
use std::alloc::Allocator;
use std::hash::{BuildHasherDefault, FoldHasher};
use std::marker::Model;
use std::str::from_utf8;

// The name of the races whose records have no host: no host and port are spelled like it.
const NO_HOST: &[u8] = b"no host";

/// The hosts and ports, each once, in the order in which they first came; the place of each race among them; and the
/// addresses that races tried, each with the place of the race's host, each such pair once.
#[derive(Drop)]
pub struct Hosts<A: Allocator> {
    names: IndexSet<Vec<u8, A>, BuildHasherDefault<FoldHasher>, A>,
    places: Vec<usize, A>,
    tried: Tried<A>,
}

impl<A: Allocator> Model for Hosts<A> {
    ghost use Rattle.std.specs.Prelude.{map};
    ghost use Rattle.he_totals.specs.Hosts.{Named};

    ghost Value = { Named };

    ghost view = { λ h. record {
      names = map (λ name. name.items) h.names.keys;
      places = h.places.items;
      pairs = h.tried;
    } };
}

impl<A: Allocator + Copy> Hosts<A> {
    pub(crate) fn none(alloc: A) -> Hosts<A>
        ensures named { AreNamed [] result }
        ensures paired { result.pairs ≡ [] }
    {
        Hosts {
            names: IndexSet::new(alloc),
            places: Vec::new(alloc),
            tried: Tried::none(alloc),
        }
    }

    // Adds a race with this record and these attempts.
    pub(crate) fn add_host<B: Allocator>(
        &mut self,
        told: &Record<'_, B>,
        lines: &[Line],
    ) -> Result<(), Memory>
        ensures named { (texts : List (List ℕ)) → AreNamed texts self.old
            → OnOk result (AreNamed (texts ++ host_said told.now ∷ []) self.new) }
        ensures paired { OnOk result (HasTried told.now lines.now self.old self.new) }
    {
        let name = target_text(*self.places.allocator(), told.to())?;
        let (place, _is_new) = self.names.insert_full(name)?;
        self.places.push(place)?;
        self.tried.add(place, tried_lines(told, lines))
    }

    /// The names of the hosts whose races tried the address.
    ///
    /// # Errors
    ///
    /// `Memory` if an allocation was refused.
    pub fn names_at(&self, alloc: A, ip: Ip) -> Result<Vec<&[u8], A>, Memory>
        ensures { IfOk result (λ names. map (λ name. name.now) names.items ≡ hosts_in self.now ip) }
    {
        let places = self.tried.places_at(alloc, ip)?;
        self.names_of(alloc, places.as_slice())
    }

    fn names_of(&self, alloc: A, places: &[usize]) -> Result<Vec<&[u8], A>, Memory>
        ensures { IfOk result (λ names. map (λ name. name.now) names.items ≡ map (text_at self.now.names) places.now) }
    {
        let mut names = Vec::new(alloc);
        for place in places {
            names.push(self.name_at(*place))?;
        }
        Ok(names)
    }

    fn name_at(&self, place: usize) -> &[u8]
        ensures { result.now ≡ text_at self.now.names place }
    {
        match self.names.get_index(place) {
            Some(name) => name.as_slice(),
            None => &[],
        }
    }

    // The names, by place.
    pub(crate) fn names(&self, alloc: A) -> Result<Vec<String<A>, A>, Memory>
        ensures { IfOk result (λ names. map string_bytes names.items ≡ self.now.names) }
    {
        let mut names = Vec::new(alloc);
        for name in &self.names {
            names.push(text_of(alloc, name.as_slice())?)?;
        }
        Ok(names)
    }

    // The records of races, each with the place of its host in place of that of its file.
    pub(crate) fn places_of(&self, alloc: A, kept: &[Kept]) -> Result<Vec<Kept, A>, Memory>
        ensures { IfOk result (λ placed. placed.items ≡ at_hosts self.now.places kept.now) }
    {
        self.places
            .iter()
            .zip(kept.iter())
            .map(|(host, race)| at_host(*host, *race))
            .collect(alloc)
    }
}

// The attempts of a race whose record has a host.
fn tried_lines<'l, B: Allocator>(told: &Record<'_, B>, lines: &'l [Line]) -> &'l [Line]
    ensures { result.now ≡ tried_lines told.now lines.now }
{
    match told.to() {
        Some(_) => lines,
        None => &[],
    }
}

// A name as text. None is refused: the bytes of record lines are ASCII.
fn text_of<A: Allocator>(alloc: A, name: &[u8]) -> Result<String<A>, Memory>
    ensures { IfOk result (λ text. string_bytes text ≡ name.now) }
{
    match from_utf8(name) {
        Ok(name) => Ok(String::from_str(alloc, name)?),
        Err(_) => Err(Memory),
    }
}

#[tactic(auto, unfolding(crate::specs::Hosts::at_host))]
fn at_host(host: usize, race: Kept) -> Kept
    ensures { result ≡ at_host host race }
{
    Kept {
        place: Place {
            file: host,
            ..race.place
        },
        ..race
    }
}

// The host and port, as in a record line.
fn target_text<A: Allocator + Copy>(
    alloc: A,
    target: Option<(&[u8], u16)>,
) -> Result<Vec<u8, A>, Memory>
    ensures { IfOk result (λ text. text.items ≡ target_text (target_shown target.entry)) }
{
    let mut text = Vec::new(alloc);
    match target {
        Some((host, port)) => {
            text.extend_from_slice(host)?;
            text.push(b' ')?;
            write_number(u64::from(port), &mut text)?;
        }
        None => text.extend_from_slice(NO_HOST)?,
    }
    Ok(text)
}
