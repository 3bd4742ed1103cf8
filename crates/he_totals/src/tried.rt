// The addresses that races tried, each with the place of the race's host.
ghost use Rattle.std.specs.Prelude.{◌≡◌, [], map, IfOk, OnOk};
ghost use Rattle.std.specs.List.{fold};
ghost use Rattle.he_totals.specs.Hosts.{places_of, with_pair};

use he_addr::{Ip, Memory};
use he_plan::Line;
use indexmap::IndexSet;
use std::alloc::Allocator;
use std::hash::{BuildHasherDefault, FoldHasher};
use std::marker::Model;

// Pairs of an address and a place, each once, in the order in which they first came.
#[derive(Drop)]
pub(crate) struct Tried<A: Allocator> {
    pairs: IndexSet<(Ip, usize), BuildHasherDefault<FoldHasher>, A>,
}

impl<A: Allocator> Model for Tried<A> {
    ghost use Rattle.std.specs.Prelude.{ℕ, List};
    ghost use Rattle.he_addr.specs.declared.ip.Ip.{Ip};

    ghost Value = { List (Ip × ℕ) };

    ghost view = { λ t. t.pairs.keys };
}

impl<A: Allocator + Copy> Tried<A> {
    pub(crate) fn none(alloc: A) -> Tried<A>
        ensures { result ≡ [] }
    {
        Tried {
            pairs: IndexSet::new(alloc),
        }
    }

    // Adds the addresses of attempts, with the place of their race's host.
    pub(crate) fn add(&mut self, host: usize, lines: &[Line]) -> Result<(), Memory>
        ensures { OnOk result (self.new ≡ fold with_pair self.old (map (λ line. (line.ip, host)) lines.now)) }
    {
        for line in lines {
            self.add_pair(line.ip, host)?;
        }
        Ok(())
    }

    fn add_pair(&mut self, ip: Ip, host: usize) -> Result<(), Memory>
        ensures { OnOk result (self.new ≡ with_pair self.old (ip, host)) }
    {
        self.pairs.insert((ip, host))?;
        Ok(())
    }

    // The places that an address has.
    pub(crate) fn places_at(&self, alloc: A, ip: Ip) -> Result<Vec<usize, A>, Memory>
        ensures { IfOk result (λ places. places.items ≡ places_of self.now ip) }
    {
        let mut places = Vec::new(alloc);
        for (other, place) in &self.pairs {
            if *other == ip {
                places.push(*place)?;
            }
        }
        Ok(places)
    }
}
