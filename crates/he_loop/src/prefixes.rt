//! The NAT64 prefixes that a proxy has discovered.

use he_addr::Ip;
use he_nat64::Prefix64;
use std::alloc::Global;
use std::cell::Cell;
use std::mem::drop;

/// The prefixes of its network's NAT64 that a proxy discovered last, for all its races.
#[derive(Drop)]
pub struct Prefixes {
    alloc: Global,
    shared: Cell<Vec<Prefix64>>,
}

impl Prefixes {
    /// No prefix is known.
    pub fn new(alloc: Global) -> Prefixes {
        Prefixes {
            alloc,
            shared: Cell::new(Vec::new(alloc)),
        }
    }

    /// Takes the prefixes that were discovered in place of those so far, unless there are none.
    pub fn hear(&self, found: Vec<Prefix64>) {
        if found.is_empty() {
            drop(found);
        } else {
            self.shared.set(found);
        }
    }

    /// The IPv4 host that the address embeds by the first of the prefixes with which it begins.
    pub fn host_of(&self, ip: Ip) -> Option<u32> {
        let prefixes = self.shared.replace(Vec::new(self.alloc));
        let host = host_in(&prefixes, ip);
        self.shared.set(prefixes);
        host
    }
}

fn host_in(prefixes: &[Prefix64], ip: Ip) -> Option<u32> {
    let Ip::V6(number) = ip else {
        return None;
    };
    prefixes.iter().find_map(|prefix| prefix.extract(number))
}
