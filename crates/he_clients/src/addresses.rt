//! The running sessions of each client's address.

use crate::beginning::counted_as;
use std::alloc::Global;
use std::cell::RefCell;
use std::net::IpAddr;

/// The running sessions of each client's address, if they are limited. The addresses of an IPv6 /64 network count as
/// one.
#[derive(Drop)]
pub struct PerAddress {
    most: Option<u32>,
    counts: RefCell<Vec<Count>>,
}

#[derive(Clone, Copy)]
struct Count {
    from: IpAddr,
    sessions: u32,
}

impl PerAddress {
    /// No sessions, of at most `most` for an address; None: without limit.
    pub fn new(alloc: Global, most: Option<u32>) -> PerAddress {
        PerAddress {
            most,
            counts: RefCell::new(Vec::new(alloc)),
        }
    }

    /// Adds a session of this address. Returns false, and adds none, if the address has the most already, or an
    /// allocation fails.
    pub fn add(&self, from: IpAddr) -> bool {
        let Some(most) = self.most else {
            return true;
        };
        match self.counts.try_borrow_mut() {
            Ok(mut counts) => add_to(&mut counts, counted_as(from), most),
            Err(_) => false,
        }
    }

    /// Removes a session of this address.
    pub fn remove(&self, from: IpAddr) {
        if let Ok(mut counts) = self.counts.try_borrow_mut() {
            remove_from(&mut counts, counted_as(from));
        }
    }
}

fn add_to(counts: &mut Vec<Count>, from: IpAddr, most: u32) -> bool {
    match place_of(counts, from) {
        Some(at) => match counts.get_mut(at) {
            Some(count) if count.sessions < most => {
                count.sessions = count.sessions.saturating_add(1);
                true
            }
            _ => false,
        },
        None => counts.push(Count { from, sessions: 1 }).is_ok(),
    }
}

fn remove_from(counts: &mut Vec<Count>, from: IpAddr) {
    let Some(at) = place_of(counts, from) else {
        return;
    };
    let mut left = 0;
    if let Some(count) = counts.get_mut(at) {
        count.sessions = count.sessions.saturating_sub(1);
        left = count.sessions;
    }
    if left == 0 && at < counts.len() {
        counts.remove(at);
    }
}

fn place_of(counts: &[Count], from: IpAddr) -> Option<usize> {
    counts.iter().position(|count| count.from == from)
}
