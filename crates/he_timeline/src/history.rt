// The client's knowledge of addresses from earlier connections (RFC 8305 section 4).

ghost use Rattle.std.specs.Prelude.{◌≡◌, ◌++◌, [], ◌∷◌, true, false, IfOk, OnOk, OnErr};
ghost use Rattle.std.specs.Cmp.Lexicographic.{pointwise};
ghost use Rattle.he_addr.specs.Ip.{same_ip};
ghost use Rattle.he_timeline.specs.Building.{empty_history};
ghost use Rattle.he_timeline.specs.Equality.{same_history, same_rtt};
ghost use Rattle.he_timeline.specs.Race.{has_ip, is_told, known_of, rtt_in};
ghost use Rattle.he_timeline.specs.Timeline.{are_distinct, are_told_once};

use crate::addresses::Hashed;
use crate::assigning::put;
use crate::by_address::ByAddress;
use he_addr::{Ip, Memory};
use he_select::Known;
use indexmap::IndexSet;
use std::alloc::Allocator;
use std::marker::Model;

// Addresses in the order given.
type Addresses<A> = Box<Hashed<A>, A>;

// The last round trip times in milliseconds, and the addresses used before. An empty history allocates nothing.
#[derive(Drop)]
pub(crate) struct History<A: Allocator> {
    rtts: ByAddress<u64, A>,
    used: Option<Addresses<A>>,
}

impl<A: Allocator> Model for History<A> {
    ghost use Rattle.std.specs.Prelude.{◌≡◌, [], true};
    ghost use Rattle.std.specs.Option.{option_map_or};
    ghost use Rattle.he_timeline.specs.Race.{History};

    ghost Value = { History };

    ghost view = { λ h. record { rtts = h.rtts; used = option_map_or (λ used. used.value.keys) h.used [] } };
}

impl<A: Allocator + Copy> History<A> {
    #[inline(always)]
    pub(crate) fn none(alloc: A) -> History<A>
        ensures { result ≡ empty_history }
    {
        History {
            rtts: ByAddress::none(alloc),
            used: None,
        }
    }

    pub(crate) fn push_rtt(&mut self, ip: Ip, rtt: u64, most: usize) -> Result<(), Memory>
        requires { are_told_once (self.old.rtts ++ (ip, rtt) ∷ []) ≡ true }
        ensures ok { OnOk result (self.new ≡ record self.old { rtts = self.old.rtts ++ (ip, rtt) ∷ [] }) }
        ensures err { OnErr result (self.new ≡ self.old) }
    {
        self.rtts.make_room(most)?;
        self.rtts.push(ip, rtt)
    }

    pub(crate) fn push_used(&mut self, alloc: A, ip: Ip) -> Result<(), Memory>
        requires { has_ip ip self.old.used ≡ false }
        ensures ok { OnOk result (self.new ≡ record self.old { used = self.old.used ++ ip ∷ [] }) }
        ensures err { OnErr result (self.new ≡ self.old) }
    {
        match &mut self.used {
            Some(used) => {
                used.insert(ip)?;
            }
            None => {
                let first = set_of(alloc, &[ip])?;
                put(&mut self.used, Some(first));
            }
        }
        Ok(())
    }
}

impl<A: Allocator> History<A> {
    pub(crate) fn has_rtt(&self, ip: Ip) -> bool
        ensures { result ≡ is_told ip self.now.rtts }
    {
        self.rtts.has(ip)
    }

    pub(crate) fn rtt(&self, ip: Ip) -> Option<u64>
        ensures { result ≡ rtt_in self.now.rtts ip }
    {
        self.rtts.of(ip)
    }

    pub(crate) fn is_used(&self, ip: Ip) -> bool
        ensures { result ≡ has_ip ip self.now.used }
    {
        match &self.used {
            Some(used) => used.contains(&ip),
            None => false,
        }
    }

    // The client's knowledge of the address.
    pub(crate) fn known(&self, ip: Ip) -> Known
        ensures { result ≡ known_of self.now ip }
    {
        Known {
            ip,
            rtt: self.rtt(ip),
            used: self.is_used(ip),
        }
    }

    pub(crate) fn rtts(&self) -> &[(Ip, u64)]
        ensures { result.now ≡ self.now.rtts }
    {
        self.rtts.as_slice()
    }

    pub(crate) fn used_addresses(&self) -> &[Ip]
        ensures { result.now ≡ self.now.used }
    {
        match &self.used {
            Some(used) => used.as_slice(),
            None => &[],
        }
    }

    pub(crate) fn copy<B: Allocator + Copy>(&self, alloc: B) -> Result<History<B>, Memory>
        requires rtts { are_told_once self.now.rtts ≡ true }
        requires used { are_distinct self.now.used ≡ true }
        ensures { IfOk result (λ copy. copy ≡ self.now) }
    {
        let rtts = self.rtts.copy(alloc)?;
        let used = match &self.used {
            Some(used) => Some(set_of(alloc, used.as_slice())?),
            None => None,
        };
        Ok(History { rtts, used })
    }

    pub(crate) fn is_same(&self, other: &History<A>) -> bool
        ensures { result ≡ same_history self.now other.now }
    {
        same_rtts(self.rtts.as_slice(), other.rtts.as_slice())
            && same_ips(self.used_addresses(), other.used_addresses())
    }
}

// The set of these addresses, in their order.
fn set_of<A: Allocator + Copy>(alloc: A, ips: &[Ip]) -> Result<Addresses<A>, Memory>
    requires { are_distinct ips.now ≡ true }
    ensures { IfOk result (λ set. set.value.keys ≡ ips.now) }
{
    let mut set = IndexSet::with_capacity(alloc, ips.len())?;
    for ip in ips {
        set.insert(*ip)?;
    }
    Ok(Box::new(alloc, set)?)
}

fn same_rtts(x: &[(Ip, u64)], y: &[(Ip, u64)]) -> bool
    ensures { result ≡ pointwise same_rtt x.now y.now }
{
    x == y
}

fn same_ips(x: &[Ip], y: &[Ip]) -> bool
    ensures { result ≡ pointwise same_ip x.now y.now }
{
    x == y
}
