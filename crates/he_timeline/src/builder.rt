// The builder of a timeline.

ghost use Rattle.std.specs.Prelude.{◌≡◌, true, IfOk, IfErr, IfSome};
ghost use Rattle.he_timeline.specs.Building.{IsRefused, empty_race, unrecorded, add_answer, add_outcome, add_pause, add_rtt, add_used, last_end, with_host, Becomes};
ghost use Rattle.he_timeline.specs.Race.{has_ip, is_in_answer};
ghost use Rattle.he_timeline.specs.Timeline.{are_of, are_distinct, is_duration, IsRace};

use crate::addresses::{AddressSet, are_distinct};
use crate::assigning::put;
use crate::limits::{
    MAX_ADDRESSES, MAX_DURATION, MAX_PAUSE_END, MAX_PAUSES, MAX_TICK, MIN_DURATION,
};
use crate::outcome::Outcome;
use crate::settings::Settings;
use crate::timeline::{Answer, Timeline};
use he_addr::{Family, Ip, Memory};
use he_select::{Host, Policy};
use std::alloc::{Allocator, Global};
use std::marker::Model;
use std::mem::drop;
use thiserror::Error;

/// Why the builder refused a call: the first of these, in this order, that applies.
#[derive(Clone, Copy, Debug, PartialEq, Eq, Error)]
pub enum BuildFault {
    /// The family has an answer already.
    #[error("the family has an answer")]
    Answered,
    /// An answer's tick above 3,600,000, a duration or a round trip time out of 1 to 3,600,000, or a pause that
    /// doesn't end after its start, that ends after 3,600,001 or that begins before the end of the last one.
    #[error("out of range")]
    Range,
    /// More than `MAX_ADDRESSES` addresses, or a pause after `MAX_PAUSES` pauses.
    #[error("too many")]
    TooMany,
    /// An address of the other family; or an outcome, a round trip time or an earlier use of an address that is in no
    /// answer.
    #[error("a strange address")]
    Stranger,
    /// An address twice in an answer; or a second outcome, round trip time or earlier use of one address.
    #[error("a repeated address")]
    Repeated,
    /// An allocation failed.
    #[error("out of memory")]
    Memory,
}

/// Collects the input of a race. A refused call leaves it unchanged.
#[derive(Drop)]
pub struct TimelineBuilder<A: Allocator = Global> {
    alloc: A,
    timeline: Timeline<A>,
    // the sets of the answers' addresses, by family
    six: AddressSet<A>,
    four: AddressSet<A>,
}

impl<A: Allocator> Model for TimelineBuilder<A> {
    ghost use Rattle.std.specs.Prelude.{◌≡◌, IfSome};
    ghost use Rattle.he_timeline.specs.Race.{Race, addresses_of};

    ghost Value = { Race };

    ghost view = { λ b. b.timeline };

    ghost invariant = { λ b. IfSome b.six (λ ips. ips ≡ addresses_of b.timeline.aaaa) × IfSome b.four (λ ips. ips ≡ addresses_of b.timeline.a) };
}

impl<A: Allocator + Copy> TimelineBuilder<A> {
    /// A race with these settings, policy and host, in which nothing happens. It allocates nothing.
    #[inline(always)]
    pub fn new(alloc: A, settings: Settings, policy: Policy<A>, host: Host<A>) -> TimelineBuilder<A>
        ensures value { result ≡ empty_race settings policy host }
        ensures race { IsRace result }
    {
        TimelineBuilder {
            alloc,
            timeline: Timeline::empty(alloc, settings, policy, host),
            six: AddressSet::none(),
            four: AddressSet::none(),
        }
    }

    /// A copy of the timeline's settings, policy, host, answers and history in another allocator, without outcomes
    /// and pauses.
    pub fn without_record<B: Allocator>(
        alloc: A,
        timeline: &Timeline<B>,
    ) -> Result<TimelineBuilder<A>, Memory>
        ensures value { IfOk result (λ new. new ≡ unrecorded timeline.now) }
        ensures race { IfOk result IsRace }
    {
        let timeline = timeline.without_record(alloc)?;
        Ok(TimelineBuilder {
            alloc,
            timeline,
            six: AddressSet::none(),
            four: AddressSet::none(),
        })
    }

    /// Replaces the host; the rest of the input is unchanged. It allocates nothing.
    pub fn set_host(&mut self, host: Host<A>)
        ensures value { self.new ≡ with_host self.old host }
        ensures race { IsRace self.new }
    {
        self.timeline.set_host(host);
    }

    /// Whether the address is in one of the answers, usable or not, so that it may have an outcome and a history.
    pub fn is_listed(&self, ip: Ip) -> bool
        ensures value { result ≡ is_in_answer self.now ip }
        ensures race { IsRace self.now }
    {
        let family = ip.family();
        let listed = self.timeline.answered(family);
        match family {
            Family::V6 => self.six.has(listed, ip),
            Family::V4 => self.four.has(listed, ip),
        }
    }

    /// Adds the family's answer: its tick in milliseconds, and its addresses, of which there may be none.
    pub fn answer(&mut self, family: Family, tick: u64, addresses: &[Ip]) -> Result<(), BuildFault>
        ensures { Becomes result self.old self.new (add_answer family tick addresses.now self.old) }
    {
        if self.timeline.answer(family).is_some() {
            return Err(BuildFault::Answered);
        }
        if tick > MAX_TICK {
            return Err(BuildFault::Range);
        }
        if addresses.len() > MAX_ADDRESSES {
            return Err(BuildFault::TooMany);
        }
        if !are_of(family, addresses) {
            return Err(BuildFault::Stranger);
        }
        let (answer, set) = distinct_answer(self.alloc, tick, addresses)?;
        self.timeline.set_answer(family, answer);
        match family {
            Family::V6 => put(&mut self.six, set),
            Family::V4 => put(&mut self.four, set),
        }
        Ok(())
    }

    /// Adds the address's last known round trip time in milliseconds, 1 to 3,600,000 (RFC 8305 section 4). The faults
    /// are `Range`, `Stranger`, `Repeated` and `Memory`, in this order.
    pub fn rtt(&mut self, ip: Ip, rtt: u64) -> Result<(), BuildFault>
        ensures { Becomes result self.old self.new (add_rtt ip rtt self.old) }
    {
        if !is_duration(rtt) {
            return Err(BuildFault::Range);
        }
        if !self.is_listed(ip) {
            return Err(BuildFault::Stranger);
        }
        self.rtt_of_known(ip, rtt)
    }

    /// Like [`TimelineBuilder::rtt`], for an address that [`TimelineBuilder::is_listed`] has found in an answer.
    pub fn rtt_of_known(&mut self, ip: Ip, rtt: u64) -> Result<(), BuildFault>
        requires { is_in_answer self.old ip ≡ true }
        ensures { Becomes result self.old self.new (add_rtt ip rtt self.old) }
    {
        if !is_duration(rtt) {
            return Err(BuildFault::Range);
        }
        if self.timeline.has_rtt(ip) {
            return Err(BuildFault::Repeated);
        }
        self.timeline
            .push_rtt(ip, rtt)
            .map_err(|_| BuildFault::Memory)
    }

    /// Records that the client used the address before (RFC 8305 section 4). The faults are `Stranger`, `Repeated`
    /// and `Memory`, in this order.
    pub fn used(&mut self, ip: Ip) -> Result<(), BuildFault>
        ensures { Becomes result self.old self.new (add_used ip self.old) }
    {
        if !self.is_listed(ip) {
            return Err(BuildFault::Stranger);
        }
        self.used_of_known(ip)
    }

    /// Like [`TimelineBuilder::used`], for an address that [`TimelineBuilder::is_listed`] has found in an answer.
    pub fn used_of_known(&mut self, ip: Ip) -> Result<(), BuildFault>
        requires { is_in_answer self.old ip ≡ true }
        ensures { Becomes result self.old self.new (add_used ip self.old) }
    {
        if self.timeline.used(ip) {
            return Err(BuildFault::Repeated);
        }
        self.timeline.push_used(ip).map_err(|_| BuildFault::Memory)
    }

    /// Adds the outcome of an attempt to connect to the address.
    pub fn outcome(&mut self, ip: Ip, outcome: Outcome) -> Result<(), BuildFault>
        ensures { Becomes result self.old self.new (add_outcome ip outcome self.old) }
    {
        if !is_duration(outcome.duration()) {
            return Err(BuildFault::Range);
        }
        if !self.is_listed(ip) {
            return Err(BuildFault::Stranger);
        }
        self.outcome_of_known(ip, outcome)
    }

    /// Like [`TimelineBuilder::outcome`], for an address that [`TimelineBuilder::is_listed`] has found in an answer.
    pub fn outcome_of_known(&mut self, ip: Ip, outcome: Outcome) -> Result<(), BuildFault>
        requires { is_in_answer self.old ip ≡ true }
        ensures { Becomes result self.old self.new (add_outcome ip outcome self.old) }
    {
        if !is_duration(outcome.duration()) {
            return Err(BuildFault::Range);
        }
        if self.timeline.has_outcome(ip) {
            return Err(BuildFault::Repeated);
        }
        self.timeline
            .push_outcome(ip, outcome)
            .map_err(|_| BuildFault::Memory)
    }

    /// Adds a pause of the client, which covers the ticks from `from` to `to - 1`.
    pub fn pause(&mut self, from: u64, to: u64) -> Result<(), BuildFault>
        ensures { Becomes result self.old self.new (add_pause from to self.old) }
    {
        let last_end = last_end(self.timeline.pauses());
        if from < last_end || from >= to || to > MAX_PAUSE_END {
            return Err(BuildFault::Range);
        }
        if self.timeline.pauses().len() >= MAX_PAUSES {
            return Err(BuildFault::TooMany);
        }
        self.timeline
            .push_pause(from, to)
            .map_err(|_| BuildFault::Memory)
    }

    /// The input collected so far.
    pub fn timeline(&self) -> &Timeline<A>
        ensures { result.now ≡ self.now }
    {
        &self.timeline
    }

    /// The timeline of the collected input.
    #[inline(always)]
    pub fn finish(self) -> Timeline<A>
        ensures value { result ≡ self }
        ensures race { IsRace result }
    {
        let TimelineBuilder {
            timeline,
            six,
            four,
            ..
        } = self;
        drop(six);
        drop(four);
        timeline
    }
}

fn is_duration(duration: u64) -> bool
    ensures { result ≡ is_duration duration }
{
    MIN_DURATION <= duration && duration <= MAX_DURATION
}

fn last_end(pauses: &[(u64, u64)]) -> u64
    ensures { result ≡ last_end pauses.now }
{
    match pauses.last() {
        Some(pause) => pause.1,
        None => 0,
    }
}

fn are_of(family: Family, ips: &[Ip]) -> bool
    ensures { result ≡ are_of family ips.now }
{
    ips.iter().all(|ip| ip.family() == family)
}

// The answer with the set of its addresses. `Repeated` if an address appears twice, otherwise `Memory` if an
// allocation fails.
fn distinct_answer<A: Allocator + Copy>(
    alloc: A,
    tick: u64,
    addresses: &[Ip],
) -> Result<(Answer<A>, AddressSet<A>), BuildFault>
    ensures answer { IfOk result (λ made. made.0 ≡ record { tick = tick; addresses = addresses.now }) }
    ensures set { IfOk result (λ made. IfSome made.1 (λ ips. ips ≡ addresses.now)) }
    ensures distinct { IfOk result (λ _. are_distinct addresses.now ≡ true) }
    ensures fault { IfErr result (IsRefused addresses.now) }
{
    let set = distinct_set(alloc, addresses)?;
    match Vec::from_slice(alloc, addresses) {
        Ok(listed) => Ok((
            Answer {
                tick,
                addresses: listed,
            },
            set,
        )),
        Err(_) => Err(BuildFault::Memory),
    }
}

// The set of the addresses. `Repeated` if an address appears twice, otherwise `Memory` if an allocation fails.
fn distinct_set<A: Allocator + Copy>(
    alloc: A,
    addresses: &[Ip],
) -> Result<AddressSet<A>, BuildFault>
    ensures ok { IfOk result (λ set. IfSome set (λ ips. ips ≡ addresses.now)) }
    ensures distinct { IfOk result (λ _. are_distinct addresses.now ≡ true) }
    ensures fault { IfErr result (IsRefused addresses.now) }
{
    match AddressSet::new(alloc, addresses) {
        Ok(Some(set)) => Ok(set),
        Ok(None) => Err(BuildFault::Repeated),
        Err(_) if are_distinct(addresses) => Err(BuildFault::Memory),
        Err(_) => Err(BuildFault::Repeated),
    }
}
