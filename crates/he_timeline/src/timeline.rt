// The whole input of a race: settings, policy, host, answers, history, outcomes and pauses.

ghost use Rattle.std.specs.Prelude.{false, All, ◌≡◌, ◌+◌, ◌≤◌, drop, length, option_map, max, IfOk, IfSome, IsTrue, OnOk, OnErr};
ghost use Rattle.std.specs.Cmp.Lexicographic.{pointwise};
ghost use Rattle.std.specs.List.{list_all};
ghost use Rattle.he_addr.specs.Ip.{same_ip, InRange};
ghost use Rattle.he_timeline.specs.declared.limits.TheConstants.{MAX_PAUSES};
ghost use Rattle.he_timeline.specs.Race.{Race, Reply, reply_of, addresses_of, has_ip, has_outcome, is_told, known_of, rtt_in, outcome_of, outcome_in};
ghost use Rattle.he_timeline.specs.Equality.{same_pause, same_reply, same_race, same_settings, same_told};
ghost use Rattle.he_select.specs.Equality.{equal_hosts, equal_tables};
ghost use Rattle.he_timeline.specs.Timeline.{IsRace, are_pauses, are_told_once, duration_of, is_outcome};
ghost use Rattle.he_timeline.specs.Seen.{IsSeen, seen, seen_past};
ghost use Rattle.he_timeline.specs.Changes.{changed};
ghost use Rattle.he_timeline.specs.Ahead.{are_ahead};
ghost use Rattle.he_timeline.specs.Building.{empty_race, unrecorded, with_answer, with_host, with_outcome, with_pause, with_rtt, with_used};

use crate::assigning::put;
use crate::by_address::ByAddress;
use crate::changes::Changes;
use crate::history::History;
use crate::limits::{MAX_DURATION, MAX_PAUSE_END, MIN_DURATION};
use crate::outcome::Outcome;
use crate::settings::Settings;
use he_addr::{Family, Ip, Memory};
use he_select::{Host, Known, Policy};
use std::alloc::{Allocator, Global};
use std::marker::Model;

// One family's answer.
#[derive(Drop)]
pub(crate) struct Answer<A: Allocator> {
    pub(crate) tick: u64,
    pub(crate) addresses: Vec<Ip, A>,
}

impl<A: Allocator> Model for Answer<A> {
    ghost use Rattle.he_timeline.specs.Race.{Reply};

    ghost Value = { Reply };

    ghost view = { λ answer. record { tick = answer.tick; addresses = answer.addresses.items } };
}

/// The whole input of a race: its settings, the policy table and the host that determine the order of addresses, the
/// answers of both families, the client's knowledge of addresses from earlier connections, the outcome of each
/// address, and the pauses of the client. A `TimelineBuilder` makes it.
#[derive(Drop)]
pub struct Timeline<A: Allocator = Global> {
    settings: Settings,
    policy: Policy<A>,
    host: Host<A>,
    aaaa: Option<Answer<A>>,
    a: Option<Answer<A>>,
    history: History<A>,
    outcomes: ByAddress<Outcome, A>,
    pauses: Vec<(u64, u64), A>,
}

impl<A: Allocator> Model for Timeline<A> {
    ghost use Rattle.he_timeline.specs.Race.{Race};
    ghost use Rattle.he_timeline.specs.Timeline.{IsRace};

    ghost Value = { Race };

    ghost view = { λ t. record { settings = t.settings; policy = t.policy; host = t.host; aaaa = t.aaaa; a = t.a; history = t.history; outcomes = t.outcomes; pauses = t.pauses.items } };

    ghost invariant = { λ t. IsRace (record { settings = t.settings; policy = t.policy; host = t.host; aaaa = t.aaaa; a = t.a; history = t.history; outcomes = t.outcomes; pauses = t.pauses.items }) };
}

impl<A: Allocator + Copy> Timeline<A> {
    #[inline(always)]
    pub(crate) fn empty(
        alloc: A,
        settings: Settings,
        policy: Policy<A>,
        host: Host<A>,
    ) -> Timeline<A>
        ensures { result ≡ empty_race settings policy host }
    {
        Timeline {
            settings,
            policy,
            host,
            aaaa: None,
            a: None,
            history: History::none(alloc),
            outcomes: ByAddress::none(alloc),
            pauses: Vec::new(alloc),
        }
    }

    pub(crate) fn set_answer(&mut self, family: Family, answer: Answer<A>)
        requires { IsRace (with_answer self.old family answer) }
        ensures { self.new ≡ with_answer self.old family answer }
    {
        match family {
            Family::V6 => put(&mut self.aaaa, Some(answer)),
            Family::V4 => put(&mut self.a, Some(answer)),
        }
    }

    pub(crate) fn set_host(&mut self, host: Host<A>)
        ensures value { self.new ≡ with_host self.old host }
        ensures race { IsRace self.new }
    {
        put(&mut self.host, host);
    }

    pub(crate) fn push_rtt(&mut self, ip: Ip, rtt: u64) -> Result<(), Memory>
        requires { IsRace (with_rtt self.old ip rtt) }
        ensures ok { OnOk result (self.new ≡ with_rtt self.old ip rtt) }
        ensures err { OnErr result (self.new ≡ self.old) }
    {
        let most = self.address_count();
        self.history.push_rtt(ip, rtt, most)
    }

    pub(crate) fn push_used(&mut self, ip: Ip) -> Result<(), Memory>
        requires new { has_ip ip self.old.history.used ≡ false }
        requires race { IsRace (with_used self.old ip) }
        ensures ok { OnOk result (self.new ≡ with_used self.old ip) }
        ensures err { OnErr result (self.new ≡ self.old) }
    {
        self.history.push_used(*self.pauses.allocator(), ip)
    }

    pub(crate) fn push_outcome(&mut self, ip: Ip, outcome: Outcome) -> Result<(), Memory>
        requires { IsRace (with_outcome self.old ip outcome) }
        ensures ok { OnOk result (self.new ≡ with_outcome self.old ip outcome) }
        ensures err { OnErr result (self.new ≡ self.old) }
    {
        let most = self.address_count();
        self.outcomes.make_room(most)?;
        self.outcomes.push(ip, outcome)
    }

    pub(crate) fn push_pause(&mut self, from: u64, to: u64) -> Result<(), Memory>
        requires { IsRace (with_pause self.old from to) }
        ensures ok { OnOk result (self.new ≡ with_pause self.old from to) }
        ensures err { OnErr result (self.new ≡ self.old) }
    {
        self.pauses.push((from, to))?;
        Ok(())
    }
}

impl<A: Allocator> Timeline<A> {
    /// The number of addresses in the answers: no race has more attempts or outcomes.
    pub fn address_count(&self) -> usize
        ensures { result ≡ length (addresses_of self.now.aaaa) + length (addresses_of self.now.a) }
    {
        answered_count(&self.aaaa) + answered_count(&self.a)
    }

    /// The addresses of the family's answer in its order; none if the family has no answer.
    pub fn answered(&self, family: Family) -> &[Ip]
        ensures value { result.now ≡ addresses_of (reply_of self.now family) }
        ensures race { IsRace self.now }
    {
        match self.answer(family) {
            Some(answer) => answer.1,
            None => &[],
        }
    }

    pub(crate) fn has_outcome(&self, ip: Ip) -> bool
        ensures value { result ≡ has_outcome ip self.now.outcomes }
        ensures race { IsRace self.now }
    {
        self.outcomes.has(ip)
    }

    /// A copy of the timeline in another allocator.
    pub fn copy<B: Allocator + Copy>(&self, alloc: B) -> Result<Timeline<B>, Memory>
        ensures { IfOk result (λ copy. copy ≡ self.now) }
    {
        let outcomes = self.outcomes.copy(alloc)?;
        let pauses = Vec::from_slice(alloc, &self.pauses)?;
        self.copy_with(alloc, outcomes, pauses)
    }

    // A copy of the timeline in another allocator, without its outcomes and pauses.
    pub(crate) fn without_record<B: Allocator + Copy>(
        &self,
        alloc: B,
    ) -> Result<Timeline<B>, Memory>
        ensures { IfOk result (λ copy. copy ≡ unrecorded self.now) }
    {
        self.copy_with(alloc, ByAddress::none(alloc), Vec::new(alloc))
    }

    // A copy of the timeline in another allocator, with these outcomes and pauses.
    fn copy_with<B: Allocator + Copy>(
        &self,
        alloc: B,
        outcomes: ByAddress<Outcome, B>,
        pauses: Vec<(u64, u64), B>,
    ) -> Result<Timeline<B>, Memory>
        requires outcomes { IsTrue (list_all (is_outcome self.now) outcomes) }
        requires once { IsTrue (are_told_once outcomes) }
        requires pauses { IsTrue (are_pauses 0 pauses.items) }
        requires few { length pauses.items ≤ MAX_PAUSES }
        ensures { IfOk result (λ copy. copy ≡ record self.now { outcomes = outcomes; pauses = pauses.items }) }
    {
        let policy = self.policy.copy(alloc)?;
        let host = self.host.copy(alloc)?;
        let aaaa = copy_answer(alloc, &self.aaaa)?;
        let a = copy_answer(alloc, &self.a)?;
        let history = self.history.copy(alloc)?;
        Ok(Timeline {
            settings: self.settings,
            policy,
            host,
            aaaa,
            a,
            history,
            outcomes,
            pauses,
        })
    }

    /// The race with the changes to its settings applied.
    #[inline(always)]
    pub fn with_changes(self, changes: Changes) -> Timeline<A>
        ensures { result ≡ changed changes self }
    {
        let settings = changes.apply(self.settings);
        Timeline { settings, ..self }
    }

    fn is_same(&self, other: &Timeline<A>) -> bool
        ensures { result ≡ same_race self.now other.now }
    {
        same_settings(self.settings, other.settings)
            && same_policy(&self.policy, &other.policy)
            && same_host(&self.host, &other.host)
            && same_answer(&self.aaaa, &other.aaaa)
            && same_answer(&self.a, &other.a)
            && self.history.is_same(&other.history)
            && same_outcomes(self.outcomes.as_slice(), other.outcomes.as_slice())
            && same_pauses(&self.pauses, &other.pauses)
    }

    /// The race's settings.
    pub fn settings(&self) -> Settings
        ensures value { result ≡ self.now.settings }
        ensures race { IsRace self.now }
    {
        self.settings
    }

    /// The policy table that determines the order of addresses.
    pub fn policy(&self) -> &Policy<A>
        ensures value { result.now ≡ self.now.policy }
        ensures race { IsRace self.now }
    {
        &self.policy
    }

    /// The host that connects: its sources and routes.
    pub fn host(&self) -> &Host<A>
        ensures value { result.now ≡ self.now.host }
        ensures race { IsRace self.now }
    {
        &self.host
    }

    /// The family's answer: its tick, 0 to 3,600,000, and its addresses in its order. None if the family is never
    /// answered.
    pub fn answer(&self, family: Family) -> Option<(u64, &[Ip])>
        ensures value { option_map (λ p. record { tick = p.0; addresses = p.1.now }) result
            ≡ reply_of self.now family }
        ensures race { IsRace self.now }
    {
        let answer = match family {
            Family::V6 => &self.aaaa,
            Family::V4 => &self.a,
        };
        match answer {
            Some(answer) => Some((answer.tick, answer.addresses.as_slice())),
            None => None,
        }
    }

    /// The known round trip times of addresses in milliseconds, 1 to 3,600,000, in the order given (RFC 8305 section
    /// 4).
    pub fn rtts(&self) -> &[(Ip, u64)]
        ensures value { result.now ≡ self.now.history.rtts }
        ensures race { IsRace self.now }
    {
        self.history.rtts()
    }

    /// The last known round trip time of the address in milliseconds, if one is known.
    pub fn rtt(&self, ip: Ip) -> Option<u64>
        ensures value { result ≡ rtt_in self.now.history.rtts ip }
        ensures race { IsRace self.now }
    {
        self.history.rtt(ip)
    }

    pub(crate) fn has_rtt(&self, ip: Ip) -> bool
        ensures value { result ≡ is_told ip self.now.history.rtts }
        ensures race { IsRace self.now }
    {
        self.history.has_rtt(ip)
    }

    /// The addresses that the client used before, in the order given (RFC 8305 section 4).
    pub fn used_addresses(&self) -> &[Ip]
        ensures value { result.now ≡ self.now.history.used }
        ensures race { IsRace self.now }
    {
        self.history.used_addresses()
    }

    /// Whether the client used the address before.
    pub fn used(&self, ip: Ip) -> bool
        ensures value { result ≡ has_ip ip self.now.history.used }
        ensures race { IsRace self.now }
    {
        self.history.is_used(ip)
    }

    /// The client's knowledge of the address from earlier connections (RFC 8305 section 4).
    pub fn known(&self, ip: Ip) -> Known
        ensures { result ≡ known_of self.now.history ip }
    {
        self.history.known(ip)
    }

    /// The addresses with an outcome, in the order given; every other address is silent.
    pub fn outcomes(&self) -> &[(Ip, Outcome)]
        ensures value { result.now ≡ self.now.outcomes }
        ensures race { IsRace self.now }
    {
        self.outcomes.as_slice()
    }

    /// The outcome of an attempt to connect to the address; None if the address is silent.
    pub fn outcome(&self, ip: Ip) -> Option<Outcome>
        ensures value { result ≡ outcome_of self.now ip }
        ensures range { IfSome result (λ outcome. (MIN_DURATION ≤ duration_of outcome)
            × (duration_of outcome ≤ MAX_DURATION)) }
    {
        self.outcomes.of(ip)
    }

    /// The least tick at or after `tick` that no pause covers.
    pub fn seen(&self, tick: u64) -> u64
        ensures value { result ≡ seen self.now tick }
        ensures least { IsSeen self.now tick result }
        ensures range { result ≤ max tick MAX_PAUSE_END }
    {
        seen_past(&self.pauses, tick)
    }

    /// The pauses in order. A pause from `f` to `t` covers the ticks from `f` to `t - 1`.
    pub fn pauses(&self) -> &[(u64, u64)]
        ensures value { result.now ≡ self.now.pauses }
        ensures race { IsRace self.now }
    {
        self.pauses.as_slice()
    }
}

fn answered_count<A: Allocator>(answer: &Option<Answer<A>>) -> usize
    ensures { result ≡ length (addresses_of answer.now) }
{
    match answer {
        Some(answer) => answer.addresses.as_slice().len(),
        None => 0,
    }
}

fn seen_past(pauses: &[(u64, u64)], tick: u64) -> u64
    requires { IsTrue (are_pauses 0 pauses.now) }
    ensures { result ≡ seen_past pauses.now tick }
{
    seen_ahead(&pauses[ended_by(pauses, tick)..], tick)
}

// The number of pauses that end at or before the tick; these don't cover it.
fn ended_by(pauses: &[(u64, u64)], tick: u64) -> usize
    requires { IsTrue (are_pauses 0 pauses.now) }
    ensures few { result ≤ length pauses.now }
    ensures same { seen_past (drop result pauses.now) tick ≡ seen_past pauses.now tick }
    ensures ahead { IsTrue (are_ahead tick (drop result pauses.now)) }
{
    pauses.partition_point(|pause| pause.1 <= tick)
}

// The least tick at or after `tick` that none of these pauses covers.
fn seen_ahead(pauses: &[(u64, u64)], tick: u64) -> u64
    requires { IsTrue (are_ahead tick pauses.now) }
    ensures { result ≡ seen_past pauses.now tick }
{
    let mut seen = tick;
    for pause in pauses {
        if seen < pause.0 {
            return seen;
        }
        seen = pause.1;
    }
    seen
}

impl<A: Allocator> PartialEq for Timeline<A> {
    ghost use Rattle.std.specs.Prelude.{◌≡◌, ◌↔◌, IsTrue};
    ghost use Rattle.he_timeline.specs.Equality.{same_race};
    ghost use Rattle.he_timeline.specs.EqualityLaws.{same_race-per};

    ghost eq = { same_race };

    ghost laws = { same_race-per };

    /// Whether settings, policy, host, answers, history, outcomes and pauses are equal, each list in its order.
    fn eq(&self, other: &Timeline<A>) -> bool
        ensures value { result ≡ same_race self.now other.now }
        ensures lists { IsTrue result ↔ (self.now ≡ other.now) }
    {
        self.is_same(other)
    }
}

impl<A: Allocator> Eq for Timeline<A> {
    ghost use Rattle.he_timeline.specs.EqualityLaws.{same_race-equivalence};

    ghost laws = { same_race-equivalence };
}

fn same_settings(x: Settings, y: Settings) -> bool
    ensures { result ≡ same_settings x y }
{
    x == y
}

fn same_policy<A: Allocator>(x: &Policy<A>, y: &Policy<A>) -> bool
    ensures { result ≡ equal_tables x.now y.now }
{
    x == y
}

fn same_host<A: Allocator>(x: &Host<A>, y: &Host<A>) -> bool
    ensures { result ≡ equal_hosts x.now y.now }
{
    x == y
}

fn same_answer<A: Allocator>(x: &Option<Answer<A>>, y: &Option<Answer<A>>) -> bool
    ensures { result ≡ same_reply x.now y.now }
{
    match (x, y) {
        (Some(x), Some(y)) => x.tick == y.tick
            && same_ips(x.addresses.as_slice(), y.addresses.as_slice()),
        (None, None) => true,
        _ => false,
    }
}

fn same_ips(x: &[Ip], y: &[Ip]) -> bool
    ensures { result ≡ pointwise same_ip x.now y.now }
{
    x == y
}

fn same_outcomes(x: &[(Ip, Outcome)], y: &[(Ip, Outcome)]) -> bool
    ensures { result ≡ pointwise same_told x.now y.now }
{
    x == y
}

fn same_pauses(x: &[(u64, u64)], y: &[(u64, u64)]) -> bool
    ensures { result ≡ pointwise same_pause x.now y.now }
{
    x == y
}

fn copy_answer<A: Allocator, B: Allocator + Copy>(
    alloc: B,
    answer: &Option<Answer<A>>,
) -> Result<Option<Answer<B>>, Memory>
    ensures { IfOk result (λ copy. copy ≡ answer.now) }
{
    match answer {
        Some(answer) => {
            let addresses = Vec::from_slice(alloc, &answer.addresses)?;
            let tick = answer.tick;
            Ok(Some(Answer { tick, addresses }))
        }
        None => Ok(None),
    }
}

/// The addresses of both answers fit their families' widths.
pub fn are_addresses_in_range<A: Allocator>(timeline: &Timeline<A>)
    ensures six { All InRange (addresses_of timeline.now.aaaa) }
    ensures four { All InRange (addresses_of timeline.now.a) }
{
    see_range(&timeline.aaaa);
    see_range(&timeline.a);
}

fn see_range<A: Allocator>(answer: &Option<Answer<A>>)
    ensures { All InRange (addresses_of answer.now) }
{
    if let Some(answer) = answer {
        see_ranges(answer.addresses.as_slice());
    }
}

fn see_ranges(ips: &[Ip])
    ensures { All InRange ips.now }
{
    for ip in ips {
        let _ = ip.is_usable();
    }
}
