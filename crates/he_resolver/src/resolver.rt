// The queries for a host to name servers.

ghost use Rattle.std.specs.Prelude.{◌≡◌, ◌&&◌, IfOk, ⊤, true, false, is_some, not};
ghost use Rattle.futures.specs.Poll.{OnPending};
ghost use Rattle.futures.specs.Task.{Covers, Keeps};
ghost use Rattle.he_names.specs.Answers.{IsAnswer};
ghost use Rattle.he_resolver.specs.Begins.{AsksFor, wants};
ghost use Rattle.he_resolver.specs.Heard.{AreOwn, IsFaithful, IsOwn, TellsHeard, heard_of, names_of, ttl_of};
ghost use Rattle.he_resolver.specs.Needs.{family_of, is_settled, names_needs, other_of, resolver_needs};

use crate::family_lookup::FamilyLookup;
use futures::task::{Context, Poll};
use he_addr::{Family, Ip};
use he_asking::limits::MOST_STEPS;
use he_asking::{LookupEventKind, Setup};
use he_dns::Answer;
use he_settings::{NamesFault, addresses_of};
use std::alloc::Global;
use std::net::Net;
use std::random::RandomSource;
use std::time::Clock;

// Asks name servers for both families of a host at once, and returns each family's addresses as they come.
//
// The first poll sends the queries, IPv6 first. No such name is an answer for its own family only, as no address is:
// some servers answer so for AAAA although they have an A (RFC 4074 section 4.2). If neither family has an address
// for a name, the next name is queried; so a family without an address is ready at once only if no other name can
// follow.
#[derive(Drop)]
pub(crate) struct Resolver<'h, R> {
    setup: Setup<'h, R>,
    // The place of the name being queried.
    place: usize,
    v6: FamilyLookup,
    v4: FamilyLookup,
}

impl<'h, R: Net + RandomSource + Clock> Resolver<'h, R> {
    // Sends nothing before the first poll. If only one family is wanted, the other isn't queried.
    pub(crate) fn new(setup: Setup<'h, R>, only: Option<Family>) -> Resolver<'h, R>
        ensures asks { AsksFor only result }
        ensures faithful { IsFaithful result }
        ensures plan { result.setup.plan ≡ setup.entry.plan }
    {
        if let Some(family) = only {
            setup.note(other_of(family), LookupEventKind::NotAsked);
        }
        let leaves_out_six = setup.plan.leaves_out_six();
        if wants(only, Family::V6) && leaves_out_six {
            setup.note(Family::V6, LookupEventKind::LeftOut);
        }
        Resolver {
            place: 0,
            v6: FamilyLookup::new(
                setup.alloc,
                Family::V6,
                wants(only, Family::V6) && !leaves_out_six,
            ),
            v4: FamilyLookup::new(setup.alloc, Family::V4, wants(only, Family::V4)),
            setup,
        }
    }

    // Ready once the family's result is final. Both families go on, whichever is polled; if the other's result
    // becomes final, the task is woken to poll for it.
    pub(crate) fn poll_settled(&mut self, family: Family, cx: &mut Context<'_>) -> Poll<()>
        ensures waits { OnPending result (Covers cx.new (resolver_needs self.new family)) }
        ensures other { Covers cx.old (resolver_needs self.old (other_of family))
            → Covers cx.new (resolver_needs self.new (other_of family)) }
        ensures faithful { IsFaithful self.old → IsFaithful self.new }
        ensures names { names_of self.new ≡ names_of self.old }
        ensures kept { Keeps cx.old cx.new }
    {
        let other = other_of(family);
        let was_settled = self.is_settled(other);
        let is_over = self.poll_names(cx);
        self.settle(is_over);
        wake_if(self.is_settled(other), was_settled, cx);
        if self.is_settled(family) {
            Poll::Ready(())
        } else {
            Poll::Pending
        }
    }

    // The addresses of the family, each once and at most 256, or why there are none, once the result is final.
    pub(crate) fn answer(&self, family: Family) -> Result<Vec<Ip>, NamesFault>
        ensures answer { IfOk result (λ ips. IsAnswer family ips.items) }
        ensures told { IsFaithful self.now → TellsHeard (names_of self.now) family result }
        ensures own { IfOk result (λ ips. AreOwn (heard_of self.now family) family ips.items) }
    {
        answer_of(self.setup.alloc, family, self.asking(family).told())
    }

    // The TTL of the answer that has the family's addresses.
    pub(crate) fn ttl(&self, family: Family) -> Option<u32>
        ensures { result ≡ ttl_of (heard_of self.now family) }
    {
        match self.asking(family).told() {
            Some(Ok(answer)) => answer.ttl,
            _ => None,
        }
    }

    fn asking(&self, family: Family) -> &FamilyLookup
        ensures { result.now ≡ family_of self.now family }
    {
        match family {
            Family::V6 => &self.v6,
            Family::V4 => &self.v4,
        }
    }

    fn is_settled(&self, family: Family) -> bool
        ensures { result ≡ is_settled self.now family }
    {
        self.asking(family).is_settled()
    }

    // Polls both families for name after name, as far as possible. Returns whether all queries have ended.
    fn poll_names(&mut self, cx: &mut Context<'_>) -> bool
        ensures waits { result ≡ false → Covers cx.new (names_needs self.new) }
        ensures settled { (family : _) → is_settled self.new family ≡ is_settled self.old family }
        ensures faithful { IsFaithful self.old → IsFaithful self.new }
        ensures names { names_of self.new ≡ names_of self.old }
        ensures kept { Keeps cx.old cx.new }
    {
        for _ in 0..MOST_STEPS {
            let _: Poll<()> = self.v6.poll(&self.setup, self.place, cx);
            let _: Poll<()> = self.v4.poll(&self.setup, self.place, cx);
            if !are_told(&self.v6, &self.v4) {
                return false;
            }
            if !self.goes_on() {
                return true;
            }
            self.go_on();
        }
        let _: Poll<()> = cx.yield_now();
        false
    }

    // Starts both families over with the next name.
    fn go_on(&mut self)
        ensures settled { (family : _) → is_settled self.new family ≡ is_settled self.old family }
        ensures faithful { IsFaithful self.old → IsFaithful self.new }
        ensures names { names_of self.new ≡ names_of self.old }
    {
        self.place = self.place.saturating_add(1);
        self.v6.start_again();
        self.v4.start_again();
    }

    // Whether to query the next name: neither family has an address for this one, and a server answered so for one.
    fn goes_on(&self) -> bool {
        match (self.v6.lack(), self.v4.lack()) {
            (Some(v6), Some(v4)) => !self.is_last() && (v6.is_absence() || v4.is_absence()),
            _ => false,
        }
    }

    fn is_last(&self) -> bool {
        self.setup.plan.is_last(self.place)
    }

    // Makes the results final that no remaining query can change: both, if no query remains.
    fn settle(&mut self, is_over: bool)
        ensures over { is_over ≡ true → (family : _) → is_settled self.new family ≡ true }
        ensures kept { (family : _) → is_settled self.old family ≡ true → is_settled self.new family ≡ true }
        ensures six { self.new.v6 ≡ record self.old.v6 { is_settled = self.new.v6.is_settled } }
        ensures four { self.new.v4 ≡ record self.old.v4 { is_settled = self.new.v4.is_settled } }
        ensures faithful { IsFaithful self.old → IsFaithful self.new }
        ensures names { names_of self.new ≡ names_of self.old }
    {
        let is_last = self.is_last();
        let v6 = is_over || can_settle(&self.v6, &self.v4, is_last);
        let v4 = is_over || can_settle(&self.v4, &self.v6, is_last);
        self.v6.settle(v6);
        self.v4.settle(v4);
    }
}

// Whether the family is wanted.
fn wants(only: Option<Family>, family: Family) -> bool
    ensures { result ≡ wants only family }
{
    match (only, family) {
        (Some(Family::V6), Family::V4) | (Some(Family::V4), Family::V6) => false,
        _ => true,
    }
}

// Has the task polled again, if `is` and not `was`.
fn wake_if(is: bool, was: bool, cx: &mut Context<'_>)
    ensures woken { (is && not was) ≡ true → Covers cx.new (λ _. ⊤) }
    ensures kept { Keeps cx.old cx.new }
{
    if is && !was {
        let _: Poll<()> = cx.yield_now();
    }
}

fn other_of(family: Family) -> Family
    ensures { result ≡ other_of family }
{
    match family {
        Family::V6 => Family::V4,
        Family::V4 => Family::V6,
    }
}

fn are_told(v6: &FamilyLookup, v4: &FamilyLookup) -> bool
    ensures { result ≡ (is_some v6.now.told && is_some v4.now.told) }
{
    v6.is_told() && v4.is_told()
}

// Whether no other answer and no other name can change a family's result: it has addresses; or it has none, and the
// other has some or no other name is left.
fn can_settle(own: &FamilyLookup, other: &FamilyLookup, is_last: bool) -> bool {
    own.has_found() || (own.lack().is_some() && (is_last || other.has_found()))
}

// The result of a family with this answer.
fn answer_of(
    alloc: Global,
    family: Family,
    heard: &Option<Result<Answer, NamesFault>>,
) -> Result<Vec<Ip>, NamesFault>
    ensures answer { IfOk result (λ ips. IsAnswer family ips.items) }
    ensures own { IsOwn heard.now family result }
{
    match heard {
        Some(Ok(answer)) => Ok(addresses_of(alloc, family, &answer.addresses)?),
        Some(Err(fault)) => Err(*fault),
        None => Err(NamesFault::NoAnswer),
    }
}
