// The addresses that a race under way has yet to try.

ghost use Rattle.std.specs.Prelude.{◌≡◌, ◌||◌, ◌<◌, [], true, false, not, drop, filter, length, slice_get, Some, OnOk, OnErr};
ghost use Rattle.he_plan.specs.Attempts.{MayStart, is_untried};
ghost use Rattle.he_plan.specs.Planning.{IsLater, is_received};
ghost use Rattle.he_timeline.specs.Race.{has_ip, reply_of};
ghost use Rattle.he_plan.specs.RaceState.{IsAtNext, IsQueue};

use crate::attempts::{Attempt, is_tried};
use crate::listing::interlaced_list;
use crate::tried::{FEW, Tried, has, tried_by};
use he_addr::{Family, Ip, Memory};
use he_timeline::{Timeline, put};
use std::alloc::Allocator;
use std::marker::Model;

// Which answers were received by the last start; the untried addresses of their interlaced list, from `next` on; and
// the usable addresses of both answers in order, once a list has needed them.
#[derive(Drop)]
pub(crate) struct Untried<A: Allocator> {
    pub(crate) v6: bool,
    pub(crate) v4: bool,
    ips: Vec<Ip, A>,
    next: usize,
    sorted: Vec<Ip, A>,
}

impl<A: Allocator> Model for Untried<A> {
    ghost use Rattle.std.specs.Prelude.{drop};
    ghost use Rattle.he_plan.specs.RaceState.{UntriedValues};

    ghost Value = { UntriedValues };

    ghost view = { λ q. record { v6 = q.v6; v4 = q.v4; ips = drop q.next q.ips.items; sorted = q.sorted.items } };
}

impl<A: Allocator + Copy> Untried<A> {
    // Nothing is received. `sorted` has the addresses of both answers in order; it is empty if they are yet to be
    // sorted.
    pub(crate) fn new(alloc: A, sorted: Vec<Ip, A>) -> Untried<A>
        ensures { result ≡ record { v6 = false; v4 = false; ips = []; sorted = sorted.items } }
    {
        Untried {
            v6: false,
            v4: false,
            ips: Vec::new(alloc),
            next: 0,
            sorted,
        }
    }

    // Moves the queue to a start at the tick; its front is then the address to try. An answer once received stays
    // received, so a race makes the list at most twice and sorts its addresses once.
    pub(crate) fn advance<B: Allocator>(
        &mut self,
        alloc: A,
        timeline: &Timeline<B>,
        done: &[Attempt],
        tick: u64,
    ) -> Result<(), Memory>
        requires may_start { MayStart timeline.now done.now tick }
        requires later { IsLater done.now tick }
        requires queue { IsQueue timeline.now done.now self.old }
        ensures next { OnOk result (IsAtNext timeline.now done.now tick self.new) }
        ensures kept { OnErr result (IsQueue timeline.now done.now self.new) }
    {
        let v6 = is_included(timeline, Family::V6, tick, self.v6);
        let v4 = is_included(timeline, Family::V4, tick, self.v4);
        if v6 == self.v6 && v4 == self.v4 {
            return Ok(());
        }
        let mut ips = interlaced_list(alloc, timeline, &mut self.sorted, v6, v4)?;
        keep_untried(alloc, done, &mut ips)?;
        self.v6 = v6;
        self.v4 = v4;
        put(&mut self.ips, ips);
        self.next = 0;
        Ok(())
    }
}

impl<A: Allocator> Untried<A> {
    // Makes the next list sort the addresses of both answers again.
    pub(crate) fn forget_order(&mut self)
        ensures { self.new ≡ record self.old { sorted = [] } }
    {
        self.sorted.clear();
    }

    pub(crate) fn is_empty(&self) -> bool
        ensures some { result ≡ false → 0 < length self.now.ips }
        ensures none { result ≡ true → length self.now.ips ≡ 0 }
    {
        self.next >= self.ips.len()
    }

    // Takes the first address from the queue.
    pub(crate) fn take(&mut self) -> Ip
        requires { 0 < length self.old.ips }
        ensures first { slice_get self.old.ips 0 ≡ Some result }
        ensures rest { self.new ≡ record self.old { ips = drop 1 self.old.ips } }
    {
        let ip = self.ips[self.next];
        self.next += 1;
        ip
    }
}

// Keeps the addresses that no attempt has tried.
fn keep_untried<A: Allocator + Copy>(
    alloc: A,
    done: &[Attempt],
    ips: &mut Vec<Ip, A>,
) -> Result<(), Memory>
    ensures { OnOk result (ips.new.items ≡ filter (is_untried done.now) ips.old.items) }
{
    if done.len() > FEW {
        keep_others(&tried_by(alloc, done)?, ips);
    } else {
        keep_untried_by_few(done, ips);
    }
    Ok(())
}

fn keep_others<A: Allocator>(tried: &Tried<A>, ips: &mut Vec<Ip, A>)
    ensures { ips.new.items ≡ filter (λ ip. not (has_ip ip tried.now.keys)) ips.old.items }
{
    ips.retain(|ip| !has(tried, *ip));
}

fn keep_untried_by_few<A: Allocator>(done: &[Attempt], ips: &mut Vec<Ip, A>)
    ensures { ips.new.items ≡ filter (is_untried done.now) ips.old.items }
{
    ips.retain(|ip| !is_tried(done, *ip));
}

// Whether the list for the tick includes the answer, given whether it was received by the last start.
fn is_included<A: Allocator>(
    timeline: &Timeline<A>,
    family: Family,
    tick: u64,
    before: bool,
) -> bool
    ensures { result ≡ (before || is_received timeline.now tick (reply_of timeline.now family)) }
{
    before || is_received(timeline, family, tick)
}

fn is_received<A: Allocator>(timeline: &Timeline<A>, family: Family, tick: u64) -> bool
    ensures { result ≡ is_received timeline.now tick (reply_of timeline.now family) }
{
    match timeline.answer(family) {
        Some((answered, _)) => timeline.seen(answered) <= tick,
        None => false,
    }
}
