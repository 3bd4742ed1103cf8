// A race under way, which makes its attempts one by one.

ghost use Rattle.std.specs.Prelude.{◌≡◌, ℕ, ◌<◌, [], length, vec_capacity, vec_len, IfNone, IfSome, OnErr, OnOk};
ghost use Rattle.he_timeline.specs.Seen.{IsLeast};
ghost use Rattle.he_plan.specs.Attempts.{MayStart};
ghost use Rattle.he_plan.specs.Planning.{all_failed};
ghost use Rattle.he_timeline.specs.Race.{Race};
ghost use Rattle.he_timeline.specs.Timeline.{IsRace};
ghost use Rattle.he_plan.specs.RaceState.{AreSorted, EndsOne, IsAlikeSoFar, IsUnderway, MakesNext, counted, not_begun};

use crate::attempts::Attempt;
use crate::finish::{Fate, fate_of};
use crate::starts::next_tick;
use crate::untried::Untried;
use he_addr::{Ip, Memory};
use he_timeline::Timeline;
use std::alloc::{Allocator, Global};
use std::marker::Model;

/// The attempts that a race has made so far, the fate of each, and the untried addresses. It keeps the number of
/// failures, and the untried addresses in order, so that the next attempt needs no scan of the earlier ones.
#[derive(Drop)]
pub struct RaceState<A: Allocator = Global> {
    attempts: Vec<Attempt, A>,
    fates: Vec<Fate, A>,
    failed: usize,
    latest: u64,
    queue: Untried<A>,
}

impl<A: Allocator> Model for RaceState<A> {
    ghost use Rattle.he_plan.specs.RaceState.{Progress};

    ghost Value = { Progress };

    ghost view = { λ u. record { attempts = u.attempts.items; fates = u.fates.items; failed = u.failed; latest = u.latest; queue = u.queue } };
}

impl<A: Allocator + Copy> RaceState<A> {
    /// A race without attempts.
    pub fn new(alloc: A) -> RaceState<A>
        ensures value { result ≡ not_begun }
        ensures underway { (race : Race) → IsUnderway race result }
    {
        RaceState {
            attempts: Vec::new(alloc),
            fates: Vec::new(alloc),
            failed: 0,
            latest: 0,
            queue: Untried::new(alloc, Vec::new(alloc)),
        }
    }

    // A race without attempts, with the usable addresses of both answers in order, so that they aren't sorted again.
    pub(crate) fn with_order(alloc: A, sorted: Vec<Ip, A>) -> RaceState<A>
        ensures fates { result.fates ≡ [] }
        ensures underway { (race : Race) → AreSorted race sorted.items → IsUnderway race result }
    {
        RaceState {
            attempts: Vec::new(alloc),
            fates: Vec::new(alloc),
            failed: 0,
            latest: 0,
            queue: Untried::new(alloc, sorted),
        }
    }

    /// The attempts, by place.
    pub fn attempts(&self) -> &[Attempt]
        ensures { result.now ≡ self.now.attempts }
    {
        self.attempts.as_slice()
    }

    /// The fate of each attempt, by place.
    pub fn fates(&self) -> &[Fate]
        ensures { result.now ≡ self.now.fates }
    {
        self.fates.as_slice()
    }

    /// The attempts of a finished race, by place.
    pub fn into_attempts(self) -> Vec<Attempt, A>
        ensures { result.items ≡ self.attempts }
    {
        let RaceState {
            attempts,
            fates: _,
            failed: _,
            latest: _,
            queue: _,
        } = self;
        attempts
    }

    /// The least tick at which the next attempt may start; None if no attempt may start.
    pub fn next_tick<B: Allocator>(&self, timeline: &Timeline<B>) -> Option<u64>
        requires { IsUnderway timeline.now self.now }
        ensures some { IfSome result (IsLeast (MayStart timeline.now self.now.attempts)) }
        ensures none { IfNone result ((t : ℕ) → ¬ MayStart timeline.now self.now.attempts t) }
        ensures race { IsRace timeline.now }
    {
        next_tick(timeline, &self.attempts, self.all_failed(), &self.queue)
    }

    /// Makes the next attempt at the tick, the least at which it may start. On `Memory` it makes none.
    pub fn start<B: Allocator>(
        &mut self,
        alloc: A,
        timeline: &Timeline<B>,
        tick: u64,
    ) -> Result<(), Memory>
        requires race { IsRace timeline.now }
        requires underway { IsUnderway timeline.now self.old }
        requires least { IsLeast (MayStart timeline.now self.old.attempts) tick }
        ensures made { OnOk result (MakesNext timeline.now self.old.attempts self.new.attempts tick) }
        ensures none { OnErr result ((self.new.attempts ≡ self.old.attempts) × (self.new.fates ≡ self.old.fates)) }
        ensures underway { IsUnderway timeline.now self.new }
    {
        let most = timeline.address_count();
        make_room(&mut self.attempts, most)?;
        make_room(&mut self.fates, most)?;
        self.queue.advance(alloc, timeline, &self.attempts, tick)?;
        let attempt = Attempt {
            place: self.attempts.len(),
            tick,
            ip: self.queue.take(),
        };
        let fate = fate_of(timeline, &attempt);
        self.attempts.push_reserved(attempt);
        self.fates.push_reserved(fate);
        self.count(fate);
        Ok(())
    }

    /// Records the end of the attempt: the timeline has one more outcome than before, that of its address.
    pub fn end<B: Allocator>(&mut self, timeline: &Timeline<B>, attempt: Attempt)
        requires ends { (race : Race) × IsRace race × IsUnderway race self.old
            × EndsOne race timeline.now self.old.attempts attempt }
        ensures same { self.new.attempts ≡ self.old.attempts }
        ensures underway { IsUnderway timeline.now self.new }
    {
        let fate = fate_of(timeline, &attempt);
        self.fates[attempt.place] = fate;
        self.count(fate);
    }

    /// Records that another answer came after the last start: the next list sorts the addresses again.
    pub fn hear(&mut self)
        ensures same { self.new.attempts ≡ self.old.attempts }
        ensures underway { (race new : Race) → IsUnderway race self.old → IsAlikeSoFar race new self.old.attempts
            → IsUnderway new self.new }
    {
        self.queue.forget_order();
    }

    // Counts another fate.
    fn count(&mut self, fate: Fate)
        requires { self.old.failed < length self.old.fates }
        ensures { self.new ≡ counted self.old fate }
    {
        if let Fate::Failed(finish) = fate {
            self.failed += 1;
            self.latest = self.latest.max(finish);
        }
    }

    // The latest failure, if every attempt failed.
    fn all_failed(&self) -> Option<u64>
        requires { (race : Race) × IsUnderway race self.now }
        ensures { result ≡ all_failed self.now.fates }
    {
        if self.failed == self.attempts.len() {
            Some(self.latest)
        } else {
            None
        }
    }
}

// Makes room for another item; for an empty vector, room for `most` items.
fn make_room<T, A: Allocator>(made: &mut Vec<T, A>, most: usize) -> Result<(), Memory>
    ensures same { made.new.items ≡ made.old.items }
    ensures room { OnOk result (vec_len made.new < vec_capacity made.new) }
{
    if made.is_empty() {
        made.reserve_exact(most.max(1))
    } else {
        made.reserve(1)
    }
}
