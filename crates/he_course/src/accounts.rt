// The account of a race: how many of its ticks each owner has.

ghost use Rattle.std.specs.Prelude.{ℕ, ◌≡◌, ◌+◌, ◌<◌, ◌≤◌, ◌^◌, IfOk, if◌then◌else◌, length, max, sum};
ghost use Rattle.he_course.specs.declared.owners.Owner.{Owner};
ghost use Rattle.he_course.specs.Accounts.{IsAccount, end_of};
ghost use Rattle.he_course.specs.Amounts.{HasAtMost, HasGained, amount_of, lost_of, times_of, total_of};
ghost use Rattle.he_course.specs.Owners.{IsOwner, owner_in, same_owner};

use crate::collecting::end_tick;
use crate::owners::{Owner, Stage};
use crate::stages::Started;
use he_addr::{Ip, Memory};
use he_plan::Transcript;
use he_timeline::Timeline;
use std::alloc::Allocator;

/// How many milliseconds of a race each owner has; together they are the tick at which the race ended.
#[derive(Drop)]
pub struct Account<A: Allocator> {
    /// Waiting for the names' answers.
    pub names: u64,

    /// Waiting for each attempt, by its place.
    pub tried: Vec<u64, A>,

    /// Waiting although each address was tried and the Connection Attempt Delay was over.
    pub nobody: u64,

    /// Waiting for attempts whose outcomes are not known.
    pub unknown: u64,

    /// This machine's.
    pub machine: u64,

    /// Connecting to the address that won.
    pub connecting: u64,

    /// The time lost: the sum of `tried` and `nobody`.
    pub lost: u64,
}

/// The milliseconds of a race, by what they went into. Together they are `all`.
#[derive(Clone, Copy, Debug, PartialEq, Eq)]
pub struct Times {
    /// To the end of the race.
    pub all: u64,

    /// Waiting for the names' answers.
    pub names: u64,

    /// Lost to addresses that did not connect.
    pub lost: u64,

    /// Waiting for attempts whose outcomes are not known.
    pub unknown: u64,

    /// This machine's.
    pub machine: u64,

    /// Connecting to the address that won.
    pub connecting: u64,
}

impl<A: Allocator> Account<A> {
    /// The account of the race with this transcript. The client that was recorded did not try the addresses of
    /// `untried`.
    ///
    /// # Errors
    ///
    /// `Memory` if an allocation was refused.
    pub fn of<B: Allocator, C: Allocator>(
        alloc: A,
        timeline: &Timeline<B>,
        transcript: &Transcript<C>,
        untried: &[Ip],
    ) -> Result<Account<A>, Memory>
        ensures account { IfOk result (IsAccount timeline.now transcript.now untried.now) }
        ensures lost { IfOk result (λ account. account.lost ≡ lost_of account) }
        ensures whole { IfOk result (λ account. total_of account ≡ end_of transcript.now) }
    {
        let mut account = Account::counted(alloc, timeline, transcript, untried)?;
        account.lost = sum_of(&account.tried) + account.nobody;
        Ok(account)
    }

    /// The times of this account of a race that ended at the tick `end`.
    pub fn times(&self, end: u64) -> Times
        ensures { result ≡ times_of end self.now }
    {
        Times {
            all: end,
            names: self.names,
            lost: self.lost,
            unknown: self.unknown,
            machine: self.machine,
            connecting: self.connecting,
        }
    }

    // The account, without the sum of what was lost.
    fn counted<B: Allocator, C: Allocator>(
        alloc: A,
        timeline: &Timeline<B>,
        transcript: &Transcript<C>,
        untried: &[Ip],
    ) -> Result<Account<A>, Memory>
        ensures account { IfOk result (IsAccount timeline.now transcript.now untried.now) }
        ensures fits { IfOk result (λ account. total_of account < 2 ^ 64) }
    {
        let (lines, end) = (transcript.attempts(), end_tick(transcript.result()));
        let mut account = Account::empty(alloc, lines.len())?;
        let mut started = Started::none(timeline, &lines[..0]);
        let mut at = 0;
        for line in lines {
            let stage = started.stage(timeline, transcript, untried);
            at = account.add_stage(timeline.pauses(), stage, at, line.tick.min(end));
            started = started.more(timeline, &lines[..started.lines.len() + 1], *line);
        }
        let stage = started.stage(timeline, transcript, untried);
        account.add_stage(timeline.pauses(), stage, at, end);
        Ok(account)
    }

    fn empty(alloc: A, attempts: usize) -> Result<Account<A>, Memory>
        ensures { IfOk result (λ account. (length account.tried.items ≡ attempts)
            × ((who : Owner) → amount_of account who ≡ 0)) }
    {
        Ok(Account {
            names: 0,
            tried: vec![in alloc; 0; attempts]?,
            nobody: 0,
            unknown: 0,
            machine: 0,
            connecting: 0,
            lost: 0,
        })
    }

    // Adds the ticks of a stage from `from` on and before `to`, if that is later, and returns the later of both.
    fn add_stage(&mut self, pauses: &[(u64, u64)], stage: Stage, from: u64, to: u64) -> u64
        requires valid { IsOwner (length self.old.tried.items) stage.owner }
        requires room { HasAtMost from self.old }
        ensures later { result ≡ max from to }
        ensures amounts { HasGained (owner_in pauses.now stage) from result self.old self.new }
    {
        let mut at = from;
        while at < to {
            let until = stage.until(pauses, at, to);
            self.add(stage.owner_at(pauses, at), until - at);
            at = until;
        }
        at
    }

    fn add(&mut self, owner: Owner, ticks: u64)
        requires valid { IsOwner (length self.old.tried.items) owner }
        requires room { amount_of self.old owner + ticks < 2 ^ 64 }
        ensures amounts { (who : Owner) → IsOwner (length self.old.tried.items) who
            → amount_of self.new who ≡ amount_of self.old who + (if same_owner owner who then ticks else 0) }
        ensures as_many { length self.new.tried.items ≡ length self.old.tried.items }
    {
        match owner {
            Owner::Names => self.names += ticks,
            Owner::Tried(place) => self.tried[place] += ticks,
            Owner::Nobody => self.nobody += ticks,
            Owner::Unknown => self.unknown += ticks,
            Owner::Machine => self.machine += ticks,
            Owner::Connecting => self.connecting += ticks,
        }
    }
}

fn sum_of(ticks: &[u64]) -> u64
    requires { sum ticks.now < 2 ^ 64 }
    ensures { result ≡ sum ticks.now }
{
    ticks.iter().sum()
}
