// The attempts to each address: their number, how they ended, and the time that they own.
ghost use Rattle.std.specs.Prelude.{ℕ, ◌≡◌, ◌++◌, ◌∷◌, [], List, if◌then◌else◌, length, map, IfOk, IsPermutation, OnOk, filter};
ghost use Rattle.he_record.specs.Left.{said_of};
ghost use Rattle.std.specs.List.Sorted.{IsSortedByKey};
ghost use Rattle.std.specs.List.{flat_map};
ghost use Rattle.he_totals.specs.Kept.{is_loss};
ghost use Rattle.he_totals.specs.Tries.{AreRanked, AreTallies, Try, dead_of, dead_server, has_lost, most_first, rank_of, server_loss, server_tries, tally_at, tried, tries_on};

use crate::kept::{Loss, loss_of};
use he_addr::{Ip, Memory};
use he_plan::Line;
use he_record::{Record, RecordLine, ServerReason};
use he_timeline::Timeline;
use indexmap::IndexMap;
use std::alloc::Allocator;
use std::cmp::Reverse;
use std::hash::{BuildHasherDefault, FoldHasher};
use std::marker::Model;

// The most addresses that are reported.
const MOST_TOLD: usize = 10;

/// The attempts to an address. Each number is at most 2^64 - 1.
#[derive(Clone, Copy, Debug, PartialEq, Eq)]
pub struct Tally {
    pub attempts: u64,
    pub failed: u64,
    pub no_answer: u64,
    /// The milliseconds of their races that they own (he_course).
    pub lost: u64,
}

impl Tally {
    const NONE: Tally = Tally {
        attempts: 0,
        failed: 0,
        no_answer: 0,
        lost: 0,
    };

    // The tally with one attempt more.
    fn with(self, loss: Option<Loss>, lost: u64) -> Tally
        ensures { result ≡ tried self loss lost }
    {
        Tally {
            attempts: self.attempts.saturating_add(1),
            failed: self.failed.saturating_add(one_if(Loss::Failed, loss)),
            no_answer: self.no_answer.saturating_add(one_if(Loss::NoAnswer, loss)),
            lost: self.lost.saturating_add(lost),
        }
    }

    // The number of attempts that failed or gave no answer.
    fn dead(self) -> u128
        ensures { result ≡ dead_of self }
    {
        self.failed as u128 + self.no_answer as u128
    }
}

fn one_if(wanted: Loss, loss: Option<Loss>) -> u64
    ensures { result ≡ (if is_loss wanted loss then 1 else 0) }
{
    match (wanted, loss) {
        (Loss::Failed, Some(Loss::Failed)) => 1,
        (Loss::NoAnswer, Some(Loss::NoAnswer)) => 1,
        _ => 0,
    }
}

// The tallies of the addresses to which attempts were made.
#[derive(Drop)]
pub(crate) struct Tallies<A: Allocator> {
    by_address: IndexMap<Ip, Tally, BuildHasherDefault<FoldHasher>, A>,
}

impl<A: Allocator> Model for Tallies<A> {
    ghost use Rattle.std.specs.Prelude.{List};
    ghost use Rattle.he_addr.specs.declared.ip.Ip.{Ip};
    ghost use Rattle.he_totals.specs.declared.tallies.Tally.{Tally};

    ghost Value = { List (Ip × Tally) };

    ghost view = { λ t. t.by_address.entries };
}

impl<A: Allocator + Copy> Tallies<A> {
    pub(crate) fn none(alloc: A) -> Tallies<A>
        ensures { AreTallies [] result }
    {
        Tallies {
            by_address: IndexMap::new(alloc),
        }
    }

    // Counts the attempts of a race, each with the milliseconds that it owns.
    pub(crate) fn add<B: Allocator, C: Allocator>(
        &mut self,
        told: &Record<'_, C>,
        race: &Timeline<B>,
        lines: &[Line],
        charges: &[u64],
    ) -> Result<(), Memory>
        requires { length charges.now ≡ length lines.now }
        ensures { (tries : List Try) → AreTallies tries self.old
            → OnOk result (AreTallies (tries ++ tries_on told.now race.now lines.now charges.now) self.new) }
    {
        for place in 0..lines.len() {
            let line = &lines[place];
            self.add_try(line.ip, loss_of(told, race, line), charges[place])?;
        }
        Ok(())
    }

    // Counts the name servers of a race that did not answer.
    pub(crate) fn add_servers<B: Allocator>(&mut self, told: &Record<'_, B>) -> Result<(), Memory>
        ensures { (tries : List Try) → AreTallies tries self.old
            → OnOk result (AreTallies (tries ++ flat_map server_tries told.now) self.new) }
    {
        for line in told.lines() {
            self.add_server(line)?;
        }
        Ok(())
    }

    fn add_server(&mut self, line: &RecordLine<'_>) -> Result<(), Memory>
        ensures { (tries : List Try) → AreTallies tries self.old
            → OnOk result (AreTallies (tries ++ server_tries (said_of line.now)) self.new) }
    {
        let Some(server) = dead_server(line) else {
            return Ok(());
        };
        self.add_try(server.0, Some(server.1), 0)
    }

    fn add_try(&mut self, ip: Ip, loss: Option<Loss>, lost: u64) -> Result<(), Memory>
        ensures { (tries : List Try) → AreTallies tries self.old
            → OnOk result (AreTallies (tries ++ record { ip = ip; loss = loss; lost = lost } ∷ []) self.new) }
    {
        let tally = self.of(ip);
        self.by_address.insert(ip, tally.with(loss, lost))?;
        Ok(())
    }

    fn of(&self, ip: Ip) -> Tally
        ensures { result ≡ tally_at self.now ip }
    {
        self.by_address.get(&ip).copied().unwrap_or(Tally::NONE)
    }

    // The ten addresses with the most lost time.
    pub(crate) fn ranked(&self, alloc: A) -> Result<Vec<(Ip, Tally), A>, Memory>
        ensures { IfOk result (λ told. AreRanked self.now told.items) }
    {
        let mut ranked = self.failing(alloc)?;
        rank(&mut ranked);
        ranked.truncate(MOST_TOLD);
        Ok(ranked)
    }

    fn failing(&self, alloc: A) -> Result<Vec<(Ip, Tally), A>, Memory>
        ensures { IfOk result (λ failing. failing.items ≡ filter has_lost self.now) }
    {
        let mut failing = Vec::new(alloc);
        for (ip, tally) in self.by_address.iter() {
            if tally.lost > 0 || tally.dead() > 0 {
                failing.push((*ip, *tally))?;
            }
        }
        Ok(failing)
    }
}

// The name server of a line, and how it did not answer.
fn dead_server(line: &RecordLine<'_>) -> Option<(Ip, Loss)>
    ensures { result ≡ dead_server (said_of line.now) }
{
    match line {
        RecordLine::Server(ip, reason, _) => Some((*ip, server_loss(*reason))),
        _ => None,
    }
}

fn server_loss(reason: ServerReason) -> Loss
    ensures { result ≡ server_loss reason }
{
    match reason {
        ServerReason::Silent => Loss::NoAnswer,
        ServerReason::Refused => Loss::Failed,
        ServerReason::Failed => Loss::Failed,
        ServerReason::Unreachable => Loss::Failed,
    }
}

// Sorts tallies, the one with the most lost time first, equal ones by the number of attempts that failed or gave no
// answer, then by the number of the address.
fn rank<A: Allocator>(tallies: &mut Vec<(Ip, Tally), A>)
    ensures permutation { IsPermutation tallies.old.items tallies.new.items }
    ensures sorted { IsSortedByKey rank_of most_first tallies.new.items }
{
    tallies.sort_unstable_by_key(|tallied| {
        (
            Reverse(tallied.1.lost),
            (Reverse(tallied.1.dead()), tallied.0.mapped()),
        )
    });
}
