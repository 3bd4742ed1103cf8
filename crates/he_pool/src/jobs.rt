//! The jobs of the races of a batch.
ghost use Rattle.std.specs.Prelude.{◌≡◌, ◌*◌, ◌≤◌, All, IfOk, count_by, length};
ghost use Rattle.he_addr.specs.Ip.{is_usable};
ghost use Rattle.he_board.specs.declared.limits.TheConstants.{PLACES, RACES};
ghost use Rattle.he_timeline.specs.Race.{addresses_of, reply_of};
ghost use Rattle.he_pool.specs.Batch.{batch_jobs, job_count};
ghost use Rattle.he_pool.specs.Working.{firsts_from};

use he_addr::{Family, Ip, Memory};
use he_timeline::Timeline;
use he_timeline::limits::MAX_ADDRESSES;
use std::alloc::Allocator;

/// The number of jobs of a batch of these races: one for each usable address of an answer.
pub fn batch_jobs<A: Allocator>(timelines: &[Timeline<A>]) -> usize
    requires { length timelines.now ≤ RACES }
    ensures value { result ≡ batch_jobs timelines.now }
    ensures few { result ≤ length timelines.now * PLACES }
{
    let mut jobs = 0;
    for timeline in timelines {
        jobs += job_count(timeline);
    }
    jobs
}

// The number of the first job of each race, followed by the number of all jobs.
pub(crate) fn first_jobs<A: Allocator + Copy>(
    alloc: A,
    timelines: &[Timeline<A>],
) -> Result<Vec<usize, A>, Memory>
    requires { length timelines.now ≤ RACES }
    ensures firsts { IfOk result (λ firsts. firsts.items ≡ firsts_from 0 timelines.now) }
    ensures few { IfOk result (λ firsts. All (λ race. job_count race ≤ PLACES) timelines.now) }
{
    let mut firsts = Vec::with_capacity(alloc, timelines.len() + 1)?;
    let mut jobs = 0;
    firsts.push(jobs)?;
    for timeline in timelines {
        jobs += job_count(timeline);
        firsts.push(jobs)?;
    }
    Ok(firsts)
}

// The number of jobs of the race: one for each usable address of its answers, at most `MAX_ATTEMPTS`.
fn job_count<A: Allocator>(timeline: &Timeline<A>) -> usize
    ensures value { result ≡ job_count timeline.now }
    ensures few { result ≤ PLACES }
{
    usable_in(timeline, Family::V6) + usable_in(timeline, Family::V4)
}

// The number of usable addresses of the family's answer.
fn usable_in<A: Allocator>(timeline: &Timeline<A>, family: Family) -> usize
    ensures value { result ≡ count_by is_usable (addresses_of (reply_of timeline.now family)) }
    ensures few { result ≤ MAX_ADDRESSES }
{
    match timeline.answer(family) {
        Some((_, addresses)) => usable_of(addresses),
        None => 0,
    }
}

fn usable_of(addresses: &[Ip]) -> usize
    ensures value { result ≡ count_by is_usable addresses.now }
{
    addresses.iter().filter(|ip| ip.is_usable()).count()
}
