//! One worker: tries all jobs of the batch, and runs those that it takes.
ghost use Rattle.std.specs.Prelude.{◌≡◌, ◌+◌, ◌<◌, ◌≤◌, ◌++◌, ◌∷◌, ℕ, List, [], All, IfOk, IfSome, None, Ok, OnOk, Some, length, replicate, slice_get, take};
ghost use Rattle.he_board.specs.declared.limits.TheConstants.{MOST_WORKERS, PLACES};
ghost use Rattle.he_board.specs.Passes.{IsPassOf, jobs_of, notes, races_of};
ghost use Rattle.he_plan.specs.Attempts.{AreAttempts};
ghost use Rattle.he_plan.specs.declared.attempts.Attempt.{Attempt};
ghost use Rattle.he_timeline.specs.Race.{Race};
ghost use Rattle.he_pool.specs.Batch.{IsOfSuccess, batch_jobs, job_at};
ghost use Rattle.he_board.specs.Workers.{IsTried};
ghost use Rattle.he_pool.specs.Working.{IsBlank, IsHeld, IsMore, IsReady, IsSound, IsWorked};

use crate::attempting::{Done, run_job};
use crate::gate::Gate;
use he_addr::Memory;
use he_board::{Board, Pass};
use he_plan::{Fate, Plan, plan};
use he_timeline::Timeline;
use std::alloc::Allocator;

// The data that all workers of a batch share.
#[derive(Drop)]
pub(crate) struct Batch<'a, A: Allocator, G> {
    pub(crate) alloc: A,
    pub(crate) timelines: &'a [Timeline<A>],
    // The number of the first job of each race, followed by the number of all jobs.
    pub(crate) firsts: &'a [usize],
    pub(crate) board: &'a Board<A>,
    pub(crate) gate: &'a G,
}

// A worker's results: a fate for each job that it took, and by race the plans that it made.
#[derive(Drop)]
pub(crate) struct Work<A: Allocator> {
    pub(crate) done: Vec<Done, A>,
    pub(crate) plans: Vec<Option<Plan<A>>, A>,
}

// The number of the race's first job, and the number of its jobs.
pub(crate) fn jobs_of_race<A: Allocator, G>(batch: &Batch<A, G>, number: usize) -> (usize, usize)
    requires ready { IsReady batch.now.timelines.now batch.now.firsts.now batch.now.board.now }
    requires number { number < length batch.now.timelines.now }
    ensures first { result.0 ≡ batch_jobs (take number batch.now.timelines.now) }
    ensures end { result.0 + result.1 ≡ batch_jobs (take (number + 1) batch.now.timelines.now) }
    ensures few { result.1 ≤ PLACES }
    ensures below { result.0 + result.1 ≤ batch_jobs batch.now.timelines.now }
    ensures at { (place : ℕ) → place < result.1 → job_at batch.now.timelines.now (result.0 + place) ≡ (number, place) }
{
    let first = batch.firsts[number];
    (first, batch.firsts[number + 1] - first)
}

// Takes the race's job at this place, if it is not yet taken, and runs it. Returns the race's plan, which is made
// with the first job taken of a race.
fn try_job<A: Allocator + Copy, G: Gate>(
    batch: &Batch<A, G>,
    pass: &mut Pass,
    worker: usize,
    number: usize,
    place: usize,
    job: usize,
    made: Option<Plan<A>>,
    done: &mut Vec<Done, A>,
) -> Result<Option<Plan<A>>, Memory>
    requires own { IsPassOf batch.now.board.now pass.old }
    requires number { number < length batch.now.timelines.now }
    requires race { number < races_of batch.now.board.now }
    requires job { job < jobs_of batch.now.board.now }
    requires below { job < batch_jobs batch.now.timelines.now }
    requires place { place < PLACES }
    requires is { job_at batch.now.timelines.now job ≡ (number, place) }
    requires planned { (race : Race) → slice_get batch.now.timelines.now number ≡ Some race
        → IfSome made (AreAttempts race) }
    requires sound { IsSound batch.now.timelines.now (notes pass.old) done.old.items }
    requires real { All (IsOfSuccess batch.now.timelines.now) (notes pass.old).offers }
    ensures own { IsPassOf batch.now.board.now pass.new }
    ensures parts { (notes pass.new).parts ≡ (notes pass.old).parts }
    ensures real { All (IsOfSuccess batch.now.timelines.now) (notes pass.new).offers }
    ensures known { (notes pass.new).known ≡ (notes pass.old).known ++ job ∷ [] }
    ensures planned { (race : Race) → slice_get batch.now.timelines.now number ≡ Some race
        → IfOk result (λ made. IfSome made (AreAttempts race)) }
    ensures sound { OnOk result (IsSound batch.now.timelines.now (notes pass.new) done.new.items) }
{
    if !batch.board.take(pass, job) {
        return Ok(made);
    }
    batch.gate.before(worker, job);
    let timeline = &batch.timelines[number];
    let attempts = plan_of(batch, worker, number, timeline, made)?;
    let fate = run_job(batch.board, pass, timeline, number, place, &attempts);
    tell_skip(batch, worker, job, fate);
    done.push(Done { job, fate })?;
    Ok(Some(attempts))
}

// The race's plan: the one that the worker has made before, or a new one, which is reported to the gate.
fn plan_of<A: Allocator + Copy, G: Gate>(
    batch: &Batch<A, G>,
    worker: usize,
    number: usize,
    timeline: &Timeline<A>,
    made: Option<Plan<A>>,
) -> Result<Plan<A>, Memory>
    requires { IfSome made (AreAttempts timeline.now) }
    ensures are { IfOk result (AreAttempts timeline.now) }
    ensures once { (attempts : List Attempt) → made ≡ Some attempts → result ≡ Ok attempts }
{
    if let Some(made) = made {
        return Ok(made);
    }
    let attempts = plan(batch.alloc, timeline)?;
    batch.gate.planned(worker, number);
    Ok(attempts)
}

// Reports a skipped job to the gate.
fn tell_skip<A: Allocator, G: Gate>(batch: &Batch<A, G>, worker: usize, job: usize, fate: Fate) {
    if let Fate::Skipped = fate {
        batch.gate.skipped(worker, job);
    }
}

// Tries all jobs of the race.
fn try_race<A: Allocator + Copy, G: Gate>(
    batch: &Batch<A, G>,
    pass: &mut Pass,
    worker: usize,
    number: usize,
    work: &mut Work<A>,
) -> Result<(), Memory>
    requires ready { IsReady batch.now.timelines.now batch.now.firsts.now batch.now.board.now }
    requires own { IsPassOf batch.now.board.now pass.old }
    requires number { number < length batch.now.timelines.now }
    requires held { IsHeld batch.now.timelines.now (notes pass.old) work.old.done.items work.old.plans.items }
    ensures own { IsPassOf batch.now.board.now pass.new }
    ensures parts { (notes pass.new).parts ≡ (notes pass.old).parts }
    ensures real { All (IsOfSuccess batch.now.timelines.now) (notes pass.new).offers }
    ensures more { IsMore (notes pass.old).known (notes pass.new).known }
    ensures tried { OnOk result (IsTried (batch_jobs (take number batch.now.timelines.now)) (batch_jobs (take
        (number + 1) batch.now.timelines.now)) (notes pass.new).known) }
    ensures held { OnOk result (IsHeld batch.now.timelines.now
        (notes pass.new) work.new.done.items work.new.plans.items) }
{
    let (first, count) = jobs_of_race(batch, number);
    let mut made = None;
    for place in 0..count {
        made = try_job(
            batch,
            pass,
            worker,
            number,
            place,
            first + place,
            made,
            &mut work.done,
        )?;
    }
    work.plans[number] = made;
    Ok(())
}

// Tries all jobs of the races with these numbers.
fn try_races<A: Allocator + Copy, G: Gate>(
    batch: &Batch<A, G>,
    pass: &mut Pass,
    worker: usize,
    from: usize,
    to: usize,
    work: &mut Work<A>,
) -> Result<(), Memory>
    requires ready { IsReady batch.now.timelines.now batch.now.firsts.now batch.now.board.now }
    requires own { IsPassOf batch.now.board.now pass.old }
    requires range { (from ≤ to) × (to ≤ length batch.now.timelines.now) }
    requires held { IsHeld batch.now.timelines.now (notes pass.old) work.old.done.items work.old.plans.items }
    ensures own { IsPassOf batch.now.board.now pass.new }
    ensures parts { (notes pass.new).parts ≡ (notes pass.old).parts }
    ensures real { All (IsOfSuccess batch.now.timelines.now) (notes pass.new).offers }
    ensures more { IsMore (notes pass.old).known (notes pass.new).known }
    ensures tried { OnOk result (IsTried (batch_jobs (take from batch.now.timelines.now)) (batch_jobs
        (take to batch.now.timelines.now)) (notes pass.new).known) }
    ensures held { OnOk result (IsHeld batch.now.timelines.now
        (notes pass.new) work.new.done.items work.new.plans.items) }
{
    for number in from..to {
        try_race(batch, pass, worker, number, work)?;
    }
    Ok(())
}

// Tries all jobs of the batch, beginning with those of this race and the later ones.
fn try_all<A: Allocator + Copy, G: Gate>(
    batch: &Batch<A, G>,
    pass: &mut Pass,
    worker: usize,
    first: usize,
) -> Result<Work<A>, Memory>
    requires ready { IsReady batch.now.timelines.now batch.now.firsts.now batch.now.board.now }
    requires own { IsPassOf batch.now.board.now pass.old }
    requires first { first ≤ length batch.now.timelines.now }
    requires fresh { IsBlank (notes pass.old) }
    ensures own { IsPassOf batch.now.board.now pass.new }
    ensures parts { (notes pass.new).parts ≡ (notes pass.old).parts }
    ensures real { All (IsOfSuccess batch.now.timelines.now) (notes pass.new).offers }
    ensures worked { IfOk result (λ work. IsWorked batch.now.timelines.now
        (notes pass.new) work.done.items work.plans.items) }
{
    let count = batch.timelines.len();
    let mut work = new_work(batch.alloc, count)?;
    try_races(batch, pass, worker, first, count, &mut work)?;
    try_races(batch, pass, worker, 0, first, &mut work)?;
    Ok(work)
}

fn new_work<A: Allocator + Copy>(alloc: A, races: usize) -> Result<Work<A>, Memory>
    ensures done { IfOk result (λ work. work.done.items ≡ []) }
    ensures plans { IfOk result (λ work. work.plans.items ≡ replicate races None) }
{
    let mut plans = Vec::with_capacity(alloc, races)?;
    for _ in 0..races {
        plans.push(None)?;
    }
    Ok(Work {
        done: Vec::new(alloc),
        plans,
    })
}

// Runs a worker: it tries all jobs, and begins at a race of its own.
pub(crate) fn run_worker<A: Allocator + Copy, G: Gate>(
    batch: &Batch<A, G>,
    pass: Pass,
    worker: usize,
    workers: usize,
) -> (Pass, Result<Work<A>, Memory>)
    requires ready { IsReady batch.now.timelines.now batch.now.firsts.now batch.now.board.now }
    requires own { IsPassOf batch.now.board.now pass }
    requires worker { (worker < workers) × (workers ≤ MOST_WORKERS) }
    requires fresh { IsBlank (notes pass) }
    ensures own { IsPassOf batch.now.board.now result.0 }
    ensures parts { (notes result.0).parts ≡ (notes pass).parts }
    ensures real { All (IsOfSuccess batch.now.timelines.now) (notes result.0).offers }
    ensures worked { IfOk result.1 (λ work. IsWorked batch.now.timelines.now
        (notes result.0) work.done.items work.plans.items) }
{
    let mut pass = pass;
    let first = worker * batch.timelines.len() / workers;
    let result = try_all(batch, &mut pass, worker, first);
    (pass, result)
}
