//! Makes transcripts from the results of a batch's workers.
ghost use Rattle.std.specs.Prelude.{◌≡◌, ◌+◌, ◌<◌, ◌≤◌, ℕ, All, IfOk, IfSome, List, Ok, Some, length, replicate, set, slice_get, slice_range};
ghost use Rattle.std.specs.List.{AllZip};
ghost use Rattle.he_board.specs.declared.limits.TheConstants.{PARTS};
ghost use Rattle.he_board.specs.Notes.{least_of, looking, times, winner_of};
ghost use Rattle.he_board.specs.Passes.{IsPassOf, notes};
ghost use Rattle.he_plan.specs.declared.finish.Fate.TheVariants.{Skipped};
ghost use Rattle.he_plan.specs.Attempts.{AreAttempts};
ghost use Rattle.he_plan.specs.declared.attempts.Attempt.{Attempt};
ghost use Rattle.he_timeline.specs.Race.{Race};
ghost use Rattle.he_plan.specs.Transcript.{AreTold, IsTranscript};
ghost use Rattle.he_pool.specs.Batch.{HasTakenAll, HasWinners, IsOfSuccess, IsWinnerOf};
ghost use Rattle.he_pool.specs.Working.{AreFates, ArePlans, AreSettled, IsKept, IsReady, IsWorked, filled};

use crate::attempting::Done;
use crate::jobs::batch_jobs;
use crate::plans::take_plan;
use crate::working::{Batch, Work, jobs_of_race};
use he_addr::Memory;
use he_board::Pass;
use he_plan::{Fate, Plan, Transcript, plan, transcript_of_fates};
use he_timeline::Timeline;
use std::alloc::Allocator;

// A fate for each job, by number: the one returned for it, or Skipped.
fn fates_by_job<A: Allocator + Copy>(
    alloc: A,
    jobs: usize,
    done: &[Done],
) -> Result<Vec<Fate, A>, Memory>
    ensures { IfOk result (λ fates. fates.items ≡ filled done.now (replicate jobs Skipped)) }
{
    let mut fates = skipped(alloc, jobs)?;
    for task in done {
        put(&mut fates, *task);
    }
    Ok(fates)
}

fn put<A: Allocator>(fates: &mut Vec<Fate, A>, task: Done)
    ensures { fates.new.items ≡ set fates.old.items task.job task.fate }
{
    if task.job < fates.len() {
        fates[task.job] = task.fate;
    }
}

fn skipped<A: Allocator + Copy>(alloc: A, jobs: usize) -> Result<Vec<Fate, A>, Memory>
    ensures { IfOk result (λ fates. fates.items ≡ replicate jobs Skipped) }
{
    let mut fates = Vec::with_capacity(alloc, jobs)?;
    for _ in 0..jobs {
        fates.push(Fate::Skipped)?;
    }
    Ok(fates)
}

// The transcript of the race, from its plan and the fates of all jobs, in which its first job has the number `first`.
fn tell<A: Allocator + Copy>(
    alloc: A,
    timeline: &Timeline<A>,
    attempts: &Plan<A>,
    fates: &[Fate],
    first: usize,
    winner: Option<(u64, usize)>,
) -> Result<Transcript<A>, Memory>
    requires enough { first + length attempts.now ≤ length fates.now }
    requires told { AreTold timeline.now attempts.now (slice_range fates.now first
        (first + length attempts.now)) winner }
    ensures { IfOk result (IsTranscript timeline.now) }
{
    let end = first + attempts.attempts().len();
    transcript_of_fates(alloc, timeline, attempts, &fates[first..end], winner)
}

// The race's plan: the one that a worker made, or a new one.
fn plan_once<A: Allocator + Copy>(
    alloc: A,
    timeline: &Timeline<A>,
    made: Option<Plan<A>>,
) -> Result<Plan<A>, Memory>
    requires { IfSome made (AreAttempts timeline.now) }
    ensures are { IfOk result (AreAttempts timeline.now) }
    ensures once { (attempts : List Attempt) → made ≡ Some attempts → result ≡ Ok attempts }
{
    match made {
        Some(made) => Ok(made),
        None => plan(alloc, timeline),
    }
}

// The transcript of a race, by its winner: the least offer to it.
fn settle_race<A: Allocator + Copy, G>(
    batch: &Batch<A, G>,
    pass: &mut Pass,
    number: usize,
    made: Option<Plan<A>>,
    fates: &[Fate],
) -> Result<Transcript<A>, Memory>
    requires ready { IsReady batch.now.timelines.now batch.now.firsts.now batch.now.board.now }
    requires own { IsPassOf batch.now.board.now pass.old }
    requires parts { (notes pass.old).parts ≡ PARTS }
    requires number { number < length batch.now.timelines.now }
    requires real { All (IsOfSuccess batch.now.timelines.now) (notes pass.old).offers }
    requires made { (race : Race) → slice_get batch.now.timelines.now number ≡ Some race
        → IfSome made (AreAttempts race) }
    requires fates { AreFates batch.now.timelines.now (notes pass.old) fates.now }
    ensures own { IsPassOf batch.now.board.now pass.new }
    ensures noted { notes pass.new ≡ looking number (least_of number (notes pass.old).offers) (notes pass.old) }
    ensures taken { (job : ℕ) → 0 < times job (notes pass.old).known → times job (notes pass.old).taken ≡ 1 }
    ensures winner { (race : Race) → slice_get batch.now.timelines.now number ≡ Some race
        → IfOk result (λ _. IsWinnerOf race (winner_of (least_of number (notes pass.old).offers))) }
    ensures transcript { (race : Race) → slice_get batch.now.timelines.now number ≡ Some race
        → IfOk result (IsTranscript race) }
{
    let timeline = &batch.timelines[number];
    let _settings = timeline.settings();
    let (first, _count) = jobs_of_race(batch, number);
    let winner = batch.board.winner(pass, number);
    let attempts = plan_once(batch.alloc, timeline, made)?;
    tell(batch.alloc, timeline, &attempts, fates, first, winner)
}

// The transcripts of all races, from the plans and the fates of all jobs.
fn settle_all<A: Allocator + Copy, G>(
    batch: &Batch<A, G>,
    pass: &mut Pass,
    plans: Vec<Option<Plan<A>>, A>,
    fates: &[Fate],
) -> Result<Vec<Transcript<A>, A>, Memory>
    requires ready { IsReady batch.now.timelines.now batch.now.firsts.now batch.now.board.now }
    requires own { IsPassOf batch.now.board.now pass.old }
    requires parts { (notes pass.old).parts ≡ PARTS }
    requires real { All (IsOfSuccess batch.now.timelines.now) (notes pass.old).offers }
    requires plans { ArePlans batch.now.timelines.now plans.items }
    requires fates { AreFates batch.now.timelines.now (notes pass.old) fates.now }
    ensures own { IsPassOf batch.now.board.now pass.new }
    ensures kept { IsKept (notes pass.old) (notes pass.new) }
    ensures settled { IfOk result (λ transcripts. AreSettled batch.now.timelines.now (length batch.now.timelines.now)
        (notes pass.new) transcripts.items) }
{
    let mut plans = plans;
    let mut transcripts = Vec::with_capacity(batch.alloc, batch.timelines.len())?;
    for number in 0..batch.timelines.len() {
        let made = take_plan(&mut plans, number);
        transcripts.push(settle_race(batch, pass, number, made, fates)?)?;
    }
    Ok(transcripts)
}

// The transcripts of all races, from the workers' results.
pub(crate) fn settle<A: Allocator + Copy, G>(
    batch: &Batch<A, G>,
    pass: &mut Pass,
    work: Work<A>,
) -> Result<Vec<Transcript<A>, A>, Memory>
    requires ready { IsReady batch.now.timelines.now batch.now.firsts.now batch.now.board.now }
    requires own { IsPassOf batch.now.board.now pass.old }
    requires parts { (notes pass.old).parts ≡ PARTS }
    requires worked { IsWorked batch.now.timelines.now (notes pass.old) work.done.items work.plans.items }
    ensures own { IsPassOf batch.now.board.now pass.new }
    ensures kept { IsKept (notes pass.old) (notes pass.new) }
    ensures taken { IfOk result (λ _. HasTakenAll batch.now.timelines.now (notes pass.new)) }
    ensures winners { IfOk result (λ _. HasWinners batch.now.timelines.now (notes pass.new)) }
    ensures transcripts { IfOk result (λ transcripts. AllZip IsTranscript batch.now.timelines.now transcripts.items) }
{
    let Work { done, plans } = work;
    let jobs = batch_jobs(batch.timelines);
    let fates = fates_by_job(batch.alloc, jobs, &done)?;
    settle_all(batch, pass, plans, &fates)
}
