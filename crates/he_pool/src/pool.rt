//! The workers of a batch, each of which runs in a thread of its own.
ghost use Rattle.std.specs.Prelude.{◌≡◌, ◌+◌, ◌≤◌, All, IfOk, List};
ghost use denote.Param.Send.{Frees, IsSend, IsSync};
ghost use Rattle.he_board.specs.declared.view.View.{View};
ghost use Rattle.he_board.specs.Notes.{joined};
ghost use Rattle.he_board.specs.Passes.{IsPassOf, notes};
ghost use Rattle.he_timeline.specs.Race.{Race};
ghost use Rattle.he_pool.specs.Batch.{IsOfSuccess};
ghost use Rattle.he_pool.specs.Working.{IsDone, IsReady, IsWorked, MayRun};

use crate::gate::Gate;
use crate::plans::join_plans;
use crate::working::{Batch, Work, run_worker};
use he_addr::Memory;
use he_board::{Board, Pass};
use he_timeline::Timeline;
use std::alloc::Allocator;
use std::thread;
use std::thread::Threads;

// A range of a batch's workers: `count` of all `workers`, from `first` on.
#[derive(Clone, Copy)]
pub(crate) struct Range {
    pub(crate) first: usize,
    pub(crate) count: usize,
    pub(crate) workers: usize,
}

// Runs these workers: a single one on the calling thread, more as two halves that run at once. The pass is returned
// with all its parts, even if an allocation fails.
#[cycle(workers)]
pub(crate) fn run_range<R: Threads + Sync, A: Allocator + Copy + Send + Sync, G: Gate + Sync>(
    rt: &R,
    alloc: A,
    timelines: &[Timeline<A>],
    firsts: &[usize],
    board: &Board<A>,
    gate: &G,
    pass: Pass,
    range: Range,
) -> (Pass, Result<Work<A>, Memory>)
    requires ready { IsReady timelines.now firsts.now board.now }
    requires range { MayRun board.now pass range }
    ensures done { IsDone board.now timelines.now (notes pass).parts result.0 }
    ensures worked { IfOk result.1 (λ work. IsWorked timelines.now (notes result.0) work.done.items work.plans.items) }
{
    if range.count == 1 {
        let batch = Batch {
            alloc,
            timelines,
            firsts,
            board,
            gate,
        };
        return run_worker(&batch, pass, range.first, range.workers);
    }
    let half = range.count / 2;
    let near = Range {
        first: range.first,
        count: range.count - half,
        workers: range.workers,
    };
    let far = Range {
        first: range.first + near.count,
        count: half,
        workers: range.workers,
    };
    let (p, q) = board.fork(pass);
    let (left, right) = run_halves(rt, alloc, timelines, firsts, board, gate, p, near, q, far);
    join_halves(board, left, right)
}

// Runs two ranges of workers at once, each with its pass.
#[cycle(workers)]
fn run_halves<R: Threads + Sync, A: Allocator + Copy + Send + Sync, G: Gate + Sync>(
    rt: &R,
    alloc: A,
    timelines: &[Timeline<A>],
    firsts: &[usize],
    board: &Board<A>,
    gate: &G,
    p: Pass,
    near: Range,
    q: Pass,
    far: Range,
) -> (
    (Pass, Result<Work<A>, Memory>),
    (Pass, Result<Work<A>, Memory>),
)
    requires ready { IsReady timelines.now firsts.now board.now }
    requires near { MayRun board.now p near }
    requires far { MayRun board.now q far }
    requires some { (1 ≤ near.count) × (1 ≤ far.count) }
    ensures first { IsDone board.now timelines.now (notes p).parts result.0.0 }
    ensures first_worked { IfOk result.0.1 (λ work. IsWorked timelines.now
        (notes result.0.0) work.done.items work.plans.items) }
    ensures second { IsDone board.now timelines.now (notes q).parts result.1.0 }
    ensures second_worked { IfOk result.1.1 (λ work. IsWorked timelines.now
        (notes result.1.0) work.done.items work.plans.items) }
{
    thread::join(
        rt,
        move || -> (Pass, Result<Work<A>, Memory>)
            requires { IsSync R.row × IsSend A.row × IsSync A.row × IsSync G.row
                × Frees A.Allocator A.dealloc_token × IsReady timelines.now firsts.now board.now
                × MayRun board.now p near }
            ensures { IsDone board.entry.now timelines.entry.now (notes p).parts result.0
                × IfOk result.1 (λ work. IsWorked timelines.entry.now
                (notes result.0) work.done.items work.plans.items) }
        { run_range(rt, alloc, timelines, firsts, board, gate, p, near) },
        move || -> (Pass, Result<Work<A>, Memory>)
            requires { IsSync R.row × IsSend A.row × IsSync A.row × IsSync G.row
                × Frees A.Allocator A.dealloc_token × IsReady timelines.now firsts.now board.now
                × MayRun board.now q far }
            ensures { IsDone board.entry.now timelines.entry.now (notes q).parts result.0
                × IfOk result.1 (λ work. IsWorked timelines.entry.now
                (notes result.0) work.done.items work.plans.items) }
        { run_range(rt, alloc, timelines, firsts, board, gate, q, far) },
    )
}

// The results of both halves, with one pass.
fn join_halves<A: Allocator>(
    board: &Board<A>,
    left: (Pass, Result<Work<A>, Memory>),
    right: (Pass, Result<Work<A>, Memory>),
) -> (Pass, Result<Work<A>, Memory>)
    requires own { IsPassOf board.now left.0 × IsPassOf board.now right.0 }
    ensures own { IsPassOf board.now result.0 }
    ensures parts { (notes result.0).parts ≡ (notes left.0).parts + (notes right.0).parts }
    ensures real { (races : List Race) → All (IsOfSuccess races) (notes left.0).offers
        → All (IsOfSuccess races) (notes right.0).offers → All (IsOfSuccess races) (notes result.0).offers }
    ensures worked { (races : List Race) → IfOk left.1 (λ work. IsWorked races
        (notes left.0) work.done.items work.plans.items) → IfOk right.1 (λ work. IsWorked races
        (notes right.0) work.done.items work.plans.items) → IfOk result.1 (λ work. IsWorked races
        (notes result.0) work.done.items work.plans.items) }
{
    let (p, first) = left;
    let (q, second) = right;
    let pass = board.rejoin(p, q);
    (pass, join_work(first, second))
}

// The results of both halves, if neither failed.
fn join_work<A: Allocator>(
    first: Result<Work<A>, Memory>,
    second: Result<Work<A>, Memory>,
) -> Result<Work<A>, Memory>
    ensures { (races : List Race) (v w u : View) → u ≡ joined v w
        → IfOk first (λ work. IsWorked races v work.done.items work.plans.items)
        → IfOk second (λ work. IsWorked races w work.done.items work.plans.items)
        → IfOk result (λ work. IsWorked races u work.done.items work.plans.items) }
{
    let mut work = first?;
    let mut other = second?;
    work.done.append(&mut other.done)?;
    join_plans(&mut work.plans, &mut other.plans);
    Ok(work)
}
