//! Batches of races, whose jobs workers take from a board.
ghost use Rattle.std.specs.Prelude.{◌≡◌, ◌≤◌, All, IfOk, length};
ghost use Rattle.std.specs.List.{AllZip};
ghost use Rattle.he_board.specs.declared.limits.TheConstants.{LEAST_WORKERS, MOST_WORKERS, PARTS, RACES};
ghost use Rattle.he_board.specs.Notes.{blank};
ghost use Rattle.he_board.specs.Passes.{IsPassOf, jobs_of, notes, races_of};
ghost use Rattle.he_plan.specs.Transcript.{IsTranscript};
ghost use Rattle.he_pool.specs.Batch.{HasTakenAll, HasWinners, IsOfSuccess, batch_jobs};

use crate::gate::Gate;
use crate::jobs::first_jobs;
use crate::limits::{LEAST_WORKERS, MOST_WORKERS};
use crate::pool::{Range, run_range};
use crate::settling::settle;
use crate::working::Batch;
use he_addr::Memory;
use he_board::{Board, Pass};
use he_plan::Transcript;
use he_timeline::Timeline;
use std::alloc::Allocator;
use std::thread::Threads;

/// Replays the races with this number of workers, which take their jobs from the board, and returns the transcripts.
///
/// A race has one job for each usable address of its answers; jobs are numbered by race, then by place. Each worker
/// tries every job once. With the first job that it takes of a race it makes the race's plan. It skips an attempt
/// that starts at or after the tick of the best offer so far; otherwise it offers the attempt's success. The gate is
/// called for each of these events but the offer.
///
/// The board must be new, with at least as many races and jobs as the batch. The pass must be the one that came with
/// it; it is returned with all its parts, even on `Memory`. Whatever the number of workers and the order of their
/// steps: each offer in its notes is a success of that race; and if the batch is done, the pass has taken each job of
/// the batch, once, and the least offer of a race is its winner, or there is neither.
///
/// # Errors
///
/// `Memory` if an allocation failed. The other workers still run to their ends.
pub fn replay_batch<R: Threads + Sync, A: Allocator + Copy + Send + Sync, G: Gate + Sync>(
    rt: &R,
    alloc: A,
    timelines: &[Timeline<A>],
    board: &Board<A>,
    pass: Pass,
    workers: u16,
    gate: &G,
) -> (Pass, Result<Vec<Transcript<A>, A>, Memory>)
    requires some { LEAST_WORKERS ≤ workers }
    requires few { workers ≤ MOST_WORKERS }
    requires most { length timelines.now ≤ RACES }
    requires races { length timelines.now ≤ races_of board.now }
    requires jobs { batch_jobs timelines.now ≤ jobs_of board.now }
    requires own { IsPassOf board.now pass }
    requires blank { notes pass ≡ blank PARTS }
    ensures own { IsPassOf board.now result.0 }
    ensures parts { (notes result.0).parts ≡ PARTS }
    ensures offers { All (IsOfSuccess timelines.now) (notes result.0).offers }
    ensures taken { IfOk result.1 (λ _. HasTakenAll timelines.now (notes result.0)) }
    ensures winners { IfOk result.1 (λ _. HasWinners timelines.now (notes result.0)) }
    ensures transcripts { IfOk result.1 (λ transcripts. AllZip IsTranscript timelines.now transcripts.items) }
{
    let firsts = match first_jobs(alloc, timelines) {
        Ok(firsts) => firsts,
        Err(_) => return (pass, Err(Memory)),
    };
    let workers = workers as usize;
    let range = Range {
        first: 0,
        count: workers,
        workers,
    };
    let (mut pass, worked) = run_range(rt, alloc, timelines, &firsts, board, gate, pass, range);
    let work = match worked {
        Ok(work) => work,
        Err(_) => return (pass, Err(Memory)),
    };
    let batch = Batch {
        alloc,
        timelines,
        firsts: &firsts,
        board,
        gate,
    };
    let result = settle(&batch, &mut pass, work);
    (pass, result)
}
