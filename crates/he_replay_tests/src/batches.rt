// Batches of four races: the jobs, plans and skips that the gate is called for, that workers run at the same time,
// the state of the pass at the end, and the result and the work done if memory is refused. And batches of other
// sizes.
ghost use Rattle.std.specs.Prelude.{◌≡◌};
ghost use Rattle.he_board.specs.declared.limits.TheConstants.{PARTS};
ghost use Rattle.he_board.specs.Passes.{IsPassOf, jobs_of, notes, races_of};

use crate::gates::{Held, Holding};
use crate::tally::Tally;
use he_addr::Memory;
use he_board::{Board, PARTS, Pass};
use he_plan::Transcript;
use he_reading::read_race;
use he_replay::limits::MOST_RACES;
use he_replay::{batch_jobs, replay_batch};
use he_timeline::Timeline;
use he_write::write_transcript;
use refusing::{Refusing, each_growth_refused};
use std::alloc::{Allocator, Global};
use std::sync::atomic::Ordering;
use std::test::Fail;
use std::thread::Threads;

static TEXT: &[u8] = b"race 1
source 2001:db8::2/64 1
source 192.0.2.2/24 1
route ::/0 1
route 0.0.0.0/0 1
aaaa 20 2001:db8:1::1
a 25 198.51.100.1
connect 2001:db8:1::1 ok 35
end
race 1
source 2001:db8::2/64 1
source 192.0.2.2/24 1
route ::/0 1
route 0.0.0.0/0 1
aaaa 20 2001:db8:1::1
a 20 198.51.100.1
connect 2001:db8:1::1 ok 300
connect 198.51.100.1 ok 50
end
race 1
source 2001:db8::2/64 1
source 192.0.2.2/24 1
route ::/0 1
route 0.0.0.0/0 1
aaaa 20 2001:db8:1::1
a 20 198.51.100.1
connect 2001:db8:1::1 ok 250
connect 198.51.100.1 ok 50
end
race 1
set count 2
set limit 2000
source 2001:db8::2/64 1
source 192.0.2.2/24 1
route ::/0 1
route 0.0.0.0/0 1
aaaa 20 2001:db8:1::1 2001:db8:1::2 2001:db8:1::3
a 20 198.51.100.1 198.51.100.2
end
";

static TRANSCRIPTS: &[u8] = b"attempt 0 20 2001:db8:1::1 won 55
won 0 55
attempt 0 20 2001:db8:1::1 won 320
attempt 1 270 198.51.100.1 cancelled 320
won 0 320
attempt 0 20 2001:db8:1::1 won 270
won 0 270
attempt 0 20 2001:db8:1::1 cancelled 2000
attempt 1 270 2001:db8:1::2 cancelled 2000
attempt 2 520 198.51.100.1 cancelled 2000
attempt 3 770 2001:db8:1::3 cancelled 2000
attempt 4 1020 198.51.100.2 cancelled 2000
limit 2000
";

// The jobs of the board, more than the batch has, and its races.
const JOBS: usize = 2_048;

const RACES: usize = 4;

// The most turns for which a gate holds a worker: tens of seconds, enough for another one to run on a busy machine.
const TURNS: u64 = 50_000_000;

// `count` races: the four of the text, again and again.
fn timelines_of<A: Allocator + Copy>(alloc: A, count: usize) -> Option<Vec<Timeline<A>, A>> {
    let mut timelines = Vec::new(alloc);
    let mut from = 0;
    for _ in 0..count {
        from = append_race(alloc, from % TEXT.len(), &mut timelines)?;
    }
    Some(timelines)
}

// Appends the race that begins at the place, and returns the place after it.
fn append_race<A: Allocator + Copy>(
    alloc: A,
    from: usize,
    timelines: &mut Vec<Timeline<A>, A>,
) -> Option<usize> {
    if from > TEXT.len() {
        return None;
    }
    let (timeline, end) = read_race(alloc, TEXT, from).ok()??;
    timelines.push(timeline).ok()?;
    Some(end)
}

// The end of a batch: whether it was done, whether its transcripts are right, and the state of the pass and the board
// after it.
#[derive(Clone, Copy, Debug, PartialEq, Eq)]
struct Ended {
    is_done: bool,
    is_right: bool,
    parts: u32,
    winners: [Option<(u64, usize)>; RACES],
    // The number of taken jobs, from 0 on.
    taken: usize,
}

const DONE: Ended = Ended {
    is_done: true,
    is_right: true,
    parts: PARTS,
    winners: [Some((55, 0)), Some((320, 0)), Some((270, 0)), None],
    taken: 11,
};

// Runs the batch of the four races with `workers` workers. None if the allocator has refused before the batch began.
fn run<R: Threads + Sync, A: Allocator + Copy + Send + Sync>(
    rt: &R,
    alloc: A,
    workers: u16,
    gate: &Holding<'_>,
) -> Option<Ended> {
    let timelines = timelines_of(alloc, RACES)?;
    run_timelines(rt, alloc, &timelines, workers, gate)
}

fn run_timelines<R: Threads + Sync, A: Allocator + Copy + Send + Sync>(
    rt: &R,
    alloc: A,
    timelines: &[Timeline<A>],
    workers: u16,
    gate: &Holding<'_>,
) -> Option<Ended> {
    if timelines.len() != RACES || batch_jobs(timelines) > JOBS || workers < 1 || workers > 64 {
        return None;
    }
    let Ok((board, pass)) = Board::new(alloc, JOBS, RACES) else {
        return None;
    };
    let (pass, result) = replay_batch(rt, alloc, timelines, &board, pass, workers, gate);
    let is_done = result.is_ok();
    let is_right = is_written(alloc, result);
    Some(look(&board, pass, is_done, is_right))
}

// Whether the texts of the transcripts are those of the four races.
fn is_written<A: Allocator + Copy>(alloc: A, told: Result<Vec<Transcript<A>, A>, Memory>) -> bool {
    match told {
        Ok(transcripts) => are_written(alloc, &transcripts),
        Err(_) => false,
    }
}

fn are_written<A: Allocator + Copy>(alloc: A, transcripts: &[Transcript<A>]) -> bool {
    let mut written = Vec::new(alloc);
    let mut is_whole = true;
    for transcript in transcripts {
        is_whole = is_whole && write_transcript(transcript, &mut written).is_ok();
    }
    is_whole && written.as_slice() == TRANSCRIPTS
}

// The state of the pass and the board.
fn look<A: Allocator>(board: &Board<A>, pass: Pass, is_done: bool, is_right: bool) -> Ended
    requires own { IsPassOf board.now pass }
    requires parts { (notes pass).parts ≡ PARTS }
    requires races { races_of board.now ≡ RACES }
    requires jobs { jobs_of board.now ≡ JOBS }
{
    let mut pass = pass;
    let parts = pass.parts();
    let winners = [
        board.winner(&mut pass, 0),
        board.winner(&mut pass, 1),
        board.winner(&mut pass, 2),
        board.winner(&mut pass, 3),
    ];
    Ended {
        is_done,
        is_right,
        parts,
        winners,
        taken: first_free(board, &mut pass),
    }
}

// The first job that is not taken.
fn first_free<A: Allocator>(board: &Board<A>, pass: &mut Pass) -> usize
    requires own { IsPassOf board.now pass.old }
    requires jobs { jobs_of board.now ≡ JOBS }
{
    for job in 0..JOBS {
        if board.take(pass, job) {
            return job;
        }
    }
    JOBS
}

// The workers; whom the gate holds; until this number of jobs has begun; for at most this number of turns; and the
// least number of jobs that must be skipped: both late ones if one worker does all.
static BATCHES: [(u16, Held, u64, u64, u64); 9] = [
    (1, Held::Nobody, 0, 0, 2),
    (2, Held::Nobody, 0, 0, 0),
    (7, Held::Nobody, 0, 0, 0),
    (64, Held::Nobody, 0, 0, 0),
    // In either order, one of two workers waits for the other: they run at the same time.
    (2, Held::Worker(0), 1, TURNS, 0),
    (2, Held::Worker(1), 1, TURNS, 0),
    // One worker does all jobs but the first, which another holds: no job is assigned beforehand.
    (2, Held::Job(0), 10, TURNS, 1),
    (7, Held::Job(10), 10, TURNS, 0),
    // Some workers are slow.
    (7, Held::Odd, 1_000, 1_000, 0),
];

#[test]
fn batches_end_right(rt: HostRuntime) -> Result<(), Fail> {
    let heap = Refusing::new(rt.alloc());
    for (workers, held, jobs, turns, skips) in &BATCHES {
        let tally = Tally::new(rt.alloc(), RACES, DONE.taken)?;
        let gate = Holding::new(*held, *jobs, *turns, &heap, tally);
        let ended = run(&rt, rt.alloc(), *workers, &gate);
        let is_slow = *jobs > 10;
        let is_in_vain = gate.vain.load(Ordering::SeqCst) > 0;
        assert_eq!(rt; (ended, is_in_vain && !is_slow), (Some(DONE), false));
        assert!(rt; gate.tally.has_each_job() && gate.tally.is_right());
        assert!(rt; gate.tally.skips() >= *skips);
    }
    Ok(())
}

// Whether a batch whose allocator may refuse ended right, or memory was refused and the pass is whole. In the latter
// case no job was taken, since no worker had begun; or each was, since the other of two workers went on to its end.
fn is_refused_well(ended: Option<Ended>, workers: u16, tally: &Tally) -> bool {
    match ended {
        Some(ended) => {
            let is_taken = tally.has_each_job() && ended.taken == DONE.taken;
            let is_well = workers == 1 || tally.is_empty() || is_taken;
            ended == DONE || ended.parts == PARTS && is_well
        }
        None => true,
    }
}

#[test]
fn refused_workers_hand_back_their_pass(rt: HostRuntime) {
    let heap = Refusing::new(rt.alloc());
    for workers in [1, 2] {
        let mut untold: u64 = 0;
        let refused = each_growth_refused(&heap, || {
            let Ok(tally) = Tally::new(rt.alloc(), RACES, DONE.taken) else {
                assert!(rt; false, "memory is granted");
                return;
            };
            // The second worker waits until the first one was refused.
            let gate = Holding::new(Held::Worker(1), 10, TURNS, &heap, tally);
            let ended = run(&rt, &heap, workers, &gate);
            assert!(rt; is_refused_well(ended, workers, &gate.tally));
            assert!(rt; ended == Some(DONE) || heap.has_refused());
            if ended.is_some() && gate.tally.is_empty() {
                untold = untold.saturating_add(1);
            }
        });
        assert!(rt; refused > 10);
        // No race is planned before the first job is taken: each plan grows.
        assert!(rt; untold < RACES as u64);
    }
}

// Batches: their races, which are the four again and again, their jobs, the number of these that start too late to
// run if one worker does all, and the workers.
static SIZES: [(usize, usize, u64, u16); 8] = [
    (0, 0, 0, 1),
    (0, 0, 0, 7),
    (1, 2, 1, 1),
    (1, 2, 1, 7),
    (64, 176, 32, 7),
    (64, 176, 32, 64),
    (1_024, 2_816, 512, 1),
    (1_024, 2_816, 512, 7),
];

#[test]
fn batches_of_any_size(rt: HostRuntime) -> Result<(), Fail> {
    let heap = Refusing::new(rt.alloc());
    for (races, jobs, late, workers) in &SIZES {
        let tally = Tally::new(rt.alloc(), *races, *jobs)?;
        // All workers for which there is a job run at the same time.
        let begun = (*workers as u64).min(*jobs as u64);
        let gate = Holding::new(Held::Each, begun, TURNS, &heap, tally);
        let is_right = run_batch(&rt, rt.alloc(), *races, *workers, &gate);
        assert_eq!(rt;
            (*races, *workers, is_right),
            (*races, *workers, Some(true))
        );
        assert!(rt; gate.vain.load(Ordering::SeqCst) == 0);
        assert!(rt; gate.tally.has_each_job() && gate.tally.is_right());
        let skips = gate.tally.skips();
        assert!(rt; skips == *late || *workers > 1 && skips < *late);
    }
    Ok(())
}

// Whether a batch of `races` races is done and right.
fn run_batch<R: Threads + Sync>(
    rt: &R,
    alloc: Global,
    races: usize,
    workers: u16,
    gate: &Holding<'_>,
) -> Option<bool> {
    let timelines = timelines_of(alloc, races)?;
    if timelines.len() > MOST_RACES || workers < 1 || workers > 64 {
        return None;
    }
    let Ok((board, pass)) = Board::new(alloc, batch_jobs(&timelines), timelines.len()) else {
        return None;
    };
    let (_, told) = replay_batch(rt, alloc, &timelines, &board, pass, workers, gate);
    Some(are_repeated(alloc, told, races))
}

// Whether these are `size` transcripts: those of the four races, again and again.
fn are_repeated(alloc: Global, told: Result<Vec<Transcript>, Memory>, size: usize) -> bool {
    let Ok(transcripts) = told else {
        return false;
    };
    let mut written = Vec::new(alloc);
    for transcript in &transcripts {
        if write_transcript(transcript, &mut written).is_err() {
            return false;
        }
    }
    transcripts.len() == size
        && written
            .chunks(TRANSCRIPTS.len())
            .all(|chunk| TRANSCRIPTS.starts_with(chunk))
}
