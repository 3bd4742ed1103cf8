// The calls of a gate for a batch whose races are the four of `batches`, again and again.

use crate::counts::Counts;
use he_addr::Memory;
use std::alloc::Global;
use std::sync::atomic::{AtomicU64, Ordering};

// The jobs of four races, and the race of each.
pub const JOBS_OF_FOUR: usize = 11;

static RACES_OF_JOBS: [usize; JOBS_OF_FOUR] = [0, 0, 1, 1, 2, 2, 3, 3, 3, 3, 3];

// The jobs that start at or after the tick at which their race is won: both at 270, with a win at 55 and at 270.
static LATE_JOBS: [usize; 2] = [1, 5];

fn race_of(job: usize) -> usize {
    job / JOBS_OF_FOUR * 4 + RACES_OF_JOBS[job % JOBS_OF_FOUR]
}

fn is_late(job: usize) -> bool {
    LATE_JOBS.contains(&(job % JOBS_OF_FOUR))
}

#[derive(Drop)]
pub struct Tally {
    // By job, the number of calls for it as taken, and as skipped.
    taken: Counts,
    skipped: Counts,
    // By race a bit for each worker that has taken a job of it, and for each that has planned it.
    takers: Counts,
    planners: Counts,
    // The number of times a worker planned a race again, or without a job of it, or skipped a job that runs.
    wrong: AtomicU64,
}

impl Tally {
    pub fn new(alloc: Global, races: usize, jobs: usize) -> Result<Tally, Memory> {
        Ok(Tally {
            taken: Counts::new(alloc, jobs)?,
            skipped: Counts::new(alloc, jobs)?,
            takers: Counts::new(alloc, races)?,
            planners: Counts::new(alloc, races)?,
            wrong: AtomicU64::new(0),
        })
    }

    pub fn take(&self, worker: usize, job: usize) {
        self.taken.count(job);
        self.takers.mark(race_of(job), worker);
    }

    pub fn plan(&self, worker: usize, race: usize) {
        if self.planners.is_marked(race, worker) || !self.takers.is_marked(race, worker) {
            self.wrong.fetch_add(1, Ordering::SeqCst);
        }
        self.planners.mark(race, worker);
    }

    pub fn skip(&self, job: usize) {
        if self.taken.at(job) != 1 || !is_late(job) {
            self.wrong.fetch_add(1, Ordering::SeqCst);
        }
        self.skipped.count(job);
    }

    // Whether each job was taken once.
    pub fn has_each_job(&self) -> bool {
        self.taken.are_all(1)
    }

    // Whether each worker has planned the races of which it took a job, each once and after it took the first job,
    // and no other race, and only late jobs were skipped.
    pub fn is_right(&self) -> bool {
        self.takers.are(&self.planners) && self.wrong.load(Ordering::SeqCst) == 0
    }

    // The number of skips of jobs.
    pub fn skips(&self) -> u64 {
        self.skipped.sum()
    }

    pub fn is_empty(&self) -> bool {
        self.taken.sum() == 0
    }
}
