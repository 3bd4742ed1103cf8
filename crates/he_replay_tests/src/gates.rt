// A gate that holds some workers until others have begun jobs, and keeps a tally of its calls.

use crate::tally::Tally;
use he_replay::Gate;
use refusing::Refusing;
use std::alloc::Global;
use std::sync::atomic::{AtomicU64, Ordering};
use std::thread;

// The workers that the gate holds until `jobs` jobs have begun: jobs of other workers, except for `Each`.
#[derive(Clone, Copy)]
pub enum Held {
    Nobody,
    // This worker.
    Worker(usize),
    // The worker that took this job.
    Job(usize),
    // Each worker of odd number.
    Odd,
    // Each worker. All jobs count, so the waiting workers run at the same time.
    Each,
}

impl Held {
    fn holds(self, worker: usize, job: usize) -> bool {
        match self {
            Held::Nobody => false,
            Held::Worker(held) => worker == held,
            Held::Job(held) => job == held,
            Held::Odd => worker % 2 == 1,
            Held::Each => true,
        }
    }

    fn counts_all(self) -> bool {
        matches!(self, Held::Each)
    }
}

// The turns that a held worker waits after another's refusal, so that the other comes to its end.
const TURNS_AFTER_REFUSAL: u64 = 1_000;

#[derive(Drop)]
pub struct Holding<'a> {
    held: Held,
    // The number of jobs that a worker waits for, and the most turns. In each turn it yields to others.
    jobs: u64,
    turns: u64,
    // The heap whose refusal ends the waiting too.
    heap: &'a Refusing<Global>,
    pub tally: Tally,
    // The number of begun jobs that count.
    begun: AtomicU64,
    // The number of times that a worker waited in vain.
    pub vain: AtomicU64,
}

impl<'a> Holding<'a> {
    pub fn new(
        held: Held,
        jobs: u64,
        turns: u64,
        heap: &'a Refusing<Global>,
        tally: Tally,
    ) -> Holding<'a> {
        Holding {
            held,
            jobs,
            turns,
            heap,
            tally,
            begun: AtomicU64::new(0),
            vain: AtomicU64::new(0),
        }
    }

    fn wait(&self) {
        for _ in 0..self.turns {
            if self.begun.load(Ordering::SeqCst) >= self.jobs {
                return;
            }
            if self.heap.has_refused() {
                wait_turns();
                return;
            }
            thread::yield_now();
        }
        self.vain.fetch_add(1, Ordering::SeqCst);
    }
}

fn wait_turns() {
    for _ in 0..TURNS_AFTER_REFUSAL {
        thread::yield_now();
    }
}

impl<'a> Gate for Holding<'a> {
    fn before(&self, worker: usize, job: usize) {
        self.tally.take(worker, job);
        let is_held = self.held.holds(worker, job);
        if !is_held || self.held.counts_all() {
            self.begun.fetch_add(1, Ordering::SeqCst);
        }
        if is_held && self.vain.load(Ordering::SeqCst) == 0 {
            self.wait();
        }
    }

    fn planned(&self, worker: usize, race: usize) {
        self.tally.plan(worker, race);
    }

    fn skipped(&self, _worker: usize, job: usize) {
        self.tally.skip(job);
    }
}
