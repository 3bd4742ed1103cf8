//! Reports of a batch while its workers run.

/// Receives the events of each worker of a batch. The workers, counted from 0, share it.
pub trait Gate {
    /// The worker has taken the job, and has not begun to plan or run it.
    fn before(&self, worker: usize, job: usize);

    /// The worker has made the plan of the race, for a job of it that it has taken. The default does nothing.
    fn planned(&self, _worker: usize, _race: usize) {}

    /// The worker runs no attempt for a job that it has taken: the attempt starts at or after the tick of the best
    /// offer so far, or the plan has none at the job's place. The default does nothing.
    fn skipped(&self, _worker: usize, _job: usize) {}
}

/// A gate that does nothing.
#[derive(Drop)]
pub struct NoGate;

impl Gate for NoGate {
    fn before(&self, _worker: usize, _job: usize) {}
}
