//! A pool of workers that share the attempts of many races.
//!
//! [`replay_batch`] returns the transcript of each race of a batch. The jobs of the batch, one for each address that
//! a race may try ([`batch_jobs`]), are on a board (`he_board`), from which workers take them, each in a thread of
//! its own. No job is assigned in advance, and no worker waits for another. A [`Gate`] is called for each job before
//! its work begins, for each plan that a worker makes and for each job that it skips; [`NoGate`] ignores these calls.
//!
//! Proved, for every number of workers and every order of their steps (`specs/Batch`): the pass is returned with all
//! its parts, even if an allocation fails; each of its offers is a success of that race; and if the batch is done,
//! the pass has taken each job of the batch, once, and no other, the least offer of a race is its winner or there is
//! neither, and the transcripts are those of the races (`he_plan`: `specs/Transcript`).
//!
//! The proof uses two facts, in contracts of private functions:
//!
//! - *Skipped attempts start at or after the win*, and *the attempts returned are the race's*: `tell`
//!   (`src/settling.rt`) requires both, by `AreTold` of `he_plan`, of the plan and the fates that workers returned,
//!   as `transcript_of_fates` does.
//! - A worker (`run_worker` in `src/working.rt`: `IsWorked`) returns, for each job that it took, the attempt's own
//!   fate, or Skipped if it starts at or after the tick of a value that the worker looked at (`run_attempt` in
//!   `src/attempting.rt`, clause `honest`), and the plans of races (`plan_of`, clause `are`). No value that any
//!   worker looked at is below the winner's (`Board::winner`, clause `below`).
//!
//! Also proved for a worker: it skips an attempt that starts at or after the tick of the least value that it has
//! looked at (`run_attempt`, clause `skips`), and it makes no plan twice (`plan_of`, clause `once`).
//!
//! Only tested, in the crate `he_replay_tests`: that the requested number of workers run at the same time, that no
//! job is assigned in advance, that no worker stops because another's allocation failed, that no race is planned
//! before a job of it is taken, and that the gate is called once for each job, for each plan and for each skip.
//! Neither proved nor tested: any speed.
#![tactic(auto)]

mod attempting;
pub mod batching;
pub mod gate;
pub mod jobs;
pub mod laws;
pub mod limits;
mod plans;
mod pool;
mod settling;
mod working;

pub use batching::replay_batch;
pub use gate::{Gate, NoGate};
pub use jobs::batch_jobs;
