//! Replaying races: reads texts of timelines from an input, and writes the events of each to an output; or replays a
//! batch of races in memory, whose attempts workers share.
//!
//! `he_streaming` has the former: [`replay`] writes the text that is asked for of each race ([`Content`], by a
//! [`Printer`] for a course). `he_pool` has the latter: [`replay_batch`] returns the transcripts of a batch, and
//! calls a [`Gate`] for each job. Neither uses the other. Each crate has its own proofs; here both have one name.
#![tactic(auto)]

pub use he_pool::{Gate, NoGate, batch_jobs, replay_batch};
pub use he_streaming::{
    Content, Printer, TextRequest, laws, limits, race_texts, replay, replaying,
};
