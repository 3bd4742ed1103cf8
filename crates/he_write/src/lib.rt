//! Writing timelines, transcripts and orders to texts.
//!
//! Proved: [`write_timeline`], [`write_transcript`] and [`write_order`] append exactly the texts of `specs/Written`
//! and `specs/Orders`, and leave the vector unchanged if an allocation fails.
#![tactic(auto)]

pub mod orders;
pub mod timelines;
pub mod transcripts;
mod writing;

pub use orders::write_order;
pub use timelines::write_timeline;
pub use transcripts::write_transcript;
