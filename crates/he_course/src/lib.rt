//! The course of a race: all that is reported of it, made once.
//!
//! [`Course::of`] makes a [`Course`] of a timeline. It has the race's number and line, its answers as the client sees
//! them, its addresses in order of preference, each with the rule that sorts it after the one before (RFC 6724
//! section 6, RFC 8305 section 4), its transcript, how it ended and how it would have ended with the least floor, and
//! its [`Event`]s by tick (RFC 8305 sections 3 to 5): the answers, the wait for the AAAA answer, each attempt with
//! its [`Cause`] and the place of its address in the interlaced list, failures, pauses, and the end. Stories,
//! pictures and JSON texts read this value alone; summaries, which count many races, read transcripts. Its
//! [`Account`] has how many of its milliseconds each [`Owner`] has.
//!
//! Proved, for every race: the value is that of `specs/Course`, by the race's one transcript. [`laws`] has the
//! consequences: each attempt of the transcript has exactly one start and one end among the events; the cause of an
//! attempt (`specs/Causes`) comes at its tick and not before; its address is the first untried one of the interlaced
//! list (`specs/Listing`); there is a wait exactly if it delayed the first start; the events are all those up to the
//! end (`specs/Events`), by tick; exactly one rule decides between two addresses; and each tick has exactly one owner
//! (`specs/Accounts`), so the times of an account add up to the tick at which the race ended.
#![tactic(auto)]

pub mod accounts;
pub mod addresses;
pub mod cause;
pub mod collecting;
pub mod course;
pub mod delay;
pub mod events;
pub mod floor;
mod interlaced;
pub mod laws;
pub mod listing;
pub mod owners;
mod stages;

pub use accounts::{Account, Times};
pub use addresses::Preferred;
pub use cause::{Cause, cause_of, is_held};
pub use collecting::end_tick;
pub use course::{Course, Seen};
pub use delay::is_delay_over;
pub use events::{Event, EventKind, Start};
pub use floor::Ended;
pub use listing::{Listed, Turn};
pub use owners::{LEAST_PAUSE, Owner};
