//! The story of a race, as `he explain` prints it.
//!
//! [`write_story`] writes how the race ended, how much time it lost and on what, which address or name server to check
//! if it alone took the time, and where its time went, all by its account (he_course); its addresses in order of
//! preference, each with the IPv4 host that it is by a NAT64 prefix, its source, and the rule of RFC 6724 section 6 or
//! RFC 8305 section 4 that sorts it after the one before; the events of its course, one a line; and which answers
//! never came, and how long an answer waited for an attempt. A story begins with the name of the race's file, if there
//! is one. Attempts and places are counted from 1, ticks are milliseconds. A short pause has no line: the event that
//! it held back is marked as late. If the race has record lines ([`Record`]), the story begins with its host, client
//! and time and the recorded client's own result. It has the reason of each failed look-up and attempt, and ends with
//! the name servers that were given up and the addresses that no client tried.
//!
//! Proved, for every course and record: the appended text states the facts of `specs/Story`, in that order, so each
//! event of the course has its line, with its tick, places, addresses, times and cause (`specs/Lines`); the numbers of
//! the first lines are those of the course's account (`specs/Lost`), and what is to be checked is the only address or
//! name server that took the time (`specs/Check`). If memory is refused, the vector is unchanged. he_course defines
//! the course of a race, and he_statements has all words.
//!
//! [`Record`]: he_record::Record
#![tactic(auto)]

mod check;
mod closing;
mod ends;
mod happening;
mod heading;
mod preferred;
mod recorded;
pub mod story;
mod verdict;
mod why;

pub use ends::end_said;
pub use he_statements::{Said, end_word};
pub use heading::{heading_parts, outcome_parts};
pub use story::write_story;
