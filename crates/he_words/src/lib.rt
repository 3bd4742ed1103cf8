//! Words, numbers and faults of timeline texts, shared by the code that reads them and the code that writes them.
//!
//! Each line of a race after the first one begins with a [`Word`]. `set` is followed by the [`Name`] of a setting.
//! The first line has the [`Version`]. [`TextFault`] is the first fault of a text: its line, counted from 1, and its
//! kind.
//!
//! Proved: words are read and spelled as `specs/Words` defines, and the constants of `limits` are those of
//! `specs/Ranges` (`laws::ranges`).
#![tactic(auto)]

pub mod fault;
pub mod laws;
pub mod limits;
pub mod words;

pub use fault::{TextFault, TextKind};
pub use limits::{LINE_END, TOKEN_END};
pub use words::{Name, Version, Word};
