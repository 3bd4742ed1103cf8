//! The answers of name servers that the races of a proxy share: those kept, and those being requested.
//!
//! [`KeptAnswers::keep`] keeps the result of a look-up for a family of a host, with its TTL: the addresses, or why
//! there are none. [`KeptAnswers::known_of`] returns it to other races for the host until that time is over, and
//! [`KeptAnswers::asked`] reports whether a race is asking for it now, so that others can wait.
//!
//! # What is proved
//!
//! For any sequence of answers kept and requested, an answer returned for a host was kept, for that host and family,
//! less than its TTL ago, and is unchanged: its addresses, or the reason that there are none ([`KeptTable`];
//! `Explains`, `Serves` and `IsOfPast` in `specs`). The answers of other hosts are unchanged, as far as `he_cache`
//! proves it. The races share the table in a cell, whose content no contract can describe. So each returned answer
//! contains its host, the second in which it was kept and its TTL, and each question contains its host: both are
//! proved to be those of the request.
//!
//! Only tested: that a kept answer is returned, and that waiting races are woken.
#![tactic(auto)]

pub mod answer;
pub mod kept;
pub mod table;

pub use answer::{KeptAnswer, KeptHost, Lifetime, Question, copy_of};
pub use kept::{Asking, KeptAnswers};
pub use table::KeptTable;
