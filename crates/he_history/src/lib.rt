//! The past of a proxy: the records of its races, a page of the last ones, and the history of addresses.
//!
//! [`Records`] keeps each race in its own file and removes the oldest above a limit. [`Recent`] has the last hundred
//! races, for the page at `GET /`. [`KnownAddresses`] has the history of addresses from earlier races (RFC 8305
//! section 4), with its file (`he_cache`). [`given_up_at`] is the record of a race whose client left. A failed write
//! is noted with its [`Cause`], and reported once ([`Trouble`]).
//!
//! Proved: the record of a race whose client left has the tick at which it was given up as its limit, and replays to
//! the attempts that were made (`specs/GivenUp`). A race's result for an address is the time from the start of its
//! attempt to the connection, or that it failed or was silent (`specs/Known`). Adding its history doesn't change an
//! address.
//!
//! Tested only: which address has which history, and its file; that a record is written to its file, the files'
//! names, and that the oldest are removed; the page.
#![tactic(auto)]

pub mod cause;
pub mod giving_up;
pub mod known;
pub mod recent;
pub mod record;
mod stamp;
pub mod trouble;

pub use cause::Cause;
pub use giving_up::{GivenUp, given_up_at};
pub use known::{KnownAddresses, KnownAtStart, Learnt};
pub use recent::{PAGE_RACES, Recent, Shown};
pub use record::{RecordName, Records};
pub use stamp::{second_now, stamp_now, stamp_of};
pub use trouble::Trouble;
