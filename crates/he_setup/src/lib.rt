//! A connection's race before its start, and the answers that it gets for its host.
//!
//! [`set_up_any`] reads the request: the families to try, the addresses that are known without queries, and the
//! sources, routes and policy rows of this machine or of a file. [`HostAnswers`] are the race's answers: those of a
//! look-up (`he_resolver`), with the sources that the kernel selects for them (`he_kernel`). [`facts_for`] are the
//! facts of the race that its record has. `he_connect`, `he_probing` and `he_proxy` race with these.
//!
//! # What is proved
//!
//! - The race starts as from [`start_race`](start::start_race): with the settings, the lines' machine and policy, and
//!   an empty answer for a family that isn't tried (`specs/Start`). The families are the requested ones, or one of
//!   both (`IsSetUp` in `specs/Races`).
//! - On a machine with only IPv6 a race may embed IPv4 hosts (RFC 8305 section 7), but not with `-4`, and only with
//!   this machine's lines. Only IPv6 is tried then. Hosts are embedded by the prefixes (`he_nat64`) that addresses of
//!   `ipv4only.arpa.` show (`specs/Embedding`).
//! - The race gets the look-up's answer for each family; where this machine's lines come with it, those for the
//!   kernel's answers for its first 32 addresses (`IsToldOf` in `specs/Answers`).
//! - A record has a look-up only for a family whose answer is empty, with its reason (`specs/Recorded`).
//!
//! Tested only: which lines are read, for which families this machine has a way, and the words of reports.
#![tactic(auto)]

pub mod embedding;
pub mod families;
pub mod fault;
pub mod lines;
pub mod recorded;
pub mod request;
pub mod setup;
pub mod source;
pub mod start;
pub mod synthesis;
pub mod translated;
pub mod watching;

pub use embedding::set_up_any;
pub use fault::{ConnectFault, ReadError};
pub use lines::read_lines;
pub use recorded::{KnownFacts, facts_for, facts_of};
pub use request::{ConnectRequest, Families, Lines};
pub use setup::{Setup, set_up};
pub use source::{FamilyFaults, HostAnswers, LookupFaults, OwnMachine};
pub use start::start_race;
pub use translated::{Nat64, embedded_host, is_by_nat64, nat64_prefixes, write_untranslated};
pub use watching::LookupWatcher;
