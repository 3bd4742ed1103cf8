//! The answers for the races of a proxy (`he_proxy`): look-ups that are shared and kept, and the prefixes of a NAT64.
//!
//! [`answers_of`] are the answers of a race that `he_setup` set up: of name servers, or of an earlier look-up of the
//! host, whose TTL is not over (`he_kept`). If another race looks the host up, this one waits for its answers. Each
//! address comes with its history (`he_history`). On a machine with only IPv6, a host without IPv6 addresses is
//! reached through the network's NAT64 (RFC 8305 section 7).
//!
//! # What is proved
//!
//! - The source begins for the request (`IsSourceFor` in `specs/Answers`). On a machine with only IPv6 it may embed
//!   IPv4 hosts, as in `he_setup`: only if IPv6 and this machine's lines are requested. Then it answers with the
//!   host's IPv6 addresses; or, if there are none, with its IPv4 addresses, embedded by the prefixes that the answer
//!   for `ipv4only.arpa.` shows; or with none.
//! - A look-up's answer is cached for the race's own host and family, with its addresses or its reason that there are
//!   none, and its TTL (`to_keep`). A cached answer that a race gets was cached for its own host and family
//!   (`IsKeptFor` in `specs/Kept`), by a look-up less than its TTL ago (`he_kept`).
//! - A running race gets its look-up's answers or, if another race does the host's look-up, addresses with the lines
//!   that the look-up would give them, or none; the history of addresses changes neither them nor the lines
//!   (`specs/Sources`).
//! - A pending source has registered for what it waits for, or asked to be polled again.
//!
//! Tested only: that the prefixes are cached, that the reason for no address is noted, and when a look-up is counted.
#![tactic(auto)]

pub mod answering;
pub mod lookups;
pub mod source;
pub mod system;

pub use answering::{SessionAnswers, answers_of};
pub use source::Earlier;
pub use system::RaceSystem;
