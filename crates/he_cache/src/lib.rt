//! State kept for later races: the answers of look-ups, and the history of addresses.
//!
//! [`AnswerCache::keep`] keeps the result of a look-up for a family of a host, with its TTL, and
//! [`AnswerCache::answer`] returns it until that time is over. The result may be of any type: an answer with its
//! addresses, or why there are none. Hosts are compared without regard to the case of ASCII letters (RFC 4343).
//!
//! [`History`] keeps the last connection to each address (RFC 8305 section 4), and [`write_history`] writes it as a
//! text that [`read_history`] reads.
//!
//! Proved: a returned answer is the last one kept for this host and family, and is never returned after its time
//! (`specs/Keeping.antt`); keeping another host's answer changes nothing of this one's, except that it may be
//! forgotten, and that only if the number of hosts is at its maximum. The entry of an address is its last connection;
//! a connection to another address changes nothing of it except in that way; a failed attempt forgets it and no
//! other; and it counts for a day and from the same source (`specs/Known.antt`). Its line reads back
//! (`specs/KnownText.antt`). Only tested: that invalid lines are skipped, and the order of the lines.
#![tactic(auto)]

pub mod cache;
pub mod history;
pub mod history_text;

pub use cache::AnswerCache;
pub use history::{History, Seen};
pub use history_text::{ReadHistory, read_history, write_history};
