//! Summaries of many races.
//!
//! The report on the races that he_totals keeps ([`Races`](he_totals::Races)): their counts, and the sums of their
//! times, in a few lines, in one JSON object or as metrics:
//!
//! ```text
//! 2000 races: 1890 connected (94.5 %), 110 not: 20 timed out, 90 all addresses failed
//! connected by IPv6: 1500 (79.4 %), IPv4: 390 (20.6 %)
//!                          median       p90       p99       max  ms
//! time to connect              45       300      1250      2950
//!   of it names                20        31       130      1040
//!   of it lost                  0       250       500       500
//! until given up             2000      2000     10000     10000
//! where the time went: names 51200 ms, lost 94000 ms, connecting 41000 ms
//! attempts: 2610, at most 6 in a race
//! slow AAAA: in 17 races (0.9 %) the IPv4 attempt started without it, after the Resolution Delay
//!   attempts    failed no answer   lost ms  address        hosts
//!        340        20       100     24200  2001:db8:1::1  www.example.com 443, mail.example.com 993
//! slowest:
//!   office.timeline:12 race 2: 2950 ms to 198.51.100.5, names 20 ms, lost 500 ms
//! ```
//!
//! If there are record lines (he_record), a text also has what they say, and an object always:
//!
//! ```text
//! the clients connected        48       315     20001     20001
//!   by RFC 8305                47       251       300       300
//! clients: 41 connected, 2 gave up
//! look-ups without an address: 7 AAAA no answer, 1 A no such name
//!   given up    failed no answer  name server
//!          7         0         7  192.0.2.77
//! ```
//!
//! Proved, whatever the inputs: the slowest races are the first of the won ones by time (`specs/Written`). An object
//! and metrics are those of `specs/Json` and `specs/Metrics`, byte for byte, up to the slowest races. A text states
//! its numbers, each with its meaning, in the order of `specs/Figures`, and the hosts of each address
//! (`specs/Written`); the words between are free.
//!
//! Not proved: that a call succeeds if memory is granted.
#![tactic(auto)]

mod addresses;
pub mod figures;
pub mod json;
mod members;
mod metrics;
pub mod text;
mod writing;

pub use figures::Form;
pub use json::write_totals;
pub use text::Said;
pub use writing::{name_of, place_parts, write, write_name};
