//! The race for a connection to a host by RFC 8305, as in `he connect`.
//!
//! [`race`] sets the race up (`he_setup`), looks up the host's addresses (`he_resolver`) and races them at once
//! (`he_live`), each family's as soon as they are known. It returns the race's record, its story, a report if nothing
//! connected, and the connection. The caller keeps the record and relays.
//!
//! # What is proved
//!
//! - The race starts as `he_setup` sets it up. The returned text is the record of a race that started like this, kept
//!   its start, and replays to its transcript; the story, if requested, is that of this record and its record lines.
//!   Before the race the text has record lines: the requested host and port, an attempt for each failed one of the
//!   transcript whose reason is known, and a look-up only for a family whose answer is empty. It reads back as the
//!   race with these lines (`AreTextsOf` in `specs/Recorded`). There is a connection exactly if the race was won; it
//!   was made to the address of the winning line and the port and, if that address is a link-local one, over the
//!   interface in the host's text (`IsRun` in `specs/Races`).
//! - Each answer of that record that the race did not start with has, if name servers are asked, the family's
//!   addresses in a message's answer for a name to query for the host; if the host's addresses are known, those; or
//!   none (`specs/Origins`).
//! - On a machine with only IPv6 a race may embed IPv4 hosts (RFC 8305 section 7). Its answer has the host's IPv6
//!   addresses; or, if the look-up of these says that there are none or no such name, its IPv4 addresses, embedded by
//!   the prefixes (`he_nat64`) that the answer for `ipv4only.arpa.` shows; or none (`specs/Embedded`).
//!
//! All this holds if the calls return: they wait for the system.
//!
//! Tested only: the time, the reasons of attempts and of look-ups, and the name servers in record lines, since they
//! are noted in cells that the race shares; which addresses are found, that it connects, and when; the text of the
//! report and of each step; the sources that the kernel selects, and their report; to which hosts the kernel has a
//! way, so that they are not embedded.
#![tactic(auto)]

pub mod answering;
pub mod embedded;
mod kernel;
pub mod lookups;
pub mod racing;
pub mod telling;
mod tried;

pub use answering::RaceAnswers;
pub use embedded::EmbeddedAnswers;
pub use lookups::{EmbeddedLookups, RaceLookups, look_up};
pub use racing::{FinishedRace, race};
pub use telling::Telling;
