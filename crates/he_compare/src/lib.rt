//! Comparisons: races with their own and with other settings.
//!
//! The races are those that he_summary keeps ([`Races`](he_totals::Races)), each with its own settings in the first
//! row, and with changed settings in further rows. [`write_table`] writes a row for each: the times to connect, the
//! attempts per race, the share that IPv6 won, and the number of races of each verdict ([`Verdict`]). [`write_lines`]
//! writes a line for each race and row.
//!
//! ```text
//!   p50 ms  p90 ms  p99 ms  attempts       IPv6  sooner   later    same  only with  only without  unknown  settings
//!      300     300     300      2.00      0.0 %       0       0       1          0             0        0  as recorded
//!       60      60      60      2.00      0.0 %       1       0       0          0             0        0  floor=10
//! ```
//!
//! For races with their own settings [`write_groups`] writes a row, with those columns, for each file, for each hour
//! of a proxy's records, for each family that won, or for each host:
//!
//! ```text
//!   races  connected  p50 ms  p90 ms  p99 ms  attempts       IPv6  names ms   lost ms  hour
//!      12     91.7 %      45     300    1250      1.42     63.6 %       240       490  2026-11-26 16
//! ```
//!
//! [`write_worst`] writes a line on the group in which most races did not connect:
//!
//! ```text
//! worst hour: 2026-11-26 20 (20 of 21 not connected, lost 31200 ms)
//! ```
//!
//! Proved, whatever the races: the cells of a row are counted over the races that are kept for it (`specs/Rows`,
//! `specs/Verdicts`), and the line of a race has the figures of that race (`specs/Lines`). Each race is in one group,
//! and the figures of a group are counted over all its races, so sums over the groups are those over all races
//! ([`laws`]); the groups ascend, each with the label that its races' file names or winners give it, byte by byte
//! (`specs/Groups`, `specs/Hours`), and the worst is one than which none is worse (`specs/Worst`). The object of a
//! group is that of `specs/Groups`, byte for byte. With no changes the transcript of a race is the race's own
//! ([`laws`]). The words between are free.
//!
//! Not proved: that a call succeeds if memory is granted.
#![tactic(auto)]

mod group_table;
pub mod grouping;
pub mod groups;
mod hours;
pub mod laws;
pub mod lines;
pub mod row;
pub mod table;
pub mod verdict;
mod worst;

pub use group_table::write_groups;
pub use grouping::{By, Grouping};
pub use groups::Group;
pub use lines::write_lines;
pub use row::Row;
pub use table::write_table;
pub use verdict::{Finish, Verdict, Verdicts};
pub use worst::write_worst;
