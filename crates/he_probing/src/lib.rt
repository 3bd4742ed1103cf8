//! A round of probes of a host, as in `he probe`: each of its addresses is connected to, and the round is judged by
//! what a client by RFC 8305 loses.
//!
//! [`run_round`] looks up the host's addresses, both families to their end, as `he connect` does (`he_connect`), puts
//! them in the order of preference (RFC 6724 section 6, RFC 8305 section 4), connects to each (`he_probe`) and returns
//! a [`Round`]: a row for each address, the record, the course of the race that a client has by it, and the
//! [`Verdict`]. [`table`], [`object`] and [`metrics`] write a round; [`totals_table`] counts the rows of several.
//!
//! The record is a timeline with all outcomes: the answers at their ticks, this machine's lines, the outcome of each
//! address, no pauses, and a limit of at most the time of an attempt. An address without an answer in that time has no
//! outcome. So a replay with other settings is the race that a client with these settings has.
//!
//! # What is proved
//!
//! - The record is the host's answers with the outcomes of the rows and no pauses. It keeps its start, which is that
//!   of the race of `he connect`; each new answer has the origin that those of `he connect` have; its limit is at most
//!   the time of an attempt. The rows are the addresses of the record in the order of preference (`specs/Rounds`).
//! - The text of the record reads back as this timeline with record lines: the requested host and port, and an attempt
//!   for each row that failed, for its reason, and for no other (`specs/Recorded`).
//! - The attempts start at the requested pace and have the requested time (`probe_of`; `probe_on` of `he_live`).
//! - The verdict is the first that fits, by the rows and the course of the record (`specs/Verdicts`). The fastest
//!   address is one with the least tick of its answer and connection (`specs/Fastest`).
//! - The JSON object and the line of the verdict have the texts of `specs/Json` and `specs/Texts`.
//!
//! All this holds if the calls return: they wait for the system.
//!
//! Tested only: that no address has two rows; the table, the metrics and the counts of several rounds; the reasons of
//! failures, the time, and what is tested only in `he_setup`, `he_connect` and `he_live`.
#![tactic(auto)]

mod columns;
pub mod counting;
pub mod exposition;
pub mod fastest;
pub mod json;
pub mod outcomes;
pub mod recorded;
pub mod request;
pub mod round;
pub mod rows;
mod shown;
pub mod tables;
pub mod totals;
pub mod verdict;

pub use counting::count_connected;
pub use exposition::metrics;
pub use fastest::Fastest;
pub use json::object;
pub use request::RoundRequest;
pub use round::{Round, run_round};
pub use rows::AddressRow;
pub use tables::{heading_of, table, verdict_line};
pub use totals::totals_table;
pub use verdict::Verdict;
