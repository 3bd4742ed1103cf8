//! A proxy for SOCKS 5 (RFC 1928) and HTTP CONNECT (RFC 9110 section 9.3.6) that races the addresses of its clients'
//! targets by RFC 8305, and relays.
//!
//! [`serve`] listens, and runs each client's session (`he_sessions`) as one task of many in one event loop. A
//! session's race is that of `he connect`: it starts as set up by `he_setup`, its ticks are from `he_live`, and its
//! turns are those of `he_turns`. Its record is a file in the records' directory, for `he replay`. Name servers'
//! answers are shared with other races to the host: those that begin while the name servers are asked, and those
//! within the TTL (`he_source`). The history of an address counts in later races for a day (`he_history`). A race
//! whose client leaves ends at its next poll, and is recorded up to then. Each session is a line on standard error
//! (`he_log`); `GET /` is a page of the last hundred races, and `GET /proxy.pac` the proxy's auto-config file. Its
//! counts are `GET /metrics` (`he_metrics`), and `GET /healthz` says that it serves.
//!
//! # Its clients, and their reach
//!
//! The proxy serves clients of this machine, and those of the allowed networks; others are closed at once. It listens
//! at an address that is open to other machines only if a network is allowed. With a file of users, a client is served
//! only with the name and the password of one of them, also a client of this machine. No race connects to the proxy
//! itself. A client of another machine reaches no address of this machine, and only globally reachable addresses,
//! unless private ones are allowed; this holds for the addresses of names too, and for IPv4 hosts that are reached
//! through a NAT64. The kernel determines which addresses are this machine's. The rules of the request narrow what any
//! client reaches, by network, name and port.
//!
//! # What is proved
//!
//! - A session's client is one that `he_access` serves, and its race is requested with that client's address
//!   (`IsServedBy`, `IsReachOf` in `specs/Races`).
//! - An address is tried only if `he_access` allows it to the client, by the kernel's answer for it in this race
//!   ([`Reach::has`](he_loop::Reach::has)); for a client of another machine only if the kernel has a way to it. If it
//!   embeds an IPv4 host by a prefix that the proxy discovered last, `he_access` allows that host too. The connection
//!   comes with that answer and that host (`GoesTo` of he_loop). Tested: that the kernel was asked, and which host it
//!   is.
//! - The request's rules allow the address and that host, for the session's host (`Reaches` of he_loop). A race begins
//!   only if the rules could allow an address of the session's host at its port (`MayFit` of `he_access`).
//! - A race is requested with the session's host and port, and with the proxy's settings, families, lines and
//!   resolver (`AsksFor` in `specs/Races`).
//! - A session gets the connection that its race gave: the winner's address and time are those of the race's
//!   transcript, and the lost time is that of its course (`HandsOut`). That race started as `he_setup` sets one up
//!   for the host and the port, its record keeps the start and replays to its transcript, and the connection goes to
//!   the address of the winning line, which the client's races may reach (`IsWonBy`).
//! - The record of that race has the answers of a source of `he_source` that began for the request (`AnswersFor`).
//!   IPv4 hosts are embedded only if IPv6 and this machine's lines are requested.
//! - The text of a race's record has the session's host and port, its client's address, the tick at which the client
//!   left if it did, an attempt for each failed one of the transcript, and a look-up only for a family whose answer is
//!   empty. It reads back as the race with these lines (`IsRecordOf` in `specs/Recorded`).
//! - The history and log lines of a race, and the record of one that was given up, are as specified by `he_history`
//!   and `he_log`.
//! - The numbers in the documents are the program's (`specs/Limits`).
//! - A pending race has registered for what it waits for, or asked to be polled again; each session that is begun may
//!   be polled.
//!
//! All this holds if the calls return: they wait for the system.
//!
//! Tested only: that it connects, and when; the time, the reasons and the name servers in record lines; the facts in
//! the log's lines; the page; when an event is counted.
#![tactic(auto)]

pub mod counting;
pub mod fault;
pub mod keeping;
pub mod limits;
mod listening;
pub mod pages;
pub mod proxy;
pub mod race;
pub mod racer;
pub mod request;
pub mod server;
pub mod sockets;
pub mod state;
mod users;

pub use fault::ProxyFault;
pub use limits::{DEFAULT_PORT, DEFAULT_RECORDS, DEFAULT_SESSIONS};
pub use proxy::serve;
pub use request::ProxyRequest;
