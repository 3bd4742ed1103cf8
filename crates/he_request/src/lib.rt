//! The words of a command line of the program `he`, which become a request that can be run, or a refusal.
//!
//! [`read_words`] answers a request with every number in its range, no two options that exclude each other, and the
//! files, settings and the port as the line has them; or why the line is refused, which may be the help that it asks
//! for. It reads no file: the name of a service stays one. What a request asks for is done by `he_command`. A file of
//! the name of each command has its words, its help, and what a line asks for by them; those of `he proxy` are in
//! `he_proxy_request`. Options that several commands have are those of `he_options`.
//!
//! Proved, by what clap found of the words:
//!
//! - The numbers of a request are in their ranges ([`read_words`]).
//! - What each part of a line asks for (`specs/Requests`): the files and the settings, the rows of a comparison, the
//!   workers, what is written of each race, the file of a page; the port, the families, and the flags; the host of a
//!   connection and how long it waits. The rounds of `he probe`, and its times in their ranges (`specs/Probes`).
//!
//! Only tested: which words clap takes, that a request has what its part of the line asks for, and what help and
//! faults say.
#![tactic(auto)]

mod check;
mod compare;
pub mod connect;
mod draw;
mod explain;
pub mod host;
pub mod live;
mod meant;
pub mod names;
mod order;
pub mod probe;
mod replay;
pub mod request;
mod summary;
pub mod terminal;

pub use connect::Connection;
pub use he_proxy_request::{Listen, Proxy, SessionLog, SixUse, listen};
pub use host::Host;
pub use live::Live;
pub use names::Names;
pub use probe::{Probe, ProbeForm};
pub use request::{Request, read_words, takes_text};
pub use terminal::Terminal;
