//! The addresses of a host in this machine's files, or the names and the name servers to query for them; and why a
//! name has no addresses.
//!
//! `he_names` parses the files; this crate reads them: /etc/hosts, /etc/resolv.conf, and the interface indices in
//! /sys/class/net. It sends nothing.
//!
//! An address is its own answer, and a name with an address in the hosts file is not queried ([`find_known`]). Any
//! other name is queried as in resolver(5), by resolv.conf with the changes of LOCALDOMAIN and RES_OPTIONS
//! ([`plan_for`]): the names in the order of `search` and `ndots`, each name server `timeout` times `attempts` times,
//! over TCP only with `use-vc`, for IPv4 only with `no-aaaa`. A name with one label in `local` is queried if the
//! search list has a domain in `local`. The machine's own name, address scopes, and other modules than files and DNS
//! are not supported: those need the system's resolver ([`Choice::System`]).
//!
//! Proved, for any contents of the files: the known addresses of a host (`specs/Known`), with unspecified ones
//! replaced (`specs/Meant`); the names and the servers of a plan (`specs/Plans`); the interface of a zone
//! (`specs/Scopes`); which fault is reported where the families differ, and which faults are of a file, of a server
//! or of the machine (`specs/Faults`).
//!
//! Tested only: that the files are this machine's.
#![tactic(auto)]

pub mod choice;
pub mod failure;
pub mod fault;
pub mod file_fault;
pub mod files;
pub mod known;
pub mod limits;
pub mod meant;
pub mod plan;
pub mod wanted;

pub use choice::Choice;
pub use failure::{Failure, ServerFault, ShownServer};
pub use fault::{NamesFault, first_fault};
pub use file_fault::{FileError, FileFault, SystemFile};
pub use files::{find_scope, read_scope};
pub use known::{find_known, known_by_itself};
pub use meant::addresses_of;
pub use plan::{QueryPlan, plan_for};
pub use wanted::Wanted;
