//! The command line of the program `he`: runs each line.
//!
//! [`run_words`] reads a line (`he_request`) and runs it with an input and a `Session` of `he_tasks`: the system, an
//! output and a writer of faults; the program passes its words and its standard streams. `he connect` connects to a
//! host and relays, `he proxy` does so for other programs, `he probe` connects to each address of a host
//! (`he_probing`), `he names` finds a host's addresses, `he host` prints this machine's, `he live` runs the
//! one race of a file or of the input on real sockets; all other commands are tasks of `he_tasks`.
//!
//! Proved (`run_line`): each command does with the input, the output and the files what its crate specifies, `he
//! live` by `he_live` for example, and the status reports how that ended (`specs/Run`, `specs/Live`).
//!
//! - A connection is raced for with the line's options, at the number of its port. The port of a service is in a line
//!   of the services file, which was read to its end. The connection is relayed after the record is kept, to the last
//!   byte, at the line's place: in a new file, which took it whole and was flushed, in the output, or nowhere. With
//!   JSON, the record's object is written (`specs/Connection`, `specs/Records`, `specs/Objects`).
//! - The status of a check is 0 if the race that was run for the request connected and lost no more than the line
//!   allows, 1 if it lost more, and 2 if it did not connect, all by the race that its record is; or 3, without such a
//!   race or after another fault (`specs/Checks`).
//! - The answers of a look-up, and the sources and routes of a machine, are written as their lines or their object.
//!   With destinations the machine is that for these, by the kernel's answers (`specs/Names`, `specs/Machines`).
//! - Rounds of probes are those of the request, at most the requested number, and the output takes the text of each,
//!   one after the other; the status is the worst of the rounds, by their rows and the faults of their look-ups, or 1
//!   after another fault (`specs/Probes`).
//! - A line without a command to run leaves the input alone: help and the version go to the output; a refused line
//!   writes nothing to the output, and the status is 2, or 1 if an allocation failed, or 3 if it is that of a check.
//!
//! Tested only: which files are opened and when they get their names, which answers and which machine are found, the
//! tables and the metrics of `he probe`, the file of its records, the line of a check, and the text of help and
//! faults.
#![tactic(auto)]

mod check;
mod connection;
mod host;
mod live;
mod names;
mod objects;
mod port;
mod probe;
mod probe_record;
mod proxy;
mod race_request;
mod record;
pub mod run;
pub mod system;
pub mod words;

pub use he_request::{Terminal, read_words, takes_text};
pub use he_tasks::Session;
pub use he_tasks::reports::{report, report_path};
pub use run::{run_line, run_words};
pub use system::{System, Variables};
pub use words::{report_not_text, tell_short_timeout, tell_waiting};
