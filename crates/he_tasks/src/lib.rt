//! The tasks of the program `he` on texts of races, and its reports of faults.
//!
//! [`run_texts`] runs a task (`Task` of `he_options`) on the texts of the files that a line names, or of the input,
//! over a [`Session`]: the system, an output and a writer of faults. It returns the exit status.
//!
//! Proved (`run_texts`):
//!
//! - Each text is replayed, checked or summed up as its crate specifies, with the settings of the line, and the
//!   status reports how it ended (`specs/Texts`, `specs/Status`).
//! - The files of a line are read in its order, `-` for the input; a directory may have several (`specs/Directories`).
//!   A list, of a file or of the input, may have their names (`specs/Listed`).
//! - Files are read one after the other, with `-` for the input, up to the first that can't be opened or has a fault,
//!   or all of them with --keep-going and `check --all`; the status is that of the first fault. If there are several,
//!   the output of `explain` and `draw` for each follows its heading, whose name has no character that controls a
//!   terminal; JSON and SVG have no heading (`specs/Texts`).
//! - A page begins with its head. A page for a file leaves the output alone, and is written to a new file
//!   (`specs/Whole`).
//! - `he summary` writes one summary of the races of all texts, each up to its first fault, and `he compare` one
//!   table of them, or nothing if memory was refused (`specs/Summaries`).
//!
//! Only tested: which files a directory has, which are opened and when they take their names, and the words of faults
//! and their explanations.
#![tactic(auto)]

mod content;
mod directories;
mod files;
mod listed;
pub mod name;
mod page;
pub mod reports;
pub mod session;
mod sums;
pub mod system;
mod text;
pub mod whole;

pub use name::Name;
pub use reports::{DONE, FAULT, NO_CONNECTION, USAGE};
pub use session::Session;
pub use system::TaskSystem;
pub use whole::run_texts;
