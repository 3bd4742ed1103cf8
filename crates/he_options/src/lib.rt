//! The options of a command line that several commands of the program `he` have, and the values that they give.
//!
//! A module for each kind of value has its words as clap takes them and reads it from what clap found of a line: a
//! port, a family of addresses, a resolver, settings of a race and the rows of a comparison, times, the texts of races
//! and the task that is done with them. Beside them are the refusal of a line ([`Refusal`]), the limits of all its
//! numbers ([`limits`]), and a line's words as a terminal may show them ([`shown`]). The commands are those of
//! `he_request` and, for `he proxy`, of `he_proxy_request`.
//!
//! Proved, by what clap found of the words:
//!
//! - The settings are exactly those of --set and --timeout, the last of a name, and those of a connection where it
//!   gives none (`specs/Words`); the rows of a comparison are those of the numbers of its list, with their words
//!   (`specs/Rows`); the files are those of the line, in order, no more than are taken (`specs/Texts`).
//! - The port is the number that the word says, or the name of a service by its form (`specs/Ports`). The text of a
//!   resolver names an address, at port 53, or one with a port other than 0 (`specs/Resolvers`); a time is as `5s`,
//!   `500ms`, or a number alone (`specs/Times`). The family is that of -4 or -6 (`specs/Families`).
//! - Help, wrong words and lack of memory are distinguished (`specs/Refusals`).
//! - A word as a terminal may show it has no character that controls one (`specs/Shown`).
//!
//! Only tested: which words clap takes, and what help and faults say.
#![tactic(auto)]

pub mod arguments;
pub mod family;
pub mod limits;
pub mod port;
pub mod refusal;
pub mod resolver;
pub mod rows;
pub mod settings;
pub mod shown;
pub mod texts;
pub mod time;

pub use arguments::STANDARD;
pub use port::Port;
pub use refusal::{OptionFault, Refusal};
pub use resolver::Resolver;
pub use texts::{By, Content, Task, Texts};
pub use time::short_timeout;
