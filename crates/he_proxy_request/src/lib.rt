//! The words of a command line of `he proxy`: where it listens, who its clients are, what they may reach, and how
//! their races are run and recorded.
//!
//! [`Proxy`] is what a line asks for ([`proxy::proxy_of`]); [`proxy::command`] has the words as clap takes them, with
//! their help. The addresses to listen at depend on the machine too ([`listen::addresses_of`]). No file is read: those
//! of users, of the history and of a machine's lines have their names.
//!
//! Proved, by what clap found of the words:
//!
//! - The networks, the rules and each other option of a proxy are those that its texts name (`specs/Proxies`). A rule
//!   has the targets and the ports of its text, and the rules are in the order of their words on the line
//!   (`specs/Rules`). Inside, in `rules_of` and `networks_in`: a rule or a network is refused only if its text names
//!   none, or for want of memory (`specs/Refused`).
//! - Where a proxy listens, by a table of what each text of --listen names; the reader of a text gives nothing only if
//!   the text is in no line of it (`specs/Listening`).
//!
//! Only tested: which words clap takes, that `proxy_of` has the fault of a rule or of a network only from these two,
//! and what help says.
#![tactic(auto)]

pub mod listen;
pub mod proxy;
pub mod rules;

pub use listen::{Listen, SixUse};
pub use proxy::{Proxy, SessionLog};
