//! The log of a proxy: a line for each session, and the proxy's own messages.
//!
//! [`Log`] writes to standard error, which never blocks a session: a line that it doesn't take at once is dropped and
//! counted. With priorities ([`LogOptions`]) a journal sees how important each line is. [`SessionFacts`] has the facts
//! of a line that the session's end doesn't have, [`Lost`] is why a session has no connection, and [`TurnedAway`]
//! limits the lines for clients that are not served to one a minute and network.
//!
//! Proved: why a session has no connection follows from the fault of its look-up or the reason of an attempt, and the
//! reply to its client follows from that (`specs/Lost`). A text in a line is a JSON string, or appears as it is if
//! none of its octets has a meaning there (`specs/Log`). A session without a connection is a warning, and each
//! priority is written as sd-daemon(3) has it (`specs/Levels`). Tested only: the facts of a line, the priorities of
//! other lines, and which lines are dropped.
#![tactic(auto)]

pub mod facts;
mod level;
pub mod log;
pub mod lost;
mod output;
pub mod turned;

pub use facts::{Facts, SessionFacts};
pub use log::{Log, LogForm, LogOptions};
pub use lost::Lost;
pub use turned::{TURNED_AWAY_SECONDS, TurnedAway};
