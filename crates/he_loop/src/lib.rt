//! Connections and ticks of races that share one event loop, for a proxy (`he_proxy`).
//!
//! A race connects by a [`LoopConnector`], within the [`Reach`] of the client that it runs for, and its connections
//! stay in the event loop. Its ticks come from a [`RaceTicker`], which ends the race once its client has left.
//!
//! Proved: an address is tried only if `he_access` allows it to the client, by the kernel's answer for it in this
//! race ([`Reach::has`]); for a client of another machine only if the kernel has a way to it. If the address embeds an
//! IPv4 host by a discovered prefix of a NAT64, `he_access` allows the client that host too. The proxy's rules allow
//! both, for the host that the client asked for. A connection goes to the attempt's address at the race's endpoint,
//! and comes with that answer and that host (`GoesTo` in `specs/Dials`). A pending attempt has registered for its
//! socket. Tested: that the kernel was asked, and which host an address embeds.
#![tactic(auto)]

pub mod access;
pub mod dial;
pub mod prefixes;
pub mod shared;
pub mod ticks;

pub use access::{Client, Destination, Reach, ip_of, place_of};
pub use dial::{Joined, LoopConnector, LoopTrial, Target};
pub use prefixes::Prefixes;
pub use shared::SharedLoop;
pub use ticks::{Progress, RaceTicker};
