//! Copies the bytes of one stream to another as they come, and connects standard input and output to a connection.
//!
//! [`pump`] takes bytes from an input and puts them into an output, piece by piece, until the input ends or its watch
//! wants no more. It flushes a piece before it waits for the next one, so that no bytes stay in the output while the
//! input is silent. [`relay`] pumps both ways of a [`Connection`] at once, in two threads. [`relay_standard`] does so
//! for standard input, an output and a socket.
//!
//! # When a relay of standard input ends
//!
//! Each way ends by itself. The end of standard input shuts the connection down only for sending. The other way ends
//! with the remote's, and the relay once both have ended. It waits for standard input and the connection together
//! (poll(2)), so that a remote's end also ends that wait: at once if the connection broke or was shut down both ways;
//! if the remote has ended its way, once standard input gave nothing for the time of the wait ([`DEFAULT_WAIT`]). A
//! remote that closes and one that only ends its way look the same from here, and the latter still wants the data of
//! standard input. It is no fault that standard input was left open. It is one if data of it was not sent, including
//! data that it has at the end of the other way (except at a terminal). If the output accepts no more, the connection
//! is shut down both ways, which ends the other thread.
//!
//! # Tunnels
//!
//! A [`Tunnel`] is a polled relay between two connections, so that one thread can serve many. Each way holds 2 KiB
//! while it is silent and at most 16 KiB, or the early data if that is more, and does a few reads and writes in one
//! poll before other tasks run. If one connection of a tunnel broke off, a [`Cut`] resets the other one once the data
//! before the break is sent: it searches the descriptors of the process for the connection's addresses, since tokio
//! gives no descriptor. [`keep_alive`] makes a socket notice that its remote has vanished, and [`takes_now`] reports
//! whether a write to standard error would not wait.
//!
//! [`Waiting`] waits for a standard stream that is non-blocking (`O_NONBLOCK`). [`open_standard`] opens the standard
//! streams that are closed when a program starts.
//!
//! # What is proved
//!
//! - For every input and every output of `he_stream` (`specs/Pumps`): the bytes that a pump put are those that it
//!   took, in order, each once; on `Ok` the input's last step reported its end, and all its bytes were put and
//!   flushed; on `Input` all bytes taken before the failed step were put and flushed, and on `Cut` all that were
//!   taken; on `Output` the bytes put are a beginning of those taken.
//! - For every input, output and connection in halves, [`relay`] guarantees this for both ways, or that it took and
//!   put nothing (`RelaysBoth` in `specs/Relays`).
//! - [`relay_standard`] guarantees which bytes were taken from the input and put into the output, and that each
//!   failed way is reported, the output's first: it returns `Ok` only if the remote ended its way and the input
//!   ended, or had no more data once both ways had ended (`IsEnd`).
//! - For every two connections of tokio's traits, a [`Way`] of a polled [`Tunnel`] writes the bytes that it held from
//!   the start and then those that it reads, in order, each once, except those that it still holds; it counts the
//!   bytes written, and it is over once its reader has ended, all is written and its writer is shut down (`Moves` in
//!   `specs/Ways`, `MovesBoth` in `specs/Tunnels`). A pending tunnel has registered to be woken.
//!
//! Only tested: which connection of a tunnel broke off, that the other one is reset, and when; when a relay ends, and
//! its effect on the connection; that the bytes are those of the connection, the byte counts, and how a connection
//! broke off.
#![tactic(auto)]

pub mod descriptors;
pub mod fault;
pub mod halves;
pub mod pumping;
pub mod relaying;
pub mod sockets;
pub mod standard;
pub mod tunnel;
pub mod waiting;
pub mod watch;
pub mod way;

pub use descriptors::{NULL_DEVICE, open_standard};
pub use fault::{PumpFault, RelayFault};
pub use halves::{DEFAULT_WAIT, SocketConnection, over_socket};
pub use pumping::pump;
pub use relaying::{Connection, Ends, relay};
pub use sockets::{Cut, keep_alive, takes_now};
pub use standard::relay_standard;
pub use tunnel::{Broke, Tunnel};
pub use waiting::Waiting;
pub use watch::Watch;
pub use way::{Way, WayFault};
