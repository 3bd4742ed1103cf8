//! The clients of a proxy until they have sent something: which are accepted, and which make room for others.
//!
//! [`Clients`] is the stream of the sessions of the clients that sockets accept. [`Beginning`] has the places of
//! those that have sent nothing, of which the oldest makes room for the next. [`Running`] counts sessions, and
//! [`PerAddress`] those of each address.
//!
//! Proved: a pending stream of clients has registered for what it waits for, or asked to be polled again; each
//! session that it begins may be polled. Tested only: which client makes room, that the limits of sessions are
//! kept, and that it waits if no descriptor is left.
#![tactic(auto)]

pub mod addresses;
pub mod beginning;
pub mod clients;
pub mod running;

pub use addresses::PerAddress;
pub use beginning::{Beginning, ClientPlace, MOST_BEGINNING, MOST_OF_ADDRESS};
pub use clients::{Clients, Service};
pub use running::Running;
