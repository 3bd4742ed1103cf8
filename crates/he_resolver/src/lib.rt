//! A stub resolver: the addresses of a host, from the files of the system and from name servers.
//!
//! [`Lookup`] asks name servers for both families of a host at once (RFC 1035, RFC 3596), and is polled: it returns
//! each family's addresses as soon as they are known. [`find_names`] waits for the addresses of both families, as `he
//! names` writes them. `he_settings` plans the names and the servers, `he_asking` has one query to one server, and
//! `he_dns` the messages.
//!
//! # The queries
//!
//! The names of the plan are queried in order, until one has an address of either family. Each family has its own
//! answer: that a server has no such name for one type means nothing for the other (RFC 4074 section 4.2). The next
//! name is queried once both families have ended without an address. If a name server has not answered for 250
//! milliseconds, the next one is asked too; it is asked at once if a server fails, if the query can't be sent, or if
//! the server did not answer in time for an earlier name. The first answer counts, from whichever server. No server
//! answers only after each had all its time. The system's resolver may be asked instead of name servers, in a thread
//! ([`system`]).
//!
//! Proved: a look-up begins with the host's known addresses, or with the names and the servers to query, for both
//! families or one (`specs/Begins`). A family gets its own addresses, each once, at most 256, from a message's answer
//! to the question for one of these names, or from the known ones, with unspecified ones replaced; the TTL is that of
//! this message; that it has none, or that there is no such name, is a message's answer to this question
//! (`specs/Heard`). A pending poll has registered for every socket and timer that the family waits for; if it makes
//! the other family's result final, the task is polled again (`specs/Needs`). [`find_names`] returns at least one
//! address (`Found` of `he_names`). For internal functions: when the next server is asked, and after which faults
//! (`specs/Asking`). Tested only, on loopback: when queries are sent, and to which server.
#![tactic(auto)]

mod family_lookup;
mod gathering;
pub mod lookup;
pub mod naming;
mod resolver;
pub mod system;

pub use lookup::Lookup;
pub use naming::{LookupReport, find_names};
pub use system::SystemResolver;
