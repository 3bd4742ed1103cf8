//! Messages of the domain name system (RFC 1035), without sockets: queries for a host's addresses, and the addresses
//! of an answer.
//!
//! [`Name::read`] reads a host name, [`write_query`] writes the bytes of a query, and [`read_answer`] returns the
//! addresses that a message has for the query, through aliases, or the first fault in the order of its checks. A
//! message may be any bytes from the network. Its names are read into fixed places; the entries of an answer section
//! and the addresses are allocated from the given allocator.
//!
//! Proved, for all texts and messages, failed allocations aside:
//!
//! - a name is the one that its text spells (`specs/Texts.antt`), and a fault is the text's;
//! - a query's bytes are the list of `specs/Queries.antt`;
//! - an answer's addresses are those of `specs/Answers.antt`: the header and the question are those of a response to
//!   this query (`specs/Header.antt`) with a 12-bit code that is no error (`specs/Codes.antt`); the answer section
//!   has as many records as the header states (`specs/Records.antt`); its names are those of RFC 1035 section 4.1.4,
//!   with pointers only to earlier places (`specs/Names.antt`); and the addresses are those of the name at the end of
//!   the chain of aliases (`specs/Chains.antt`). A fault is the message's, and no message with addresses has one;
//! - the TTL of an answer is the least of those of the aliases followed and of the addresses (`specs/Ttls.antt`).
//!
//! [`read_refusal`] and [`is_lame`] report about the server that sent a message (`specs/Codes.antt`,
//! `specs/Header.antt`).
//!
//! `specs/Reading.antt` mirrors the code, for the proofs.
//!
//! Only tested: that allocations succeed if memory is available.
#![tactic(auto)]

mod answer;
mod chain;
mod codes;
mod entries;
pub mod fault;
mod header;
pub mod limits;
pub mod name;
mod names;
mod octets;
mod parts;
mod queries;
mod question;
mod records;
mod server;
mod words;

pub use answer::{Answer, read_answer};
pub use fault::{AnswerFault, NameFault};
pub use name::Name;
pub use queries::write_query;
pub use server::{is_lame, read_refusal};
