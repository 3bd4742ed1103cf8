//! IP addresses, address prefixes and their texts.
//!
//! [`Ip`] is an address of either family. [`Prefix`] is an address prefix; an IPv4 prefix is its IPv4-mapped one.
//! Their methods answer the questions of RFC 6724: the scope, whether a client can connect to an address, whether a
//! prefix contains it, and the common prefix length of a source and a destination.
//!
//! Texts are bytes. [`read_ip`], [`read_ip_of`], [`read_prefix`], [`read_source`] and [`read_number`] return a value
//! if the whole text spells it, and None for every other text. They allocate nothing. Fast readers read the usual
//! forms of addresses; `std::net` reads the rest. [`write_ip`], [`write_prefix`], [`write_source`] and
//! [`write_number`] append to a vector, which grows at most once; if that allocation fails ([`Memory`]), the vector
//! is unchanged. [`prepend_ip`], [`prepend_number`], [`prepend_bytes`] and [`prepend_byte`] write a text into a
//! buffer, from its end to its front.
//!
//! Proved, for all texts and values:
//!
//! - the grammar: an address text is one of the grammar of `std::net`: an IPv4 text is four decimal numbers joined by
//!   dots, an IPv6 text one of RFC 4291 section 2.2. The definitions (`specs/Text.antt`) are relations on whole texts
//!   and don't mention how a text is read;
//! - the printed texts: an address prints as RFC 5952 section 4 defines, stated without a search for the longest run
//!   of zero groups (`specs/Printed.antt`); an address, a source and a prefix have one such text each;
//! - laws ([`laws`]): a text spells at most one value; a written text spells its value and reads back as it; it is no
//!   longer than the constants allow and has neither a space nor a line's end; the constants are those of the
//!   definitions (`specs/Ranges.antt`);
//! - scope, usable, mapped, containment and common length equal their definitions (`specs/Ip.antt`,
//!   `specs/Prefix.antt`), and the common length is the greatest that qualifies.
//!
//! `specs/Reading.antt` and `specs/Printing.antt` mirror the code, for the proofs and for the crates above. The
//! contracts of the readers and writers and the laws relate them to the definitions.
//!
//! Only tested: that a write succeeds if memory is available.
#![tactic(auto)]

pub mod common;
pub mod decimal;
mod dotted;
mod groups;
pub mod ip;
pub mod laws;
mod parts;
pub mod prefix;
pub mod prepending;
pub mod printing;
pub mod reading;
pub mod writing;

pub use common::common_len;
pub use decimal::{read_number, write_number};
pub use ip::{Family, Ip};
pub use prefix::Prefix;
pub use prepending::{WIDEST_NUMBER, prepend_byte, prepend_bytes, prepend_number};
pub use printing::prepend_ip;
pub use reading::{read_ip, read_ip_of, read_prefix, read_source};
pub use std::alloc::AllocError as Memory;
pub use writing::{write_ip, write_prefix, write_source};
