//! IPv4 addresses embedded in IPv6 ones, for networks with a NAT64 (RFC 6052): the prefixes of a network, found in the
//! addresses that its name server has for `ipv4only.arpa` (RFC 7050), and the addresses of IPv4 hosts by these
//! prefixes.
//!
//! Proved, for all addresses:
//!
//! - [`Prefix64::embed`] and [`Prefix64::extract`] are the table of RFC 6052 section 2.2 (`specs/Embedding.antt`), and
//!   inverse to each other ([`laws`]): what is embedded is extracted, and embedding what was extracted gives the
//!   address back if the octet that is kept zero and the bits after the IPv4 address are zero;
//! - [`discover`] finds each prefix by which an address has a well-known IPv4 address once (`specs/Discovery.antt`);
//! - [`synthesize`] embeds each host by each prefix that it may be embedded by (`specs/Synthesis.antt`).
//!
//! Only tested: that a call succeeds if memory is granted.
#![tactic(auto)]

pub mod discovery;
pub mod laws;
pub mod length;
pub mod prefix;
pub mod synthesis;

pub use discovery::{FIRST_KNOWN, KNOWN_NAME, SECOND_KNOWN, discover};
pub use length::Length;
pub use prefix::Prefix64;
pub use synthesis::{may_embed, synthesize};
