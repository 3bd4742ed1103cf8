//! Which clients a proxy serves, and which addresses their races may connect to.
//!
//! - [`is_served`](reach::is_served): a loopback client is always served, any other only if an allowed network
//!   contains its address.
//! - [`may_reach`](reach::may_reach): no client reaches the proxy itself. A client of this machine reaches everything
//!   else; any other client reaches no address of this machine, and only globally reachable addresses.
//! - [`is_global`](global::is_global): whether IANA's special-purpose address registries list an address as globally
//!   reachable (RFC 6890, RFC 8190). `specs/Registries` has them row by row; an IPv4 address embedded in an IPv6 one
//!   is judged by itself.
//! - [`may_go`](rules::may_go): the first rule that fits an address, its port and the host that is asked for decides;
//!   if none does, no rule may allow anything. A rule for a network sees the IPv4 address in an IPv6 one too.
//! - [`may_begin`](rules::may_begin): whether some address of a host may be reached, before it is looked up: if not,
//!   none may be.
#![tactic(auto)]

pub mod global;
pub mod reach;
pub mod rules;
pub mod table;
