//! Default address selection (RFC 6724): which source a host uses for a destination, and in which order a client
//! tries destinations.
//!
//! A [`Policy`] is an admitted policy table, a [`Host`] a list of sources and a list of routes. [`order`] sorts
//! destinations; [`order_known`] also uses what is [`Known`] of them (RFC 8305 section 4);
//! [`order_known_with_attributes`] also returns the attributes that the rules compare. [`DestinationRule::between`]
//! names the rule that puts one destination before another. [`Host::source`] finds the source for one destination.
//!
//! Proved, for every input:
//!
//! - the standard table is that of RFC 6724 section 2.1;
//! - rows are a table, and lists a host's, exactly if the search for a fault finds none; a fault found is the first
//!   in its order, at the least place ([`laws`]);
//! - `Policy::from_rows` and `Host::new` build the table and the host from their arguments, or return that fault, or
//!   `Memory` only if there is no fault; `Policy::from_list` and `Host::from_lists` do so too, but keep the given
//!   lists and need no memory;
//! - two tables are equal exactly if their rows are, two hosts if their lists are;
//! - the precedence and the label of an address are those of the row with the longest prefix that contains it;
//! - its source is the best candidate by the rules of section 5;
//! - each address is at the place, in the result of `order`, that equals the number of addresses preferred to it by
//!   the rules of section 6; in the result of `order_known` rules 8a and 8b count too: the lower known round trip
//!   time, and the address used before; `order_known_with_attributes` returns that same list, and the rule between
//!   two destinations is the first that decides;
//! - with an admitted table this preference is a comparison of keys, one number for each rule, and so a strict total
//!   order; usable addresses have exactly one such list, and the order of some of them is that of all without the
//!   others ([`laws`]).
//!
//! Each rule is a definition in `specs/`, under its name in the RFC.
//!
//! Only tested, in he_select_tests: that allocations succeed if memory is available. No clause covers the texts of
//! the faults.
#![tactic(auto)]

pub mod attributes;
pub mod deciding;
pub(crate) mod distinct;
pub mod host;
pub mod known;
pub mod laws;
pub mod limits;
pub(crate) mod lookup;
pub mod policy;
pub(crate) mod ranking;
pub mod selection;
pub mod sorting;
pub(crate) mod standard;

pub use attributes::{DestinationAttributes, Sourced};
pub use deciding::DestinationRule;
pub use host::{Host, HostFault, Route, Source};
pub use known::Known;
pub use policy::{Policy, PolicyFault, Row, Rows};
pub use selection::LabelledSource;
pub use sorting::{order, order_known, order_known_with_attributes};
