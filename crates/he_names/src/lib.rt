//! Names by the files of the system, without sockets: addresses of the hosts file (hosts(5)), and the resolver
//! configuration (resolver(5)); which names are queried for a host; and the answers as lines of a timeline.
//!
//! Proved, for all bytes:
//!
//! - [`read_hosts`]: the addresses that a hosts file has for a name (`specs/Hosts`).
//! - [`read_servers`], [`read_search`], [`read_ndots`], [`read_timeout`], [`read_attempts`], [`read_use_vc`],
//!   [`read_no_aaaa`]: the servers, the search list and the options of a configuration file, with their defaults and
//!   bounds (`specs/Conf`).
//! - [`amend`]: the lines that the environment adds to it (`specs/Environment`).
//! - [`names_to_ask`]: which names are queried for a host, and in which order (`specs/Order`).
//! - [`clean_of`]: a family's addresses, each once, at most 256; [`Found`]: both families' answers, with at least one
//!   address, and the two lines of a timeline that state them (`specs/Answers`).
//!
//! Only tested: that a call succeeds if memory is available.
#![tactic(auto)]

pub mod answers;
pub mod conf;
pub mod environment;
mod fields;
pub mod found;
pub mod hosts;
pub mod limits;
pub mod literals;
mod numeric;
pub mod order;
pub mod ports;
pub mod special;
pub mod target;

pub use answers::clean_of;
pub use conf::{
    read_attempts, read_ndots, read_no_aaaa, read_search, read_servers, read_timeout, read_use_vc,
};
pub use environment::{Environment, amend};
pub use found::Found;
pub use hosts::read_hosts;
pub use literals::{ZonedIp, read_literal};
pub use order::names_to_ask;
pub use ports::{PortFault, read_port};
pub use special::{SpecialUse, serves_local};
pub use target::{HostFault, Target, read_host};
