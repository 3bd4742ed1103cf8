//! The sources that Linux selects for destinations, and a machine for which the rules select the same ones.
//!
//! A datagram socket gives the source ([`sockets::ask_source`]); `/proc/net/if_inet6` and `/sys/class/net` have its
//! properties. [`taken::find_machine_to`] returns a machine for some destinations only, for which the rules select
//! the kernel's sources, without reading routes. [`taken::find_machine_of`] does so for the destinations of one
//! family, and [`taken::read_machine_to`] for destinations without a race; [`writing::write_host`] writes a machine's
//! lines. [`families::can_use`] checks whether a family has a route. [`asked::AskedWays`] asks the kernel once for
//! each destination of a race.
//!
//! Proved, for all bytes: each line of a file is read by the kernel's columns and flags (`specs/IfInet6`, `Ipv4Line`,
//! `Sysfs`); the kept sources and routes are valid for a machine, whatever is found, with no address and no prefix
//! twice and at most 64 of each (`specs/Keeping`); the lines written are the machine's (`specs/Written`).
//!
//! Proved, whatever the kernel answers: [`ways::find_host_to`] returns the machine with the kernel's sources and, for
//! each destination, a route over its source's interface; [`ways::find_unsaid`] returns exactly those destinations
//! for which the rules of he_select select another source of that machine than the kernel (`specs/Ways`). The
//! functions of `taken` return such a machine for their destinations. A source that is alone on the interface of a
//! destination's route is the destination's, unless one of rules 1 to 3 of RFC 6724 section 5 prefers another
//! ([`laws::own_interface_decides`], `specs/OwnInterfaces`): so each source of a way has an interface of its own.
//!
//! Not proved: that no fault is returned while memory suffices (no step of the code returns one of its own); the
//! system's answers to `sockets`, `files`, `taken` and `families`, and the text of remarks.
#![tactic(auto)]

pub mod asked;
pub mod families;
pub mod fault;
pub mod files;
pub mod hex;
pub mod if_inet6;
pub mod ipv4_line;
pub mod keeping;
pub mod laws;
pub mod lines;
pub mod link;
pub mod parts;
pub mod remarks;
pub mod sockets;
pub mod sysfs;
pub mod taken;
pub mod ways;
pub mod why;
pub mod writing;
