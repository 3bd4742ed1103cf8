//! This machine's own sources and routes, by Linux's `/proc/net` and the interfaces' files in `/sys/class/net`.
//!
//! [`machine::read_machine`] returns the sources and routes of the machine that it runs on, and appends a remark for
//! each thing that a race leaves out or that is a guess. [`host::find_routes`] and [`host::find_host`] find them in
//! the bytes of the files. For questions that the files leave open, the kernel is asked (`he_kernel`).
//!
//! Proved, for all bytes: each line of a file is read by the kernel's columns and flags (`specs/Ipv6Route`,
//! `Ipv4Route`, `FibTrie`, and those of `he_kernel`); routes are sorted by prefix length (0 to 32 for IPv4), then by
//! metric, then in the order of the files; an IPv4 address is on the interface of the longest connected route that
//! contains it; the kept sources and routes are valid for a machine, whatever the files contain, with no address and
//! no prefix twice and at most 64 of each, and each line that isn't kept is reported with its reason
//! (`specs/Gathering`, `Whole`).
//!
//! Not proved: that no fault is returned while memory suffices (no step of the code returns one of its own); the
//! system's answers to `machine`, and the text of remarks. IPv6 routes are those of all tables, which the file
//! doesn't distinguish; IPv4 routes are those of the main table, and other tables are reported by number.
#![tactic(auto)]

pub mod fib_trie;
pub mod found;
pub mod gathering;
pub mod host;
pub mod interface;
pub mod ipv4_route;
pub mod ipv6_route;
pub mod left_out;
pub mod machine;
pub mod placing;
pub mod reading;
pub mod remarks;
