//! Tests of `he_select` that no file of races can hold: the values of a policy table for an address, the faults of
//! tables and hosts, orders by round trip times and earlier uses, copies, and want of memory. The files in
//! `crates/cases/data` test the rules of RFC 6724.
#![tactic(auto)]

#[cfg(test)]
mod hosts;
#[cfg(test)]
mod known;
#[cfg(test)]
mod memory;
#[cfg(test)]
mod tables;
