//! Tests of `he_live` on real sockets, of loopback alone: races with servers that listen, refuse or stay silent, or
//! whose addresses come while they run, that their records replay, that no socket of a race is left but the winner's,
//! the state that each fault leaves, the effect of changed settings, a clock that fails, that the interface of a
//! link-local address reaches connect(2), and that a probe has the outcome of each address.
#![tactic(auto)]

#[cfg(test)]
mod changes;
#[cfg(test)]
mod clocks;
#[cfg(test)]
mod faults;
#[cfg(test)]
mod homes;
#[cfg(test)]
mod interfaces;
#[cfg(test)]
mod probes;
#[cfg(test)]
mod races;
#[cfg(test)]
mod resolving;
