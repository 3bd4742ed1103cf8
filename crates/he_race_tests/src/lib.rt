//! Tests of `he_race`: the fates of single attempts, a ticker that jumps, a race over tickers that misbehave, a race
//! whose answers come while it runs, with knowledge of their addresses and lines of the machine, connectors of a
//! user's own, and the winner's connection. The crate `cases` runs recorded races from their first turn to their end.
#![tactic(auto)]

#[cfg(test)]
mod answers;
#[cfg(test)]
mod attempts;
#[cfg(test)]
mod homes;
#[cfg(test)]
mod known;
#[cfg(test)]
mod learnt;
#[cfg(test)]
mod lines;
#[cfg(test)]
mod named;
#[cfg(test)]
mod own;
#[cfg(test)]
mod races;
#[cfg(test)]
mod wheel;
