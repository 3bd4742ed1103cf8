//! Tests of the state that threads share: a board, and the allocator of tests that refuses a growth.
#![tactic(auto)]

#[cfg(test)]
mod heap;
#[cfg(test)]
mod takers;
#[cfg(test)]
mod walk;
