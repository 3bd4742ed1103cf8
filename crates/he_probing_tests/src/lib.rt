//! Tests of `he_probing` that no run of a program can hold to one answer: the counts of several rounds by address.
#![tactic(auto)]

#[cfg(test)]
mod totals;
