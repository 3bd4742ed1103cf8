//! Tests of `he_plan` that no file of races can hold: want of memory, and a second, plain computation of plans; and
//! of the floor after failures. The clause of each call of a builder specifies its result, and the cases that are
//! files have each of its faults.
#![tactic(auto)]

#[cfg(test)]
mod floor;
#[cfg(test)]
mod hosts;
#[cfg(test)]
mod known;
#[cfg(test)]
mod memory;
#[cfg(test)]
mod plain;
