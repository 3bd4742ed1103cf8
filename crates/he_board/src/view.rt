//! The values that the rule of a board describes. No value of a `View` is ever made.
use std::collections::LinkedList;

/// The notes of a pass. A pair is a race and a value.
pub struct View {
    /// The number of the board's parts that the pass has.
    pub parts: u64,
    /// The jobs that the pass has taken.
    pub taken: LinkedList<u64>,
    /// The jobs that the pass knows to be taken, by itself or by another.
    pub known: LinkedList<u64>,
    /// The keys that the pass has offered.
    pub offers: LinkedList<(u64, u64)>,
    /// The values of winner words that the pass has looked at.
    pub looked: LinkedList<(u64, u64)>,
}

/// The numbers of jobs and races of a board.
#[derive(Drop)]
pub struct Layout {
    pub jobs: usize,
    pub races: usize,
}
