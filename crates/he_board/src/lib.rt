//! The board of a pool of workers: words in memory that threads share without locks, to take jobs and to read the
//! best offer so far.
//!
//! A board has jobs and races, each with a number from 0 on. A job is taken once. A race has a winner word, the least
//! key that was offered to it. A key is a tick (milliseconds) and a place: of two offers the one at the lower tick
//! wins; at one tick, the one at the lower place. `limits.rt` has all limits, and `limits_as_numbers` states their
//! values.
//!
//! A thread that steps on the board holds a `Pass`. A pass has no lifetime and can move to another thread. It has
//! some of the board's 1,048,576 parts, and a fork splits it in two. The *notes* of a pass exist only in proofs and
//! take no memory: the jobs that it took or found taken, the keys that it offered and the values of winner words that
//! it looked at. A rejoin joins the notes of two passes, so a thread that has rejoined all passes knows what all of
//! them did.
//!
//! ```text
//! let (board, pass) = Board::new(rt.alloc(), 3, 1)?; // 3 jobs, 1 race
//! let (mut p, mut q) = board.fork(pass); // 524,288 parts each: one for each of two threads
//!
//! board.offer(&mut p, 0, 320, 1); // NO_OFFER: nothing was offered before
//! board.least(&mut q, 0); // 40,961: the key of tick 320 and place 1
//! board.offer(&mut q, 0, 320, 0); // 40,961: what was there before
//! board.take(&mut p, 2); // true: p has job 2
//! board.take(&mut q, 2); // false: somebody has it
//!
//! let mut pass = board.rejoin(p, q); // all parts again
//! board.least(&mut pass, 0); // 40,960
//! board.winner(&mut pass, 0); // Some((320, 0))
//! ```
//!
//! Threads of your own need no more than this: fork a pass for each, lend them the board, and rejoin the passes that
//! they return. The crate `he_board_tests` does so with two threads. A call requires a pass of the same board.
//!
//! Proved, for every order of the steps of all passes:
//!
//! - The board is lawful from `Board::new` on: the word of a job is 1 if exactly one pass has taken it, and 0 if none
//!   has and none knows it to be taken; the word of a race is one of its offers, or `NO_OFFER` if there is none, and
//!   at most each offer and each value that was looked at; no part is lost. `specs/Lawful.antt` defines this, and
//!   `board_is_lawful` proves that it is equivalent to the rule of the table, which each step keeps.
//! - The result of each call, and its addition to the notes of its pass.
//! - A pass with all parts knows the winner: `winner` is the least of all offers, and the pass has itself taken each
//!   job that it knows to be taken, by one of the passes that were rejoined into it.
//!
//! Not covered by any contract: whether a taken job is done, or ever will be; that a thread makes progress; the steps
//! of a pass that was not rejoined, beyond the words that it left; and the order of the steps of two passes that
//! never met, unless a value shows it (a winner word only decreases). A dropped pass takes its parts with it: the
//! board stays lawful, but `winner` can't be called any more.
//!
//! No call after `Board::new` waits, allocates or can fail.
#![tactic(auto)]

mod board;
mod fault;
mod keys;
mod laws;
mod limits;
mod pass;
mod rule;
mod steps;
mod view;

pub use board::Board;
pub use fault::BoardFault;
pub use keys::{key, tick_and_place};
pub use laws::{
    board_is_lawful, keys_are_ordered, keys_read_back, least_is_least, limits_as_numbers,
    limits_of_workers,
};
pub use limits::{JOBS, LAST_TICK, LEAST_WORKERS, MOST_WORKERS, NO_OFFER, PARTS, PLACES, RACES};
pub use pass::Pass;
pub use view::{Layout, View};
