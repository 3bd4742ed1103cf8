//! An allocator for tests that refuses exactly one growth and grants all others.
//!
//! Any allocation in Rattle may be refused. A test of this passes a `&Refusing` to the code as its allocator, has
//! each of its growths refused in turn, and checks the state after the refusal:
//!
//! ```text
//! let heap = Refusing::new(rt.alloc());
//! let refused = each_growth_refused(&heap, || {
//!     let mut out = Vec::new(&heap);
//!     match write_address(address, &mut out) {
//!         Ok(()) => assert_eq!(rt; out.as_slice(), expected),
//!         Err(_) => {
//!             assert!(rt; heap.has_refused());
//!             assert!(rt; out.is_empty());
//!         }
//!     }
//! });
//! assert!(rt; refused > 0);
//! ```
//!
//! The closure makes the values that it changes anew in each run, on the heap; the values that it only reads are made
//! before, on `rt.alloc()`, which refuses nothing. It is proved with no proof file and no clause. Code that needs a
//! `?` goes into a function of its own, which returns whether all is right, or `None` if memory was refused:
//!
//! ```text
//! let refused = refused_in_turn(&heap, || is_written(&heap, address, expected));
//! assert!(rt; refused.unwrap_or(0) > 0);
//! ```
//!
//! A `&Refusing<Global>` is `Allocator + Copy + Send + Sync`, so threads may share it: one of all their growths is
//! refused. A call of code over `A: Allocator + Send` requires that any thread may give a block back; the check finds
//! this by itself, from `proofs/heap/RefusingAllocator/TheSendSync`.
//!
//! Proved: the clauses of `Allocator`, so that a granted block is the inner allocator's, and each block goes back to
//! it; and that the closure is run more often than the results of `each_growth_refused` and `refused_in_turn`, each
//! run of the latter being right or refused. An atomic word determines which growth is refused. No contract covers
//! it, so that is only tested, in the crate `he_board_tests`.
#![tactic(auto)]

mod countdown;
mod heap;
mod runs;

pub use heap::Refusing;
pub use runs::{MOST_RUNS, each_growth_refused, refused_in_turn};
