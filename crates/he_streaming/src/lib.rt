//! Replaying races: reads texts of timelines from an input, and writes the events of each to an output.
//!
//! [`replay`] writes for each race what is asked for ([`Content`]): its transcript, the order of its addresses (RFC
//! 6724), either of them as a JSON object too, or an explanation of its course ([`Printer`]), with changes of its
//! settings if there are any.
//!
//! Proved, whatever the input and the output (by `specs/Stream` and `specs/Output`): the text is put in rounds, each
//! of which ends in a flush. After success and after a fault of the text it is that of the races up to the first
//! fault; the line of a fault, and the number and the line of a race, are counted over the whole input. After a step
//! of the input that failed, or the bound of steps, it is that of the races before it; after a step of the output or
//! a flush that failed, a first part of the text of some first races; after want of memory, the text of some first
//! races. No other step leads to such a fault. An input has one list of races and one fault, and one output if the
//! content is transcripts or orders. A fault of the text is reported only if the input ended, or if nothing that
//! follows could change it, in which case the input may not be read further, or if it is that of a policy table in
//! which the input broke off (`laws`).
//!
//! If races come faster than they are written, and more than one worker is allowed, `replay` cuts the bytes of a step
//! into pieces after the ends of races. Each worker takes pieces from a board (`he_board`), reads them and writes the
//! texts of their races, in a thread of its own. Proved, for every number of workers and every order of their steps:
//! the clauses of `replay`; and, if no growth is refused, that each piece is written exactly once, by the worker that
//! took it, up to its end or to the first bytes that are no whole race, and that none is left that goes on where the
//! joined ones end (`specs/Pieces`).
//!
//! Only tested: that `replay` reports want of memory only if a growth was refused, that it writes the text of a race
//! before it reads on, and that it reads nothing after a failed write. Neither proved nor tested: that pieces are
//! written at the same time, and any speed.
#![tactic(auto)]

pub mod laws;
pub mod limits;
mod pieces;
pub mod race_texts;
pub mod replaying;
mod rounds;
mod sharing;
mod streaming;

pub use race_texts::{Content, Printer, RacePlace, TextRequest};
pub use replaying::replay;
