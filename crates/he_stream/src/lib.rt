//! Reads a whole input and writes an output, step by step, over any reader and any writer.
//!
//! [`FromReader`] makes an [`InputStream`] of any reader, and [`ToWriter`] an [`OutputStream`] of any writer. Each of
//! their steps reports the bytes given or taken, the end, an interruption, or a failure. Each call terminates: it
//! takes a bounded number of steps. An interrupted step is tried again and counts towards that bound. [`take_piece`]
//! is one such step, for callers that use the bytes before they take more.
//!
//! Proved for every such stream: a fault is returned only after a step that failed, a step that took no byte, or at
//! the bound of steps; `Ok` only at the input's end, after the whole text, or after a completed flush (`specs/Runs`,
//! `specs/Input`, `specs/Output`). If a stream states the bytes that it has left, or holds: the bytes that a call
//! added to the vector are those that it took from the input, even on a fault; on `Ok` the input is at its end. The
//! bytes that a call wrote are the text on `Ok`, and a beginning of it on a fault. A flush writes no bytes of its
//! own.
//!
//! Only tested: that a step of [`FromReader`] and [`ToWriter`] returns the result of the reader or writer.
#![tactic(auto)]

pub mod answer;
pub mod fault;
pub mod input;
pub mod laws;
pub mod limits;
pub mod output;
pub mod reader;
pub mod stream;
pub mod writer;

pub use answer::{Flushed, Put, Taken};
pub use fault::{ReadFault, WriteFault};
pub use input::{WholeInput, read_input, take_input, take_piece};
pub use output::{finish_output, write_output, write_whole};
pub use reader::FromReader;
pub use stream::{InputStream, OutputStream};
pub use writer::ToWriter;
