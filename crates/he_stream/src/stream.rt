//! Streams that report why a step gave or took nothing.
ghost use Rattle.std.specs.Prelude.{ℕ, List, Option, ⊤, None};
ghost use Rattle.std.specs.Io.KnownBytes.{Keeps};
ghost use Rattle.he_stream.specs.Steps.{Takes, Puts};
ghost use Rattle.he_stream.specs.declared.answer.Taken.{Taken};
ghost use Rattle.he_stream.specs.declared.answer.Put.{Put};
ghost use Rattle.he_stream.specs.declared.answer.Flushed.{Flushed};

use crate::answer::{Flushed, Put, Taken};
use std::io::Error;

/// A source of bytes, step by step. [`FromReader`](crate::FromReader) makes one of any reader.
pub trait InputStream {
    // The bytes that later steps will give, if known.
    ghost remaining: { Self → Option (List ℕ) } = { λ _. None };

    // The possible results of a step: the state before it, the result, and the state after it.
    ghost takes: { Self → Taken → Self → Type 0 } = { λ _ _ _. ⊤ };

    /// Takes bytes into the front of the buffer.
    fn take(&mut self, buffer: &mut [u8]) -> Taken
        ensures bytes { Takes (remaining self.old) (remaining self.new) result buffer.new }
        ensures step { takes self.old result self.new };

    /// The error of the last failed step, if known.
    fn failure(&self) -> Option<Error> {
        None
    }
}

/// A sink for bytes, step by step. [`ToWriter`](crate::ToWriter) makes one of any writer.
pub trait OutputStream {
    // The bytes put in so far, if known.
    ghost contents: { Self → Option (List ℕ) } = { λ _. None };

    // The possible results of a step, and of a flush: the state before it, the result, and the state after it.
    ghost puts: { Self → Put → Self → Type 0 } = { λ _ _ _. ⊤ };

    ghost flushes: { Self → Flushed → Self → Type 0 } = { λ _ _ _. ⊤ };

    /// Puts in bytes from the front of the text.
    fn put(&mut self, text: &[u8]) -> Put
        ensures bytes { Puts (contents self.old) (contents self.new) result text.now }
        ensures step { puts self.old result self.new };

    /// Passes on the bytes that were put in.
    fn flush(&mut self) -> Flushed
        ensures bytes { Keeps (contents self.old) (contents self.new) }
        ensures step { flushes self.old result self.new };

    /// The error of the last failed write or flush, if known.
    fn failure(&self) -> Option<Error> {
        None
    }
}
