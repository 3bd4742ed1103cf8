//! A writer as an output.
ghost use Rattle.std.specs.Prelude.{◌≡◌, None, false};
ghost use Rattle.he_stream.specs.Marks.{MarksPut, MarksFlush};

use crate::answer::{Flushed, Put};
use crate::stream::OutputStream;
use std::io::{Error, ErrorKind, Write};

/// A writer, the error of its last failed write or flush, and whether it was flushed after the last write.
#[derive(Drop)]
pub struct ToWriter<W> {
    writer: W,
    failure: Option<Error>,
    is_flushed: bool,
}

impl<W: Write> ToWriter<W> {
    /// An output to the writer. No write or flush of it was made yet.
    pub fn new(writer: W) -> ToWriter<W>
        ensures { result ≡ record { writer = writer; failure = None; is_flushed = false } }
    {
        ToWriter {
            writer,
            failure: None,
            is_flushed: false,
        }
    }

    /// The writer.
    pub fn writer(&self) -> &W
        ensures { result.now ≡ self.now.writer }
    {
        &self.writer
    }

    /// Whether the writer was flushed after the last write.
    pub fn is_flushed(&self) -> bool
        ensures { result ≡ self.now.is_flushed }
    {
        self.is_flushed
    }
}

impl<W: Write> OutputStream for ToWriter<W> {
    ghost contents = { λ output. W.contents output.writer };

    ghost puts = { λ before put after. MarksPut put before.failure after.failure × (after.is_flushed ≡ false) };

    ghost flushes = { λ before flushed after.
        MarksFlush flushed before.failure before.is_flushed after.failure after.is_flushed };

    fn put(&mut self, text: &[u8]) -> Put {
        self.is_flushed = false;
        match self.writer.write(text) {
            Ok(0) => {
                self.failure = Some(ErrorKind::WriteZero.into());
                Put::Full
            }
            Ok(count) => Put::Bytes(count),
            Err(error) if error.kind() == ErrorKind::Interrupted => Put::Interrupted,
            Err(error) => {
                self.failure = Some(error);
                Put::Failed
            }
        }
    }

    fn flush(&mut self) -> Flushed {
        match self.writer.flush() {
            Ok(()) => {
                self.is_flushed = true;
                Flushed::Done
            }
            Err(error) if error.kind() == ErrorKind::Interrupted => Flushed::Interrupted,
            Err(error) => {
                self.failure = Some(error);
                Flushed::Failed
            }
        }
    }

    fn failure(&self) -> Option<Error> {
        self.failure
    }
}
