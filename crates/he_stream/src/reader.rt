//! A reader as an input.
ghost use Rattle.std.specs.Prelude.{◌≡◌, None};
ghost use Rattle.he_stream.specs.Marks.{MarksTake};

use crate::answer::Taken;
use crate::stream::InputStream;
use std::io::{Error, ErrorKind, Read};

/// A reader, and the error of its last failed read.
#[derive(Drop)]
pub struct FromReader<R> {
    reader: R,
    failure: Option<Error>,
}

impl<R: Read> FromReader<R> {
    /// An input from the reader. No read of it has failed yet.
    pub fn new(reader: R) -> FromReader<R>
        ensures { result ≡ record { reader = reader; failure = None } }
    {
        FromReader {
            reader,
            failure: None,
        }
    }

    /// The reader.
    pub fn reader(&self) -> &R
        ensures { result.now ≡ self.now.reader }
    {
        &self.reader
    }
}

impl<R: Read> InputStream for FromReader<R> {
    ghost remaining = { λ input. R.remaining input.reader };

    ghost takes = { λ before taken after. MarksTake taken before.failure after.failure };

    fn take(&mut self, buffer: &mut [u8]) -> Taken {
        match self.reader.read(buffer) {
            Ok(0) => Taken::End,
            Ok(count) => Taken::Bytes(count),
            Err(error) if error.kind() == ErrorKind::Interrupted => Taken::Interrupted,
            Err(error) => {
                self.failure = Some(error);
                Taken::Failed
            }
        }
    }

    fn failure(&self) -> Option<Error> {
        self.failure
    }
}
