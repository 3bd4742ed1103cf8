//! Waits for standard input and output that are non-blocking.

use libc::net::{POLLIN, POLLOUT, poll};
use libc::types::pollfd;
use std::io::{Error, ErrorKind, Read, Result, Write};

// Wait without a limit.
const FOREVER: i32 = -1;

/// A reader of standard input or a writer of standard output whose descriptor another program may have made
/// non-blocking (`O_NONBLOCK`, which all users of a pipe share). A step that would have to wait waits (poll(2)) and
/// then reports `Interrupted`, so that it is tried again.
#[derive(Drop)]
pub struct Waiting<S> {
    stream: S,
    descriptor: i32,
}

impl<S> Waiting<S> {
    /// A reader of standard input, descriptor 0.
    pub fn input(stream: S) -> Waiting<S> {
        Waiting {
            stream,
            descriptor: 0,
        }
    }

    /// A writer of standard output, descriptor 1.
    pub fn output(stream: S) -> Waiting<S> {
        Waiting {
            stream,
            descriptor: 1,
        }
    }

    // The error to report for a failed step. If the step would have had to wait, it waits first.
    fn told(&self, error: Error, events: i16) -> Error {
        if error.kind() != ErrorKind::WouldBlock {
            return error;
        }
        let mut watched = [pollfd {
            fd: self.descriptor,
            events,
            revents: 0,
        }];
        let _ = poll(&mut watched, FOREVER);
        ErrorKind::Interrupted.into()
    }
}

impl<S: Read> Read for Waiting<S> {
    ghost remaining = { λ waiting. S.remaining waiting.stream };

    fn read(&mut self, buf: &mut [u8]) -> Result<usize> {
        match self.stream.read(buf) {
            Ok(count) => Ok(count),
            Err(error) => Err(self.told(error, POLLIN)),
        }
    }
}

impl<S: Write> Write for Waiting<S> {
    ghost contents = { λ waiting. S.contents waiting.stream };

    fn write(&mut self, buf: &[u8]) -> Result<usize> {
        match self.stream.write(buf) {
            Ok(count) => Ok(count),
            Err(error) => Err(self.told(error, POLLOUT)),
        }
    }

    fn flush(&mut self) -> Result<()> {
        match self.stream.flush() {
            Ok(()) => Ok(()),
            Err(error) => Err(self.told(error, POLLOUT)),
        }
    }
}
