//! The descriptors of the standard streams, which may be closed when a program starts.

use libc::STDIN_FILENO;
use libc::net::{POLLNVAL, poll};
use libc::types::pollfd;
use std::fs::File;
use std::io::Error;
use std::mem::forget;
use std::rt::Files;

// Don't wait.
const AT_ONCE: i32 = 0;

/// The file that is opened in place of a closed standard stream.
pub const NULL_DEVICE: &str = "/dev/null";

/// Opens each of the descriptors 0 to 2 that is closed, so that no file or socket opened later becomes a standard
/// stream. Call it before anything else is opened. A stream that was closed still fails: a read of standard input,
/// and a write to standard output or standard error (EBADF). The descriptors stay open to the program's end.
///
/// # Errors
///
/// The system's error if [`NULL_DEVICE`] cannot be opened.
pub fn open_standard<R: Files>(rt: &R) -> Result<(), Error> {
    let mut streams = [stream(0), stream(1), stream(2)];
    let _ = poll(&mut streams, AT_ONCE);
    for stream in &streams {
        if stream.revents & POLLNVAL != 0 {
            let is_input = stream.fd == STDIN_FILENO;
            // The system gives a new file the lowest free number: those below it are open.
            let file = File::options()
                .read(!is_input)
                .write(is_input)
                .open(rt, NULL_DEVICE)?;
            forget(file);
        }
    }
    Ok(())
}

// An entry that only tests whether the descriptor is open.
fn stream(fd: i32) -> pollfd {
    pollfd {
        fd,
        events: 0,
        revents: 0,
    }
}
