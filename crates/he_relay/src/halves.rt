//! The halves of a socket's connection, which count the bytes that pass over them.

ghost use Rattle.std.specs.Prelude.{◌≡◌};

use crate::fault::{Breakage, PumpFault, Traffic, Unsent};
use crate::relaying::Connection;
use crate::watch::Watch;
use he_stream::limits::MOST_READS;
use he_stream::{Flushed, FromReader, InputStream, OutputStream, Put, Taken, ToWriter};
use libc::net::{POLLERR, POLLHUP, POLLIN, POLLNVAL, POLLRDHUP, poll};
use libc::types::pollfd;
use libc::{isatty, read};
use std::io::{Error, ErrorKind};
use std::net::{Shutdown, TcpStream};
use std::os::fd::AsRawFd;

// The descriptor of standard input.
const STANDARD_INPUT: i32 = 0;

// Wait without a limit, or not at all.
const FOREVER: i32 = -1;

const AT_ONCE: i32 = 0;

const MILLISECOND: i32 = 1;

const BROKEN: i16 = POLLHUP | POLLERR | POLLNVAL;

/// The default time that the relay waits for standard input after the remote's end, in milliseconds.
pub const DEFAULT_WAIT: u32 = 500;

/// A connection over a blocking socket, fed from standard input.
pub type SocketConnection<'s> = Connection<
    SendingHalf<'s>,
    InputWatch<'s>,
    ReceivingHalf<'s>,
    BreakWatch<'s>,
>;

/// The sending half of a socket.
#[derive(Drop)]
pub struct SendingHalf<'s> {
    writer: ToWriter<&'s TcpStream>,
    sent: u64,
    unsent: u64,
}

/// The receiving half of a socket.
#[derive(Drop)]
pub struct ReceivingHalf<'s> {
    reader: FromReader<&'s TcpStream>,
    received: u64,
}

/// Wants more of standard input until the connection has ended: until it broke or was shut down both ways, or the
/// remote has ended its way and standard input gave nothing for the time of the wait. At the way's end it shuts the
/// connection down for sending.
#[derive(Drop)]
pub struct InputWatch<'s> {
    stream: &'s TcpStream,
    // in milliseconds
    wait: i32,
    has_remote_ended: bool,
    // whether standard input is a terminal, whose unread lines are not yet data
    is_terminal: bool,
    // whether standard input had data after the end of its way
    has_more: bool,
}

/// Shuts the connection down both ways if the way from it fails.
#[derive(Drop)]
pub struct BreakWatch<'s> {
    stream: &'s TcpStream,
}

/// The connection over the socket, which must be blocking. After the remote's end standard input is read on as long
/// as it gives data at least every `wait` milliseconds.
pub fn over_socket(stream: &TcpStream, wait: u32) -> SocketConnection<'_> {
    Connection {
        sending: SendingHalf {
            writer: ToWriter::new(stream),
            sent: 0,
            unsent: 0,
        },
        sends: InputWatch {
            stream,
            wait: i32::try_from(wait).unwrap_or(i32::MAX),
            has_remote_ended: false,
            is_terminal: isatty(STANDARD_INPUT) == 1,
            has_more: false,
        },
        receiving: ReceivingHalf {
            reader: FromReader::new(stream),
            received: 0,
        },
        receives: BreakWatch { stream },
    }
}

impl<'s> SocketConnection<'s> {
    /// The number of bytes that passed over it.
    pub fn traffic(&self) -> Traffic {
        Traffic {
            sent: self.sending.sent,
            received: self.receiving.received,
        }
    }

    /// The bytes of the last write that the system did not accept when the connection broke off.
    pub fn unsent(&self) -> Unsent {
        Unsent(self.sending.unsent)
    }

    /// Whether standard input has data now, after the end of its way, that is not sent. Always false for a terminal.
    pub fn has_more(&mut self) -> bool
        ensures { result ≡ self.new.sends.has_more }
    {
        self.sends.has_more = !self.sends.is_terminal && has_bytes(STANDARD_INPUT);
        self.sends.has_more
    }

    /// Whether the remote reset the connection after the end of both ways, so that bytes that this machine's system
    /// accepted for sending did not arrive. It waits for the end of the sent data as long as for standard input.
    pub fn was_reset(&self) -> bool {
        if self.sending.sent == 0 {
            return false;
        }
        let stream = self.sends.stream;
        for _milliseconds in 0..self.sends.wait {
            if stream.peer_addr().is_err() {
                break;
            }
            let _ = poll(&mut [], MILLISECOND);
        }
        matches!(stream.take_error(), Ok(Some(_)))
    }

    /// How the connection broke off, if a read or a write of it failed.
    pub fn breakage(&self) -> Breakage {
        let failures = [self.receiving.failure(), self.sending.failure()];
        if has(&failures, ErrorKind::ConnectionReset) {
            Breakage::Reset
        } else if has(&failures, ErrorKind::TimedOut) {
            Breakage::TimedOut
        } else {
            Breakage::Other
        }
    }
}

// Whether a stream has bytes to read. An ended socket looks as if it had, so one byte of it is read.
fn has_bytes(fd: i32) -> bool {
    let mut watched = [watch(fd, POLLIN | POLLRDHUP)];
    let _ = poll(&mut watched, AT_ONCE);
    let found = watched[0].revents;
    found & POLLIN != 0 && (found & POLLRDHUP == 0 || read(fd, &mut [0u8]) > 0)
}

fn has(failures: &[Option<Error>; 2], kind: ErrorKind) -> bool {
    failures.iter().flatten().any(|error| error.kind() == kind)
}

impl<'s> OutputStream for SendingHalf<'s> {
    fn put(&mut self, text: &[u8]) -> Put {
        let put = self.writer.put(text);
        match put {
            Put::Bytes(count) => self.sent = self.sent.saturating_add(count as u64),
            Put::Full | Put::Failed => self.unsent = text.len() as u64,
            Put::Interrupted => {}
        }
        put
    }

    fn flush(&mut self) -> Flushed {
        self.writer.flush()
    }

    fn failure(&self) -> Option<Error> {
        self.writer.failure()
    }
}

impl<'s> InputStream for ReceivingHalf<'s> {
    fn take(&mut self, buffer: &mut [u8]) -> Taken {
        let taken = self.reader.take(buffer);
        if let Taken::Bytes(count) = taken {
            self.received = self.received.saturating_add(count as u64);
        }
        taken
    }

    fn failure(&self) -> Option<Error> {
        self.reader.failure()
    }
}

impl<'s> Watch for BreakWatch<'s> {
    fn wants_more(&mut self) -> bool {
        true
    }

    fn end(&mut self, end: Result<(), PumpFault>) {
        if end.is_err() {
            let _ = self.stream.shutdown(Shutdown::Both);
        }
    }
}

impl<'s> Watch for InputWatch<'s> {
    fn wants_more(&mut self) -> bool {
        for _waits in 0..MOST_READS {
            match self.wait() {
                Came::Input => return true,
                Came::End => return false,
                Came::RemoteEnd => self.has_remote_ended = true,
                Came::Nothing => {}
            }
        }
        false
    }

    fn end(&mut self, _end: Result<(), PumpFault>) {
        let _ = self.stream.shutdown(Shutdown::Write);
    }
}

// The result of a wait.
#[derive(Clone, Copy)]
enum Came {
    Input,
    // The remote has ended its way.
    RemoteEnd,
    // The connection has ended both ways, or the wait for the input is over.
    End,
    // The wait was interrupted.
    Nothing,
}

impl<'s> InputWatch<'s> {
    // Waits until standard input can be read or the connection has ended.
    fn wait(&self) -> Came {
        let (events, timeout) = if self.has_remote_ended {
            (0, self.wait)
        } else {
            (POLLRDHUP, FOREVER)
        };
        let mut watched = [
            watch(STANDARD_INPUT, POLLIN),
            watch(self.stream.as_raw_fd(), events),
        ];
        let count = poll(&mut watched, timeout);
        if count < 0 {
            Came::Nothing
        } else if watched[0].revents != 0 {
            Came::Input
        } else if count == 0 || watched[1].revents & BROKEN != 0 {
            Came::End
        } else {
            Came::RemoteEnd
        }
    }
}

fn watch(fd: i32, events: i16) -> pollfd {
    pollfd {
        fd,
        events,
        revents: 0,
    }
}
