//! Connections that end by a reset, and sockets that notice that their remote has vanished.

ghost use Rattle.std.specs.Prelude.{◌≡◌};
ghost use Rattle.libc.specs.Net.{SockOption};

use libc::net::{
    _SS_SIZE, AF_INET, AF_INET6, IPPROTO_TCP, POLLERR, POLLHUP, POLLOUT, SO_KEEPALIVE, SO_SNDBUF,
    SOL_SOCKET, TCP_KEEPIDLE, TCP_KEEPINTVL, TCP_NODELAY, connect, getpeername, getsockname,
    getsockopt, poll, setsockopt,
};
use libc::types::pollfd;
use std::net::{IpAddr, SocketAddr};
use std::os::fd::{AsRawFd, RawFd};
use tokio::net::TcpStream;

// The descriptors that are searched for a connection's: those after the standard streams.
const FIRST: RawFd = 3;

const MOST_DESCRIPTORS: RawFd = 1 << 20;

// The length of the address of no family (AF_UNSPEC), in octets.
const NO_ADDRESS: u32 = 16;

// The seconds of silence after which the remote is probed, and the seconds between two probes.
const SILENCE: u32 = 60;

// Don't wait.
const AT_ONCE: i32 = 0;

/// A connection to end by a reset (RST, RFC 9293 section 3.5.2), once the bytes that this machine's system accepted
/// are sent. An immediate reset would discard them.
#[derive(Drop)]
pub struct Cut {
    stream: TcpStream,
    // None if it is not found, for example because the remote has gone.
    fd: Option<RawFd>,
}

impl Cut {
    /// A cut of this connection.
    pub fn new(stream: TcpStream) -> Cut
        ensures { result.stream ≡ stream }
    {
        let fd = descriptor_of(&stream);
        if let Some(fd) = fd {
            // The system's minimum, so that unsent bytes show (`is_sent`).
            set(fd, SOL_SOCKET, SO_SNDBUF, 0);
        }
        Cut { stream, fd }
    }

    /// Whether all bytes are sent and have arrived, except at most two KiB under way; also true if the remote has
    /// gone.
    pub fn is_sent(&self) -> bool {
        match self.fd {
            Some(fd) => has(fd, POLLOUT | POLLERR | POLLHUP),
            None => true,
        }
    }

    /// Resets the connection; closes it if its descriptor isn't found.
    pub fn reset(self) {
        if let Some(fd) = self.fd {
            let no_address = [0u8; _SS_SIZE];
            let _ = unsafe { connect(fd, &no_address, NO_ADDRESS) };
        }
    }
}

/// Makes the system probe the remote of a silent connection each minute (RFC 9293 section 3.8.4). Connections that a
/// listening socket accepts inherit this. If the system refuses, nothing changes.
pub fn keep_alive<S: AsRawFd>(socket: &S) {
    let fd = socket.as_raw_fd();
    set(fd, SOL_SOCKET, SO_KEEPALIVE, 1);
    set(fd, IPPROTO_TCP, TCP_KEEPIDLE, SILENCE);
    set(fd, IPPROTO_TCP, TCP_KEEPINTVL, SILENCE);
}

/// Whether a write of at most 4,096 octets to the descriptor of a pipe, a file or a socket would not wait (poll(2)).
pub fn takes_now(fd: RawFd) -> bool {
    has(fd, POLLOUT | POLLERR | POLLHUP)
}

// The descriptor of the connection, found by its addresses: tokio gives none.
fn descriptor_of(stream: &TcpStream) -> Option<RawFd> {
    let remote = stream.peer_addr().ok()?;
    let local = stream.local_addr().ok()?;
    (FIRST..MOST_DESCRIPTORS).find(|fd| is_between(*fd, local, remote))
}

// Whether the descriptor is that of the TCP connection between these two addresses. A UDP socket may be between them
// too, but has no TCP options.
fn is_between(fd: RawFd, local: SocketAddr, remote: SocketAddr) -> bool {
    is_at(name_of(fd, Side::Remote), remote)
        && is_at(name_of(fd, Side::Local), local)
        && is_of_tcp(fd)
}

#[derive(Clone, Copy)]
enum Side {
    Local,
    Remote,
}

// The address of a socket as the system writes it (`sockaddr`); all zeros if it has none.
fn name_of(fd: RawFd, side: Side) -> [u8; _SS_SIZE] {
    let mut name = [0u8; _SS_SIZE];
    let mut len = _SS_SIZE as u32;
    let _ = match side {
        Side::Local => unsafe { getsockname(fd, &mut name, &mut len) },
        Side::Remote => unsafe { getpeername(fd, &mut name, &mut len) },
    };
    name
}

// Whether a system's address is this one: two octets of family and then the port, followed by the IPv4 address, or by
// four octets and the IPv6 address.
fn is_at(name: [u8; _SS_SIZE], socket: SocketAddr) -> bool {
    name[2..4] == socket.port().to_be_bytes()[..]
        && match socket.ip() {
            IpAddr::V4(ip) => i32::from(name[0]) == AF_INET && name[4..8] == ip.octets()[..],
            IpAddr::V6(ip) => i32::from(name[0]) == AF_INET6 && name[8..24] == ip.octets()[..],
        }
}

fn is_of_tcp(fd: RawFd) -> bool {
    let (mut value, mut len) = ([0u8; 16], 4);
    unsafe { getsockopt(fd, IPPROTO_TCP, TCP_NODELAY, &mut value, &mut len) == 0 }
}

fn set(fd: RawFd, level: i32, option: i32, number: u32)
    requires { SockOption level option }
{
    let mut value = [0u8; 16];
    value[..4].copy_from_slice(&number.to_ne_bytes());
    let _ = unsafe { setsockopt(fd, level, option, &value, 4) };
}

// Whether one of the events is pending now.
fn has(fd: RawFd, events: i16) -> bool {
    let mut watched = [pollfd {
        fd,
        events,
        revents: 0,
    }];
    let _ = poll(&mut watched, AT_ONCE);
    watched[0].revents & events != 0
}
