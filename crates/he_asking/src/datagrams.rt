// A query over UDP (RFC 1035 section 4.2.1).

ghost use Rattle.std.specs.Prelude.{◌≡◌, IfErr, IfOk, IfSome, false};
ghost use Rattle.futures.specs.Poll.{IfReady, OnPending};
ghost use Rattle.futures.specs.Task.{Covers, Keeps};
ghost use Rattle.tokio.specs.Net.{stream_readable};
ghost use Rattle.he_settings.specs.Faults.{is_of_host};
ghost use Rattle.he_asking.specs.Said.{IsSent, RepliesTo};

use crate::limits::{DATAGRAM_ROOM, DATAGRAMS_IN_A_ROW, MOST_STEPS};
use crate::question::Question;
use crate::replies::{Reply, read_reply};
use crate::setup::Setup;
use futures::task::{Context, Poll};
use he_dns::write_query;
use he_settings::{Failure, NamesFault};
use std::alloc::Global;
use std::io;
use std::net::{Net, SocketAddr, UdpSocket};
use std::os::fd::OwnedFd;
use std::random::RandomSource;
use tokio::net::TcpStream;

// A query, and the socket for its answer.
#[derive(Drop)]
pub(crate) struct Datagrams {
    socket: TcpStream,
    id: u16,
    query: Vec<u8>,
    room: Vec<u8>,
    // Whether the first send succeeded.
    is_sent: bool,
}

impl Datagrams {
    // Sends the query from a port that the kernel chooses; None if the server is unreachable. A query that can't be
    // sent for another reason, as where a firewall rejects it, counts as lost. The socket is connected, so it
    // receives no datagram of another peer. The event loop has no UDP: its stream reads with `recv` and writes with
    // `send`, which work on a connected UDP socket too.
    pub(crate) fn send<R: Net + RandomSource>(
        setup: &Setup<'_, R>,
        server: SocketAddr,
        question: Question<'_>,
        room: Option<u16>,
    ) -> Result<Option<Datagrams>, NamesFault>
        ensures sent { IfOk result (λ query. IfSome query (IsSent question.entry.name.now.octets
            question.entry.family)) }
        ensures fault { IfErr result (λ fault. is_of_host fault ≡ false) }
    {
        let id = random_id(setup.rt)?;
        let query = write_query(setup.alloc, id, question.name, question.family, room)?;
        let socket = UdpSocket::bind(setup.rt, unspecified(server))?;
        let Some(is_sent) = send_first(&socket, server, &query) else {
            return Ok(None);
        };
        let socket = std::net::TcpStream::from(OwnedFd::from(socket));
        Ok(Some(Datagrams {
            socket: TcpStream::from_std(socket, setup.reactor)?,
            id,
            query,
            room: vec![in setup.alloc; 0; DATAGRAM_ROOM]?,
            is_sent,
        }))
    }

    pub(crate) fn is_sent(&self) -> bool {
        self.is_sent
    }

    // Sends the query again without the OPT record, for a server or a firewall that drops what it can't read (a
    // requestor falls back like this: RFC 6891 section 6.2.2). Returns whether the server is reachable.
    pub(crate) fn send_again(&mut self, alloc: Global, question: Question<'_>) -> bool
        ensures sent { IsSent question.entry.name.now.octets question.entry.family self.old
            → IsSent question.entry.name.now.octets question.entry.family self.new }
    {
        self.write_again(alloc, question);
        self.sends()
    }

    fn write_again(&mut self, alloc: Global, question: Question<'_>)
        ensures sent { IsSent question.entry.name.now.octets question.entry.family self.old
            → IsSent question.entry.name.now.octets question.entry.family self.new }
    {
        if let Ok(query) = write_query(alloc, self.id, question.name, question.family, None) {
            self.query = query;
        }
    }

    fn sends(&self) -> bool {
        for _ in 0..MOST_STEPS {
            match self.socket.try_write(&self.query) {
                Err(error) if error.kind() == io::ErrorKind::Interrupted => {}
                Err(error) => return !is_unreachable(&error),
                Ok(_) => return true,
            }
        }
        true
    }

    // The server's reply. Ignores any other datagram and reads on at once: one event may announce several datagrams.
    // Also ignores errors that don't make the server unreachable.
    pub(crate) fn poll_reply(
        &mut self,
        alloc: Global,
        question: Question<'_>,
        cx: &mut Context<'_>,
    ) -> Poll<Reply>
        ensures heard { IfReady result (RepliesTo self.old.id question.entry.name.now.octets question.entry.family) }
        ensures id { self.new.id ≡ self.old.id }
        ensures waits { OnPending result (Covers cx.new (λ s. s ≡ stream_readable self.new.socket)) }
        ensures kept { Keeps cx.old cx.new }
    {
        for _ in 0..DATAGRAMS_IN_A_ROW {
            match self.socket.try_read(&mut self.room) {
                Ok(len) => {
                    if let Some(reply) = read_reply(alloc, &self.room[..len], self.id, question) {
                        return Poll::Ready(reply);
                    }
                }
                Err(error) if error.kind() == io::ErrorKind::WouldBlock => {
                    match self.socket.poll_read_ready(cx) {
                        Poll::Pending => return Poll::Pending,
                        Poll::Ready(_) => {}
                    }
                }
                Err(error) if is_unreachable(&error) => {
                    return Poll::Ready(Reply::Failure(Failure::Unreachable));
                }
                Err(_) => {}
            }
        }
        cx.yield_now()
    }
}

// Whether the query was sent; None if the server is unreachable.
fn send_first(socket: &UdpSocket, server: SocketAddr, query: &[u8]) -> Option<bool> {
    if !connects(socket, server) {
        return None;
    }
    for _ in 0..MOST_STEPS {
        match socket.send(query) {
            Ok(_) => return Some(true),
            Err(error) if error.kind() == io::ErrorKind::Interrupted => {}
            Err(error) if is_unreachable(&error) => return None,
            Err(_) => return Some(false),
        }
    }
    Some(false)
}

fn connects(socket: &UdpSocket, server: SocketAddr) -> bool {
    for _ in 0..MOST_STEPS {
        match socket.connect(server) {
            Ok(()) => return true,
            Err(error) if error.kind() == io::ErrorKind::Interrupted => {}
            Err(_) => return false,
        }
    }
    false
}

// Whether the server is unreachable or nothing listens there. Any other error is this machine's and temporary.
fn is_unreachable(error: &io::Error) -> bool {
    matches!(
        error.kind(),
        io::ErrorKind::ConnectionRefused
            | io::ErrorKind::HostUnreachable
            | io::ErrorKind::NetworkUnreachable
    )
}

// An id that others can't guess.
pub(crate) fn random_id<R: RandomSource>(rt: &R) -> io::Result<u16> {
    let mut id = [0u8; 2];
    rt.fill_bytes(&mut id)?;
    Ok(u16::from_be_bytes(id))
}

// The unspecified address of the server's family, and port 0.
fn unspecified(server: SocketAddr) -> SocketAddr {
    match server {
        SocketAddr::V4(_) => SocketAddr::from(([0u8, 0, 0, 0], 0u16)),
        SocketAddr::V6(_) => SocketAddr::from(([0u16, 0, 0, 0, 0, 0, 0, 0], 0u16)),
    }
}
