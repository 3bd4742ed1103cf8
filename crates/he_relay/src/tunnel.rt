//! Connects two connections to each other, a little at a time.
ghost use Rattle.std.specs.Prelude.{◌≡◌, IfOk, IsTrue};
ghost use Rattle.futures.specs.Poll.{OnPending};
ghost use Rattle.futures.specs.Task.{IsArmed, Keeps};
ghost use Rattle.tokio.specs.Io.Moved.{IfReadyErr, OnReadyOk};

use crate::fault::Traffic;
use crate::way::{Way, WayFault};
use futures::ready;
use futures::task::{Context, Poll};
use std::alloc::{AllocError, Global};
use tokio::io::{AsyncRead, AsyncWrite};

/// Which connection of a tunnel broke off.
#[derive(Clone, Copy, Debug, PartialEq, Eq)]
pub enum Broke {
    /// The one to the client.
    Client,
    /// The one to the server.
    Server,
}

/// Two connections, each of which gets the other's bytes. When one ends, the other is shut down only for sending, so
/// that its remote can still answer (RFC 9293 section 3.6).
#[derive(Drop)]
pub struct Tunnel<A, B> {
    client: A,
    server: B,
    // From the client to the server.
    there: Way,
    // From the server to the client.
    back: Way,
    // The connection that takes no more; the bytes that it gave before are still passed on.
    broke: Option<Broke>,
}

impl<A: AsyncRead + AsyncWrite, B: AsyncRead + AsyncWrite> Tunnel<A, B> {
    ghost use Rattle.he_relay.specs.Tunnels.{AreOver, HasGivenAll, IsBegun, MovesBoth};
    ghost use Rattle.he_relay.specs.Ways.{IsOver};

    /// A tunnel that first writes the client's early data to the server.
    ///
    /// # Errors
    ///
    /// `AllocError` if an allocation failed.
    pub fn new(
        alloc: Global,
        client: A,
        server: B,
        early: Vec<u8>,
    ) -> Result<Tunnel<A, B>, AllocError>
        ensures { IfOk result (IsBegun client server early.items) }
    {
        Ok(Tunnel {
            client,
            server,
            there: Way::new(early)?,
            back: Way::new(Vec::new(alloc))?,
            broke: None,
        })
    }

    /// Reads and writes until both ways would have to wait, but only a few times, and then lets other tasks run.
    /// Ready once both ways have ended. If a connection takes no more, the bytes that it gave are passed on first,
    /// such as the response of a server that stopped reading (RFC 9110 section 9.3.6).
    ///
    /// # Errors
    ///
    /// The connection on which a read or a write failed, for example because the remote reset it.
    #[tactic(auto, using(crate::proofs::Moved::no_step))]
    pub fn poll_tunnel(&mut self, cx: &mut Context<'_>) -> Poll<Result<(), Broke>>
        ensures moves { MovesBoth A.reads A.writes A.is_at_end B.reads B.writes B.is_at_end self.old self.new }
        ensures over { OnReadyOk result (AreOver self.new) }
        ensures broke { IfReadyErr result (HasGivenAll A.AsyncRead.fails A.AsyncWrite.fails A.is_full
            B.AsyncRead.fails B.AsyncWrite.fails B.is_full self.new) }
        ensures armed { OnPending result (IsArmed cx.new) }
        ensures kept { Keeps cx.old cx.new }
    {
        match self.broke {
            Some(Broke::Client) => {
                let _ = ready!(self.there.poll_way(&mut self.client, &mut self.server, cx));
                return Poll::Ready(Err(Broke::Client));
            }
            Some(Broke::Server) => {
                let _ = ready!(self.back.poll_way(&mut self.server, &mut self.client, cx));
                return Poll::Ready(Err(Broke::Server));
            }
            None => {}
        }
        let there = self.there.poll_way(&mut self.client, &mut self.server, cx);
        if let Poll::Ready(Err(WayFault::Reader)) = there {
            return Poll::Ready(Err(Broke::Client));
        }
        let back = self.back.poll_way(&mut self.server, &mut self.client, cx);
        match (there, back) {
            (_, Poll::Ready(Err(WayFault::Reader))) => Poll::Ready(Err(Broke::Server)),
            (Poll::Ready(Ok(())), Poll::Ready(Ok(()))) => Poll::Ready(Ok(())),
            (Poll::Ready(Ok(())), Poll::Ready(Err(_))) => Poll::Ready(Err(Broke::Client)),
            (Poll::Ready(Err(_)), Poll::Ready(_)) => Poll::Ready(Err(Broke::Server)),
            (Poll::Ready(Err(_)), Poll::Pending) => {
                self.broke = Some(Broke::Server);
                Poll::Pending
            }
            (Poll::Pending, Poll::Ready(Err(_))) => {
                self.broke = Some(Broke::Client);
                Poll::Pending
            }
            _ => Poll::Pending,
        }
    }

    /// The two connections: the client's and the server's.
    pub fn into_ends(self) -> (A, B)
        ensures { (result.0 ≡ self.client) × (result.1 ≡ self.server) }
    {
        let Tunnel {
            client,
            server,
            there: _,
            back: _,
            broke: _,
        } = self;
        (client, server)
    }

    /// The client.
    pub fn client(&self) -> &A
        ensures { result.now ≡ self.now.client }
    {
        &self.client
    }

    /// Whether the server has ended its way, and all its bytes and their end are passed on to the client.
    pub fn is_answered(&self) -> bool
        ensures { IsTrue result → IsOver self.now.back }
    {
        self.back.is_over()
    }

    /// The number of bytes written: to the server, and to the client.
    pub fn traffic(&self) -> Traffic
        ensures { (result.sent ≡ self.now.there.moved) × (result.received ≡ self.now.back.moved) }
    {
        Traffic {
            sent: self.there.moved(),
            received: self.back.moved(),
        }
    }
}
