//! A connection attempt in progress.

ghost use Rattle.std.specs.Prelude.{◌≡◌, IfOk};
ghost use Rattle.futures.specs.Poll.{OnPending};
ghost use Rattle.futures.specs.Task.{Covers, Keeps};
ghost use Rattle.tokio.specs.Net.{stream_writable};

use crate::dialed::Dialed;
use futures::task::{Context, Poll};
use std::io;
use std::net::{Net, SocketAddr, TcpStream};
use std::os::fd::OwnedFd;
use tokio::io::AsyncWrite;
use tokio::reactor::Handle;

// The event loop doesn't give a socket back, so it has one descriptor of it, and a second one is kept here.
#[derive(Drop)]
pub(crate) struct Dialing {
    to: SocketAddr,
    watched: tokio::net::TcpStream,
    kept: TcpStream,
}

impl Dialing {
    pub(crate) fn begin<N: Net>(net: &N, to: SocketAddr, reactor: &Handle) -> io::Result<Dialing>
        ensures { IfOk result (λ dialing. dialing.to ≡ to) }
    {
        let kept = TcpStream::from(OwnedFd::from(mio::net::TcpStream::connect(net, to)?));
        let watched = tokio::net::TcpStream::from_std(kept.try_clone()?, reactor)?;
        Ok(Dialing { to, watched, kept })
    }

    // Ready once the connection is made, or with the error that it failed with.
    //
    // The system is asked first, even where the event loop has not polled the socket yet, as after a SIGSTOP: only a
    // connected socket has a peer address, and the socket's error is that of a failed connection. An ICMP error that
    // comes during connect(2), as from this machine's own firewall, is only there: no send reports it. A socket
    // counts as writable until the event loop has polled it. A send of no bytes would block while the connection is
    // being made, so that the loop waits for its end.
    pub(crate) fn poll_connected(&mut self, cx: &mut Context<'_>) -> Poll<io::Result<()>>
        ensures waits { OnPending result (Covers cx.new (λ source. source ≡ stream_writable self.new.watched)) }
        ensures same { self.new.to ≡ self.old.to }
        ensures kept { Keeps cx.old cx.new }
    {
        if self.kept.peer_addr().is_ok() {
            return Poll::Ready(Ok(()));
        }
        if let Ok(Some(error)) = self.kept.take_error() {
            return Poll::Ready(Err(error));
        }
        match self.watched.poll_write(cx, &[]) {
            Poll::Pending => Poll::Pending,
            Poll::Ready(Err(error)) => Poll::Ready(Err(error)),
            // It connected just now.
            Poll::Ready(Ok(_)) => cx.yield_now(),
        }
    }

    // Takes the connection out of the event loop and makes it blocking.
    pub(crate) fn into_dialed(self) -> io::Result<Dialed>
        ensures { IfOk result (λ dialed. dialed.to ≡ self.to) }
    {
        self.kept.set_nonblocking(false)?;
        Ok(Dialed::new(self.to, self.kept))
    }
}
