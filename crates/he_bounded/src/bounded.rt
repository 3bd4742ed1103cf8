//! A client of which no more is read than the body of its request.

ghost use Rattle.std.specs.Prelude.{◌≡◌};
ghost use Rattle.he_bounded.specs.Goes.{EndsWhole, StaysWithin};

use futures::task::{Context, Poll};
use he_body::Body;
use std::io;
use tokio::io::{AsyncRead, AsyncWrite};

/// A client with a request in progress. What it sends after the body is dropped: it is to ask again on another
/// connection, since the response reports that this one ends (RFC 9112 section 9.6).
#[derive(Drop)]
pub struct Bounded<R> {
    inner: R,
    body: Body,
    // The number of octets after the body that were dropped.
    dropped: usize,
}

impl<R: Drop> Bounded<R> {
    /// The client, of whose body so much has come.
    pub fn new(inner: R, body: Body) -> Bounded<R>
        ensures { (result.inner ≡ inner) × (result.body ≡ body) }
    {
        Bounded {
            inner,
            body,
            dropped: 0,
        }
    }

    /// Whether the whole body has come.
    pub fn is_over(&self) -> bool
        ensures within { StaysWithin self.now.body }
        ensures whole { EndsWhole self.now.body result }
    {
        self.body == Body::Over
    }

    /// The number of octets after the body that were dropped.
    pub fn dropped(&self) -> usize {
        self.dropped
    }

    /// The client.
    pub fn into_inner(self) -> R
        ensures { result ≡ self.inner }
    {
        let Bounded {
            inner,
            body: _,
            dropped: _,
        } = self;
        inner
    }
}

impl<R: AsyncRead> AsyncRead for Bounded<R> {
    ghost use Rattle.std.specs.Prelude.{ℕ, List, ◌++◌};
    ghost use Rattle.he_bounded.specs.Goes.{Goes};
    ghost use Rattle.he_bounded.specs.InOrder.{goes_nothing, goes_in_order};

    ghost needs = { λ r. R.needs r.inner };

    ghost reads = { λ a xs b. (dropped : List ℕ) × R.reads a.inner (xs ++ dropped) b.inner × Goes a.body xs dropped b.body };

    ghost is_at_end = { λ r. R.is_at_end r.inner };

    ghost reads_nothing = { λ r. goes_nothing R.reads r.inner r.body (R.reads_nothing r.inner) };

    ghost reads_in_order = { λ a xs b ys c p q. goes_in_order R.reads R.reads_in_order a.inner b.inner c.inner a.body b.body c.body xs ys p q };

    fn poll_read(&mut self, cx: &mut Context<'_>, buf: &mut [u8]) -> Poll<io::Result<usize>> {
        let count = match self.inner.poll_read(cx, buf) {
            Poll::Ready(Ok(count)) => count,
            polled => return polled,
        };
        if count == 0 {
            return Poll::Ready(Ok(0));
        }
        match self.body.take(&buf[..count]) {
            Ok(0) => {
                self.dropped = self.dropped.saturating_add(count);
                cx.yield_now()
            }
            Ok(taken) => {
                self.dropped = self.dropped.saturating_add(count - taken);
                Poll::Ready(Ok(taken))
            }
            Err(_) => Poll::Ready(Err(io::ErrorKind::InvalidData.into())),
        }
    }
}

impl<R: AsyncWrite> AsyncWrite for Bounded<R> {
    ghost use Rattle.he_bounded.specs.InOrder.{writes_in_turn, writes_nothing_on};

    ghost needs = { λ r. R.needs r.inner };

    ghost writes = { λ a xs b. R.writes a.inner xs b.inner × (b.body ≡ a.body) };

    ghost is_full = { λ r. R.is_full r.inner };

    ghost fails = { λ r. R.fails r.inner };

    ghost writes_nothing = { λ r. writes_nothing_on R.writes r.inner r.body (R.writes_nothing r.inner) };

    ghost writes_in_order = { λ a xs b ys c p q. writes_in_turn R.writes R.writes_in_order a.inner b.inner c.inner a.body b.body c.body xs ys p q };

    fn poll_write(&mut self, cx: &mut Context<'_>, buf: &[u8]) -> Poll<io::Result<usize>> {
        self.inner.poll_write(cx, buf)
    }

    fn poll_flush(&mut self, cx: &mut Context<'_>) -> Poll<io::Result<()>> {
        self.inner.poll_flush(cx)
    }

    fn poll_shutdown(&mut self, cx: &mut Context<'_>) -> Poll<io::Result<()>> {
        self.inner.poll_shutdown(cx)
    }
}
