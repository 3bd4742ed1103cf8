//! A server of which no more is read than one response.

ghost use Rattle.std.specs.Prelude.{◌≡◌, [], ⊤};
ghost use Rattle.he_response.specs.Answers.{Stands};

use crate::answer::Answer;
use crate::part::Part;
use futures::task::{Context, Poll};
use he_body::Body;
use std::alloc::Global;
use std::io;
use tokio::io::{AsyncRead, AsyncWrite};

/// A server with a response in progress, as the client is to read it: the heads are in their new form, and it ends
/// with the body, even if the server keeps its connection open.
#[derive(Drop)]
pub struct Returned<R> {
    inner: R,
    answer: Answer,
}

impl<R: Drop> Returned<R> {
    /// The server, of which nothing was read. The request may be HEAD.
    pub fn new(alloc: Global, inner: R, to_head: bool) -> Returned<R>
        ensures inner { result.inner ≡ inner }
        ensures answer { Stands to_head [] [] result.answer }
    {
        Returned {
            inner,
            answer: Answer::new(alloc, to_head),
        }
    }

    /// The server.
    pub fn into_inner(self) -> R
        ensures { result ≡ self.inner }
    {
        let Returned { inner, answer: _ } = self;
        inner
    }
}

impl<R: AsyncRead> AsyncRead for Returned<R> {
    ghost use Rattle.std.specs.Prelude.{◌⊎◌};
    ghost use Rattle.he_response.specs.Answers.{IsOver};
    ghost use Rattle.he_response.specs.Returns.{Returns, returns_nothing, returns_in_order};
    ghost use Rattle.he_response.specs.declared.part.Part.TheVariants.{Rest};

    ghost needs = { λ r. R.needs r.inner };

    ghost reads = { Returns R.reads };

    ghost is_at_end = { λ r. IsOver r.answer ⊎ ((r.answer.part ≡ Rest) × R.is_at_end r.inner) };

    ghost reads_nothing = { λ r. returns_nothing R.reads R.reads_nothing r };

    ghost reads_in_order = { λ a xs b ys c p q. returns_in_order R.reads R.reads_in_order a xs b ys c p q };

    fn poll_read(&mut self, cx: &mut Context<'_>, buf: &mut [u8]) -> Poll<io::Result<usize>> {
        if buf.is_empty() {
            return Poll::Ready(Ok(0));
        }
        if self.answer.holds() {
            return Poll::Ready(Ok(self.answer.give(buf)));
        }
        match self.answer.part() {
            Part::Head => self.poll_head(cx, buf),
            Part::Body(Body::Over) => Poll::Ready(Ok(0)),
            Part::Body(body) => self.poll_body(body, cx, buf),
            Part::Rest => self.inner.poll_read(cx, buf),
            Part::Broken => Poll::Ready(Err(io::ErrorKind::InvalidData.into())),
        }
    }
}

impl<R: AsyncRead> Returned<R> {
    ghost use Rattle.std.specs.Prelude.{◌≤◌, ◌<◌, Ok, length};
    ghost use Rattle.futures.specs.Task.{Covers, Keeps};
    ghost use Rattle.futures.specs.Poll.{OnPending};
    ghost use Rattle.tokio.specs.Io.Moved.{bytes_moved, count_moved};
    ghost use Rattle.he_response.specs.Answers.{IsOver, held};
    ghost use Rattle.he_response.specs.Returns.{Returns};

    // Takes a head that has come, or reads more of it. The room is for what is read, and holds nothing for the caller.
    fn poll_head(&mut self, cx: &mut Context<'_>, buf: &mut [u8]) -> Poll<io::Result<usize>>
        requires head { self.old.answer.part ≡ Part.Head }
        requires none { held self.old.answer ≡ [] }
        ensures bytes { Returns R.reads self.old [] self.new }
        ensures nothing { count_moved result ≡ 0 }
        ensures going { result ≡ Poll.Ready (Ok 0) → ⊥ }
        ensures registered { OnPending result (Covers cx.new (R.needs self.new.inner)) }
        ensures kept { Keeps cx.old cx.new }
    {
        match self.answer.take_head() {
            Ok(true) => return cx.yield_now(),
            Ok(false) => {}
            Err(fault) => return Poll::Ready(Err(fault)),
        }
        let count = match self.inner.poll_read(cx, buf) {
            Poll::Ready(Ok(0)) => return Poll::Ready(Err(io::ErrorKind::UnexpectedEof.into())),
            Poll::Ready(Ok(count)) => count,
            Poll::Ready(Err(fault)) => return Poll::Ready(Err(fault)),
            Poll::Pending => return Poll::Pending,
        };
        match self.answer.hear(&buf[..count]) {
            Ok(()) => cx.yield_now(),
            Err(fault) => Poll::Ready(Err(fault)),
        }
    }

    // Reads more of the body.
    fn poll_body(
        &mut self,
        body: Body,
        cx: &mut Context<'_>,
        buf: &mut [u8],
    ) -> Poll<io::Result<usize>>
        requires part { self.old.answer.part ≡ Part.Body body }
        requires none { held self.old.answer ≡ [] }
        ensures bound { count_moved result ≤ length buf.new }
        ensures bytes { Returns R.reads self.old (bytes_moved result buf.new) self.new }
        ensures end { result ≡ Poll.Ready (Ok 0) → 0 < length buf.old → IsOver self.new.answer }
        ensures registered { OnPending result (Covers cx.new (R.needs self.new.inner)) }
        ensures kept { Keeps cx.old cx.new }
    {
        let count = match self.inner.poll_read(cx, buf) {
            Poll::Ready(Ok(0)) => return Poll::Ready(Err(io::ErrorKind::UnexpectedEof.into())),
            Poll::Ready(Ok(count)) => count,
            Poll::Ready(Err(fault)) => return Poll::Ready(Err(fault)),
            Poll::Pending => return Poll::Pending,
        };
        match self.answer.count(body, &buf[..count]) {
            Ok(taken) => Poll::Ready(Ok(taken)),
            Err(fault) => Poll::Ready(Err(fault)),
        }
    }
}

impl<R: AsyncWrite> AsyncWrite for Returned<R> {
    ghost use Rattle.he_response.specs.Returns.{writes_in_turn, writes_nothing_on};

    ghost needs = { λ r. R.needs r.inner };

    ghost writes = { λ a xs b. R.writes a.inner xs b.inner × (b.answer ≡ a.answer) };

    ghost is_full = { λ r. R.is_full r.inner };

    ghost fails = { λ r. R.fails r.inner };

    ghost writes_nothing = { λ r. writes_nothing_on R.writes r.inner r.answer (R.writes_nothing r.inner) };

    ghost writes_in_order = { λ a xs b ys c p q. writes_in_turn R.writes R.writes_in_order a.inner b.inner c.inner a.answer b.answer c.answer xs ys p q };

    fn poll_write(&mut self, cx: &mut Context<'_>, buf: &[u8]) -> Poll<io::Result<usize>> {
        self.inner.poll_write(cx, buf)
    }

    fn poll_flush(&mut self, cx: &mut Context<'_>) -> Poll<io::Result<()>> {
        self.inner.poll_flush(cx)
    }

    fn poll_shutdown(&mut self, cx: &mut Context<'_>) -> Poll<io::Result<()>> {
        self.inner.poll_shutdown(cx)
    }
}
