//! One way of a polled relay: copies a reader to a writer, a little at a time.
ghost use Rattle.std.specs.Prelude.{◌≡◌, ◌^◌, ◌<◌, ◌≤◌, true, length, IfOk, IsTrue, Ok};
ghost use Rattle.futures.specs.Poll.{OnPending};
ghost use Rattle.futures.specs.Task.{IsArmed, Keeps};
ghost use Rattle.tokio.specs.Io.Moved.{IfReadyErr, OnReadyOk, bytes_moved, count_moved};

use futures::ready;
use futures::task::{Context, Poll};
use std::alloc::AllocError;
use std::io;
use tokio::io::{AsyncRead, AsyncWrite};

// The maximum number of bytes read at once: at first, and once a read has filled that room.
const LEAST_ROOM: usize = 2_048;

const ROOM: usize = 16_384;

// The maximum number of reads and writes in one poll, before other tasks are polled.
const MOST_STEPS: usize = 4;

/// Why a way broke off.
#[derive(Clone, Copy, Debug, PartialEq, Eq)]
pub enum WayFault {
    /// A read failed.
    Reader,
    /// A write or the shutdown failed, or a write took no byte.
    Writer,
}

/// One way of a polled relay: the bytes that were read and aren't written yet.
#[derive(Drop)]
pub struct Way {
    room: Vec<u8>,
    from: usize,
    to: usize,
    // Whether the reader has ended.
    has_ended: bool,
    // Whether the writer was shut down after the last byte.
    is_shut: bool,
    // Whether the last read filled the room.
    is_busy: bool,
    // The number of bytes written.
    moved: u64,
    ghost within: { (from ≤ to) × (to ≤ length room.items) × (0 < length room.items) },
    ghost over: { is_shut ≡ true → (has_ended ≡ true) × (from ≡ to) },
    ghost fits: { moved < 2 ^ 64 },
}

impl Way {
    ghost use Rattle.he_relay.specs.Ways.{Begins, Breaks, IsAfter, IsAsEmpty, IsOver, Moves, held};

    /// A way that first writes these early bytes, and then those that it reads.
    ///
    /// # Errors
    ///
    /// `AllocError` if an allocation failed.
    pub fn new(early: Vec<u8>) -> Result<Way, AllocError>
        ensures { IfOk result (Begins early.items) }
    {
        let mut room = early;
        let to = room.len();
        room.resize(to.max(LEAST_ROOM), 0)?;
        Ok(Way {
            room,
            from: 0,
            to,
            has_ended: false,
            is_shut: false,
            is_busy: false,
            moved: 0,
        })
    }

    /// The number of bytes written, at most 2^64 - 1.
    pub fn moved(&self) -> u64
        ensures { result ≡ self.now.moved }
    {
        self.moved
    }

    /// Whether the reader has ended, all its bytes are written, and the writer is shut down.
    pub fn is_over(&self) -> bool
        ensures { IsTrue result → IsOver self.now }
    {
        self.is_shut
    }

    /// Reads and writes until it would have to wait, but only a few times, and then lets other tasks run. Ready once
    /// the reader has ended, all its bytes are written, and the writer is shut down.
    ///
    /// # Errors
    ///
    /// - `Reader` if a read failed.
    /// - `Writer` if a write or the shutdown failed, or a write took no byte.
    pub fn poll_way<R: AsyncRead, W: AsyncWrite>(
        &mut self,
        reader: &mut R,
        writer: &mut W,
        cx: &mut Context<'_>,
    ) -> Poll<Result<(), WayFault>>
        ensures moves { Moves R.reads W.writes R.is_at_end
            self.old reader.old writer.old self.new reader.new writer.new }
        ensures over { OnReadyOk result (IsOver self.new) }
        ensures broke { IfReadyErr result
            (Breaks R.fails W.fails W.is_full reader.new writer.new) }
        ensures armed { OnPending result (IsArmed cx.new) }
        ensures kept { Keeps cx.old cx.new }
    {
        for _ in 0..MOST_STEPS {
            if self.is_shut {
                return Poll::Ready(Ok(()));
            }
            if let Err(fault) = ready!(self.poll_step(reader, writer, cx)) {
                return Poll::Ready(Err(fault));
            }
        }
        cx.yield_now()
    }

    // Does one read, one write, or the shutdown at the end.
    fn poll_step<R: AsyncRead, W: AsyncWrite>(
        &mut self,
        reader: &mut R,
        writer: &mut W,
        cx: &mut Context<'_>,
    ) -> Poll<Result<(), WayFault>>
        ensures moves { Moves R.reads W.writes R.is_at_end
            self.old reader.old writer.old self.new reader.new writer.new }
        ensures broke { IfReadyErr result
            (Breaks R.fails W.fails W.is_full reader.new writer.new) }
        ensures armed { OnPending result (IsArmed cx.new) }
        ensures kept { Keeps cx.old cx.new }
    {
        if self.from < self.to {
            return match ready!(self.poll_put(writer, cx)) {
                Ok(0) | Err(_) => Poll::Ready(Err(WayFault::Writer)),
                Ok(_) => Poll::Ready(Ok(())),
            };
        }
        if self.has_ended {
            return match ready!(writer.poll_shutdown(cx)) {
                Ok(()) => {
                    self.is_shut = true;
                    Poll::Ready(Ok(()))
                }
                Err(_) => Poll::Ready(Err(WayFault::Writer)),
            };
        }
        self.from = 0;
        self.to = 0;
        self.widen();
        match reader.poll_read(cx, self.room.as_mut_slice()) {
            Poll::Pending => {
                self.narrow();
                Poll::Pending
            }
            Poll::Ready(Ok(count)) => {
                self.to = count;
                self.is_busy = count == self.room.len();
                self.has_ended = count == 0;
                Poll::Ready(Ok(()))
            }
            Poll::Ready(Err(_)) => Poll::Ready(Err(WayFault::Reader)),
        }
    }

    // Enlarges the room if the last read filled it. If the allocation fails, it is unchanged.
    fn widen(&mut self)
        requires empty { self.old.to ≡ 0 }
        ensures { IsAsEmpty self.old self.new }
    {
        if self.is_busy && self.room.len() < ROOM {
            let _ = self.room.resize(ROOM, 0);
        }
    }

    // Shrinks the room when there is nothing to read now: an idle tunnel keeps little memory.
    fn narrow(&mut self)
        requires empty { self.old.to ≡ 0 }
        ensures { IsAsEmpty self.old self.new }
    {
        self.room.truncate(LEAST_ROOM);
        self.room.shrink_to_fit();
    }

    // Writes held bytes once, and counts those written.
    fn poll_put<W: AsyncWrite>(
        &mut self,
        writer: &mut W,
        cx: &mut Context<'_>,
    ) -> Poll<io::Result<usize>>
        requires { self.old.from < self.old.to }
        ensures bytes { W.writes writer.old (bytes_moved result (held self.old)) writer.new }
        ensures bound { count_moved result ≤ length (held self.old) }
        ensures rest { IsAfter (count_moved result) self.old self.new }
        ensures full { result ≡ Poll.Ready (Ok 0) → W.is_full writer.new }
        ensures failed { IfReadyErr result (W.fails writer.new) }
        ensures armed { OnPending result (IsArmed cx.new) }
        ensures kept { Keeps cx.old cx.new }
    {
        let put = writer.poll_write(cx, &self.room[self.from..self.to]);
        if let Poll::Ready(Ok(count)) = &put {
            self.from += *count;
            self.moved = self.moved.saturating_add(*count as u64);
        }
        put
    }
}
