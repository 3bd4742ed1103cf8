//! Reads from a client before its tunnel is open.
ghost use Rattle.std.specs.Prelude.{◌<◌, vec_len};
ghost use Rattle.futures.specs.Poll.{OnPending};
ghost use Rattle.futures.specs.Task.{IsArmed, Keeps};
ghost use Rattle.he_sessions.specs.Went.{Hears, Lingers, UnlessNoMemory};

use futures::task::{Context, Poll};
use he_addr::Memory;
use std::io;
use tokio::io::{AsyncRead, AsyncWrite};

// The most octets of one read before the tunnel is open.
const ROOM: usize = 2_048;

/// The result of a read.
#[derive(Clone, Copy, PartialEq, Eq)]
pub(crate) enum Heard {
    Octets,
    End,
    Broken,
    NoMemory,
}

// Reads once from the client. At most `most` octets are kept.
pub(crate) fn poll_hear<S: AsyncRead>(
    client: &mut S,
    come: &mut Vec<u8>,
    most: usize,
    cx: &mut Context<'_>,
) -> Poll<Heard>
    requires { vec_len come.old < most }
    ensures heard { UnlessNoMemory result (Hears S.reads client.old client.new come.old.items come.new.items) }
    ensures armed { OnPending result (IsArmed cx.new) }
    ensures kept { Keeps cx.old cx.new }
{
    let mut room = [0; ROOM];
    let left = (most - come.len()).min(ROOM);
    match client.poll_read(cx, &mut room[..left]) {
        Poll::Pending => Poll::Pending,
        Poll::Ready(Ok(0)) => Poll::Ready(Heard::End),
        Poll::Ready(Err(_)) => Poll::Ready(Heard::Broken),
        Poll::Ready(Ok(count)) => Poll::Ready(match come.extend_from_slice(&room[..count]) {
            Ok(()) => Heard::Octets,
            Err(Memory) => Heard::NoMemory,
        }),
    }
}

// Shuts down the direction to a client that gets no more, and then reads what it still sends.
pub(crate) fn poll_linger<S: AsyncRead + AsyncWrite>(
    client: &mut S,
    cx: &mut Context<'_>,
) -> Poll<io::Result<usize>>
    ensures lingers { Lingers S.reads S.writes client.old client.new }
    ensures armed { OnPending result (IsArmed cx.new) }
    ensures kept { Keeps cx.old cx.new }
{
    let mut room = [0; ROOM];
    match client.poll_shutdown(cx) {
        Poll::Pending => Poll::Pending,
        Poll::Ready(Ok(())) => client.poll_read(cx, &mut room),
        Poll::Ready(Err(error)) => Poll::Ready(Err(error)),
    }
}
