//! The proxy's clients, as sessions that begin.
ghost use Rattle.std.specs.Prelude.{◌≡◌, IfOk, IfSome};
ghost use Rattle.futures.specs.Poll.{OnPending};
ghost use Rattle.futures.specs.Task.{IsArmed, Keeps};

use futures::stream::Stream;
use futures::task::{Context, Poll};
use futures::{Future, ready};
use he_live::Reason;
use std::io;
use std::net::SocketAddr;
use std::time::{Clock, Duration, Instant};
use tokio::net::TcpStream;
use tokio::time::{Handle, Sleep};

// Milliseconds without accepts after this machine could not make a socket for a client, as for lack of a descriptor.
const REST: u64 = 1_000;

// Milliseconds without accepts while the limit of beginning sessions is reached.
const WAIT: u64 = 5;

// The most clients that one poll refuses.
const MOST_TURNED_AWAY: u32 = 64;

/// Handles clients.
pub trait Service {
    type Session: Future<Output = ()>;

    /// The session of a client; None if it is not served, or an allocation fails.
    fn begin(&self, client: TcpStream, address: SocketAddr) -> Option<Self::Session>
        ensures { IfSome result Self.Session.can_poll };

    /// Whether no client may be accepted now, since the limit of beginning sessions is reached. It is asked again
    /// after the event loop was polled.
    fn is_full(&self) -> bool;

    /// This machine could not make a socket for a client: called the first time after one was accepted.
    fn tell_rest(&self, why: Reason);
}

/// The clients that sockets accept, each as its session. If this machine can't make a socket for a client, it accepts
/// none for a second; at the limit of beginning sessions it accepts none until there is room.
#[derive(Drop)]
pub struct Clients<'q, K: Clock, V: Service, S: Stream> {
    clock: &'q K,
    service: &'q V,
    sockets: S,
    rest: Sleep,
    is_resting: bool,
    // Whether a rest was reported since a client was accepted.
    has_told: bool,
}

impl<'q, K: Clock, V: Service, S: Stream<Item = io::Result<TcpStream>>> Clients<'q, K, V, S> {
    /// The clients of these sockets.
    ///
    /// # Errors
    ///
    /// Those of the clock, and `OutOfMemory`.
    pub fn new(
        clock: &'q K,
        timers: &Handle,
        service: &'q V,
        sockets: S,
    ) -> io::Result<Clients<'q, K, V, S>>
        ensures { IfOk result (λ clients. clients.sockets ≡ sockets) }
    {
        let now = Instant::now(clock)?;
        let Ok(rest) = timers.sleep_until(now) else {
            return Err(io::ErrorKind::OutOfMemory.into());
        };
        Ok(Clients {
            clock,
            service,
            sockets,
            rest,
            is_resting: false,
            has_told: false,
        })
    }

    // Waits for the end of the rest, if any.
    fn poll_rest(&mut self, cx: &mut Context<'_>) -> Poll<()>
        ensures armed { OnPending result (IsArmed cx.new) }
        ensures same { self.new.sockets ≡ self.old.sockets }
        ensures kept { Keeps cx.old cx.new }
    {
        if self.is_resting {
            let _ = ready!(self.rest.poll(cx));
            self.is_resting = false;
        }
        Poll::Ready(())
    }

    // The session of an accepted client, if it is served.
    fn session_of(&mut self, accepted: io::Result<TcpStream>) -> Option<V::Session>
        ensures can { IfSome result V.Session.can_poll }
        ensures same { self.new.sockets ≡ self.old.sockets }
    {
        match accepted {
            Ok(client) => {
                self.has_told = false;
                match client.peer_addr() {
                    Ok(address) => self.service.begin(client, address),
                    Err(_) => None,
                }
            }
            Err(error) => {
                self.begin_rest(Reason::of(&error));
                None
            }
        }
    }

    // Begins a rest if this machine could not make a socket for a client. Any other error is that client's own.
    fn begin_rest(&mut self, why: Reason)
        ensures { self.new.sockets ≡ self.old.sockets }
    {
        if !why.is_local() {
            return;
        }
        self.rest_for(REST);
        if !self.has_told {
            self.has_told = true;
            self.service.tell_rest(why);
        }
    }

    // Begins a rest of this number of milliseconds; none if the clock fails.
    fn rest_for(&mut self, millis: u64)
        ensures { self.new.sockets ≡ self.old.sockets }
    {
        if let Ok(now) = Instant::now(self.clock)
            && let Some(end) = now.checked_add(Duration::from_millis(millis))
        {
            self.rest.reset(end);
            self.is_resting = true;
        }
    }
}

impl<'q, K, V, S> Stream for Clients<'q, K, V, S>
where
    K: Clock,
    V: Service,
    S: Stream<Item = io::Result<TcpStream>>,
{
    type Item = V::Session;

    ghost use Rattle.std.specs.Prelude.{IfSome};

    ghost can_poll = { λ m. S.can_poll m.sockets };

    ghost yields = { λ _ _ last. IfSome last V.Session.can_poll };

    fn poll_next(&mut self, cx: &mut Context<'_>) -> Poll<Option<V::Session>> {
        for _ in 0..MOST_TURNED_AWAY {
            ready!(self.poll_rest(cx));
            if self.service.is_full() {
                self.rest_for(WAIT);
                continue;
            }
            let Some(accepted) = ready!(self.sockets.poll_next(cx)) else {
                return Poll::Ready(None);
            };
            if let Some(session) = self.session_of(accepted) {
                return Poll::Ready(Some(session));
            }
        }
        cx.yield_now()
    }
}
