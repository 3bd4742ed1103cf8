//! One client's connection: reads its request, races for it, answers or forwards it, and relays.
ghost use Rattle.std.specs.Prelude.{IfOk};
ghost use Rattle.he_sessions.specs.Sessions.{IsAt, IsPolled, IsStep, MayPoll};

use crate::ending::{Ending, SessionEnd};
use crate::racer::{Racer, Winner};
use crate::states::{Asking, State};
use bytes::BytesMut;
use futures::Future;
use futures::task::{Context, Poll};
use he_front::{Asked, Ended, RequestLine, request_line};
use he_handshake::Stage;
use std::alloc::Global;
use std::io;
use std::mem::replace;
use std::net::SocketAddr;
use std::string::String;
use std::time::{Clock, Duration};
use tokio::time::{Handle, Sleep};

// The most steps in one poll.
const MOST_STEPS: usize = 8;

/// How long a session may wait.
#[derive(Clone, Copy, Debug, PartialEq, Eq)]
pub struct Limits {
    /// For the complete request, and for an answer to be taken.
    pub request: Duration,
    /// For a byte to move in the tunnel, in either direction. `None`: without limit.
    pub idle: Option<Duration>,
}

// A client, and the racer.
#[derive(Clone, Copy)]
pub(crate) struct Asker<'q, Q> {
    pub(crate) racer: &'q Q,
    pub(crate) address: SocketAddr,
}

/// A client's connection as a task: a future that is ready once the connection is closed.
#[derive(Drop)]
pub struct Session<'q, K: Clock, Q: Racer> {
    pub(crate) clock: &'q K,
    pub(crate) alloc: Global,
    pub(crate) asker: Asker<'q, Q>,
    pub(crate) limits: Limits,
    // Ends at the limit of the current wait.
    pub(crate) sleep: Sleep,
    // Until the first octet has come.
    pub(crate) place: Option<Q::Place>,
    // The target of the request; an empty host before.
    pub(crate) asked: Asked,
    // The octets of an HTTP request that is not for a tunnel; of one to forward only the method.
    pub(crate) request: Option<Vec<u8>>,
    // The name of the user, for the log.
    pub(crate) user: Option<Vec<u8>>,
    pub(crate) result: Option<Result<Winner, Ended>>,
    pub(crate) sent: u64,
    pub(crate) received: u64,
    pub(crate) state: State<Q::Race, Q::Stream>,
}

impl<'q, K: Clock, Q: Racer> Session<'q, K, Q> {
    /// The session of a client that has just connected from the address, and is served.
    ///
    /// # Errors
    ///
    /// If the clock can't be read, or an allocation fails.
    pub fn new(
        clock: &'q K,
        alloc: Global,
        timers: &Handle,
        racer: &'q Q,
        client: Q::Stream,
        address: SocketAddr,
        limits: Limits,
    ) -> io::Result<Session<'q, K, Q>>
        requires { Q.serves racer.now address }
        ensures can { IfOk result (λ session. Q.serves session.asker.racer.now session.asker.address
            × MayPoll Q.Racer Q.Race.Future Q.Stream.reads Q.Stream.writes Q.Stream.cuts session session.state) }
        ensures begun { IfOk result (λ session.
            IsAt Q.Racer Q.Race.Future Q.Stream.reads Q.Stream.writes Q.Stream.cuts client session session.state) }
    {
        let sleep = timers.sleep(clock, limits.request)?;
        let place = racer.place(address)?;
        Ok(Session {
            clock,
            alloc,
            asker: Asker { racer, address },
            limits,
            sleep,
            place: Some(place),
            asked: Asked {
                host: String::new(alloc),
                port: 0,
            },
            request: None,
            user: None,
            result: None,
            sent: 0,
            received: 0,
            state: State::Asking(Asking {
                client,
                come: Vec::new(alloc),
                stage: Stage::New,
                reply: BytesMut::new(alloc),
            }),
        })
    }
}

// The next action of a session.
#[derive(Clone, Copy, PartialEq, Eq)]
pub(crate) enum Next {
    Waits,
    GoesOn,
    Ends(Ending),
}

impl<'q, K: Clock, Q: Racer> Session<'q, K, Q> {
    fn step(&mut self, cx: &mut Context<'_>) -> Next
        requires { MayPoll Q.Racer Q.Race.Future Q.Stream.reads Q.Stream.writes Q.Stream.cuts self.old self.old.state }
        ensures step { IsStep Q.Racer Q.Race.Future Q.Stream.reads Q.Stream.writes Q.Stream.cuts self.old
            self.old.state self.new }
        ensures polled { IsPolled result cx.old cx.new }
    {
        match replace(&mut self.state, State::Over) {
            State::Asking(asking) => self.step_asking(asking, cx),
            State::Racing(racing) => self.step_racing(racing, cx),
            State::Answering(answering) => self.step_answering(answering, cx),
            State::Closing(closing) => self.step_closing(closing, cx),
            State::Relaying(relaying) => self.step_relaying(relaying, cx),
            State::Forwarding(forwarding) => self.step_forwarding(forwarding, cx),
            State::Parting(parting) => self.step_parting(parting, cx),
            State::Cutting(cutting) => self.step_cutting(cutting, cx),
            State::Over => Next::Ends(Ending::Closed),
        }
    }

    fn tell(&self, how: Ending) {
        self.asker.racer.ended(&SessionEnd {
            client: self.asker.address,
            host: self.asked.host.as_str(),
            port: self.asked.port,
            user: octets_of(&self.user),
            result: self.result,
            request: line_of(&self.request),
            sent: self.sent,
            received: self.received,
            how,
        });
    }
}

impl<K: Clock, Q: Racer> Future for Session<'_, K, Q> {
    type Output = ();

    ghost use Rattle.std.specs.Prelude.{⊤};
    ghost use Rattle.futures.specs.Poll.{IfReady, OnPending};
    ghost use Rattle.futures.specs.Task.{Covers, Keeps};
    ghost use Rattle.he_sessions.specs.Sessions.{IsStep, MayPoll};

    ghost can_poll = { λ s. Q.serves s.asker.racer.now s.asker.address
        × MayPoll Q.Racer Q.Race.Future Q.Stream.reads Q.Stream.writes Q.Stream.cuts s s.state };

    /// Ready once the connection is closed.
    fn poll(&mut self, cx: &mut Context<'_>) -> Poll<()>
        requires { Q.serves self.old.asker.racer.now self.old.asker.address
            × MayPoll Q.Racer Q.Race.Future Q.Stream.reads Q.Stream.writes Q.Stream.cuts self.old self.old.state }
        ensures value { IfReady result (λ _. ⊤) }
        ensures again { OnPending result (Q.serves self.new.asker.racer.now self.new.asker.address
            × MayPoll Q.Racer Q.Race.Future Q.Stream.reads Q.Stream.writes Q.Stream.cuts self.new self.new.state) }
        ensures same { OnPending result (Unit {0} → ⊤ → ⊤) }
        ensures step { IsStep Q.Racer Q.Race.Future Q.Stream.reads Q.Stream.writes Q.Stream.cuts self.old
            self.old.state self.new }
        ensures registered { OnPending result (Covers cx.new (λ _. ⊥)) }
        ensures kept { Keeps cx.old cx.new }
    {
        if let State::Over = &self.state {
            return Poll::Ready(());
        }
        for _ in 0..MOST_STEPS {
            match self.step(cx) {
                Next::Waits => return Poll::Pending,
                Next::GoesOn => {}
                Next::Ends(how) => {
                    self.tell(how);
                    return Poll::Ready(());
                }
            }
        }
        cx.yield_now()
    }
}

pub(crate) fn octets_of(owned: &Option<Vec<u8>>) -> Option<&[u8]> {
    match owned {
        Some(octets) => Some(octets.as_slice()),
        None => None,
    }
}

// The request line in these octets.
fn line_of(request: &Option<Vec<u8>>) -> Option<RequestLine<'_>> {
    match request {
        Some(octets) => Some(request_line(octets)),
        None => None,
    }
}
