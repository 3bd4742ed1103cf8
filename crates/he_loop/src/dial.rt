//! Connections made in an event loop that stay in it.
ghost use Rattle.std.specs.Prelude.{◌≡◌, IfOk, string_bytes};
ghost use Rattle.futures.specs.Poll.{IfReady, OnPending};
ghost use Rattle.futures.specs.Task.{Covers, Keeps};
ghost use Rattle.tokio.specs.Net.{stream_writable};
ghost use Rattle.he_loop.specs.Dials.{DialNeeds};

use crate::access::{Destination, Reach, ip_of};
use crate::shared::SharedLoop;
use futures::task::{Context, Poll};
use he_addr::Ip;
use he_kernel::asked::AskedWays;
use he_live::{Endpoint, Reason, Step, StepKind, Steps, socket_of};
use he_relay::keep_alive;
use he_turns::{AttemptFault, Connector, Trial};
use std::net::{Net, SocketAddr};
use std::os::fd::OwnedFd;
use std::{io, net};
use tokio::net::TcpStream;

/// A connection, with the address, port and interface that it was made to, and what was known of that address.
#[derive(Drop)]
pub struct Joined {
    to: SocketAddr,
    known: Destination,
    stream: TcpStream,
}

impl Joined {
    /// Its local address. None if the system doesn't give it.
    pub fn source(&self) -> Option<Ip> {
        Some(ip_of(self.stream.local_addr().ok()?.ip()))
    }

    /// The stream of the connection.
    pub fn into_stream(self) -> TcpStream
        ensures { result ≡ self.stream }
    {
        self.stream
    }
}

/// The target of a race's connections.
#[derive(Drop)]
pub struct Target {
    /// The host that the client asks for, an address or a name in text.
    pub asked: String,
    pub to: Endpoint,
}

/// Connects to each reachable address of one target, and notes the steps of each attempt.
#[derive(Drop)]
pub struct LoopConnector<'h, N: Net> {
    shared: SharedLoop<'h, N>,
    host: String,
    to: Endpoint,
    reach: Reach<'h>,
    steps: Steps,
    asked: AskedWays,
}

impl<'h, N: Net> LoopConnector<'h, N> {
    /// A connector for one race, whose attempts are noted in `steps`.
    pub fn new(
        shared: SharedLoop<'h, N>,
        target: Target,
        reach: Reach<'h>,
        steps: Steps,
        asked: AskedWays,
    ) -> LoopConnector<'h, N>
        ensures host { string_bytes result.host ≡ string_bytes target.asked }
        ensures to { result.to ≡ target.to }
        ensures reach { result.reach ≡ reach.entry }
    {
        let Target { asked: host, to } = target;
        LoopConnector {
            shared,
            host,
            to,
            reach,
            steps,
            asked,
        }
    }

    // Notes that the proxy forbids the attempt, if there is memory for it.
    fn note_forbidden(&self, place: usize, ip: Ip, now: u64) {
        if let Ok(steps) = self.steps.for_attempt() {
            steps.note(Step {
                place,
                ip,
                tick: now,
                what: StepKind::Failed(Reason::Prohibited),
            });
        }
    }
}

impl<'h, N: Net> Connector for LoopConnector<'h, N> {
    type Conn = Joined;

    type Run = LoopTrial;

    ghost use Rattle.std.specs.Prelude.{⊤, string_bytes};
    ghost use Rattle.he_loop.specs.Dials.{GoesTo};

    ghost begins = { λ _ _ _ _ _ _. ⊤ };

    ghost reaches = { λ connector ip joined. GoesTo connector.reach (string_bytes connector.host) connector.to ip
        joined };

    // An attempt at an address out of reach can't begin.
    fn begin(&mut self, place: usize, ip: Ip, now: u64) -> Result<LoopTrial, AttemptFault> {
        let way = self.asked.way(self.shared.rt, ip, self.to.scope);
        let known = self.reach.known_of(way);
        if !self.reach.has(self.host.as_str(), known, self.to.port) {
            self.note_forbidden(place, ip, now);
            return Err(AttemptFault::Begin);
        }
        let Ok(steps) = self.steps.for_attempt() else {
            return Err(AttemptFault::Begin);
        };
        let to = socket_of(ip, self.to);
        let trial = LoopTrial {
            place,
            known,
            to,
            dialing: Some(begin_dialing(&self.shared, to)),
            steps,
        };
        trial.note(now, StepKind::Began);
        Ok(trial)
    }
}

/// A connection attempt in progress.
#[derive(Drop)]
pub struct LoopTrial {
    place: usize,
    known: Destination,
    to: SocketAddr,
    // None after its result was given.
    dialing: Option<io::Result<TcpStream>>,
    steps: Steps,
}

impl LoopTrial {
    fn note(&self, tick: u64, what: StepKind) {
        self.steps.note(Step {
            place: self.place,
            ip: self.known.way.to,
            tick,
            what,
        });
    }
}

impl Trial for LoopTrial {
    type Conn = Joined;

    ghost use Rattle.std.specs.Prelude.{⊤, None, ◌≡◌};
    ghost use Rattle.he_loop.specs.Dials.{DialNeeds};

    ghost needs = { λ trial. DialNeeds trial.dialing };

    ghost polls = { λ _ _ _ _. ⊤ };

    ghost due_tick = { λ _. None };

    ghost may_give = { λ trial joined. (joined.to ≡ trial.to) × (joined.known ≡ trial.known) };

    fn poll_trial(&mut self, now: u64, cx: &mut Context<'_>) -> Poll<Result<Joined, AttemptFault>> {
        match poll_dialing(&mut self.dialing, cx) {
            Poll::Pending => Poll::Pending,
            Poll::Ready(Ok(stream)) => {
                self.note(now, StepKind::Connected);
                Poll::Ready(Ok(Joined {
                    to: self.to,
                    known: self.known,
                    stream,
                }))
            }
            Poll::Ready(Err(error)) => {
                self.note(now, StepKind::Failed(Reason::of(&error)));
                Poll::Ready(Err(AttemptFault::Failed))
            }
        }
    }

    fn due(&self) -> Option<u64> {
        None
    }
}

// Begins a connection with keepalive, which notices if the remote vanishes.
fn begin_dialing<N: Net>(shared: &SharedLoop<'_, N>, to: SocketAddr) -> io::Result<TcpStream> {
    let socket = mio::net::TcpStream::connect(shared.rt, to)?;
    keep_alive(&socket);
    let socket = net::TcpStream::from(OwnedFd::from(socket));
    TcpStream::from_std(socket, shared.handle.reactor())
}

fn poll_dialing(
    dialing: &mut Option<io::Result<TcpStream>>,
    cx: &mut Context<'_>,
) -> Poll<io::Result<TcpStream>>
    ensures registered { OnPending result (Covers cx.new (DialNeeds dialing.new)) }
    ensures kept { Keeps cx.old cx.new }
{
    let mut stream = match dialing.take() {
        Some(Ok(stream)) => stream,
        Some(Err(error)) => return Poll::Ready(Err(error)),
        None => return Poll::Ready(Err(io::ErrorKind::NotConnected.into())),
    };
    match poll_connected(&mut stream, cx) {
        Poll::Ready(Ok(())) => Poll::Ready(Ok(stream)),
        Poll::Ready(Err(error)) => Poll::Ready(Err(error)),
        Poll::Pending => {
            *dialing = Some(Ok(stream));
            Poll::Pending
        }
    }
}

// Ready once it is connected, or with the error. A write of no bytes finds out: it would block until then.
fn poll_connected(stream: &mut TcpStream, cx: &mut Context<'_>) -> Poll<io::Result<()>>
    ensures same { stream.new ≡ stream.old }
    ensures registered { OnPending result (Covers cx.new (λ s. s ≡ stream_writable stream.new)) }
    ensures kept { Keeps cx.old cx.new }
{
    match stream.poll_write_ready(cx) {
        Poll::Pending => return Poll::Pending,
        Poll::Ready(Err(error)) => return Poll::Ready(Err(error)),
        Poll::Ready(Ok(())) => {}
    }
    match stream.try_write(&[]) {
        Ok(_) => Poll::Ready(Ok(())),
        Err(error) if error.kind() == io::ErrorKind::WouldBlock => {
            match stream.poll_write_ready(cx) {
                Poll::Pending => Poll::Pending,
                Poll::Ready(_) => cx.yield_now(),
            }
        }
        Err(error) => Poll::Ready(Err(error)),
    }
}
