// A client, a session and a server, all on loopback and in one event loop.
ghost use Rattle.futures.specs.Poll.{OnPending};
ghost use Rattle.futures.specs.Task.{IsArmed, Keeps};

use futures::Future;
use futures::future::join3;
use futures::task::{Context, Poll};
use he_addr::{Ip, Memory};
use he_front::Ended;
use he_sessions::{
    Ending, Limits, PageAsked, Place, RaceAsked, Racer, Session, SessionEnd, Winner, Won,
};
use he_users::{Users, read_users};
use std::alloc::{AllocGlobal, Global};
use std::cell::Cell;
use std::io;
use std::mem::{drop, replace};
use std::net::{IpAddr, Ipv4Addr, Net, SocketAddr, TcpListener};
use std::random::RandomSource;
use std::sync::Wait;
use std::time::{Clock, Duration};
use tokio::io::{AsyncRead, AsyncWrite};
use tokio::net::TcpStream;
use tokio::runtime::{Handle, LocalRuntime};
use tokio::time::Sleep;

/// The resources of a session, beside the network.
pub trait Lender: Wait + Clock + RandomSource + AllocGlobal {}

impl<R: Wait + Clock + RandomSource + AllocGlobal> Lender for R {}

pub const WINNER: Winner = Winner {
    ip: Ip::V4(0x7f00_0001),
    ticks: 3,
    lost: 1,
};

// The most seconds that a session takes.
const PATIENCE: u64 = 10;

// The most octets that a peer reads at once.
const ROOM: usize = 4_096;

/// The course of a race.
#[derive(Clone, Copy, PartialEq, Eq)]
pub enum Course {
    /// It is won.
    Wins,
    /// It ends with this result.
    Ends(Ended),
    /// It isn't begun.
    IsRefused(Ended),
    /// It goes on for longer than the test.
    GoesOn,
    /// The client must make room at once for another one; a race ends with a refusal.
    LosesPlace,
}

/// A race.
#[derive(Drop)]
pub enum Race {
    Won(TcpStream),
    Ended(Ended),
    Waiting(Sleep),
    Over,
}

impl Future for Race {
    type Output = Result<Won<TcpStream>, Ended>;

    fn poll(&mut self, cx: &mut Context<'_>) -> Poll<Result<Won<TcpStream>, Ended>> {
        match replace(self, Race::Over) {
            Race::Won(stream) => Poll::Ready(Ok(Won {
                stream,
                winner: WINNER,
            })),
            Race::Ended(ended) => Poll::Ready(Err(ended)),
            Race::Waiting(mut sleep) => {
                if sleep.poll(cx).is_ready() {
                    return Poll::Ready(Err(Ended::TimedOut));
                }
                *self = Race::Waiting(sleep);
                Poll::Pending
            }
            Race::Over => Poll::Ready(Err(Ended::Failed)),
        }
    }
}

/// The report of a session's end.
#[derive(Clone, Copy, PartialEq, Eq)]
pub struct Told {
    pub port: u16,
    pub result: Option<Result<Winner, Ended>>,
    pub sent: u64,
    pub received: u64,
    pub how: Ending,
    pub has_user: bool,
}

/// Who asks for a race.
#[derive(Clone, Copy, PartialEq, Eq)]
pub struct Who {
    pub has_user: bool,
    /// Whether the request to forward has the method GET.
    pub is_get: bool,
}

/// Begins the one race that it has, for one target.
#[derive(Drop)]
pub struct OneTarget {
    pub host: &'static str,
    pub port: u16,
    pub users: Users,
    pub is_place_lost: bool,
    pub race: Cell<Option<Result<Race, Ended>>>,
    pub asked: Cell<Option<Who>>,
    pub told: Cell<Option<Told>>,
}

/// A place that is lost at once, or never.
#[derive(Drop)]
pub struct OnePlace {
    is_lost: bool,
}

impl Place for OnePlace {
    fn poll_lost(&mut self, _cx: &mut Context<'_>) -> Poll<()> {
        if self.is_lost {
            Poll::Ready(())
        } else {
            Poll::Pending
        }
    }
}

impl Racer for OneTarget {
    type Stream = TcpStream;

    type Race = Race;

    type Place = OnePlace;

    ghost use Rattle.std.specs.Prelude.{⊤};

    ghost serves = { λ _ _. ⊤ };

    ghost all_users = { λ racer. racer.users };

    ghost answers = { λ _ _ _ _ _. ⊤ };

    fn is_served(&self, _client: SocketAddr) -> bool {
        true
    }

    fn users(&self) -> &Users {
        &self.users
    }

    fn place(&self, _client: SocketAddr) -> io::Result<OnePlace> {
        Ok(OnePlace {
            is_lost: self.is_place_lost,
        })
    }

    fn race(&self, asked: &RaceAsked<'_>) -> Result<Race, Ended> {
        self.asked.set(Some(Who {
            has_user: asked.user.is_some(),
            is_get: asked.method == Some(b"GET".as_slice()),
        }));
        if asked.host != self.host || asked.port != self.port {
            return Err(Ended::Forbidden);
        }
        match self.race.replace(None) {
            Some(race) => race,
            None => Err(Ended::Failed),
        }
    }

    fn page(&self, asked: &PageAsked<'_>, out: &mut Vec<u8>) -> Result<(), Memory> {
        out.extend_from_slice(asked.path)?;
        out.extend_from_slice(b" at ")?;
        out.extend_from_slice(asked.host.unwrap_or(b"none"))
    }

    fn write_tried(&self, _client: SocketAddr, reason: &mut Vec<u8>) -> Result<(), Memory> {
        reason.extend_from_slice(b": 192.0.2.1")
    }

    fn left(&self, _client: SocketAddr) {}

    fn ended(&self, end: &SessionEnd<'_>) {
        self.told.set(Some(Told {
            port: end.port,
            result: end.result,
            sent: end.sent,
            received: end.received,
            how: end.how,
            has_user: end.user.is_some(),
        }));
    }
}

/// One end of a connection. It sends its octets and keeps those that it gets, until the other end has ended.
#[derive(Drop)]
pub struct Peer {
    alloc: Global,
    stream: TcpStream,
    sends: Vec<u8>,
    sent: usize,
    piece: usize,
    ends_after: usize,
    has_ended: bool,
    gets: Vec<u8>,
}

/// The part of a peer: it sends these octets, at most `piece` in one write. Once it has got `ends_after` octets, it
/// ends its direction.
#[derive(Drop)]
pub struct Part {
    pub sends: Vec<u8>,
    pub piece: usize,
    pub ends_after: usize,
}

impl Peer {
    fn new(alloc: Global, stream: TcpStream, part: Part) -> Peer {
        let Part {
            sends,
            piece,
            ends_after,
        } = part;
        Peer {
            alloc,
            stream,
            sends,
            sent: 0,
            piece,
            ends_after,
            has_ended: false,
            gets: Vec::new(alloc),
        }
    }

    // One write: whether it took something. After the last one the peer's direction is ended.
    fn send(&mut self, cx: &mut Context<'_>) -> bool
        ensures { Keeps cx.old cx.new }
    {
        if self.sent < self.sends.len() {
            let to = self.sent.saturating_add(self.piece).min(self.sends.len());
            return match self.stream.poll_write(cx, &self.sends[self.sent..to]) {
                Poll::Ready(Ok(count)) => {
                    self.sent = self.sent.saturating_add(count);
                    true
                }
                _ => false,
            };
        }
        if !self.has_ended && self.gets.len() >= self.ends_after {
            self.has_ended = true;
            let _ = self.stream.poll_shutdown(cx);
        }
        false
    }

    // One read: whether it gave something.
    fn get(&mut self, cx: &mut Context<'_>) -> Poll<bool>
        ensures armed { OnPending result (IsArmed cx.new) }
        ensures kept { Keeps cx.old cx.new }
    {
        let mut room = [0; ROOM];
        match self.stream.poll_read(cx, &mut room) {
            Poll::Pending => Poll::Pending,
            Poll::Ready(Ok(0)) | Poll::Ready(Err(_)) => Poll::Ready(false),
            Poll::Ready(Ok(count)) => {
                Poll::Ready(self.gets.extend_from_slice(&room[..count]).is_ok())
            }
        }
    }
}

impl Future for Peer {
    type Output = Vec<u8>;

    fn poll(&mut self, cx: &mut Context<'_>) -> Poll<Vec<u8>> {
        let has_sent = self.send(cx);
        match self.get(cx) {
            Poll::Ready(false) => {
                let _ = self.stream.poll_shutdown(cx);
                Poll::Ready(replace(&mut self.gets, Vec::new(self.alloc)))
            }
            Poll::Pending if !has_sent => Poll::Pending,
            _ => cx.yield_now(),
        }
    }
}

/// The outcome of a session.
#[derive(Drop)]
pub struct Outcome {
    pub client_got: Vec<u8>,
    pub server_got: Vec<u8>,
    pub asked: Option<Who>,
    pub told: Option<Told>,
}

// Both ends of one connection over loopback.
fn pair<R: Lender + Net<Listener = TcpListener, Stream = std::net::TcpStream>>(
    rt: &R,
    handle: &Handle,
) -> io::Result<(TcpStream, TcpStream, SocketAddr)> {
    let listener = TcpListener::bind(rt, SocketAddr::new(IpAddr::V4(Ipv4Addr::LOCALHOST), 0))?;
    let near = std::net::TcpStream::connect(rt, listener.local_addr()?)?;
    let (far, from) = listener.accept()?;
    let near = TcpStream::from_std(near, handle.reactor())?;
    Ok((near, TcpStream::from_std(far, handle.reactor())?, from))
}

fn race_of<R: Lender>(
    rt: &R,
    handle: &Handle,
    course: Course,
    stream: TcpStream,
) -> io::Result<Result<Race, Ended>> {
    Ok(match course {
        Course::Wins => Ok(Race::Won(stream)),
        Course::Ends(ended) => Ok(Race::Ended(ended)),
        Course::IsRefused(ended) => Err(ended),
        Course::GoesOn => Ok(Race::Waiting(
            handle.time().sleep(rt, Duration::from_secs(PATIENCE))?,
        )),
        Course::LosesPlace => Ok(Race::Ended(Ended::Refused)),
    })
}

/// Runs the session of one client of a proxy without users to its end. The first piece from the client is unread when
/// it begins.
pub fn run<R: Lender + Net<Listener = TcpListener, Stream = std::net::TcpStream>>(
    rt: &R,
    target: (&'static str, u16),
    course: Course,
    idle: Option<Duration>,
    client: Part,
    server: Part,
) -> io::Result<Outcome> {
    run_of_users(
        rt,
        Users::none(rt.alloc()),
        target,
        course,
        idle,
        [client, server],
    )
}

/// Runs the session of one client of a proxy with the users of this text.
pub fn run_of<R: Lender + Net<Listener = TcpListener, Stream = std::net::TcpStream>>(
    rt: &R,
    users: &[u8],
    target: (&'static str, u16),
    course: Course,
    parts: [Part; 2],
) -> io::Result<Outcome> {
    match read_users(rt.alloc(), users) {
        Ok(users) => run_of_users(rt, users, target, course, None, parts),
        Err(_) => Err(io::ErrorKind::InvalidData.into()),
    }
}

fn run_of_users<R: Lender + Net<Listener = TcpListener, Stream = std::net::TcpStream>>(
    rt: &R,
    users: Users,
    target: (&'static str, u16),
    course: Course,
    idle: Option<Duration>,
    parts: [Part; 2],
) -> io::Result<Outcome> {
    let [client, server] = parts;
    let mut runtime = LocalRuntime::new(rt)?;
    let handle = runtime.handle().clone()?;
    let (near, taken, from) = pair(rt, &handle)?;
    let (to_server, far, _) = pair(rt, &handle)?;
    let racer = OneTarget {
        host: target.0,
        port: target.1,
        users,
        is_place_lost: course == Course::LosesPlace,
        race: Cell::new(Some(race_of(rt, &handle, course, to_server)?)),
        asked: Cell::new(None),
        told: Cell::new(None),
    };
    let limits = Limits {
        request: Duration::from_millis(2_000),
        idle,
    };
    let session = Session::new(rt, rt.alloc(), handle.time(), &racer, taken, from, limits)?;
    let peers = join3(
        Peer::new(rt.alloc(), near, client),
        Peer::new(rt.alloc(), far, server),
        session,
    );
    let timed = handle
        .time()
        .timeout(rt, Duration::from_secs(PATIENCE), peers)?;
    match runtime.block_on(rt, timed)? {
        Ok((client_got, server_got, _)) => Ok(Outcome {
            client_got,
            server_got,
            asked: racer.asked.get(),
            told: racer.told.get(),
        }),
        Err(_) => Err(io::ErrorKind::TimedOut.into()),
    }
}
