//! The events of a look-up.

ghost use Rattle.std.specs.Prelude.{◌≡◌, IfOk};
ghost use Rattle.he_asking.specs.Events.{event_of, event_of_fault};

use crate::limits::{ALONE, MOST_EVENTS};
use he_addr::{Family, Memory};
use he_dns::Answer;
use he_settings::{Failure, NamesFault, ServerFault, ShownServer, addresses_of};
use std::alloc::Global;
use std::cell::Cell;
use std::fmt;
use std::net::SocketAddr;
use std::rc::Rc;
use std::time::{Clock, Instant};

/// An event of a look-up.
#[derive(Clone, Copy, PartialEq, Eq)]
pub struct LookupEvent {
    /// Milliseconds since the look-up began.
    pub tick: u64,
    /// The family that it concerns.
    pub family: Family,
    pub kind: LookupEventKind,
}

/// An event of a family's look-up.
#[derive(Clone, Copy, PartialEq, Eq)]
pub enum LookupEventKind {
    /// The family is not queried: only the other one is wanted.
    NotAsked,
    /// IPv6 is not queried, by the option no-aaaa.
    LeftOut,
    /// This number of addresses was known without a name server.
    Known(usize, Origin),
    /// The first server has not answered for [`ALONE`] milliseconds, and the second is asked too.
    Slow(SocketAddr, SocketAddr),
    /// The server did not answer in all its time.
    Silent(SocketAddr),
    /// The server failed.
    Failed(ServerFault),
    /// This number of addresses, from this server.
    Addresses(usize, SocketAddr),
    /// The server answered that the name has no address of the family.
    NoAddress(SocketAddr),
    /// The server answered that there is no such name.
    NoSuchName(SocketAddr),
}

/// The origin of addresses that are from no name server.
#[derive(Clone, Copy, PartialEq, Eq)]
pub enum Origin {
    /// The host itself, the hosts file, or an earlier look-up.
    Known,
    /// The system's resolver.
    System,
}

impl LookupEventKind {
    /// The event for a server's answer; None for a fault of this machine.
    ///
    /// # Errors
    ///
    /// `Memory`.
    pub fn of_answer(
        alloc: Global,
        family: Family,
        server: SocketAddr,
        answer: &Result<Answer, NamesFault>,
    ) -> Result<Option<LookupEventKind>, NamesFault>
        ensures { IfOk result (λ event. event ≡ event_of family server answer.now) }
    {
        match answer {
            Ok(answer) => {
                let count = addresses_of(alloc, family, &answer.addresses)?.len();
                Ok(Some(LookupEventKind::Addresses(count, server)))
            }
            Err(fault) => Ok(event_of_fault(server, *fault)),
        }
    }
}

fn event_of_fault(server: SocketAddr, fault: NamesFault) -> Option<LookupEventKind>
    ensures { result ≡ event_of_fault server fault }
{
    match fault {
        NamesFault::NoAddress => Some(LookupEventKind::NoAddress(server)),
        NamesFault::NoSuchName => Some(LookupEventKind::NoSuchName(server)),
        NamesFault::NoAnswer => Some(LookupEventKind::Silent(server)),
        NamesFault::Server(fault) => Some(LookupEventKind::Failed(fault)),
        _ => None,
    }
}

// Prints one line without the tick: `AAAA answer: 2 addresses from 192.0.2.1`.
impl fmt::Display for LookupEvent {
    fn fmt<W: fmt::Write>(&self, f: &mut fmt::Formatter<W>) -> fmt::Result {
        let (kind, only) = match self.family {
            Family::V6 => ("AAAA", "-4"),
            Family::V4 => ("A", "-6"),
        };
        match self.kind {
            LookupEventKind::NotAsked => write!(f, "{kind} not asked ({only})"),
            LookupEventKind::LeftOut => write!(f, "{kind} not asked (option no-aaaa)"),
            LookupEventKind::Known(count, Origin::Known) => {
                let counted = Counted(count);
                write!(f, "{kind} answer: {counted}, no name server asked")
            }
            LookupEventKind::Known(count, Origin::System) => {
                let counted = Counted(count);
                write!(f, "{kind} answer: {counted} from the system's resolver")
            }
            LookupEventKind::Slow(server, next) => {
                let (server, next) = (ShownServer(server), ShownServer(next));
                write!(f, "{server} did not answer in {ALONE} ms; asked {next} too")
            }
            LookupEventKind::Silent(server) => {
                let server = ShownServer(server);
                write!(f, "{kind}: no answer from {server}")
            }
            LookupEventKind::Failed(fault) => write_failure(kind, fault, f),
            LookupEventKind::Addresses(count, server) => {
                let (counted, server) = (Counted(count), ShownServer(server));
                write!(f, "{kind} answer: {counted} from {server}")
            }
            LookupEventKind::NoAddress(server) => {
                let server = ShownServer(server);
                write!(f, "{kind} answer: no address from {server}")
            }
            LookupEventKind::NoSuchName(server) => {
                let server = ShownServer(server);
                write!(f, "{kind}: no such name, from {server}")
            }
        }
    }
}

fn write_failure<W: fmt::Write>(
    kind: &str,
    fault: ServerFault,
    f: &mut fmt::Formatter<W>,
) -> fmt::Result {
    let server = ShownServer(fault.server);
    let failure = fault.failure;
    match failure {
        Failure::Lame | Failure::Malformed | Failure::Aliases | Failure::Unreachable => {
            write!(f, "{kind}: {server} {failure}")
        }
        _ => write!(f, "{kind}: {failure} from {server}"),
    }
}

// Prints a number of addresses.
#[derive(Clone, Copy)]
struct Counted(usize);

impl fmt::Display for Counted {
    fn fmt<W: fmt::Write>(&self, f: &mut fmt::Formatter<W>) -> fmt::Result {
        match self.0 {
            0 => write!(f, "no address"),
            1 => write!(f, "1 address"),
            count => write!(f, "{count} addresses"),
        }
    }
}

/// The events of a look-up, which can be read during it.
#[derive(Drop)]
pub struct LookupLog {
    alloc: Global,
    start: Option<Instant>,
    events: Rc<Cell<Vec<LookupEvent>>>,
}

impl LookupLog {
    /// The log of a look-up that begins now.
    ///
    /// # Errors
    ///
    /// `Memory`.
    pub fn new<R: Clock>(clock: &R, alloc: Global) -> Result<LookupLog, Memory> {
        Ok(LookupLog {
            alloc,
            start: Instant::now(clock).ok(),
            events: Rc::new(alloc, Cell::new(Vec::new(alloc)))?,
        })
    }

    /// Another handle to these events.
    ///
    /// # Errors
    ///
    /// `Memory` if there are too many handles.
    pub fn share(&self) -> Result<LookupLog, Memory> {
        Ok(LookupLog {
            alloc: self.alloc,
            start: self.start,
            events: self.events.clone()?,
        })
    }

    /// Takes the events since the last call, in order. At most [`MOST_EVENTS`] are kept between two calls; an event
    /// is lost if its allocation fails.
    pub fn take(&self) -> Vec<LookupEvent> {
        self.events.replace(Vec::new(self.alloc))
    }

    /// Whole milliseconds since the look-up began; 0 if the clock fails.
    pub fn tick<R: Clock>(&self, clock: &R) -> u64 {
        let (Some(start), Ok(now)) = (self.start, Instant::now(clock)) else {
            return 0;
        };
        let millis = now.saturating_duration_since(start).as_millis();
        millis.min(u128::from(u64::MAX)) as u64
    }

    /// Records an event. `Slow`, which both families see, is recorded once.
    pub fn note<R: Clock>(&self, clock: &R, family: Family, kind: LookupEventKind) {
        let tick = self.tick(clock);
        let mut events = self.take();
        if events.len() < MOST_EVENTS && !is_noted(&events, kind) {
            let _ = events.push(LookupEvent { tick, family, kind });
        }
        self.events.set(events);
    }
}

fn is_noted(events: &[LookupEvent], kind: LookupEventKind) -> bool {
    let is_slow = matches!(kind, LookupEventKind::Slow(..));
    is_slow && events.iter().any(|event| event.kind == kind)
}
