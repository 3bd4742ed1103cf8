//! The clients that have sent nothing yet.
ghost use Rattle.futures.specs.Task.{Keeps};

use futures::task::{Context, Poll, Source, Waker};
use he_sessions::Place;
use std::alloc::{AllocError, Global};
use std::cell::{Cell, RefCell};
use std::mem::drop;
use std::net::{IpAddr, Ipv6Addr};
use std::time::{Duration, Instant};

/// The most clients that have sent nothing yet.
pub const MOST_BEGINNING: usize = 400;

/// The most of them from one address. The addresses of an IPv6 /64 network count as one.
pub const MOST_OF_ADDRESS: usize = 100;

// The prefix length of an IPv6 network whose addresses count as one.
const NETWORK_BITS: u32 = 64;

// Milliseconds that a client may send nothing before another one may take its place.
const LEAST: u64 = 50;

// The most clients that have lost their places and not left yet; no other client may come before.
const MOST_GOING: u32 = 64;

/// The clients that have sent nothing yet, in the order in which they came. At the limit, the first one makes room
/// for the next.
#[derive(Drop)]
pub struct Beginning {
    waiting: RefCell<Vec<Waiting>>,
    // The number of the next client.
    next: Cell<u64>,
    // Clients with lower numbers had used up their time at the last check.
    had_time: Cell<u64>,
    // The number of clients that lost their places and have not left yet.
    going: Cell<u32>,
}

#[derive(Drop)]
struct Waiting {
    number: u64,
    from: IpAddr,
    since: Instant,
    // The waker of its session, which is woken when this is dropped.
    waker: Option<Waker>,
}

impl Beginning {
    /// No clients.
    pub fn new(alloc: Global) -> Beginning {
        Beginning {
            waiting: RefCell::new(Vec::new(alloc)),
            next: Cell::new(0),
            had_time: Cell::new(0),
            going: Cell::new(0),
        }
    }

    /// Whether no other client may come now: another one from the last one's address would take the place of a client
    /// that still has time to send something, or too many that lost their places have not left. Poll the event loop
    /// before the next call: it may not have seen yet that a client whose time is up has sent something.
    pub fn is_full(&self, now: Instant) -> bool {
        if self.going.get() >= MOST_GOING {
            return true;
        }
        let Ok(waiting) = self.waiting.try_borrow() else {
            return true;
        };
        match next_to_go(&waiting) {
            Some(first) => !self.may_go(&waiting, first, now),
            None => false,
        }
    }

    /// The number of clients that have sent nothing yet.
    pub fn count(&self) -> usize {
        let waiting = match self.waiting.try_borrow() {
            Ok(waiting) => waiting.len(),
            Err(_) => 0,
        };
        waiting.saturating_add(self.going.get() as usize)
    }

    // Whether the client's time was up at the last check. If it is up only now, the client may be removed at the next
    // check.
    fn may_go(&self, waiting: &[Waiting], first: &Waiting, now: Instant) -> bool {
        if first.number < self.had_time.get() {
            return true;
        }
        if !is_young(first, now) {
            self.had_time.set(self.first_young(waiting, now));
        }
        false
    }

    // The number of the first client that still has time, or of the next one to come.
    fn first_young(&self, waiting: &[Waiting], now: Instant) -> u64 {
        for client in waiting {
            if is_young(client, now) {
                return client.number;
            }
        }
        self.next.get()
    }

    /// The place of a client from this address. At the limit, for the address or in all, the first of those clients
    /// loses its place.
    ///
    /// # Errors
    ///
    /// `AllocError` if an allocation fails.
    pub fn enter(&self, from: IpAddr, now: Instant) -> Result<ClientPlace<'_>, AllocError> {
        let from = counted_as(from);
        let number = self.next.get();
        self.next.set(number.wrapping_add(1));
        let Ok(mut waiting) = self.waiting.try_borrow_mut() else {
            return Err(AllocError);
        };
        if let Some(first) = first_to_go(&waiting, from) {
            remove_at(&mut waiting, first);
            self.going.set(self.going.get().saturating_add(1));
        }
        waiting.push(Waiting {
            number,
            from,
            since: now,
            waker: None,
        })?;
        Ok(ClientPlace {
            of: self,
            number,
            source: Source::new(),
        })
    }

    fn leave(&self, number: u64) {
        let Ok(mut waiting) = self.waiting.try_borrow_mut() else {
            return;
        };
        match place_of(&waiting, number) {
            Some(at) => remove_at(&mut waiting, at),
            None => self.going.set(self.going.get().saturating_sub(1)),
        }
    }
}

/// A client's place among those that have sent nothing yet.
pub struct ClientPlace<'b> {
    of: &'b Beginning,
    number: u64,
    source: Source,
}

impl Place for ClientPlace<'_> {
    fn poll_lost(&mut self, cx: &mut Context<'_>) -> Poll<()> {
        match self.of.waiting.try_borrow_mut() {
            Ok(mut waiting) => poll_place(&mut waiting, self.number, &self.source, cx),
            Err(_) => cx.yield_now(),
        }
    }
}

impl Drop for ClientPlace<'_> {
    fn drop(self) {
        let Self {
            of,
            number,
            source: _,
        } = self;
        of.leave(number);
    }
}

// Ready once the client has lost its place.
fn poll_place(
    waiting: &mut Vec<Waiting>,
    number: u64,
    source: &Source,
    cx: &mut Context<'_>,
) -> Poll<()>
    ensures kept { Keeps cx.old cx.new }
{
    let Some(at) = place_of(waiting, number) else {
        return Poll::Ready(());
    };
    match waiting.get_mut(at) {
        Some(own) => cx.register(source, &mut own.waker),
        None => Poll::Ready(()),
    }
}

fn remove_at(waiting: &mut Vec<Waiting>, at: usize) {
    if at < waiting.len() {
        drop(waiting.remove(at));
    }
}

fn place_of(waiting: &[Waiting], number: u64) -> Option<usize> {
    waiting.iter().position(|other| other.number == number)
}

// The client that must make room for another one from the last one's address, if any.
fn next_to_go(waiting: &[Waiting]) -> Option<&Waiting> {
    let last = waiting.last()?;
    waiting.get(first_to_go(waiting, last.from)?)
}

fn is_young(client: &Waiting, now: Instant) -> bool {
    match now.checked_duration_since(client.since) {
        Some(age) => age < Duration::from_millis(LEAST),
        None => true,
    }
}

// The client that must make room for one from this address, if any.
fn first_to_go(waiting: &[Waiting], from: IpAddr) -> Option<usize> {
    let mut of_one = 0usize;
    for other in waiting {
        if other.from == from {
            of_one = of_one.saturating_add(1);
        }
    }
    if of_one >= MOST_OF_ADDRESS {
        waiting.iter().position(|other| other.from == from)
    } else if waiting.len() >= MOST_BEGINNING {
        Some(0)
    } else {
        None
    }
}

// The address that counts: an IPv4 address itself, also if IPv4-mapped; for an IPv6 address, its network.
pub(crate) fn counted_as(from: IpAddr) -> IpAddr {
    match from.to_canonical() {
        IpAddr::V6(ip) => {
            let network = ip.to_bits() >> NETWORK_BITS << NETWORK_BITS;
            IpAddr::V6(Ipv6Addr::from_bits(network))
        }
        v4 => v4,
    }
}
