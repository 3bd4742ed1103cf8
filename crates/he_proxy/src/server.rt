//! Handles clients: a session for each that is served.

use crate::racer::LoopRacer;
use he_clients::Service;
use he_history::second_now;
use he_live::Reason;
use he_loop::{SharedLoop, ip_of};
use he_metrics::{Event, Refusal};
use he_sessions::{Limits, Racer, Session};
use std::io::Write;
use std::net::SocketAddr;
use std::time::{Clock, Instant};
use tokio::net::TcpStream;

/// Begins a session for each client that is served.
#[derive(Drop)]
pub struct Server<'q, K, Q, F: Drop> {
    /// The event loop, the state and the log.
    pub parts: &'q LoopRacer<'q, K, F>,
    /// The races of the sessions, which are those of `parts`.
    pub racer: &'q Q,
    pub limits: Limits,
}

impl<'q, K: Clock, Q, F: Write + Drop> Server<'q, K, Q, F> {
    fn count(&self, event: Event) {
        self.parts.state.metrics.count(event);
    }

    // Logs once a minute and network that a client with the most sessions is refused another one.
    fn tell_too_many(&self, client: SocketAddr) {
        let parts = self.parts;
        let rt = parts.shared.rt;
        if let Some(now) = second_now(rt)
            && parts.state.too_many.is_news(ip_of(client.ip()), now)
        {
            parts.log.tell_too_many(rt, client);
        }
    }
}

impl<'q, K: Clock, Q: Racer<Stream = TcpStream>, F: Write + Drop> Service for Server<'q, K, Q, F> {
    type Session = Session<'q, K, Q>;

    fn begin(&self, client: TcpStream, address: SocketAddr) -> Option<Session<'q, K, Q>> {
        let parts = self.parts;
        if !self.racer.is_served(address) {
            self.count(Event::Refused(Refusal::TurnedAway));
            return None;
        }
        if !parts.state.per_address.add(address.ip()) {
            self.count(Event::Refused(Refusal::TooMany));
            self.tell_too_many(address);
            return None;
        }
        let SharedLoop { rt, alloc, handle } = parts.shared;
        let (timers, racer) = (handle.time(), self.racer);
        match Session::new(rt, alloc, timers, racer, client, address, self.limits) {
            Ok(session) => {
                self.count(Event::Begun);
                if parts.state.running.add() {
                    parts.log.tell_most(parts.state.running.most());
                }
                Some(session)
            }
            Err(_) => {
                parts.state.per_address.remove(address.ip());
                None
            }
        }
    }

    fn is_full(&self) -> bool {
        let parts = self.parts;
        match Instant::now(parts.shared.rt) {
            Ok(now) => parts.state.beginning.is_full(now),
            Err(_) => false,
        }
    }

    fn tell_rest(&self, why: Reason) {
        self.parts.log.say(match why {
            Reason::TooManyFiles | Reason::TooManyFilesInSystem => {
                "no descriptor is left for another client: waiting until one is"
            }
            _ => "no memory is left for another client: waiting until some is",
        });
    }
}
