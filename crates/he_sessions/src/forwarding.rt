//! The session's steps for a request that is forwarded (RFC 9112 section 3.2.2).
ghost use Rattle.std.specs.Prelude.{◌≡◌, ◌≤◌, [], Ok, IfOk, length, string_bytes, take};
ghost use Rattle.futures.specs.Task.{IsArmed, Keeps};
ghost use Rattle.he_relay.specs.Ways.{IsOver};
ghost use Rattle.he_sessions.specs.Follows.{come_to};
ghost use Rattle.he_sessions.specs.Forwarding.{IsBoundedBy, IsGivenBack, IsSentOn, is_to_head};
ghost use Rattle.he_sessions.specs.Sessions.{HasAsked, IsAt, IsNext, IsPolled, IsStep, TellsOn};
ghost use Rattle.he_handshake.specs.declared.asking.Wanted.{Wanted};
ghost use Rattle.he_sessions.specs.declared.session.Next.{Next};

use crate::connection::Connection;
use crate::ending::Ending;
use crate::hearing::poll_linger;
use crate::racer::{Racer, Won};
use crate::session::{Next, Session};
use crate::states::{Forwarding, Parting, State};
use crate::timing::{no_progress, poll_idle, restart, restart_within};
use crate::tunnels::cutting_of;
use futures::task::{Context, Poll};
use he_addr::Memory;
use he_body::{Body, Framing};
use he_bounded::Bounded;
use he_front::Ended;
use he_handshake::{Outgoing, Protocol, no_response};
use he_relay::fault::Traffic;
use he_relay::{Broke, Tunnel};
use he_response::Returned;
use std::alloc::Global;
use std::mem::drop;
use std::time::Clock;

const HEAD: &[u8] = b"HEAD ";

// The most octets after the body that are read and dropped before the response is written.
const MOST_DROPPED: usize = 65_536;

impl<'q, K: Clock, Q: Racer> Session<'q, K, Q> {
    // Sends the server the request: its new head, and of the octets after it those of its body.
    pub(crate) fn forward(
        &mut self,
        client: Q::Stream,
        early: Vec<u8>,
        outgoing: Outgoing,
        won: Won<Q::Stream>,
    ) -> Next
        requires won { Q.answers self.old.asker.racer.now self.old.asker.address (string_bytes self.old.asked.host)
            self.old.asked.port (Ok won) }
        requires over { self.old.state ≡ State.Over }
        ensures asked { (first : Q.Stream)
            → HasAsked Q.Stream.reads Q.Stream.writes first (Q.all_users self.old.asker.racer.now)
            self.old.asked client early.items (Wanted.Response outgoing)
            → IsAt Q.Racer Q.Race.Future Q.Stream.reads Q.Stream.writes Q.Stream.cuts first self.new
            self.new.state }
        ensures next { IsNext self.old self.new }
        ensures on { result ≡ Next.Waits → ⊥ }
    {
        let (client, count) = match bounded_by(client, outgoing.framing, &early) {
            Ok(bounded) => bounded,
            Err(client) => return self.lose(client, Protocol::Http, Ended::Kind),
        };
        self.result = Some(Ok(won.winner));
        match sent_on(self.alloc, client, won, outgoing, &early, count) {
            Ok(tunnel) => {
                restart_within(self.clock, &mut self.sleep, self.limits.idle);
                self.state = State::Forwarding(Forwarding {
                    tunnel,
                    progress: no_progress(),
                });
                Next::GoesOn
            }
            Err(Memory) => Next::Ends(Ending::Failed),
        }
    }

    pub(crate) fn step_forwarding(
        &mut self,
        mut forwarding: Forwarding<Q::Stream>,
        cx: &mut Context<'_>,
    ) -> Next
        requires over { self.old.state ≡ State.Over }
        ensures step { IsStep Q.Racer Q.Race.Future Q.Stream.reads Q.Stream.writes Q.Stream.cuts self.old
            (State.Forwarding forwarding) self.new }
        ensures polled { IsPolled result cx.old cx.new }
    {
        let polled = forwarding.tunnel.poll_tunnel(cx);
        let Traffic { sent, received } = forwarding.tunnel.traffic();
        self.sent = sent;
        self.received = received;
        if forwarding.tunnel.is_answered() {
            return self.part(forwarding);
        }
        match polled {
            Poll::Pending => self.watch_response(forwarding, sent.saturating_add(received), cx),
            Poll::Ready(Ok(())) => Next::Ends(Ending::Closed),
            Poll::Ready(Err(broke)) => self.break_off(forwarding, broke),
        }
    }

    // Ends a response of which no byte came for the idle time, nor any of the request.
    fn watch_response(
        &mut self,
        mut forwarding: Forwarding<Q::Stream>,
        moved: u64,
        cx: &mut Context<'_>,
    ) -> Next
        requires armed { IsArmed cx.old }
        requires over { self.old.state ≡ State.Over }
        ensures step { IsStep Q.Racer Q.Race.Future Q.Stream.reads Q.Stream.writes Q.Stream.cuts self.old
            (State.Forwarding forwarding) self.new }
        ensures armed { IsArmed cx.new }
        ensures kept { Keeps cx.old cx.new }
    {
        let dropped = forwarding.tunnel.client().dropped();
        if dropped > MOST_DROPPED {
            return self.break_off(forwarding, Broke::Client);
        }
        let next = poll_idle(
            self.clock,
            &mut self.sleep,
            self.limits.idle,
            &mut forwarding.progress,
            moved.saturating_add(dropped as u64),
            cx,
        );
        self.state = State::Forwarding(forwarding);
        next
    }

    // Resets the connection that did not break off, so that what is cut does not look whole. If it is the client's,
    // and nothing was written to it, it gets a response of the proxy.
    fn break_off(&mut self, forwarding: Forwarding<Q::Stream>, broke: Broke) -> Next
        requires over { self.old.state ≡ State.Over }
        ensures step { IsStep Q.Racer Q.Race.Future Q.Stream.reads Q.Stream.writes Q.Stream.cuts self.old
            (State.Forwarding forwarding) self.new }
        ensures on { result ≡ Next.Waits → ⊥ }
    {
        let Traffic { sent: _, received } = forwarding.tunnel.traffic();
        let (client, server) = forwarding.tunnel.into_ends();
        if received == 0 && broke == Broke::Server {
            drop(server);
            return self.excuse(client.into_inner());
        }
        self.state = State::Cutting(cutting_of(client.into_inner(), server.into_inner(), broke));
        Next::GoesOn
    }

    // Sends the client that its server gave no response.
    fn excuse(&mut self, client: Q::Stream) -> Next
        requires over { self.old.state ≡ State.Over }
        ensures told { TellsOn Q.Racer Q.Race.Future Q.Stream.reads Q.Stream.writes Q.Stream.cuts client [] self.new }
        ensures next { IsNext self.old self.new }
        ensures last { (come_to self.new.state).2 ≡ 1 }
        ensures on { result ≡ Next.Waits → ⊥ }
    {
        match no_response(self.alloc) {
            Ok(reply) => self.close(client, reply, Ending::NoResponse),
            Err(Memory) => Next::Ends(Ending::Failed),
        }
    }

    // Closes the connection to the server, whose response is written, and waits for the client to close.
    fn part(&mut self, forwarding: Forwarding<Q::Stream>) -> Next
        requires answered { IsOver forwarding.tunnel.back }
        requires over { self.old.state ≡ State.Over }
        ensures step { IsStep Q.Racer Q.Race.Future Q.Stream.reads Q.Stream.writes Q.Stream.cuts self.old
            (State.Forwarding forwarding) self.new }
        ensures on { result ≡ Next.Waits → ⊥ }
    {
        let (client, server) = forwarding.tunnel.into_ends();
        drop(server);
        restart(self.clock, &mut self.sleep, self.limits.request);
        self.state = State::Parting(Parting {
            client: client.into_inner(),
        });
        Next::GoesOn
    }

    // Reads on until the client closes, as after any last reply (RFC 9112 section 9.6).
    pub(crate) fn step_parting(
        &mut self,
        mut parting: Parting<Q::Stream>,
        cx: &mut Context<'_>,
    ) -> Next
        requires over { self.old.state ≡ State.Over }
        ensures step { IsStep Q.Racer Q.Race.Future Q.Stream.reads Q.Stream.writes Q.Stream.cuts self.old
            (State.Parting parting) self.new }
        ensures polled { IsPolled result cx.old cx.new }
    {
        if self.sleep.poll_elapsed(cx).is_ready() {
            return Next::Ends(Ending::Closed);
        }
        match poll_linger(&mut parting.client, cx) {
            Poll::Pending => {
                self.state = State::Parting(parting);
                Next::Waits
            }
            Poll::Ready(Ok(0)) | Poll::Ready(Err(_)) => Next::Ends(Ending::Closed),
            Poll::Ready(Ok(_)) => {
                self.state = State::Parting(parting);
                Next::GoesOn
            }
        }
    }
}

// The client, of whose body these octets have come, and how many of them are of it. The client alone if they begin no
// body that is framed like this.
fn bounded_by<S: Connection>(
    client: S,
    framing: Framing,
    early: &[u8],
) -> Result<(Bounded<S>, usize), S>
    ensures found { IfOk result (λ (bounded, count). IsBoundedBy client framing early.now bounded count) }
    ensures none { IsGivenBack client result }
{
    let mut body = Body::new(framing);
    match body.take(early) {
        Ok(count) => {
            client.send_at_once();
            Ok((Bounded::new(client, body), count))
        }
        Err(_) => Err(client),
    }
}

// The tunnel that first writes the new head to the server, and then this number of the early octets.
fn sent_on<S: Connection>(
    alloc: Global,
    client: Bounded<S>,
    won: Won<S>,
    outgoing: Outgoing,
    early: &[u8],
    count: usize,
) -> Result<Tunnel<Bounded<S>, Returned<S>>, Memory>
    requires { count ≤ length early.now }
    ensures { IfOk result (IsSentOn client won.stream outgoing.head.items (take count early.now)) }
{
    let Outgoing {
        head: mut first,
        framing: _,
    } = outgoing;
    let Won { stream, winner: _ } = won;
    stream.send_at_once();
    let server = Returned::new(alloc, stream, is_to_head(&first));
    first.extend_from_slice(&early[..count])?;
    Tunnel::new(alloc, client, server, first)
}

// Whether this is the head of a request for a head alone (RFC 9110 section 9.3.2).
fn is_to_head(head: &[u8]) -> bool
    ensures { result ≡ is_to_head head.now }
{
    head.len() >= HEAD.len() && &head[..HEAD.len()] == HEAD
}
