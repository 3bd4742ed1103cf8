//! The session's steps after its race is won: its tunnel is opened and ended.
ghost use Rattle.std.specs.Prelude.{◌≡◌, [], IfOk};
ghost use Rattle.futures.specs.Task.{IsArmed, Keeps};
ghost use Rattle.he_relay.specs.Tunnels.{IsBegun};
ghost use Rattle.he_sessions.specs.Sessions.{IsCutOf, IsPolled, IsStep};
ghost use Rattle.he_sessions.specs.declared.session.Next.{Next};

use crate::connection::Connection;
use crate::ending::Ending;
use crate::racer::{Racer, Won};
use crate::session::{Next, Session};
use crate::states::{Answering, Cutting, Relaying, State};
use crate::timing::{no_progress, poll_idle, restart, restart_within};
use futures::Future;
use futures::task::{Context, Poll};
use he_addr::Memory;
use he_relay::fault::Traffic;
use he_relay::{Broke, Tunnel};
use std::alloc::Global;
use std::mem::drop;
use std::time::{Clock, Duration};
use tokio::io::poll_write_all_buf;

// Milliseconds between two looks at whether all is sent to a connection that will be reset, and the most such looks.
const LOOK: u64 = 10;

const MOST_LOOKS: u32 = 1_000;

impl<'q, K: Clock, Q: Racer> Session<'q, K, Q> {
    pub(crate) fn step_answering(
        &mut self,
        mut answering: Answering<Q::Stream>,
        cx: &mut Context<'_>,
    ) -> Next
        requires over { self.old.state ≡ State.Over }
        ensures step { IsStep Q.Racer Q.Race.Future Q.Stream.reads Q.Stream.writes Q.Stream.cuts self.old
            (State.Answering answering) self.new }
        ensures polled { IsPolled result cx.old cx.new }
    {
        if self.sleep.poll_elapsed(cx).is_ready() {
            return Next::Ends(Ending::Late);
        }
        match poll_write_all_buf(&mut answering.client, cx, &mut answering.reply) {
            Poll::Pending => {
                self.state = State::Answering(answering);
                Next::Waits
            }
            Poll::Ready(Err(_)) => Next::Ends(Ending::Left),
            Poll::Ready(Ok(())) => self.relay(answering),
        }
    }

    fn relay(&mut self, answering: Answering<Q::Stream>) -> Next
        requires told { answering.reply.items ≡ [] }
        requires over { self.old.state ≡ State.Over }
        ensures step { IsStep Q.Racer Q.Race.Future Q.Stream.reads Q.Stream.writes Q.Stream.cuts self.old
            (State.Answering answering) self.new }
        ensures on { result ≡ Next.Waits → ⊥ }
    {
        match tunnel_of(self.alloc, answering) {
            Ok(tunnel) => {
                restart_within(self.clock, &mut self.sleep, self.limits.idle);
                self.state = State::Relaying(Relaying {
                    tunnel,
                    progress: no_progress(),
                });
                Next::GoesOn
            }
            Err(Memory) => Next::Ends(Ending::Failed),
        }
    }

    pub(crate) fn step_relaying(
        &mut self,
        mut relaying: Relaying<Q::Stream>,
        cx: &mut Context<'_>,
    ) -> Next
        requires over { self.old.state ≡ State.Over }
        ensures step { IsStep Q.Racer Q.Race.Future Q.Stream.reads Q.Stream.writes Q.Stream.cuts self.old
            (State.Relaying relaying) self.new }
        ensures polled { IsPolled result cx.old cx.new }
    {
        let polled = relaying.tunnel.poll_tunnel(cx);
        let Traffic { sent, received } = relaying.tunnel.traffic();
        self.sent = sent;
        self.received = received;
        match polled {
            Poll::Pending => self.watch(relaying, sent.saturating_add(received), cx),
            Poll::Ready(Ok(())) => Next::Ends(Ending::Closed),
            Poll::Ready(Err(broke)) => {
                let (client, server) = relaying.tunnel.into_ends();
                self.state = State::Cutting(cutting_of(client, server, broke));
                Next::GoesOn
            }
        }
    }

    // Ends a tunnel in which no byte moved for its idle time.
    fn watch(&mut self, mut relaying: Relaying<Q::Stream>, moved: u64, cx: &mut Context<'_>) -> Next
        requires armed { IsArmed cx.old }
        requires over { self.old.state ≡ State.Over }
        ensures step { IsStep Q.Racer Q.Race.Future Q.Stream.reads Q.Stream.writes Q.Stream.cuts self.old
            (State.Relaying relaying) self.new }
        ensures armed { IsArmed cx.new }
        ensures kept { Keeps cx.old cx.new }
    {
        let next = poll_idle(
            self.clock,
            &mut self.sleep,
            self.limits.idle,
            &mut relaying.progress,
            moved,
            cx,
        );
        self.state = State::Relaying(relaying);
        next
    }

    // Resets the connection that did not break off, once all earlier bytes are sent.
    pub(crate) fn step_cutting(&mut self, mut cutting: Cutting, cx: &mut Context<'_>) -> Next
        requires over { self.old.state ≡ State.Over }
        ensures step { IsStep Q.Racer Q.Race.Future Q.Stream.reads Q.Stream.writes Q.Stream.cuts self.old
            (State.Cutting cutting) self.new }
        ensures polled { IsPolled result cx.old cx.new }
    {
        if cutting.looks == 0 || cutting.cut.is_sent() {
            cutting.cut.reset();
            return Next::Ends(cutting.how);
        }
        cutting.looks -= 1;
        self.state = State::Cutting(cutting);
        restart(self.clock, &mut self.sleep, Duration::from_millis(LOOK));
        match self.sleep.poll(cx) {
            Poll::Pending => Next::Waits,
            Poll::Ready(_) => Next::GoesOn,
        }
    }
}

// The cut for two connections of which this one broke off.
pub(crate) fn cutting_of<S: Connection>(client: S, server: S, broke: Broke) -> Cutting
    ensures { IsCutOf S.cuts client server broke result.cut result.how }
{
    let (left, how) = match broke {
        Broke::Client => {
            drop(client);
            (server, Ending::ClientBroke)
        }
        Broke::Server => {
            drop(server);
            (client, Ending::ServerBroke)
        }
    };
    Cutting {
        cut: left.into_cut(),
        how,
        looks: MOST_LOOKS,
    }
}

// The tunnel between the client and the race's connection.
fn tunnel_of<S: Connection>(alloc: Global, answering: Answering<S>) -> Result<Tunnel<S, S>, Memory>
    ensures { IfOk result (IsBegun answering.client answering.won.stream answering.early.items) }
{
    let Answering {
        client,
        early,
        won,
        reply: _,
    } = answering;
    let Won { stream, winner: _ } = won;
    client.send_at_once();
    stream.send_at_once();
    Tunnel::new(alloc, client, stream, early)
}
