//! The session's steps during its race.
ghost use Rattle.std.specs.Prelude.{◌≡◌, Ok, string_bytes};
ghost use Rattle.futures.specs.Task.{IsArmed, Keeps};
ghost use Rattle.he_handshake.specs.Asks.{IsFailure, greets, protocol_of};
ghost use Rattle.he_handshake.specs.declared.asking.Wanted.{Wanted};
ghost use Rattle.he_sessions.specs.Sessions.{HasAsked, IsAt, IsNext, IsPolled, IsStep, MayPoll, TellsOn};
ghost use Rattle.he_sessions.specs.Talks.{welcome};
ghost use Rattle.he_sessions.specs.declared.session.Next.{Next};

use crate::ending::Ending;
use crate::hearing::{Heard, poll_hear};
use crate::racer::{Racer, Won};
use crate::session::{Next, Session};
use crate::states::{Answering, Racing, State};
use crate::timing::restart;
use futures::Future;
use futures::task::{Context, Poll};
use he_addr::Memory;
use he_front::Ended;
use he_handshake::{Protocol, Wanted, protocol_of, reply_to};
use std::time::Clock;

// The most octets kept for the server during a race.
const MOST_EARLY: usize = 16_384;

impl<'q, K: Clock, Q: Racer> Session<'q, K, Q> {
    pub(crate) fn step_racing(
        &mut self,
        racing: Racing<Q::Race, Q::Stream>,
        cx: &mut Context<'_>,
    ) -> Next
        requires may { MayPoll Q.Racer Q.Race.Future Q.Stream.reads Q.Stream.writes Q.Stream.cuts self.old
            (State.Racing racing) }
        requires over { self.old.state ≡ State.Over }
        ensures step { IsStep Q.Racer Q.Race.Future Q.Stream.reads Q.Stream.writes Q.Stream.cuts self.old
            (State.Racing racing) self.new }
        ensures polled { IsPolled result cx.old cx.new }
    {
        let Racing {
            client,
            early,
            has_ended,
            wanted,
            mut race,
        } = racing;
        match race.poll(cx) {
            Poll::Pending => self.hear_early(
                Racing {
                    client,
                    early,
                    has_ended,
                    wanted,
                    race,
                },
                cx,
            ),
            Poll::Ready(Ok(won)) => self.open(client, early, wanted, won),
            Poll::Ready(Err(ended)) => self.lose(client, protocol_of(&wanted), ended),
        }
    }

    // Keeps what the client sends before its server is connected, and notices if it leaves. A client that has sent
    // something for the server and then ends its direction still waits for the answer.
    fn hear_early(&mut self, mut racing: Racing<Q::Race, Q::Stream>, cx: &mut Context<'_>) -> Next
        requires over { self.old.state ≡ State.Over }
        requires can { Q.Race.can_poll racing.race }
        requires armed { IsArmed cx.old }
        ensures step { IsStep Q.Racer Q.Race.Future Q.Stream.reads Q.Stream.writes Q.Stream.cuts self.old
            (State.Racing racing) self.new }
        ensures armed { IsArmed cx.new }
        ensures kept { Keeps cx.old cx.new }
    {
        if racing.has_ended || racing.early.len() >= MOST_EARLY {
            self.state = State::Racing(racing);
            return Next::Waits;
        }
        match poll_hear(&mut racing.client, &mut racing.early, MOST_EARLY, cx) {
            Poll::Pending => {
                self.state = State::Racing(racing);
                Next::Waits
            }
            Poll::Ready(Heard::Octets) => {
                self.state = State::Racing(racing);
                Next::GoesOn
            }
            Poll::Ready(Heard::End) if has_said(&racing) => {
                racing.has_ended = true;
                self.state = State::Racing(racing);
                Next::Waits
            }
            Poll::Ready(Heard::End | Heard::Broken) => self.leave(racing.race, cx),
            Poll::Ready(Heard::NoMemory) => Next::Ends(Ending::Failed),
        }
    }

    // Ends the race of a client that left, now.
    fn leave(&self, mut race: Q::Race, cx: &mut Context<'_>) -> Next
        requires can { Q.Race.can_poll race }
        ensures on { result ≡ Next.Waits → ⊥ }
        ensures kept { Keeps cx.old cx.new }
    {
        self.asker.racer.left(self.asker.address);
        let _ = race.poll(cx);
        Next::Ends(Ending::Left)
    }

    // Gives the client what it wants of the connection that its race gave.
    fn open(
        &mut self,
        client: Q::Stream,
        early: Vec<u8>,
        wanted: Wanted,
        won: Won<Q::Stream>,
    ) -> Next
        requires won { Q.answers self.old.asker.racer.now self.old.asker.address (string_bytes self.old.asked.host)
            self.old.asked.port (Ok won) }
        requires over { self.old.state ≡ State.Over }
        ensures asked { (first : Q.Stream)
            → HasAsked Q.Stream.reads Q.Stream.writes first (Q.all_users self.old.asker.racer.now)
            self.old.asked client early.items wanted
            → IsAt Q.Racer Q.Race.Future Q.Stream.reads Q.Stream.writes Q.Stream.cuts first self.new
            self.new.state }
        ensures next { IsNext self.old self.new }
        ensures on { result ≡ Next.Waits → ⊥ }
    {
        match wanted {
            Wanted::Tunnel(protocol) => self.announce(client, early, protocol, won),
            Wanted::Response(outgoing) => self.forward(client, early, outgoing, won),
        }
    }

    // Sends the client that its race is won.
    fn announce(
        &mut self,
        client: Q::Stream,
        early: Vec<u8>,
        protocol: Protocol,
        won: Won<Q::Stream>,
    ) -> Next
        requires won { Q.answers self.old.asker.racer.now self.old.asker.address (string_bytes self.old.asked.host)
            self.old.asked.port (Ok won) }
        requires over { self.old.state ≡ State.Over }
        ensures asked { (first : Q.Stream)
            → HasAsked Q.Stream.reads Q.Stream.writes first (Q.all_users self.old.asker.racer.now)
            self.old.asked client early.items (Wanted.Tunnel protocol)
            → IsAt Q.Racer Q.Race.Future Q.Stream.reads Q.Stream.writes Q.Stream.cuts first self.new
            self.new.state }
        ensures next { IsNext self.old self.new }
        ensures on { result ≡ Next.Waits → ⊥ }
    {
        self.result = Some(Ok(won.winner));
        match reply_to(self.alloc, protocol, Ended::Connected) {
            Ok(reply) => {
                restart(self.clock, &mut self.sleep, self.limits.request);
                self.state = State::Answering(Answering {
                    client,
                    early,
                    won,
                    reply,
                });
                Next::GoesOn
            }
            Err(Memory) => Next::Ends(Ending::Failed),
        }
    }

    // Sends the client that its race is lost, or was not begun.
    pub(crate) fn lose(&mut self, client: Q::Stream, protocol: Protocol, ended: Ended) -> Next
        requires over { self.old.state ≡ State.Over }
        ensures told { TellsOn Q.Racer Q.Race.Future Q.Stream.reads Q.Stream.writes Q.Stream.cuts client
            (welcome (greets protocol)) self.new }
        ensures next { IsNext self.old self.new }
        ensures on { result ≡ Next.Waits → ⊥ }
    {
        self.refuse(client, protocol, failure_of(ended))
    }
}

// The failure to report for a race that gave no connection.
#[tactic(auto, using(crate::proofs::Failures::not_connected))]
fn failure_of(ended: Ended) -> Ended
    ensures { IsFailure result }
{
    if ended == Ended::Connected {
        Ended::Failed
    } else {
        ended
    }
}

// Whether the client has sent something for the server: its request to forward, or octets for the tunnel.
fn has_said<F, S>(racing: &Racing<F, S>) -> bool {
    match &racing.wanted {
        Wanted::Tunnel(_) => !racing.early.is_empty(),
        Wanted::Response(_) => true,
    }
}
