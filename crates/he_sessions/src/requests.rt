//! The session's steps until its client has made a request.
ghost use Rattle.std.specs.Prelude.{◌≡◌, [], IfOk, Result, drop, string_bytes};
ghost use Rattle.futures.specs.Task.{Keeps};
ghost use Rattle.he_front.specs.declared.replies.Ended.{Ended};
ghost use Rattle.he_handshake.specs.declared.asking.Ask.{Ask};
ghost use Rattle.he_sessions.specs.Sessions.{IsAdvanced, IsPolled, IsStep, MayAnswer};
ghost use Rattle.he_sessions.specs.declared.session.Next.{Next};
ghost use Rattle.he_sessions.specs.declared.racer.Won.{Won};

use crate::connection::Connection;
use crate::ending::Ending;
use crate::hearing::{Heard, poll_hear};
use crate::pages::page_of;
use crate::racer::{PageAsked, Place, RaceAsked, Racer};
use crate::session::{Asker, Next, Session, octets_of};
use crate::states::{Asking, Racing, State};
use bytes::BytesMut;
use futures::task::{Context, Poll};
use he_addr::Memory;
use he_front::{Asked, Ended, Read, read_password, request_line};
use he_handshake::{
    Ask, Extent, Protocol, Stage, Wanted, answer_to, ended_without_method, no_method, no_user,
    piece, protocol_at, protocol_of, read_ask, user_in,
};
use he_users::Users;
use httparse::spans::Span;
use std::alloc::Global;
use std::mem::replace;
use std::time::Clock;
use tokio::io::poll_write_all_buf;

// The most octets of a request up to its body.
const MOST_HEAD: usize = 16_384;

impl<'q, K: Clock, Q: Racer> Session<'q, K, Q> {
    pub(crate) fn step_asking(
        &mut self,
        mut asking: Asking<Q::Stream>,
        cx: &mut Context<'_>,
    ) -> Next
        requires over { self.old.state ≡ State.Over }
        ensures step { IsStep Q.Racer Q.Race.Future Q.Stream.reads Q.Stream.writes Q.Stream.cuts self.old
            (State.Asking asking) self.new }
        ensures polled { IsPolled result cx.old cx.new }
    {
        if self.sleep.poll_elapsed(cx).is_ready() {
            return Next::Ends(Ending::Late);
        }
        match poll_write_all_buf(&mut asking.client, cx, &mut asking.reply) {
            Poll::Pending => {
                self.state = State::Asking(asking);
                Next::Waits
            }
            Poll::Ready(Err(_)) => Next::Ends(Ending::Left),
            Poll::Ready(Ok(())) => self.answer(asking, cx),
        }
    }

    // Handles the request, or reads more of it.
    fn answer(&mut self, asking: Asking<Q::Stream>, cx: &mut Context<'_>) -> Next
        requires told { asking.reply.items ≡ [] }
        requires over { self.old.state ≡ State.Over }
        ensures step { IsStep Q.Racer Q.Race.Future Q.Stream.reads Q.Stream.writes Q.Stream.cuts self.old
            (State.Asking asking) self.new }
        ensures polled { IsPolled result cx.old cx.new }
    {
        let users = self.asker.racer.users();
        match read_ask(self.alloc, users, &asking.come, asking.stage) {
            Ok(Ask::More) => self.hear(asking, cx),
            Ok(Ask::Step(stage, len)) => self.advance(asking, stage, len),
            Ok(Ask::NoMethod) => self.refuse_methods(asking),
            Ok(Ask::WrongUser) => self.refuse_user(asking),
            Ok(Ask::Server(wanted, asked, len)) => self.begin(asking, wanted, asked, len),
            Ok(Ask::Page(extent, path, host)) => self.show(asking, extent, path, host),
            Ok(Ask::Refused(protocol, ended)) => self.refuse_request(asking, protocol, ended),
            Ok(Ask::Unknown) => Next::Ends(Ending::Unknown),
            Err(Memory) => Next::Ends(Ending::Failed),
        }
    }

    // Reads more. Once something has come, the client keeps its place; a client from which nothing has come makes
    // room only after its socket was read.
    fn hear(&mut self, mut asking: Asking<Q::Stream>, cx: &mut Context<'_>) -> Next
        requires told { asking.reply.items ≡ [] }
        requires over { self.old.state ≡ State.Over }
        ensures step { IsStep Q.Racer Q.Race.Future Q.Stream.reads Q.Stream.writes Q.Stream.cuts self.old
            (State.Asking asking) self.new }
        ensures polled { IsPolled result cx.old cx.new }
    {
        if asking.come.len() >= MOST_HEAD {
            return match protocol_at(asking.stage) {
                Some(protocol) => self.refuse_request(asking, protocol, Ended::Kind),
                None => Next::Ends(Ending::Unknown),
            };
        }
        match poll_hear(&mut asking.client, &mut asking.come, MOST_HEAD, cx) {
            Poll::Pending => {
                if has_lost(&mut self.place, cx) {
                    return Next::Ends(Ending::Displaced);
                }
                self.state = State::Asking(asking);
                Next::Waits
            }
            Poll::Ready(Heard::Octets) => {
                self.place = None;
                self.state = State::Asking(asking);
                Next::GoesOn
            }
            Poll::Ready(Heard::End | Heard::Broken) => Next::Ends(Ending::Left),
            Poll::Ready(Heard::NoMemory) => Next::Ends(Ending::Failed),
        }
    }

    // Answers the message of `len` octets, and goes on at this stage. The log gets the name of a user.
    fn advance(&mut self, asking: Asking<Q::Stream>, stage: Stage, len: usize) -> Next
        requires asks { MayAnswer (Q.all_users self.old.asker.racer.now) asking (Ask.Step stage len) }
        requires over { self.old.state ≡ State.Over }
        ensures step { IsStep Q.Racer Q.Race.Future Q.Stream.reads Q.Stream.writes Q.Stream.cuts self.old
            (State.Asking asking) self.new }
        ensures on { result ≡ Next.Waits → ⊥ }
    {
        self.user = named(self.alloc, stage, &asking.come);
        match advanced(self.alloc, asking, stage, len) {
            Ok(asking) => {
                self.state = State::Asking(asking);
                Next::GoesOn
            }
            Err(Memory) => Next::Ends(Ending::Failed),
        }
    }

    fn refuse_methods(&mut self, asking: Asking<Q::Stream>) -> Next
        requires asks { MayAnswer (Q.all_users self.old.asker.racer.now) asking Ask.NoMethod }
        requires over { self.old.state ≡ State.Over }
        ensures step { IsStep Q.Racer Q.Race.Future Q.Stream.reads Q.Stream.writes Q.Stream.cuts self.old
            (State.Asking asking) self.new }
        ensures on { result ≡ Next.Waits → ⊥ }
    {
        let ended = ended_without_method(self.asker.racer.users());
        self.result = Some(Err(ended));
        match no_method(self.alloc) {
            Ok(reply) => self.close(asking.client, reply, Ending::Refused),
            Err(Memory) => Next::Ends(Ending::Failed),
        }
    }

    fn refuse_user(&mut self, asking: Asking<Q::Stream>) -> Next
        requires asks { MayAnswer (Q.all_users self.old.asker.racer.now) asking Ask.WrongUser }
        requires over { self.old.state ≡ State.Over }
        ensures step { IsStep Q.Racer Q.Race.Future Q.Stream.reads Q.Stream.writes Q.Stream.cuts self.old
            (State.Asking asking) self.new }
        ensures on { result ≡ Next.Waits → ⊥ }
    {
        self.result = Some(Err(Ended::NoUser));
        match no_user(self.alloc) {
            Ok(reply) => self.close(asking.client, reply, Ending::Refused),
            Err(Memory) => Next::Ends(Ending::Failed),
        }
    }

    // Refuses the request. The log gets the request line of HTTP.
    fn refuse_request(
        &mut self,
        asking: Asking<Q::Stream>,
        protocol: Protocol,
        ended: Ended,
    ) -> Next
        requires asks { MayAnswer (Q.all_users self.old.asker.racer.now) asking (Ask.Refused protocol ended) }
        requires over { self.old.state ≡ State.Over }
        ensures step { IsStep Q.Racer Q.Race.Future Q.Stream.reads Q.Stream.writes Q.Stream.cuts self.old
            (State.Asking asking) self.new }
        ensures on { result ≡ Next.Waits → ⊥ }
    {
        let Asking { client, come, .. } = asking;
        if protocol == Protocol::Http {
            self.request = Some(come);
        }
        self.refuse(client, protocol, ended)
    }

    // Begins the race for the connection to the requested server. The log gets the method of a request to forward, and
    // the name of a user in a head.
    fn begin(&mut self, asking: Asking<Q::Stream>, wanted: Wanted, asked: Asked, len: usize) -> Next
        requires asks { MayAnswer (Q.all_users self.old.asker.racer.now) asking (Ask.Server wanted asked len) }
        requires over { self.old.state ≡ State.Over }
        ensures step { IsStep Q.Racer Q.Race.Future Q.Stream.reads Q.Stream.writes Q.Stream.cuts self.old
            (State.Asking asking) self.new }
        ensures asked { self.new.asked ≡ asked }
        ensures on { result ≡ Next.Waits → ⊥ }
    {
        let Asking { client, come, .. } = asking;
        self.asked = asked;
        self.request = logged(self.alloc, &wanted, &come);
        let name = replace(&mut self.user, None);
        self.user = or_shown(self.alloc, self.asker.racer.users(), name, &come);
        match self.race_for(&come, len) {
            Ok((race, early)) => {
                self.state = State::Racing(Racing {
                    client,
                    early,
                    has_ended: false,
                    wanted,
                    race,
                });
                Next::GoesOn
            }
            Err(ended) => self.lose(client, protocol_of(&wanted), ended),
        }
    }

    // A race for the request in the first `len` octets, and the octets after these.
    fn race_for(&self, octets: &[u8], len: usize) -> Result<(Q::Race, Vec<u8>), Ended>
        ensures can { IfOk result (λ (race, early). Q.Race.can_poll race) }
        ensures named { IfOk result (λ (race, early). (end : Result (Won Q.Stream) Ended) → Q.Race.gives race end
            → Q.answers self.now.asker.racer.now self.now.asker.address (string_bytes self.now.asked.host)
            self.now.asked.port end) }
        ensures early { IfOk result (λ (race, early). early.items ≡ drop len octets.now) }
    {
        let early = match Vec::from_slice(self.alloc, rest_after(octets, len)) {
            Ok(early) => early,
            Err(Memory) => return Err(Ended::Failed),
        };
        let Asker { racer, address } = self.asker;
        let asked = RaceAsked {
            client: address,
            user: octets_of(&self.user),
            method: octets_of(&self.request),
            host: self.asked.host.as_str(),
            port: self.asked.port,
        };
        match racer.race(&asked) {
            Ok(race) => Ok((race, early)),
            Err(ended) => Err(ended),
        }
    }

    fn show(
        &mut self,
        asking: Asking<Q::Stream>,
        extent: Extent,
        path: Span,
        host: Option<Span>,
    ) -> Next
        requires asks { MayAnswer (Q.all_users self.old.asker.racer.now) asking (Ask.Page extent path host) }
        requires over { self.old.state ≡ State.Over }
        ensures step { IsStep Q.Racer Q.Race.Future Q.Stream.reads Q.Stream.writes Q.Stream.cuts self.old
            (State.Asking asking) self.new }
        ensures on { result ≡ Next.Waits → ⊥ }
    {
        let Ok(at) = asking.client.own_address() else {
            return Next::Ends(Ending::Left);
        };
        let asked = PageAsked {
            client: self.asker.address,
            at,
            path: piece(&asking.come, path).unwrap_or(&[]),
            host: match host {
                Some(span) => piece(&asking.come, span),
                None => None,
            },
        };
        let page = page_of(self.asker.racer, self.alloc, extent, &asked);
        let Asking { client, come, .. } = asking;
        self.request = Some(come);
        match page {
            Ok(out) => self.close(client, BytesMut::from(out), Ending::Page),
            Err(Memory) => Next::Ends(Ending::Failed),
        }
    }
}

// The log's part of the request in the octets: the method of one to forward, if there is memory for it.
fn logged(alloc: Global, wanted: &Wanted, octets: &[u8]) -> Option<Vec<u8>> {
    match wanted {
        Wanted::Tunnel(_) => None,
        Wanted::Response(_) => Vec::from_slice(alloc, request_line(octets).method).ok(),
    }
}

// The name in the message that leads to this stage, if it has one, and there is memory for it.
fn named(alloc: Global, stage: Stage, octets: &[u8]) -> Option<Vec<u8>> {
    if stage != Stage::Admitted {
        return None;
    }
    match read_password(octets) {
        Read::Whole(given, _) => Vec::from_slice(alloc, given.name).ok(),
        _ => None,
    }
}

// This name, or that of the user in a head, if there is memory for it.
fn or_shown(alloc: Global, users: &Users, name: Option<Vec<u8>>, octets: &[u8]) -> Option<Vec<u8>> {
    if name.is_some() || users.is_open() {
        return name;
    }
    match user_in(alloc, users, octets) {
        Ok(found) => found,
        Err(Memory) => None,
    }
}

// The octets after the first ones.
fn rest_after(octets: &[u8], len: usize) -> &[u8]
    ensures { result.now ≡ drop len octets.now }
{
    if len <= octets.len() {
        &octets[len..]
    } else {
        &[]
    }
}

// Writes the answer to the message of `len` octets next, and reads what came after it at this stage.
fn advanced<S: Connection>(
    alloc: Global,
    asking: Asking<S>,
    stage: Stage,
    len: usize,
) -> Result<Asking<S>, Memory>
    ensures { IfOk result (IsAdvanced stage len asking) }
{
    let Asking { client, come, .. } = asking;
    Ok(Asking {
        client,
        come: Vec::from_slice(alloc, rest_after(&come, len))?,
        stage,
        reply: answer_to(alloc, stage)?,
    })
}

// Whether a client that has sent nothing must make room for another one.
fn has_lost<P: Place>(place: &mut Option<P>, cx: &mut Context<'_>) -> bool
    ensures { Keeps cx.old cx.new }
{
    match place {
        Some(place) => place.poll_lost(cx).is_ready(),
        None => false,
    }
}
