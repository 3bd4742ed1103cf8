//! A query to a name server: over UDP, and over TCP if its answer is truncated (RFC 7766 section 5).

ghost use Rattle.std.specs.Prelude.{◌≡◌, IfErr, IfOk, IfSome, None, true};
ghost use Rattle.futures.specs.Poll.{IfReady, OnPending};
ghost use Rattle.futures.specs.Task.{Covers, Keeps};
ghost use Rattle.he_settings.specs.Faults.{IsOfAsking};
ghost use Rattle.he_settings.specs.Faults.{is_of_server};
ghost use Rattle.he_asking.specs.Said.{IsHeardOf, IsWay, RepliesTo, id_of};
ghost use Rattle.he_asking.specs.Needs.{query_needs, transport_needs};
ghost use Rattle.he_asking.specs.Replies.{LeavesOut};

use crate::datagrams::Datagrams;
use crate::limits::{AGAIN, MOST_STEPS, OFFERED_ROOM};
use crate::question::Question;
use crate::replies::Reply;
use crate::setup::Setup;
use crate::streams::StreamQuery;
use futures::task::{Context, Poll};
use he_dns::Answer;
use he_settings::{Failure, NamesFault, ServerFault};
use std::alloc::Global;
use std::net::{Net, SocketAddr};
use std::random::RandomSource;
use std::time::Clock;
use tokio::time::Sleep;

#[derive(Drop)]
pub(crate) enum Transport {
    Datagrams(Datagrams),
    Stream(StreamQuery),
}

impl Transport {
    fn poll_reply(
        &mut self,
        alloc: Global,
        question: Question<'_>,
        cx: &mut Context<'_>,
    ) -> Poll<Reply>
        ensures heard { IfReady result (RepliesTo (id_of self.old) question.entry.name.now.octets
            question.entry.family) }
        ensures waits { OnPending result (Covers cx.new (transport_needs self.new)) }
        ensures kept { Keeps cx.old cx.new }
    {
        match self {
            Transport::Datagrams(query) => query.poll_reply(alloc, question, cx),
            Transport::Stream(query) => query.poll_reply(alloc, question, cx),
        }
    }
}

/// A query to a name server in progress.
#[derive(Drop)]
pub struct Query {
    server: SocketAddr,
    transport: Transport,
    // The datagram size that was offered to the server, if any.
    room: Option<u16>,
    // The number of sends so far, over TCP counted as if over UDP.
    sends: u64,
    // Until the next send.
    timer: Sleep,
}

impl Query {
    /// The server.
    pub fn server(&self) -> SocketAddr {
        self.server
    }

    /// Whether its first datagram was sent.
    pub fn is_sent(&self) -> bool {
        match &self.transport {
            Transport::Datagrams(query) => query.is_sent(),
            Transport::Stream(_) => true,
        }
    }

    /// Sends the query, over UDP unless the plan has TCP only.
    ///
    /// # Errors
    ///
    /// `Server` if the server is unreachable; `Files`, `Runtime`, `Memory`.
    pub fn begin<R: Net + RandomSource + Clock>(
        setup: &Setup<'_, R>,
        server: SocketAddr,
        question: Question<'_>,
    ) -> Result<Query, NamesFault>
        ensures way { IfOk result (λ query. IsWay setup.now.plan.use_vc query.transport) }
        ensures fault { IfErr result IsOfAsking }
    {
        let room = Some(OFFERED_ROOM);
        Ok(Query {
            server,
            transport: send(setup, server, question, room)?,
            room,
            sends: 1,
            timer: setup.sleep(AGAIN)?,
        })
    }

    /// The server's answer, or `NoAnswer` after all its time. The question must be that of [`begin`](Query::begin).
    ///
    /// # Errors
    ///
    /// `NoSuchName`, `NoAddress`, `NoAnswer`, `Server`; `Files`, `Runtime`, `Memory`.
    #[tactic(auto, unfolding(crate::specs::Needs::query_needs))]
    pub fn poll_answer<R: Net + RandomSource + Clock>(
        &mut self,
        setup: &Setup<'_, R>,
        question: Question<'_>,
        cx: &mut Context<'_>,
    ) -> Poll<Result<Answer, NamesFault>>
        ensures heard { IfReady result (IsHeardOf question.entry.name.now.octets question.entry.family) }
        ensures waits { OnPending result (Covers cx.new (query_needs self.new)) }
        ensures kept { Keeps cx.old cx.new }
    {
        for _ in 0..MOST_STEPS {
            match self.transport.poll_reply(setup.alloc, question, cx) {
                Poll::Ready(reply) => {
                    if let Some(answer) = self.take(reply, setup, question) {
                        return Poll::Ready(answer);
                    }
                }
                Poll::Pending => match self.timer.poll_elapsed(cx) {
                    Poll::Pending => return Poll::Pending,
                    Poll::Ready(_) => {
                        if let Err(fault) = self.send_again(setup, question) {
                            return Poll::Ready(Err(fault));
                        }
                    }
                },
            }
        }
        cx.yield_now()
    }

    // Sends the query again, unless that was the plan's last send.
    fn send_again<R: Clock>(
        &mut self,
        setup: &Setup<'_, R>,
        question: Question<'_>,
    ) -> Result<(), NamesFault>
        ensures fault { IfErr result IsOfAsking }
    {
        if self.sends >= setup.plan.sends() {
            return Err(NamesFault::NoAnswer);
        }
        self.sends = self.sends.saturating_add(1);
        self.timer = setup.sleep(AGAIN)?;
        if self.sends_datagram(setup.alloc, question) {
            Ok(())
        } else {
            Err(failed(self.server, Failure::Unreachable))
        }
    }

    // Sends the datagram again, if it is one. Returns whether the server is reachable.
    fn sends_datagram(&mut self, alloc: Global, question: Question<'_>) -> bool {
        match &mut self.transport {
            Transport::Datagrams(query) => {
                self.room = None;
                query.send_again(alloc, question)
            }
            Transport::Stream(_) => true,
        }
    }

    // The answer in a reply; None if the server is asked again in another way.
    fn take<R: Net + RandomSource>(
        &mut self,
        reply: Reply,
        setup: &Setup<'_, R>,
        question: Question<'_>,
    ) -> Option<Result<Answer, NamesFault>>
        ensures plain { LeavesOut reply self.old.room self.new.room }
        ensures heard { (id : _) → RepliesTo id question.entry.name.now.octets question.entry.family reply
            → IfSome result (IsHeardOf question.entry.name.now.octets question.entry.family) }
    {
        match reply {
            Reply::Addresses(answer) => Some(Ok(answer)),
            Reply::NoAddress => Some(Err(NamesFault::NoAddress)),
            Reply::NoSuchName => Some(Err(NamesFault::NoSuchName)),
            Reply::Memory => Some(Err(NamesFault::Memory)),
            Reply::Files => Some(Err(NamesFault::Files)),
            Reply::Truncated => self.ask_over_tcp(setup, question).err().map(Err),
            Reply::Failure(failure) if self.room.is_some() && failure.is_of_room() => {
                self.ask_plainly(setup, question).err().map(Err)
            }
            Reply::Failure(failure) => Some(Err(failed(self.server, failure))),
        }
    }

    // Asks the server over TCP. A truncated answer over TCP is malformed.
    fn ask_over_tcp<R: Net + RandomSource>(
        &mut self,
        setup: &Setup<'_, R>,
        question: Question<'_>,
    ) -> Result<(), NamesFault>
        ensures fault { IfErr result IsOfAsking }
    {
        if let Transport::Stream(_) = &self.transport {
            return Err(failed(self.server, Failure::Malformed));
        }
        let query = StreamQuery::begin(setup, self.server, question, self.room)?;
        self.transport = Transport::Stream(query);
        Ok(())
    }

    // Asks the server again without the OPT record, which it can't read or doesn't support (RFC 6891 section 7).
    fn ask_plainly<R: Net + RandomSource>(
        &mut self,
        setup: &Setup<'_, R>,
        question: Question<'_>,
    ) -> Result<(), NamesFault>
        ensures plain { self.new.room ≡ None }
        ensures fault { IfErr result IsOfAsking }
    {
        self.room = None;
        self.transport = send(setup, self.server, question, None)?;
        Ok(())
    }
}

fn send<R: Net + RandomSource>(
    setup: &Setup<'_, R>,
    server: SocketAddr,
    question: Question<'_>,
    room: Option<u16>,
) -> Result<Transport, NamesFault>
    ensures way { IfOk result (IsWay setup.now.plan.use_vc) }
    ensures fault { IfErr result IsOfAsking }
{
    if setup.plan.uses_tcp() {
        let query = StreamQuery::begin(setup, server, question, room)?;
        return Ok(Transport::Stream(query));
    }
    match Datagrams::send(setup, server, question, room)? {
        Some(query) => Ok(Transport::Datagrams(query)),
        None => Err(failed(server, Failure::Unreachable)),
    }
}

fn failed(server: SocketAddr, failure: Failure) -> NamesFault
    ensures { is_of_server result ≡ true }
{
    NamesFault::Server(ServerFault { server, failure })
}
