//! The session's steps that send a final reply: why there is no tunnel, or a page.
ghost use Rattle.std.specs.Prelude.{◌≡◌, ℕ, IfOk, List, [], ◌++◌};
ghost use Rattle.he_handshake.specs.Asks.{IsFailure, greets};
ghost use Rattle.he_handshake.specs.Replies.{IsReply};
ghost use Rattle.he_sessions.specs.Follows.{come_to};
ghost use Rattle.he_sessions.specs.Sessions.{IsAt, IsLast, IsNext, IsPolled, IsStep, TellsOn};
ghost use Rattle.he_sessions.specs.Talks.{Talks, welcome};
ghost use Rattle.he_sessions.specs.declared.session.Next.{Next};

use crate::ending::Ending;
use crate::hearing::poll_linger;
use crate::racer::Racer;
use crate::session::{Asker, Next, Session};
use crate::states::{Closing, State};
use crate::timing::restart;
use bytes::BytesMut;
use futures::Future;
use futures::task::{Context, Poll};
use he_addr::Memory;
use he_front::Ended;
use he_handshake::{Protocol, http_reply, reason_of, reply_to};
use std::time::Clock;
use tokio::io::poll_write_all_buf;

impl<'q, K: Clock, Q: Racer> Session<'q, K, Q> {
    // Sends the client why it gets no connection. The log gets that too.
    pub(crate) fn refuse(&mut self, client: Q::Stream, protocol: Protocol, ended: Ended) -> Next
        requires failure { IsFailure ended }
        requires over { self.old.state ≡ State.Over }
        ensures told { TellsOn Q.Racer Q.Race.Future Q.Stream.reads Q.Stream.writes Q.Stream.cuts client
            (welcome (greets protocol)) self.new }
        ensures next { IsNext self.old self.new }
        ensures on { result ≡ Next.Waits → ⊥ }
    {
        self.result = Some(Err(ended));
        match self.refusal(protocol, ended) {
            Ok(reply) => self.close(client, reply, Ending::Refused),
            Err(Memory) => Next::Ends(Ending::Failed),
        }
    }

    // The reply that says why there is no connection; by HTTP also what was tried.
    fn refusal(&self, protocol: Protocol, ended: Ended) -> Result<BytesMut, Memory>
        ensures { IfOk result (λ reply. IsReply protocol ended reply.items) }
    {
        let Asker { racer, address } = self.asker;
        match protocol {
            Protocol::Http => {
                let mut reason = Vec::from_slice(self.alloc, reason_of(ended).as_bytes())?;
                racer.write_tried(address, &mut reason)?;
                http_reply(self.alloc, ended, &reason)
            }
            _ => reply_to(self.alloc, protocol, ended),
        }
    }

    // Writes this final reply.
    pub(crate) fn close(&mut self, client: Q::Stream, reply: BytesMut, how: Ending) -> Next
        ensures told { (first : Q.Stream) (said told : List ℕ)
            → Talks Q.Stream.reads Q.Stream.writes first said client [] told
            → IsLast (Q.all_users self.old.asker.racer.now) self.old.result how said (told ++ reply.items)
            → IsAt Q.Racer Q.Race.Future Q.Stream.reads Q.Stream.writes Q.Stream.cuts first self.new
            self.new.state }
        ensures next { IsNext self.old self.new }
        ensures last { (come_to self.new.state).2 ≡ 1 }
        ensures on { result ≡ Next.Waits → ⊥ }
    {
        self.place = None;
        restart(self.clock, &mut self.sleep, self.limits.request);
        self.state = State::Closing(Closing { client, reply, how });
        Next::GoesOn
    }

    pub(crate) fn step_closing(
        &mut self,
        mut closing: Closing<Q::Stream>,
        cx: &mut Context<'_>,
    ) -> Next
        requires over { self.old.state ≡ State.Over }
        ensures step { IsStep Q.Racer Q.Race.Future Q.Stream.reads Q.Stream.writes Q.Stream.cuts self.old
            (State.Closing closing) self.new }
        ensures polled { IsPolled result cx.old cx.new }
    {
        if self.sleep.poll_elapsed(cx).is_ready() {
            return Next::Ends(closing.how);
        }
        match poll_write_all_buf(&mut closing.client, cx, &mut closing.reply) {
            Poll::Pending => {
                self.state = State::Closing(closing);
                Next::Waits
            }
            Poll::Ready(Err(_)) => Next::Ends(closing.how),
            Poll::Ready(Ok(())) => self.linger(closing, cx),
        }
    }

    // Reads on until the client closes: a connection closed with unread octets is reset, and a reply that has not
    // arrived by then is lost (RFC 9112 section 9.6).
    fn linger(&mut self, mut closing: Closing<Q::Stream>, cx: &mut Context<'_>) -> Next
        requires over { self.old.state ≡ State.Over }
        ensures step { IsStep Q.Racer Q.Race.Future Q.Stream.reads Q.Stream.writes Q.Stream.cuts self.old
            (State.Closing closing) self.new }
        ensures polled { IsPolled result cx.old cx.new }
    {
        match poll_linger(&mut closing.client, cx) {
            Poll::Pending => {
                self.state = State::Closing(closing);
                Next::Waits
            }
            Poll::Ready(Ok(0)) | Poll::Ready(Err(_)) => Next::Ends(closing.how),
            Poll::Ready(Ok(_)) => {
                self.state = State::Closing(closing);
                Next::GoesOn
            }
        }
    }
}
