// A query over TCP (RFC 1035 section 4.2.2): each message follows its length in two bytes.

ghost use Rattle.std.specs.Prelude.{◌≡◌, ◌++◌, IfErr, IfOk, false, length};
ghost use Rattle.std.specs.Int.{to_be_bytes, w16};
ghost use Rattle.futures.specs.Poll.{IfReady, OnPending};
ghost use Rattle.futures.specs.Task.{Covers, Keeps};
ghost use Rattle.he_settings.specs.Faults.{is_of_host};
ghost use Rattle.he_asking.specs.Said.{IsToSend, RepliesTo};
ghost use Rattle.he_asking.specs.Needs.{CoversWait, stage_needs};

use crate::datagrams::random_id;
use crate::limits::MOST_STEPS;
use crate::question::Question;
use crate::replies::{Reply, read_reply};
use crate::setup::Setup;
use futures::Future;
use futures::task::{Context, Poll};
use he_dns::write_query;
use he_settings::{Failure, NamesFault};
use std::alloc::Global;
use std::io;
use std::io::Cursor;
use std::mem::replace;
use std::net::{Net, SocketAddr};
use std::random::RandomSource;
use tokio::io::{ReadExact, WriteAll, read_exact, write_all};
use tokio::net::{ConnectFuture, TcpStream};

// The stage of a query.
#[derive(Drop)]
pub(crate) enum Stage {
    Connecting(ConnectFuture, Vec<u8>),
    Sending(WriteAll<TcpStream, Cursor<Vec<u8>>>),
    Length(ReadExact<TcpStream>),
    Message(ReadExact<TcpStream>),
    Over,
}

const LENGTH_LEN: usize = 2;

#[derive(Drop)]
pub(crate) struct StreamQuery {
    stage: Stage,
    id: u16,
}

impl StreamQuery {
    pub(crate) fn begin<R: Net + RandomSource>(
        setup: &Setup<'_, R>,
        server: SocketAddr,
        question: Question<'_>,
        room: Option<u16>,
    ) -> Result<StreamQuery, NamesFault>
        ensures sends { IfOk result (λ query. IsToSend query.id question.entry.name.now.octets question.entry.family
            query.stage) }
        ensures fault { IfErr result (λ fault. is_of_host fault ≡ false) }
    {
        let id = random_id(setup.rt)?;
        let message = write_query(setup.alloc, id, question.name, question.family, room)?;
        let request = framed(setup.alloc, &message)?;
        let connecting = TcpStream::connect(setup.rt, server, setup.reactor);
        Ok(StreamQuery {
            stage: Stage::Connecting(connecting, request),
            id,
        })
    }

    // The server's reply. Ignores messages that are no response to the question, as over UDP.
    pub(crate) fn poll_reply(
        &mut self,
        alloc: Global,
        question: Question<'_>,
        cx: &mut Context<'_>,
    ) -> Poll<Reply>
        ensures heard { IfReady result (RepliesTo self.old.id question.entry.name.now.octets question.entry.family) }
        ensures id { self.new.id ≡ self.old.id }
        ensures waits { OnPending result (Covers cx.new (stage_needs self.new.stage)) }
        ensures kept { Keeps cx.old cx.new }
    {
        for _ in 0..MOST_STEPS {
            match replace(&mut self.stage, Stage::Over).step(alloc, cx) {
                StageOutcome::Waits(stage) => {
                    self.stage = stage;
                    return Poll::Pending;
                }
                StageOutcome::Goes(stage) => self.stage = stage,
                StageOutcome::Ends(error) => return Poll::Ready(reply_of(error)),
                StageOutcome::Came(stream, message) => {
                    if let Some(reply) = read_reply(alloc, &message, self.id, question) {
                        return Poll::Ready(reply);
                    }
                    match fill(alloc, stream, LENGTH_LEN) {
                        Ok(reading) => self.stage = Stage::Length(reading),
                        Err(error) => return Poll::Ready(reply_of(error)),
                    }
                }
            }
        }
        cx.yield_now()
    }
}

// The message after its length.
fn framed(alloc: Global, message: &[u8]) -> Result<Vec<u8>, NamesFault>
    ensures framed { IfOk result (λ request. request.items ≡ to_be_bytes w16 (length message.now) ++ message.now) }
    ensures fault { IfErr result (λ fault. is_of_host fault ≡ false) }
{
    let Ok(len) = u16::try_from(message.len()) else {
        return Err(NamesFault::Runtime);
    };
    let mut request = Vec::from_slice(alloc, &len.to_be_bytes())?;
    request.extend_from_slice(message)?;
    Ok(request)
}

// The outcome of a stage's poll.
#[derive(Drop)]
pub(crate) enum StageOutcome {
    Waits(Stage),
    Goes(Stage),
    Came(TcpStream, Vec<u8>),
    Ends(io::Error),
}

// Reads `len` bytes.
fn fill(alloc: Global, stream: TcpStream, len: usize) -> io::Result<ReadExact<TcpStream>> {
    Ok(read_exact(stream, vec![in alloc; 0; len]?))
}

// The length in two bytes.
fn length_of(bytes: &[u8]) -> usize {
    match bytes {
        [high, low] => u16::from_be_bytes([*high, *low]) as usize,
        _ => 0,
    }
}

// The reply for a connection that fails or breaks off.
fn reply_of(error: io::Error) -> Reply
    ensures { (id : _) (octets : _) (family : _) → RepliesTo id octets family result }
{
    match NamesFault::from(error) {
        NamesFault::Memory => Reply::Memory,
        NamesFault::Files => Reply::Files,
        _ => Reply::Failure(Failure::Unreachable),
    }
}

impl Stage {
    fn step(self, alloc: Global, cx: &mut Context<'_>) -> StageOutcome
        ensures waits { CoversWait cx.new result }
        ensures kept { Keeps cx.old cx.new }
    {
        match self {
            Stage::Connecting(mut connecting, request) => match connecting.poll(cx) {
                Poll::Pending => StageOutcome::Waits(Stage::Connecting(connecting, request)),
                Poll::Ready(Ok(stream)) => StageOutcome::Goes(Stage::Sending(write_all(
                    stream,
                    Cursor::new(request),
                ))),
                Poll::Ready(Err(error)) => StageOutcome::Ends(error),
            },
            Stage::Sending(mut sending) => match sending.poll(cx) {
                Poll::Pending => StageOutcome::Waits(Stage::Sending(sending)),
                Poll::Ready(Ok((stream, _))) => match fill(alloc, stream, LENGTH_LEN) {
                    Ok(reading) => StageOutcome::Goes(Stage::Length(reading)),
                    Err(error) => StageOutcome::Ends(error),
                },
                Poll::Ready(Err(error)) => StageOutcome::Ends(error),
            },
            Stage::Length(mut reading) => match reading.poll(cx) {
                Poll::Pending => StageOutcome::Waits(Stage::Length(reading)),
                Poll::Ready(Ok((stream, len))) => match fill(alloc, stream, length_of(&len)) {
                    Ok(reading) => StageOutcome::Goes(Stage::Message(reading)),
                    Err(error) => StageOutcome::Ends(error),
                },
                Poll::Ready(Err(error)) => StageOutcome::Ends(error),
            },
            Stage::Message(mut reading) => match reading.poll(cx) {
                Poll::Pending => StageOutcome::Waits(Stage::Message(reading)),
                Poll::Ready(Ok((stream, message))) => StageOutcome::Came(stream, message),
                Poll::Ready(Err(error)) => StageOutcome::Ends(error),
            },
            Stage::Over => StageOutcome::Ends(io::ErrorKind::UnexpectedEof.into()),
        }
    }
}
