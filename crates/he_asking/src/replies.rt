// The replies of a name server.

ghost use Rattle.std.specs.Prelude.{◌≡◌, IfSome};
ghost use Rattle.he_asking.specs.Said.{RepliesTo};
ghost use Rattle.he_asking.specs.Replies.{ComesTo, TellsAnswer, failure_of, fault_reply};

use crate::question::Question;
use he_dns::{Answer, AnswerFault, is_lame, read_answer, read_refusal};
use he_settings::Failure;
use std::alloc::Global;

// A name server's reply.
#[derive(Drop)]
pub(crate) enum Reply {
    Addresses(Answer),
    NoAddress,
    NoSuchName,
    // Truncated: to be asked again over TCP.
    Truncated,
    Failure(Failure),
    Memory,
    // No descriptor was left for the connection.
    Files,
}

// The reply in a message; None if it is no response to the question.
pub(crate) fn read_reply(
    alloc: Global,
    message: &[u8],
    id: u16,
    question: Question<'_>,
) -> Option<Reply>
    ensures comes { ComesTo message.now id question.entry.name.now.octets question.entry.family result }
    ensures heard { IfSome result (RepliesTo id question.entry.name.now.octets question.entry.family) }
{
    match read_answer(alloc, message, id, question.name, question.family) {
        Ok(answer) => Some(reply_of(message, answer)),
        Err(AnswerFault::NotOurs) => {
            let code = read_refusal(message, id)?;
            Some(Reply::Failure(failure_of(code)))
        }
        Err(fault) => Some(fault_reply(fault)),
    }
}

fn reply_of(message: &[u8], answer: Answer) -> Reply
    ensures { TellsAnswer message.now answer result }
{
    if !answer.addresses.is_empty() {
        return Reply::Addresses(answer);
    }
    if is_lame(message) {
        Reply::Failure(Failure::Lame)
    } else {
        Reply::NoAddress
    }
}

fn fault_reply(fault: AnswerFault) -> Reply
    ensures { result ≡ fault_reply fault }
{
    match fault {
        AnswerFault::Truncated => Reply::Truncated,
        AnswerFault::NoSuchName => Reply::NoSuchName,
        AnswerFault::Memory => Reply::Memory,
        AnswerFault::ServerFailure => Reply::Failure(Failure::ServerFailure),
        AnswerFault::Refused => Reply::Failure(Failure::Refused),
        AnswerFault::OtherCode(code) => Reply::Failure(failure_of(code)),
        AnswerFault::ChainTooLong => Reply::Failure(Failure::Aliases),
        _ => Reply::Failure(Failure::Malformed),
    }
}

// The failure for a response code.
fn failure_of(code: u16) -> Failure
    ensures { result ≡ failure_of code }
{
    match code {
        1 => Failure::FormatError,
        2 => Failure::ServerFailure,
        4 => Failure::NotImplemented,
        5 => Failure::Refused,
        16 => Failure::BadVersion,
        code => Failure::Code(code),
    }
}
