// Headers of messages (RFC 1035 section 4.1.1).

ghost use Rattle.std.specs.Prelude.{◌≡◌, ◌==◌};
ghost use Rattle.he_dns.specs.Header.{is_lame_by, rcode_of, tc_of};
ghost use Rattle.he_dns.specs.Reading.{header_at, responds, responds_bare};

use crate::limits::HEADER_LEN;
use crate::words::word_at;

#[derive(Clone, Copy)]
pub(crate) struct Header {
    id: u16,
    flags: u16,
    questions: u16,
    answers: u16,
}

// Reads a header; None if the message is too short for one.
#[tactic(auto, unfolding(crate::specs::Reading::header_at))]
pub(crate) fn read_header(message: &[u8]) -> Option<Header>
    ensures { result ≡ header_at message.now }
{
    if message.len() < HEADER_LEN {
        return None;
    }
    let id = word_at(message, 0)?;
    let flags = word_at(message, 2)?;
    let questions = word_at(message, 4)?;
    let answers = word_at(message, 6)?;
    Some(Header {
        id,
        flags,
        questions,
        answers,
    })
}

impl Header {
    // Whether it is the header of a response (QR) to a standard query (OPCODE 0) with this id and one question.
    pub(crate) fn responds_to(self, id: u16) -> bool
        ensures { result ≡ responds self id }
    {
        self.id == id && self.flags >> 11 == 0b1_0000 && self.questions == 1
    }

    // Whether it is the header of a response to a standard query with this id, without a question.
    pub(crate) fn responds_bare_to(self, id: u16) -> bool
        ensures { result ≡ responds_bare self id }
    {
        self.id == id && self.flags >> 11 == 0b1_0000 && self.questions == 0
    }

    // Whether the server is neither an authority (AA) nor recursive (RA).
    pub(crate) fn is_lame(self) -> bool
        ensures { result ≡ is_lame_by self.flags }
    {
        (self.flags >> 10) % 2 == 0 && (self.flags >> 7) % 2 == 0
    }

    // The number of records in the answer section.
    pub(crate) fn answers(self) -> u16
        ensures { result ≡ self.answers }
    {
        self.answers
    }

    // Whether the response is cut off (TC).
    pub(crate) fn is_truncated(self) -> bool
        ensures { result ≡ (tc_of self.flags == 1) }
    {
        (self.flags >> 9) % 2 == 1
    }

    // RCODE: the lower 4 bits of the response code.
    pub(crate) fn low_code(self) -> u16
        ensures { result ≡ rcode_of self.flags }
    {
        self.flags % 16
    }
}
