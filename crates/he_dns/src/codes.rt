// The code of a response: RCODE (RFC 1035 section 4.1.1), with the upper 8 bits from an OPT record (RFC 6891 section
// 6.1.3).

ghost use Rattle.std.specs.Prelude.{◌≡◌, Err, None, Ok};
ghost use Rattle.std.specs.Option.{option_map_or};
ghost use Rattle.he_dns.specs.Reading.{behind_records, code_in, extended, extension_from, extension_in, response_fault};

use crate::fault::AnswerFault;
use crate::header::Header;
use crate::limits::{ADDITIONALS_AT, AUTHORITIES_AT, TYPE_OPT};
use crate::records::{Record, read_record};
use crate::words::word_at;

const NO_ERROR: u16 = 0;

const NAME_ERROR: u16 = 3;

// Checks that the response whose answer section begins at `at` is whole (TC) and that its code is 0.
pub(crate) fn check(message: &[u8], header: Header, at: usize) -> Result<(), AnswerFault>
    ensures { result ≡ option_map_or (λ fault. Err fault) (response_fault message.now header.flags header.answers at)
        (Ok tt) }
{
    if header.is_truncated() {
        return Err(AnswerFault::Truncated);
    }
    match read_code(message, header, at) {
        None => Err(AnswerFault::Malformed),
        Some(NO_ERROR) => Ok(()),
        Some(2) => Err(AnswerFault::ServerFailure),
        Some(NAME_ERROR) => Err(AnswerFault::NoSuchName),
        Some(5) => Err(AnswerFault::Refused),
        Some(code) => Err(AnswerFault::OtherCode(code)),
    }
}

// The code of a response. If its records can't be read, an error code in its header still counts, except 3 (no such
// name).
pub(crate) fn read_code(message: &[u8], header: Header, at: usize) -> Option<u16>
    ensures { result ≡ code_in message.now header.flags header.answers at }
{
    let low = header.low_code();
    match read_extension(message, header, at) {
        Some(extension) => Some(u16::from(extension) * 16 + low),
        None if low != NO_ERROR && low != NAME_ERROR => Some(low),
        None => None,
    }
}

// The upper bits of the code, 0 if no record has them. None if the sections don't have as many whole records as the
// header states, or two records have these bits, or one whose owner is not the root.
#[tactic(auto, unfolding(crate::specs::Reading::extension_in))]
fn read_extension(message: &[u8], header: Header, at: usize) -> Option<u8>
    ensures { result ≡ extension_in message.now header.answers at }
{
    let authorities = word_at(message, AUTHORITIES_AT)?;
    let additionals = word_at(message, ADDITIONALS_AT)?;
    let behind_answers = behind_records(message, at, header.answers())?;
    let begin = behind_records(message, behind_answers, authorities)?;
    read_additional(message, begin, additionals)
}

// The end of `count` records, the first of which begins at `at`.
fn behind_records(message: &[u8], at: usize, count: u16) -> Option<usize>
    ensures { result ≡ behind_records count message.now at }
{
    let mut at = at;
    'records: for passed in 0..count {
        let source = read_record(message, at)?;
        at = source.place + source.size;
    }
    Some(at)
}

// The upper bits from the additional records, if one of them has any.
fn read_additional(message: &[u8], at: usize, count: u16) -> Option<u8>
    ensures { result ≡ extension_from count message.now None at }
{
    let mut at = at;
    let mut extension = None;
    'records: for read in 0..count {
        let source = read_record(message, at)?;
        extension = extended(extension, &source)?;
        at = source.place + source.size;
    }
    Some(extension.unwrap_or(0))
}

// The upper bits of the code, after one more record.
fn extended(extension: Option<u8>, source: &Record) -> Option<Option<u8>>
    ensures { result ≡ extended extension source.now }
{
    if source.kind != u16::from(TYPE_OPT) {
        return Some(extension);
    }
    if extension.is_none() && source.owner.as_slice().is_empty() {
        Some(Some(source.ttl_first))
    } else {
        None
    }
}
