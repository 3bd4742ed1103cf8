// The addresses of an answer.

ghost use Rattle.std.specs.Prelude.{◌≡◌, ◌⊎◌, Err, IfErr, IfOk, List, MatchResult, Ok};
ghost use Rattle.he_addr.specs.declared.ip.Ip.{Ip};
ghost use Rattle.he_dns.specs.declared.fault.AnswerFault.TheVariants as faults;
ghost use Rattle.he_dns.specs.Answers.{Answers, HasFault};
ghost use Rattle.he_dns.specs.Reading.{answer_of, response_in, section_addresses, section_ttl, ttl_of};
ghost use Rattle.he_dns.specs.Ttls.{MayKeep};

use crate::chain::{addresses_of, addresses_ttl, chain_end, lesser};
use crate::codes::check;
use crate::entries::read_entries;
use crate::fault::AnswerFault;
use crate::header::{Header, read_header};
use crate::name::Name;
use crate::question::behind_question;
use he_addr::{Family, Ip};
use std::alloc::{Allocator, Global};

/// A message's answer for a host.
#[derive(Drop)]
pub struct Answer<A: Allocator = Global> {
    /// The host's addresses of the requested family, in the order of their records.
    pub addresses: Vec<Ip, A>,
    /// The time for which they may be kept, in seconds, at most 2^31 - 1: the least TTL of the aliases followed and
    /// of the addresses (RFC 1035 section 3.2.1). None if there is no such record.
    pub ttl: Option<u32>,
}

// The header of a response to this query, and the start of its answer section.
#[tactic(auto, unfolding(crate::specs::Reading::response_in))]
fn read_response(message: &[u8], id: u16, name: &[u8], family: Family) -> Option<(Header, usize)>
    ensures { result ≡ response_in message.now id name.now family }
{
    let header = read_header(message)?;
    if !header.responds_to(id) {
        return None;
    }
    let at = behind_question(message, name, family)?;
    Some((header, at))
}

// Reads the answer for a name from the answer section of a response.
#[tactic(auto, unfolding(crate::specs::Reading::section_addresses, crate::specs::Reading::chain_addresses, crate::specs::Reading::section_ttl))]
fn read_section<A: Allocator + Copy>(
    alloc: A,
    message: &[u8],
    header: Header,
    at: usize,
    name: &[u8],
    family: Family,
) -> Result<Answer<A>, AnswerFault>
    ensures addresses { MatchResult result (λ found. section_addresses message.now header at name.now family
        ≡ Ok found.addresses.items) (λ fault. (fault ≡ faults.Memory) ⊎
        (section_addresses message.now header at name.now family ≡ Err fault)) }
    ensures ttl { IfOk result (λ found. found.ttl ≡ section_ttl message.now header at name.now family) }
{
    let entries = read_entries(alloc, message, at, header.answers(), family)?;
    let (host, ttl) = chain_end(&entries, name)?;
    Ok(Answer {
        addresses: addresses_of(alloc, &entries, host)?,
        ttl: lesser(ttl, addresses_ttl(&entries, host)),
    })
}

// Reads the answer for a name from a message.
#[tactic(auto, unfolding(crate::specs::Reading::answer_of, crate::specs::Reading::ttl_of))]
fn find_answer<A: Allocator + Copy>(
    alloc: A,
    message: &[u8],
    id: u16,
    name: &[u8],
    family: Family,
) -> Result<Answer<A>, AnswerFault>
    ensures addresses { MatchResult result (λ found. answer_of message.now id name.now family
        ≡ Ok found.addresses.items) (λ fault. (fault ≡ faults.Memory)
        ⊎ (answer_of message.now id name.now family ≡ Err fault)) }
    ensures ttl { IfOk result (λ found. found.ttl ≡ ttl_of message.now id name.now family) }
{
    let Some((header, at)) = read_response(message, id, name, family) else {
        return Err(AnswerFault::NotOurs);
    };
    check(message, header, at)?;
    read_section(alloc, message, header, at, name, family)
}

/// Reads a host's addresses of this family from a response, and the time for which they may be kept.
///
/// A response to the query has its id, QR set, OPCODE 0, and one question with the name (compared
/// case-insensitively), the type of the family's addresses and class IN. Its answer section has as many records as
/// the header states. The CNAME records of the section are followed from the name, the first one of each name, at
/// most [`MAX_ALIASES`]; the addresses are those of the last name, in the order of their records. There may be none.
/// Records of other types and classes are ignored. The pointers of a name lead to places before the start of the
/// labels that precede them; a name has at most [`MAX_PARTS`] labels and pointers, and at most 255 octets.
///
/// # Errors
///
/// In the order of the checks: `NotOurs` if the message is no response to the query; `Truncated` if TC is set;
/// `Malformed` if the sections don't have as many whole records as the header states, or the upper bits of the code
/// can't be determined, unless RCODE by itself is an error other than 3; `ServerFailure`, `NoSuchName`, `Refused` or
/// `OtherCode` for a 12-bit code other than 0; `Malformed` if the RDATA of a CNAME is not exactly one name, or that
/// of an address is not 4 or 16 octets; `ChainTooLong`. `Memory` may replace an answer, the last `Malformed` or
/// `ChainTooLong`.
///
/// [`MAX_ALIASES`]: crate::limits::MAX_ALIASES
/// [`MAX_PARTS`]: crate::limits::MAX_PARTS
pub fn read_answer<A: Allocator + Copy, B: Allocator>(
    alloc: A,
    message: &[u8],
    id: u16,
    name: &Name<B>,
    family: Family,
) -> Result<Answer<A>, AnswerFault>
    ensures found { IfOk result (λ found. Answers message.now id name.now.octets family found.addresses.items) }
    ensures ttl { IfOk result (λ found. MayKeep message.now id name.now.octets family found.ttl) }
    ensures fault { IfErr result (λ fault. HasFault message.now id name.now.octets family fault) }
    ensures none { IfErr result (λ fault. (fault ≡ faults.Memory → ⊥) → (addresses : List Ip)
        → Answers message.now id name.now.octets family addresses → ⊥) }
{
    find_answer(alloc, message, id, name.octets(), family)
}
