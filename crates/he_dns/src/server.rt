// A message's information about the server that sent it (RFC 1035 section 4.1.1).

ghost use Rattle.std.specs.Prelude.{◌≡◌, true, IfNone, IfSome};
ghost use Rattle.he_dns.specs.Codes.{IsRefusal};
ghost use Rattle.he_dns.specs.Header.{IsLame};
ghost use Rattle.he_dns.specs.Reading.{lame_in, refusal_in};

use crate::codes::read_code;
use crate::header::read_header;
use crate::limits::HEADER_LEN;

/// The code by which a server refuses the query with this id without repeating the question, as a server may that
/// stopped reading: any code but 0 and 3. None for every other message.
pub fn read_refusal(message: &[u8], id: u16) -> Option<u16>
    ensures some { IfSome result (IsRefusal message.now id) }
    ensures none { IfNone result ((code : _) → IsRefusal message.now id code → ⊥) }
{
    find_refusal(message, id)
}

#[tactic(auto, unfolding(crate::specs::Reading::refusal_in))]
fn find_refusal(message: &[u8], id: u16) -> Option<u16>
    ensures { result ≡ refusal_in message.now id }
{
    let header = read_header(message)?;
    if !header.responds_bare_to(id) {
        return None;
    }
    match read_code(message, header, HEADER_LEN)? {
        0 | 3 => None,
        code => Some(code),
    }
}

/// Whether the server that sent a message is lame: neither an authority for the name (AA) nor recursive (RA). Its
/// negative answer about a name doesn't count.
pub fn is_lame(message: &[u8]) -> bool
    ensures lame { result ≡ true → IsLame message.now }
    ensures able { IsLame message.now → result ≡ true }
{
    find_lame(message)
}

#[tactic(auto, unfolding(crate::specs::Reading::lame_in))]
fn find_lame(message: &[u8]) -> bool
    ensures { result ≡ lame_in message.now }
{
    match read_header(message) {
        Some(header) => header.is_lame(),
        None => false,
    }
}
