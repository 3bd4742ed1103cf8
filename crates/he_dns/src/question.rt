// Questions (RFC 1035 section 4.1.2).

ghost use Rattle.std.specs.Prelude.{◌≡◌};
ghost use Rattle.he_dns.specs.Names.{is_same};
ghost use Rattle.he_dns.specs.Numbers.{type_of};
ghost use Rattle.he_dns.specs.Reading.{behind_question};

use crate::limits::{CLASS_IN, HEADER_LEN, TYPE_A, TYPE_AAAA};
use crate::names::read_name;
use crate::words::word_at;
use he_addr::Family;

// TYPE of a family's addresses.
pub(crate) fn type_of(family: Family) -> u16
    ensures { result ≡ type_of family }
{
    match family {
        Family::V4 => TYPE_A,
        Family::V6 => TYPE_AAAA,
    }
}

// Whether two names are equal without regard to the case of ASCII letters (RFC 4343). An octet with a label's length
// is no letter.
pub(crate) fn is_same(name: &[u8], other: &[u8]) -> bool
    ensures { result ≡ is_same name.now other.now }
{
    name.eq_ignore_ascii_case(other)
}

// The end of the first question, if it asks for this host's addresses of this family.
#[tactic(auto, unfolding(crate::specs::Reading::behind_question, crate::specs::Reading::word_at))]
pub(crate) fn behind_question(message: &[u8], name: &[u8], family: Family) -> Option<usize>
    ensures { result ≡ behind_question message.now name.now family }
{
    let (asked, end) = read_name(message, HEADER_LEN)?;
    let kind = word_at(message, end)?;
    let class = word_at(message, end + 2)?;
    if is_same(asked.as_slice(), name) && kind == type_of(family) && class == CLASS_IN {
        Some(end + 4)
    } else {
        None
    }
}
