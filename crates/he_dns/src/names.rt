// Names of a message.

ghost use Rattle.std.specs.Prelude.{◌≡◌, ◌+◌, ◌<◌, ◌≤◌, IfSome, drop, length, take};
ghost use Rattle.he_dns.specs.Reading.{name_at};

use crate::limits::MAX_PARTS;
use crate::octets::Octets;
use crate::parts::{NamePart, part_at};

// A label after the octet with its length.
fn label_octets(message: &[u8], at: usize, len: usize) -> &[u8]
    requires { at + len < length message.now }
    ensures value { result.now ≡ take (1 + len) (drop at message.now) }
    ensures len { length result.now ≡ 1 + len }
{
    &message[at..][..1 + len]
}

// The name at a place, and its end there. None if a pointer doesn't lead to a place before the start of the labels
// that precede it.
pub(crate) fn read_name(message: &[u8], at: usize) -> Option<(Octets, usize)>
    ensures value { result ≡ name_at message.now at }
    ensures within { IfSome result (λ name. name.1 ≤ length message.now) }
{
    let mut octets = Octets::new();
    let mut begin = at;
    let mut place = at;
    let mut end = None;
    'parts: for read in 0..MAX_PARTS {
        match part_at(message, place)? {
            NamePart::Root => return Some((octets, end.unwrap_or(place + 1))),
            NamePart::Label(len) => {
                octets.append(label_octets(message, place, len))?;
                place += 1 + len;
            }
            NamePart::Pointer(to) => {
                if to >= begin {
                    return None;
                }
                end = Some(end.unwrap_or(place + 2));
                begin = to;
                place = to;
            }
        }
    }
    None
}
