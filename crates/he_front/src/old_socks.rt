// The requests of SOCKS 4 clients (the SOCKS 4 protocol, and its extension SOCKS 4A).

ghost use Rattle.std.specs.Prelude.{◌≡◌, ◌+◌, Some, drop, slice_get};
ghost use Rattle.std.specs.Borrow.{Bor};
ghost use Rattle.he_front.specs.Messages.{Reads};
ghost use Rattle.he_front.specs.OldSocks.{IsOldRequest, IsText, ReadsText, is_name_sign};

use crate::authority::{MOST_HOST, cut};
use crate::socks::{CONNECT, Read, Refusal, Request, Target, is_other, port_at, v4_at};
use he_addr::Ip;

const VERSION: u8 = 4;

const NUL: u8 = 0;

// The place of the port, that of the address, and that of USERID.
const PORT: usize = 2;

const ADDRESS: usize = 4;

const USER: usize = 8;

/// The maximum number of octets of a USERID.
pub const MOST_USER: usize = 255;

/// Reads the request with which the octets begin: VN, CD, DSTPORT, DSTIP, USERID and NUL, and by SOCKS 4A a name and
/// NUL if DSTIP is 0.0.0.x with x other than 0.
pub fn read_old_request(octets: &[u8]) -> Read<Request<'_>>
    ensures { Reads IsOldRequest octets.now result }
{
    if is_other(octets, 0, VERSION) {
        return Read::Refused(Refusal::Message);
    }
    if is_other(octets, 1, CONNECT) {
        return Read::Refused(Refusal::Command);
    }
    if octets.len() < USER {
        return Read::Partial;
    }
    match read_text(&octets[USER..], MOST_USER) {
        Read::Whole(_, len) => read_old_target(octets, USER + len),
        Read::Partial => Read::Partial,
        Read::Refused(refusal) => Read::Refused(refusal),
    }
}

// The request whose USERID ends at `after`.
fn read_old_target(octets: &[u8], after: usize) -> Read<Request<'_>>
    requires version { slice_get octets.now 0 ≡ Some 4 }
    requires command { slice_get octets.now 1 ≡ Some 1 }
    requires user { (user : Bor _) × (len : _) × IsText 255 (drop 8 octets.now) user len × (after ≡ 8 + len) }
    ensures { Reads IsOldRequest octets.now result }
{
    let port = port_at(&octets[PORT..ADDRESS]);
    let ip = v4_at(&octets[ADDRESS..USER]);
    if !is_name_sign(ip) {
        let target = Target::Address(Ip::V4(ip));
        return Read::Whole(Request { target, port }, after);
    }
    match read_text(&octets[after..], MOST_HOST) {
        Read::Whole(name, len) => {
            let target = Target::Name(name);
            Read::Whole(Request { target, port }, after + len)
        }
        Read::Partial => Read::Partial,
        Read::Refused(refusal) => Read::Refused(refusal),
    }
}

// Whether an address is 0.0.0.x with x other than 0.
fn is_name_sign(ip: u32) -> bool
    ensures { result ≡ is_name_sign ip }
{
    1 <= ip && ip <= 255
}

// Reads the text of at most `most` octets with which the octets begin, and the NUL that ends it.
fn read_text(octets: &[u8], most: usize) -> Read<&[u8]>
    ensures { ReadsText most octets.now result }
{
    match cut(octets, NUL) {
        Some((text, _)) => {
            if text.len() > most {
                return Read::Refused(Refusal::Message);
            }
            Read::Whole(text, text.len() + 1)
        }
        None => {
            if octets.len() > most {
                return Read::Refused(Refusal::Message);
            }
            Read::Partial
        }
    }
}
