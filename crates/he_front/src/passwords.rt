// The names and passwords of SOCKS 5 clients (RFC 1929).

ghost use Rattle.he_front.specs.Messages.{Reads};
ghost use Rattle.he_front.specs.Passwords.{IsPassword};

use crate::socks::{Read, Refusal, is_other};

const VERSION: u8 = 1;

// The place of the name, after its length.
const NAME: usize = 2;

/// A name and a password: any octets, at most 255 of each. Each may be empty.
#[derive(Clone, Copy, Debug, PartialEq, Eq)]
pub struct Credentials<'o> {
    pub name: &'o [u8],
    pub password: &'o [u8],
}

/// Reads the name and the password with which the octets begin (section 2).
pub fn read_password(octets: &[u8]) -> Read<Credentials<'_>>
    ensures { Reads IsPassword octets.now result }
{
    if is_other(octets, 0, VERSION) {
        return Read::Refused(Refusal::Message);
    }
    if octets.len() < NAME {
        return Read::Partial;
    }
    let after = NAME + octets[1] as usize;
    if octets.len() <= after {
        return Read::Partial;
    }
    let end = after + 1 + octets[after] as usize;
    if octets.len() < end {
        return Read::Partial;
    }
    let credentials = Credentials {
        name: &octets[NAME..after],
        password: &octets[after + 1..end],
    };
    Read::Whole(credentials, end)
}
