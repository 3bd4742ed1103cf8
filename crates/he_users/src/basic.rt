//! The Basic scheme of HTTP authentication (RFC 7617).

ghost use Rattle.std.specs.Prelude.{◌≡◌, ◌==◌, IfNone, IfOk, IfSome, not, option_map, position};
ghost use Rattle.he_users.specs.Basic.{AdmitsBasic, IsNamed, IsTextOf, IsTextOfNone, LacksBasic, token_in, without_spaces};

use crate::lines::cut;
use crate::users::Users;
use base64::DecodeAllocError;
use base64::engine::general_purpose::STANDARD;
use he_addr::Memory;
use std::alloc::Global;

const SCHEME: &[u8] = b"basic ";

const SPACE: u8 = b' ';

impl Users {
    /// The name in the credentials of a field, if they are those of one of the users: the scheme Basic, in any case
    /// of letters, and the Base64 text of `NAME:PASSWORD` (RFC 7617 section 2).
    ///
    /// # Errors
    ///
    /// `Memory` if an allocation fails.
    pub fn admits_basic(&self, alloc: Global, value: &[u8]) -> Result<Option<Vec<u8>>, Memory>
        ensures named { IfOk result (λ found. IfSome found (λ name. AdmitsBasic self.now value.now name.items)) }
        ensures none { IfOk result (λ found. IfNone found (LacksBasic self.now value.now)) }
    {
        let Some(token) = token_in(value) else {
            return Ok(None);
        };
        match decoded(alloc, token)? {
            Some(pair) => self.name_in(alloc, &pair),
            None => Ok(None),
        }
    }

    // The name before the first colon, if it and the text after it are those of a user.
    fn name_in(&self, alloc: Global, pair: &[u8]) -> Result<Option<Vec<u8>>, Memory>
        ensures { IfOk result (IsNamed self.now pair.now) }
    {
        match cut(pair) {
            Some((name, password)) if self.admits(name, password) => {
                Ok(Some(Vec::from_slice(alloc, name)?))
            }
            _ => Ok(None),
        }
    }
}

// The octets whose Base64 text this is (RFC 4648 section 4). None if it is the text of none.
fn decoded(alloc: Global, token: &[u8]) -> Result<Option<Vec<u8>>, Memory>
    ensures pair { IfOk result (λ found. IfSome found (λ pair. IsTextOf token.now pair.items)) }
    ensures none { IfOk result (λ found. IfNone found (IsTextOfNone token.now)) }
{
    match STANDARD.decode(alloc, token) {
        Ok(pair) => Ok(Some(pair)),
        Err(DecodeAllocError::DecodeError(_)) => Ok(None),
        Err(DecodeAllocError::OutOfMemory) => Err(Memory),
    }
}

// The text after the scheme and its spaces (RFC 9110 section 11.4).
fn token_in(value: &[u8]) -> Option<&[u8]>
    ensures { option_map (λ token. token.now) result ≡ token_in value.now }
{
    if value.len() >= SCHEME.len() && value[..SCHEME.len()].eq_ignore_ascii_case(SCHEME) {
        Some(without_spaces(&value[SCHEME.len()..]))
    } else {
        None
    }
}

// The text from its first octet that is no space.
fn without_spaces(text: &[u8]) -> &[u8]
    ensures { result.now ≡ without_spaces text.now }
{
    match first_sign(text) {
        Some(at) => &text[at..],
        None => &[],
    }
}

fn first_sign(text: &[u8]) -> Option<usize>
    ensures { result ≡ position (λ octet. not (octet == 32)) text.now }
{
    text.iter().position(|octet| *octet != SPACE)
}
