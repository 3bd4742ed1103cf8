// Which clients of HTTP may use the proxy (RFC 9110 section 11.7).
ghost use Rattle.std.specs.Prelude.{◌≡◌, IfOk, IfSome, true};
ghost use Rattle.he_handshake.specs.Asks.{HasUser, IsAdmitted};
ghost use Rattle.he_handshake.specs.declared.asking.Protocol.{Protocol};

use crate::asking::piece;
use he_addr::Memory;
use he_front::read_authorization;
use he_users::Users;
use std::alloc::Global;

// Whether there are no users, or the head has the name and the password of one.
pub(crate) fn is_admitted(alloc: Global, users: &Users, octets: &[u8]) -> Result<bool, Memory>
    ensures { IfOk result (λ is. is ≡ true → IsAdmitted users.now Protocol.Http octets.now) }
{
    if users.is_open() {
        return Ok(true);
    }
    match user_in(alloc, users, octets) {
        Ok(Some(_)) => Ok(true),
        Ok(None) => Ok(false),
        Err(refused) => Err(refused),
    }
}

/// The name of the user whose credentials the head has.
///
/// # Errors
///
/// `Memory` if an allocation fails.
pub fn user_in(alloc: Global, users: &Users, octets: &[u8]) -> Result<Option<Vec<u8>>, Memory>
    ensures { IfOk result (λ found. IfSome found (λ name. HasUser users.now octets.now name.items)) }
{
    let Some(span) = read_authorization(octets) else {
        return Ok(None);
    };
    match piece(octets, span) {
        Some(value) => users.admits_basic(alloc, value),
        None => Ok(None),
    }
}
