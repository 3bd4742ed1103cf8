// The replies to clients.
ghost use Rattle.std.specs.Prelude.{◌≡◌, ◌∷◌, [], IfOk};
ghost use Rattle.he_front.specs.declared.replies.Ended.TheVariants as ends;
ghost use Rattle.he_handshake.specs.Replies.{IsReply, step_reply};

use crate::asking::{Protocol, Stage};
use bytes::BytesMut;
use he_addr::Memory;
use he_front::{Ended, Method, method_reply, password_reply};
use std::alloc::Global;

const NO_RESPONSE: &str = "the server sent no response that this proxy can read";

/// The response to a client whose server gave none that can be returned (RFC 9110 section 15.6.3).
///
/// # Errors
///
/// `Memory` if an allocation fails.
pub fn no_response(alloc: Global) -> Result<BytesMut, Memory>
    ensures { IfOk result (λ reply. IsReply Protocol.Http ends.Refused reply.items) }
{
    http_reply(alloc, Ended::Refused, NO_RESPONSE.as_bytes())
}

/// The answer that leads to this stage (RFC 1928 section 3; RFC 1929 section 2).
///
/// # Errors
///
/// `Memory` if an allocation fails.
pub fn answer_to(alloc: Global, stage: Stage) -> Result<BytesMut, Memory>
    ensures { IfOk result (λ reply. reply.items ≡ step_reply stage) }
{
    match stage {
        Stage::New => Ok(BytesMut::new(alloc)),
        Stage::Greeted => BytesMut::copy_from_slice(alloc, &method_reply(Some(Method::Open))),
        Stage::Authenticating => {
            BytesMut::copy_from_slice(alloc, &method_reply(Some(Method::Password)))
        }
        Stage::Admitted => BytesMut::copy_from_slice(alloc, &password_reply(true)),
    }
}

/// The answer to a greeting without an acceptable method (RFC 1928 section 3).
///
/// # Errors
///
/// `Memory` if an allocation fails.
pub fn no_method(alloc: Global) -> Result<BytesMut, Memory>
    ensures { IfOk result (λ reply. reply.items ≡ 5 ∷ 255 ∷ []) }
{
    BytesMut::copy_from_slice(alloc, &method_reply(None))
}

/// The answer to a name and a password of no user (RFC 1929 section 2).
///
/// # Errors
///
/// `Memory` if an allocation fails.
pub fn no_user(alloc: Global) -> Result<BytesMut, Memory>
    ensures { IfOk result (λ reply. reply.items ≡ 1 ∷ 1 ∷ []) }
{
    BytesMut::copy_from_slice(alloc, &password_reply(false))
}

/// The reply to a client whose request ended like this.
///
/// # Errors
///
/// `Memory` if an allocation fails.
pub fn reply_to(alloc: Global, protocol: Protocol, ended: Ended) -> Result<BytesMut, Memory>
    ensures { IfOk result (λ reply. IsReply protocol ended reply.items) }
{
    match protocol {
        Protocol::OldSocks => BytesMut::copy_from_slice(alloc, &ended.old_socks_reply()),
        Protocol::Socks(_) => BytesMut::copy_from_slice(alloc, &ended.socks_reply()),
        Protocol::Http => http_reply(alloc, ended, reason_of(ended).as_bytes()),
    }
}

/// The response of HTTP for such an end, with this reason, a text.
///
/// # Errors
///
/// `Memory` if an allocation fails.
pub fn http_reply(alloc: Global, ended: Ended, reason: &[u8]) -> Result<BytesMut, Memory>
    ensures { IfOk result (λ reply. IsReply Protocol.Http ended reply.items) }
{
    let mut text = Vec::new(alloc);
    ended.write_response(reason, &mut text)?;
    Ok(BytesMut::from(text))
}

/// The reason for people.
pub fn reason_of(ended: Ended) -> &'static str {
    match ended {
        Ended::Connected => "",
        Ended::Failed => "the proxy is out of memory or of descriptors",
        Ended::Forbidden => "this proxy makes no connection to that target",
        Ended::NoUser => "this proxy needs the name and the password of one of its users",
        Ended::NoNetwork => "no network leads to an address of the host",
        Ended::NoHost => "the host has no address that could be reached",
        Ended::Refused => "each address of the host refused the connection",
        Ended::TimedOut => "no address of the host answered in time",
        Ended::Command => "this proxy supports only SOCKS, CONNECT and requests for http:// URLs",
        Ended::Kind => "the request is not one that this proxy can read",
        Ended::Coding => "this proxy understands no transfer coding but chunked",
    }
}
