// How a session ended, and the reply to its client.

ghost use Rattle.std.specs.Prelude.{◌≡◌, ◌∷◌, [], if◌then◌else◌};
ghost use Rattle.he_front.specs.Replies.{code_of, method_of, old_code_of, status_of};

use crate::socks::Method;

/// The reply to a greeting: the client proceeds by this method, or none of its methods is acceptable (RFC 1928
/// section 3).
pub fn method_reply(method: Option<Method>) -> [u8; 2]
    ensures { result ≡ 5 ∷ method_of method ∷ [] }
{
    let number = match method {
        Some(method) => method.number(),
        None => 0xff,
    };
    [5, number]
}

/// The reply to a name and a password: success, or a failure, after which the connection is closed (RFC 1929 section
/// 2).
pub fn password_reply(is_admitted: bool) -> [u8; 2]
    ensures { result ≡ 1 ∷ (if is_admitted then 0 else 1) ∷ [] }
{
    [1, if is_admitted { 0 } else { 1 }]
}

/// How a client's request ended.
#[derive(Clone, Copy, Debug, PartialEq, Eq)]
pub enum Ended {
    /// Connected: the octets that follow are the remote's.
    Connected,
    /// The proxy itself failed, for example for lack of memory or descriptors.
    Failed,
    /// The target is not allowed.
    Forbidden,
    /// The client has not shown that it is a user of the proxy.
    NoUser,
    /// No route to the network of any address.
    NoNetwork,
    /// The host has no address, or none that could be resolved or reached.
    NoHost,
    /// Each address refused the connection.
    Refused,
    /// No address answered before the limit.
    TimedOut,
    /// The client requested something other than a connection.
    Command,
    /// The address type is unknown, or the request names no valid host.
    Kind,
    /// The body of the request has a transfer coding that is not understood.
    Coding,
}

impl Ended {
    /// The octets of a SOCKS reply (RFC 1928 section 6), with the bound address 0.0.0.0 and port 0.
    pub fn socks_reply(self) -> [u8; 10]
        ensures { result ≡ 5 ∷ code_of self ∷ 0 ∷ 1 ∷ 0 ∷ 0 ∷ 0 ∷ 0 ∷ 0 ∷ 0 ∷ [] }
    {
        [5, self.code(), 0, 1, 0, 0, 0, 0, 0, 0]
    }

    fn code(self) -> u8
        ensures { result ≡ code_of self }
    {
        match self {
            Ended::Connected => 0,
            Ended::Failed | Ended::Coding => 1,
            Ended::Forbidden | Ended::NoUser => 2,
            Ended::NoNetwork => 3,
            Ended::NoHost | Ended::TimedOut => 4,
            Ended::Refused => 5,
            Ended::Command => 7,
            Ended::Kind => 8,
        }
    }

    /// The octets of a SOCKS 4 reply: VN is 0, CD is 90 if the request was granted, otherwise 91, and the port and the
    /// address are 0.
    pub fn old_socks_reply(self) -> [u8; 8]
        ensures { result ≡ 0 ∷ old_code_of self ∷ 0 ∷ 0 ∷ 0 ∷ 0 ∷ 0 ∷ 0 ∷ [] }
    {
        [0, self.old_code(), 0, 0, 0, 0, 0, 0]
    }

    fn old_code(self) -> u8
        ensures { result ≡ old_code_of self }
    {
        match self {
            Ended::Connected => 90,
            Ended::Failed
            | Ended::Forbidden
            | Ended::NoUser
            | Ended::NoNetwork
            | Ended::NoHost
            | Ended::Refused
            | Ended::TimedOut
            | Ended::Command
            | Ended::Coding
            | Ended::Kind => 91,
        }
    }

    /// The status of an HTTP response (RFC 9110 section 15).
    pub fn status(self) -> u16
        ensures { result ≡ status_of self }
    {
        match self {
            Ended::Connected => 200,
            Ended::Kind => 400,
            Ended::Forbidden => 403,
            Ended::NoUser => 407,
            Ended::Failed => 500,
            Ended::Command | Ended::Coding => 501,
            Ended::NoNetwork | Ended::NoHost | Ended::Refused => 502,
            Ended::TimedOut => 504,
        }
    }
}
