// The protocol that a client uses.

ghost use Rattle.std.specs.Prelude.{◌≡◌};
ghost use Rattle.he_front.specs.Openings.{opening_of};

/// The protocol of a client, by its first octet.
#[derive(Clone, Copy, Debug, PartialEq, Eq)]
pub enum Opening {
    /// A greeting of SOCKS 5 (RFC 1928 section 3).
    Socks,
    /// A request of SOCKS 4 (its protocol, VN is 4).
    OldSocks,
    /// A request of HTTP, whose method begins with a letter (RFC 9110 section 9.1).
    Http,
    /// None of these, for example TLS.
    Other,
}

/// The protocol that a client's first octet begins.
pub fn opening_of(first: u8) -> Opening
    ensures { result ≡ opening_of first }
{
    match first {
        5 => Opening::Socks,
        4 => Opening::OldSocks,
        _ if first.is_ascii_alphabetic() => Opening::Http,
        _ => Opening::Other,
    }
}
