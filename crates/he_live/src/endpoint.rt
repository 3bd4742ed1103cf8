//! The port and the interface of a race's connections.
ghost use Rattle.std.specs.Prelude.{◌≡◌};
ghost use Rattle.he_live.specs.Dials.{at_port};

/// The port and the interface of a race's connections.
#[derive(Clone, Copy, Debug, PartialEq, Eq)]
pub struct Endpoint {
    /// The TCP port, 1 to 65,535.
    pub port: u16,
    /// The index of the interface for link-local IPv6 addresses (`sin6_scope_id`, RFC 3493 section 3.3); 0 for none.
    /// Other addresses need none.
    pub scope: u32,
}

impl Endpoint {
    /// The port, without an interface.
    pub fn at_port(port: u16) -> Endpoint
        ensures { result ≡ at_port port }
    {
        Endpoint { port, scope: 0 }
    }
}
