//! The choice of the resolver.

ghost use Rattle.std.specs.Prelude.{◌≡◌};
ghost use Rattle.std.specs.Net.Socket.{socket_scope_id};
ghost use Rattle.he_settings.specs.Plans.{IsAt};

use crate::limits::SERVER_PORT;
use he_addr::Ip;
use he_names::ZonedIp;
use std::net::{IpAddr, Ipv4Addr, Ipv6Addr, SocketAddr};

/// Which resolver to ask.
#[derive(Clone, Copy)]
pub enum Choice<'a> {
    /// The name servers of /etc/resolv.conf.
    Configured,
    /// Only this name server.
    Server(SocketAddr),
    /// Only this name server, at port 53; a link-local address goes over the interface of its zone.
    OnLink(ZonedIp<'a>),
    /// The system's resolver.
    System,
}

// A name server at port 53.
pub(crate) fn server_at(ip: Ip) -> SocketAddr
    ensures at { IsAt ip result }
    ensures scope { socket_scope_id result ≡ 0 }
{
    let ip = match ip {
        Ip::V4(bits) => IpAddr::V4(Ipv4Addr::from_bits(bits)),
        Ip::V6(bits) => IpAddr::V6(Ipv6Addr::from_bits(bits)),
    };
    SocketAddr::new(ip, SERVER_PORT)
}
