//! The targets that one client's races may connect to.
ghost use Rattle.std.specs.Prelude.{◌≡◌, IfSome, IsTrue};
ghost use Rattle.std.specs.Net.Socket.{socket_ip};
ghost use Rattle.he_addr.specs.Text.{ip_of};
ghost use Rattle.he_access.specs.Tests.{is_here};
ghost use Rattle.he_loop.specs.Access.{Reaches, ReachesHost, is_wide};

use crate::prefixes::Prefixes;
use he_access::reach::{Place, is_here, is_loopback, may_reach};
use he_access::rules::{Rule, may_go};
use he_addr::Ip;
use he_kernel::asked::AskedWays;
use he_kernel::sockets::NO_SCOPE;
use he_kernel::ways::Way;
use std::net::{IpAddr, Net, SocketAddr};

/// The place of a socket.
pub fn place_of(socket: SocketAddr) -> Place {
    Place {
        ip: ip_of(socket.ip()),
        port: socket.port(),
    }
}

/// The address as an `Ip`.
pub fn ip_of(ip: IpAddr) -> Ip
    ensures { result ≡ ip_of ip }
{
    match ip {
        IpAddr::V4(ip) => Ip::V4(ip.to_bits()),
        IpAddr::V6(ip) => Ip::V6(ip.to_bits()),
    }
}

/// A client, and the source from which the kernel connects to it, which is the client's own address if it is a
/// program of this machine. None if the kernel has no way to it, and for a loopback client, which is on this machine.
#[derive(Clone, Copy)]
pub struct Client {
    pub ip: Ip,
    pub source: Option<Ip>,
}

impl Client {
    /// The client of a socket, by the kernel's answer in its race.
    pub fn of<N: Net>(net: &N, asked: &AskedWays, socket: SocketAddr) -> Client
        ensures { result.ip ≡ ip_of (socket_ip socket) }
    {
        let ip = ip_of(socket.ip());
        let source = if is_loopback(ip) {
            None
        } else {
            asked.way(net, ip, NO_SCOPE).from
        };
        Client { ip, source }
    }

    /// Whether the client is a program of this machine.
    pub fn is_near(self) -> bool
        ensures { result ≡ is_here self.ip self.source }
    {
        is_here(self.ip, self.source)
    }
}

/// The facts known of a destination.
#[derive(Clone, Copy)]
pub struct Destination {
    /// The kernel's answer for it.
    pub way: Way,
    /// The IPv4 host that it embeds by a discovered prefix of a NAT64.
    pub host: Option<u32>,
}

/// The targets that one client's races may connect to.
#[derive(Clone, Copy)]
pub struct Reach<'a> {
    /// The places that the proxy listens at.
    pub own: &'a [Place],
    pub client: Client,
    /// Whether clients of other machines may also reach private addresses and this machine's.
    pub allows_private: bool,
    /// The rules for targets that the proxy's owner gives.
    pub rules: &'a [Rule<'a>],
    /// The NAT64 prefixes that the proxy has discovered.
    pub prefixes: &'a Prefixes,
}

impl<'a> Reach<'a> {
    // Whether the client reaches everything but the proxy itself.
    fn is_wide(self) -> bool
        ensures { result ≡ is_wide self.entry }
    {
        self.allows_private || self.client.is_near()
    }

    /// The facts known of the destination of the kernel's answer.
    pub fn known_of(self, way: Way) -> Destination
        ensures { result.way ≡ way }
    {
        Destination {
            way,
            host: self.prefixes.host_of(way.to),
        }
    }

    /// Whether the client's races for `asked`, an address or a name in text, may connect to a destination at the
    /// port, by what is known of it and by the rules. A client of another machine reaches none for which the kernel
    /// gives no source address, and through a NAT64 only the IPv4 hosts that it may reach.
    pub fn has(self, asked: &str, to: Destination, port: u16) -> bool
        ensures reached { IsTrue result → Reaches self.entry asked.now to port }
        ensures all { Reaches self.entry asked.now to port → IsTrue result }
    {
        let is_wide = self.is_wide();
        let Destination { way, host } = to;
        if way.from.is_none() && !is_wide {
            return false;
        }
        let place = Place { ip: way.to, port };
        may_reach(is_wide, self.own, place, way.from)
            && self.has_host(host, port)
            && may_go(self.rules, asked, place, host)
    }

    // Whether the client's races may connect to the IPv4 host behind a prefix, if there is one.
    fn has_host(self, host: Option<u32>, port: u16) -> bool
        ensures reached { IsTrue result → IfSome host (ReachesHost self.entry port) }
        ensures all { IfSome host (ReachesHost self.entry port) → IsTrue result }
    {
        let Some(host) = host else {
            return true;
        };
        let to = Place {
            ip: Ip::V4(host),
            port,
        };
        may_reach(self.is_wide(), self.own, to, None)
    }
}
