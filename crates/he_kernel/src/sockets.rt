// The sources that the kernel selects, from connected datagram sockets. Connecting one sends nothing.
//
// Proved: this is safe and ends. No contract has the system's answers.

use he_addr::Ip;
use he_addr::prefix::V4_BITS;
use std::io;
use std::io::ErrorKind;
use std::net::{
    IpAddr, Ipv4Addr, Ipv6Addr, Net, SocketAddr, SocketAddrV4, SocketAddrV6, UdpSocket,
};

/// The index for no interface.
pub const NO_SCOPE: u32 = 0;

// The port for a connect that sends nothing: discard.
const ANY_PORT: u16 = 9;

/// An IPv4 address that a machine on the internet has a route to, if only by default: that of the name server
/// a.root-servers.net. Nothing is sent to it.
pub const ROOT_SERVER_V4: Ip = Ip::V4(0xc629_0004);

/// An IPv6 address of this kind.
pub const ROOT_SERVER_V6: Ip = Ip::V6(0x2001_0503_ba3e_0000_0000_0000_0002_0030);

// The longest prefix length of a network with a broadcast address (RFC 3021).
const LONGEST_NETWORK: u8 = 30;

fn socket_address(ip: Ip, scope: u32) -> SocketAddr {
    match ip {
        Ip::V4(bits) => SocketAddr::V4(SocketAddrV4::new(Ipv4Addr::from_bits(bits), ANY_PORT)),
        Ip::V6(bits) => {
            let ip = Ipv6Addr::from_bits(bits);
            SocketAddr::V6(SocketAddrV6::new(ip, ANY_PORT, 0, scope))
        }
    }
}

fn any_of(ip: Ip) -> IpAddr {
    match ip {
        Ip::V4(_) => IpAddr::V4(Ipv4Addr::UNSPECIFIED),
        Ip::V6(_) => IpAddr::V6(Ipv6Addr::UNSPECIFIED),
    }
}

// Linux's error numbers if no socket can be made because this machine has no address of the family.
const EAFNOSUPPORT: i32 = 97;

const EADDRNOTAVAIL: i32 = 99;

// Linux's error numbers if connect(2) fails for another reason than the route: no port or no memory.
const EAGAIN: i32 = 11;

const ENOMEM: i32 = 12;

const ENOBUFS: i32 = 105;

/// The source that the kernel selects for an address; `None` if it has no route to it or can't be asked. A link-local
/// IPv6 address is reached over the interface of this index (RFC 4007 section 6); without an interface there is none.
pub fn ask_source<R: Net>(rt: &R, ip: Ip, scope: u32) -> Option<Ip> {
    try_source(rt, ip, scope).unwrap_or(None)
}

// The source, as from `ask_source`, or why the kernel can't be asked.
pub(crate) fn try_source<R: Net>(rt: &R, ip: Ip, scope: u32) -> io::Result<Option<Ip>> {
    let socket = match UdpSocket::bind(rt, (any_of(ip), 0u16)) {
        Ok(socket) => socket,
        Err(error) => return none_where(is_without_family(&error), error),
    };
    if let Err(error) = socket.connect(socket_address(ip, scope)) {
        return none_where(!is_want(&error), error);
    }
    Ok(Some(match socket.local_addr()?.ip() {
        IpAddr::V4(source) => Ip::V4(source.to_bits()),
        IpAddr::V6(source) => Ip::V6(source.to_bits()),
    }))
}

fn none_where(is_answer: bool, error: io::Error) -> io::Result<Option<Ip>> {
    if is_answer { Ok(None) } else { Err(error) }
}

fn is_without_family(error: &io::Error) -> bool {
    matches!(error.raw_os_error(), Some(EAFNOSUPPORT | EADDRNOTAVAIL))
}

fn is_want(error: &io::Error) -> bool {
    matches!(error.raw_os_error(), Some(EAGAIN | ENOMEM | ENOBUFS))
}

// Whether the address is the broadcast address of a network of this machine: connect(2) fails unless SO_BROADCAST is
// set. If a route prohibits the address, connect(2) fails anyway.
fn is_broadcast<R: Net>(rt: &R, ip: Ip) -> bool {
    let Ok(socket) = UdpSocket::bind(rt, (any_of(ip), 0u16)) else {
        return false;
    };
    let to = socket_address(ip, NO_SCOPE);
    match socket.connect(to) {
        Err(error) if error.kind() == ErrorKind::PermissionDenied => {
            socket.set_broadcast(true).is_ok() && socket.connect(to).is_ok()
        }
        _ => false,
    }
}

// Whether the address is on a network with this prefix length: the network has a broadcast address, and the kernel
// selects the address for the last of the network's other addresses, which is in each network with that broadcast
// address.
fn is_on_network<R: Net>(rt: &R, address: u32, len: u8) -> bool {
    let hosts = u32::MAX >> len.min(LONGEST_NETWORK);
    let broadcast = address | hosts;
    let last = broadcast & !1;
    let other = if last == address { last ^ 3 } else { last };
    address != broadcast
        && is_broadcast(rt, Ip::V4(broadcast))
        && ask_source(rt, Ip::V4(other), NO_SCOPE) == Some(Ip::V4(address))
}

/// The prefix length of the network of this machine's IPv4 address: that of the longest network that has a broadcast
/// address and for which the kernel selects the address; 32 if there is none.
pub fn ask_len<R: Net>(rt: &R, address: u32) -> u8 {
    for less in 0..LONGEST_NETWORK {
        let len = LONGEST_NETWORK - less;
        if is_on_network(rt, address, len) {
            return len;
        }
    }
    V4_BITS
}
