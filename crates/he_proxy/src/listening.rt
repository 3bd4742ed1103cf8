//! The sockets that accept clients.
ghost use Rattle.std.specs.Prelude.{IfOk};
ghost use Rattle.he_proxy.specs.Sockets.{MayAccept};

use crate::fault::ProxyFault;
use crate::limits::DEFAULT_PORT;
use crate::request::ProxyRequest;
use futures::stream::SelectAll;
use he_access::reach::{Place, is_loopback};
use he_addr::Prefix;
use he_history::Cause;
use he_loop::{ip_of, place_of};
use he_relay::keep_alive;
use std::alloc::Global;
use std::net::{IpAddr, Ipv4Addr, Ipv6Addr, Net, SocketAddr};
use std::os::fd::OwnedFd;
use std::{io, net};
use tokio::net::{Incoming, TcpListener};
use tokio::runtime::Handle;

// The sockets that accept clients, and their places.
#[derive(Drop)]
pub(crate) struct Listening {
    pub(crate) sockets: SelectAll<Incoming>,
    pub(crate) own: Vec<Place>,
}

impl Listening {
    // Listens at the requested addresses; without any, at the loopback addresses.
    pub(crate) fn begin<R: Net>(
        rt: &R,
        alloc: Global,
        handle: &Handle,
        request: &ProxyRequest<'_>,
    ) -> Result<Listening, ProxyFault>
        ensures { IfOk result (λ listening. MayAccept listening.sockets) }
    {
        let mut listening = Listening {
            sockets: SelectAll::new(alloc)?,
            own: Vec::new(alloc),
        };
        if request.listen.is_empty() {
            listening.add_loopback(rt, handle)?;
        }
        for address in request.listen {
            refuse_open(*address, request.allow)?;
            listening.add(rt, handle, *address)?;
        }
        Ok(listening)
    }

    // Listens at both loopback addresses, or at the one that this machine has.
    fn add_loopback<R: Net>(&mut self, rt: &R, handle: &Handle) -> Result<(), ProxyFault>
        requires { MayAccept self.old.sockets }
        ensures { MayAccept self.new.sockets }
    {
        let v4 = SocketAddr::new(IpAddr::V4(Ipv4Addr::LOCALHOST), DEFAULT_PORT);
        let v6 = SocketAddr::new(IpAddr::V6(Ipv6Addr::LOCALHOST), DEFAULT_PORT);
        let of_v4 = self.add(rt, handle, v4);
        if let Err(fault) = of_v4
            && !is_no_address(fault)
        {
            return Err(fault);
        }
        match self.add(rt, handle, v6) {
            Err(fault) if of_v4.is_err() || !is_no_address(fault) => Err(fault),
            _ => Ok(()),
        }
    }

    fn add<R: Net>(
        &mut self,
        rt: &R,
        handle: &Handle,
        address: SocketAddr,
    ) -> Result<(), ProxyFault>
        requires { MayAccept self.old.sockets }
        ensures { MayAccept self.new.sockets }
    {
        let listener = match bind(rt, address, handle) {
            Ok(listener) => listener,
            Err(error) => return Err(ProxyFault::Listen(address, Cause::of(&error))),
        };
        self.own.push(place_of(listener.local_addr()?))?;
        self.sockets.push(listener.incoming())?;
        Ok(())
    }
}

// Refuses an address that is open to other machines, unless a network is allowed.
fn refuse_open(address: SocketAddr, allow: &[Prefix]) -> Result<(), ProxyFault> {
    if allow.is_empty() && !is_loopback(ip_of(address.ip())) {
        return Err(ProxyFault::Open(address));
    }
    Ok(())
}

// Whether the fault is that this machine doesn't have the address or its family.
fn is_no_address(fault: ProxyFault) -> bool {
    match fault {
        ProxyFault::Listen(_, cause) => cause.is_no_address(),
        _ => false,
    }
}

// Listens at the address, with keepalive for the connections.
fn bind<R: Net>(rt: &R, address: SocketAddr, handle: &Handle) -> io::Result<TcpListener> {
    let socket = mio::net::TcpListener::bind(rt, address)?;
    keep_alive(&socket);
    let socket = net::TcpListener::from(OwnedFd::from(socket));
    TcpListener::from_std(socket, handle.reactor())
}
