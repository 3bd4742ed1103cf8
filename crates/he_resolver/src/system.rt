//! The system's resolver, called in a thread.

ghost use Rattle.std.specs.Prelude.{◌≡◌};
ghost use Rattle.futures.specs.Channel.{completed_source};
ghost use Rattle.futures.specs.Poll.{OnPending};
ghost use Rattle.futures.specs.Task.{Covers, Keeps};

use futures::Future;
use futures::channel::oneshot::{self, Receiver};
use futures::task::{Context, Poll};
use he_addr::Ip;
use he_settings::NamesFault;
use std::alloc::Global;
use std::net::{IpAddr, ToSocketAddrs};
use std::string::String;
use std::thread::{self, Threads};

/// A runtime with a system resolver.
pub trait SystemResolver {
    /// The addresses of a host, of both families, in the system's order. It blocks.
    ///
    /// # Errors
    ///
    /// `System` if there are none, `Memory`.
    fn system_addresses(&self, alloc: Global, host: &str) -> Result<Vec<Ip>, NamesFault>;
}

impl SystemResolver for HostRuntime {
    // From getaddrinfo, at most 32.
    fn system_addresses(&self, alloc: Global, host: &str) -> Result<Vec<Ip>, NamesFault> {
        let Ok(found) = (host, 0u16).to_socket_addrs(self) else {
            return Err(NamesFault::System);
        };
        let mut ips = Vec::new(alloc);
        for address in found {
            ips.push(ip_of(address.ip()))?;
        }
        Ok(ips)
    }
}

fn ip_of(ip: IpAddr) -> Ip {
    match ip {
        IpAddr::V4(address) => Ip::V4(address.to_bits()),
        IpAddr::V6(address) => Ip::V6(address.to_bits()),
    }
}

// A call of the system's resolver in progress. Dropping it doesn't wait for its thread.
#[derive(Drop)]
pub(crate) struct SystemQuery {
    found: Receiver<Result<Vec<Ip>, NamesFault>>,
}

impl SystemQuery {
    pub(crate) fn begin<R>(rt: R, alloc: Global, host: &str) -> Result<SystemQuery, NamesFault>
    where
        R: SystemResolver + Threads + Copy + Send + 'static,
    {
        let host = String::from_str(alloc, host)?;
        let (sender, found) = oneshot::channel(alloc)?;
        let spawned = thread::spawn(&rt, move || {
            let _ = sender.send(rt.system_addresses(alloc, host.as_str()));
        });
        match spawned {
            Ok(_) => Ok(SystemQuery { found }),
            Err(_) => Err(NamesFault::Runtime),
        }
    }

    // The host's addresses, once.
    pub(crate) fn poll_found(&mut self, cx: &mut Context<'_>) -> Poll<Result<Vec<Ip>, NamesFault>>
        ensures waits { OnPending result (Covers cx.new (λ s. s ≡ completed_source self.new.found)) }
        ensures kept { Keeps cx.old cx.new }
    {
        match self.found.poll(cx) {
            Poll::Pending => Poll::Pending,
            Poll::Ready(Ok(found)) => Poll::Ready(found),
            Poll::Ready(Err(_)) => Poll::Ready(Err(NamesFault::System)),
        }
    }
}
