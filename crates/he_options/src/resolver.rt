//! The resolver that a line names.
ghost use Rattle.std.specs.Prelude.{◌≡◌, IfErr, IfOk, codes};
ghost use Rattle.clap.specs.Matches.{first_value, found_of};
ghost use Rattle.he_options.specs.Resolvers.{AsksResolver, IsOnLink, LacksLink, LacksResolver, NamesResolver};

use crate::arguments::value;
use crate::limits::SERVER_PORT;
use crate::refusal::OptionFault;
use clap::{Arg, ArgMatches};
use he_names::{ZonedIp, read_host, read_literal};
use std::alloc::Global;
use std::net::{IpAddr, SocketAddr};

const RESOLVER_HELP: &str = "The name server to ask: ADDRESS, ADDRESS:PORT,\n\
[ADDRESS]:PORT or ADDRESS%INTERFACE; `system`\n\
for the system's own resolver; default is\n\
/etc/resolv.conf";

/// Which resolver is asked for the addresses of a host.
#[derive(Clone, Copy)]
pub enum Resolver<'a> {
    /// The name servers of /etc/resolv.conf.
    Configured,
    /// This name server in their place.
    Server(SocketAddr),
    /// This one in their place, over the interface of its zone, at the usual port.
    OnLink(ZonedIp<'a>),
    /// The system's own.
    System,
}

/// The option that names a resolver.
pub fn resolver_argument<'a>(alloc: Global) -> Arg<'a> {
    value(alloc, "resolver", "RESOLVER", RESOLVER_HELP)
}

/// The resolver that the line names: that of the system's settings where it names none.
///
/// # Errors
///
/// `Resolver` where its text names none, `Server` where it names no address; want of memory is one of these.
pub fn resolver_of<'a>(alloc: Global, matches: &ArgMatches<'a>) -> Result<Resolver<'a>, OptionFault>
    ensures { IfOk result (AsksResolver (first_value (found_of matches.now) (codes "resolver"))) }
{
    match matches.get_str("resolver") {
        Some(text) => read_resolver(alloc, text),
        None => Ok(Resolver::Configured),
    }
}

// The resolver that a text names: `system`, or the address of a name server, alone or with a port, as `192.0.2.1:5353`
// and `[2001:db8::1]:5353`, or a link-local one with its interface, as `fe80::1%eth0`; no other text, and no port 0.
// Without a port it is 53.
fn read_resolver(alloc: Global, text: &str) -> Result<Resolver<'_>, OptionFault>
    ensures ok { IfOk result (NamesResolver text.now) }
    ensures err { IfErr result (LacksResolver text.now) }
{
    if text == "system" {
        return Ok(Resolver::System);
    }
    if let Ok(ip) = IpAddr::parse_ascii(text.as_bytes()) {
        return Ok(Resolver::Server(SocketAddr::new(ip, SERVER_PORT)));
    }
    match SocketAddr::parse_ascii(text.as_bytes()) {
        Ok(server) if server.port() != 0 => Ok(Resolver::Server(server)),
        _ => read_on_link(alloc, text),
    }
}

// The name server that a text names by an address and its interface.
fn read_on_link(alloc: Global, text: &str) -> Result<Resolver<'_>, OptionFault>
    ensures ok { IfOk result (IsOnLink text.now) }
    ensures err { IfErr result (LacksLink text.now) }
{
    let Some(server) = read_literal(text.as_bytes()) else {
        return Err(OptionFault::Resolver);
    };
    if server.zone.is_none() {
        return Err(OptionFault::Resolver);
    }
    match read_host(alloc, text) {
        Ok(_) => Ok(Resolver::OnLink(server)),
        Err(fault) => Err(OptionFault::Server(fault)),
    }
}
