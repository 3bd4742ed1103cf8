//! The names to query for a host, and the name servers to ask.

ghost use Rattle.std.specs.Prelude.{◌≡◌, ◌≢◌, IfOk, IfSome, MatchOption, OnOk, Some, codes, map, slice_get, true};
ghost use Rattle.std.specs.List.{list_any};
ghost use Rattle.he_dns.specs.declared.fault.NameFault.TheVariants as faults;
ghost use Rattle.he_names.specs.Conf.{option_in, search_in};
ghost use Rattle.he_names.specs.Environment.{amended};
ghost use Rattle.he_names.specs.Literals.{zoned_of};
ghost use Rattle.he_names.specs.Order.{names_of};
ghost use Rattle.he_names.specs.Special.{is_of_local};
ghost use Rattle.he_settings.specs.Plans.{AreServers, AreSpelled, IsAbsent, IsPlan, IsPlanFor, IsServer, StandFor};

use crate::choice::{Choice, server_at};
use crate::fault::NamesFault;
use crate::file_fault::SystemFile;
use crate::files::{SETTINGS, read_file, read_scope};
use crate::limits::SERVER_PORT;
use crate::wanted::Wanted;
use he_addr::Ip;
use he_dns::{Name, NameFault};
use he_names::{
    HostFault, SpecialUse, Target, ZonedIp, amend, names_to_ask, read_attempts, read_ndots,
    read_no_aaaa, read_search, read_servers, read_timeout, read_use_vc, serves_local,
};
use std::alloc::{AllocGlobal, Global};
use std::net::{Ipv6Addr, SocketAddr, SocketAddrV6};
use std::rt::Files;

/// A resolver's queries: the names in order, until one has an address; the servers in order, the number of sends to
/// each, and the options.
#[derive(Drop)]
pub struct QueryPlan {
    names: Vec<Name>,
    servers: Vec<SocketAddr>,
    sends: u64,
    use_vc: bool,
    no_aaaa: bool,
}

impl QueryPlan {
    /// The name at this place, if there is one.
    pub fn name(&self, place: usize) -> Option<&Name>
        ensures { IfSome result (λ name. slice_get self.now.names.items place ≡ Some name.now) }
    {
        self.names.get(place)
    }

    /// Whether no name comes after the one at this place.
    pub fn is_last(&self, place: usize) -> bool {
        place.saturating_add(1) >= self.names.len()
    }

    /// The server at this place, if there is one.
    pub fn server(&self, place: usize) -> Option<SocketAddr>
        ensures { result ≡ slice_get self.now.servers.items place }
    {
        self.servers.get(place).copied()
    }

    /// The number of times a query is sent to a server, one second apart. The client waits a second after the last,
    /// too.
    pub fn sends(&self) -> u64
        ensures { result ≡ self.now.sends }
    {
        self.sends
    }

    /// Whether the servers are asked over TCP only.
    pub fn uses_tcp(&self) -> bool
        ensures { result ≡ self.now.use_vc }
    {
        self.use_vc
    }

    /// Whether IPv6 addresses are not queried.
    pub fn leaves_out_six(&self) -> bool
        ensures { result ≡ self.now.no_aaaa }
    {
        self.no_aaaa
    }
}

/// The plan for a host, by this machine's resolv.conf with the environment's changes.
///
/// # Errors
///
/// `Host` if the name belongs to multicast DNS and no domain of the search list is in `local`; `Name` if it is not a
/// host name; `Interface` if this machine doesn't have the chosen name server's interface; `Unreadable` and `Files`
/// if a system file exists but can't be read; `Memory`.
pub fn plan_for<R: Files + AllocGlobal>(
    rt: &R,
    alloc: Global,
    target: &Target,
    wanted: Wanted<'_>,
) -> Result<QueryPlan, NamesFault>
    ensures { IfOk result (IsPlanFor wanted.entry.choice wanted.entry.environment target.now) }
{
    let mut settings = read_file(rt, alloc, SETTINGS, SystemFile::Settings)?;
    amend(alloc, wanted.environment, &mut settings)?;
    match target {
        Target::Name(name) => {
            let plan = plan_of(rt, alloc, name.as_bytes(), &settings, wanted.choice)?;
            Ok(plan)
        }
        Target::Multicast(name) => {
            check_served(alloc, &settings)?;
            let plan = plan_of(rt, alloc, name.as_bytes(), &settings, wanted.choice)?;
            Ok(plan)
        }
        _ => Err(NamesFault::Runtime),
    }
}

// Refuses a name of multicast DNS unless the search list has a domain in `local`.
fn check_served(alloc: Global, settings: &[u8]) -> Result<(), NamesFault>
    ensures { OnOk result (list_any is_of_local (search_in settings.now) ≡ true) }
{
    let search = read_search(alloc, settings)?;
    if serves_local(alloc, &search)? {
        Ok(())
    } else {
        Err(NamesFault::Host(HostFault::Special(SpecialUse::Local)))
    }
}

// The queries for a host, by the contents of resolv.conf.
fn plan_of<R: Files + AllocGlobal>(
    rt: &R,
    alloc: Global,
    host: &[u8],
    settings: &[u8],
    choice: Choice<'_>,
) -> Result<QueryPlan, NamesFault>
    ensures { IfOk result (IsPlan host.now settings.now choice.entry) }
{
    Ok(QueryPlan {
        names: names_of(alloc, host, settings)?,
        servers: servers_of(rt, alloc, settings, choice)?,
        sends: read_timeout(alloc, settings)?.saturating_mul(read_attempts(alloc, settings)?),
        use_vc: read_use_vc(alloc, settings)?,
        no_aaaa: read_no_aaaa(alloc, settings)?,
    })
}

fn servers_of<R: Files + AllocGlobal>(
    rt: &R,
    alloc: Global,
    settings: &[u8],
    choice: Choice<'_>,
) -> Result<Vec<SocketAddr>, NamesFault>
    ensures { IfOk result (λ servers. AreServers choice.entry settings.now servers.items) }
{
    match choice {
        Choice::Server(server) => Ok(Vec::from_slice(alloc, &[server])?),
        Choice::OnLink(server) => match address_of(rt, alloc, server)? {
            Some(address) => Ok(Vec::from_slice(alloc, &[address])?),
            None => Err(NamesFault::Interface),
        },
        Choice::Configured | Choice::System => {
            addresses_of(rt, alloc, &read_servers(alloc, settings)?)
        }
    }
}

// The socket addresses of the servers; those without an interface on this machine are left out.
fn addresses_of<R: Files + AllocGlobal>(
    rt: &R,
    alloc: Global,
    servers: &[ZonedIp<'_>],
) -> Result<Vec<SocketAddr>, NamesFault>
    ensures { IfOk result (λ addresses. StandFor IsServer IsAbsent (map zoned_of servers.now) addresses.items) }
{
    let mut addresses = Vec::new(alloc);
    for server in servers {
        if let Some(address) = address_of(rt, alloc, *server)? {
            addresses.push(address)?;
        }
    }
    Ok(addresses)
}

// The socket address of a server; None if this machine doesn't have its interface.
fn address_of<R: Files + AllocGlobal>(
    rt: &R,
    alloc: Global,
    server: ZonedIp<'_>,
) -> Result<Option<SocketAddr>, NamesFault>
    ensures { IfOk result (λ address. MatchOption address (IsAbsent (zoned_of server.entry))
        (IsServer (zoned_of server.entry))) }
{
    match (server.ip, server.zone) {
        (Ip::V6(bits), Some(zone)) => match read_scope(rt, alloc, zone)? {
            Some(scope) => {
                let ip = Ipv6Addr::from_bits(bits);
                let address = SocketAddrV6::new(ip, SERVER_PORT, 0, scope);
                Ok(Some(SocketAddr::V6(address)))
            }
            None => Ok(None),
        },
        (ip, _) => Ok(Some(server_at(ip))),
    }
}

// The names to query for a host. One that a domain of the search list makes too long is left out.
fn names_of(alloc: Global, host: &[u8], settings: &[u8]) -> Result<Vec<Name>, NamesFault>
    ensures { IfOk result (λ names. AreSpelled (names_of host.now (option_in (codes "ndots:") 0 1 15 settings.now)
        (search_in settings.now)) names.items) }
{
    if let Err(fault) = Name::read(alloc, host) {
        return Err(name_fault(fault));
    }
    let search = read_search(alloc, settings)?;
    let texts = names_to_ask(alloc, host, read_ndots(alloc, settings)?, &search)?;
    spelled(alloc, &texts)
}

// The names that the texts spell; those that spell none are left out.
fn spelled(alloc: Global, texts: &[Vec<u8>]) -> Result<Vec<Name>, NamesFault>
    ensures { IfOk result (λ names. AreSpelled (map (λ text. text.items) texts.now) names.items) }
{
    let mut names = Vec::new(alloc);
    for text in texts {
        match Name::read(alloc, text) {
            Ok(name) => names.push(name)?,
            Err(fault) => pass_over(fault)?,
        }
    }
    Ok(names)
}

// Passes over a text that is not a name, but not a failed allocation.
fn pass_over(fault: NameFault) -> Result<(), NamesFault>
    ensures { OnOk result (fault ≢ faults.Memory) }
{
    match fault {
        NameFault::Memory => Err(NamesFault::Memory),
        NameFault::LongName | NameFault::EmptyLabel | NameFault::LongLabel => Ok(()),
    }
}

fn name_fault(fault: NameFault) -> NamesFault {
    match fault {
        NameFault::Memory => NamesFault::Memory,
        _ => NamesFault::Name(fault),
    }
}
