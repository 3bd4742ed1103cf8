//! The set-up of a connection's race.
ghost use Rattle.std.specs.Prelude.{◌≡◌, IfOk, false};
ghost use Rattle.he_setup.specs.Races.{IsSetUp, KnowsHost};

use crate::families::families_to_try;
use crate::fault::ConnectFault;
use crate::lines::{Destinations, read_lines_of};
use crate::request::{ConnectRequest, Lines};
use crate::start::start_race;
use he_addr::Ip;
use he_kernel::asked::AskedWays;
use he_live::Endpoint;
use he_settings::{find_known, find_scope};
use he_timeline::Timeline;
use std::alloc::{AllocGlobal, Global};
use std::io::Write;
use std::net::Net;
use std::rt::Files;

/// A requested race before its start.
#[derive(Drop)]
pub struct Setup<'a> {
    /// The request, with the families to try.
    pub request: ConnectRequest<'a>,
    pub start: Timeline,
    pub to: Endpoint,
    /// The addresses of the host that are known without queries: by itself or by the hosts file.
    pub known: Option<Vec<Ip>>,
    /// Whether this machine's lines come with the addresses.
    pub brings_lines: bool,
    /// Whether the race also reaches IPv4 hosts through the network's NAT64.
    pub embeds: bool,
    /// The kernel's answers in this race.
    pub asked: AskedWays,
}

/// Reads the known addresses of the host and the lines of the race, and decides which families to try. Prints which
/// files of this machine can't be read.
///
/// # Errors
///
/// `Machine`, `File`, `Lines` and `OtherLines` for the lines; `Name` if the text is not a host; `Memory`.
pub fn set_up<'a, R, F>(
    rt: &R,
    alloc: Global,
    request: &ConnectRequest<'a>,
    faults: &mut F,
) -> Result<Setup<'a>, ConnectFault>
where
    R: Files + Net + AllocGlobal,
    F: Write,
    ensures setup { IfOk result (IsSetUp request.now) }
    ensures known { IfOk result KnowsHost }
    ensures plain { IfOk result (λ setup. setup.embeds ≡ false) }
{
    let known = find_known(rt, alloc, request.host, request.resolver)?;
    let scope = find_scope(rt, alloc, request.host)?;
    let asked = AskedWays::new(alloc)?;
    let tried = families_to_try(rt, &asked, request, known.is_some())?;
    let to = Destinations {
        known: known.as_deref(),
        scope,
        asked: &asked,
    };
    let mut remarks = Vec::new(alloc);
    let lines = read_lines_of(rt, alloc, request.lines, to, &mut remarks)?;
    let _ = faults.write_all(remarks.as_slice());
    Ok(Setup {
        start: start_race(alloc, request.settings, tried, &lines)?,
        request: request.with_families(tried),
        to: Endpoint {
            port: request.port,
            scope,
        },
        brings_lines: request.lines == Lines::Machine && known.is_none(),
        embeds: false,
        known,
        asked,
    })
}
