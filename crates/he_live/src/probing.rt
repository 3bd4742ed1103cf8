//! Probes on real sockets.
ghost use Rattle.std.specs.Prelude.{◌≡◌, ◌≤◌, ◌+◌, ◌*◌, IfErr, IfOk, length, map};
ghost use Rattle.he_turns.specs.declared.limits.TheConstants.{MAX_POLL_TICK};
ghost use Rattle.he_probe.specs.Probing.{row_ip};
ghost use Rattle.he_live.specs.Live.{IsRunFault};
ghost use Rattle.he_live.specs.Probed.{AreProbed};

use crate::clock::LiveTicker;
use crate::endpoint::Endpoint;
use crate::fault::LiveFault;
use crate::racing::fault_of;
use crate::sockets::{TcpConnector, TcpTrial};
use crate::steps::{Steps, Watcher};
use he_addr::Ip;
use he_probe::{ProbeRow, Probing, schedule};
use he_turns::{Connector, Trial};
use std::alloc::{AllocGlobal, Global};
use std::net::Net;
use std::random::RandomSource;
use std::sync::Wait;
use std::time::Clock;
use tokio::runtime::LocalRuntime;

/// Addresses to probe.
#[derive(Clone, Copy)]
pub struct ProbeRequest<'a> {
    pub addresses: &'a [Ip],
    /// The port and the interface of the connections.
    pub to: Endpoint,
    /// The milliseconds between the starts of two attempts.
    pub pace: u64,
    /// The milliseconds that an attempt has.
    pub timeout: u64,
    /// The steps of the attempts are noted here. They must be new.
    pub steps: &'a Steps,
}

/// Connects to each of the addresses by TCP, one after another at the pace, and returns a row for each, in their
/// order. No attempt ends another. Each connection is closed as soon as it is made. The steps of the attempts are
/// reported to the watcher; the place of an attempt is that of its address.
///
/// # Errors
///
/// As for [`live_race`](crate::live_race).
pub fn probe_on<'h, R, W>(
    rt: &'h R,
    alloc: Global,
    runtime: &mut LocalRuntime,
    request: ProbeRequest<'_>,
    watcher: &W,
) -> Result<Vec<ProbeRow>, LiveFault>
where
    R: Wait + Clock + RandomSource + AllocGlobal + Net,
    W: Watcher,
    requires in_time { length request.addresses.now * request.pace + request.timeout
        ≤ MAX_POLL_TICK }
    ensures ips { IfOk result (λ rows. map row_ip rows.items ≡ request.entry.addresses.now) }
    ensures rows { IfOk result (λ rows. AreProbed ⟦<TcpConnector<'h, R> as Connector>⟧ ⟦<TcpTrial as Trial>⟧
        request.entry rows.items) }
    ensures fault { IfErr result IsRunFault }
{
    let handle = runtime.handle().clone()?;
    let ProbeRequest {
        addresses,
        to,
        pace,
        timeout,
        steps,
    } = request;
    let connector = TcpConnector::new(rt, handle.reactor(), to, steps.share()?);
    let ticker = LiveTicker::new(rt, handle.time(), steps.share()?, watcher);
    let probes = schedule(alloc, addresses, pace, timeout)?;
    let probing = Probing::new(alloc, probes, connector, ticker);
    let ended = runtime.block_on(rt, probing);
    steps.tell_new(watcher);
    match ended? {
        Ok(rows) => Ok(rows),
        Err(fault) => Err(fault_of(fault)),
    }
}
