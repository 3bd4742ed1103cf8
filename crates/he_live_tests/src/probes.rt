// Probes of addresses on loopback: one that refuses, one whose server is silent, one that connects.

use crate::homes::{Lender, descriptors, listen};
use crate::races::{crowd, dead_ip};
use he_addr::Ip;
use he_live::{Endpoint, ProbeRequest, Quiet, Reason, Steps, probe_on};
use he_timeline::Outcome;
use std::mem::drop;
use std::net::{IpAddr, Ipv4Addr, Net, TcpListener, TcpStream};
use std::test::Fail;
use std::time::Instant;
use tokio::runtime::LocalRuntime;

const REFUSES: Ip = Ip::V4(0x7f000003);

const SILENT: Ip = Ip::V4(0x7f000002);

const OPEN: Ip = Ip::V4(0x7f000001);

const TIMEOUT: u64 = 300;

// Whether each address has its own outcome: the refusal, then silence to the end of its time, then a connection,
// which ends no other.
fn are_told_apart<R: Lender + Net>(
    rt: &R,
    runtime: &mut LocalRuntime,
    port: u16,
) -> Result<bool, Fail> {
    let steps = Steps::new(rt.alloc())?;
    let request = ProbeRequest {
        addresses: &[REFUSES, SILENT, OPEN],
        to: Endpoint::at_port(port),
        pace: 10,
        timeout: TIMEOUT,
        steps: &steps,
    };
    let start = Instant::now(rt)?;
    let rows = probe_on(rt, rt.alloc(), runtime, request, &Quiet)?;
    let waited = Instant::now(rt)?
        .saturating_duration_since(start)
        .as_millis();
    let refused = matches!(rows[0].outcome, Some(Outcome::Fail(1..=100)));
    let silent = rows[1].outcome.is_none();
    let connected = matches!(rows[2].outcome, Some(Outcome::Ok(1..=100)));
    let in_time = waited >= u128::from(TIMEOUT) && waited < 2 * u128::from(TIMEOUT);
    Ok(
        rows.len() == 3
            && refused
            && silent
            && connected
            && in_time
            && steps.reason_of(0) == Reason::Refused,
    )
}

fn probes_with_a_full_queue<R>(rt: &R, runtime: &mut LocalRuntime, port: u16) -> Result<bool, Fail>
where
    R: Lender + Net<Listener = TcpListener, Stream = TcpStream>,
{
    let (dead, _) = listen(rt, dead_ip(), port)?;
    let waiting = crowd(rt, runtime, port)?;
    let are_right = are_told_apart(rt, runtime, port);
    drop(waiting);
    drop(dead);
    are_right
}

#[test]
fn each_address_has_its_own_outcome(rt: HostRuntime) -> Result<(), Fail> {
    let before = descriptors(&rt)?;
    let mut runtime = LocalRuntime::new(&rt)?;
    let (open, port) = listen(&rt, IpAddr::V4(Ipv4Addr::LOCALHOST), 0)?;
    let are_right = probes_with_a_full_queue(&rt, &mut runtime, port)?;
    drop(open);
    drop(runtime);
    assert!(rt; are_right);
    assert_eq!(rt; descriptors(&rt)?, before);
    Ok(())
}
