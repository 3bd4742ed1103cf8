//! Probes of several addresses, as a future.
ghost use Rattle.std.specs.Prelude.{◌≡◌, ◌≤◌, ◌+◌, ◌*◌, ℕ, All, IfNone, IfOk, Result, length, map};
ghost use Rattle.std.specs.Global.{Vec};
ghost use Rattle.std.specs.List.{AllZip};
ghost use Rattle.futures.specs.Poll.{IfReady, OnPending};
ghost use Rattle.futures.specs.Task.{Covers, IsArmed, Keeps};
ghost use Rattle.he_turns.specs.declared.faults.RaceFault.{RaceFault};
ghost use Rattle.he_turns.specs.declared.limits.TheConstants.{MAX_POLL_TICK};
ghost use Rattle.he_probe.specs.Probing.{AllWait, AreReady, AreRowsOf, IsClosed, SomePoll, ip_of, row_ip, row_of};
ghost use Rattle.he_probe.specs.Schedule.{scheduled};
ghost use Rattle.he_probe.specs.declared.probe.ProbeRow.{ProbeRow};

use crate::probe::{Probe, ProbeRow};
use futures::Future;
use futures::task::{Context, Poll};
use he_addr::{Ip, Memory};
use he_turns::limits::MAX_POLL_TICK;
use he_turns::{Connector, RaceFault, TickFault, Ticker};
use std::alloc::Global;

/// A probe of each address, in order: the attempts start `pace` milliseconds apart, the first at tick 0, and each ends
/// `timeout` milliseconds after its start if it has no answer by then. The place of an attempt is that of its address.
///
/// # Errors
///
/// `Memory` if an allocation fails.
pub fn schedule<C: Connector>(
    alloc: Global,
    addresses: &[Ip],
    pace: u64,
    timeout: u64,
) -> Result<Vec<Probe<C>>, Memory>
    requires in_time { length addresses.now * pace + timeout ≤ MAX_POLL_TICK }
    ensures scheduled { IfOk result (λ probes. probes.items ≡ scheduled pace timeout 0 addresses.now) }
    ensures ips { IfOk result (λ probes. map ip_of probes.items ≡ addresses.now) }
    ensures ready { IfOk result (λ probes. AreReady C.Connector C.Run.Trial probes.items) }
{
    let mut probes = Vec::new(alloc);
    let mut start: u64 = 0;
    for ip in addresses {
        probes.push(Probe::new(probes.len(), *ip, start, start + timeout))?;
        start += pace;
    }
    Ok(probes)
}

/// Probes that run at once. Poll it until it gives its rows.
#[derive(Drop)]
pub struct Probing<C: Connector, T: Ticker> {
    alloc: Global,
    connector: C,
    ticker: T,
    probes: Vec<Probe<C>>,
}

impl<C: Connector, T: Ticker> Probing<C, T> {
    /// The probes, before the first poll.
    pub fn new(alloc: Global, probes: Vec<Probe<C>>, connector: C, ticker: T) -> Probing<C, T>
        ensures { result.probes ≡ probes }
    {
        Probing {
            alloc,
            connector,
            ticker,
            probes,
        }
    }
}

// Polls each probe once, and returns the first tick at which one is to be polled again; None if all are over.
fn poll_all<C: Connector>(
    probes: &mut Vec<Probe<C>>,
    connector: &mut C,
    now: u64,
    cx: &mut Context<'_>,
) -> Option<u64>
    requires ready { AreReady C.Connector C.Run.Trial probes.old.items }
    requires in_time { now ≤ MAX_POLL_TICK }
    ensures ready { AreReady C.Connector C.Run.Trial probes.new.items }
    ensures ips { map ip_of probes.new.items ≡ map ip_of probes.old.items }
    ensures each { AllZip (SomePoll C.Connector C.Run.Trial now) probes.old.items probes.new.items }
    ensures closed { IfNone result (All IsClosed probes.new.items) }
    ensures waits { AllWait C.Connector C.Run.Trial cx.new probes.new.items }
    ensures kept { Keeps cx.old cx.new }
{
    let mut next = None;
    for i in 0..probes.len() {
        match probes[i].poll_probe(connector, now, cx) {
            Some(due) => next = Some(earlier(next, due)),
            None => {}
        }
    }
    next
}

fn earlier(next: Option<u64>, due: u64) -> u64 {
    match next {
        Some(next) => next.min(due),
        None => due,
    }
}

// The rows of the probes, in their order.
fn rows_of<C: Connector>(alloc: Global, probes: &[Probe<C>]) -> Result<Vec<ProbeRow>, RaceFault>
    ensures rows { IfOk result (λ rows. rows.items ≡ map row_of probes.now) }
    ensures ips { IfOk result (λ rows. map row_ip rows.items ≡ map ip_of probes.now) }
{
    let mut rows = Vec::new(alloc);
    for probe in probes {
        if rows.push(probe.row()).is_err() {
            return Err(RaceFault::Memory);
        }
    }
    Ok(rows)
}

impl<C: Connector, T: Ticker> Future for Probing<C, T> {
    type Output = Result<Vec<ProbeRow>, RaceFault>;

    ghost use Rattle.std.specs.Prelude.{IfOk};
    ghost use Rattle.he_probe.specs.Probing.{AreReady, AreRowsOf};

    ghost can_poll = { λ s. AreReady C.Connector C.Run.Trial s.probes.items };

    ghost gives = { λ s r. IfOk r (λ rows. AreRowsOf C.Connector C.Run.Trial s.probes.items rows.items) };

    fn poll(&mut self, cx: &mut Context<'_>) -> Poll<Result<Vec<ProbeRow>, RaceFault>>
        requires { AreReady C.Connector C.Run.Trial self.old.probes.items }
        ensures value { IfReady result (λ r. IfOk r (λ rows. AreRowsOf C.Connector C.Run.Trial self.old.probes.items
            rows.items)) }
        ensures again { OnPending result (AreReady C.Connector C.Run.Trial self.new.probes.items) }
        ensures same { OnPending result ((r : Result (Vec ProbeRow) RaceFault) → IfOk r (λ rows. AreRowsOf C.Connector
            C.Run.Trial self.new.probes.items rows.items)
            → IfOk r (λ rows. AreRowsOf C.Connector C.Run.Trial self.old.probes.items rows.items)) }
        ensures registered { OnPending result (Covers cx.new (λ _. ⊥)) }
        ensures armed { OnPending result (IsArmed cx.new) }
        ensures waits { OnPending result (AllWait C.Connector C.Run.Trial cx.new self.new.probes.items) }
        ensures kept { Keeps cx.old cx.new }
        ensures each { (now : ℕ) × AllZip (SomePoll C.Connector C.Run.Trial now) self.old.probes.items
            self.new.probes.items }
        ensures rows { IfReady result (λ r. IfOk r (λ rows. rows.items ≡ map row_of self.new.probes.items)) }
        ensures closed { IfReady result (λ r. IfOk r (λ _. All IsClosed self.new.probes.items)) }
    {
        let now = self.ticker.now().min(MAX_POLL_TICK);
        match poll_all(&mut self.probes, &mut self.connector, now, cx) {
            None => Poll::Ready(rows_of(self.alloc, &self.probes)),
            Some(due) => match self.ticker.wake_at(due.min(MAX_POLL_TICK), cx) {
                Ok(()) => Poll::Pending,
                Err(TickFault::Memory) => Poll::Ready(Err(RaceFault::Memory)),
                Err(TickFault::Lost) => Poll::Ready(Err(RaceFault::Clock)),
            },
        }
    }
}
