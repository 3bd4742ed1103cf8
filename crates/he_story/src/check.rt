// The address or the name server to look at, where it alone took the time of a race.

ghost use Rattle.std.specs.Prelude.{◌≡◌, ◌++◌, map, IfOk, OnOk};
ghost use Rattle.he_record.specs.Left.{said_of, target_shown};
ghost use Rattle.he_story.specs.Check.{are_names_cause, asked_facts, attempt_facts, check_facts, check_of, is_alone, is_unfound, look_at, only_charge, only_server, port_facts, servers_of};
ghost use Rattle.he_story.specs.Lines.{told};

use crate::story::Story;
use crate::verdict::{Charge, are_names_slow};
use crate::why::reason_of_both;
use he_addr::{Family, Ip, Memory};
use he_course::{Course, Times};
use he_print::Part;
use he_record::{AttemptReason, LookupReason, Record, RecordLine};
use he_statements::Said;
use std::alloc::Allocator;

// Whether the name servers are why a name has no address.
fn is_unfound(reason: Option<LookupReason>) -> bool
    ensures { result ≡ is_unfound reason }
{
    match reason {
        Some(
            LookupReason::NoAnswer
            | LookupReason::Refused
            | LookupReason::Failed
            | LookupReason::Malformed,
        ) => true,
        _ => false,
    }
}

// Whether the names alone took the time: they were slow and nothing was lost, or they were not found.
fn are_names_cause<A: Allocator>(recorded: &Record<'_, A>, attempts: usize, times: Times) -> bool
    ensures { result ≡ are_names_cause recorded.now attempts times }
{
    if attempts == 0 {
        let (aaaa, a) = (recorded.lookup(Family::V6), recorded.lookup(Family::V4));
        return is_unfound(reason_of_both(aaaa, a));
    }
    are_names_slow(times) && times.lost == 0
}

// The name servers that were given up.
fn servers<A: Allocator>(alloc: A, lines: &[RecordLine<'_>]) -> Result<Vec<Ip, A>, Memory>
    ensures { IfOk result (λ ips. ips.items ≡ servers_of (map said_of lines.now)) }
{
    let mut ips = Vec::new(alloc);
    for line in lines {
        if let RecordLine::Server(ip, _, _) = line {
            ips.push(*ip)?;
        }
    }
    Ok(ips)
}

fn only_server(ips: &[Ip]) -> Option<Ip>
    ensures { result ≡ only_server ips.now }
{
    match ips.split_first() {
        Some((ip, others)) if others.is_empty() => Some(*ip),
        _ => None,
    }
}

fn only_charge(charges: &[Charge]) -> Option<Charge>
    ensures { result ≡ only_charge charges.now }
{
    match charges.split_first() {
        Some((charge, others)) if others.is_empty() => Some(*charge),
        _ => None,
    }
}

// Whether the time that attempts lost is what the race took: not the names, this machine, or attempts of which more is
// not known, nor a wait after several attempts.
fn is_alone(attempts: usize, nobody: u64, times: Times) -> bool
    ensures { result ≡ is_alone attempts nobody times }
{
    !are_names_slow(times)
        && times.machine < times.lost
        && times.unknown < times.lost
        && (nobody == 0 || attempts == 1)
}

// How to look at an address, by the end of its attempt and the reason that it failed.
fn look_at(end: Said, reason: Option<AttemptReason>) -> Option<Said>
    ensures { result ≡ look_at end reason }
{
    match end {
        Said::Silent => Some(Said::CheckPath),
        Said::Failed => check_of(reason),
        _ => None,
    }
}

fn check_of(reason: Option<AttemptReason>) -> Option<Said>
    ensures { result ≡ check_of reason }
{
    match reason {
        Some(AttemptReason::Refused | AttemptReason::Reset) => Some(Said::CheckService),
        Some(AttemptReason::Unreachable) => Some(Said::CheckRoute),
        Some(AttemptReason::TimedOut) => Some(Said::CheckPath),
        _ => None,
    }
}

impl<A: Allocator> Story<A> {
    // The port of a service.
    fn tell_port(&mut self, said: Said, target: Option<(&[u8], u16)>) -> Result<(), Memory>
        ensures { OnOk result (told self.new ≡ told self.old ++ port_facts said (target_shown target.entry)) }
    {
        match (said, target) {
            (Said::CheckService, Some(target)) => {
                self.tell(Said::AtPort, &[Part::Number(target.1 as u64)])
            }
            _ => Ok(()),
        }
    }

    fn tell_attempt<B: Allocator>(
        &mut self,
        recorded: &Record<'_, B>,
        charge: Option<Charge>,
    ) -> Result<(), Memory>
        ensures { OnOk result (told self.new ≡ told self.old ++ attempt_facts recorded.now charge) }
    {
        let Some(charge) = charge else {
            return Ok(());
        };
        match look_at(charge.end, recorded.attempt(charge.ip)) {
            Some(said) => {
                self.tell(said, &[Part::Ip(charge.ip)])?;
                self.tell_port(said, recorded.to())
            }
            None => Ok(()),
        }
    }

    fn tell_only_server(&mut self, server: Option<Ip>) -> Result<(), Memory>
        ensures { OnOk result (told self.new ≡ told self.old ++ asked_facts server) }
    {
        match server {
            Some(ip) => self.tell(Said::CheckServer, &[Part::Ip(ip)]),
            None => Ok(()),
        }
    }

    // The only one of the charges, or the only name server that was given up, where it took the time.
    pub(crate) fn tell_check<B: Allocator, C: Allocator>(
        &mut self,
        alloc: A,
        course: &Course<B>,
        recorded: &Record<'_, C>,
        charges: &[Charge],
    ) -> Result<(), Memory>
        ensures { OnOk result (told self.new ≡ told self.old ++ check_facts recorded.now charges.now course.now) }
    {
        let (times, attempts) = (course.times(), course.transcript.attempts().len());
        if are_names_cause(recorded, attempts, times) {
            let servers = servers(alloc, recorded.lines())?;
            return self.tell_only_server(only_server(&servers));
        }
        if is_alone(attempts, course.account.nobody, times) {
            return self.tell_attempt(recorded, only_charge(charges));
        }
        Ok(())
    }
}
