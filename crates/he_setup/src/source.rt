//! The source of answers for a connection's race.
ghost use Rattle.std.specs.Prelude.{◌≡◌, ◌≢◌, IfOk, None, Some, is_some, true};
ghost use Rattle.futures.specs.Poll.{IfReady, OnPending};
ghost use Rattle.futures.specs.Task.{Covers, Keeps};
ghost use Rattle.he_addr.specs.declared.ip.Family.{Family};
ghost use Rattle.he_turns.specs.Heard.{lists_of};
ghost use Rattle.he_resolver.specs.Heard.{IsSound, Tells, origin_of, ttl_in};
ghost use Rattle.he_resolver.specs.Needs.{lookup_needs};
ghost use Rattle.he_setup.specs.Answers.{HasLines, HearsLookup, IsAnswerOf, IsToldOf};
ghost use Rattle.he_setup.specs.Recorded.{fault_of};

use crate::request::Families;
use crate::setup::Setup;
use crate::translated::Nat64;
use crate::watching::LookupWatcher;
use futures::task::{Context, Poll};
use he_addr::{Family, Ip, Memory};
use he_asking::limits::MOST_EVENTS;
use he_asking::{LookupEvent, LookupLog};
use he_failures::failed_servers;
use he_kernel::asked::AskedWays;
use he_kernel::sockets::NO_SCOPE;
use he_kernel::taken::find_machine_of;
use he_recording::ServerFailure;
use he_resolver::Lookup;
use he_settings::{NamesFault, first_fault};
use he_turns::{Answer, AnswerSource, Known, nothing_known};
use std::alloc::{AllocGlobal, Global};
use std::cell::Cell;
use std::net::Net;
use std::random::RandomSource;
use std::rc::Rc;
use std::rt::Files;
use std::time::Clock;

/// Why each family has no address, the events of the look-up, and what is known of the network's NAT64: shared by the
/// look-up of one race and the report of its end.
#[derive(Drop)]
pub struct LookupFaults {
    shared: Rc<FaultCells>,
}

#[derive(Drop)]
struct FaultCells {
    six: Cell<Option<NamesFault>>,
    four: Cell<Option<NamesFault>>,
    // The events of the look-up.
    events: Cell<Option<Vec<LookupEvent>>>,
    // The network's NAT64, as far as it is known, once it is looked up.
    nat64: Cell<Option<Nat64>>,
}

impl LookupFaults {
    /// Nothing is known.
    ///
    /// # Errors
    ///
    /// `Memory` if an allocation fails.
    pub fn new(alloc: Global) -> Result<LookupFaults, Memory> {
        let cells = FaultCells {
            six: Cell::new(None),
            four: Cell::new(None),
            events: Cell::new(None),
            nat64: Cell::new(None),
        };
        Ok(LookupFaults {
            shared: Rc::new(alloc, cells)?,
        })
    }

    /// Another handle to these faults.
    ///
    /// # Errors
    ///
    /// `Memory` if there are too many handles.
    pub fn share(&self) -> Result<LookupFaults, Memory> {
        Ok(LookupFaults {
            shared: self.shared.clone()?,
        })
    }

    /// The faults so far.
    pub fn families(&self) -> FamilyFaults {
        FamilyFaults {
            six: self.shared.six.get(),
            four: self.shared.four.get(),
        }
    }

    /// The name servers that gave no answer so far.
    ///
    /// # Errors
    ///
    /// `Memory` if an allocation fails.
    pub fn servers(&self, alloc: Global) -> Result<Vec<ServerFailure>, Memory> {
        let Some(events) = self.shared.events.replace(None) else {
            return Ok(Vec::new(alloc));
        };
        let servers = failed_servers(alloc, &events);
        self.shared.events.set(Some(events));
        servers
    }

    // Takes events of the look-up. They are lost if an allocation fails.
    fn hear(&self, new: Vec<LookupEvent>) {
        let events = match self.shared.events.replace(None) {
            None => new,
            Some(mut events) => {
                if events.len() < MOST_EVENTS {
                    let _ = events.extend_from_slice(&new);
                }
                events
            }
        };
        self.shared.events.set(Some(events));
    }

    /// The network's NAT64, as far as it is known, if the host's IPv4 addresses were looked up for it. Gives it once.
    pub fn take_nat64(&self) -> Option<Nat64> {
        self.shared.nat64.replace(None)
    }

    fn note(&self, family: Family, fault: NamesFault) {
        match family {
            Family::V6 => self.shared.six.set(Some(fault)),
            Family::V4 => self.shared.four.set(Some(fault)),
        }
    }
}

/// Why each family has no address, at a race's end.
#[derive(Clone, Copy)]
pub struct FamilyFaults {
    six: Option<NamesFault>,
    four: Option<NamesFault>,
}

impl FamilyFaults {
    /// Why the family has no address; None if it has some, or was not answered in time.
    pub fn of(self, family: Family) -> Option<NamesFault>
        ensures { result ≡ fault_of self family }
    {
        match family {
            Family::V6 => self.six,
            Family::V4 => self.four,
        }
    }

    /// Why there is no address of the families to try, by both look-ups if both were made; None if one of them has
    /// some, or none yet, and if the name has addresses of the other family only.
    pub fn nameless(self, families: Families) -> Option<NamesFault> {
        let both = self.of_both();
        if both.is_some() {
            return both;
        }
        let family = families.only()?;
        self.of(family)
            .filter(|fault| *fault != NamesFault::NoAddress)
    }

    // The fault to report if neither family has an address.
    fn of_both(self) -> Option<NamesFault> {
        Some(first_fault(self.six?, self.four?))
    }
}

/// This machine, whose lines come with the addresses of a race, and the kernel's answers in that race.
#[derive(Drop)]
pub struct OwnMachine<'h, R> {
    rt: &'h R,
    asked: AskedWays,
}

impl<'h, R> OwnMachine<'h, R> {
    /// This machine, if its lines come with the addresses in the race that is set up.
    ///
    /// # Errors
    ///
    /// `Memory` if there are too many handles to the kernel's answers.
    pub fn of_setup(rt: &'h R, setup: &Setup<'_>) -> Result<Option<OwnMachine<'h, R>>, Memory>
        ensures { IfOk result (λ machine. is_some machine ≡ setup.now.brings_lines) }
    {
        if !setup.brings_lines {
            return Ok(None);
        }
        Ok(Some(OwnMachine {
            rt,
            asked: setup.asked.share()?,
        }))
    }
}

/// The answers of a look-up, polled by a race. A family without addresses gets an empty answer.
#[derive(Drop)]
pub struct HostAnswers<'h, R, W: LookupWatcher> {
    alloc: Global,
    lookup: Lookup<'h, R>,
    // If its lines come with the addresses.
    machine: Option<OwnMachine<'h, R>>,
    log: LookupLog,
    why: LookupFaults,
    watcher: W,
}

impl<'h, R, W> HostAnswers<'h, R, W>
where
    R: Net + RandomSource + Clock + Files + AllocGlobal,
    W: LookupWatcher,
{
    /// The answers of the look-up; with `machine`, each has this machine's lines for its first 32 addresses. Why a
    /// family has none is recorded in `why`, and so are the events of the look-up.
    ///
    /// # Errors
    ///
    /// `Memory` if there are too many handles to the look-up's log.
    pub fn new(
        alloc: Global,
        lookup: Lookup<'h, R>,
        machine: Option<OwnMachine<'h, R>>,
        why: LookupFaults,
        watcher: W,
    ) -> Result<HostAnswers<'h, R, W>, Memory>
        ensures lookup { IfOk result (λ answers. answers.lookup ≡ lookup.entry) }
    {
        let log = lookup.log()?;
        Ok(HostAnswers {
            alloc,
            lookup,
            machine,
            log,
            why,
            watcher,
        })
    }

    /// Polls the look-up for the family, and passes its events on.
    pub fn poll_told(
        &mut self,
        family: Family,
        now: u64,
        cx: &mut Context<'_>,
    ) -> Poll<Result<Vec<Ip>, NamesFault>>
        ensures told { IsSound self.old.lookup.source → IfReady result (Tells self.new.lookup.source family) }
        ensures sound { IsSound self.old.lookup.source → IsSound self.new.lookup.source }
        ensures origin { origin_of self.new.lookup.source ≡ origin_of self.old.lookup.source }
        ensures brings { is_some self.new.machine ≡ is_some self.old.machine }
        ensures waits { OnPending result (Covers cx.new (lookup_needs self.new.lookup family)) }
        ensures other { (other : Family) → other ≢ family → Covers cx.old (lookup_needs self.old.lookup other)
            → Covers cx.new (lookup_needs self.new.lookup other) }
        ensures kept { Keeps cx.old cx.new }
    {
        let polled = self.lookup.poll_answer(family, cx);
        let events = self.log.take();
        self.watcher.tell_lookup(&events, now);
        self.why.hear(events);
        polled
    }

    /// Polls for the race's answer. While there is none, the look-up is waited for.
    pub fn poll_host(&mut self, family: Family, now: u64, cx: &mut Context<'_>) -> Poll<Answer>
        ensures pending { OnPending result (HearsLookup self.old family None self.new) }
        ensures ready { IfReady result (λ answer. HearsLookup self.old family (Some (lists_of answer)) self.new) }
        ensures waits { OnPending result (Covers cx.new (lookup_needs self.new.lookup family)) }
        ensures other { (other : Family) → other ≢ family → Covers cx.old (lookup_needs self.old.lookup other)
            → Covers cx.new (lookup_needs self.new.lookup other) }
        ensures kept { Keeps cx.old cx.new }
    {
        match self.poll_told(family, now, cx) {
            Poll::Pending => Poll::Pending,
            Poll::Ready(told) => Poll::Ready(self.answer_of(family, told)),
        }
    }

    /// Reports that this look-up begins, for the prefixes of a NAT64.
    pub fn tell_asked(&self, tick: u64) {
        self.watcher.tell_prefixes_asked(tick);
    }

    /// Whether the kernel has a way to one of the addresses, if this machine's lines come with them.
    pub fn has_way(&self, ips: &[Ip]) -> bool {
        let Some(machine) = &self.machine else {
            return false;
        };
        ips.iter().any(|ip| machine.asked.way(machine.rt, *ip, NO_SCOPE).from.is_some())
    }

    /// Notes why the family has no address.
    pub fn note(&self, family: Family, fault: NamesFault) {
        self.why.note(family, fault);
    }

    /// Notes what is known of the network's NAT64.
    pub fn hear_nat64(&self, nat64: Nat64) {
        self.why.shared.nat64.set(Some(nat64));
    }

    /// How long the addresses of the family may be kept, in seconds ([`Lookup::ttl`]).
    pub fn ttl(&self, family: Family) -> Option<u32>
        ensures { result ≡ ttl_in self.now.lookup.source family }
    {
        self.lookup.ttl(family)
    }

    /// The race's answer for the family: these addresses with their lines, or an empty one, whose reason is recorded.
    pub fn answer_of(&self, family: Family, told: Result<Vec<Ip>, NamesFault>) -> Answer
        ensures { IsToldOf (is_some self.now.machine) told (lists_of result) }
    {
        match self.find_answer(family, told) {
            Ok(answer) => answer,
            Err(fault) => {
                self.why.note(family, fault);
                Answer::without_lines(Vec::new(self.alloc))
            }
        }
    }

    // The addresses, without history, with their lines if these come with the addresses.
    fn find_answer(
        &self,
        family: Family,
        told: Result<Vec<Ip>, NamesFault>,
    ) -> Result<Answer, NamesFault>
        ensures { IfOk result (λ answer. IsAnswerOf (is_some self.now.machine) told (lists_of answer)) }
    {
        let ips = told?;
        let known = nothing_known(self.alloc, &ips)?;
        match &self.machine {
            Some(machine) => with_lines(machine, family, &ips, known, &self.watcher),
            None => Ok(Answer::without_lines(known)),
        }
    }
}

// The addresses with this machine's lines, by which the rules select the kernel's sources.
fn with_lines<R: Net + Files + AllocGlobal, W: LookupWatcher>(
    machine: &OwnMachine<'_, R>,
    family: Family,
    ips: &[Ip],
    known: Vec<Known>,
    watcher: &W,
) -> Result<Answer, NamesFault>
    ensures known { IfOk result (λ answer. answer.known ≡ known) }
    ensures lines { IfOk result (λ answer. HasLines true ips.now (lists_of answer)) }
{
    let OwnMachine { rt, asked } = machine;
    let mut remarks = Vec::new(rt.alloc());
    let Ok(machine) = find_machine_of(rt, asked, family, ips, &mut remarks) else {
        return Err(NamesFault::Memory);
    };
    watcher.tell_remarks(remarks.as_slice());
    Ok(Answer {
        known,
        sources: Vec::from_slice(rt.alloc(), machine.sources())?,
        routes: Vec::from_slice(rt.alloc(), machine.routes())?,
    })
}

impl<'h, R, W> AnswerSource for HostAnswers<'h, R, W>
where
    R: Net + RandomSource + Clock + Files + AllocGlobal,
    W: LookupWatcher,
{
    ghost use Rattle.he_resolver.specs.Needs.{lookup_needs};
    ghost use Rattle.he_setup.specs.Answers.{HearsLookup};

    ghost needs = { λ answers family. lookup_needs answers.lookup family };

    ghost hears = { λ old family _ told new. HearsLookup old family told new };

    fn poll_answer(&mut self, family: Family, now: u64, cx: &mut Context<'_>) -> Poll<Answer> {
        self.poll_host(family, now, cx)
    }
}
