//! A look-up of a host's addresses, to be polled as by a race.

ghost use Rattle.std.specs.Prelude.{◌≡◌, ◌≢◌, IfOk, Ok};
ghost use Rattle.futures.specs.Poll.{IfReady, OnPending};
ghost use Rattle.futures.specs.Task.{Covers, Keeps};
ghost use Rattle.he_names.specs.Answers.{IsAnswer};
ghost use Rattle.he_resolver.specs.Begins.{BeginsFor};
ghost use Rattle.he_resolver.specs.Heard.{AreOwnOf, IsSound, Tells, TellsKnown, origin_of, ttl_in};
ghost use Rattle.he_resolver.specs.Needs.{lookup_needs};
ghost use Rattle.he_resolver.specs.declared.lookup.Source.TheVariants as sources;

use crate::resolver::Resolver;
use crate::system::{SystemQuery, SystemResolver};
use futures::task::{Context, Poll};
use he_addr::{Family, Ip, Memory};
use he_asking::{LookupEventKind, LookupLog, Origin, Setup};
use he_names::{Target, clean_of, read_host};
use he_settings::{Choice, NamesFault, Wanted, known_by_itself, plan_for};
use std::alloc::{AllocGlobal, Global};
use std::net::Net;
use std::random::RandomSource;
use std::rt::Files;
use std::thread::Threads;
use std::time::Clock;
use tokio::runtime::Handle;

/// Finds the addresses of a host, and returns each family's as soon as they are known: a resolver for a race in
/// progress (RFC 8305 section 3).
#[derive(Drop)]
pub struct Lookup<'h, R> {
    rt: &'h R,
    alloc: Global,
    source: Source<'h, R>,
    log: LookupLog,
}

// The origin of the addresses.
#[derive(Drop)]
pub(crate) enum Source<'h, R> {
    Known(Vec<Ip>),
    Servers(Resolver<'h, R>),
    System(SystemQuery),
    // The result of the system's resolver.
    Told(Result<Vec<Ip>, NamesFault>),
}

impl<'h, R: Net + RandomSource + Clock> Lookup<'h, R> {
    /// A look-up of a host without known addresses ([`find_known`](he_settings::find_known)): it doesn't read the
    /// hosts file. An address, or this machine, is its own answer. Nothing is sent before the first poll; the
    /// system's resolver is called at once, in a thread.
    ///
    /// # Errors
    ///
    /// `Host` and `Name` if it is not a host name, or one that may not be queried; `Unreadable` and `Files` if a
    /// system file exists but can't be read; `Interface` if this machine doesn't have the chosen name server's
    /// interface; `Runtime` if no thread can be made; `Memory`.
    pub fn new(
        rt: &'h R,
        alloc: Global,
        handle: &'h Handle,
        wanted: Wanted<'_>,
    ) -> Result<Lookup<'h, R>, NamesFault>
    where
        R: Files + AllocGlobal + SystemResolver + Threads + Copy + Send + 'static,
        ensures begins { IfOk result (λ lookup. BeginsFor wanted.entry.host.now wanted.entry.choice
            wanted.entry.environment wanted.entry.only lookup.source) }
        ensures sound { IfOk result (λ lookup. IsSound lookup.source) }
    {
        match wanted.choice {
            Choice::System => Lookup::by_system(rt, alloc, wanted),
            _ => Lookup::by_servers(rt, alloc, handle, wanted),
        }
    }

    /// As [`new`](Lookup::new), with name servers only, for a caller that must not start a thread.
    ///
    /// # Errors
    ///
    /// Those of [`new`](Lookup::new), and `System` if the system's resolver is chosen.
    pub fn by_servers(
        rt: &'h R,
        alloc: Global,
        handle: &'h Handle,
        wanted: Wanted<'_>,
    ) -> Result<Lookup<'h, R>, NamesFault>
    where
        R: Files + AllocGlobal,
        ensures begins { IfOk result (λ lookup. BeginsFor wanted.entry.host.now wanted.entry.choice
            wanted.entry.environment wanted.entry.only lookup.source) }
        ensures sound { IfOk result (λ lookup. IsSound lookup.source) }
    {
        let target = read_host(alloc, wanted.host)?;
        if let Some(known) = known_by_itself(alloc, &target)? {
            return Ok(Lookup::of_known(rt, alloc, known)?);
        }
        if let Choice::System = wanted.choice {
            return Err(NamesFault::System);
        }
        let log = LookupLog::new(rt, alloc)?;
        let setup = Setup {
            rt,
            alloc,
            reactor: handle.reactor(),
            timers: handle.time(),
            plan: plan_for(rt, alloc, &target, wanted)?,
            log: log.share()?,
        };
        let resolver = Resolver::new(setup, wanted.only);
        Ok(Lookup::with(rt, alloc, Source::Servers(resolver), log))
    }

    // By the system's resolver, which returns both families.
    fn by_system(rt: &'h R, alloc: Global, wanted: Wanted<'_>) -> Result<Lookup<'h, R>, NamesFault>
    where
        R: AllocGlobal + SystemResolver + Threads + Copy + Send + 'static,
        ensures begins { IfOk result (λ lookup. BeginsFor wanted.entry.host.now wanted.entry.choice
            wanted.entry.environment wanted.entry.only lookup.source) }
        ensures sound { IfOk result (λ lookup. IsSound lookup.source) }
    {
        let target = read_host(alloc, wanted.host)?;
        if let Some(known) = known_by_itself(alloc, &target)? {
            return Ok(Lookup::of_known(rt, alloc, known)?);
        }
        match (target, wanted.choice) {
            (Target::Multicast(name), Choice::System) => {
                let query = SystemQuery::begin(*rt, alloc, name.as_str())?;
                let log = LookupLog::new(rt, alloc)?;
                Ok(Lookup::with(rt, alloc, Source::System(query), log))
            }
            (Target::Name(name), Choice::System) => {
                let query = SystemQuery::begin(*rt, alloc, name.as_str())?;
                let log = LookupLog::new(rt, alloc)?;
                Ok(Lookup::with(rt, alloc, Source::System(query), log))
            }
            _ => Err(NamesFault::System),
        }
    }

    /// A look-up of a host with known addresses, from [`find_known`](he_settings::find_known) or an earlier look-up:
    /// it returns these, and reads and sends nothing.
    ///
    /// # Errors
    ///
    /// `Memory`.
    pub fn of_known(rt: &'h R, alloc: Global, known: Vec<Ip>) -> Result<Lookup<'h, R>, NamesFault>
        ensures { IfOk result (λ lookup. lookup.source ≡ sources.Known known) }
    {
        let log = LookupLog::new(rt, alloc)?;
        note_counts(rt, alloc, &log, &known, Origin::Known);
        Ok(Lookup::with(rt, alloc, Source::Known(known), log))
    }

    fn with(rt: &'h R, alloc: Global, source: Source<'h, R>, log: LookupLog) -> Lookup<'h, R>
        ensures { result.source ≡ source.entry }
    {
        Lookup {
            rt,
            alloc,
            source,
            log,
        }
    }

    // Whole milliseconds since the look-up began, as in its events; 0 if the clock fails.
    pub(crate) fn tick(&self) -> u64 {
        self.log.tick(self.rt)
    }

    /// The events of the look-up, for a holder that reads them during it.
    ///
    /// # Errors
    ///
    /// `Memory` if there are too many handles.
    pub fn log(&self) -> Result<LookupLog, Memory> {
        self.log.share()
    }

    /// The addresses of the family, each once and at most 256, or why it has none. Poll each family until it is
    /// ready, and not after.
    ///
    /// The first poll asks for both families, IPv6 first. The name servers are asked side by side, each
    /// [`ALONE`](he_asking::limits::ALONE) milliseconds after the one before it or as soon as that has failed, and
    /// the first answer counts. The query is sent to each once a second, `timeout` times `attempts` times
    /// (resolv.conf). The system's resolver has its own time limit, and returns both families at once.
    ///
    /// A poll may make the other family's result final; the task is then polled again.
    ///
    /// # Errors
    ///
    /// `NoSuchName`, `NoAddress`, `NoAnswer`, `Server`, `NotAsked`, `System`; `Files`, `Runtime`, `Memory`.
    pub fn poll_answer(
        &mut self,
        family: Family,
        cx: &mut Context<'_>,
    ) -> Poll<Result<Vec<Ip>, NamesFault>>
        ensures answer { IfReady result (λ told. IfOk told (λ ips. IsAnswer family ips.items)) }
        ensures told { IsSound self.old.source → IfReady result (Tells self.new.source family) }
        ensures own { IfReady result (λ told. IfOk told (λ ips. AreOwnOf self.new.source family ips.items)) }
        ensures sound { IsSound self.old.source → IsSound self.new.source }
        ensures origin { origin_of self.new.source ≡ origin_of self.old.source }
        ensures waits { OnPending result (Covers cx.new (lookup_needs self.new family)) }
        ensures other { (other : _) → other ≢ family → Covers cx.old (lookup_needs self.old other)
            → Covers cx.new (lookup_needs self.new other) }
        ensures kept { Keeps cx.old cx.new }
    {
        match &mut self.source {
            Source::Known(known) => Poll::Ready(part_of(self.alloc, family, known)),
            Source::Told(found) => Poll::Ready(answer_of(self.alloc, family, found)),
            Source::Servers(resolver) => match resolver.poll_settled(family, cx) {
                Poll::Pending => Poll::Pending,
                Poll::Ready(()) => Poll::Ready(resolver.answer(family)),
            },
            Source::System(query) => match query.poll_found(cx) {
                Poll::Pending => Poll::Pending,
                Poll::Ready(found) => {
                    if let Ok(ips) = &found {
                        note_counts(self.rt, self.alloc, &self.log, ips, Origin::System);
                    }
                    let answer = answer_of(self.alloc, family, &found);
                    self.source = Source::Told(found);
                    let _: Poll<()> = cx.yield_now();
                    Poll::Ready(answer)
                }
            },
        }
    }

    /// How long the family's addresses may be kept, in seconds, after [`poll_answer`](Lookup::poll_answer) returned
    /// them: the TTL of the name server's answer, at most 2^31 - 1. None if they are from no name server, or there
    /// are none.
    pub fn ttl(&self, family: Family) -> Option<u32>
        ensures { result ≡ ttl_in self.now.source family }
    {
        match &self.source {
            Source::Servers(resolver) => resolver.ttl(family),
            _ => None,
        }
    }
}

// The family's part of the result of the system's resolver.
fn answer_of(
    alloc: Global,
    family: Family,
    found: &Result<Vec<Ip>, NamesFault>,
) -> Result<Vec<Ip>, NamesFault>
    ensures answer { IfOk result (λ ips. IsAnswer family ips.items) }
    ensures told { TellsKnown found.now family result }
{
    match found {
        Ok(ips) => part_of(alloc, family, ips),
        Err(fault) => Err(*fault),
    }
}

// The family's addresses, each once and at most 256.
fn part_of(alloc: Global, family: Family, ips: &Vec<Ip>) -> Result<Vec<Ip>, NamesFault>
    ensures answer { IfOk result (λ part. IsAnswer family part.items) }
    ensures told { TellsKnown (Ok ips.now) family result }
{
    Ok(clean_of(alloc, family, ips)?)
}

// Records the number of addresses of each family.
fn note_counts<R: Clock>(rt: &R, alloc: Global, log: &LookupLog, known: &[Ip], origin: Origin) {
    for family in [Family::V6, Family::V4] {
        if let Ok(ips) = clean_of(alloc, family, known) {
            log.note(rt, family, LookupEventKind::Known(ips.len(), origin));
        }
    }
}
