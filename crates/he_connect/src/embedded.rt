//! The source of answers for a race on a machine with only IPv6, which reaches IPv4 hosts through its network's NAT64
//! (RFC 8305 section 7).
ghost use Rattle.std.specs.Prelude.{◌≡◌, IfOk, Some, is_some};
ghost use Rattle.futures.specs.Poll.{IfReady, OnPending};
ghost use Rattle.futures.specs.Task.{Covers, Keeps};
ghost use Rattle.he_addr.specs.declared.ip.Family.{Family};
ghost use Rattle.he_addr.specs.declared.ip.Family.TheVariants as families;
ghost use Rattle.he_turns.specs.Heard.{lists_of};
ghost use Rattle.he_setup.specs.Embedding.{embedded_ips};
ghost use Rattle.he_connect.specs.Embedded.{EmbedsAt, GivesSix, IsEmbeddedAnswer, IsHostsOf, IsLast, IsSoundEmbedded, StaysEmbedded, embedded_needs, embedded_origins, is_without};
ghost use Rattle.he_connect.specs.declared.embedded.Stage.TheVariants as stages;

use crate::lookups::EmbeddedLookups;
use futures::task::{Context, Poll};
use he_addr::{Family, Ip, Memory};
use he_settings::NamesFault;
use he_setup::synthesis::{embed_by, prefixes_of, v4_numbers};
use he_setup::{HostAnswers, LookupFaults, LookupWatcher, Nat64, OwnMachine};
use he_turns::Answer;
use std::alloc::{AllocGlobal, Global};
use std::net::Net;
use std::random::RandomSource;
use std::rt::Files;
use std::time::Clock;

/// The answers for a host on a machine with only IPv6: the host's IPv6 addresses; or, if it has none, its IPv4
/// addresses, embedded by the prefixes that the answer for `ipv4only.arpa.` shows. One is asked for after the other.
#[derive(Drop)]
pub struct EmbeddedAnswers<'h, R, W: LookupWatcher> {
    alloc: Global,
    // The host's IPv6 addresses.
    six: HostAnswers<'h, R, W>,
    // Its IPv4 addresses.
    four: HostAnswers<'h, R, W>,
    // The addresses of `ipv4only.arpa.`
    prefixes: HostAnswers<'h, R, W>,
    stage: Stage,
    // Why the host has no IPv6 address.
    absence: NamesFault,
}

// Which look-up goes on.
#[derive(Drop)]
pub(crate) enum Stage {
    Six,
    // The host has no IPv6 address.
    Four,
    // It has these IPv4 addresses.
    Prefixes(Vec<u32>),
}

impl<'h, R, W> EmbeddedAnswers<'h, R, W>
where
    R: Net + RandomSource + Clock + Files + AllocGlobal,
    W: LookupWatcher + Copy,
{
    // The answers of these look-ups; with `machine`, the race's has this machine's lines.
    pub(crate) fn new(
        alloc: Global,
        lookups: EmbeddedLookups<'h, R>,
        machine: Option<OwnMachine<'h, R>>,
        why: LookupFaults,
        watcher: W,
    ) -> Result<EmbeddedAnswers<'h, R, W>, Memory>
        ensures six { IfOk result (λ answers. answers.six.lookup ≡ lookups.entry.six) }
        ensures four { IfOk result (λ answers. answers.four.lookup ≡ lookups.entry.four) }
        ensures prefixes { IfOk result (λ answers. answers.prefixes.lookup ≡ lookups.entry.prefixes) }
        ensures stage { IfOk result (λ answers. answers.stage ≡ stages.Six) }
    {
        let EmbeddedLookups {
            six,
            four,
            prefixes,
        } = lookups;
        let six = HostAnswers::new(alloc, six, machine, why.share()?, watcher)?;
        let four = HostAnswers::new(alloc, four, None, why.share()?, watcher)?;
        let prefixes = HostAnswers::new(alloc, prefixes, None, why, watcher)?;
        Ok(EmbeddedAnswers {
            alloc,
            six,
            four,
            prefixes,
            stage: Stage::Six,
            absence: NamesFault::NoAddress,
        })
    }
}

impl<'h, R, W> EmbeddedAnswers<'h, R, W>
where
    R: Net + RandomSource + Clock + Files + AllocGlobal,
    W: LookupWatcher,
{
    // Polls for the race's answer. IPv4 has no address.
    pub(crate) fn poll_embedded(
        &mut self,
        family: Family,
        now: u64,
        cx: &mut Context<'_>,
    ) -> Poll<Answer>
        ensures stays { StaysEmbedded self.old self.new }
        ensures ready { IfReady result (λ answer. IsSoundEmbedded self.old → IsEmbeddedAnswer
            (is_some self.old.six.machine) (embedded_origins self.new) family (Some (lists_of answer))) }
        ensures waits { OnPending result (Covers cx.new (embedded_needs self.new family)) }
        ensures other { (other : Family) → (other ≡ family → ⊥) → Covers cx.old (embedded_needs self.old other)
            → Covers cx.new (embedded_needs self.new other) }
        ensures kept { Keeps cx.old cx.new }
    {
        match family {
            Family::V4 => Poll::Ready(Answer::without_lines(Vec::new(self.alloc))),
            Family::V6 => match self.poll_six(now, cx) {
                Poll::Pending => Poll::Pending,
                Poll::Ready(told) => Poll::Ready(self.six.answer_of(Family::V6, told)),
            },
        }
    }

    // Polls the look-up of the stage.
    fn poll_six(&mut self, now: u64, cx: &mut Context<'_>) -> Poll<Result<Vec<Ip>, NamesFault>>
        ensures stays { StaysEmbedded self.old self.new }
        ensures gives { IsSoundEmbedded self.old → IfReady result (GivesSix (embedded_origins self.new)) }
        ensures waits { OnPending result (Covers cx.new (embedded_needs self.new families.V6)) }
        ensures kept { Keeps cx.old cx.new }
    {
        match self.stage {
            Stage::Six => self.poll_own(now, cx),
            Stage::Four => self.poll_hosts(now, cx),
            Stage::Prefixes(_) => self.poll_prefixes(now, cx),
        }
    }

    // Polls for the host's own IPv6 addresses.
    fn poll_own(&mut self, now: u64, cx: &mut Context<'_>) -> Poll<Result<Vec<Ip>, NamesFault>>
        requires stage { self.old.stage ≡ stages.Six }
        ensures stays { StaysEmbedded self.old self.new }
        ensures gives { IsSoundEmbedded self.old → IfReady result (GivesSix (embedded_origins self.new)) }
        ensures waits { OnPending result (Covers cx.new (embedded_needs self.new families.V6)) }
        ensures kept { Keeps cx.old cx.new }
    {
        match self.six.poll_told(Family::V6, now, cx) {
            Poll::Pending => Poll::Pending,
            Poll::Ready(told) => {
                if !is_without(&told) {
                    return Poll::Ready(told);
                }
                if let Err(fault) = told {
                    self.absence = fault;
                }
                self.six.hear_nat64(Nat64::Unanswered);
                self.stage = Stage::Four;
                cx.yield_now()
            }
        }
    }

    // Polls for the host's IPv4 addresses.
    fn poll_hosts(&mut self, now: u64, cx: &mut Context<'_>) -> Poll<Result<Vec<Ip>, NamesFault>>
        requires stage { self.old.stage ≡ stages.Four }
        ensures stays { StaysEmbedded self.old self.new }
        ensures gives { IsSoundEmbedded self.old → IfReady result (GivesSix (embedded_origins self.new)) }
        ensures waits { OnPending result (Covers cx.new (embedded_needs self.new families.V6)) }
        ensures kept { Keeps cx.old cx.new }
    {
        match self.four.poll_told(Family::V4, now, cx) {
            Poll::Pending => Poll::Pending,
            Poll::Ready(told) => match self.hosts_of(told) {
                Ok(hosts) => {
                    self.prefixes.tell_asked(now);
                    self.stage = Stage::Prefixes(hosts);
                    cx.yield_now()
                }
                Err(fault) => Poll::Ready(Err(fault)),
            },
        }
    }

    // The hosts to embed: the IPv4 addresses, unless the kernel has a way to one of them. Notes why there is none. The
    // fault of the race's answer if there are none to embed.
    fn hosts_of(&self, told: Result<Vec<Ip>, NamesFault>) -> Result<Vec<u32>, NamesFault>
        ensures { IsHostsOf told result }
    {
        let ips = match told {
            Ok(ips) => ips,
            Err(fault) => {
                self.six.note(Family::V4, fault);
                return Err(self.fault_after(fault));
            }
        };
        if ips.is_empty() || self.six.has_way(&ips) {
            return Err(self.absence);
        }
        v4_numbers(self.alloc, &ips)
    }

    // The fault of the race's answer after this one of another look-up: why the host has no IPv6 address, unless this
    // machine failed.
    fn fault_after(&self, fault: NamesFault) -> NamesFault {
        if fault.is_of_host() {
            self.absence
        } else {
            fault
        }
    }

    // Polls for the prefixes.
    fn poll_prefixes(&mut self, now: u64, cx: &mut Context<'_>) -> Poll<Result<Vec<Ip>, NamesFault>>
        requires stage { IsLast self.old.stage }
        ensures stays { StaysEmbedded self.old self.new }
        ensures gives { IsSoundEmbedded self.old → IfReady result (GivesSix (embedded_origins self.new)) }
        ensures waits { OnPending result (Covers cx.new (embedded_needs self.new families.V6)) }
        ensures kept { Keeps cx.old cx.new }
    {
        match self.prefixes.poll_told(Family::V6, now, cx) {
            Poll::Pending => Poll::Pending,
            Poll::Ready(told) => Poll::Ready(self.embed(told)),
        }
    }

    // The hosts, embedded by the prefixes that this answer for `ipv4only.arpa.` shows. The fault of the race's answer
    // if none is embedded.
    fn embed(&self, told: Result<Vec<Ip>, NamesFault>) -> Result<Vec<Ip>, NamesFault>
        ensures { EmbedsAt self.now.stage told result }
    {
        let Stage::Prefixes(hosts) = &self.stage else {
            return Err(self.absence);
        };
        match told {
            Ok(ips) => self.embed_all(hosts, &ips),
            Err(fault) => Err(self.without_prefix(fault)),
        }
    }

    // Notes that there is no prefix, or that none is known; the fault of the race's answer.
    fn without_prefix(&self, fault: NamesFault) -> NamesFault {
        if fault.is_absence() {
            self.six.hear_nat64(Nat64::Prefixes(Vec::new(self.alloc)));
        } else if fault.is_of_host() {
            self.six.hear_nat64(Nat64::Unknown(fault));
        }
        self.fault_after(fault)
    }

    fn embed_all(&self, hosts: &[u32], ips: &[Ip]) -> Result<Vec<Ip>, NamesFault>
        ensures { IfOk result (λ embedded. embedded.items ≡ embedded_ips hosts.now ips.now) }
    {
        let prefixes = prefixes_of(self.alloc, ips)?;
        let embedded = embed_by(self.alloc, &prefixes, hosts);
        self.six.hear_nat64(Nat64::Prefixes(prefixes));
        let embedded = embedded?;
        if embedded.is_empty() {
            return Err(self.absence);
        }
        Ok(embedded)
    }
}

// Whether the host has no address of the family. Some servers say that there is no such name if it has one of the
// other family only (RFC 4074 section 4.2).
fn is_without(told: &Result<Vec<Ip>, NamesFault>) -> bool
    ensures { result ≡ is_without told.now }
{
    match told {
        Ok(ips) => ips.is_empty(),
        Err(fault) => fault.is_absence(),
    }
}
