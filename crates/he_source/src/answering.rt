//! The source of answers for a session's race, on any machine.
ghost use Rattle.std.specs.Prelude.{◌≡◌, IfOk, Some, false, true};
ghost use Rattle.std.specs.List.{filter_map};
ghost use Rattle.std.specs.Option.{option_map};
ghost use Rattle.he_setup.specs.Embedding.{embedded_ips, v4_number};
ghost use Rattle.he_setup.specs.Races.{KnowsHost};
ghost use Rattle.he_turns.specs.Heard.{ips_of, lists_of};
ghost use Rattle.he_source.specs.Answers.{After, AfterFour, AfterPrefixes, AfterSix, BeginsIn, IsSourceFor};
ghost use Rattle.he_source.specs.Answers.{asked_in, is_host};

use crate::lookups::{HostLookup, Sought, kept_host, kept_ips, look_up};
use crate::source::{Earlier, RaceSource, ips_of};
use crate::system::RaceSystem;
use futures::task::{Context, Poll};
use he_addr::{Family, Ip};
use he_loop::SharedLoop;
use he_metrics::Lookup;
use he_settings::NamesFault;
use he_setup::synthesis::{KNOWN_HOST, embed_by, prefixes_of, v4_numbers};
use he_setup::{ConnectFault, LookupFaults, Nat64, Setup};
use he_turns::{Answer, AnswerSource};
use std::alloc::AllocGlobal;
use std::mem::{drop, replace};
use std::net::Net;
use std::random::RandomSource;
use std::rt::Files;
use std::time::Clock;

/// The answers of a session's race: the host's addresses; or, on a machine with only IPv6, maybe its IPv6 addresses
/// or, if it has none, its IPv4 addresses, embedded by the prefixes that the answer for `ipv4only.arpa.` shows (RFC
/// 8305 section 7). Then one is asked for after the other.
#[derive(Drop)]
pub struct SessionAnswers<'h, R> {
    source: RaceSource<'h, R>,
    stage: Stage<'h, R>,
    // Why the host has no IPv6 address.
    absence: NamesFault,
}

// The question that the source answers now, with what the next one needs.
#[derive(Drop)]
pub(crate) enum Stage<'h, R> {
    // The host's addresses.
    Host,
    // Its IPv6 addresses; next its IPv4 addresses, and then the prefixes.
    Six(HostLookup<'h, R>, HostLookup<'h, R>),
    // Its IPv4 addresses; next the prefixes.
    Four(HostLookup<'h, R>),
    // The prefixes, for these hosts.
    Prefixes(Vec<u32>),
}

impl<'h, R> Stage<'h, R> {
    // The family that the source is asked for if the race asks for this one. None if there is nothing to ask for.
    fn asked(&self, family: Family) -> Option<Family>
        ensures { result ≡ asked_in self.now family }
    {
        match (self, family) {
            (Stage::Host, _) => Some(family),
            (_, Family::V4) => None,
            (Stage::Four(_), Family::V6) => Some(Family::V4),
            (_, Family::V6) => Some(Family::V6),
        }
    }
}

/// The answers of the race that is set up. Why a family has no address is noted in `why`.
///
/// # Errors
///
/// `Name` if the host can't be looked up, `Runtime` if the clock fails, `Memory`.
pub fn answers_of<'h, R>(
    shared: SharedLoop<'h, R>,
    setup: &Setup<'_>,
    earlier: Earlier<'h>,
    why: &LookupFaults,
) -> Result<SessionAnswers<'h, R>, ConnectFault>
where
    R: RaceSystem,
    ensures { KnowsHost setup.now → IfOk result (IsSourceFor setup.now) }
{
    if setup.embeds {
        answers_by_family(shared, setup, earlier, why)
    } else {
        answers_of_host(shared, setup, earlier, why)
    }
}

// The answers of the host's look-up: from cached or known addresses, or by name servers.
fn answers_of_host<'h, R>(
    shared: SharedLoop<'h, R>,
    setup: &Setup<'_>,
    earlier: Earlier<'h>,
    why: &LookupFaults,
) -> Result<SessionAnswers<'h, R>, ConnectFault>
where
    R: RaceSystem,
    ensures { KnowsHost setup.now → IfOk result (λ answers. BeginsIn false setup.now.request answers.source
        answers.stage) }
{
    let request = &setup.request;
    let kept = kept_host(shared, request, earlier.kept);
    earlier.count(kept.is_some(), Lookup::Kept);
    let ips = kept_ips(shared.alloc, &kept)?;
    let shown = ips.as_deref();
    let own = setup.known.as_deref();
    let known = shown.or(own);
    let sought = Sought {
        host: request.host,
        only: request.families.only(),
        known,
    };
    let lookup = look_up(shared, setup, sought, why)?;
    lookup.note(&kept);
    let source = RaceSource::new(shared.rt, lookup, earlier, why, &setup.asked)?;
    Ok(SessionAnswers {
        source,
        stage: Stage::Host,
        absence: NamesFault::NoAddress,
    })
}

// The answers of the look-ups of the host's families, and of the prefixes.
fn answers_by_family<'h, R>(
    shared: SharedLoop<'h, R>,
    setup: &Setup<'_>,
    earlier: Earlier<'h>,
    why: &LookupFaults,
) -> Result<SessionAnswers<'h, R>, ConnectFault>
where
    R: RaceSystem,
    ensures { KnowsHost setup.now → IfOk result (λ answers. BeginsIn true setup.now.request answers.source
        answers.stage) }
{
    let host = setup.request.host;
    let known = setup.known.as_deref();
    let only = Some(Family::V6);
    let six = look_up(shared, setup, Sought { host, only, known }, why)?;
    let only = Some(Family::V4);
    let four = look_up(shared, setup, Sought { host, only, known }, why)?;
    let sought = Sought {
        host: KNOWN_HOST,
        only: Some(Family::V6),
        known: None,
    };
    let prefixes = look_up(shared, setup, sought, why)?;
    let source = RaceSource::new(shared.rt, six, earlier, why, &setup.asked)?;
    Ok(SessionAnswers {
        source,
        stage: Stage::Six(four, prefixes),
        absence: NamesFault::NoAddress,
    })
}

impl<'h, R> SessionAnswers<'h, R>
where
    R: Net + RandomSource + Clock + Files + AllocGlobal,
{
    // The race's answer, by that of the source. None if the source is asked for what is next.
    fn answered(&mut self, answer: Answer) -> Option<Answer>
        ensures after { After self.old.stage (lists_of answer) (option_map lists_of result) self.old.source self.new }
        ensures host { is_host self.new.stage ≡ is_host self.old.stage }
    {
        if let Stage::Host = self.stage {
            return Some(answer);
        }
        match replace(
            &mut self.stage,
            Stage::Prefixes(Vec::new(self.source.alloc)),
        ) {
            Stage::Host => Some(answer),
            Stage::Six(four, prefixes) => self.after_six(answer, four, prefixes),
            Stage::Four(prefixes) => self.after_four(answer, prefixes),
            Stage::Prefixes(hosts) => Some(self.after_prefixes(answer, &hosts)),
        }
    }

    // The host's IPv6 addresses, or why they can't be looked up; if there are none, the IPv4 addresses are next.
    fn after_six(
        &mut self,
        answer: Answer,
        four: HostLookup<'h, R>,
        prefixes: HostLookup<'h, R>,
    ) -> Option<Answer>
        ensures after { AfterSix four.entry prefixes.entry (lists_of answer) (option_map lists_of result) self.new }
        ensures host { is_host self.old.stage ≡ false → is_host self.new.stage ≡ false }
    {
        let fault = self.source.fault_or_none(Family::V6);
        if !answer.known.is_empty() || !fault.is_absence() {
            drop(four);
            drop(prefixes);
            return Some(answer);
        }
        drop(answer);
        self.absence = fault;
        self.source.answers.hear_nat64(Nat64::Unanswered);
        self.source.ask(four);
        self.stage = Stage::Four(prefixes);
        None
    }

    // No addresses, if there is no IPv4 host to embed; otherwise the prefixes are next.
    fn after_four(&mut self, answer: Answer, prefixes: HostLookup<'h, R>) -> Option<Answer>
        ensures after { AfterFour prefixes.entry (lists_of answer) (option_map lists_of result) self.new }
        ensures host { is_host self.old.stage ≡ false → is_host self.new.stage ≡ false }
    {
        let hosts = self.hosts_of(&answer);
        drop(answer);
        match hosts {
            Ok(hosts) => {
                self.source.ask(prefixes);
                self.stage = Stage::Prefixes(hosts);
                None
            }
            Err(fault) => {
                drop(prefixes);
                Some(self.source.answer_of(Family::V6, Err(fault)))
            }
        }
    }

    // The hosts to embed: the IPv4 addresses, unless the kernel has a way to one of them.
    fn hosts_of(&self, answer: &Answer) -> Result<Vec<u32>, NamesFault>
        ensures { IfOk result (λ hosts. hosts.items ≡ filter_map v4_number (ips_of (lists_of answer.now).known)) }
    {
        let alloc = self.source.alloc;
        let ips = ips_of(alloc, &answer.known)?;
        if ips.is_empty() || self.source.answers.has_way(&ips) {
            return Err(self.fault_after(self.source.fault_or_none(Family::V4)));
        }
        v4_numbers(alloc, &ips)
    }

    // Why the race has no address after this fault of another look-up: why the host has no IPv6 address, unless this
    // machine failed.
    fn fault_after(&self, fault: NamesFault) -> NamesFault {
        if fault.is_of_host() {
            self.absence
        } else {
            fault
        }
    }

    // The hosts' addresses, embedded.
    fn after_prefixes(&mut self, answer: Answer, hosts: &[u32]) -> Answer
        ensures after { AfterPrefixes self.old.source hosts.now (lists_of answer) (Some (lists_of result)) }
        ensures same { self.new ≡ self.old }
    {
        let told = self.embed(hosts, &answer);
        drop(answer);
        self.source.answer_of(Family::V6, told)
    }

    // The hosts, embedded by the prefixes that this answer for `ipv4only.arpa.` shows, which are noted.
    fn embed(&self, hosts: &[u32], shown: &Answer) -> Result<Vec<Ip>, NamesFault>
        ensures { IfOk result (λ ips. ips.items ≡ embedded_ips hosts.now (ips_of (lists_of shown.now).known)) }
    {
        let fault = self.source.fault_or_none(Family::V6);
        if !fault.is_absence() {
            self.source.answers.hear_nat64(Nat64::Unknown(fault));
            return Err(self.fault_after(fault));
        }
        let alloc = self.source.alloc;
        let shown = ips_of(alloc, &shown.known)?;
        let prefixes = prefixes_of(alloc, &shown)?;
        let embedded = embed_by(alloc, &prefixes, hosts)?;
        self.source
            .earlier
            .prefixes
            .hear(Vec::from_slice(alloc, &prefixes)?);
        self.source.answers.hear_nat64(Nat64::Prefixes(prefixes));
        if embedded.is_empty() {
            return Err(self.absence);
        }
        Ok(embedded)
    }
}

impl<'h, R> AnswerSource for SessionAnswers<'h, R>
where
    R: Net + RandomSource + Clock + Files + AllocGlobal,
{
    ghost use Rattle.he_source.specs.Answers.{HearsSession, session_needs};

    ghost needs = { λ s family. session_needs ⟦<RaceSource<'h, R> as AnswerSource>⟧.needs s family };

    ghost hears = { HearsSession ⟦<RaceSource<'h, R> as AnswerSource>⟧.hears };

    fn poll_answer(&mut self, family: Family, now: u64, cx: &mut Context<'_>) -> Poll<Answer> {
        let Some(asked) = self.stage.asked(family) else {
            return Poll::Ready(Answer::without_lines(Vec::new(self.source.alloc)));
        };
        match self.source.poll_answer(asked, now, cx) {
            Poll::Pending => Poll::Pending,
            Poll::Ready(answer) => match self.answered(answer) {
                Some(answer) => Poll::Ready(answer),
                None => cx.yield_now(),
            },
        }
    }
}
