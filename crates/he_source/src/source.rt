//! The source of a race's answers: its own look-up, or that of another race for this host.
ghost use Rattle.std.specs.Prelude.{◌≡◌, ◌⊎◌, IfOk, IfSome, None, Some, is_some, map, string_bytes};
ghost use Rattle.futures.specs.Poll.{IfReady, OnPending};
ghost use Rattle.futures.specs.Task.{Covers, Keeps};
ghost use Rattle.he_addr.specs.declared.ip.Family.{Family};
ghost use Rattle.he_turns.specs.Heard.{IsSilent, lists_of};
ghost use Rattle.he_kept.specs.Answers.{IsCopied};
ghost use Rattle.he_source.specs.Kept.{IsKeptFor};
ghost use Rattle.he_source.specs.Sources.{Asks, HasSameLines, HearsOwn, IsAsked, IsOfKept, IsToldHere, needs_by};

use crate::lookups::HostLookup;
use futures::Future;
use futures::task::{Context, Poll};
use he_addr::{Family, Ip, Memory};
use he_history::KnownAddresses;
use he_kept::{Asking, KeptAnswer, KeptAnswers, Lifetime, Question, copy_of};
use he_kernel::asked::AskedWays;
use he_live::Quiet;
use he_loop::Prefixes;
use he_metrics::{Event, Lookup, Metrics};
use he_select::Known;
use he_settings::NamesFault;
use he_setup::{HostAnswers, LookupFaults};
use he_turns::{Answer, AnswerSource};
use std::alloc::{AllocGlobal, Global};
use std::net::Net;
use std::random::RandomSource;
use std::rt::Files;
use std::time::Clock;
use tokio::sync::Notified;

/// The state that a proxy's races share with earlier ones.
#[derive(Clone, Copy)]
pub struct Earlier<'h> {
    pub kept: &'h KeptAnswers,
    pub known: &'h KnownAddresses,
    /// The NAT64 prefixes that were discovered.
    pub prefixes: &'h Prefixes,
    /// The counts of all look-ups.
    pub metrics: &'h Metrics,
}

impl<'h> Earlier<'h> {
    // Counts a look-up, if a name was looked up.
    pub(crate) fn count(&self, is_one: bool, how: Lookup) {
        if is_one {
            self.metrics.count(Event::LookedUp(how));
        }
    }
}

// The look-ups of a host's families, each until it is answered.
#[derive(Drop)]
struct AskedFor<'h> {
    six: Option<Asking<'h>>,
    four: Option<Asking<'h>>,
}

impl<'h> AskedFor<'h> {
    // No look-ups.
    fn nothing() -> AskedFor<'h> {
        AskedFor {
            six: None,
            four: None,
        }
    }

    // The family is answered.
    fn end(&mut self, family: Family) {
        match family {
            Family::V6 => self.six = None,
            Family::V4 => self.four = None,
        }
    }
}

// Which race does the look-up of the host.
#[derive(Drop)]
enum Turn<'h> {
    // This race; others may wait for it.
    Asks(AskedFor<'h>),
    // Another race, until it is answered or ends.
    Waits(Notified<'h>),
}

/// The answers of a race. If another race does the look-up of the host, this one waits for its answers; if that race
/// ends first, or gets an answer that isn't cached, this one does its own look-up. Name servers' answers are cached,
/// and each address comes with its history.
#[derive(Drop)]
pub struct RaceSource<'h, R> {
    rt: &'h R,
    pub(crate) alloc: Global,
    pub(crate) answers: HostAnswers<'h, R, Quiet>,
    // Why a family has no address.
    why: LookupFaults,
    // The kernel's answers in this race.
    asked: AskedWays,
    host: String,
    pub(crate) earlier: Earlier<'h>,
    turn: Turn<'h>,
}

impl<'h, R> RaceSource<'h, R>
where
    R: Net + RandomSource + Clock + Files + AllocGlobal,
{
    /// The answers of this look-up, which notes in `why` why a family has none. `asked`: the kernel's answers in this
    /// race.
    ///
    /// # Errors
    ///
    /// `Memory` if an allocation fails.
    pub fn new(
        rt: &'h R,
        lookup: HostLookup<'h, R>,
        earlier: Earlier<'h>,
        why: &LookupFaults,
        asked: &AskedWays,
    ) -> Result<RaceSource<'h, R>, Memory>
        ensures { IfOk result (IsAsked lookup.entry) }
    {
        let HostLookup {
            host,
            only,
            asks,
            answers,
        } = lookup;
        let mut source = RaceSource {
            rt,
            alloc: rt.alloc(),
            answers,
            why: why.share()?,
            asked: asked.share()?,
            host,
            earlier,
            turn: Turn::Asks(AskedFor::nothing()),
        };
        let how = source.begin(only);
        earlier.count(asks, how);
        Ok(source)
    }

    /// Goes on with this look-up.
    pub fn ask(&mut self, lookup: HostLookup<'h, R>)
        ensures { IsAsked lookup.entry self.new }
    {
        let HostLookup {
            host,
            only,
            asks,
            answers,
        } = lookup;
        self.host = host;
        self.answers = answers;
        // This race no longer asks for what it asked for before.
        self.turn = Turn::Asks(AskedFor::nothing());
        let how = self.begin(only);
        self.earlier.count(asks, how);
    }

    // Takes the answers of another race that does the look-up, or the cached one of the only family; otherwise others
    // wait for this race's. Returns which of these.
    fn begin(&mut self, only: Option<Family>) -> Lookup
        ensures answers { self.new.answers ≡ self.old.answers }
        ensures host { self.new.host ≡ self.old.host }
    {
        let kept = self.earlier.kept;
        if only.is_some_and(|family| self.kept_of(family).is_some()) {
            self.turn = Turn::Waits(kept.answered.notified());
            return Lookup::Kept;
        }
        self.turn = turn_for(kept, self.host.as_str(), only);
        match self.turn {
            Turn::Asks(_) => Lookup::Asked,
            Turn::Waits(_) => Lookup::Shared,
        }
    }

    /// Why the family has no address: as its look-up says, otherwise `NoAddress`.
    pub fn fault_or_none(&self, family: Family) -> NamesFault {
        self.why
            .families()
            .of(family)
            .unwrap_or(NamesFault::NoAddress)
    }

    /// The race's answer for the family: these addresses, with their lines and history, or an empty one, whose reason
    /// is noted.
    pub fn answer_of(&self, family: Family, told: Result<Vec<Ip>, NamesFault>) -> Answer
        ensures { IsToldHere (is_some self.now.answers.machine) told (lists_of result) }
    {
        self.with_known(self.answers.answer_of(family, told))
    }

    // The look-up's answer, which is cached.
    fn poll_own(&mut self, family: Family, now: u64, cx: &mut Context<'_>) -> Poll<Answer>
        ensures pending { OnPending result (HearsOwn ⟦<HostAnswers<'h, R, Quiet> as AnswerSource>⟧.hears self.old
            family now None self.new) }
        ensures ready { IfReady result (λ answer. HearsOwn ⟦<HostAnswers<'h, R, Quiet> as AnswerSource>⟧.hears
            self.old family now (Some (lists_of answer)) self.new) }
        ensures waits { OnPending result (
            Covers cx.new (⟦<HostAnswers<'h, R, Quiet> as AnswerSource>⟧.needs self.new.answers family)
            ⊎ IsSilent ⟦<HostAnswers<'h, R, Quiet> as AnswerSource>⟧.hears self.new.answers family) }
        ensures other { (other : Family) → (other ≡ family → ⊥)
            → Covers cx.old (⟦<HostAnswers<'h, R, Quiet> as AnswerSource>⟧.needs self.old.answers other)
            → Covers cx.new (⟦<HostAnswers<'h, R, Quiet> as AnswerSource>⟧.needs self.new.answers other) }
        ensures kept { Keeps cx.old cx.new }
        ensures asks { Asks self.old.turn → Asks self.new.turn }
    {
        match self.answers.poll_told(family, now, cx) {
            Poll::Pending => Poll::Pending,
            Poll::Ready(told) => {
                self.keep(family, &told);
                self.answered(family);
                Poll::Ready(self.answer_of(family, told))
            }
        }
    }

    // The answer of the race that does the look-up, once it is cached.
    fn poll_kept(&mut self, family: Family, cx: &mut Context<'_>) -> Poll<Answer>
        ensures ready { IfReady result (λ answer. IsOfKept (is_some self.old.answers.machine)
            (string_bytes self.old.host) family (Some (lists_of answer))) }
        ensures same { IfReady result (λ _. (self.new ≡ self.old) × (cx.new ≡ cx.old)) }
        ensures waits { OnPending result ((any : Family) → Covers cx.new (needs_by
            (⟦<HostAnswers<'h, R, Quiet> as AnswerSource>⟧.needs self.new.answers any) self.new)) }
        ensures kept { Keeps cx.old cx.new }
    {
        let kept = self.earlier.kept;
        let mut answered = kept.answered.notified();
        if let Some(told) = self.kept_of(family) {
            return Poll::Ready(self.answer_of(family, told));
        }
        if kept.asked(self.host.as_str(), family).is_some() {
            match answered.poll(cx) {
                Poll::Pending => {
                    self.turn = Turn::Waits(answered);
                    return Poll::Pending;
                }
                Poll::Ready(_) => {}
            }
        }
        self.turn = Turn::Asks(AskedFor::nothing());
        cx.yield_now()
    }

    // The cached addresses of the host's family, or why there are none.
    fn kept_of(&self, family: Family) -> Option<Result<Vec<Ip>, NamesFault>>
        ensures { IfSome result (IsKeptFor (string_bytes self.now.host) family) }
    {
        let kept = self.earlier.kept;
        let now = kept.second(self.rt)?;
        Some(kept.known_of(now, self.host.as_str(), family)?.into_told())
    }

    // Others need not wait for the family any more.
    fn answered(&mut self, family: Family)
        ensures answers { self.new.answers ≡ self.old.answers }
        ensures asks { Asks self.old.turn → Asks self.new.turn }
    {
        if let Turn::Asks(asked) = &mut self.turn {
            asked.end(family);
        }
    }

    // Caches a name server's answer for the family: its addresses; or why there are none, unless that is cached.
    fn keep(&self, family: Family, told: &Result<Vec<Ip>, NamesFault>) {
        let ttl = self.answers.ttl(family);
        let is_new = match told {
            Ok(_) => ttl.is_some(),
            Err(fault) => fault.is_absence() && self.kept_of(family).is_none(),
        };
        if !is_new {
            return;
        }
        let kept = self.earlier.kept;
        if let Some(at) = kept.second(self.rt)
            && let Ok(answer) = self.to_keep(family, told, Lifetime { at, ttl })
        {
            kept.keep(answer);
        }
    }

    // The cache entry for a look-up's answer: its host has these addresses of the family, or none for this reason.
    fn to_keep(
        &self,
        family: Family,
        told: &Result<Vec<Ip>, NamesFault>,
        life: Lifetime,
    ) -> Result<KeptAnswer, Memory>
        ensures host { IfOk result (λ kept. string_bytes kept.question.host ≡ string_bytes self.now.host) }
        ensures family { IfOk result (λ kept. kept.question.family ≡ family) }
        ensures told { IfOk result (λ kept. IsCopied told.now kept.told) }
        ensures life { IfOk result (λ kept. kept.life ≡ life) }
    {
        Ok(KeptAnswer {
            question: Question::of(self.alloc, self.host.as_str(), family)?,
            told: copy_of(self.alloc, told)?,
            life,
        })
    }

    // The answer, with the history of its addresses.
    fn with_known(&self, answer: Answer) -> Answer
        ensures { HasSameLines (lists_of answer) (lists_of result) }
    {
        match self.earlier.known.tell(self.rt, &self.asked, &answer.known) {
            Ok(known) => Answer { known, ..answer },
            Err(_) => answer,
        }
    }
}

// Waits for another race if that does the look-up of the host; otherwise starts one here. `only` is the only family
// that is looked up.
fn turn_for<'h>(kept: &'h KeptAnswers, host: &str, only: Option<Family>) -> Turn<'h> {
    let has_six = only != Some(Family::V4);
    let has_four = only != Some(Family::V6);
    if (has_six && kept.asked(host, Family::V6).is_some())
        || (has_four && kept.asked(host, Family::V4).is_some())
    {
        return Turn::Waits(kept.answered.notified());
    }
    Turn::Asks(AskedFor {
        six: if has_six {
            kept.ask(host, Family::V6).ok()
        } else {
            None
        },
        four: if has_four {
            kept.ask(host, Family::V4).ok()
        } else {
            None
        },
    })
}

pub(crate) fn ips_of(alloc: Global, known: &[Known]) -> Result<Vec<Ip>, Memory>
    ensures { IfOk result (λ ips. ips.items ≡ map (λ known. known.ip) known.now) }
{
    known.iter().map(|known| known.ip).collect(alloc)
}

impl<'h, R> AnswerSource for RaceSource<'h, R>
where
    R: Net + RandomSource + Clock + Files + AllocGlobal,
{
    ghost use Rattle.he_source.specs.Sources.{HearsBy, needs_by};

    ghost needs = { λ s family. needs_by (⟦<HostAnswers<'h, R, Quiet> as AnswerSource>⟧.needs s.answers family) s };

    ghost hears = { HearsBy ⟦<HostAnswers<'h, R, Quiet> as AnswerSource>⟧.hears };

    fn poll_answer(&mut self, family: Family, now: u64, cx: &mut Context<'_>) -> Poll<Answer> {
        match self.turn {
            Turn::Asks(_) => self.poll_own(family, now, cx),
            Turn::Waits(_) => self.poll_kept(family, cx),
        }
    }
}
