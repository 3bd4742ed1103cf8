// The look-up of one family: it asks the servers in order, side by side, until one has an answer.

ghost use Rattle.std.specs.Prelude.{◌≡◌, ◌<◌, ◌||◌, ◌⊎◌, Err, IfErr, None, Some, true, if◌then◌else◌, is_some, not, vec_len};
ghost use Rattle.futures.specs.Poll.{IfReady, OnPending};
ghost use Rattle.futures.specs.Task.{Covers, IsArmed, Keeps};
ghost use Rattle.he_settings.specs.declared.fault.NamesFault.TheVariants.{NotAsked};
ghost use Rattle.he_resolver.specs.Asking.{AsksNext, EndsThrough, IsSame, Takes};
ghost use Rattle.he_settings.specs.Faults.{IsOfAsking};
ghost use Rattle.he_settings.specs.Faults.{is_of_server};
ghost use Rattle.he_resolver.specs.Heard.{HearsOf, IsHeardOfOne};
ghost use Rattle.he_asking.specs.Said.{IsHeardOf};
ghost use Rattle.he_resolver.specs.Needs.{Listens, any_needs, family_needs, next_server_needs};

use futures::task::{Context, Poll};
use he_addr::Family;
use he_asking::limits::{ALONE, MOST_STEPS};
use he_asking::{LookupEventKind, Query, Question, Setup};
use he_dns::Answer;
use he_settings::{NamesFault, ServerFault};
use std::alloc::Global;
use std::io;
use std::net::{Net, SocketAddr};
use std::random::RandomSource;
use std::time::Clock;
use tokio::time::Sleep;

// When to ask the next server.
#[derive(Drop)]
pub(crate) enum NextServer {
    Now,
    After(Sleep),
    // No server is left.
    Never,
}

// One family's part of a look-up: its answer, or the queries for it.
#[derive(Drop)]
pub(crate) struct FamilyLookup {
    family: Family,
    // The queries in progress.
    queries: Vec<Query>,
    // The number of servers asked.
    begun: usize,
    // The number of first servers that the next one doesn't wait for: for an earlier name they failed, or did not
    // answer in time.
    passed: usize,
    next: NextServer,
    // The first server that failed.
    failed: Option<ServerFault>,
    told: Option<Result<Answer, NamesFault>>,
    // Whether no other name can change the answer.
    is_settled: bool,
}

impl FamilyLookup {
    // A family that isn't wanted has its final answer at once.
    pub(crate) fn new(alloc: Global, family: Family, is_wanted: bool) -> FamilyLookup
        ensures family { result.family ≡ family }
        ensures told { result.told ≡ (if is_wanted then None else Some (Err NotAsked)) }
        ensures settled { result.is_settled ≡ not is_wanted }
    {
        FamilyLookup {
            family,
            queries: Vec::new(alloc),
            begun: 0,
            passed: 0,
            next: NextServer::Now,
            failed: None,
            told: if is_wanted {
                None
            } else {
                Some(Err(NamesFault::NotAsked))
            },
            is_settled: !is_wanted,
        }
    }

    // Starts over for another name, unless the answer is final.
    pub(crate) fn start_again(&mut self)
        ensures same { IsSame self.old self.new }
        ensures told { (self.new.told ≡ self.old.told) ⊎ (self.new.told ≡ None) }
    {
        if !self.is_settled {
            self.queries.clear();
            self.passed = self.begun.saturating_sub(1);
            self.begun = 0;
            self.next = NextServer::Now;
            self.failed = None;
            self.told = None;
        }
    }

    pub(crate) fn is_told(&self) -> bool
        ensures { result ≡ is_some self.now.told }
    {
        self.told.is_some()
    }

    // Whether it has addresses.
    pub(crate) fn has_found(&self) -> bool {
        matches!(&self.told, Some(Ok(_)))
    }

    // Why it has no addresses, if that is the answer.
    pub(crate) fn lack(&self) -> Option<NamesFault> {
        match &self.told {
            Some(Err(fault)) => Some(*fault),
            _ => None,
        }
    }

    // The addresses, or why there are none, once there is an answer.
    pub(crate) fn told(&self) -> &Option<Result<Answer, NamesFault>>
        ensures { result.now ≡ self.now.told }
    {
        &self.told
    }

    // Whether nothing can change the answer.
    pub(crate) fn is_settled(&self) -> bool
        ensures { result ≡ self.now.is_settled }
    {
        self.is_settled
    }

    // Makes the answer final, if `is_final`.
    pub(crate) fn settle(&mut self, is_final: bool)
        ensures { self.new ≡ record self.old { is_settled = self.old.is_settled || is_final } }
    {
        self.is_settled = self.is_settled || is_final;
    }

    // Ends the look-up with this answer.
    fn tell(&mut self, told: Result<Answer, NamesFault>)
        ensures told { self.new.told ≡ Some told }
        ensures same { IsSame self.old self.new }
        ensures none { vec_len self.new.queries ≡ 0 }
        ensures begun { self.new.begun ≡ self.old.begun }
    {
        self.queries.clear();
        self.next = NextServer::Never;
        self.told = Some(told);
    }

    // Queries the name at this place, server by server. Ready once there is an answer, addresses or why there are
    // none: from a message that answers the query for this family, or because no server has an answer.
    #[tactic(auto, using(crate::proofs::Asking::heard_of_one, crate::proofs::Asking::hears_asked, crate::proofs::Asking::ends_next))]
    pub(crate) fn poll<R: Net + RandomSource + Clock>(
        &mut self,
        setup: &Setup<'_, R>,
        place: usize,
        cx: &mut Context<'_>,
    ) -> Poll<()>
        ensures listens { Listens cx.new self.new }
        ensures same { IsSame self.old self.new }
        ensures heard { IsHeardOfOne setup.now.plan.names.items self.old.family self.old.told
            → IsHeardOfOne setup.now.plan.names.items self.old.family self.new.told }
        ensures ends { EndsThrough setup.now.plan self.old.told self.new }
        ensures kept { Keeps cx.old cx.new }
    {
        let Some(name) = setup.plan.name(place) else {
            self.tell(Err(NamesFault::Runtime));
            return Poll::Ready(());
        };
        let question = Question {
            name,
            family: self.family,
        };
        for _ in 0..MOST_STEPS {
            if self.told.is_some() {
                return Poll::Ready(());
            }
            if self.queries.is_empty() || self.next.is_now() {
                self.ask_next(setup, question);
            } else if let Poll::Pending = self.hear(setup, question, cx) {
                return Poll::Pending;
            }
        }
        cx.yield_now()
    }

    // Polls the queries, and takes the first answer that comes; or notes that the next server is due.
    #[tactic(auto, unfolding(crate::specs::Needs::family_needs), using(crate::proofs::Asking::hears_same, crate::proofs::Asking::hears_taken, crate::proofs::Asking::ends_same, crate::proofs::Asking::ends_taken))]
    fn hear<R: Net + RandomSource + Clock>(
        &mut self,
        setup: &Setup<'_, R>,
        question: Question<'_>,
        cx: &mut Context<'_>,
    ) -> Poll<()>
        requires some { 0 < vec_len self.old.queries }
        ensures waits { OnPending result (Covers cx.new (family_needs self.new)) }
        ensures same { IsSame self.old self.new }
        ensures heard { HearsOf question.entry.name.now.octets question.entry.family self.old.told self.new.told }
        ensures ends { EndsThrough setup.now.plan self.old.told self.new }
        ensures kept { Keeps cx.old cx.new }
    {
        match poll_any(&mut self.queries, setup, question, cx) {
            Poll::Ready((at, answer)) => {
                let query = self.queries.remove(at);
                self.take(setup, query.server(), answer);
                Poll::Ready(())
            }
            Poll::Pending => match self.next.poll_due(cx) {
                Poll::Pending => Poll::Pending,
                Poll::Ready(()) => {
                    self.note_slow(setup);
                    self.next = NextServer::Now;
                    Poll::Ready(())
                }
            },
        }
    }

    // Asks the next server, beside the queries in progress. If no server and no query is left, the answer is that no
    // server has one.
    fn ask_next<R: Net + RandomSource + Clock>(
        &mut self,
        setup: &Setup<'_, R>,
        question: Question<'_>,
    )
        ensures same { IsSame self.old self.new }
        ensures asks { AsksNext setup.now.plan self.old self.new.told }
        ensures ends { EndsThrough setup.now.plan self.old.told self.new }
    {
        let Some(server) = setup.plan.server(self.begun) else {
            self.next = NextServer::Never;
            if self.queries.is_empty() {
                self.tell(Err(self.failed()));
            }
            return;
        };
        self.begun = self.begun.saturating_add(1);
        let asked = match Query::begin(setup, server, question) {
            Ok(query) => self.add(setup, query),
            Err(fault) => Err(fault),
        };
        if let Err(fault) = asked {
            self.take(setup, server, Err(fault));
        }
    }

    // Waits for the query's answer, and for the time of the next server.
    fn add<R: Clock>(&mut self, setup: &Setup<'_, R>, query: Query) -> Result<(), NamesFault>
        ensures same { IsSame self.old self.new }
        ensures told { self.new.told ≡ self.old.told }
        ensures fault { IfErr result IsOfAsking }
    {
        let is_alone = query.is_sent() && self.begun > self.passed;
        self.queries.push(query)?;
        self.next = next_server(setup, is_alone)?;
        Ok(())
    }

    // Records that the last server asked has not answered, if there is another one.
    fn note_slow<R: Clock>(&self, setup: &Setup<'_, R>) {
        if let (Some(query), Some(next)) = (self.queries.last(), setup.plan.server(self.begun)) {
            setup.note(self.family, LookupEventKind::Slow(query.server(), next));
        }
    }

    // Takes a server's answer. No such name and no address are answers; after a server's failure the next server is
    // asked.
    fn take<R: Clock>(
        &mut self,
        setup: &Setup<'_, R>,
        server: SocketAddr,
        answer: Result<Answer, NamesFault>,
    )
        ensures same { IsSame self.old self.new }
        ensures takes { Takes answer self.old self.new }
    {
        let event = LookupEventKind::of_answer(setup.alloc, self.family, server, &answer);
        if let Ok(Some(kind)) = event {
            setup.note(self.family, kind);
        }
        match answer {
            Err(fault) if fault.is_of_server() => {
                self.note_failed(fault);
                self.next = NextServer::Now;
            }
            told => self.tell(told),
        }
    }

    fn note_failed(&mut self, fault: NamesFault)
        ensures { self.new ≡ record self.old { failed = self.new.failed } }
    {
        if let NamesFault::Server(fault) = fault {
            self.failed = self.failed.or(Some(fault));
        }
    }

    // Why no server had an answer.
    fn failed(&self) -> NamesFault
        ensures { is_of_server result ≡ true }
    {
        match self.failed {
            Some(fault) => NamesFault::Server(fault),
            None => NamesFault::NoAnswer,
        }
    }
}

// When to ask the next server: after `ALONE` milliseconds, or at once.
fn next_server<R: Clock>(setup: &Setup<'_, R>, is_alone: bool) -> io::Result<NextServer> {
    if is_alone {
        Ok(NextServer::After(setup.sleep(ALONE)?))
    } else {
        Ok(NextServer::Now)
    }
}

impl NextServer {
    fn is_now(&self) -> bool {
        matches!(self, NextServer::Now)
    }

    // Ready once the next server must be asked.
    fn poll_due(&mut self, cx: &mut Context<'_>) -> Poll<()>
        requires armed { IsArmed cx.old }
        ensures waits { OnPending result (Covers cx.new (next_server_needs self.new)) }
        ensures kept { Keeps cx.old cx.new }
    {
        match self {
            NextServer::Now => Poll::Ready(()),
            NextServer::Never => Poll::Pending,
            NextServer::After(timer) => match timer.poll_elapsed(cx) {
                Poll::Pending => Poll::Pending,
                Poll::Ready(_) => Poll::Ready(()),
            },
        }
    }
}

// Polls each query in turn, up to the first with an answer. Returns its index and the answer.
fn poll_any<R: Net + RandomSource + Clock>(
    queries: &mut Vec<Query>,
    setup: &Setup<'_, R>,
    question: Question<'_>,
    cx: &mut Context<'_>,
) -> Poll<(usize, Result<Answer, NamesFault>)>
    requires some { 0 < vec_len queries.old }
    ensures within { IfReady result (λ (at, answer). at < vec_len queries.new) }
    ensures heard { IfReady result (λ (at, answer). IsHeardOf question.entry.name.now.octets question.entry.family
        answer) }
    ensures waits { OnPending result (Covers cx.new (any_needs queries.new.items)) }
    ensures len { vec_len queries.new ≡ vec_len queries.old }
    ensures kept { Keeps cx.old cx.new }
{
    for at in 0..queries.len() {
        if let Poll::Ready(answer) = queries[at].poll_answer(setup, question, cx) {
            return Poll::Ready((at, answer));
        }
    }
    Poll::Pending
}
