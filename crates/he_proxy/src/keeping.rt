//! The result of an ended race, and its record.
ghost use Rattle.std.specs.Prelude.{◌≡◌, IfOk, IfSome, true};
ghost use Rattle.he_proxy.specs.Races.{IsWinner, IsWonOf};
ghost use Rattle.he_proxy.specs.Recorded.{IsRecordOf, IsSessionFacts, client_ip, end_of};

use crate::counting::counted_loss;
use crate::sockets::Noted;
use crate::state::ProxyState;
use he_addr::{Ip, Memory};
use he_course::Course;
use he_front::Ended;
use he_history::{GivenUp, Learnt, RecordName, Shown, given_up_at};
use he_kernel::sockets::NO_SCOPE;
use he_live::attempt_failures;
use he_log::{Facts, Lost};
use he_loop::{Joined, Reach, SharedLoop, ip_of};
use he_metrics::{Event, Loss, Win};
use he_plan::{Line, Mark, Outcome3, Transcript};
use he_record::{ClientEnd, Moment};
use he_recording::{Facts as RecordFacts, Target, text_of};
use he_sessions::{Winner, Won};
use he_setup::{Families, KnownFacts, Nat64, facts_for, nat64_prefixes};
use he_source::RaceSystem;
use he_timeline::Timeline;
use he_turns::Raced;
use std::alloc::Global;
use std::mem::drop;
use std::net::SocketAddr;
use tokio::net::TcpStream;

/// The parts that a race needs at its end.
#[derive(Drop)]
pub struct Keeping<'h, R> {
    pub shared: SharedLoop<'h, R>,
    /// The state that takes its record, its results and its facts.
    pub state: &'h ProxyState,
    /// The client of its session.
    pub client: SocketAddr,
    /// When it began, as in the name of its record.
    pub began: String,
    /// The time of its tick 0.
    pub at: Option<Moment>,
    pub host: String,
    pub port: u16,
    pub reach: Reach<'h>,
    pub noted: Noted,
    pub families: Families,
    /// Whether it may reach IPv4 hosts through its network's NAT64.
    pub embeds: bool,
}

impl<'h, R: RaceSystem> Keeping<'h, R> {
    /// If the race's client has left, has the race end at its next poll.
    pub fn hear_leaving(&self) {
        if self.state.left.get() == Some(self.client) {
            self.state.left.set(None);
            self.noted.progress.leave();
        }
    }

    /// Counts a race that could not go on, and returns the reply to its client.
    pub fn fail(&self) -> Ended {
        self.count(Event::Lost(Loss::ProxyFailed));
        Ended::Failed
    }

    fn count(&self, event: Event) {
        self.state.metrics.count(event);
    }

    /// Keeps the record of the race and its results for addresses, and returns its winner, or why there is none. Of a
    /// race that was given up it keeps the record up to then, and returns no winner.
    pub fn end(&self, raced: Raced<Joined>) -> Result<Won<TcpStream>, Ended>
        ensures { IfOk result (IsWonOf raced) }
    {
        match self.noted.progress.given_up() {
            Some(tick) => {
                self.count(Event::Lost(Loss::ClientLeft));
                let _ = self.give_up(&raced, tick);
                drop(raced);
                Err(Ended::TimedOut)
            }
            None => self.hand_out(raced),
        }
    }

    // Keeps the ended race, and returns its winner, or why there is none.
    fn hand_out(&self, raced: Raced<Joined>) -> Result<Won<TcpStream>, Ended>
        ensures { IfOk result (IsWonOf raced) }
    {
        let winner = winner_of(self.shared.alloc, &raced);
        let nat64 = self.noted.why.take_nat64();
        let lost = self.lost(&winner, &raced.transcript, nat64.as_ref());
        let source = raced.winner.as_ref().and_then(Joined::source);
        self.count(counted_result(&winner, &raced.transcript, lost));
        self.learn(&raced.recorded, &raced.transcript, source);
        let text = self.text_of(&raced.recorded, &raced.transcript, nat64.as_ref(), None);
        let text = self.keep(text, &raced.transcript, lost, None);
        let Raced {
            transcript,
            recorded,
            winner: joined,
        } = raced;
        drop(transcript);
        self.show(recorded, text);
        match (winner, joined) {
            (Ok(Some(winner)), Some(joined)) => Ok(Won {
                stream: joined.into_stream(),
                winner,
            }),
            (_, joined) => {
                drop(joined);
                Err(lost.unwrap_or(Lost::ProxyFailed).ended())
            }
        }
    }

    // Keeps the race that was given up at the tick.
    fn give_up(&self, raced: &Raced<Joined>, tick: u64) -> Result<(), Memory> {
        let kept = given_up_at(self.shared.alloc, &raced.recorded, &raced.transcript, tick)?;
        if let Some(kept) = kept {
            let GivenUp {
                recorded,
                transcript,
            } = kept;
            self.learn(&recorded, &transcript, None);
            let nat64 = self.noted.why.take_nat64();
            let text = self.text_of(&recorded, &transcript, nat64.as_ref(), Some(tick));
            let text = self.keep(text, &transcript, None, Some(tick));
            drop(transcript);
            self.show(recorded, text);
        }
        Ok(())
    }

    // Takes the race's results for addresses.
    fn learn(&self, recorded: &Timeline, transcript: &Transcript, source: Option<Ip>) {
        let learnt = Learnt {
            source,
            delay: recorded.settings().attempt(),
        };
        self.state.known.learn(self.shared.rt, transcript, learnt);
    }

    // Keeps the record with this text, if records are kept, and notes the log's facts of the race. Returns the text;
    // none if an allocation failed.
    fn keep(
        &self,
        text: Result<Vec<u8>, Memory>,
        transcript: &Transcript,
        lost: Option<Lost>,
        given_up: Option<u64>,
    ) -> Option<Vec<u8>> {
        let alloc = self.shared.alloc;
        let text = text.ok();
        let mut facts = Facts::none(alloc);
        facts.began = String::from_str(alloc, self.began.as_str()).ok();
        facts.record = text.as_ref().and_then(|text| self.record(text));
        facts.names = transcript.attempts().first().map(|line| line.tick);
        if lost.is_some() || given_up.is_some() {
            facts.tried = tried_in(alloc, transcript.attempts());
        }
        facts.hosts = self.hosts_in(transcript);
        facts.lost = lost;
        facts.given_up = given_up;
        self.state.facts.note(self.client, facts);
        text
    }

    // Writes the record, if records are kept, and returns the name of its file. If it can't be written, the session
    // goes on, and the log has the reason.
    fn record(&self, text: &[u8]) -> Option<String> {
        let records = self.state.records.as_ref()?;
        let name = RecordName {
            began: self.began.as_str(),
            host: self.host.as_str(),
            port: self.port,
        };
        let kept = records.keep(self.shared.rt, name, text);
        self.count(match kept {
            Some(_) => Event::Recorded,
            None => Event::NotRecorded,
        });
        kept
    }

    // The IPv4 hosts that the winner's address embeds or, without a winner, those that were tried, each once; none if
    // an allocation fails.
    fn hosts_in(&self, transcript: &Transcript) -> Vec<Ip> {
        let is_won = matches!(transcript.result(), Outcome3::Won(_, _));
        let mut hosts = Vec::new(self.shared.alloc);
        for line in transcript.attempts() {
            if let Some(host) = self.reach.prefixes.host_of(line.ip)
                && (!is_won || matches!(line.mark, Mark::Won(_)))
                && !hosts.contains(&Ip::V4(host))
            {
                let _ = hosts.push(Ip::V4(host));
            }
        }
        hosts
    }

    // The text of the race with its record.
    fn text_of(
        &self,
        recorded: &Timeline,
        transcript: &Transcript,
        nat64: Option<&Nat64>,
        given_up: Option<u64>,
    ) -> Result<Vec<u8>, Memory>
        ensures { IfOk result (λ text. IsRecordOf self.now given_up recorded.now transcript.now text.items) }
    {
        let alloc = self.shared.alloc;
        let servers = self.noted.why.servers(alloc)?;
        let prefixes = nat64_prefixes(alloc, nat64)?;
        let attempts = attempt_failures(alloc, transcript.attempts(), &self.noted.steps)?;
        let known = KnownFacts {
            at: self.at,
            why: self.noted.why.families(),
            nat64: &prefixes,
            servers: &servers,
            attempts: &attempts,
        };
        let by_nat64 = self.is_by_nat64(nat64);
        let facts = self.facts_of(by_nat64, recorded, known, given_up);
        text_of(alloc, &facts, recorded)
    }

    // Whether the race reaches its host only through a NAT64, for want of an IPv6 address.
    fn is_by_nat64(&self, nat64: Option<&Nat64>) -> bool
        ensures { result ≡ true → self.now.embeds ≡ true }
    {
        self.embeds && nat64.is_some()
    }

    // The facts of the race: those of a race of he_setup, its client, and when that left. `by_nat64`: it reaches its
    // host only through a NAT64.
    fn facts_of<'f>(
        &'f self,
        by_nat64: bool,
        recorded: &Timeline,
        known: KnownFacts<'f>,
        given_up: Option<u64>,
    ) -> RecordFacts<'f>
        ensures { IsSessionFacts self.now by_nat64 given_up recorded.now known.entry result }
    {
        let target = Target {
            host: self.host.as_bytes(),
            port: self.port,
        };
        RecordFacts {
            from: Some(client_ip(self.client)),
            end: end_of(given_up),
            ..facts_for(by_nat64, target, self.families, recorded, known)
        }
    }

    // Shows the race with its record on the page of the last races.
    fn show(&self, recorded: Timeline, text: Option<Vec<u8>>) {
        let (began, host, port) = (&self.began, &self.host, self.port);
        match format!(in self.shared.alloc; "{host} port {port}, {began}") {
            Ok(name) => self.state.recent.add(Shown {
                name,
                recorded,
                text,
            }),
            Err(_) => drop(recorded),
        }
    }

    // Why a race has no winner, if it has none.
    fn lost(
        &self,
        winner: &Result<Option<Winner>, Memory>,
        transcript: &Transcript,
        nat64: Option<&Nat64>,
    ) -> Option<Lost> {
        match winner {
            Ok(Some(_)) => None,
            Ok(None) => Some(self.lost_of(transcript, nat64)),
            Err(Memory) => Some(Lost::ProxyFailed),
        }
    }

    // The most telling result of the attempts, or why there is no address.
    fn lost_of(&self, transcript: &Transcript, nat64: Option<&Nat64>) -> Lost {
        let attempts = transcript.attempts();
        for lost in TELLING {
            if attempts.iter().any(|line| self.lost_by(*line) == lost) {
                return lost;
            }
        }
        if let Some(fault) = self.noted.why.families().nameless(self.families) {
            return Lost::of_names(fault);
        }
        match (transcript.result(), nat64) {
            (Outcome3::Limit(_), _) => Lost::TimedOut,
            _ if !attempts.is_empty() => Lost::ProxyFailed,
            (_, Some(Nat64::Prefixes(_))) => Lost::NoNetwork,
            (_, Some(Nat64::Unknown(fault))) => Lost::of_names(*fault),
            _ => Lost::NoAddress,
        }
    }

    fn lost_by(&self, line: Line) -> Lost {
        let way = self.noted.asked.way(self.shared.rt, line.ip, NO_SCOPE);
        let known = self.reach.known_of(way);
        if !self.reach.has(self.host.as_str(), known, self.port) {
            return Lost::Forbidden;
        }
        match line.mark {
            Mark::Failed(_) => Lost::of_attempt(self.noted.steps.reason_of(line.place)),
            _ => Lost::TimedOut,
        }
    }
}

// The result of the race, as it is counted.
fn counted_result(
    winner: &Result<Option<Winner>, Memory>,
    transcript: &Transcript,
    lost: Option<Lost>,
) -> Event {
    match (winner, transcript.attempts().first()) {
        (Ok(Some(winner)), Some(first)) => Event::Won(Win {
            family: winner.ip.family(),
            connect: winner.ticks,
            names: first.tick,
            lost: winner.lost,
        }),
        _ => Event::Lost(counted_loss(lost.unwrap_or(Lost::ProxyFailed))),
    }
}

// The results of failed attempts, the most telling about the target first.
const TELLING: [Lost; 6] = [
    Lost::Forbidden,
    Lost::AllFailed,
    Lost::TimedOut,
    Lost::Unreachable,
    Lost::NoNetwork,
    Lost::NoDescriptor,
];

// The addresses of the attempts, each once; none if an allocation fails.
fn tried_in(alloc: Global, lines: &[Line]) -> Vec<Ip> {
    match lines.iter().map(|line| line.ip).collect(alloc) {
        Ok(tried) => tried,
        Err(Memory) => Vec::new(alloc),
    }
}

// The winner of a race that was won, with the time that the race lost.
fn winner_of(alloc: Global, raced: &Raced<Joined>) -> Result<Option<Winner>, Memory>
    ensures { IfOk result (λ winner. IfSome winner (IsWinner raced.now.recorded raced.now.transcript)) }
{
    let Outcome3::Won(place, tick) = raced.transcript.result() else {
        return Ok(None);
    };
    let Some(line) = raced.transcript.attempts().get(place) else {
        return Ok(None);
    };
    let ip = line.ip;
    let course = Course::of(alloc, &raced.recorded, 1, 1)?;
    let lost = course.lost();
    drop(course);
    match lost {
        Some(lost) => Ok(Some(Winner {
            ip,
            ticks: tick,
            lost,
        })),
        None => Ok(None),
    }
}

// The client gave the race up at this tick.
fn end_of(given_up: Option<u64>) -> Option<ClientEnd>
    ensures { result ≡ end_of given_up }
{
    given_up.map(ClientEnd::GaveUp)
}

// The client's address; of an IPv4 client of an IPv6 socket its IPv4 address.
fn client_ip(client: SocketAddr) -> Ip
    ensures { result ≡ client_ip client }
{
    match ip_of(client.ip()) {
        Ip::V6(bits) if MAPPED <= bits && bits <= LAST_MAPPED => Ip::V4((bits - MAPPED) as u32),
        ip => ip,
    }
}

// ::ffff:0:0/96.
const MAPPED: u128 = 0xffff_0000_0000;

const LAST_MAPPED: u128 = 0xffff_ffff_ffff;
