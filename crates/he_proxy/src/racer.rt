//! Races for the sessions, on the sockets of the event loop.
ghost use Rattle.std.specs.Prelude.{IfOk, Ok, OnOk, true};
ghost use Rattle.he_access.specs.Rules.{MayFit, Settles};
ghost use Rattle.he_setup.specs.Races.{KnowsHost};
ghost use Rattle.he_proxy.specs.Races.{AsksFor, IsReachOf, IsWonBy, RunsFrom, Wins};

use crate::counting::{counted_end, counted_loss};
use crate::keeping::Keeping;
use crate::pages::{Asked, Shown, write_answer};
use crate::race::LoopRace;
use crate::request::ProxyRequest;
use crate::sockets::{Noted, SocketRace, socket_race};
use crate::state::ProxyState;
use futures::Future;
use he_access::reach::is_served;
use he_access::rules::may_begin;
use he_addr::{Ip, Memory};
use he_clients::ClientPlace;
use he_front::Ended;
use he_history::{Records, second_now, stamp_of};
use he_kernel::asked::AskedWays;
use he_log::{Facts, Log, Lost};
use he_loop::{Client, Reach, SharedLoop, ip_of, place_of};
use he_metrics::{Event, Now};
use he_recording::moment_now;
use he_sessions::{PageAsked, RaceAsked, Racer, SessionEnd};
use he_setup::{ConnectFault, ConnectRequest, Setup, set_up_any};
use he_source::{Earlier, RaceSystem};
use he_users::Users;
use std::io;
use std::io::Write;
use std::mem::drop;
use std::net::{Net, SocketAddr};
use std::time::Instant;
use tokio::net::TcpStream;

/// Races for the sessions, and reports on them.
#[derive(Drop)]
pub struct LoopRacer<'h, R, F: Drop> {
    pub shared: SharedLoop<'h, R>,
    pub request: &'h ProxyRequest<'h>,
    pub state: &'h ProxyState,
    pub log: &'h Log<F>,
}

impl<'h, R, F> LoopRacer<'h, R, F>
where
    R: RaceSystem,
    F: Write + Drop,
{
    // The reach of the client's races.
    fn reach_of(&self, client: SocketAddr, asked: &AskedWays) -> Reach<'h>
        ensures { IsReachOf self.now.request.now self.now.state.now.own.items client result }
    {
        Reach {
            own: self.state.own.as_slice(),
            client: Client::of(self.shared.rt, asked, client),
            allows_private: self.request.allows_private,
            rules: self.request.rules,
            prefixes: &self.state.prefixes,
        }
    }

    // The request of the race for he_setup.
    fn request_for<'a>(&self, host: &'a str, port: u16) -> ConnectRequest<'a>
    where
        'h: 'a,
        ensures { AsksFor self.now.request.now host.now port result }
    {
        ConnectRequest {
            host,
            port,
            families: self.request.families,
            settings: self.request.settings,
            lines: self.request.lines,
            resolver: self.request.resolver,
            environment: self.request.environment,
            explains: false,
            tells_steps: false,
        }
    }

    // Begins a race for a client's session, unless the rules refuse each address of the host at the port: then
    // nothing is looked up.
    fn begin_allowed(
        &self,
        client: SocketAddr,
        host: &str,
        port: u16,
    ) -> Result<LoopRace<'h, R, SocketRace<'h, R>>, Lost>
        ensures can { IfOk result (λ race. ⟦<SocketRace<'h, R> as Future>⟧.can_poll race.race) }
        ensures wins { IfOk result (λ race. Wins (IsWonBy R self.now.request.now self.now.state.now.own.items
            client host.now port) (⟦<LoopRace<'h, R, SocketRace<'h, R>> as Future>⟧.gives race)) }
        ensures ruled { OnOk result (Settles (λ rule. MayFit rule host.now port) self.now.request.now.rules.now true) }
    {
        if !may_begin(self.request.rules, host, port) {
            return Err(Lost::Forbidden);
        }
        match self.begin(client, host, port) {
            Ok(race) => Ok(race),
            Err(ConnectFault::Name(fault)) => Err(Lost::of_names(fault)),
            Err(_) => Err(Lost::ProxyFailed),
        }
    }

    // Begins a race for a client's session.
    fn begin(
        &self,
        client: SocketAddr,
        host: &str,
        port: u16,
    ) -> Result<LoopRace<'h, R, SocketRace<'h, R>>, ConnectFault>
        ensures can { IfOk result (λ race. ⟦<SocketRace<'h, R> as Future>⟧.can_poll race.race) }
        ensures wins { IfOk result (λ race. Wins (IsWonBy R self.now.request.now self.now.state.now.own.items
            client host.now port) (⟦<LoopRace<'h, R, SocketRace<'h, R>> as Future>⟧.gives race)) }
    {
        let request = self.request_for(host, port);
        let setup = set_up_any(self.shared.rt, self.shared.alloc, &request, &mut io::sink())?;
        let begun = self.begin_from(&setup, self.reach_of(client, &setup.asked), client);
        drop(setup);
        begun
    }

    // Begins the race of the set-up.
    fn begin_from(
        &self,
        setup: &Setup<'_>,
        reach: Reach<'h>,
        client: SocketAddr,
    ) -> Result<LoopRace<'h, R, SocketRace<'h, R>>, ConnectFault>
        ensures can { IfOk result (λ race. ⟦<SocketRace<'h, R> as Future>⟧.can_poll race.race) }
        ensures runs { KnowsHost setup.now → IfOk result (λ race. (raced : _)
            → ⟦<SocketRace<'h, R> as Future>⟧.gives race.race (Ok raced) → RunsFrom R setup.now reach.entry raced) }
    {
        let noted = Noted::new(self.shared.alloc, setup.asked.share()?)?;
        let keeping = self.keeping(setup, reach, noted, client)?;
        let earlier = Earlier {
            kept: &self.state.answers,
            known: &self.state.known,
            prefixes: &self.state.prefixes,
            metrics: &self.state.metrics,
        };
        let race = socket_race(self.shared, setup, reach, earlier, &keeping.noted)?;
        Ok(LoopRace::new(race, keeping))
    }

    fn keeping(
        &self,
        setup: &Setup<'_>,
        reach: Reach<'h>,
        noted: Noted,
        client: SocketAddr,
    ) -> Result<Keeping<'h, R>, ConnectFault> {
        let SharedLoop { rt, alloc, .. } = self.shared;
        let Some(at) = moment_now(rt) else {
            return Err(ConnectFault::Runtime);
        };
        Ok(Keeping {
            shared: self.shared,
            state: self.state,
            client,
            began: stamp_of(alloc, at)?,
            at: Some(at),
            host: String::from_str(alloc, setup.request.host)?,
            port: setup.request.port,
            reach,
            noted,
            families: setup.request.families,
            embeds: setup.embeds,
        })
    }
}

impl<'h, R, F> LoopRacer<'h, R, F>
where
    R: RaceSystem,
    F: Write + Drop,
{
    // Notes for the log why no race began for the client, and returns the reply to the client.
    fn lose(&self, client: SocketAddr, lost: Lost) -> Ended {
        let mut facts = Facts::none(self.shared.alloc);
        facts.lost = Some(lost);
        self.state.facts.note(client, facts);
        self.state.metrics.count(Event::Lost(counted_loss(lost)));
        lost.ended()
    }

    // The state that the pages show.
    fn shown(&self) -> Shown<'_> {
        Shown {
            recent: &self.state.recent,
            metrics: &self.state.metrics,
            now: Now {
                waiting: self.state.beginning.count() as u64,
                lines_lost: self.log.lines_lost(),
            },
        }
    }

    // Logs once a minute and network that a client is refused.
    fn tell_turned_away(&self, client: SocketAddr, ip: Ip) {
        let rt = self.shared.rt;
        if let Some(now) = second_now(rt)
            && self.state.turned_away.is_news(ip, now)
        {
            self.log.tell_turned_away(rt, client);
        }
    }
}

impl<'h, R, F> Racer for LoopRacer<'h, R, F>
where
    R: RaceSystem,
    F: Write + Drop,
{
    type Stream = TcpStream;

    type Race = LoopRace<'h, R, SocketRace<'h, R>>;

    type Place = ClientPlace<'h>;

    ghost use Rattle.std.specs.Prelude.{IfOk};
    ghost use Rattle.std.specs.Net.Socket.{socket_ip};
    ghost use Rattle.he_addr.specs.Text.{ip_of};
    ghost use Rattle.he_access.specs.Reaching.{IsServed};
    ghost use Rattle.he_proxy.specs.Races.{IsWonBy};

    ghost serves = { λ racer client. IsServed (ip_of (socket_ip client)) racer.request.now.allow.now };

    ghost all_users = { λ racer. racer.state.now.users };

    ghost answers = { λ racer client host port end. IfOk end (IsWonBy R racer.request.now racer.state.now.own.items
        client host port) };

    fn is_served(&self, client: SocketAddr) -> bool {
        let ip = ip_of(client.ip());
        let is_served = is_served(ip, self.request.allow);
        if !is_served {
            self.tell_turned_away(client, ip);
        }
        is_served
    }

    fn users(&self) -> &Users {
        &self.state.users
    }

    fn place(&self, client: SocketAddr) -> io::Result<ClientPlace<'h>> {
        let now = Instant::now(self.shared.rt)?;
        Ok(self.state.beginning.enter(client.ip(), now)?)
    }

    fn race(&self, asked: &RaceAsked<'_>) -> Result<Self::Race, Ended> {
        match self.begin_allowed(asked.client, asked.host, asked.port) {
            Ok(race) => {
                self.log.tell_begun(self.shared.rt, asked, race.began());
                Ok(race)
            }
            Err(lost) => Err(self.lose(asked.client, lost)),
        }
    }

    fn page(&self, asked: &PageAsked<'_>, out: &mut Vec<u8>) -> Result<(), Memory> {
        let PageAsked {
            client,
            at,
            path,
            host,
        } = *asked;
        let ways = AskedWays::new(self.shared.alloc)?;
        let asked = Asked {
            path,
            host,
            at: place_of(SocketAddr::new(at.ip().to_canonical(), at.port())),
            is_near: Client::of(self.shared.rt, &ways, client).is_near(),
        };
        match write_answer(self.shared.alloc, self.shown(), asked, out) {
            Ok(()) => Ok(()),
            Err(Memory) => Err(Memory),
        }
    }

    fn write_tried(&self, client: SocketAddr, reason: &mut Vec<u8>) -> Result<(), Memory> {
        self.state.facts.write_tried(client, reason)
    }

    fn left(&self, client: SocketAddr) {
        self.state.left.set(Some(client));
    }

    fn ended(&self, end: &SessionEnd<'_>) {
        let facts = self.state.facts.take(end.client);
        self.log.tell(self.shared.rt, end, &facts);
        drop(facts);
        self.state.metrics.count(Event::Ended(counted_end(end.how)));
        self.state.per_address.remove(end.client.ip());
        if self.state.running.remove() {
            self.log.tell_room(self.state.running.most());
        }
        if let Some(fault) = self.state.records.as_ref().and_then(Records::fault) {
            self.log.tell_unkept("records", fault);
        }
        if let Some(fault) = self.state.known.fault() {
            self.log.tell_unkept("what is known of addresses", fault);
        }
    }
}
