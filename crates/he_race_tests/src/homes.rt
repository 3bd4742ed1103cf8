// The host and the addresses of the worked races.

use he_addr::{Family, Ip, Prefix};
use he_select::{Host, Policy, Route, Source};
use he_timeline::{Outcome, Range, Settings, Timeline, TimelineBuilder};
use std::alloc::Global;
use std::mem::drop;
use std::test::Fail;

/// 2001:db8:1::1
pub const V6_A: Ip = Ip::V6(0x2001_0db8_0001_0000_0000_0000_0000_0001);

/// 2001:db8:1::2
pub const V6_B: Ip = Ip::V6(0x2001_0db8_0001_0000_0000_0000_0000_0002);

/// 2001:db8:1::3
const V6_C: Ip = Ip::V6(0x2001_0db8_0001_0000_0000_0000_0000_0003);

/// 198.51.100.2
const V4_B: Ip = Ip::V4(0xc633_6402);

/// 198.51.100.1
pub const V4_A: Ip = Ip::V4(0xc633_6401);

fn source(ip: Ip, plen: u8) -> Source {
    source_on(1, ip, plen)
}

/// A source on this interface.
pub fn source_on(interface: u16, ip: Ip, plen: u8) -> Source {
    Source {
        ip,
        plen,
        interface,
        deprecated: false,
        temporary: false,
    }
}

fn route(prefix: Prefix) -> Route {
    route_on(1, prefix)
}

/// A route to this interface.
pub fn route_on(interface: u16, prefix: Prefix) -> Route {
    Route {
        prefix,
        interface,
        tunnel: false,
    }
}

// 2001:db8::2/64, 192.0.2.2/24, ::/0 and 0.0.0.0/0
fn host(alloc: Global) -> Result<Host, Fail> {
    let sources = [
        source(Ip::V6(0x2001_0db8_0000_0000_0000_0000_0000_0002), 64),
        source(Ip::V4(0xc000_0202), 24),
    ];
    let routes = [
        route(Prefix::new(0, 0)),
        route(Prefix::new(0xffff_0000_0000, 96)),
    ];
    Ok(Host::new(alloc, &sources, &routes)?)
}

/// A race whose answers come at these ticks, with these outcomes of its two addresses, and maybe with a floor and
/// with a second IPv6 address, which is silent.
#[derive(Clone, Copy)]
pub struct PlannedRace {
    pub limit: u64,
    pub floor: Option<u64>,
    pub has_second: bool,
    pub answers: (u64, u64),
    pub v6: Option<Outcome>,
    pub v4: Option<Outcome>,
    pub pause: Option<(u64, u64)>,
}

/// A race of both IPv6 addresses and the IPv4 address, answered at 20, with the client's knowledge of them; one
/// address succeeds after 10.
#[derive(Clone, Copy)]
pub struct Known {
    pub rtts: &'static [(Ip, u64)],
    pub used: &'static [Ip],
    pub succeeds: Ip,
}

fn fill(builder: &mut TimelineBuilder, given: &PlannedRace) -> Result<(), Fail> {
    let count = if given.has_second { 2 } else { 1 };
    builder.answer(Family::V6, given.answers.0, &[V6_A, V6_B][..count])?;
    builder.answer(Family::V4, given.answers.1, &[V4_A])?;
    if let Some(outcome) = given.v6 {
        builder.outcome(V6_A, outcome)?;
    }
    if let Some(outcome) = given.v4 {
        builder.outcome(V4_A, outcome)?;
    }
    if let Some((from, to)) = given.pause {
        builder.pause(from, to)?;
    }
    Ok(())
}

fn empty(alloc: Global, settings: Settings, host: Host) -> Result<TimelineBuilder, Fail> {
    match Policy::standard(alloc) {
        Ok(policy) => Ok(TimelineBuilder::new(alloc, settings, policy, host)),
        Err(refused) => {
            drop(host);
            Err(refused.into())
        }
    }
}

fn settings(given: &PlannedRace) -> Result<Settings, Range> {
    let settings = Settings::new(50, 250, 1, given.limit)?;
    match given.floor {
        Some(floor) => settings.with_floor(floor),
        None => Ok(settings),
    }
}

fn fill_known(builder: &mut TimelineBuilder, known: &Known) -> Result<(), Fail> {
    builder.answer(Family::V6, 20, &[V6_A, V6_B])?;
    builder.answer(Family::V4, 20, &[V4_A])?;
    for (ip, rtt) in known.rtts {
        builder.rtt(*ip, *rtt)?;
    }
    for ip in known.used {
        builder.used(*ip)?;
    }
    builder.outcome(known.succeeds, Outcome::Ok(10))?;
    Ok(())
}

fn finished(builder: TimelineBuilder, filled: Result<(), Fail>) -> Result<Timeline, Fail> {
    match filled {
        Ok(()) => Ok(builder.finish()),
        Err(fault) => {
            drop(builder);
            Err(fault)
        }
    }
}

pub fn race(alloc: Global, given: &PlannedRace) -> Result<Timeline, Fail> {
    let mut builder = empty(alloc, settings(given)?, host(alloc)?)?;
    let filled = fill(&mut builder, given);
    finished(builder, filled)
}

/// The race without answers and outcomes.
pub fn unanswered(alloc: Global, given: &PlannedRace) -> Result<Timeline, Fail> {
    Ok(empty(alloc, settings(given)?, host(alloc)?)?.finish())
}

/// A race of three IPv6 and two IPv4 addresses, answered at 20, with two of the first family in the lead.
pub fn many_race(alloc: Global) -> Result<Timeline, Fail> {
    let mut builder = empty(alloc, Settings::new(50, 250, 2, 30_000)?, host(alloc)?)?;
    let filled = fill_many(&mut builder);
    finished(builder, filled)
}

fn fill_many(builder: &mut TimelineBuilder) -> Result<(), Fail> {
    builder.answer(Family::V6, 20, &[V6_A, V6_B, V6_C])?;
    builder.answer(Family::V4, 20, &[V4_A, V4_B])?;
    Ok(())
}

pub fn known_race(alloc: Global, known: &Known) -> Result<Timeline, Fail> {
    let mut builder = empty(alloc, Settings::new(50, 250, 1, 30_000)?, host(alloc)?)?;
    let filled = fill_known(&mut builder, known);
    finished(builder, filled)
}

/// A race on a host without sources and routes, without answers.
pub fn bare_race(alloc: Global) -> Result<Timeline, Fail> {
    let host = Host::new(alloc, &[], &[])?;
    Ok(empty(alloc, Settings::new(50, 250, 1, 30_000)?, host)?.finish())
}

/// A race whose IPv4 answer has come: its address was used before and has a round trip time of 40. The IPv6 answer
/// has not.
pub fn half_known_race(alloc: Global) -> Result<Timeline, Fail> {
    let mut builder = empty(alloc, Settings::new(50, 250, 1, 30_000)?, host(alloc)?)?;
    let filled = fill_half(&mut builder);
    finished(builder, filled)
}

fn fill_half(builder: &mut TimelineBuilder) -> Result<(), Fail> {
    builder.answer(Family::V4, 0, &[V4_A])?;
    builder.rtt(V4_A, 40)?;
    builder.used(V4_A)?;
    Ok(())
}

/// The first race: its IPv6 address succeeds after 35, and the IPv4 address has the given outcome.
pub fn first_race(v4: Option<Outcome>) -> PlannedRace {
    PlannedRace {
        limit: 30_000,
        floor: None,
        has_second: false,
        answers: (20, 25),
        v6: Some(Outcome::Ok(35)),
        v4,
        pause: None,
    }
}
