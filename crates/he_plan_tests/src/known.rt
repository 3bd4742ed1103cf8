// Round trip times and earlier uses of addresses: the orders and the race that follow from them.

use crate::hosts::{HostKind, builder};
use he_addr::{Family, Ip, Prefix};
use he_plan::{Line, Mark, Outcome3, sorted_attributes, transcript_of};
use he_select::{DestinationAttributes, Host, Policy, Route, Source};
use he_timeline::{BuildFault, Outcome, Settings, Timeline, TimelineBuilder};
use refusing::Refusing;
use std::mem::drop;

// 2001:db8:1::1 and 2001:db8:1::2
const V6_A: Ip = Ip::V6(0x2001_0db8_0001_0000_0000_0000_0000_0001);

const V6_B: Ip = Ip::V6(0x2001_0db8_0001_0000_0000_0000_0000_0002);

// 198.51.100.1
const V4_A: Ip = Ip::V4(0xc633_6401);

// 2001:db8:0:1::9, and 2001:db8:0:2::1, which shares fewer bits with the source
const NEAR: Ip = Ip::V6(0x2001_0db8_0000_0001_0000_0000_0000_0009);

const FAR: Ip = Ip::V6(0x2001_0db8_0000_0002_0000_0000_0000_0001);

fn settings() -> Option<Settings> {
    Settings::new(50, 250, 1, 30_000).ok()
}

// A race of both answers at tick 20.
fn answered(heap: &Refusing) -> Option<TimelineBuilder<&Refusing>> {
    let mut builder = builder(heap, settings()?, HostKind::Usual)?;
    match answer(&mut builder) {
        Ok(()) => Some(builder),
        Err(_) => {
            drop(builder);
            None
        }
    }
}

fn answer(builder: &mut TimelineBuilder<&Refusing>) -> Result<(), BuildFault> {
    builder.answer(Family::V6, 20, &[V6_A, V6_B])?;
    builder.answer(Family::V4, 20, &[V4_A])
}

fn learn(
    builder: &mut TimelineBuilder<&Refusing>,
    rtts: &[(Ip, u64)],
    used: &[Ip],
) -> Result<(), BuildFault> {
    for rtt in rtts {
        builder.rtt(rtt.0, rtt.1)?;
    }
    for ip in used {
        builder.used(*ip)?;
    }
    Ok(())
}

// Whether the addresses are tried in this order by these round trip times and earlier uses.
fn has_order(heap: &Refusing, rtts: &[(Ip, u64)], used: &[Ip], wanted: &[Ip]) -> bool {
    match answered(heap) {
        Some(builder) => is_ordered(heap, builder, rtts, used, wanted),
        None => false,
    }
}

fn is_ordered<'h>(
    heap: &'h Refusing,
    mut builder: TimelineBuilder<&'h Refusing>,
    rtts: &[(Ip, u64)],
    used: &[Ip],
    wanted: &[Ip],
) -> bool {
    if learn(&mut builder, rtts, used).is_err() {
        drop(builder);
        return false;
    }
    let timeline = builder.finish();
    let all_attributes = sorted_attributes(heap, &timeline);
    drop(timeline);
    match all_attributes {
        Ok(all_attributes) => are_of(&all_attributes, wanted),
        Err(_) => false,
    }
}

fn are_of(all_attributes: &[DestinationAttributes], wanted: &[Ip]) -> bool {
    for (place, attributes) in all_attributes.iter().enumerate() {
        if wanted.get(place) != Some(&attributes.ip) {
            return false;
        }
    }
    all_attributes.len() == wanted.len()
}

#[test]
fn known_round_trip_time_comes_first_in_its_family(rt: HostRuntime) {
    let heap = Refusing::new(rt.alloc());
    assert!(rt; has_order(&heap, &[(V6_B, 80), (V4_A, 1)], &[], &[V6_B, V6_A, V4_A]));
    assert!(rt; has_order(&heap, &[(V6_A, 80), (V6_B, 30)], &[], &[V6_B, V6_A, V4_A]));
}

#[test]
fn used_address_comes_first_where_no_round_trip_time_decides(rt: HostRuntime) {
    let heap = Refusing::new(rt.alloc());
    assert!(rt; has_order(&heap, &[(V6_A, 80)], &[V6_B], &[V6_A, V6_B, V4_A]));
    assert!(rt; has_order(&heap, &[], &[V6_B], &[V6_B, V6_A, V4_A]));
}

// 2001:db8:0:1::5/64 and ::/0
fn prefix_host(heap: &Refusing) -> Option<Host<&Refusing>> {
    let source = Source {
        ip: Ip::V6(0x2001_0db8_0000_0001_0000_0000_0000_0005),
        plen: 64,
        interface: 1,
        deprecated: false,
        temporary: false,
    };
    let route = Route {
        prefix: Prefix::new(0, 0),
        interface: 1,
        tunnel: false,
    };
    Host::new(heap, &[source], &[route]).ok()
}

fn is_known_before_prefix(heap: &Refusing) -> Option<bool> {
    let settings = settings()?;
    let policy = Policy::standard(heap).ok()?;
    let mut builder = TimelineBuilder::new(heap, settings, policy, prefix_host(heap)?);
    if builder.answer(Family::V6, 5, &[FAR, NEAR]).is_err() {
        drop(builder);
        return None;
    }
    Some(is_ordered(heap, builder, &[(FAR, 5)], &[], &[FAR, NEAR]))
}

#[test]
fn round_trip_time_decides_before_the_common_prefix(rt: HostRuntime) {
    let heap = Refusing::new(rt.alloc());
    assert!(rt; is_known_before_prefix(&heap) == Some(true));
}

fn quicker(heap: &Refusing) -> Option<Timeline<&Refusing>> {
    let mut builder = answered(heap)?;
    let learned = learn(&mut builder, &[(V6_A, 80), (V6_B, 30)], &[]);
    if learned.is_err() || builder.outcome(V6_B, Outcome::Ok(10)).is_err() {
        drop(builder);
        return None;
    }
    Some(builder.finish())
}

fn is_won_by_the_quicker(heap: &Refusing) -> Option<bool> {
    let timeline = quicker(heap)?;
    let transcript = transcript_of(heap, &timeline);
    drop(timeline);
    let transcript = transcript.ok()?;
    let line = Line {
        place: 0,
        tick: 20,
        ip: V6_B,
        mark: Mark::Won(30),
    };
    Some(transcript.attempts() == [line].as_slice() && transcript.result() == Outcome3::Won(0, 30))
}

#[test]
fn race_tries_the_quicker_address_first(rt: HostRuntime) {
    let heap = Refusing::new(rt.alloc());
    assert!(rt; is_won_by_the_quicker(&heap) == Some(true));
}

// Whether the calls return these results, one after the other.
fn are_refused_in_order(builder: &mut TimelineBuilder<&Refusing>) -> bool {
    builder.rtt(NEAR, 0) == Err(BuildFault::Range)
        && builder.rtt(V6_A, 3_600_001) == Err(BuildFault::Range)
        && builder.rtt(NEAR, 1) == Err(BuildFault::Stranger)
        && builder.rtt(V6_A, 3_600_000) == Ok(())
        && builder.rtt(V6_A, 1) == Err(BuildFault::Repeated)
        && builder.used(NEAR) == Err(BuildFault::Stranger)
        && builder.used(V6_A) == Ok(())
        && builder.used(V6_A) == Err(BuildFault::Repeated)
}

fn is_as_told(timeline: &Timeline<&Refusing>) -> bool {
    timeline.rtts() == [(V6_A, 3_600_000)].as_slice()
        && timeline.used_addresses() == [V6_A].as_slice()
        && timeline.rtt(V6_A) == Some(3_600_000)
        && timeline.rtt(V6_B) == None
        && timeline.used(V6_A)
        && !timeline.used(V6_B)
}

fn is_kept(heap: &Refusing) -> Option<bool> {
    let mut builder = answered(heap)?;
    let are_refused = are_refused_in_order(&mut builder);
    let timeline = builder.finish();
    let is_kept = are_refused && is_as_told(&timeline);
    drop(timeline);
    Some(is_kept)
}

#[test]
fn a_refused_history_leaves_what_was_told(rt: HostRuntime) {
    let heap = Refusing::new(rt.alloc());
    assert!(rt; is_kept(&heap) == Some(true));
}
