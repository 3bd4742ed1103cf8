// A second computation of plans: it checks for each tick whether an attempt may start on it, by the definitions, and
// reads all addresses, attempts and pauses again each time. Its results are those of `plan` on pseudo-random
// timelines.

ghost use Rattle.std.specs.Prelude.{◌≡◌, ◌<◌, max};
ghost use Rattle.std.specs.List.{list_all};
ghost use Rattle.he_addr.specs.Ip.{is_usable};

use crate::hosts::{HostKind, builder};
use he_addr::{Family, Ip, Memory};
use he_plan::{Attempt, interlace, plan};
use he_select::order;
use he_timeline::{Outcome, Settings, Timeline, TimelineBuilder};
use refusing::Refusing;
use std::mem::drop;

// 2001:db8:1::, ff02::, 198.51.100.0 and 224.0.0.0
const V6_A: u128 = 0x2001_0db8_0001_0000_0000_0000_0000_0000;

const MULTICAST_V6: u128 = 0xff02_0000_0000_0000_0000_0000_0000_0000;

const V4_A: u32 = 0xc633_6400;

const MULTICAST_V4: u32 = 0xe000_0000;

fn plain_plan<'h>(
    heap: &'h Refusing,
    timeline: &Timeline<&'h Refusing>,
) -> Result<Vec<Attempt, &'h Refusing>, Memory> {
    let mut done = Vec::new(heap);
    for tick in 0..timeline.settings().limit() {
        if may_start(timeline, &done, tick) {
            push_next(heap, timeline, &mut done, tick)?;
        }
    }
    Ok(done)
}

// Whether the client may act at the tick and starts the first attempt or, if it has an address to try, another one.
fn may_start(timeline: &Timeline<&Refusing>, done: &[Attempt], tick: u64) -> bool {
    if seen(timeline.pauses(), tick) != tick {
        return false;
    }
    match done.last() {
        None => may_begin(timeline, tick),
        Some(last) => has_waited(timeline, done, last, tick),
    }
}

fn has_waited(timeline: &Timeline<&Refusing>, done: &[Attempt], last: &Attempt, tick: u64) -> bool {
    if last.tick.saturating_add(timeline.settings().attempt()) <= tick {
        return true;
    }
    match timeline.settings().floor() {
        Some(floor) => {
            last.tick.saturating_add(floor) <= tick && have_failed(timeline, done, tick)
        }
        None => false,
    }
}

fn have_failed(timeline: &Timeline<&Refusing>, done: &[Attempt], tick: u64) -> bool {
    for attempt in done {
        if !has_failed(timeline, attempt, tick) {
            return false;
        }
    }
    true
}

fn has_failed(timeline: &Timeline<&Refusing>, attempt: &Attempt, tick: u64) -> bool {
    match timeline.outcome(attempt.ip) {
        Some(Outcome::Fail(duration)) => {
            seen(timeline.pauses(), attempt.tick.saturating_add(duration)) <= tick
        }
        _ => false,
    }
}

fn may_begin(timeline: &Timeline<&Refusing>, tick: u64) -> bool {
    if is_positive(timeline, Family::V6, tick) {
        return true;
    }
    is_positive(timeline, Family::V4, tick)
        && (is_answered(timeline, Family::V6, tick) || is_delay_over(timeline, tick))
}

fn is_delay_over(timeline: &Timeline<&Refusing>, tick: u64) -> bool {
    let resolution = timeline.settings().resolution();
    match timeline.answer(Family::V4) {
        Some((a, _)) => seen(timeline.pauses(), a.saturating_add(resolution)) <= tick,
        None => false,
    }
}

fn is_answered(timeline: &Timeline<&Refusing>, family: Family, tick: u64) -> bool {
    match timeline.answer(family) {
        Some((answered, _)) => seen(timeline.pauses(), answered) <= tick,
        None => false,
    }
}

fn is_positive(timeline: &Timeline<&Refusing>, family: Family, tick: u64) -> bool {
    is_answered(timeline, family, tick)
        && answered(timeline, family).iter().any(|ip| ip.is_usable())
}

fn push_next<'h>(
    heap: &'h Refusing,
    timeline: &Timeline<&'h Refusing>,
    done: &mut Vec<Attempt, &'h Refusing>,
    tick: u64,
) -> Result<(), Memory> {
    let ips = received(heap, timeline, tick)?;
    let order = order_of(heap, timeline, &ips)?;
    if let Some(ip) = first_untried(&order, done) {
        let place = done.len();
        done.push(Attempt { place, tick, ip })?;
    }
    Ok(())
}

fn first_untried(order: &[Ip], done: &[Attempt]) -> Option<Ip> {
    for ip in order {
        if !done.iter().any(|attempt| attempt.ip == *ip) {
            return Some(*ip);
        }
    }
    None
}

// The usable addresses of the answers that have come by the tick.
fn received<'h>(
    heap: &'h Refusing,
    timeline: &Timeline<&'h Refusing>,
    tick: u64,
) -> Result<Vec<Ip, &'h Refusing>, Memory> {
    let mut ips = Vec::new(heap);
    push_usable(&mut ips, timeline, Family::V6, tick)?;
    push_usable(&mut ips, timeline, Family::V4, tick)?;
    Ok(ips)
}

// The usable addresses in order and interlaced.
fn order_of<'h>(
    heap: &'h Refusing,
    timeline: &Timeline<&'h Refusing>,
    ips: &[Ip],
) -> Result<Vec<Ip, &'h Refusing>, Memory> {
    if !are_usable(ips) {
        return Err(Memory);
    }
    let sorted = order(heap, timeline.policy(), timeline.host(), ips)?;
    interlace(heap, &sorted, timeline.settings().count())
}

fn are_usable(ips: &[Ip]) -> bool
    ensures { result ≡ list_all is_usable ips.now }
{
    ips.iter().all(|ip| ip.is_usable())
}

fn push_usable<'h>(
    ips: &mut Vec<Ip, &'h Refusing>,
    timeline: &Timeline<&'h Refusing>,
    family: Family,
    tick: u64,
) -> Result<(), Memory> {
    if is_answered(timeline, family, tick) {
        for ip in answered(timeline, family) {
            if ip.is_usable() {
                ips.push(*ip)?;
            }
        }
    }
    Ok(())
}

fn answered<'t>(timeline: &'t Timeline<&Refusing>, family: Family) -> &'t [Ip] {
    match timeline.answer(family) {
        Some((_, ips)) => ips,
        None => &[],
    }
}

fn seen(pauses: &[(u64, u64)], tick: u64) -> u64 {
    let mut seen = tick;
    for pause in pauses {
        if pause.0 <= seen && seen < pause.1 {
            seen = pause.1;
        }
    }
    seen
}

/// Pseudo-random numbers, equal in each run (Knuth's linear congruential generator).
#[derive(Drop)]
struct Drawn(u64);

impl Drawn {
    fn below(&mut self, bound: u64) -> u64
        ensures { result < max bound 1 }
    {
        self.0 = self
            .0
            .wrapping_mul(6_364_136_223_846_793_005)
            .wrapping_add(1_442_695_040_888_963_407);
        (self.0 >> 33) % bound.max(1)
    }
}

// The usable address of this number, or an unusable one in its place.
fn address(family: Family, number: u32, is_usable: bool) -> Ip {
    match (family, is_usable) {
        (Family::V6, true) => Ip::V6(V6_A.wrapping_add(number as u128)),
        (Family::V6, false) => Ip::V6(MULTICAST_V6.wrapping_add(number as u128)),
        (Family::V4, true) => Ip::V4(V4_A.wrapping_add(number)),
        (Family::V4, false) => Ip::V4(MULTICAST_V4.wrapping_add(number)),
    }
}

// Up to eleven addresses, of which about one in four is unusable.
fn draw_addresses<'h>(
    heap: &'h Refusing,
    family: Family,
    drawn: &mut Drawn,
) -> Option<Vec<Ip, &'h Refusing>> {
    let mut ips = Vec::new(heap);
    for number in 0..drawn.below(12) as u32 {
        let is_usable = drawn.below(4) > 0;
        ips.push(address(family, number, is_usable)).ok()?;
    }
    Some(ips)
}

// An answer; one in eight never comes.
fn draw_answer<'h>(
    heap: &'h Refusing,
    builder: &mut TimelineBuilder<&'h Refusing>,
    family: Family,
    drawn: &mut Drawn,
) -> Option<()> {
    if drawn.below(8) == 0 {
        return Some(());
    }
    let ips = draw_addresses(heap, family, drawn)?;
    builder.answer(family, drawn.below(300), &ips).ok()
}

// Up to seven pauses, some of which adjoin.
fn draw_pauses(builder: &mut TimelineBuilder<&Refusing>, drawn: &mut Drawn) -> Option<()> {
    let mut end: u64 = 0;
    for _ in 0..drawn.below(8) {
        let gap = if drawn.below(3) == 0 {
            0
        } else {
            drawn.below(200)
        };
        let from = end.saturating_add(gap);
        end = from.saturating_add(1 + drawn.below(120));
        builder.pause(from, end).ok()?;
    }
    Some(())
}

// An outcome: most fail, one in twelve connects, and one in twelve is silent.
fn draw_outcome(drawn: &mut Drawn) -> Option<Outcome> {
    let duration = 1 + drawn.below(80);
    match drawn.below(12) {
        0 => Some(Outcome::Ok(duration)),
        1 => None,
        _ => Some(Outcome::Fail(duration)),
    }
}

// An outcome of each usable address of the family.
fn draw_outcomes(
    builder: &mut TimelineBuilder<&Refusing>,
    family: Family,
    drawn: &mut Drawn,
) -> Option<()> {
    for number in 0..12 {
        let ip = address(family, number, true);
        if !builder.is_listed(ip) {
            continue;
        }
        if let Some(outcome) = draw_outcome(drawn) {
            builder.outcome(ip, outcome).ok()?;
        }
    }
    Some(())
}

fn draw<'h>(heap: &'h Refusing, drawn: &mut Drawn) -> Option<Timeline<&'h Refusing>> {
    let settings = draw_settings(drawn)?;
    let mut builder = builder(heap, settings, draw_kind(drawn))?;
    match draw_answers(heap, &mut builder, drawn) {
        Some(()) => Some(builder.finish()),
        None => {
            drop(builder);
            None
        }
    }
}

fn draw_settings(drawn: &mut Drawn) -> Option<Settings> {
    let resolution = drawn.below(100);
    let attempt = 10 + drawn.below(60);
    let count = 1 + drawn.below(4);
    let limit = 1 + drawn.below(1_500);
    let settings = Settings::new(resolution, attempt, count, limit).ok()?;
    draw_floor(settings, drawn)
}

// One in three has no floor.
fn draw_floor(settings: Settings, drawn: &mut Drawn) -> Option<Settings> {
    if drawn.below(3) == 0 {
        return Some(settings);
    }
    let above = drawn.below(settings.attempt() - 9);
    settings.with_floor(10 + above).ok()
}

fn draw_kind(drawn: &mut Drawn) -> HostKind {
    match drawn.below(3) {
        0 => HostKind::Usual,
        1 => HostKind::LinkLocal,
        _ => HostKind::WithoutV6,
    }
}

fn draw_answers<'h>(
    heap: &'h Refusing,
    builder: &mut TimelineBuilder<&'h Refusing>,
    drawn: &mut Drawn,
) -> Option<()> {
    draw_answer(heap, builder, Family::V6, drawn)?;
    draw_answer(heap, builder, Family::V4, drawn)?;
    draw_outcomes(builder, Family::V6, drawn)?;
    draw_outcomes(builder, Family::V4, drawn)?;
    draw_pauses(builder, drawn)
}

// The number of attempts of the plan, if it is the plain one.
fn same_plan<'h>(heap: &'h Refusing, timeline: &Timeline<&'h Refusing>) -> Option<usize> {
    let plan = plan(heap, timeline).ok()?;
    if is_plain_plan(heap, timeline, plan.attempts()).ok()? {
        Some(plan.attempts().len())
    } else {
        None
    }
}

fn is_plain_plan<'h>(
    heap: &'h Refusing,
    timeline: &Timeline<&'h Refusing>,
    attempts: &[Attempt],
) -> Result<bool, Memory> {
    let plain = plain_plan(heap, timeline)?;
    Ok(plain.as_slice() == attempts)
}

fn same_seen(timeline: &Timeline<&Refusing>) -> bool {
    for tick in 0..1_000 {
        if timeline.seen(tick) != seen(timeline.pauses(), tick) {
            return false;
        }
    }
    true
}

// The number of attempts of the timeline, if `plan` and `seen` return the plain results.
fn same_attempts<'h>(heap: &'h Refusing, timeline: &Timeline<&'h Refusing>) -> Option<usize> {
    if same_seen(timeline) {
        same_plan(heap, timeline)
    } else {
        None
    }
}

fn same_attempts_of_next(heap: &Refusing, drawn: &mut Drawn) -> Option<usize> {
    let timeline = draw(heap, drawn)?;
    let attempts = same_attempts(heap, &timeline);
    drop(timeline);
    attempts
}

// The number of attempts of the pseudo-random timelines, if all of them are the plain ones.
fn same_attempts_of_all(heap: &Refusing) -> Option<usize> {
    let mut drawn = Drawn(8_305);
    let mut attempts: usize = 0;
    for _ in 0..400 {
        let more = same_attempts_of_next(heap, &mut drawn)?;
        attempts = attempts.saturating_add(more);
    }
    Some(attempts)
}

#[test]
fn drawn_timelines(rt: HostRuntime) {
    let heap = Refusing::new(rt.alloc());
    let attempts = same_attempts_of_all(&heap).unwrap_or(0);
    assert!(rt; attempts > 2_000);
}
