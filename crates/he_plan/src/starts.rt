// When the next attempt may start (RFC 8305 sections 3 and 5).

ghost use Rattle.std.specs.Prelude.{◌≡◌, ℕ, ◌≤◌, map, IfSome, IfNone};
ghost use Rattle.std.specs.List.{list_any};
ghost use Rattle.he_addr.specs.Ip.{is_usable};
ghost use Rattle.he_timeline.specs.Seen.{IsLeast};
ghost use Rattle.he_plan.specs.Attempts.{MayStart, is_tried, last_of};
ghost use Rattle.he_plan.specs.Finish.{fate_of};
ghost use Rattle.he_plan.specs.Planning.{all_failed, earlier, positive_tick, a_begin_tick, begin_tick, late_tick, start_tick, wait_by, IsLater};
ghost use Rattle.he_timeline.specs.Race.{reply_of};
ghost use Rattle.he_timeline.specs.Timeline.{IsRace};
ghost use Rattle.he_plan.specs.RaceState.{IsQueue};

use crate::attempts::Attempt;
use crate::untried::Untried;
use he_addr::{Family, Ip};
use he_timeline::limits::{MAX_LIMIT, MAX_TICK};
use he_timeline::{Settings, Timeline};
use std::alloc::Allocator;

pub(crate) fn next_tick<A: Allocator, B: Allocator>(
    timeline: &Timeline<A>,
    done: &[Attempt],
    failed: Option<u64>,
    queue: &Untried<B>,
) -> Option<u64>
    requires range { IfSome (last_of done.now) (λ last. last.tick ≤ MAX_LIMIT) }
    requires failed { failed ≡ all_failed (map (fate_of timeline.now) done.now) }
    requires queue { IsQueue timeline.now done.now queue.now }
    ensures some { IfSome result (IsLeast (MayStart timeline.now done.now)) }
    ensures none { IfNone result ((t : ℕ) → ¬ MayStart timeline.now done.now t) }
    ensures race { IsRace timeline.now }
{
    let limit = timeline.settings().limit();
    let Some(from) = start_tick(timeline, done, failed, queue) else {
        return None;
    };
    let tick = timeline.seen(from);
    if tick < limit { Some(tick) } else { None }
}

// If the queue has an address, it was received by the last start, so the attempt waits only for the delay after that
// start. If it has none, the attempt waits for an answer that was not received then. `failed` is the latest failure,
// if every attempt failed.
fn start_tick<A: Allocator, B: Allocator>(
    timeline: &Timeline<A>,
    done: &[Attempt],
    failed: Option<u64>,
    queue: &Untried<B>,
) -> Option<u64>
    requires range { IfSome (last_of done.now) (λ last. last.tick ≤ MAX_LIMIT) }
    requires failed { failed ≡ all_failed (map (fate_of timeline.now) done.now) }
    requires queue { IsQueue timeline.now done.now queue.now }
    ensures { result ≡ start_tick timeline.now done.now }
{
    let Some(last) = done.last() else {
        return begin_tick(timeline);
    };
    let from = wait_end(timeline.settings(), failed, last.tick);
    if queue.is_empty() {
        return earlier(
            late_tick(timeline, Family::V6, queue.v6, from),
            late_tick(timeline, Family::V4, queue.v4, from),
        );
    }
    Some(from)
}

// The end of the Connection Attempt Delay after the last start (RFC 8305 section 5); with a floor, if every attempt
// failed, the end of the floor, but not before the latest failure.
fn wait_end(settings: Settings, failed: Option<u64>, start: u64) -> u64
    requires { start ≤ MAX_LIMIT }
    ensures { result ≡ wait_by settings.floor failed start settings.attempt }
{
    let attempt_delay_end = start + settings.attempt();
    match (settings.floor(), failed) {
        (Some(floor), Some(failed)) => attempt_delay_end.min((start + floor).max(failed)),
        _ => attempt_delay_end,
    }
}

// The tick at which the race begins: with a positive AAAA answer, or with a positive A answer once the AAAA answer
// has come or the Resolution Delay has passed (RFC 8305 section 3).
fn begin_tick<A: Allocator>(timeline: &Timeline<A>) -> Option<u64>
    ensures { result ≡ begin_tick timeline.now }
{
    let v4 = match positive_tick(timeline, Family::V4) {
        Some(tick) => Some(a_begin_tick(timeline, tick)),
        None => None,
    };
    earlier(positive_tick(timeline, Family::V6), v4)
}

// The tick from which an A answer at `tick` begins a race.
fn a_begin_tick<A: Allocator>(timeline: &Timeline<A>, tick: u64) -> u64
    requires { tick ≤ MAX_TICK }
    ensures { result ≡ a_begin_tick timeline.now.settings.resolution timeline.now.aaaa tick }
{
    let resolution_delay_end = tick + timeline.settings().resolution();
    match timeline.answer(Family::V6) {
        Some((aaaa, _)) => resolution_delay_end.min(tick.max(aaaa)),
        None => resolution_delay_end,
    }
}

fn positive_tick<A: Allocator>(timeline: &Timeline<A>, family: Family) -> Option<u64>
    ensures value { result ≡ positive_tick (reply_of timeline.now family) }
    ensures range { IfSome result (λ tick. tick ≤ MAX_TICK) }
{
    match timeline.answer(family) {
        Some((tick, ips)) if has_usable(ips) => Some(tick),
        _ => None,
    }
}

fn late_tick<A: Allocator>(
    timeline: &Timeline<A>,
    family: Family,
    included: bool,
    from: u64,
) -> Option<u64>
    ensures { result ≡ late_tick included from (reply_of timeline.now family) }
{
    if included {
        return None;
    }
    match positive_tick(timeline, family) {
        Some(tick) => Some(from.max(tick)),
        None => None,
    }
}

fn earlier(x: Option<u64>, y: Option<u64>) -> Option<u64>
    ensures { result ≡ earlier x y }
{
    match (x, y) {
        (Some(x), Some(y)) => Some(x.min(y)),
        (Some(x), None) => Some(x),
        (None, y) => y,
    }
}

fn has_usable(ips: &[Ip]) -> bool
    ensures { result ≡ list_any is_usable ips.now }
{
    ips.iter().any(|ip| ip.is_usable())
}
