// Whether a race's Resolution Delay ended without an AAAA answer.

ghost use Rattle.std.specs.Prelude.{◌≡◌, ◌&&◌, Some};
ghost use Rattle.std.specs.List.{list_any};
ghost use Rattle.he_course.specs.Course.{events_in};
ghost use Rattle.he_course.specs.Events.{comes_by, is_delay_over, is_seen_by, is_waiting, wait_events};

use crate::cause::has_usable;
use crate::collecting::end_tick;
use he_addr::{Family, Ip};
use he_plan::Transcript;
use he_timeline::Timeline;
use std::alloc::Allocator;

/// Whether the client saw, by the end of the race with this transcript, that the Resolution Delay had ended without
/// an AAAA answer (RFC 8305 section 3); the race's course then has that event.
pub fn is_delay_over<A: Allocator, B: Allocator>(
    timeline: &Timeline<A>,
    transcript: &Transcript<B>,
) -> bool
    ensures { result ≡ list_any (λ event. is_delay_over event.kind) (events_in timeline.now transcript.now) }
{
    is_over_by(timeline, end_tick(transcript.result()))
}

fn is_over_by<A: Allocator>(timeline: &Timeline<A>, end: u64) -> bool
    ensures { result ≡ list_any (λ event. is_delay_over event.kind && comes_by end event.tick event.kind)
        (wait_events timeline.now timeline.now.a) }
{
    let Some((tick, ips)) = timeline.answer(Family::V4) else {
        return false;
    };
    if !is_waiting(timeline, tick, ips) {
        return false;
    }
    let over = timeline.seen(tick + timeline.settings().resolution());
    !is_aaaa_seen_by(timeline, over) && over <= end
}

/// Whether the client waits for the AAAA answer after an A answer with these addresses at this tick.
pub(crate) fn is_waiting<A: Allocator>(timeline: &Timeline<A>, tick: u64, ips: &[Ip]) -> bool
    requires { timeline.now.a ≡ Some (record { tick = tick; addresses = ips.now }) }
    ensures { result ≡ is_waiting timeline.now (record { tick = tick; addresses = ips.now }) }
{
    let seen = timeline.seen(tick);
    has_usable(ips)
        && seen < tick + timeline.settings().resolution()
        && !is_aaaa_seen_by(timeline, seen)
}

/// Whether the AAAA answer is seen by the tick.
pub(crate) fn is_aaaa_seen_by<A: Allocator>(timeline: &Timeline<A>, tick: u64) -> bool
    ensures { result ≡ is_seen_by timeline.now tick timeline.now.aaaa }
{
    match timeline.answer(Family::V6) {
        Some((answer, _)) => timeline.seen(answer) <= tick,
        None => false,
    }
}
