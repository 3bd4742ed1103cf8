// How a race ends, and how it would have ended with a floor.

ghost use Rattle.std.specs.Prelude.{◌≡◌, None, Some, IfOk, IsTrue};
ghost use Rattle.he_timeline.specs.declared.limits.TheConstants.{MIN_FLOOR};
ghost use Rattle.he_plan.specs.Transcript.{IsTranscript};
ghost use Rattle.he_course.specs.Addresses.{all_attributes_of};
ghost use Rattle.he_course.specs.Beginning.{begins_unfailing, is_failure};
ghost use Rattle.he_course.specs.LeastFloor.{IsSooner, ended_of, ends_sooner, floored, sooner_by, winner_of};

use crate::addresses::transcript_with;
use crate::collecting::end_tick;
use he_addr::Memory;
use he_plan::{Line, Outcome3, Transcript};
use he_select::DestinationAttributes;
use he_timeline::limits::MIN_FLOOR;
use he_timeline::{Changes, Outcome, Timeline};
use std::alloc::Allocator;

/// How a race ended.
#[derive(Clone, Copy, Debug, PartialEq, Eq)]
pub struct Ended {
    pub result: Outcome3,

    /// The attempt that won, if any.
    pub winner: Option<Line>,

    /// The number of attempts.
    pub attempts: usize,
}

impl Ended {
    /// How the race with this transcript ended.
    pub fn of<A: Allocator>(transcript: &Transcript<A>) -> Ended
        ensures { result ≡ ended_of transcript.now }
    {
        let lines = transcript.attempts();
        Ended {
            result: transcript.result(),
            winner: winner_of(lines, transcript.result()),
            attempts: lines.len(),
        }
    }
}

pub(crate) fn winner_of(lines: &[Line], ending: Outcome3) -> Option<Line>
    ensures { result ≡ winner_of lines.now ending }
{
    match ending {
        Outcome3::Won(place, _) => lines.get(place).copied(),
        _ => None,
    }
}

/// How the race ends with the least floor, if it has no floor and that is sooner.
pub(crate) fn end_with_floor<A: Allocator + Copy, B: Allocator, C: Allocator>(
    alloc: A,
    timeline: &Timeline<B>,
    sorted: &[DestinationAttributes],
    transcript: &Transcript<C>,
) -> Result<Option<Ended>, Memory>
    requires { sorted.now ≡ all_attributes_of timeline.now }
    ensures { IsTranscript timeline.now transcript.now → IfOk result (IsSooner timeline.now transcript.now) }
{
    if is_floored(timeline, transcript) {
        return Ok(None);
    }
    let with_floor = floored_transcript(alloc, timeline, sorted)?;
    Ok(sooner_by(timeline, transcript, &with_floor))
}

#[tactic(auto, unfolding(crate::specs::LeastFloor::ends_sooner))]
fn sooner_by<A: Allocator, B: Allocator, C: Allocator>(
    timeline: &Timeline<A>,
    transcript: &Transcript<B>,
    with_floor: &Transcript<C>,
) -> Option<Ended>
    ensures { result ≡ sooner_by timeline.now transcript.now with_floor.now }
{
    let is_sooner = timeline.settings().floor().is_none()
        && end_tick(with_floor.result()) < end_tick(transcript.result());
    if is_sooner {
        Some(Ended::of(with_floor))
    } else {
        None
    }
}

// Whether there is a first attempt, and it does not fail.
fn begins_unfailing<A: Allocator>(timeline: &Timeline<A>, lines: &[Line]) -> bool
    ensures { result ≡ begins_unfailing timeline.now lines.now }
{
    match lines.first() {
        Some(first) => !is_failure(timeline.outcome(first.ip)),
        None => false,
    }
}

fn is_failure(outcome: Option<Outcome>) -> bool
    ensures { result ≡ is_failure outcome }
{
    matches!(outcome, Some(Outcome::Fail(_)))
}

// Whether the transcript is certainly that of the race with a floor too: a floor starts an attempt only if all before
// it have failed, and the first one never fails.
fn is_floored<A: Allocator, B: Allocator>(
    timeline: &Timeline<A>,
    transcript: &Transcript<B>,
) -> bool
    ensures { IsTrue result → IsTranscript timeline.now transcript.now
        → IsTranscript (floored timeline.now) transcript.now }
{
    begins_unfailing(timeline, transcript.attempts())
}

// The transcript of the race with the least floor; its addresses have the same order.
#[tactic(auto, unfolding(crate::specs::Addresses::all_attributes_of))]
fn floored_transcript<A: Allocator + Copy, B: Allocator>(
    alloc: A,
    timeline: &Timeline<B>,
    sorted: &[DestinationAttributes],
) -> Result<Transcript<A>, Memory>
    requires { sorted.now ≡ all_attributes_of timeline.now }
    ensures { IfOk result (IsTranscript (floored timeline.now)) }
{
    let changes = least_floor();
    let race = timeline.copy(alloc)?.with_changes(changes);
    transcript_with(alloc, &race, sorted)
}

fn least_floor() -> Changes
    ensures { result ≡ record { resolution = None; attempt = None; count = None; limit = None; floor = Some MIN_FLOOR } }
{
    Changes::new(None, None, None, None, Some(MIN_FLOOR)).unwrap_or(Changes::none())
}
