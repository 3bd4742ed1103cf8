//! The race of a connection before its start.
ghost use Rattle.std.specs.Prelude.{◌≡◌, ◌++◌, ◌∷◌, [], IfOk, None, codes, false};
ghost use Rattle.he_timeline.specs.Building.{empty_race};
ghost use Rattle.he_inputs.specs.Inputs.{HasRaces};
ghost use Rattle.he_setup.specs.Start.{Starts, lines_text, with_families};

use crate::fault::ConnectFault;
use crate::request::Families;
use he_addr::Family;
use he_inputs::read_one_race;
use he_timeline::limits::{DEFAULT_ATTEMPT, DEFAULT_COUNT, DEFAULT_LIMIT, DEFAULT_RESOLUTION};
use he_timeline::{Settings, Timeline, TimelineBuilder};
use std::alloc::Global;
use std::mem::drop;

/// The race with these settings, the lines' sources, routes and policy rows, the standard policy table if there are
/// no policy rows, and, for a family that isn't tried, an empty answer at tick 0.
///
/// # Errors
///
/// `Lines` with the first wrong line, `OtherLines` if there are lines other than source, route and policy lines,
/// `Memory`.
pub fn start_race(
    alloc: Global,
    settings: Settings,
    families: Families,
    lines: &[u8],
) -> Result<Timeline, ConnectFault>
    ensures { IfOk result (Starts lines.now settings families) }
{
    let base = read_lines(alloc, lines)?;
    let started = start_with(alloc, settings, families, &base);
    drop(base);
    started
}

// The race with the machine and the policy of another one.
fn start_with(
    alloc: Global,
    settings: Settings,
    families: Families,
    base: &Timeline,
) -> Result<Timeline, ConnectFault>
    ensures { IfOk result (λ race. race ≡ with_families families
        (empty_race settings base.now.policy base.now.host)) }
{
    let policy = base.policy().copy(alloc)?;
    let host = base.host().copy(alloc)?;
    let mut builder = TimelineBuilder::new(alloc, settings, policy, host);
    let without = match families {
        Families::Both => return Ok(builder.finish()),
        Families::Only(Family::V6) => Family::V4,
        Families::Only(Family::V4) => Family::V6,
    };
    match builder.answer(without, 0, &[]) {
        Ok(()) => Ok(builder.finish()),
        Err(_) => {
            drop(builder);
            Err(ConnectFault::Memory)
        }
    }
}

// The race of these lines.
fn read_lines(alloc: Global, lines: &[u8]) -> Result<Timeline, ConnectFault>
    ensures { IfOk result (λ base. HasRaces (lines_text lines.now) false (base ∷ []) None) }
{
    let mut text = Vec::new(alloc);
    text.extend_from_slice(b"race 1\n")?;
    text.extend_from_slice(lines)?;
    text.extend_from_slice(b"end\n")?;
    let base = read_one_race(alloc, &text, false)?;
    if has_others(&base) {
        drop(base);
        Err(ConnectFault::OtherLines)
    } else {
        Ok(base)
    }
}

// Whether the lines of a race have more than its machine and its policy. Outcomes and history come only with an
// answer.
fn has_others(base: &Timeline) -> bool {
    let settings = base.settings();
    settings.resolution() != DEFAULT_RESOLUTION
        || settings.attempt() != DEFAULT_ATTEMPT
        || settings.count() != DEFAULT_COUNT
        || settings.limit() != DEFAULT_LIMIT
        || base.answer(Family::V6).is_some()
        || base.answer(Family::V4).is_some()
        || !base.pauses().is_empty()
}
