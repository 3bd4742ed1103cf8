//! The record of a round as a timeline.
ghost use Rattle.std.specs.Prelude.{◌≡◌, IfOk, OnOk};
ghost use Rattle.he_timeline.specs.Building.{unrecorded};
ghost use Rattle.he_timeline.specs.Timeline.{IsRace};
ghost use Rattle.he_probing.specs.Recorded.{with_probe, with_probes};

use he_addr::Memory;
use he_probe::ProbeRow;
use he_timeline::{BuildFault, Timeline, TimelineBuilder};
use std::alloc::Global;

/// The timeline with the outcomes of the probes, and no pauses. An outcome that a timeline can't have is left out: a
/// duration of more than an hour, or one of an address that is in no answer.
///
/// # Errors
///
/// `Memory` if an allocation fails.
pub fn with_probes(
    alloc: Global,
    gathered: &Timeline,
    probes: &[ProbeRow],
) -> Result<Timeline, Memory>
    ensures { IfOk result (λ race. race ≡ with_probes (unrecorded gathered.now) probes.now) }
{
    let mut builder = TimelineBuilder::without_record(alloc, gathered)?;
    for probe in probes {
        add_probe(&mut builder, probe)?;
    }
    Ok(builder.finish())
}

fn add_probe(builder: &mut TimelineBuilder, probe: &ProbeRow) -> Result<(), Memory>
    ensures { OnOk result (builder.new ≡ with_probe builder.old probe.now) }
{
    let Some(outcome) = probe.outcome else {
        return Ok(());
    };
    match builder.outcome(probe.ip, outcome) {
        Err(BuildFault::Memory) => Err(Memory),
        _ => Ok(()),
    }
}
