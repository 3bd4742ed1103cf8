//! The record of a race whose client left before it ended.
ghost use Rattle.std.specs.Prelude.{◌≡◌, IfOk, IfSome, map};
ghost use Rattle.std.specs.Cmp.Lexicographic.{pointwise};
ghost use Rattle.he_history.specs.GivenUp.{IsGivenUp, are_same, same_start, start_of};

use he_addr::{Ip, Memory};
use he_plan::{BuildFault, Changes, Line, Timeline, TimelineBuilder, Transcript, transcript_of};
use std::alloc::Global;
use std::mem::drop;

/// A race that was given up, as it is recorded.
#[derive(Drop)]
pub struct GivenUp {
    pub recorded: Timeline,
    pub transcript: Transcript,
}

/// The record of a race that was given up at `tick`, where `recorded` and `transcript` go on to the race's limit
/// without a turn: its limit is the tick, and it lacks the client's last pause, from the last turn to the old limit.
/// None if it does not replay to the attempts that were made.
///
/// # Errors
///
/// `Memory` if an allocation fails.
pub fn given_up_at(
    alloc: Global,
    recorded: &Timeline,
    transcript: &Transcript,
    tick: u64,
) -> Result<Option<GivenUp>, Memory>
    ensures { IfOk result (λ kept. IfSome kept (IsGivenUp tick transcript.now.lines)) }
{
    let Ok(changes) = Changes::new(None, None, None, Some(tick), None) else {
        return Ok(None);
    };
    let recorded = match without_last_pause(alloc, recorded) {
        Ok(recorded) => recorded.with_changes(changes),
        Err(BuildFault::Memory) => return Err(Memory),
        Err(_) => return Ok(None),
    };
    let replayed = transcript_of(alloc, &recorded)?;
    if !are_same(alloc, replayed.attempts(), transcript.attempts())? {
        drop(recorded);
        drop(replayed);
        return Ok(None);
    }
    Ok(Some(GivenUp {
        recorded,
        transcript: replayed,
    }))
}

// The record without the last pause of its client.
fn without_last_pause(alloc: Global, recorded: &Timeline) -> Result<Timeline, BuildFault> {
    let Ok(mut builder) = TimelineBuilder::without_record(alloc, recorded) else {
        return Err(BuildFault::Memory);
    };
    for (ip, outcome) in recorded.outcomes() {
        builder.outcome(*ip, *outcome)?;
    }
    let pauses = recorded.pauses();
    for (from, to) in &pauses[..pauses.len().saturating_sub(1)] {
        builder.pause(*from, *to)?;
    }
    Ok(builder.finish())
}

// Whether the lines have equal attempts.
fn are_same(alloc: Global, lines: &[Line], others: &[Line]) -> Result<bool, Memory>
    ensures { IfOk result (λ same. same ≡ are_same lines.now others.now) }
{
    let (starts, wanted) = (starts_of(alloc, lines)?, starts_of(alloc, others)?);
    Ok(same_starts(&starts, &wanted))
}

fn starts_of(alloc: Global, lines: &[Line]) -> Result<Vec<(Ip, u64)>, Memory>
    ensures { IfOk result (λ starts. starts.items ≡ map start_of lines.now) }
{
    lines.iter().map(|line| (line.ip, line.tick)).collect(alloc)
}

fn same_starts(x: &[(Ip, u64)], y: &[(Ip, u64)]) -> bool
    ensures { result ≡ pointwise same_start x.now y.now }
{
    x == y
}
