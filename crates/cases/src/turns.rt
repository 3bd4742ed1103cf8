//! The races of an example, each run turn by turn as a future.

ghost use Rattle.std.specs.Prelude.{◌≤◌, length, IfOk};

use crate::resolving::{Heard, is_heard};
use futures::task::{Doorbell, Solo};
use he_addr::Memory;
use he_plan::{Fate, Mark, Transcript, plan};
use he_race::{race_one, run_attempt};
use he_reading::read_race;
use he_record::read_record;
use he_streaming::limits::MOST_RACES;
use he_timeline::Timeline;
use he_words::TextKind;
use he_write::write_transcript;
use std::alloc::Global;
use std::io;
use std::mem::drop;

// The line after a transcript if the fate of an attempt that is run alone differs from its line.
const DIFFERS: &[u8] = b"an attempt differs\n";

// The line if the race differs when its answers come while it runs.
const UNHEARD: &[u8] = b"the race whose answers come differs\n";

/// The transcripts of the text's races up to its first fault, each by `race_one`. If the fate of an attempt that is
/// run alone differs from its line, or the race differs when its answers come while it runs, a line after the
/// transcript reports it.
///
/// # Errors
///
/// An allocation was refused.
pub fn run_turns(rt: &HostRuntime, text: &[u8], heard: &mut Heard) -> io::Result<Vec<u8>> {
    let solo = Solo::new(rt, Doorbell::spinning())?;
    let alloc = rt.alloc();
    let mut written = Vec::new(alloc);
    let mut rest = text;
    for _ in 0..MOST_RACES {
        match run_first(alloc, &solo, rest, &mut written, heard)? {
            Some(behind) => rest = behind,
            None => break,
        }
    }
    Ok(written)
}

// Appends the transcript of the first race, and returns the text after it; None if no race is there.
fn run_first<'a>(
    alloc: Global,
    solo: &Solo,
    text: &'a [u8],
    written: &mut Vec<u8>,
    heard: &mut Heard,
) -> Result<Option<&'a [u8]>, Memory> {
    let race = &text[record_end(alloc, text)?..];
    match read_race(alloc, race, 0) {
        Ok(Some((timeline, end))) => {
            let ran = run_race(alloc, solo, &timeline, written, heard);
            drop(timeline);
            ran.map_err(|_| Memory)?;
            Ok(Some(&race[end..]))
        }
        Ok(None) => Ok(None),
        Err(fault) => match fault.kind {
            TextKind::Memory => Err(Memory),
            _ => Ok(None),
        },
    }
}

// How many bytes the record lines have with which the text begins; 0 where one is wrong, so that no race begins there.
fn record_end(alloc: Global, text: &[u8]) -> Result<usize, Memory>
    ensures { IfOk result (λ end. end ≤ length text.now) }
{
    match read_record(alloc, text) {
        Ok((_record, end)) => Ok(end),
        Err(fault) => match fault.kind {
            TextKind::Memory => Err(Memory),
            _ => Ok(0),
        },
    }
}

fn run_race(
    alloc: Global,
    solo: &Solo,
    timeline: &Timeline,
    written: &mut Vec<u8>,
    heard: &mut Heard,
) -> Result<(), Memory> {
    let transcript = race_one(alloc, timeline)?;
    write_transcript(&transcript, written)?;
    if !are_told(alloc, timeline, &transcript)? {
        written.extend_from_slice(DIFFERS)?;
    }
    if !is_heard(alloc, solo, timeline, &transcript, heard)? {
        written.extend_from_slice(UNHEARD)?;
    }
    Ok(())
}

// Runs each attempt of the race's plan alone, and returns whether the fate of each matches its line in the
// transcript.
fn are_told(alloc: Global, timeline: &Timeline, transcript: &Transcript) -> Result<bool, Memory> {
    let plan = plan(alloc, timeline)?;
    for place in 0..plan.attempts().len() {
        let fate = run_attempt(alloc, timeline, &plan, place)?;
        if let Some(line) = transcript.attempts().get(place)
            && !is_told(fate, line.mark)
        {
            return Ok(false);
        }
    }
    Ok(true)
}

// Whether a transcript has this mark for an attempt of this fate when it is run alone.
fn is_told(fate: Fate, mark: Mark) -> bool {
    match (fate, mark) {
        (Fate::Succeeded(finish), Mark::Won(tick)) => finish == tick,
        (Fate::Failed(finish), Mark::Failed(tick)) => finish == tick,
        (Fate::Succeeded(finish), Mark::Cancelled(stop)) => stop <= finish,
        (Fate::Failed(finish), Mark::Cancelled(stop)) => stop < finish,
        (Fate::Running, Mark::Cancelled(_)) => true,
        _ => false,
    }
}
