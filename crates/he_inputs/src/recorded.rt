// Reading a race with its record lines.

ghost use Rattle.std.specs.Prelude.{◌≡◌, ◌≤◌, ◌^◌, List, length, IfErr, IfOk};
ghost use Rattle.he_timeline.specs.Race.{Race};
ghost use Rattle.he_record.specs.Said.{Said};
ghost use Rattle.he_reading.specs.Text.{IsLineOf};
ghost use Rattle.he_inputs.specs.RaceReadingSteps.{FailsRecorded, ReadsRecorded};
ghost use Rattle.he_inputs.specs.Recorded.{IsRecordedAs};

use he_addr::Memory;
use he_reading::read_first;
use he_record::{Record, read_record};
use he_timeline::Timeline;
use he_words::TextFault;
use std::alloc::Allocator;

// The first race of a text, and its size.
#[derive(Drop)]
pub(crate) struct FirstRace<'t, A: Allocator> {
    // The record lines before the race, maybe none.
    pub(crate) record: Record<'t, A>,
    pub(crate) race: Timeline<A>,
    // The number of bytes after the race.
    pub(crate) left: usize,
    // The number of lines of the race, record lines included.
    pub(crate) lines: u64,
}

// Reads the first race of the text, after its record lines. The fault is that of the first faulty line, counted from
// 1, or `Memory` if an allocation failed.
#[inline(always)]
pub(crate) fn read_recorded<'t, A: Allocator + Copy>(
    alloc: A,
    text: &'t [u8],
) -> Result<FirstRace<'t, A>, TextFault>
    requires { length text.now ≤ 2 ^ 63 }
    ensures read { IfOk result (λ first. ReadsRecorded text.now first.record first.race first.left first.lines) }
    ensures line { IfErr result (λ fault. IsLineOf text.now fault.line) }
    ensures fault { IfErr result (λ fault. FailsRecorded text.now fault.line fault.kind) }
{
    let (record, front) = match read_record(alloc, text) {
        Ok(found) => found,
        Err(fault) => return Err(fault),
    };
    let before = record.lines().len() as u64;
    match read_first(alloc, &text[front..]) {
        Ok((race, left, lines)) => Ok(FirstRace {
            record,
            race,
            left,
            lines: before + lines,
        }),
        Err(fault) => Err(TextFault {
            line: before + fault.line,
            kind: fault.kind,
        }),
    }
}

/// The record lines of a race's text, of which [`RaceStream::text`](crate::RaceStream::text) returns one. The host of
/// a line `record to` is borrowed from the text.
///
/// # Errors
///
/// `Memory` if an allocation failed; also for a text that isn't that of a race.
pub fn record_of<A: Allocator>(alloc: A, text: &[u8]) -> Result<Record<'_, A>, Memory>
    ensures { (said : List Said) (race : Race) → IsRecordedAs text.now said race
        → IfOk result (λ found. found ≡ said) }
{
    match read_record(alloc, text) {
        Ok((found, _len)) => Ok(found),
        Err(_fault) => Err(Memory),
    }
}
