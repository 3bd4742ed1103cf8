//! Writing a race with its record.

ghost use Rattle.std.specs.Prelude.{◌≡◌, ◌++◌, IfOk, OnErr, OnOk};
ghost use Rattle.he_inputs.specs.Recorded.{IsRecordedAs};
ghost use Rattle.he_recording.specs.Facts.{facts_said};
ghost use Rattle.he_recording.specs.Recorded.{recorded_text};

use crate::facts::Facts;
use crate::laws::recorded_reads_back;
use crate::making::record_of;
use he_addr::Memory;
use he_record::{Record, write_record};
use he_timeline::Timeline;
use he_write::write_timeline;
use std::alloc::Global;
use std::mem::drop;

/// Appends the text of the record, and then that of the race. After `Memory` the vector is unchanged.
///
/// # Errors
///
/// `Memory` if an allocation fails.
pub fn write_recorded(told: &Record<'_>, race: &Timeline, out: &mut Vec<u8>) -> Result<(), Memory>
    ensures ok { OnOk result (out.new.items ≡ out.old.items ++ recorded_text told.now race.now) }
    ensures err { OnErr result (out.new.items ≡ out.old.items) }
{
    let kept = out.len();
    write_record(told, out)?;
    let written = write_timeline(race, out);
    if written.is_err() {
        out.truncate(kept);
    }
    written
}

/// The text of the race, with the record of the facts before it. It is read as this race with this record.
///
/// # Errors
///
/// `Memory` if an allocation fails.
pub fn text_of(alloc: Global, facts: &Facts<'_>, race: &Timeline) -> Result<Vec<u8>, Memory>
    ensures text { IfOk result (λ text. text.items ≡ recorded_text (facts_said facts.now) race.now) }
    ensures reads { IfOk result (λ text. IsRecordedAs text.items (facts_said facts.now) race.now) }
{
    let told = record_of(alloc, facts)?;
    let mut text = Vec::new(alloc);
    let written = write_recorded(&told, race, &mut text);
    recorded_reads_back(&told, race);
    drop(told);
    written?;
    Ok(text)
}
