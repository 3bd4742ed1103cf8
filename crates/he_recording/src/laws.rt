//! Laws of written records, each the contract of a function that changes nothing.

ghost use Rattle.std.specs.Prelude.{◌≡◌, [], List};
ghost use Rattle.he_inputs.specs.Recorded.{IsRecordedAs, IsRecordedText};
ghost use Rattle.he_record.specs.Said.{Said};
ghost use Rattle.he_record.specs.Text.{IsRecord};
ghost use Rattle.he_recording.specs.Added.{added};
ghost use Rattle.he_recording.specs.Recorded.{recorded_text};

use he_record::Record;
use he_record::laws::record_reads_back;
use he_text::laws::timeline_reads_back;
use he_timeline::Timeline;

/// The text that is written for a race with a record is read as this race with this record. Runs nothing.
pub fn recorded_reads_back(told: &Record<'_>, race: &Timeline)
    ensures says { IsRecordedAs (recorded_text told.now race.now) told.now race.now }
    ensures text { IsRecordedText (recorded_text told.now race.now) race.now }
{
    record_reads_back(told);
    timeline_reads_back(race);
}

/// If lines together are a record, none of them is left out. Runs nothing.
pub fn records_lose_nothing()
    ensures { (said : List Said) → IsRecord said → added [] said ≡ said }
{}
