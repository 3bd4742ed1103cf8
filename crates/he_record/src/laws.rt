// Laws of record lines, each the contract of a function that runs nothing.

ghost use Rattle.std.specs.Prelude.{◌≡◌, ◌≢◌, ◌↔◌, ◌≤◌, ◌+◌, ◌++◌, ℕ, List, length, true, false, Ok, Err};
ghost use Rattle.he_timeline.specs.Race.{Race};
ghost use Rattle.he_words.specs.declared.fault.TextKind.{TextKind};
ghost use Rattle.he_words.specs.declared.fault.TextKind.TheVariants as kinds;
ghost use Rattle.he_words.specs.Ranges.{most_u16};
ghost use Rattle.he_reading.specs.Parts.{lines_of, tokens_of};
ghost use Rattle.he_reading.specs.Text.{IsRaceText};
ghost use Rattle.he_record.specs.declared.limits.TheConstants.{MAX_PORT, MIN_PORT, MOST_HOST_BYTES, MOST_ONCE, MOST_PREFIXES, MOST_SERVERS, MOST_TOLD};
ghost use Rattle.he_record.specs.Forms.{is_record_line, said_in};
ghost use Rattle.he_record.specs.FrontSearch.{front_from, front_of};
ghost use Rattle.he_record.specs.Fronts.{BeginsWithRecord, IsRecordFault, goes_on};
ghost use Rattle.he_record.specs.Ranges.{least_port, most_host_bytes, most_once, most_prefixes, most_servers, most_told};
ghost use Rattle.he_record.specs.Said.{Said};
ghost use Rattle.he_record.specs.Text.{IsRecord, IsRecordText, Says};
ghost use Rattle.he_record.specs.Written.{record_text};

use crate::records::Record;
use std::alloc::Allocator;

/// The constants of `limits` are the numbers of the definitions (`specs/Ranges`). Runs nothing.
pub fn ranges()
    ensures ports { (MIN_PORT ≡ least_port) × (MAX_PORT ≡ most_u16) }
    ensures hosts { MOST_HOST_BYTES ≡ most_host_bytes }
    ensures lines { (MOST_ONCE ≡ most_once) × (MOST_PREFIXES ≡ most_prefixes) × (MOST_SERVERS ≡ most_servers)
        × (MOST_TOLD ≡ most_told) }
{}

/// A record line means the contents of its form, with its tokens checked from left to right. Runs nothing.
pub fn record_lines_say()
    ensures says { (line : List ℕ) (said : Said) → is_record_line (tokens_of line) ≡ true → said_in line ≡ Ok said
        → Says line said }
    ensures read { (line : List ℕ) (said : Said) → Says line said
        → (is_record_line (tokens_of line) ≡ true) × (said_in line ≡ Ok said) }
{}

/// The search finds the record with which a text begins, and no other. Runs nothing.
pub fn fronts_are_records()
    ensures { (text : List ℕ) (said : List Said) (left : List (List ℕ))
        → (front_of text ≡ Ok (record { said = said; left = left })) ↔ BeginsWithRecord text said left }
{}

/// The fault of a text's record is that of the first check that fails on the first faulty record line. Runs nothing.
pub fn first_record_faults()
    ensures { (text : List ℕ) (line : ℕ) (kind : TextKind)
        → (front_of text ≡ Err (line, kind)) ↔ IsRecordFault text line kind }
{}

/// The lines of a record are read alike, whatever follows them. Runs nothing.
pub fn records_pass()
    ensures { (text more : List ℕ) (said : List Said) → IsRecordText text said
        → front_of (text ++ more) ≡ front_from (length said + 1) said (lines_of more) }
{}

/// A fault of a record line is a fault of every text that begins with these bytes, unless the text ends inside the
/// line. Runs nothing.
pub fn record_faults_stand()
    ensures { (text more : List ℕ) (line : ℕ) (kind : TextKind) → front_of text ≡ Err (line, kind)
        → kind ≢ kinds.Unfinished → front_of (text ++ more) ≡ Err (line, kind) }
{}

/// An unfinished record ends in the last line of its text. Runs nothing.
pub fn unfinished_records_end()
    ensures { (text : List ℕ) (line : ℕ) → front_of text ≡ Err (line, kinds.Unfinished)
        → line ≡ length (lines_of text) }
{}

/// A longer text has no fault on an earlier record line. Runs nothing.
pub fn record_faults_come_no_earlier()
    ensures { (text more : List ℕ) (line later : ℕ) (kind other : TextKind) → front_of text ≡ Err (line, kind)
        → front_of (text ++ more) ≡ Err (later, other) → line ≤ later }
{}

/// No text of a race begins with a record line. Runs nothing.
pub fn races_are_no_records()
    ensures { (text more : List ℕ) (race : Race) → IsRaceText text race → goes_on (lines_of (text ++ more)) ≡ false }
{}

/// A text is a text of one record at most. Runs nothing.
pub fn one_record()
    ensures { (text : List ℕ) (said other : List Said) → IsRecordText text said → IsRecordText text other
        → said ≡ other }
{}

/// The text written for a record is a text of this record: it reads back as this record, whatever race follows it.
/// Runs nothing.
pub fn written_records_read_back()
    ensures { (said : List Said) → IsRecord said → IsRecordText (record_text said) said }
{}

/// `read_record` reads the text that `write_record` appends for this record as an equal record. Reads the record and
/// changes nothing.
pub fn record_reads_back<A: Allocator>(told: &Record<'_, A>)
    ensures { IsRecordText (record_text told.now) told.now }
{
    let _lines = told.lines();
}
