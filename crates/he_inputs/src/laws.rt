// Laws of texts that may go on, and of their first faults, each the contract of a function that runs nothing.

ghost use Rattle.std.specs.Prelude.{◌≡◌, ◌⊎◌, ◌↔◌, ◌≤◌, ◌++◌, ℕ, Bool, List, Some, None, MatchOption};
ghost use Rattle.he_timeline.specs.Race.{Race};
ghost use Rattle.he_words.specs.declared.fault.TextKind.{TextKind};
ghost use Rattle.he_inputs.specs.Beginnings.{FaultChanges, FaultStands, MayChange};
ghost use Rattle.he_reading.specs.FaultSearch.{fault_of};
ghost use Rattle.he_inputs.specs.FirstFault.{IsFirstFaultOf};
ghost use Rattle.he_reading.specs.Text.{IsRaceText};
ghost use Rattle.he_inputs.specs.Inputs.{HasRaces};
ghost use Rattle.he_inputs.specs.Plain.{HasNoRecord, without_records};
ghost use Rattle.he_inputs.specs.Recorded.{BeginsRecorded, IsFirstRecordedFault, IsRecordedText, recorded_fault};

use he_reading::laws::begins_where_no_fault;

/// A text begins with one race at most, which ends at one place, its record lines included: if a first part of a text
/// begins with a race, the whole text begins with it. Runs nothing.
pub fn one_race_first()
    ensures { (front rest other_front other_rest : List ℕ) (race other : Race) → IsRecordedText front race
        → IsRecordedText other_front other → front ++ rest ≡ other_front ++ other_rest → (front ≡ other_front)
        × (race ≡ other) }
{}

/// A text begins with a race, maybe after record lines, exactly if it has no fault. Runs nothing.
pub fn begins_recorded_where_no_fault()
    ensures { (text : List ℕ) → BeginsRecorded text ↔ (recorded_fault text ≡ None) }
{
    begins_where_no_fault();
}

/// A fault of a text is the fault of every text that begins with its bytes, unless the text ends inside a race or its
/// record lines, or one more policy row or setting may follow and mend it. Runs nothing.
pub fn faults_stand()
    ensures { (text : List ℕ) (line : ℕ) (kind : TextKind) → recorded_fault text ≡ Some (line, kind)
        → MayChange text line kind ⊎ FaultStands text line kind }
{}

/// If later bytes may mend a fault of a text, some text that begins with its bytes does not have this fault. Runs
/// nothing.
pub fn mendable_faults_change()
    ensures { (text : List ℕ) (line : ℕ) (kind : TextKind) → recorded_fault text ≡ Some (line, kind)
        → MayChange text line kind → FaultChanges text line kind }
{}

/// The fault of a race's text is that of the first check that fails on the first faulty line. All lines above it pass
/// their checks, and no race ends on them. Runs nothing.
pub fn first_faults()
    ensures { (text : List ℕ) (line : ℕ) (kind : TextKind) → (fault_of text ≡ Some (line, kind))
        ↔ IsFirstFaultOf text line kind }
{}

/// The fault of a text is that of its record lines or, if these are right, that of the text after them, with its line
/// counted on. Runs nothing.
pub fn first_recorded_faults()
    ensures { (text : List ℕ) (line : ℕ) (kind : TextKind) → (recorded_fault text ≡ Some (line, kind))
        ↔ IsFirstRecordedFault text line kind }
{}

/// A longer text has no fault on an earlier line than the text's own. Runs nothing.
pub fn faults_come_no_earlier()
    ensures { (text more : List ℕ) (line : ℕ) (kind : TextKind) → recorded_fault text ≡ Some (line, kind)
        → MatchOption (recorded_fault (text ++ more)) (Unit {0}) (λ fault. line ≤ fault.0) }
{}

/// An input without a fault has the same races without its record lines, and no fault. Runs nothing.
pub fn records_change_no_race()
    ensures { (input : List ℕ) (is_broken : Bool) (races : List Race) → HasRaces input is_broken races None
        → HasRaces (without_records input) is_broken races None }
{}

/// A text without record lines has the race and the fault of its race lines (`he_reading`). Runs nothing.
pub fn plain_texts()
    ensures race { (text : List ℕ) (race : Race) → HasNoRecord text → IsRecordedText text race ↔ IsRaceText text race }
    ensures fault { (text : List ℕ) → HasNoRecord text → recorded_fault text ≡ fault_of text }
{}
