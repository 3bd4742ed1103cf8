// The law of texts without faults, the contract of a function that runs nothing.

ghost use Rattle.std.specs.Prelude.{◌≡◌, ◌↔◌, ℕ, List, None};
ghost use Rattle.he_reading.specs.FaultSearch.{fault_of};
ghost use Rattle.he_reading.specs.Text.{BeginsWithRace};

/// A text begins with a race exactly if it has no fault. Runs nothing.
pub fn begins_where_no_fault()
    ensures { (text : List ℕ) → BeginsWithRace text ↔ (fault_of text ≡ None) }
{}
