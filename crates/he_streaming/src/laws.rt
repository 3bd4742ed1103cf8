//! Laws of the output for an input. Each is the contract of an empty function.
ghost use Rattle.std.specs.Prelude.{◌≡◌, ℕ, Bool, List, Option, Some, true};
ghost use Rattle.he_words.specs.declared.fault.TextFault.{TextFault};
ghost use Rattle.he_inputs.specs.declared.input_fault.InputFault.{InputFault};
ghost use Rattle.he_inputs.specs.declared.input_fault.InputFault.TheVariants.{Text};
ghost use Rattle.he_board.specs.declared.limits.TheConstants.{LEAST_WORKERS, MOST_WORKERS};
ghost use Rattle.he_board.specs.Workers.{least_workers, most_workers};
ghost use Rattle.he_timeline.specs.Changes.{ChangeValues};
ghost use Rattle.he_streaming.specs.declared.race_texts.Content.{Content};
ghost use Rattle.he_streaming.specs.Known.{IsKnown};
ghost use Rattle.he_streaming.specs.Output.{IsOutput, IsTextWith, is_exact};

use he_inputs::inputs::one_input;
use he_inputs::laws::{faults_stand, one_race_first};
use he_plan::laws::one_transcript;

/// An input, and whether it broke off, determine one list of races and one fault, and one output if the content is
/// transcripts or orders.
pub fn one_output()
    ensures { (content : Content) (changes : ChangeValues) (file : Option (List ℕ)) (input : List ℕ) (is_broken : Bool)
        (text other : List ℕ) (fault other_fault : Option InputFault)
        (output : IsOutput (IsTextWith content changes file) input is_broken text fault)
        (same : IsOutput (IsTextWith content changes file) input is_broken other other_fault)
        → (output.races ≡ same.races) × (fault ≡ other_fault) × (is_exact content ≡ true → text ≡ other) }
{
    one_input();
    one_transcript();
    one_race_first();
}

/// A fault of the text is known in one of three ways: the input ended; or each longer input has this output and this
/// fault too; or the input broke off in a policy table or the settings, which have the fault.
pub fn faults_are_known()
    ensures { (content : Content) (changes : ChangeValues) (file : Option (List ℕ)) (input : List ℕ) (is_broken : Bool)
        (text : List ℕ) (fault : TextFault)
        → IsOutput (IsTextWith content changes file) input is_broken text (Some (Text fault))
        → IsKnown (IsTextWith content changes file) input is_broken text fault }
{
    faults_stand();
}

/// The limits are the numbers that the definitions name. `he_words::laws::ranges` has that of the races.
pub fn limits_of_replays()
    ensures least { LEAST_WORKERS ≡ least_workers }
    ensures most { MOST_WORKERS ≡ most_workers }
{}
