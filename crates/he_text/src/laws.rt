// Laws of the texts of races. Each is the contract of an empty function.

ghost use Rattle.std.specs.Prelude.{◌≡◌, ◌++◌, ℕ, List, [], Bool, Ok};
ghost use Rattle.he_addr.specs.declared.ip.Ip.{Ip};
ghost use Rattle.he_timeline.specs.Race.{Race};
ghost use Rattle.he_timeline.specs.Timeline.{IsRace};
ghost use Rattle.he_text.specs.InRange.{RaceInRange};
ghost use Rattle.he_reading.specs.Forms.{said_in};
ghost use Rattle.he_reading.specs.Said.{Said, Ended};
ghost use Rattle.he_reading.specs.Text.{Says, IsAllowed, IsRaceText};
ghost use Rattle.he_write.specs.Written.{timeline_text};

use crate::ranges::timeline_range;
use he_addr::Family;
pub use he_inputs::laws::{
    begins_recorded_where_no_fault, faults_come_no_earlier, faults_stand, first_faults,
    first_recorded_faults, mendable_faults_change, one_race_first, plain_texts,
    records_change_no_race,
};
pub use he_reading::laws::begins_where_no_fault;
use he_timeline::Timeline;
pub use he_words::laws::ranges;
use std::alloc::Allocator;

/// A text is a race's with at most one value. Runs nothing.
pub fn one_race()
    ensures { (text : List ℕ) (race other : Race) → IsRaceText text race → IsRaceText text other → race ≡ other }
{}

/// No race's text is the beginning of another race's text. Runs nothing.
pub fn no_race_is_a_prefix()
    ensures { (text more : List ℕ) (race other : Race) → IsRaceText text race → IsRaceText (text ++ more) other
        → more ≡ [] }
{}

/// The parts that the reader gets from a line, its tokens checked from left to right, are those that the grammar
/// gives it, unless the line ends the race. Runs nothing.
pub fn lines_say()
    ensures says { (known : Ip → Bool) (line : List ℕ) (said : Said) → said_in known line ≡ Ok said
        → (said ≡ Ended → ⊥) → Says line said × IsAllowed known said }
    ensures read { (known : Ip → Bool) (line : List ℕ) (said : Said) → Says line said → IsAllowed known said
        → said_in known line ≡ Ok said }
{}

/// The written text of a race is a text of this race, so it is read as this race, whatever follows it. Runs nothing.
pub fn written_reads_back()
    ensures { (race : Race) → IsRace race → RaceInRange race → IsRaceText (timeline_text race) race }
{}

/// The lines that `write_timeline` appends are read back by `read_race` as an equal timeline, whatever follows it.
/// Looks at the timeline's parts and changes nothing.
pub fn timeline_reads_back<A: Allocator + Copy>(timeline: &Timeline<A>)
    ensures { IsRaceText (timeline_text timeline.now) timeline.now }
{
    timeline_range(timeline);
    let _race = timeline.answer(Family::V6);
}
