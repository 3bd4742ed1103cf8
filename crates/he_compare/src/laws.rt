//! Laws of comparisons and of groups. Each is the contract of an empty function.
ghost use Rattle.std.specs.Prelude.{◌≡◌, None};
ghost use Rattle.he_timeline.specs.Changes.{changed};
ghost use Rattle.he_timeline.specs.Race.{Race};
ghost use Rattle.he_timeline.specs.Timeline.{IsRace};
ghost use Rattle.he_plan.specs.Transcript.{IsTranscript, Report};
ghost use Rattle.he_compare.specs.Groups.{GroupsAddUp};

use he_plan::laws::one_transcript;

/// The sums of the groups add up to those of all races: the lost time of all files, hours, families or hosts is that
/// of all races.
pub fn groups_add_up()
    ensures { GroupsAddUp }
{}

/// Without changes the two transcripts of a race are equal, so its two lines report one result.
pub fn no_changes_no_difference()
    ensures { (race : Race) (stands other : Report) → IsRace race → IsTranscript race stands
        → IsTranscript (changed (record {
          resolution = None;
          attempt = None;
          count = None;
          limit = None;
          floor = None;
        }) race) other → other ≡ stands }
{
    one_transcript();
}
