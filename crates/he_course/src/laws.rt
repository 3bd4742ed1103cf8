// Laws of the definitions. Each is the contract of an empty function.

ghost use Rattle.he_course.specs.Accounts.{EachTickHasAnOwner, OwnersBalance, TimesAddUp};
ghost use Rattle.he_course.specs.Amounts.{ChargesAddUp};
ghost use Rattle.he_course.specs.Laws.{CausesStand, CourseStands, DuesStand, FloorsStand, LinesStand, OneRuleDecides, PlacesStand, StartsStand, WaitsStand};

/// Exactly one rule decides between two members of a list: the rule that is reported of their addresses.
pub fn one_rule_decides()
    ensures { OneRuleDecides }
{}

/// The cause of an attempt holds at the attempt's tick and at no earlier one; the tick at which it was due is seen at
/// the attempt's tick. The cause is that all attempts so far have failed exactly if the floor starts the attempt,
/// before the Connection Attempt Delay is over.
pub fn causes_stand()
    ensures causes { CausesStand }
    ensures dues { DuesStand }
    ensures floors { FloorsStand }
{}

/// An attempt's address is at the place that is reported of it, and all addresses before it in that list were tried.
pub fn places_stand()
    ensures { PlacesStand }
{}

/// A course has the events of its race up to the end, by tick.
pub fn course_stands()
    ensures { CourseStands }
{}

/// The starts of a course are those of the race's attempts, each with its cause after the attempts before it.
pub fn starts_stand()
    ensures { StartsStand }
{}

/// Each attempt of a transcript has exactly one start among the events of a course, at its tick and to its address,
/// and exactly one end, which its mark gives.
pub fn lines_stand()
    ensures { LinesStand }
{}

/// A course has a wait for the AAAA answer exactly if the wait made the first attempt start later.
pub fn waits_stand()
    ensures { WaitsStand }
{}

/// Each tick of a race has exactly one owner, so what they have is together the tick at which the race ended.
pub fn accounts_balance()
    ensures one { EachTickHasAnOwner }
    ensures whole { OwnersBalance }
    ensures times { TimesAddUp }
{}

/// Over many races, what each address, host, hour or family is charged adds up to what all accounts have.
pub fn charges_add_up()
    ensures { ChargesAddUp }
{}
