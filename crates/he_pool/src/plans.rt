//! A list with the plan of each race, if one was made.
ghost use Rattle.std.specs.Prelude.{◌≡◌, ◌<◌, IfSome, List, Some, length, slice_get};
ghost use Rattle.he_plan.specs.Attempts.{AreAttempts};
ghost use Rattle.he_timeline.specs.Race.{Race};
ghost use Rattle.he_pool.specs.Working.{ArePlans};

use he_plan::Plan;
use std::alloc::Allocator;

// Adds the others to the plans. Two plans of one race are equal.
pub(crate) fn join_plans<A: Allocator>(
    plans: &mut Vec<Option<Plan<A>>, A>,
    others: &mut Vec<Option<Plan<A>>, A>,
)
    ensures { (races : List Race) → ArePlans races plans.old.items → ArePlans races others.old.items
        → ArePlans races plans.new.items }
{
    for number in 0..plans.len().min(others.len()) {
        let plan = take_plan(others, number);
        keep_plan(plans, number, plan);
    }
}

// Takes the plan of the race out of the list.
pub(crate) fn take_plan<A: Allocator>(
    plans: &mut Vec<Option<Plan<A>>, A>,
    number: usize,
) -> Option<Plan<A>>
    requires { number < length plans.old.items }
    ensures len { length plans.new.items ≡ length plans.old.items }
    ensures plan { (races : List Race) → ArePlans races plans.old.items → (race : Race)
        → slice_get races number ≡ Some race → IfSome result (AreAttempts race) }
    ensures plans { (races : List Race) → ArePlans races plans.old.items → ArePlans races plans.new.items }
{
    plans[number].take()
}

fn keep_plan<A: Allocator>(
    plans: &mut Vec<Option<Plan<A>>, A>,
    number: usize,
    plan: Option<Plan<A>>,
)
    requires { number < length plans.old.items }
    ensures len { length plans.new.items ≡ length plans.old.items }
    ensures plans { (races : List Race) → ArePlans races plans.old.items → ((race : Race)
        → slice_get races number ≡ Some race → IfSome plan (AreAttempts race)) → ArePlans races plans.new.items }
{
    if plan.is_some() {
        plans[number] = plan;
    }
}
