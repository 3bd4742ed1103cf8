// Laws of what is due in a running race. Each is the contract of a function that does nothing.

ghost use Rattle.std.specs.Prelude.{◌≡◌, ℕ, ◌-◌, ◌<◌, ◌≤◌, ◌↔◌, List, [], Option, Some, None};
ghost use Rattle.he_plan.specs.declared.attempts.Attempt.{Attempt};
ghost use Rattle.he_plan.specs.declared.finish.Fate.TheVariants.{Succeeded, Failed, Running};
ghost use Rattle.he_timeline.specs.declared.outcome.Outcome.TheVariants as outcomes;
ghost use Rattle.he_plan.specs.Attempts.{HasWaited, MayStart, last_of, order_at};
ghost use Rattle.he_timeline.specs.Seen.{IsFree, IsLeast, IsSeen, seen};
ghost use Rattle.he_plan.specs.Due.{IsAfterTurn, IsDueTick};
ghost use Rattle.he_plan.specs.Finish.{fate_of};
ghost use Rattle.he_timeline.specs.Race.{outcome_of, Race};
ghost use Rattle.he_timeline.specs.Timeline.{IsRace};

/// After a turn no attempt may start before the due tick is seen. One starts there, or later in a further turn; none
/// starts if that tick is not below the limit. There is one due tick.
pub fn starts_when_due()
    ensures no_sooner { (race : Race) → IsRace race → (turn : Option ℕ) (done : List Attempt) (w : ℕ)
        → IsAfterTurn race turn done → IsDueTick race turn done w → (t : ℕ) → MayStart race done t → seen race w ≤ t }
    ensures at { (race : Race) → IsRace race → (turn : Option ℕ) (done : List Attempt) (w : ℕ)
        → IsAfterTurn race turn done → IsDueTick race turn done w → MayStart race done (seen race w)
        → IsLeast (MayStart race done) (seen race w) }
    ensures never { (race : Race) → IsRace race → (turn : Option ℕ) (done : List Attempt) (w : ℕ)
        → IsAfterTurn race turn done → IsDueTick race turn done w → race.settings.limit ≤ seen race w → (t : ℕ)
        → ¬ MayStart race done t }
    ensures one { (race : Race) (turn : Option ℕ) (done : List Attempt) (v w : ℕ) → IsDueTick race turn done v
        → IsDueTick race turn done w → v ≡ w }
{}

/// An attempt that may start at a tick may also start at each later free tick below the limit. It starts after the
/// last attempt, once the wait for that one is over. At a free tick, pauses affect neither whether an attempt may
/// start nor the order of the addresses.
pub fn starts_at_free_ticks()
    ensures free { (race : Race) → IsRace race → (done : List Attempt) (t : ℕ) → MayStart race done t → IsFree race t }
    ensures stay { (race : Race) → IsRace race → (done : List Attempt) (t later : ℕ) → MayStart race done t
        → t ≤ later → IsFree race later → later < race.settings.limit → MayStart race done later }
    ensures waited { (race : Race) (done : List Attempt) (last : Attempt) (t : ℕ) → last_of done ≡ Some last
        → MayStart race done t → HasWaited race done t last }
    ensures later { (race : Race) → IsRace race → (done : List Attempt) (last : Attempt) (t : ℕ)
        → last_of done ≡ Some last → MayStart race done t → last.tick < t }
    ensures own { (race : Race) → IsRace race → (done : List Attempt) (t : ℕ) → IsFree race t
        → MayStart race done t ↔ MayStart (record race { pauses = [] }) done t }
    ensures order { (race : Race) → IsRace race → (t : ℕ) → IsFree race t
        → order_at race t ≡ order_at (record race { pauses = [] }) t }
{}

/// A tick is seen at the least free tick at or after it.
pub fn seen_is_least()
    ensures { (race : Race) → IsRace race → (x : ℕ) → IsSeen race x (seen race x) }
{}

/// An attempt whose outcome ends it at a free tick by the limit finishes there; an attempt to a silent address is
/// still running.
pub fn finishes_at_free_ticks()
    ensures succeeded { (race : Race) → IsRace race → (x : Attempt) (t : ℕ) → IsFree race t → x.tick ≤ t
        → t ≤ race.settings.limit → outcome_of race x.ip ≡ Some (outcomes.Ok (t - x.tick))
        → fate_of race x ≡ Succeeded t }
    ensures failed { (race : Race) → IsRace race → (x : Attempt) (t : ℕ) → IsFree race t → x.tick ≤ t
        → t ≤ race.settings.limit → outcome_of race x.ip ≡ Some (outcomes.Fail (t - x.tick))
        → fate_of race x ≡ Failed t }
    ensures silent { (race : Race) (x : Attempt) → outcome_of race x.ip ≡ None → fate_of race x ≡ Running }
{}
