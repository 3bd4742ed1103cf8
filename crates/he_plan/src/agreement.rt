// Laws of what two races share and of what is kept when a race grows. Each is the contract of a function that does
// nothing.

ghost use Rattle.std.specs.Prelude.{All, ◌≡◌, ℕ, ◌+◌, ◌<◌, ◌≤◌, ◌↔◌, ◌++◌, List, [], ◌∷◌, false, Some, Ok, IsTrue, nat_lt};
ghost use Rattle.std.specs.List.{list_all};
ghost use Rattle.he_addr.specs.declared.ip.Family.{Family};
ghost use Rattle.he_addr.specs.declared.ip.Ip.{Ip};
ghost use Rattle.he_addr.specs.Ip.{same_ip};
ghost use Rattle.he_plan.specs.declared.attempts.Attempt.{Attempt};
ghost use Rattle.he_timeline.specs.declared.outcome.Outcome.{Outcome};
ghost use Rattle.he_plan.specs.Agreement.{AgreeBelow, AreAlike, FailAlike};
ghost use Rattle.he_plan.specs.Attempts.{AreNextInTurn, HaveFailed, MayStart, order_at};
ghost use Rattle.he_timeline.specs.Seen.{IsFree, is_paused, seen};
ghost use Rattle.he_timeline.specs.Building.{add_answer, add_outcome, add_pause, add_rtt, add_used, empty_race, last_end, with_outcome, with_pause};
ghost use Rattle.he_plan.specs.Finish.{known_at};
ghost use Rattle.he_timeline.specs.Race.{outcome_of, Race, has_outcome};
ghost use Rattle.he_timeline.specs.Settings.{IsSettings, SettingValues};
ghost use Rattle.he_timeline.specs.Timeline.{IsRace, duration_of};
ghost use Rattle.he_plan.specs.RaceState.{EndsOne};
ghost use Rattle.he_select.specs.declared.policy.Row.{Row};
ghost use Rattle.he_select.specs.Hosts.{HostLists, IsHost};
ghost use Rattle.he_select.specs.Tables.{IsAdmitted};

/// At a tick at which two races that differ only in outcomes and pauses are both free, an attempt may start in both
/// or in neither, if those before it have all failed in both or in neither; it takes its address from the same list
/// in both.
pub fn starts_at_a_shared_tick()
    ensures starts { (x y : Race) → IsRace x → IsRace y → AreAlike x y → (done : List Attempt) (t : ℕ)
        → HaveFailed x done t ↔ HaveFailed y done t → IsFree x t → IsFree y t → MayStart x done t ↔ MayStart y done t }
    ensures order { (x y : Race) → IsRace x → IsRace y → AreAlike x y → (t : ℕ) → IsFree x t → IsFree y t
        → order_at x t ≡ order_at y t }
{}

/// A race that agrees with another below a tick keeps, below that tick: the starts, and the attempts made, if these
/// have failed below it in both or in neither; the ticks that are seen; and, for an attempt whose address has the
/// same outcome, what is known of it, and so whether it has failed.
pub fn agreement_below_a_tick()
    ensures starts { (tick : ℕ) (x y : Race) → IsRace x → IsRace y → AgreeBelow tick x y → (done : List Attempt)
        → FailAlike tick x y done → (t : ℕ) → t < tick → MayStart x done t ↔ MayStart y done t }
    ensures attempts { (tick : ℕ) (x y : Race) → IsRace x → IsRace y → AgreeBelow tick x y
        → (attempts : List Attempt) → FailAlike tick x y attempts
        → IsTrue (list_all (λ z. nat_lt z.tick tick) attempts) → AreNextInTurn x attempts → AreNextInTurn y attempts }
    ensures seen { (tick : ℕ) (x y : Race) → IsRace x → IsRace y → AgreeBelow tick x y → (k : ℕ) → seen x k < tick
        → seen y k ≡ seen x k }
    ensures known { (tick : ℕ) (x y : Race) → IsRace x → IsRace y → AgreeBelow tick x y
        → (attempt : Attempt) (t : ℕ) → t < tick → outcome_of y attempt.ip ≡ outcome_of x attempt.ip
        → known_at y t attempt ≡ known_at x t attempt }
    ensures failed { (tick : ℕ) (x y : Race) → IsRace x → IsRace y → AgreeBelow tick x y
        → (attempts : List Attempt) → All (λ z. outcome_of y z.ip ≡ outcome_of x z.ip) attempts
        → FailAlike tick x y attempts }
{}

/// One more pause changes nothing below it. The client is away during it, and may act from its end on.
pub fn one_more_pause_above()
    ensures below { (race : Race) (from to : ℕ) → AgreeBelow from race (with_pause race from to) }
    ensures away { (race : Race) (from to t : ℕ) → from ≤ t → t < to
        → IsTrue (is_paused (race.pauses ++ (from, to) ∷ []) t) }
    ensures free { (race : Race) → IsRace race → (t : ℕ) → last_end race.pauses ≤ t → IsFree race t }
{}

/// One more outcome changes no tick that is seen, and affects only its own address.
pub fn one_more_outcome()
    ensures below { (race : Race) (ip : Ip) (outcome : Outcome) (tick : ℕ)
        → AgreeBelow tick race (with_outcome race ip outcome) }
    ensures own { (race : Race) (ip : Ip) (outcome : Outcome) → has_outcome ip race.outcomes ≡ false
        → outcome_of (with_outcome race ip outcome) ip ≡ Some outcome }
    ensures others { (race : Race) (ip other : Ip) (outcome : Outcome) → same_ip ip other ≡ false
        → outcome_of (with_outcome race ip outcome) other ≡ outcome_of race other }
{}

/// The outcome that ends an attempt after the last start keeps the attempts that were made; none of the others ends
/// by it.
pub fn one_more_end()
    ensures attempts { (old new : Race) → IsRace old → IsRace new → (attempts : List Attempt) (x : Attempt)
        → EndsOne old new attempts x → AreNextInTurn old attempts → AreNextInTurn new attempts }
    ensures failed { (old new : Race) → IsRace old → (attempts : List Attempt) (x : Attempt)
        → (is : EndsOne old new attempts x) → AreNextInTurn old attempts
        → FailAlike (x.tick + duration_of is.outcome) old new attempts }
{}

/// An answer, knowledge of an address, an outcome or a pause that the builder accepts leaves a race within its
/// ranges.
pub fn races_grow()
    ensures empty { (settings : SettingValues) (policy : List Row) (host : HostLists) → IsSettings settings
        → IsAdmitted policy → IsHost host → IsRace (empty_race settings policy host) }
    ensures answer { (race new : Race) (family : Family) (tick : ℕ) (addresses : List Ip) → IsRace race
        → add_answer family tick addresses race ≡ Ok new → IsRace new }
    ensures rtt { (race new : Race) (ip : Ip) (rtt : ℕ) → IsRace race → add_rtt ip rtt race ≡ Ok new → IsRace new }
    ensures used { (race new : Race) (ip : Ip) → IsRace race → add_used ip race ≡ Ok new → IsRace new }
    ensures outcome { (race new : Race) (ip : Ip) (outcome : Outcome) → IsRace race
        → add_outcome ip outcome race ≡ Ok new → IsRace new }
    ensures pause { (race new : Race) (from to : ℕ) → IsRace race → add_pause from to race ≡ Ok new → IsRace new }
{}
