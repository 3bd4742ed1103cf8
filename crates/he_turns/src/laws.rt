// A law of the effects of one more answer, as the contract of a function that does nothing.

ghost use Rattle.std.specs.Prelude.{◌≡◌, ℕ, ◌<◌, ◌≤◌, ◌↔◌, List, None, Some, IsTrue, nat_lt};
ghost use Rattle.std.specs.List.{list_all};
ghost use Rattle.he_addr.specs.declared.ip.Family.{Family};
ghost use Rattle.he_plan.specs.declared.attempts.Attempt.{Attempt};
ghost use Rattle.he_plan.specs.Attempts.{AreNextInTurn, MayStart, order_at};
ghost use Rattle.he_timeline.specs.Race.{Race, reply_of};
ghost use Rattle.he_timeline.specs.Timeline.{IsRace};
ghost use Rattle.he_turns.specs.Heard.{AnswerLists, with_told};

/// One more answer, with the history of its addresses and its sources and routes, changes nothing before its tick:
/// neither the ticks at which an attempt may start, nor the list from which it takes its address, nor the attempts
/// made.
pub fn one_more_answer_above()
    ensures starts { (race : Race) (family : Family) (now : ℕ) (answer : AnswerLists) → IsRace race
        → reply_of race family ≡ None → (done : List Attempt) (t : ℕ) → t < now → MayStart race done t
        ↔ MayStart (with_told race family now (Some answer)) done t }
    ensures order { (race : Race) (family : Family) (now : ℕ) (answer : AnswerLists) → IsRace race
        → reply_of race family ≡ None → (t : ℕ) → t < now → order_at race t
        ≡ order_at (with_told race family now (Some answer)) t }
    ensures attempts { (race : Race) (family : Family) (now : ℕ) (answer : AnswerLists) → IsRace race
        → reply_of race family ≡ None → (attempts : List Attempt)
        → IsTrue (list_all (λ x. nat_lt x.tick now) attempts) → AreNextInTurn race attempts
        → AreNextInTurn (with_told race family now (Some answer)) attempts }
{}
