//! Laws of the definitions. Each is the contract of a function that does nothing.

ghost use Rattle.std.specs.Prelude.{◌≡◌, ◌≤◌, ◌<◌, ℕ, List, None, length, map};
ghost use Rattle.he_addr.specs.declared.ip.Ip.{Ip};
ghost use Rattle.he_timeline.specs.Race.{Race};
ghost use Rattle.he_timeline.specs.Timeline.{IsRace};
ghost use Rattle.he_plan.specs.Attempts.{AreNextInTurn};
ghost use Rattle.he_plan.specs.Transcript.{IsTranscript, Report};
ghost use Rattle.he_plan.specs.declared.attempts.Attempt.{Attempt};
ghost use Rattle.he_next.specs.Runs.{AreBelow, AreUpTo, IsOver, Runs, State, attempt_of, event_tick, with_started};
ghost use Rattle.he_next.specs.Steps.{action_of, late_start};
ghost use Rattle.he_next.specs.declared.step.Action.TheVariants.{Start, Wait};

/// If the client is not late, an attempt that starts does so at exactly this tick, and a tick to wait for is after
/// it.
pub fn in_time()
    ensures starts { (report : Report) (started now place tick : ℕ) (ip : Ip)
        → late_start report started now ≡ None → action_of report started now ≡ Start place tick ip → tick ≡ now }
    ensures waits { (report : Report) (started now tick : ℕ) → late_start report started now ≡ None
        → action_of report started now ≡ Wait tick → now < tick }
{}

/// A clock may show the same tick for several turns. An event is recorded at its event tick, which is after each start
/// and not before the clock's tick: it is that tick, unless an attempt started at it. After a turn, another one may
/// follow at the same tick.
pub fn same_tick()
    ensures after { (attempts : List Attempt) (now : ℕ) → AreBelow (event_tick attempts now) attempts }
    ensures later { (attempts : List Attempt) (now : ℕ) → now ≤ event_tick attempts now }
    ensures clock { (attempts : List Attempt) (now : ℕ) → AreBelow now attempts → event_tick attempts now ≡ now }
    ensures again { (report : Report) (attempts : List Attempt) (now : ℕ) → AreUpTo now attempts
        → AreUpTo now (with_started attempts (action_of report (length attempts) now)) }
{}

/// In a race that runs by the due steps, at ticks that are not before the last start, whatever is recorded meanwhile,
/// the attempts started are the next ones in turn. Once it is over, they are those of the transcript, which a replay
/// of its record prints.
pub fn runs_are_replayed()
    ensures in_turn { (first : Race) (earlier : List State) (state : State) → IsRace first
        → Runs first earlier state → AreNextInTurn state.race state.attempts }
    ensures replayed { (first : Race) (earlier : List State) (state : State) (report : Report) (now : ℕ)
        → IsRace first → Runs first earlier state → IsTranscript state.race report
        → IsOver report state.attempts now → map attempt_of report.lines ≡ state.attempts }
{}
