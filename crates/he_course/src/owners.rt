// Who owns the ticks of a race.

ghost use Rattle.std.specs.Prelude.{◌≡◌, ◌⊎◌, ◌<◌, ◌≤◌, ◌&&◌, nat_le, nat_lt, ℕ};
ghost use Rattle.he_course.specs.Owners.{is_asleep, is_idle, owner_awake, owner_in, sleeps_in};

/// The shortest pause that counts as this machine's, in ticks.
pub const LEAST_PAUSE: u64 = 5;

/// Who owns a tick of a race.
#[derive(Clone, Copy, Debug, PartialEq, Eq)]
pub enum Owner {
    /// The names: the race waits for an answer, or for the end of the Resolution Delay (RFC 8305 section 3). After the
    /// first start: the Connection Attempt Delay is over, each address that has come was tried, and an answer is to
    /// come.
    Names,

    /// The address of the attempt at this place, which started last.
    Tried(usize),

    /// Each address was tried, that delay is over, and no answer is to come.
    Nobody,

    /// An attempt at an address that the recorded client did not try, so that its outcome is not known.
    Unknown,

    /// This machine: it slept while an attempt, or the end of the race, was due.
    Machine,

    /// The attempt that wins, from its start on.
    Connecting,
}

// A race from one start to the next. Ticks at or after its end, and those that never come, are the end.
#[derive(Clone, Copy, Debug, PartialEq, Eq)]
pub struct Stage {
    // Who owns the ticks, but for those of the names, of nobody and of this machine.
    pub owner: Owner,

    // The tick at which the wait after the last attempt is over.
    pub waited: u64,

    // The tick from which on an address that has come is left.
    pub came: u64,

    // The tick from which on no answer is to come.
    pub answered: u64,

    // The tick at which the next attempt, or the end of the race, is due.
    pub due: u64,
}

impl Stage {
    // Who owns the tick of a race with these pauses.
    pub fn owner_at(self, pauses: &[(u64, u64)], tick: u64) -> Owner
        ensures { result ≡ owner_in pauses.now self tick }
    {
        if self.due <= tick && is_asleep(pauses, tick) {
            Owner::Machine
        } else {
            self.owner_awake(tick)
        }
    }

    fn owner_awake(self, tick: u64) -> Owner
        ensures { result ≡ owner_awake self tick }
    {
        if !self.is_idle(tick) {
            self.owner
        } else if tick < self.answered {
            Owner::Names
        } else {
            Owner::Nobody
        }
    }

    fn is_idle(self, tick: u64) -> bool
        ensures { result ≡ is_idle self tick }
    {
        self.waited <= tick && tick < self.came
    }

    // A later tick, up to which the owner of this one owns all; at most `end`.
    pub fn until(self, pauses: &[(u64, u64)], tick: u64, end: u64) -> u64
        requires { tick < end }
        ensures later { tick < result }
        ensures within { result ≤ end }
        ensures same { (t : ℕ) → tick ≤ t → t < result → owner_in pauses.now self t ≡ owner_in pauses.now self tick }
    {
        let until = self.own_edge(tick, end);
        if self.due <= tick {
            pause_edge(pauses, tick, until)
        } else {
            until
        }
    }

    // The first of the stage's own ticks that is after this one and before `end`; if there is none, the end.
    fn own_edge(self, tick: u64, end: u64) -> u64
        requires { tick < end }
        ensures later { tick < result }
        ensures within { result ≤ end }
        ensures waited { (self.waited ≤ tick) ⊎ (result ≤ self.waited) }
        ensures came { (self.came ≤ tick) ⊎ (result ≤ self.came) }
        ensures answered { (self.answered ≤ tick) ⊎ (result ≤ self.answered) }
        ensures due { (self.due ≤ tick) ⊎ (result ≤ self.due) }
    {
        let waited = edge(tick, self.waited, end);
        let came = edge(tick, self.came, waited);
        let answered = edge(tick, self.answered, came);
        edge(tick, self.due, answered)
    }
}

// The edge, if it is after the tick and before `end`; else the end.
fn edge(tick: u64, edge: u64, end: u64) -> u64
    requires { tick < end }
    ensures later { tick < result }
    ensures within { result ≤ end }
    ensures first { (edge ≤ tick) ⊎ (result ≤ edge) }
{
    if tick < edge && edge < end { edge } else { end }
}

// The first tick after this one and before `end` at which a pause begins or is over; if there is none, the end.
fn pause_edge(pauses: &[(u64, u64)], tick: u64, end: u64) -> u64
    requires { tick < end }
    ensures later { tick < result }
    ensures within { result ≤ end }
    ensures same { (t : ℕ) → tick ≤ t → t < result → is_asleep pauses.now t ≡ is_asleep pauses.now tick }
{
    let mut until = end;
    for pause in pauses {
        until = edge(tick, pause.0, until);
        until = edge(tick, pause.1, until);
    }
    until
}

fn is_asleep(pauses: &[(u64, u64)], tick: u64) -> bool
    ensures { result ≡ is_asleep pauses.now tick }
{
    pauses.iter().any(|pause| sleeps_in(tick, *pause))
}

// Whether the pause is long enough to count, and covers the tick.
fn sleeps_in(tick: u64, pause: (u64, u64)) -> bool
    ensures { result ≡ sleeps_in tick pause }
{
    pause.1.saturating_sub(pause.0) >= LEAST_PAUSE && pause.0 <= tick && tick < pause.1
}
