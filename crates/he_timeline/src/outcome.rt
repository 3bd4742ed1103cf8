// The outcome of an attempt to connect to an address.

ghost use Rattle.std.specs.Prelude.{◌≡◌};
ghost use Rattle.he_timeline.specs.Timeline.{duration_of};

/// The outcome of an attempt: it connects or fails this number of ticks after its start, 1 to 3,600,000.
#[derive(Clone, Copy, Debug, PartialEq, Eq)]
pub enum Outcome {
    Ok(u64),
    Fail(u64),
}

impl Outcome {
    /// The ticks from the start of the attempt to its finish.
    pub fn duration(self) -> u64
        ensures { result ≡ duration_of self }
    {
        match self {
            Outcome::Ok(duration) => duration,
            Outcome::Fail(duration) => duration,
        }
    }
}
