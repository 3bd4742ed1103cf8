//! Times, counted by their lengths.
ghost use Rattle.std.specs.Prelude.{ℕ, ◌≡◌, ◌≤◌, ◌∷◌, [], List, nat_le, if◌then◌else◌};
ghost use Rattle.he_metrics.specs.Histograms.{Shows, more_up_to};

/// Times in milliseconds, counted by their lengths. Each bucket has the number of times that are at most its bound, so
/// a time counts in each bucket from the first that it fits in.
#[derive(Clone, Copy)]
pub struct Histogram {
    pub ms_5: u64,
    pub ms_10: u64,
    pub ms_25: u64,
    pub ms_50: u64,
    pub ms_100: u64,
    pub ms_250: u64,
    pub ms_500: u64,
    pub ms_1000: u64,
    pub ms_2500: u64,
    pub ms_5000: u64,
    pub ms_10000: u64,
    /// The number of all times.
    pub count: u64,
    /// Their sum.
    pub sum: u64,
}

impl Histogram {
    /// No times.
    pub const NONE: Histogram = Histogram {
        ms_5: 0,
        ms_10: 0,
        ms_25: 0,
        ms_50: 0,
        ms_100: 0,
        ms_250: 0,
        ms_500: 0,
        ms_1000: 0,
        ms_2500: 0,
        ms_5000: 0,
        ms_10000: 0,
        count: 0,
        sum: 0,
    };

    /// Adds a time of this number of milliseconds.
    pub fn add(&mut self, millis: u64)
        ensures { (seen : List ℕ) → Shows seen self.old → Shows (millis ∷ seen) self.new }
    {
        *self = self.with(millis);
    }

    fn with(&self, millis: u64) -> Histogram
        ensures { (seen : List ℕ) → Shows seen self.now → Shows (millis ∷ seen) result }
    {
        Histogram {
            ms_5: more_up_to(self.ms_5, millis, 5),
            ms_10: more_up_to(self.ms_10, millis, 10),
            ms_25: more_up_to(self.ms_25, millis, 25),
            ms_50: more_up_to(self.ms_50, millis, 50),
            ms_100: more_up_to(self.ms_100, millis, 100),
            ms_250: more_up_to(self.ms_250, millis, 250),
            ms_500: more_up_to(self.ms_500, millis, 500),
            ms_1000: more_up_to(self.ms_1000, millis, 1_000),
            ms_2500: more_up_to(self.ms_2500, millis, 2_500),
            ms_5000: more_up_to(self.ms_5000, millis, 5_000),
            ms_10000: more_up_to(self.ms_10000, millis, 10_000),
            count: self.count.saturating_add(1),
            sum: self.sum.saturating_add(millis),
        }
    }
}

// The count of a bucket, with this time.
fn more_up_to(count: u64, millis: u64, bound: u64) -> u64
    ensures { result ≡ more_up_to count millis bound }
{
    if millis <= bound {
        count.saturating_add(1)
    } else {
        count
    }
}

/// Proves that [`Histogram::NONE`] has no times. Does nothing when run.
pub fn none_shows_nothing() -> Histogram
    ensures { Shows [] result }
{
    Histogram::NONE
}
