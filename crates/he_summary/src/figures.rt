//! The forms of a report, and the numbers that all of them have.
ghost use Rattle.std.specs.Prelude.{◌≡◌, ◌<◌};
ghost use Rattle.he_summary.specs.Figures.{greatest_of, share, total_of};

use he_totals::times::Spread;

/// The form of a report.
#[derive(Clone, Copy, Debug, PartialEq, Eq)]
pub enum Form {
    /// A few lines.
    Text,
    /// One JSON object on one line.
    Json,
    /// The counts and the times as OpenMetrics text.
    Metrics,
}

/// The sum of some numbers; 0 if there are none.
pub fn total_of(spread: Option<Spread>) -> u64
    ensures { result ≡ total_of spread }
{
    match spread {
        Some(spread) => spread.total,
        None => 0,
    }
}

/// The greatest of some numbers; 0 if there are none.
pub fn greatest_of(spread: Option<Spread>) -> u64
    ensures { result ≡ greatest_of spread }
{
    match spread {
        Some(spread) => spread.greatest,
        None => 0,
    }
}

/// The share of `of` in thousandths, rounded to the nearest, at most 1000.
pub fn share(number: u64, of: u64) -> u64
    requires { 0 < of }
    ensures { result ≡ share number of }
{
    let rounded = (2000 * number as u128 + of as u128) / (2 * of as u128);
    rounded.min(1000) as u64
}
