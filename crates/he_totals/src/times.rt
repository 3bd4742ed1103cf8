//! Percentiles of numbers of races, such as times to connect.
ghost use Rattle.std.specs.Prelude.{◌≡◌, ◌<◌, ◌≤◌, length, IsSorted};
ghost use Rattle.std.specs.Ordering.{nat_cmp};
ghost use Rattle.he_totals.specs.Times.{IsPercentile, IsSpread, total};

use std::alloc::Allocator;

/// A summary of numbers: their count, their sum (at most 2^64 - 1), and the least numbers within which 50, 90, 99 and
/// 100 percent of them lie.
#[derive(Clone, Copy, Debug, PartialEq, Eq)]
pub struct Spread {
    pub count: u64,
    pub total: u64,
    pub median: u64,
    pub p90: u64,
    pub p99: u64,
    pub greatest: u64,
}

/// The summary of these numbers; None if there are none. Sorts them.
pub fn spread_of<A: Allocator>(numbers: &mut Vec<u64, A>) -> Option<Spread>
    ensures { IsSpread numbers.old.items result }
{
    numbers.sort_unstable();
    spread_of_sorted(numbers.as_slice())
}

fn spread_of_sorted(sorted: &[u64]) -> Option<Spread>
    requires { IsSorted nat_cmp sorted.now }
    ensures { IsSpread sorted.now result }
{
    if sorted.is_empty() {
        return None;
    }
    Some(Spread {
        count: sorted.len() as u64,
        total: total(sorted),
        median: percentile(sorted, 50),
        p90: percentile(sorted, 90),
        p99: percentile(sorted, 99),
        greatest: percentile(sorted, 100),
    })
}

fn total(numbers: &[u64]) -> u64
    ensures { result ≡ total numbers.now }
{
    let mut sum = 0u64;
    for number in numbers {
        sum = sum.saturating_add(*number);
    }
    sum
}

// The least number within which at least `percent` of 100 of these lie: by the nearest rank.
fn percentile(sorted: &[u64], percent: u8) -> u64
    requires sorted { IsSorted nat_cmp sorted.now }
    requires some { 0 < length sorted.now }
    requires least { 0 < percent }
    requires most { percent ≤ 100 }
    ensures { IsPercentile sorted.now percent result }
{
    let rank = (sorted.len() as u128 * percent as u128).div_ceil(100);
    sorted[(rank - 1) as usize]
}
