// Gathers all files: the machine, and the lines that it leaves out.

ghost use Rattle.std.specs.Prelude.{◌≡◌, ◌++◌, OnOk, map};
ghost use Rattle.he_host.specs.Gathering.{family_len, rank, usable_route, source_read, route_read, sources_left, routes_left, IsRanked};
ghost use Rattle.he_kernel.specs.Keeping.{sources_kept, routes_kept};

use crate::found::{FoundRoute, FoundSource, Metered};
use crate::left_out::LeftOut;
use he_addr::prefix::MAPPED_LEN;
use he_addr::{Memory, Prefix};
use he_kernel::keeping::{judge_route, judge_source};
use he_kernel::why::Why;
use he_select::{Route, Source};
use std::alloc::Allocator;

const METRICS: u128 = 0x1_0000_0000_0000_0000;

// The length of a prefix in its family, 0 for all addresses.
fn family_len(prefix: Prefix) -> u8
    ensures { result ≡ family_len prefix }
{
    if prefix.is_v4() {
        prefix.len().saturating_sub(MAPPED_LEN)
    } else {
        prefix.len()
    }
}

// Routes are kept by prefix length, then by metric: a wider route replaces a longer one that exceeds the limit, and
// many routes of one family leave room for the other's wide ones.
fn rank(read: Result<Metered, Why>) -> u128
    ensures { result ≡ rank read }
{
    match read {
        Ok(metered) => u128::from(family_len(metered.route.prefix)) * METRICS
            + u128::from(metered.metric),
        Err(_) => 0,
    }
}

fn rank_of(found: &FoundRoute) -> u128
    ensures { result ≡ rank found.now.read }
{
    rank(found.read)
}

/// Sorts routes into the order in which they are kept.
///
/// # Errors
///
/// [`Memory`] if an allocation fails.
pub fn rank_routes<A: Allocator>(found: &mut Vec<FoundRoute, A>) -> Result<(), Memory>
    ensures { OnOk result (IsRanked found.old.items found.new.items) }
{
    found.sort_by_key(|found| rank_of(found))
}

// A route whose interface has a carrier; others are not used.
fn usable_route(read: Result<Metered, Why>) -> Result<Route, Why>
    ensures { result ≡ usable_route read }
{
    match read {
        Ok(metered) if metered.carrier => Ok(metered.route),
        Ok(_) => Err(Why::Down),
        Err(why) => Err(why),
    }
}

/// Keeps sources after those in `kept`, and reports the lines that are left out.
///
/// # Errors
///
/// [`Memory`] if an allocation fails.
pub fn keep_sources<A: Allocator + Copy>(
    found: &[FoundSource],
    kept: &mut Vec<Source, A>,
    left_out: &mut Vec<LeftOut, A>,
) -> Result<(), Memory>
    ensures kept { OnOk result (kept.new.items ≡ sources_kept kept.old.items (map source_read found.now)) }
    ensures left_out { OnOk result (left_out.new.items ≡ left_out.old.items ++ sources_left kept.old.items found.now) }
{
    for line in found {
        match judge_source(kept, line.read) {
            Ok(source) => kept.push(source)?,
            Err(why) => left_out.push(LeftOut {
                file: line.file,
                line: line.line,
                why,
            })?,
        }
    }
    Ok(())
}

/// Keeps routes after those in `kept`, and reports the lines that are left out.
///
/// # Errors
///
/// [`Memory`] if an allocation fails.
pub fn keep_routes<A: Allocator + Copy>(
    found: &[FoundRoute],
    kept: &mut Vec<Route, A>,
    left_out: &mut Vec<LeftOut, A>,
) -> Result<(), Memory>
    ensures kept { OnOk result (kept.new.items ≡ routes_kept kept.old.items (map route_read found.now)) }
    ensures left_out { OnOk result (left_out.new.items ≡ left_out.old.items ++ routes_left kept.old.items found.now) }
{
    for line in found {
        match judge_route(kept, usable_route(line.read)) {
            Ok(route) => kept.push(route)?,
            Err(why) => left_out.push(LeftOut {
                file: line.file,
                line: line.line,
                why,
            })?,
        }
    }
    Ok(())
}
