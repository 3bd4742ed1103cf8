//! The counts and the sums of races.
ghost use Rattle.std.specs.Prelude.{◌≡◌, count_by, IfOk};
ghost use Rattle.std.specs.List.{filter_map};
ghost use Rattle.he_totals.specs.Times.{IsSpread};
ghost use Rattle.he_totals.specs.Totals.{AreTotals, client_is, connected_at, counts_of, has_reason, if_not_won, if_won, is_kind, lookup_of, reason_place, share_of, sum_of, sums_of, time_beside, time_of, value_of};

use crate::kept::{Ending, Kept};
use crate::times::{Spread, spread_of};
use he_addr::{Family, Memory};
use he_course::Times;
use he_record::{ClientEnd, LookupReason};
use std::alloc::Allocator;

/// The number of races, and of those of each kind.
#[derive(Clone, Copy, Debug, PartialEq, Eq)]
pub struct Counts {
    pub races: u64,
    pub won: u64,
    pub by_v6: u64,
    pub by_v4: u64,
    /// The races that were not won: those at their limit, those whose attempts all failed, and those without an
    /// address to try.
    pub timed_out: u64,
    pub all_failed: u64,
    pub no_address: u64,
    /// The races in which the Resolution Delay ended without an AAAA answer.
    pub waited: u64,
}

/// The totals of races.
#[derive(Clone, Copy, Debug, PartialEq, Eq)]
pub struct Totals {
    pub counts: Counts,
    /// The milliseconds of all races, by what they went into, each at most 2^64 - 1.
    pub sums: Times,
    /// The times to connect of the races that were won, in milliseconds; and what of each went into the names, and was
    /// lost.
    pub times: Option<Spread>,
    pub names: Option<Spread>,
    pub lost: Option<Spread>,
    /// The milliseconds after which the other races were given up.
    pub given_up: Option<Spread>,
    /// The number of attempts of each race.
    pub attempts: Option<Spread>,
    /// The times after which recorded clients connected, by their own rules, in milliseconds.
    pub clients: Option<Spread>,
    /// The times to connect of those of these clients' races that were won.
    pub by_rules: Option<Spread>,
}

/// A kind of races.
#[derive(Clone, Copy, Debug, PartialEq, Eq)]
pub enum Kind {
    Won,
    WonBy(Family),
    TimedOut,
    AllFailed,
    NoAddress,
    Waited,
    /// The recorded client connected, gave up or failed.
    Connected,
    GaveUp,
    Failed,
    /// The look-up of the family has no address for this reason.
    Lookup(Family, LookupReason),
}

/// The owner of a race's milliseconds (he_course).
#[derive(Clone, Copy, Debug, PartialEq, Eq)]
pub enum Share {
    All,
    Names,
    Lost,
    Unknown,
    Machine,
    Connecting,
}

/// A number that some races have.
#[derive(Clone, Copy, Debug, PartialEq, Eq)]
pub enum Value {
    /// The time to connect, in milliseconds.
    Time,
    /// The part of it that this owns, in milliseconds.
    OfIt(Share),
    /// The time after which a race was given up, in milliseconds.
    GivenUp,
    Attempts,
    /// The time after which the recorded client connected, in milliseconds.
    Client,
    /// The time to connect, if the recorded client connected.
    ByRules,
}

impl Totals {
    /// The totals of these races.
    ///
    /// # Errors
    ///
    /// `Memory` if an allocation was refused.
    pub fn of<A: Allocator + Copy>(alloc: A, kept: &[Kept]) -> Result<Totals, Memory>
        ensures { IfOk result (AreTotals kept.now) }
    {
        Ok(Totals {
            counts: counts_of(kept),
            sums: sums_of(kept),
            times: spread(alloc, kept, Value::Time)?,
            names: spread(alloc, kept, Value::OfIt(Share::Names))?,
            lost: spread(alloc, kept, Value::OfIt(Share::Lost))?,
            given_up: spread(alloc, kept, Value::GivenUp)?,
            attempts: spread(alloc, kept, Value::Attempts)?,
            clients: spread(alloc, kept, Value::Client)?,
            by_rules: spread(alloc, kept, Value::ByRules)?,
        })
    }
}

fn counts_of(kept: &[Kept]) -> Counts
    ensures { result ≡ counts_of kept.now }
{
    Counts {
        races: kept.len() as u64,
        won: count(kept, Kind::Won),
        by_v6: count(kept, Kind::WonBy(Family::V6)),
        by_v4: count(kept, Kind::WonBy(Family::V4)),
        timed_out: count(kept, Kind::TimedOut),
        all_failed: count(kept, Kind::AllFailed),
        no_address: count(kept, Kind::NoAddress),
        waited: count(kept, Kind::Waited),
    }
}

fn sums_of(kept: &[Kept]) -> Times
    ensures { result ≡ sums_of kept.now }
{
    Times {
        all: sum_of(Share::All, kept),
        names: sum_of(Share::Names, kept),
        lost: sum_of(Share::Lost, kept),
        unknown: sum_of(Share::Unknown, kept),
        machine: sum_of(Share::Machine, kept),
        connecting: sum_of(Share::Connecting, kept),
    }
}

fn sum_of(share: Share, kept: &[Kept]) -> u64
    ensures { result ≡ sum_of share kept.now }
{
    let mut sum = 0u64;
    for race in kept {
        sum = sum.saturating_add(share_of(share, race.times));
    }
    sum
}

fn share_of(share: Share, times: Times) -> u64
    ensures { result ≡ share_of share times }
{
    match share {
        Share::All => times.all,
        Share::Names => times.names,
        Share::Lost => times.lost,
        Share::Unknown => times.unknown,
        Share::Machine => times.machine,
        Share::Connecting => times.connecting,
    }
}

/// The number of records of this kind.
pub fn count(kept: &[Kept], kind: Kind) -> u64
    ensures { result ≡ count_by (is_kind kind) kept.now }
{
    kept.iter().filter(|race| is_kind(kind, race)).count() as u64
}

/// Whether a race is of this kind.
pub fn is_kind(kind: Kind, race: &Kept) -> bool
    ensures { result ≡ is_kind kind race.now }
{
    match (kind, race.ending) {
        (Kind::Won, Ending::Won(_, _)) => true,
        (Kind::WonBy(family), Ending::Won(Some(ip), _)) => ip.family() == family,
        (Kind::TimedOut, Ending::Limit(_)) => true,
        (Kind::AllFailed, Ending::Exhausted(_)) => race.attempts > 0,
        (Kind::NoAddress, Ending::Exhausted(_)) => race.attempts == 0,
        (Kind::Waited, _) => race.has_waited,
        (Kind::Connected, _) => client_is(kind, race.client),
        (Kind::GaveUp, _) => client_is(kind, race.client),
        (Kind::Failed, _) => client_is(kind, race.client),
        (Kind::Lookup(family, reason), _) => has_reason(reason, lookup_of(family, race)),
        _ => false,
    }
}

fn client_is(kind: Kind, client: Option<ClientEnd>) -> bool
    ensures { result ≡ client_is kind client }
{
    match (kind, client) {
        (Kind::Connected, Some(ClientEnd::Connected(_))) => true,
        (Kind::GaveUp, Some(ClientEnd::GaveUp(_))) => true,
        (Kind::Failed, Some(ClientEnd::Failed(_))) => true,
        _ => false,
    }
}

fn lookup_of(family: Family, race: &Kept) -> Option<LookupReason>
    ensures { result ≡ lookup_of family race.now }
{
    match family {
        Family::V6 => race.aaaa,
        Family::V4 => race.a,
    }
}

fn has_reason(reason: LookupReason, found: Option<LookupReason>) -> bool
    ensures { result ≡ has_reason reason found }
{
    match found {
        Some(other) => reason_place(other) == reason_place(reason),
        None => false,
    }
}

// The place of a reason in the report.
fn reason_place(reason: LookupReason) -> u8
    ensures { result ≡ reason_place reason }
{
    match reason {
        LookupReason::NoSuchName => 0,
        LookupReason::NoAddress => 1,
        LookupReason::NoAnswer => 2,
        LookupReason::Refused => 3,
        LookupReason::Failed => 4,
        LookupReason::Malformed => 5,
        LookupReason::NotAsked => 6,
        LookupReason::Nat64 => 7,
    }
}

fn spread<A: Allocator + Copy>(
    alloc: A,
    kept: &[Kept],
    value: Value,
) -> Result<Option<Spread>, Memory>
    ensures { IfOk result (IsSpread (filter_map (value_of value) kept.now)) }
{
    let mut values = values_of(alloc, kept, value)?;
    Ok(spread_of(&mut values))
}

fn values_of<A: Allocator>(alloc: A, kept: &[Kept], value: Value) -> Result<Vec<u64, A>, Memory>
    ensures { IfOk result (λ values. values.items ≡ filter_map (value_of value) kept.now) }
{
    kept.iter()
        .filter_map(|race| value_of(value, race))
        .collect(alloc)
}

/// The race's number of this kind, if it has one.
pub fn value_of(value: Value, race: &Kept) -> Option<u64>
    ensures { result ≡ value_of value race.now }
{
    match value {
        Value::Time => time_of(race.ending),
        Value::OfIt(share) => if_won(race.ending, share_of(share, race.times)),
        Value::GivenUp => if_not_won(race.ending),
        Value::Attempts => Some(race.attempts as u64),
        Value::Client => connected_at(race.client),
        Value::ByRules => time_beside(race.client, time_of(race.ending)),
    }
}

fn if_won(ending: Ending, share: u64) -> Option<u64>
    ensures { result ≡ if_won ending share }
{
    match ending {
        Ending::Won(_, _) => Some(share),
        _ => None,
    }
}

fn if_not_won(ending: Ending) -> Option<u64>
    ensures { result ≡ if_not_won ending }
{
    match ending {
        Ending::Won(_, _) => None,
        Ending::Exhausted(time) | Ending::Limit(time) => Some(time),
    }
}

// The time after which the recorded client connected.
fn connected_at(client: Option<ClientEnd>) -> Option<u64>
    ensures { result ≡ connected_at client }
{
    match client {
        Some(ClientEnd::Connected(ticks)) => Some(ticks),
        _ => None,
    }
}

// The time, if the recorded client connected.
fn time_beside(client: Option<ClientEnd>, time: Option<u64>) -> Option<u64>
    ensures { result ≡ time_beside client time }
{
    match client {
        Some(ClientEnd::Connected(_)) => time,
        _ => None,
    }
}

fn time_of(ending: Ending) -> Option<u64>
    ensures { result ≡ time_of ending }
{
    match ending {
        Ending::Won(_, time) => Some(time),
        _ => None,
    }
}
