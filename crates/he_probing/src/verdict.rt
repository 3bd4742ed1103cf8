//! The verdict on a round.
ghost use Rattle.std.specs.Prelude.{◌≡◌, ◌&&◌};
ghost use Rattle.std.specs.List.{list_any};
ghost use Rattle.he_addr.specs.Ip.{same_ip};
ghost use Rattle.he_probing.specs.Rows.{has_failed};
ghost use Rattle.he_timeline.specs.Timeline.{is_of};
ghost use Rattle.he_probing.specs.Verdicts.{broken, delays, has_failed_at, loses, verdict_of, waited_for};

use crate::counting::{count_connected, count_failed, count_failed_of, count_of, has_failed};
use crate::rows::AddressRow;
use he_addr::{Family, Ip};
use he_course::Course;
use he_plan::Line;
use std::alloc::Global;

/// The verdict on a round: the first that fits.
#[derive(Clone, Copy, Debug, PartialEq, Eq)]
pub enum Verdict {
    /// No address connects.
    NothingConnects,
    /// A client waits for an address of the family that doesn't connect. The numbers are those of the family's
    /// addresses that don't connect, and of all of them.
    Broken(Family, usize, usize),
    /// This number of the addresses don't connect, and a client waits for none of them.
    SomeFail(usize, usize),
    /// Each address connects.
    AllFine,
}

/// The verdict on the rows, by the course of the race that a client has.
pub fn verdict_of(rows: &[AddressRow], course: &Course<Global>) -> Verdict
    ensures { result ≡ verdict_of rows.now course.now }
{
    if count_connected(rows) == 0 {
        Verdict::NothingConnects
    } else if delays(rows, course, Family::V6) {
        broken(rows, Family::V6)
    } else if delays(rows, course, Family::V4) {
        broken(rows, Family::V4)
    } else if count_failed(rows) > 0 {
        Verdict::SomeFail(count_failed(rows), rows.len())
    } else {
        Verdict::AllFine
    }
}

fn broken(rows: &[AddressRow], family: Family) -> Verdict
    ensures { result ≡ broken rows.now family }
{
    Verdict::Broken(
        family,
        count_failed_of(rows, family),
        count_of(rows, family),
    )
}

// Whether a client waits for an address of the family that doesn't connect.
fn delays(rows: &[AddressRow], course: &Course<Global>, family: Family) -> bool
    ensures { result ≡ delays rows.now course.now family }
{
    loses(course.lost()) && any_failed(rows, waited_for(course), family)
}

fn any_failed(rows: &[AddressRow], lines: &[Line], family: Family) -> bool
    ensures { result ≡ list_any (λ line. is_of family line.ip && has_failed_at rows.now line.ip) lines.now }
{
    lines.iter().any(|line| is_failed(rows, line.ip, family))
}

fn is_failed(rows: &[AddressRow], ip: Ip, family: Family) -> bool
    ensures { result ≡ (is_of family ip && has_failed_at rows.now ip) }
{
    ip.family() == family && has_failed_at(rows, ip)
}

// Whether a client loses time; if it makes no connection, it does.
fn loses(lost: Option<u64>) -> bool
    ensures { result ≡ loses lost }
{
    match lost {
        Some(ticks) => ticks > 0,
        None => true,
    }
}

// The attempts that a client makes before the one that wins; all if none wins.
fn waited_for(course: &Course<Global>) -> &[Line]
    ensures { result.now ≡ waited_for course.now }
{
    match course.ended.winner {
        Some(_) => course.before_winner(),
        None => course.transcript.attempts(),
    }
}

// Whether the address is among the rows, and didn't connect.
fn has_failed_at(rows: &[AddressRow], ip: Ip) -> bool
    ensures { result ≡ has_failed_at rows.now ip }
{
    rows.iter().any(|row| row.ip == ip && has_failed(row))
}
