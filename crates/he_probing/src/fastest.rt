//! The address that a client connects to soonest if it tries it at once.
ghost use Rattle.std.specs.Prelude.{◌≡◌};
ghost use Rattle.he_probing.specs.Fastest.{IsFastest, after, faster_of, takes_of};

use crate::rows::AddressRow;
use he_addr::Ip;
use he_course::{Course, Seen};
use he_timeline::Outcome;
use std::alloc::Global;

/// An address, and the tick at which it connects if its attempt starts when its answer is seen.
#[derive(Clone, Copy, Debug, PartialEq, Eq)]
pub struct Fastest {
    pub ip: Ip,
    pub ticks: u64,
}

/// The fastest address of the rows, the first of equal ones; None if none connected.
pub fn fastest_of(rows: &[AddressRow], course: &Course<Global>) -> Option<Fastest>
    ensures { IsFastest course.now rows.now result }
{
    let mut fastest = None;
    for row in rows {
        fastest = faster_of(fastest, row.ip, takes_of(row, course));
    }
    fastest
}

// The address, if it takes less ticks than the fastest so far.
fn faster_of(fastest: Option<Fastest>, ip: Ip, takes: Option<u64>) -> Option<Fastest>
    ensures { result ≡ faster_of fastest ip takes }
{
    match (fastest, takes) {
        (fastest, None) => fastest,
        (None, Some(ticks)) => Some(Fastest { ip, ticks }),
        (Some(fastest), Some(ticks)) if ticks < fastest.ticks => Some(Fastest { ip, ticks }),
        (fastest, _) => fastest,
    }
}

// The tick at which the address connects if its attempt starts when its answer is seen.
fn takes_of(row: &AddressRow, course: &Course<Global>) -> Option<u64>
    ensures { result ≡ takes_of course.now row.now }
{
    match row.outcome {
        Some(Outcome::Ok(duration)) => after(course.answer(row.ip.family()), duration),
        _ => None,
    }
}

fn after(seen: Option<Seen>, duration: u64) -> Option<u64>
    ensures { result ≡ after seen duration }
{
    match seen {
        Some(seen) => Some(seen.tick.saturating_add(duration)),
        None => None,
    }
}
