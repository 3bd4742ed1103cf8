// The attempts of a race, and how it ended.

ghost use Rattle.std.specs.Prelude.{◌≡◌, ◌++◌, map, IfOk, OnOk};
ghost use Rattle.std.specs.List.{flat_map};
ghost use Rattle.he_json.specs.Facts.{attempt_facts, end_facts, mark_facts, result_facts, won_facts};
ghost use Rattle.he_json.specs.Json.{fact_of};

use crate::members::{Member, Said, Value, push};
use he_addr::Memory;
use he_plan::{Line, Mark, Outcome3};
use std::alloc::Allocator;

// The most members that an object of an attempt or of an end has.
const MOST_MEMBERS: usize = 5;

// An object for each attempt.
pub(crate) fn attempt_rows<A: Allocator + Copy>(
    alloc: A,
    lines: &[Line],
) -> Result<Vec<Vec<Member, A>, A>, Memory>
    ensures { IfOk result (λ rows. map (λ row. flat_map fact_of row.items) rows.items ≡ map attempt_facts lines.now) }
{
    let mut rows = Vec::with_capacity(alloc, lines.len())?;
    for line in lines {
        rows.push(attempt_row(alloc, line)?)?;
    }
    Ok(rows)
}

fn attempt_row<A: Allocator + Copy>(alloc: A, line: &Line) -> Result<Vec<Member, A>, Memory>
    ensures { IfOk result (λ row. flat_map fact_of row.items ≡ attempt_facts line.now) }
{
    let mut row = Vec::with_capacity(alloc, MOST_MEMBERS)?;
    let members = [
        Member(b"attempt", Value::Number(line.place as u64)),
        Member(b"start", Value::Number(line.tick)),
        Member(b"address", Value::Address(line.ip)),
    ];
    push(&members, &mut row)?;
    push_mark(line.mark, &mut row)?;
    Ok(row)
}

fn push_mark<A: Allocator>(mark: Mark, row: &mut Vec<Member, A>) -> Result<(), Memory>
    ensures { OnOk result (flat_map fact_of row.new.items ≡ flat_map fact_of row.old.items ++ mark_facts mark) }
{
    match mark {
        Mark::Won(tick) => push_end(Said::Won, b"won", tick, row),
        Mark::Failed(tick) => push_end(Said::Failed, b"failed", tick, row),
        Mark::Cancelled(tick) => push_end(Said::Cancelled, b"cancelled", tick, row),
    }
}

// The way it ended, in a word, and the tick.
fn push_end<A: Allocator>(
    said: Said,
    words: &'static [u8],
    tick: u64,
    row: &mut Vec<Member, A>,
) -> Result<(), Memory>
    ensures { OnOk result (flat_map fact_of row.new.items ≡ flat_map fact_of row.old.items ++ end_facts said tick) }
{
    let members = [
        Member(b"end", Value::Says(said, words)),
        Member(b"tick", Value::Number(tick)),
    ];
    push(&members, row)
}

// An object for the end of the race.
pub(crate) fn result_row<A: Allocator>(alloc: A, ending: Outcome3) -> Result<Vec<Member, A>, Memory>
    ensures { IfOk result (λ row. flat_map fact_of row.items ≡ result_facts ending) }
{
    let mut row = Vec::with_capacity(alloc, MOST_MEMBERS)?;
    match ending {
        Outcome3::Won(place, tick) => push_won(place, tick, &mut row)?,
        Outcome3::Exhausted(tick) => push_end(Said::Exhausted, b"exhausted", tick, &mut row)?,
        Outcome3::Limit(tick) => push_end(Said::Limit, b"limit", tick, &mut row)?,
    }
    Ok(row)
}

fn push_won<A: Allocator>(place: usize, tick: u64, row: &mut Vec<Member, A>) -> Result<(), Memory>
    ensures { OnOk result (flat_map fact_of row.new.items ≡ flat_map fact_of row.old.items ++ won_facts place tick) }
{
    let members = [
        Member(b"end", Value::Says(Said::Won, b"won")),
        Member(b"attempt", Value::Number(place as u64)),
        Member(b"tick", Value::Number(tick)),
    ];
    push(&members, row)
}
