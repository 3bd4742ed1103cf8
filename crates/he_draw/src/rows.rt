// The rows of a race's picture.

ghost use Rattle.std.specs.Prelude.{◌≡◌, ◌++◌, map, IfOk, OnOk};
ghost use Rattle.std.specs.List.{flat_map};
ghost use Rattle.he_draw.specs.Rows.{a_row, answer_row, attempt_row, pause_rows, rows_of, stop_of, wait_end, wait_in};

use he_addr::{Family, Ip, Memory};
use he_course::{Course, Event, EventKind, Seen};
use he_plan::{Line, Mark};
use he_record::Record;
use he_story::{Said, end_said};
use std::alloc::Allocator;

/// A row of a picture, with the ticks of its start and its end, in milliseconds.
#[derive(Clone, Copy, Debug, PartialEq, Eq)]
pub struct Row {
    pub what: What,
    pub from: u64,
    pub to: u64,
}

/// The subject of a row.
#[derive(Clone, Copy, Debug, PartialEq, Eq)]
pub enum What {
    /// The answer of this family is seen, with this number of usable addresses.
    Answer(Family, usize),

    /// The A answer is seen, with this number of usable addresses, and the client waits for the AAAA answer.
    Wait(usize),

    /// No answer of this family is seen by the end of the race.
    Missing(Family),

    /// The client sees and starts nothing.
    Pause,

    /// An attempt at this address, and the word for its end ([`he_story::end_said`]).
    Attempt(Ip, Said),
}

// The rows of the AAAA answer and of the A answer.
const ANSWER_ROWS: usize = 2;

/// The rows of a race: the AAAA answer, the A answer, the pauses that begin before the end of the race, and the
/// attempts by place.
#[tactic(auto, unfolding(crate::specs::Rows::rows_of))]
pub fn collect_rows<A: Allocator, B: Allocator, C: Allocator>(
    alloc: A,
    course: &Course<B>,
    recorded: &Record<'_, C>,
) -> Result<Vec<Row, A>, Memory>
    ensures { IfOk result (λ rows. rows.items ≡ rows_of recorded.now course.now) }
{
    // Each pause and each attempt's start is an event.
    let most = course.events.len().saturating_add(ANSWER_ROWS);
    let end = course.end();
    let mut rows = Vec::with_capacity(alloc, most)?;
    rows.push(answer_row(end, Family::V6, course.aaaa))?;
    rows.push(a_row(end, course.aaaa, wait_in(&course.events), course.a))?;
    push_pauses(&mut rows, &course.events)?;
    push_attempts(
        &mut rows,
        recorded,
        course.delay,
        course.transcript.attempts(),
    )?;
    Ok(rows)
}

fn answer_row(end: u64, family: Family, answer: Option<Seen>) -> Row
    ensures { result ≡ answer_row end family answer }
{
    match answer {
        Some(answer) if answer.tick <= end => Row {
            what: What::Answer(family, answer.usable),
            from: answer.tick,
            to: answer.tick,
        },
        _ => Row {
            what: What::Missing(family),
            from: 0,
            to: 0,
        },
    }
}

fn a_row(end: u64, aaaa: Option<Seen>, until: Option<u64>, a: Option<Seen>) -> Row
    ensures { result ≡ a_row end aaaa until a }
{
    match (until, a) {
        (Some(until), Some(a)) => Row {
            what: What::Wait(a.usable),
            from: a.tick,
            to: wait_end(aaaa, until.min(end)),
        },
        _ => answer_row(end, Family::V4, a),
    }
}

fn wait_end(aaaa: Option<Seen>, last: u64) -> u64
    ensures { result ≡ wait_end aaaa last }
{
    match aaaa {
        Some(answer) => answer.tick.min(last),
        None => last,
    }
}

// The tick up to which the client waits for the AAAA answer at most, if it waits.
fn wait_in(events: &[Event]) -> Option<u64>
    ensures { result ≡ wait_in events.now }
{
    for event in events {
        if let EventKind::Waits(until) = event.kind {
            return Some(until);
        }
    }
    None
}

fn push_pauses<A: Allocator>(rows: &mut Vec<Row, A>, events: &[Event]) -> Result<(), Memory>
    ensures { OnOk result (rows.new.items ≡ rows.old.items
        ++ flat_map (λ event. pause_rows event.tick event.kind) events.now) }
{
    for event in events {
        if let EventKind::Paused(to) = event.kind {
            let (what, from) = (What::Pause, event.tick);
            rows.push(Row { what, from, to })?;
        }
    }
    Ok(())
}

fn push_attempts<A: Allocator, C: Allocator>(
    rows: &mut Vec<Row, A>,
    recorded: &Record<'_, C>,
    delay: u64,
    lines: &[Line],
) -> Result<(), Memory>
    ensures { OnOk result (rows.new.items ≡ rows.old.items ++ map (attempt_row recorded.now delay) lines.now) }
{
    for line in lines {
        rows.push(attempt_row(recorded, delay, *line))?;
    }
    Ok(())
}

fn attempt_row<C: Allocator>(recorded: &Record<'_, C>, delay: u64, line: Line) -> Row
    ensures { result ≡ attempt_row recorded.now delay line }
{
    Row {
        what: What::Attempt(line.ip, end_said(recorded, delay, line)),
        from: line.tick,
        to: stop_of(line.mark),
    }
}

fn stop_of(mark: Mark) -> u64
    ensures { result ≡ stop_of mark }
{
    match mark {
        Mark::Won(tick) | Mark::Failed(tick) | Mark::Cancelled(tick) => tick,
    }
}
