// The events of a race.

ghost use Rattle.std.specs.Prelude.{◌≡◌, ◌++◌, ◌∷◌, [], map, IfOk, OnOk};
ghost use Rattle.std.specs.List.{flat_map};
ghost use Rattle.he_json.specs.Facts.{answered_facts, cause_facts, delay_facts, event_facts, kind_facts, listed_facts, of_attempt_facts, said_fact, start_facts, waits_facts};
ghost use Rattle.he_json.specs.Json.{fact_of};

use crate::members::{Member, Said, Value, push};
use he_addr::{Family, Memory};
use he_course::{Cause, Event, EventKind, Listed, Start, Turn};
use std::alloc::Allocator;

// The most members that an object of an event has.
const MOST_MEMBERS: usize = 11;

// An object for each event.
pub(crate) fn event_rows<A: Allocator + Copy>(
    alloc: A,
    events: &[Event],
) -> Result<Vec<Vec<Member, A>, A>, Memory>
    ensures { IfOk result (λ rows. map (λ row. flat_map fact_of row.items) rows.items ≡ map event_facts events.now) }
{
    let mut rows = Vec::with_capacity(alloc, events.len())?;
    for event in events {
        rows.push(event_row(alloc, event)?)?;
    }
    Ok(rows)
}

fn event_row<A: Allocator + Copy>(alloc: A, event: &Event) -> Result<Vec<Member, A>, Memory>
    ensures { IfOk result (λ row. flat_map fact_of row.items ≡ event_facts event.now) }
{
    let mut row = Vec::with_capacity(alloc, MOST_MEMBERS)?;
    push(&[Member(b"tick", Value::Number(event.tick))], &mut row)?;
    push_kind(event.kind, &mut row)?;
    Ok(row)
}

fn push_kind<A: Allocator>(kind: EventKind, row: &mut Vec<Member, A>) -> Result<(), Memory>
    ensures { OnOk result (flat_map fact_of row.new.items ≡ flat_map fact_of row.old.items ++ kind_facts kind) }
{
    match kind {
        EventKind::Paused(until) => {
            push_event(Said::Paused, b"pause", row)?;
            push(&[Member(b"until", Value::Number(until))], row)
        }
        EventKind::Answered(family, usable) => push_answered(family, usable, row),
        EventKind::Waits(until) => push_waits(until, row),
        EventKind::DelayOver => push_event(Said::DelayOver, b"delay over", row),
        EventKind::Started(start) => push_start(&start, row),
        EventKind::Failed(place) => push_of_attempt(Said::Failed, b"failed", place, row),
        EventKind::Won(place) => push_of_attempt(Said::Won, b"won", place, row),
        EventKind::Cancelled(place) => push_of_attempt(Said::Cancelled, b"cancelled", place, row),
        EventKind::Exhausted => push_event(Said::Exhausted, b"exhausted", row),
        EventKind::Limit => push_event(Said::Limit, b"limit", row),
    }
}

fn push_event<A: Allocator>(
    said: Said,
    words: &'static [u8],
    row: &mut Vec<Member, A>,
) -> Result<(), Memory>
    ensures { OnOk result (flat_map fact_of row.new.items ≡ flat_map fact_of row.old.items ++ said_fact said ∷ []) }
{
    push(&[Member(b"event", Value::Says(said, words))], row)
}

// An event of the attempt of this place.
fn push_of_attempt<A: Allocator>(
    said: Said,
    words: &'static [u8],
    place: usize,
    row: &mut Vec<Member, A>,
) -> Result<(), Memory>
    ensures { OnOk result (flat_map fact_of row.new.items ≡ flat_map fact_of row.old.items ++ of_attempt_facts said
        place) }
{
    push_event(said, words, row)?;
    push(&[Member(b"attempt", Value::Number(place as u64))], row)
}

fn push_answered<A: Allocator>(
    family: Family,
    usable: usize,
    row: &mut Vec<Member, A>,
) -> Result<(), Memory>
    ensures { OnOk result (flat_map fact_of row.new.items ≡ flat_map fact_of row.old.items ++ answered_facts family
        usable) }
{
    let members = [
        Member(b"event", Value::Says(Said::Answered, b"answer")),
        family_member(family),
        Member(b"usable", Value::Number(usable as u64)),
    ];
    push(&members, row)
}

fn push_waits<A: Allocator>(until: u64, row: &mut Vec<Member, A>) -> Result<(), Memory>
    ensures { OnOk result (flat_map fact_of row.new.items ≡ flat_map fact_of row.old.items ++ waits_facts until) }
{
    let members = [
        Member(b"event", Value::Says(Said::Waits, b"wait")),
        family_member(Family::V6),
        Member(b"until", Value::Number(until)),
    ];
    push(&members, row)
}

fn family_member(family: Family) -> Member
    ensures { fact_of result ≡ said_fact (Said.Family family) ∷ [] }
{
    let words: &'static [u8] = match family {
        Family::V6 => b"aaaa",
        Family::V4 => b"a",
    };
    Member(b"family", Value::Says(Said::Family(family), words))
}

fn push_start<A: Allocator>(start: &Start, row: &mut Vec<Member, A>) -> Result<(), Memory>
    ensures { OnOk result (flat_map fact_of row.new.items ≡ flat_map fact_of row.old.items ++ start_facts start.now) }
{
    push_of_attempt(Said::Started, b"attempt", start.place, row)?;
    push(&[Member(b"address", Value::Address(start.ip))], row)?;
    push_cause(start.cause, row)?;
    push_listed(start.held, start.listed, row)
}

fn push_cause<A: Allocator>(cause: Cause, row: &mut Vec<Member, A>) -> Result<(), Memory>
    ensures { OnOk result (flat_map fact_of row.new.items ≡ flat_map fact_of row.old.items ++ cause_facts cause) }
{
    let words = cause_words(cause);
    push(
        &[Member(b"cause", Value::Says(Said::Cause(cause), words))],
        row,
    )?;
    match cause {
        Cause::AttemptDelay(place, delay) | Cause::Floor(place, delay) => {
            push_delay(delay, place, row)
        }
        _ => Ok(()),
    }
}

fn cause_words(cause: Cause) -> &'static [u8] {
    match cause {
        Cause::AaaaAnswer => b"aaaa answer",
        Cause::BothAnswers => b"both answers",
        Cause::ResolutionDelay => b"resolution delay",
        Cause::AttemptDelay(_, _) => b"attempt delay",
        Cause::Floor(_, _) => b"floor",
        Cause::LastFailure(_) => b"last failure",
        Cause::LaterAnswer(Family::V6) => b"later aaaa answer",
        Cause::LaterAnswer(Family::V4) => b"later a answer",
    }
}

// The delay after the start of the attempt of this place.
fn push_delay<A: Allocator>(
    delay: u64,
    place: usize,
    row: &mut Vec<Member, A>,
) -> Result<(), Memory>
    ensures { OnOk result (flat_map fact_of row.new.items ≡ flat_map fact_of row.old.items ++ delay_facts delay place) }
{
    let members = [
        Member(b"delay", Value::Number(delay)),
        Member(b"after", Value::Number(place as u64)),
    ];
    push(&members, row)
}

// Whether a pause held the attempt back, and the place of its address in the list.
fn push_listed<A: Allocator>(
    held: bool,
    listed: Listed,
    row: &mut Vec<Member, A>,
) -> Result<(), Memory>
    ensures { OnOk result (flat_map fact_of row.new.items ≡ flat_map fact_of row.old.items ++ listed_facts held
        listed) }
{
    let members = [
        Member(b"held", Value::Truth(held)),
        Member(b"listed", Value::Number(listed.place as u64)),
        Member(b"of", Value::Number(listed.count as u64)),
        Member(
            b"turn",
            Value::Says(Said::Turn(listed.turn), turn_words(listed.turn)),
        ),
    ];
    push(&members, row)
}

fn turn_words(turn: Turn) -> &'static [u8] {
    match turn {
        Turn::Leads => b"leads",
        Turn::InTurn => b"in turn",
        Turn::RunOut => b"other run out",
    }
}
