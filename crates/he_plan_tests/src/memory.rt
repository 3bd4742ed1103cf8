// Each growth refused in turn: a refused call returns `Memory`, and made again it returns its result with ample
// memory.

use crate::hosts::{HostKind, builder};
use he_addr::{Family, Ip, Memory};
use he_plan::{Attempt, Line, Transcript, interlace, plan, transcript_of};
use he_timeline::{BuildFault, Outcome, Settings, Timeline, TimelineBuilder};
use refusing::{MOST_RUNS, Refusing};
use std::mem::drop;

// 2001:db8:1::1 and so on: enough that nine are tried before the A answer comes.
const V6: [Ip; 10] = [
    V6_A,
    V6_B,
    Ip::V6(0x2001_0db8_0001_0000_0000_0000_0000_0003),
    Ip::V6(0x2001_0db8_0001_0000_0000_0000_0000_0004),
    Ip::V6(0x2001_0db8_0001_0000_0000_0000_0000_0005),
    Ip::V6(0x2001_0db8_0001_0000_0000_0000_0000_0006),
    Ip::V6(0x2001_0db8_0001_0000_0000_0000_0000_0007),
    Ip::V6(0x2001_0db8_0001_0000_0000_0000_0000_0008),
    Ip::V6(0x2001_0db8_0001_0000_0000_0000_0000_0009),
    Ip::V6(0x2001_0db8_0001_0000_0000_0000_0000_000a),
];

const V6_A: Ip = Ip::V6(0x2001_0db8_0001_0000_0000_0000_0000_0001);

const V6_B: Ip = Ip::V6(0x2001_0db8_0001_0000_0000_0000_0000_0002);

// 198.51.100.1
const V4_A: Ip = Ip::V4(0xc633_6401);

const CALLS: usize = 6;

// The first call that adds to the record: an outcome, then a pause.
const RECORD: usize = 4;

// The call of this number.
fn make(builder: &mut TimelineBuilder<&Refusing>, number: usize) -> Result<(), BuildFault> {
    match number {
        0 => builder.answer(Family::V6, 20, &V6),
        1 => builder.answer(Family::V4, 2_200, &[V4_A]),
        2 => builder.rtt(V6_B, 30),
        3 => builder.used(V4_A),
        4 => builder.outcome(V4_A, Outcome::Ok(30)),
        _ => builder.pause(100, 110),
    }
}

// Makes the calls from this one on in turn, each again if memory was refused; whether each was taken.
fn make_from(builder: &mut TimelineBuilder<&Refusing>, first: usize) -> bool {
    for number in first..CALLS {
        if make(builder, number) == Err(BuildFault::Memory) && make(builder, number).is_err() {
            return false;
        }
    }
    true
}

fn begun(heap: &Refusing) -> Option<TimelineBuilder<&Refusing>> {
    let settings = Settings::new(50, 250, 1, 30_000).ok()?;
    builder(heap, settings, HostKind::Usual)
}

// The timeline of the calls, and whether each was taken; none if memory was refused before the first of them.
fn built(heap: &Refusing) -> Option<(Timeline<&Refusing>, bool)> {
    let mut builder = begun(heap)?;
    let is_made = make_from(&mut builder, 0);
    Some((builder.finish(), is_made))
}

fn is_built<'h>(heap: &'h Refusing, wanted: &Timeline<&'h Refusing>) -> Option<bool> {
    let (timeline, is_made) = built(heap)?;
    let is_wanted = is_made && timeline == *wanted;
    drop(timeline);
    Some(is_wanted)
}

fn is_copied<'h>(heap: &'h Refusing, wanted: &Timeline<&'h Refusing>) -> Result<bool, Memory> {
    let copy = wanted.copy(heap)?;
    let is_same = copy == *wanted;
    drop(copy);
    Ok(is_same)
}

// The timeline without its record, recorded again.
fn is_recorded_again<'h>(
    heap: &'h Refusing,
    wanted: &Timeline<&'h Refusing>,
) -> Result<bool, Memory> {
    let mut builder = TimelineBuilder::without_record(heap, wanted)?;
    let is_made = make_from(&mut builder, RECORD);
    let timeline = builder.finish();
    let is_same = is_made && timeline == *wanted;
    drop(timeline);
    Ok(is_same)
}

fn is_interlaced(heap: &Refusing) -> Result<bool, Memory> {
    let interlaced = interlace(heap, &[V6_A, V6_B, V4_A], 1)?;
    Ok(interlaced.as_slice() == [V6_A, V4_A, V6_B].as_slice())
}

fn is_planned<'h>(
    heap: &'h Refusing,
    wanted: &Timeline<&'h Refusing>,
    transcript: &Transcript<&'h Refusing>,
) -> Result<bool, Memory> {
    let plan = plan(heap, wanted)?;
    Ok(are_attempts_of(plan.attempts(), transcript.attempts()))
}

// Whether each line has its attempt, at its tick.
fn are_attempts_of(attempts: &[Attempt], lines: &[Line]) -> bool {
    for line in lines {
        match attempts.get(line.place) {
            Some(attempt) if attempt.tick == line.tick && attempt.ip == line.ip => {}
            _ => return false,
        }
    }
    !attempts.is_empty()
}

fn is_told<'h>(
    heap: &'h Refusing,
    wanted: &Timeline<&'h Refusing>,
    transcript: &Transcript<&'h Refusing>,
) -> Result<bool, Memory> {
    let told = transcript_of(heap, wanted)?;
    Ok(told.attempts() == transcript.attempts() && told.result() == transcript.result())
}

const QUESTIONS: usize = 5;

// Whether the answer to the question of this number is that with ample memory.
fn ask<'h>(
    heap: &'h Refusing,
    wanted: &Timeline<&'h Refusing>,
    transcript: &Transcript<&'h Refusing>,
    number: usize,
) -> Result<bool, Memory> {
    match number {
        0 => is_copied(heap, wanted),
        1 => is_recorded_again(heap, wanted),
        2 => is_interlaced(heap),
        3 => is_planned(heap, wanted, transcript),
        _ => is_told(heap, wanted, transcript),
    }
}

// Asks each question in turn, again if memory was refused.
fn are_answered<'h>(
    heap: &'h Refusing,
    wanted: &Timeline<&'h Refusing>,
    transcript: &Transcript<&'h Refusing>,
) -> bool {
    for number in 0..QUESTIONS {
        let first = ask(heap, wanted, transcript, number);
        let answer = match first {
            Ok(answer) => Ok(answer),
            Err(Memory) => ask(heap, wanted, transcript, number),
        };
        if answer != Ok(true) {
            return false;
        }
    }
    true
}

// Whether all is well; none if memory was refused before the first call.
fn is_well<'h>(
    heap: &'h Refusing,
    wanted: &Timeline<&'h Refusing>,
    transcript: &Transcript<&'h Refusing>,
) -> Option<bool> {
    Some(is_built(heap, wanted)? && are_answered(heap, wanted, transcript))
}

// Like `refused_in_turn` of `refusing`, which takes no closure that borrows a timeline over the heap: the toolchain's
// borrow checker doesn't accept one.
fn refused_over<'h>(heap: &'h Refusing, wanted: &Timeline<&'h Refusing>) -> Option<u64> {
    let transcript = transcript_of(heap, wanted).ok()?;
    for refused in 0..MOST_RUNS {
        heap.refuse(refused + 1);
        let answer = is_well(heap, wanted, &transcript);
        let has_refused = heap.has_refused();
        heap.refuse(0);
        if !answer.unwrap_or(has_refused) {
            return None;
        }
        if !has_refused {
            return Some(refused);
        }
    }
    None
}

fn refused(heap: &Refusing) -> Option<u64> {
    let (wanted, _) = built(heap)?;
    let refused = refused_over(heap, &wanted);
    drop(wanted);
    refused
}

#[test]
fn refused_growths(rt: HostRuntime) {
    let heap = Refusing::new(rt.alloc());
    let refused = refused(&heap).unwrap_or(0);
    assert!(rt; refused > 0);
}
