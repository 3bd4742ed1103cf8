//! The objects of a race.

ghost use Rattle.std.specs.Prelude.{◌≡◌, ◌++◌, map, IfOk, OnErr, OnOk};
ghost use Rattle.he_course.specs.Course.{course_times};
ghost use Rattle.he_json.specs.Documents.{Appends, IsExplanationJson, IsOrderJson, IsTranscriptJson, beginning_text, file_text, heading_text, lists_text, name_of, order_text, spot_of, transcript_text};

use crate::attempts::{attempt_rows, result_row};
use crate::events::event_rows;
use crate::members::{Member, write_object, write_objects, write_words};
use crate::order::{place_rows, preferred_rows};
use crate::place::Place;
use crate::recorded::write_recorded;
use crate::times::write_times;
use he_addr::{Memory, write_number};
use he_course::{Course, Times};
use he_plan::{Line, Outcome3, Transcript};
use he_print::write_string;
use he_record::Record;
use he_select::DestinationAttributes;
use std::alloc::Allocator;

fn write_file<A: Allocator + Copy>(file: Option<&str>, text: &mut Vec<u8, A>) -> Result<(), Memory>
    ensures { OnOk result (text.new.items ≡ text.old.items ++ file_text (name_of file.entry)) }
{
    match file {
        Some(name) => write_string(name.as_bytes(), text),
        None => write_words(b"null", text),
    }
}

// The members with which each object of a race begins.
fn write_beginning<A: Allocator + Copy>(
    place: Place<'_>,
    text: &mut Vec<u8, A>,
) -> Result<(), Memory>
    ensures { OnOk result (text.new.items ≡ text.old.items ++ beginning_text (spot_of place.entry)) }
{
    write_words(b"{\"file\":", text)?;
    write_file(place.file, text)?;
    write_words(b",\"race\":", text)?;
    write_number(place.number as u64, text)?;
    write_words(b",\"line\":", text)?;
    write_number(place.line, text)
}

fn write_transcript<A: Allocator + Copy>(
    place: Place<'_>,
    attempts: &[Vec<Member, A>],
    end: &[Member],
    text: &mut Vec<u8, A>,
) -> Result<(), Memory>
    ensures { OnOk result (text.new.items ≡ text.old.items ++ transcript_text (spot_of place.entry)
        (map (λ row. row.items) attempts.now) end.now) }
{
    write_beginning(place, text)?;
    write_words(b",\"attempts\":", text)?;
    write_objects(attempts, text)?;
    write_words(b",\"result\":", text)?;
    write_object(end, text)?;
    write_words(b"}\n", text)
}

fn write_order<A: Allocator + Copy>(
    place: Place<'_>,
    addresses: &[Vec<Member, A>],
    text: &mut Vec<u8, A>,
) -> Result<(), Memory>
    ensures { OnOk result (text.new.items ≡ text.old.items ++ order_text (spot_of place.entry)
        (map (λ row. row.items) addresses.now)) }
{
    write_beginning(place, text)?;
    write_words(b",\"order\":", text)?;
    write_objects(addresses, text)?;
    write_words(b"}\n", text)
}

// The members before the lists of an explanation.
fn write_heading<A: Allocator + Copy, C: Allocator>(
    place: Place<'_>,
    recorded: &Record<'_, C>,
    times: Times,
    text: &mut Vec<u8, A>,
) -> Result<(), Memory>
    ensures { OnOk result (text.new.items ≡ text.old.items ++ heading_text (spot_of place.entry) recorded.now times) }
{
    write_beginning(place, text)?;
    write_recorded(recorded, text)?;
    write_times(times, text)
}

fn write_lists<A: Allocator + Copy>(
    addresses: &[Vec<Member, A>],
    events: &[Vec<Member, A>],
    text: &mut Vec<u8, A>,
) -> Result<(), Memory>
    ensures { OnOk result (text.new.items ≡ text.old.items ++ lists_text (map (λ row. row.items) addresses.now)
        (map (λ row. row.items) events.now)) }
{
    write_words(b",\"order\":", text)?;
    write_objects(addresses, text)?;
    write_words(b",\"events\":", text)?;
    write_objects(events, text)?;
    write_words(b"}\n", text)
}

// Each text is made apart first: if memory runs out, nothing of it is appended.
fn transcript_of<A: Allocator + Copy>(
    alloc: A,
    place: Place<'_>,
    lines: &[Line],
    ending: Outcome3,
) -> Result<Vec<u8, A>, Memory>
    ensures { IfOk result (λ text. IsTranscriptJson (spot_of place.entry) (record { lines = lines.now; result = ending })
        text.items) }
{
    let attempts = attempt_rows(alloc, lines)?;
    let end = result_row(alloc, ending)?;
    let mut text = Vec::new(alloc);
    write_transcript(place, &attempts, &end, &mut text)?;
    Ok(text)
}

fn order_of<A: Allocator + Copy>(
    alloc: A,
    place: Place<'_>,
    sorted: &[DestinationAttributes],
) -> Result<Vec<u8, A>, Memory>
    ensures { IfOk result (λ text. IsOrderJson (spot_of place.entry) sorted.now text.items) }
{
    let addresses = place_rows(alloc, sorted)?;
    let mut text = Vec::new(alloc);
    write_order(place, &addresses, &mut text)?;
    Ok(text)
}

fn explanation_of<A: Allocator + Copy, B: Allocator, C: Allocator>(
    alloc: A,
    place: Place<'_>,
    recorded: &Record<'_, C>,
    course: &Course<B>,
) -> Result<Vec<u8, A>, Memory>
    ensures { IfOk result (λ text. IsExplanationJson (spot_of place.entry) recorded.now (course_times course.now)
        course.now.addresses.items course.now.events.items text.items) }
{
    let addresses = preferred_rows(alloc, &course.addresses)?;
    let events = event_rows(alloc, &course.events)?;
    let mut text = Vec::new(alloc);
    write_heading(place, recorded, course.times(), &mut text)?;
    write_lists(&addresses, &events, &mut text)?;
    Ok(text)
}

/// Appends the transcript of a race as one JSON object and a line end:
///
/// ```text
/// {"file":"one.timeline","race":1,"line":1,"attempts":[{"attempt":0,"start":20,"address":"2001:db8:1::1",
/// "end":"won","tick":55}],"result":{"end":"won","attempt":0,"tick":55}}
/// ```
///
/// (On one line.)
///
/// `file` is null if the race's text has no name. `attempts` has each attempt by its place, with the tick at which it
/// started, its address, its outcome (`won`, `failed` or `cancelled`) and the tick of that; `result` has the race's
/// end, `won` by an attempt, `exhausted` or at its `limit`, and the tick of that. After `Memory` the vector is
/// unchanged.
pub fn write_transcript_json<A: Allocator + Copy, B: Allocator, T: Allocator>(
    alloc: A,
    place: Place<'_>,
    transcript: &Transcript<B>,
    out: &mut Vec<u8, T>,
) -> Result<(), Memory>
    ensures ok { OnOk result (Appends (IsTranscriptJson (spot_of place.entry) transcript.now) out.old.items out.new.items) }
    ensures err { OnErr result (out.new.items ≡ out.old.items) }
{
    let text = transcript_of(alloc, place, transcript.attempts(), transcript.result())?;
    out.extend_from_slice(&text)
}

/// Appends the sorted addresses of a race as one JSON object and a line end, in the order in which they are tried if
/// all of them are known (RFC 6724 section 6):
///
/// ```text
/// {"file":null,"race":1,"line":1,"order":[{"place":0,"address":"198.51.100.1","source":"192.0.2.2"},
/// {"place":1,"address":"2001:db8:1::1","source":null}]}
/// ```
///
/// (On one line.)
///
/// `source` is null if the host can't reach the address. After `Memory` the vector is unchanged.
pub fn write_order_json<A: Allocator + Copy, T: Allocator>(
    alloc: A,
    place: Place<'_>,
    sorted: &[DestinationAttributes],
    out: &mut Vec<u8, T>,
) -> Result<(), Memory>
    ensures ok { OnOk result (Appends (IsOrderJson (spot_of place.entry) sorted.now) out.old.items out.new.items) }
    ensures err { OnErr result (out.new.items ≡ out.old.items) }
{
    let text = order_of(alloc, place, sorted)?;
    out.extend_from_slice(&text)
}

/// Appends the explanation of a race as one JSON object and a line end: its usable addresses in order of preference,
/// each with the reason that sorts it after the one before, and its events up to its end in order of ticks. (On one
/// line.)
///
/// ```text
/// {"file":"one.timeline","race":1,"line":1,"ms":55,"names_ms":20,"lost_ms":0,"unknown_ms":0,"machine_ms":0,
/// "connecting_ms":35,"order":[
/// {"place":0,"address":"2001:db8:1::1","source":"2001:db8::2"},
/// {"place":1,"address":"198.51.100.1","source":"192.0.2.2",
/// "rule":"6","why":"prefer higher precedence","own":35,"before":40}],
/// "events":[{"tick":20,"event":"answer","family":"aaaa","usable":1},
/// {"tick":20,"event":"attempt","attempt":0,"address":"2001:db8:1::1","cause":"aaaa answer",
/// "held":false,"listed":0,"of":1,"turn":"leads"},{"tick":55,"event":"won","attempt":0}]}
/// ```
///
/// `ms` are the milliseconds to the end of the race. The five members after it add up to it: what went into waiting
/// for the names' answers, was lost to addresses that did not connect, went into attempts with an unknown outcome,
/// into sleep of the machine, and into connecting to the address that won.
///
/// An address of `order` from the second on has the first `rule` of RFC 6724 section 6 (8a and 8b of RFC 8305 section
/// 4) that sorts it after the one before, with its name, `why`. If the rule compares values, `own` is that of the
/// address, and `before` that of the one before it: precedences (6), scopes (8), round trip times in milliseconds
/// (8a; null if unknown), common prefix lengths in bits (9). Rules 2 and 5 compare the scope or the label of the
/// address, `own`, with that of its source, `of_source`.
///
/// The events, by `event`:
///
/// - `pause`, `until` a tick;
/// - `answer` of a `family`, `aaaa` or `a`, with the number of `usable` addresses;
/// - `wait` for the answer of the `family` `aaaa`, `until` the Resolution Delay ends; `delay over`, without one;
/// - `attempt`, by its place, with its `address` and its `cause`: `aaaa answer`, `both answers`, `resolution delay`;
///   `attempt delay` or, as all have failed, `floor`, with the milliseconds of the `delay` `after` the attempt of a
///   place; `last failure`, after the floor; `later aaaa answer`, `later a answer`. `held` is true if it was due
///   earlier and a pause held it back; `listed` is the place of its address in the interlaced list, `of` the length
///   of that list, and `turn` whose turn it was there: its family `leads`, it was `in turn`, or `other run out` (RFC
///   8305 section 4);
/// - `failed`, an `attempt`; `won` by an `attempt`, `exhausted` or `limit`, the end; `cancelled` by it, an `attempt`.
///
/// A race with record lines has the members that its record gives, after `line`: `host` and `port`; `at`, the time of
/// tick 0; `from`, the client's address; `client`, its own result, with its `end` (`connected`, `gave-up`, `failed`)
/// and the `ms` from tick 0; `lookups`, each a `family` without an address and the `reason`; `servers`, each the
/// `address` of a name server that was given up, the `reason` and the `ms` until then; `outcomes`, each an `address`
/// with the `reason` that the attempt at it failed, or `untried`, true, if no client tried it.
///
/// After `Memory` the vector is unchanged.
pub fn write_explanation_json<A: Allocator + Copy, B: Allocator, C: Allocator, T: Allocator>(
    alloc: A,
    course: &Course<B>,
    recorded: &Record<'_, C>,
    file: Option<&str>,
    out: &mut Vec<u8, T>,
) -> Result<(), Memory>
    ensures ok { OnOk result (Appends (IsExplanationJson
        (record { file = name_of file.entry; number = course.now.number; line = course.now.line }) recorded.now
        (course_times course.now) course.now.addresses.items course.now.events.items) out.old.items out.new.items) }
    ensures err { OnErr result (out.new.items ≡ out.old.items) }
{
    let place = Place {
        file,
        number: course.number,
        line: course.line,
    };
    let text = explanation_of(alloc, place, recorded, course)?;
    out.extend_from_slice(&text)
}
