// Members of objects, and their texts.

ghost use Rattle.std.specs.Prelude.{◌≡◌, ◌++◌, [], map, OnOk};
ghost use Rattle.std.specs.List.{flat_map};
ghost use Rattle.he_json.specs.Json.{address_text, fact_of, member_text, object_text, objects_text, parted, truth_text, value_text};

use he_addr::{Family, Ip, Memory, write_ip, write_number};
use he_course::{Cause, Turn};
use he_print::write_string;
use he_select::DestinationRule;
use std::alloc::Allocator;

/// The meaning of a word of an object.
#[derive(Clone, Copy)]
pub enum Said {
    // An event of a race, the outcome of an attempt, and the end of a race.
    Paused,
    Answered,
    Waits,
    DelayOver,
    Started,
    Failed,
    Cancelled,
    Won,
    Exhausted,
    Limit,

    Family(Family),
    Cause(Cause),
    Turn(Turn),
    Rule(DestinationRule),
    Truth(bool),

    /// Unknown, or none.
    Nothing,
}

// The value of a member.
#[derive(Clone, Copy)]
pub(crate) enum Value {
    Number(u64),
    NumberOrNull(Option<u64>),
    Address(Ip),
    AddressOrNull(Option<Ip>),
    Truth(bool),

    // A word with this meaning.
    Says(Said, &'static [u8]),
}

// A member of an object: its name and its value.
#[derive(Clone, Copy)]
pub(crate) struct Member(pub(crate) &'static [u8], pub(crate) Value);

// Appends members to a row.
pub(crate) fn push<A: Allocator>(members: &[Member], row: &mut Vec<Member, A>) -> Result<(), Memory>
    ensures { OnOk result (flat_map fact_of row.new.items ≡ flat_map fact_of row.old.items ++ flat_map fact_of
        members.now) }
{
    row.extend_from_slice(members)
}

pub(crate) fn write_words<A: Allocator + Copy>(
    words: &[u8],
    text: &mut Vec<u8, A>,
) -> Result<(), Memory>
    ensures { OnOk result (text.new.items ≡ text.old.items ++ words.now) }
{
    text.extend_from_slice(words)?;
    Ok(())
}

pub(crate) fn write_address<A: Allocator + Copy>(
    ip: Ip,
    text: &mut Vec<u8, A>,
) -> Result<(), Memory>
    ensures { OnOk result (text.new.items ≡ text.old.items ++ address_text ip) }
{
    write_words(b"\"", text)?;
    write_ip(ip, text)?;
    write_words(b"\"", text)
}

fn truth_text(holds: bool) -> &'static [u8]
    ensures { result.now ≡ truth_text holds }
{
    if holds { b"true" } else { b"false" }
}

fn write_value<A: Allocator + Copy>(value: Value, text: &mut Vec<u8, A>) -> Result<(), Memory>
    ensures { OnOk result (text.new.items ≡ text.old.items ++ value_text value) }
{
    match value {
        Value::Number(number) | Value::NumberOrNull(Some(number)) => write_number(number, text),
        Value::Address(ip) | Value::AddressOrNull(Some(ip)) => write_address(ip, text),
        Value::Truth(holds) => write_words(truth_text(holds), text),
        Value::Says(_, words) => write_string(words, text),
        Value::NumberOrNull(None) | Value::AddressOrNull(None) => write_words(b"null", text),
    }
}

fn write_member<A: Allocator + Copy>(member: Member, text: &mut Vec<u8, A>) -> Result<(), Memory>
    ensures { OnOk result (text.new.items ≡ text.old.items ++ member_text member) }
{
    write_string(member.0, text)?;
    write_words(b":", text)?;
    write_value(member.1, text)
}

// The members, with a comma between each two.
fn write_members<A: Allocator + Copy>(
    members: &[Member],
    text: &mut Vec<u8, A>,
) -> Result<(), Memory>
    ensures { OnOk result (text.new.items ≡ text.old.items ++ parted [] (map member_text members.now)) }
{
    let mut gap: &[u8] = b"";
    for member in members {
        write_words(gap, text)?;
        write_member(*member, text)?;
        gap = b",";
    }
    Ok(())
}

pub(crate) fn write_object<A: Allocator + Copy>(
    members: &[Member],
    text: &mut Vec<u8, A>,
) -> Result<(), Memory>
    ensures { OnOk result (text.new.items ≡ text.old.items ++ object_text members.now) }
{
    write_words(b"{", text)?;
    write_members(members, text)?;
    write_words(b"}", text)
}

// The objects, with a comma between each two.
fn write_rows<A: Allocator + Copy>(
    rows: &[Vec<Member, A>],
    text: &mut Vec<u8, A>,
) -> Result<(), Memory>
    ensures { OnOk result (text.new.items ≡ text.old.items ++ parted [] (map object_text (map (λ row. row.items)
        rows.now))) }
{
    let mut gap: &[u8] = b"";
    for row in rows {
        write_words(gap, text)?;
        write_object(row, text)?;
        gap = b",";
    }
    Ok(())
}

// An array of objects.
pub(crate) fn write_objects<A: Allocator + Copy>(
    rows: &[Vec<Member, A>],
    text: &mut Vec<u8, A>,
) -> Result<(), Memory>
    ensures { OnOk result (text.new.items ≡ text.old.items ++ objects_text (map (λ row. row.items) rows.now)) }
{
    write_words(b"[", text)?;
    write_rows(rows, text)?;
    write_words(b"]", text)
}
