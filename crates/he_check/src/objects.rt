// The report of an input as a JSON object.
ghost use Rattle.std.specs.Prelude.{◌≡◌, ◌++◌, drop, option_map, IfOk, OnOk};
ghost use Rattle.std.specs.List.{flat_map};
ghost use Rattle.he_check.specs.Objects.{end_member, entry_text, faults_member, file_text, list_text, more_member, object_text, right_members, slip_word, warning_entry};

use crate::input::Checked;
use crate::slips::{Slip, Warning};
use crate::telling::sentence;
use he_addr::{Memory, write_number};
use he_print::write_string;
use std::alloc::Allocator;

// The object of an input: the name of its file, or null, and then these members.
pub(crate) fn object_of<A: Allocator + Copy>(
    alloc: A,
    file: Option<&str>,
    members: &[u8],
) -> Result<Vec<u8, A>, Memory>
    ensures { IfOk result (λ text. text.items ≡ object_text (option_map (λ name. name.now) file.entry) members.now) }
{
    let mut text = Vec::new(alloc);
    text.extend_from_slice(b"{\"file\":")?;
    write_file(file, &mut text)?;
    text.extend_from_slice(members)?;
    text.extend_from_slice(b"}\n")?;
    Ok(text)
}

fn write_file<A: Allocator>(file: Option<&str>, text: &mut Vec<u8, A>) -> Result<(), Memory>
    ensures { OnOk result (text.new.items ≡ text.old.items ++ file_text (option_map (λ name. name.now) file.entry)) }
{
    match file {
        Some(name) => write_string(name.as_bytes(), text),
        None => {
            text.extend_from_slice(b"null")?;
            Ok(())
        }
    }
}

// The members of an input without a fault.
pub(crate) fn right_members<A: Allocator + Copy>(
    alloc: A,
    checked: Checked,
    warnings: &[Warning],
) -> Result<Vec<u8, A>, Memory>
    ensures { IfOk result (λ text. text.items ≡ right_members checked warnings.now) }
{
    let mut text = Vec::new(alloc);
    text.extend_from_slice(b",\"races\":")?;
    write_number(checked.races, &mut text)?;
    text.extend_from_slice(b",\"lines\":")?;
    write_number(checked.lines, &mut text)?;
    text.extend_from_slice(b",\"warnings\":")?;
    write_warnings(alloc, warnings, &mut text)?;
    Ok(text)
}

fn write_warnings<A: Allocator + Copy>(
    alloc: A,
    warnings: &[Warning],
    text: &mut Vec<u8, A>,
) -> Result<(), Memory>
    ensures { OnOk result (text.new.items ≡ text.old.items ++ list_text (flat_map warning_entry warnings.now)) }
{
    let entries = warning_entries(alloc, warnings)?;
    write_list(&entries, text)
}

fn warning_entries<A: Allocator + Copy>(
    alloc: A,
    warnings: &[Warning],
) -> Result<Vec<u8, A>, Memory>
    ensures { IfOk result (λ text. text.items ≡ flat_map warning_entry warnings.now) }
{
    let mut text = Vec::new(alloc);
    for warning in warnings {
        let slip = warning.slip;
        write_entry(warning.line, slip_word(slip), sentence(slip), &mut text)?;
    }
    Ok(text)
}

fn slip_word(slip: Slip) -> &'static [u8]
    ensures { result.now ≡ slip_word slip }
{
    match slip {
        Slip::NoRace => b"no race",
        Slip::NoSource => b"no source",
        Slip::IdleFloor => b"idle floor",
        Slip::NoRoute(_) => b"no route",
        Slip::NoAnswer(_) => b"no answer",
        Slip::LateAnswer(_) => b"late answer",
        Slip::UnusableAnswer(_) => b"unusable answer",
        Slip::NoSourceOf(_) => b"no source of the family",
        Slip::LateOutcome(_) => b"late outcome",
        Slip::Unanswered => b"unanswered address",
    }
}

// The members of an input with faults: the entries, the number of further faults, and whether the input broke off.
pub(crate) fn faults_member<A: Allocator + Copy>(
    alloc: A,
    entries: &[u8],
    more: u64,
    is_broken: bool,
) -> Result<Vec<u8, A>, Memory>
    ensures { IfOk result (λ text. text.items ≡ faults_member entries.now more is_broken) }
{
    let mut text = Vec::new(alloc);
    text.extend_from_slice(b",\"faults\":")?;
    write_list(entries, &mut text)?;
    write_more(more, &mut text)?;
    write_end(is_broken, &mut text)?;
    Ok(text)
}

#[tactic(auto, unfolding(crate::specs::Objects::more_member))]
fn write_more<A: Allocator + Copy>(more: u64, text: &mut Vec<u8, A>) -> Result<(), Memory>
    ensures { OnOk result (text.new.items ≡ text.old.items ++ more_member more) }
{
    if more == 0 {
        return Ok(());
    }
    text.extend_from_slice(b",\"more\":")?;
    write_number(more, text)
}

fn write_end<A: Allocator>(is_broken: bool, text: &mut Vec<u8, A>) -> Result<(), Memory>
    ensures { OnOk result (text.new.items ≡ text.old.items ++ end_member is_broken) }
{
    if is_broken {
        text.extend_from_slice(b",\"broken\":true")?;
    }
    Ok(())
}

// Appends the entries as a list. Each entry begins with a comma; the first comma is left out.
fn write_list<A: Allocator>(entries: &[u8], text: &mut Vec<u8, A>) -> Result<(), Memory>
    ensures { OnOk result (text.new.items ≡ text.old.items ++ list_text entries.now) }
{
    text.push(b'[')?;
    text.extend_from_slice(without_first(entries))?;
    text.push(b']')?;
    Ok(())
}

fn without_first(bytes: &[u8]) -> &[u8]
    ensures { result.now ≡ drop 1 bytes.now }
{
    match bytes {
        [_, rest @ ..] => rest,
        [] => bytes,
    }
}

// Appends a comma, and the object of a fault or of a warning.
pub(crate) fn write_entry<A: Allocator + Copy>(
    line: u64,
    kind: &[u8],
    said: &[u8],
    text: &mut Vec<u8, A>,
) -> Result<(), Memory>
    ensures { OnOk result (text.new.items ≡ text.old.items ++ entry_text line kind.now said.now) }
{
    text.extend_from_slice(b",{\"line\":")?;
    write_number(line, text)?;
    text.extend_from_slice(b",\"kind\":")?;
    write_string(kind, text)?;
    text.extend_from_slice(b",\"text\":")?;
    write_string(said, text)?;
    text.push(b'}')?;
    Ok(())
}
