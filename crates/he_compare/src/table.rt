//! The table of a comparison.
ghost use Rattle.std.specs.Prelude.{◌≡◌, ◌++◌, length, OnOk};
ghost use Rattle.std.specs.List.{flat_map};
ghost use Rattle.he_print.specs.Parts.{fact_of};
ghost use Rattle.he_summary.specs.Written.{Tells};
ghost use Rattle.he_compare.specs.Table.{IsTable, told_facts};

use crate::row::{Row, Said, push_object, push_row};
use he_addr::Memory;
use he_print::{Part, write_parts};
use he_summary::{Form, write_name};
use he_totals::Kept;
use std::alloc::Allocator;

const HEADING: &[u8] =
    b"  p50 ms  p90 ms  p99 ms  attempts       IPv6  sooner   later    same  only with  only without  unknown  settings\n";

/// Appends the table of a comparison: a row for each of these settings; the first row is that of the races with their
/// own settings. As JSON it is an object on one line.
///
/// # Errors
///
/// `Memory` if an allocation was refused. A first part of the table may then have been appended.
pub fn write_table<A: Allocator + Copy>(
    alloc: A,
    form: Form,
    kept: &[Kept],
    settings: &[String],
    text: &mut Vec<u8, A>,
) -> Result<(), Memory>
    ensures { OnOk result (IsTable form kept.now 0 (length settings.now) text.old.items text.new.items) }
{
    let (begin, between, end): (&[u8], &[u8], &[u8]) = match form {
        Form::Text => (HEADING, b"", b""),
        Form::Json | Form::Metrics => (b"{\"rows\":[", b",", b"]}\n"),
    };
    let (before, behind): (&[u8], &[u8]) = match form {
        Form::Text => (b"  ", b"\n"),
        Form::Json | Form::Metrics => (b",\"settings\":", b"}"),
    };
    text.extend_from_slice(begin)?;
    let mut separator: &[u8] = b"";
    for row in 0..settings.len() {
        text.extend_from_slice(separator)?;
        write_row(alloc, form, Row::of(alloc, row, kept)?, text)?;
        write_name(form, before, settings[row].as_str(), behind, text)?;
        separator = between;
    }
    text.extend_from_slice(end)?;
    Ok(())
}

fn write_row<A: Allocator + Copy>(
    alloc: A,
    form: Form,
    row: Row,
    text: &mut Vec<u8, A>,
) -> Result<(), Memory>
    ensures { OnOk result (Tells (told_facts form row) text.old.items text.new.items) }
{
    let mut parts = Vec::new(alloc);
    push_told(form, row, &mut parts)?;
    write_parts(parts.as_slice(), text)
}

fn push_told<A: Allocator>(
    form: Form,
    row: Row,
    text: &mut Vec<Part<Said>, A>,
) -> Result<(), Memory>
    ensures { OnOk result (flat_map fact_of text.new.items ≡ flat_map fact_of text.old.items ++ told_facts form row) }
{
    match form {
        Form::Text => push_row(row, text),
        Form::Json | Form::Metrics => push_object(row, text),
    }
}
