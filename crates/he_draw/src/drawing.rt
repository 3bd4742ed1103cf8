// The rows of a picture.

ghost use Rattle.std.specs.Prelude.{◌≡◌, ◌++◌, [], OnOk};
ghost use Rattle.std.specs.List.{flat_map};
ghost use Rattle.he_print.specs.Parts.{fact_of};
ghost use Rattle.he_draw.specs.Picture.{bar_facts, columns_facts, row_facts, times, told};

use crate::frame::{Frame, column};
use crate::look::{BLANK, Run, Signs};
use crate::rows::{Row, What};
use crate::words::{label, push_words};
use he_addr::{Family, Memory};
use he_print::{Part, push_parts};
use he_story::Said;
use std::alloc::Allocator;

// The number of signs that are written at once.
const RUN: usize = 8;

// The widest address has 39 characters.
const GAP: &[u8] = b"                                        ";

/// The rows of a picture. `labels` has the width of each label.
pub(crate) fn push_rows<A: Allocator>(
    frame: Frame,
    labels: &[usize],
    rows: &[Row],
    parts: &mut Vec<Part<Said>, A>,
) -> Result<(), Memory>
    ensures { OnOk result (told parts.new.items ≡ told parts.old.items
        ++ flat_map (row_facts frame.columns frame.end) rows.now) }
{
    for (place, row) in rows.iter().enumerate() {
        let label = labels.get(place).copied().unwrap_or(frame.label);
        push_row(frame, frame.label.saturating_sub(label), *row, parts)?;
    }
    Ok(())
}

// LABEL |    BAR     | WORDS
fn push_row<A: Allocator>(
    frame: Frame,
    gap: usize,
    row: Row,
    parts: &mut Vec<Part<Said>, A>,
) -> Result<(), Memory>
    ensures { OnOk result (told parts.new.items ≡ told parts.old.items ++ row_facts frame.columns frame.end row) }
{
    let from = column(frame.columns, frame.end, row.from);
    let to = column(frame.columns, frame.end, row.to);
    push_parts(
        &[label(row.what), blank(gap), Part::Words(frame.signs.left)],
        parts,
    )?;
    push_columns(frame, from, to, row.what, parts)?;
    push_parts(&[Part::Words(frame.signs.right)], parts)?;
    push_words(row, parts)?;
    push_parts(&[Part::Words(b"\n")], parts)
}

/// This number of spaces, at most 40.
pub(crate) fn blank(count: usize) -> Part<Said>
    ensures { fact_of result ≡ [] }
{
    Part::Words(&GAP[..count.min(GAP.len())])
}

// All columns of a row; its own are `from` to `to`.
fn push_columns<A: Allocator>(
    frame: Frame,
    from: usize,
    to: usize,
    what: What,
    parts: &mut Vec<Part<Said>, A>,
) -> Result<(), Memory>
    ensures { OnOk result (told parts.new.items ≡ told parts.old.items ++ columns_facts frame.columns from to what) }
{
    let last = frame.columns.saturating_sub(1);
    push_parts(&times(BLANK, from), parts)?;
    push_bar(frame.signs, what, to.saturating_sub(from), parts)?;
    push_parts(&times(BLANK, last.saturating_sub(to)), parts)
}

// A row's own columns, `more + 1` of them.
fn push_bar<A: Allocator>(
    signs: Signs,
    what: What,
    more: usize,
    parts: &mut Vec<Part<Said>, A>,
) -> Result<(), Memory>
    ensures { OnOk result (told parts.new.items ≡ told parts.old.items ++ bar_facts what more) }
{
    match what {
        What::Answer(family, _) => {
            push_parts(&[Part::Says(Said::Answered(family), signs.answer)], parts)
        }
        What::Wait(_) => {
            push_parts(
                &[Part::Says(Said::Answered(Family::V4), signs.answer)],
                parts,
            )?;
            push_parts(&times(signs.wait, more), parts)
        }
        What::Missing(_) => push_parts(&[Part::Words(b" ")], parts),
        What::Pause => {
            push_parts(&[Part::Says(Said::Paused, signs.pause.0)], parts)?;
            push_parts(&times(signs.pause, more), parts)
        }
        What::Attempt(_, became) => {
            push_parts(&times(signs.attempt, more), parts)?;
            push_parts(&[Part::Says(became, signs.of(became))], parts)
        }
    }
}

// A sign, `count` times.
fn times(run: Run, count: usize) -> [Part<Said>; 2]
    ensures { told result ≡ times count }
{
    [
        Part::Repeated(count / RUN, run.1),
        Part::Repeated(count % RUN, run.0),
    ]
}
