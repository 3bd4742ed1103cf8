// The rows of an SVG image.

ghost use Rattle.std.specs.Prelude.{◌≡◌, ◌≤◌, ◌++◌, OnOk};
ghost use Rattle.he_print.specs.Parts.{fact_of};
ghost use Rattle.he_draw.specs.Picture.{told};
ghost use Rattle.he_draw.specs.Svg.{bar_places, image_row_facts, image_rows_facts, shape_facts, top_of, x_of};

use crate::frame::column;
use crate::look::{Look, signs_of};
use crate::rows::{Row, What};
use crate::words::{class_of, label, push_words};
use he_addr::Memory;
use he_print::{Part, push_parts};
use he_story::Said;
use std::alloc::Allocator;

/// The time's first column in an image, the number of its columns, the height of a row, and how far after its bar the
/// sign of an attempt's outcome is.
pub const LEFT: u64 = 300;

pub const COLUMNS: usize = 501;

pub const ROW: u64 = 24;

pub const SIGN: u64 = 4;

/// The distance of a row from the top.
pub(crate) fn top_of(place: usize) -> u64
    ensures { result ≡ top_of place }
{
    (ROW as u128 * (place as u128 + 2)).min(u64::MAX as u128) as u64
}

/// The rows of an image, one below the other.
pub(crate) fn push_shapes<A: Allocator>(
    end: u64,
    rows: &[Row],
    parts: &mut Vec<Part<Said>, A>,
) -> Result<(), Memory>
    ensures { OnOk result (told parts.new.items ≡ told parts.old.items ++ image_rows_facts end 0 rows.now) }
{
    for (place, row) in rows.iter().enumerate() {
        push_row(end, place, *row, parts)?;
    }
    Ok(())
}

// Label, shapes and words of the row of this place.
fn push_row<A: Allocator>(
    end: u64,
    place: usize,
    row: Row,
    parts: &mut Vec<Part<Said>, A>,
) -> Result<(), Memory>
    ensures { OnOk result (told parts.new.items ≡ told parts.old.items ++ image_row_facts end place row) }
{
    let opening = [
        Part::Words(b"<g transform='translate(0 "),
        Part::Number(top_of(place)),
        Part::Words(b")'><text y='17'>"),
        label(row.what),
        Part::Words(b"</text>"),
    ];
    push_parts(&opening, parts)?;
    push_shape(x_of(end, row.from), x_of(end, row.to), row.what, parts)?;
    push_parts(&[Part::Words(b"<text x='820' y='17'>")], parts)?;
    push_words(row, parts)?;
    push_parts(&[Part::Words(b"</text></g>\n")], parts)
}

// The distance of a tick from the left, in a race that ends at `end`.
fn x_of(end: u64, tick: u64) -> u64
    ensures value { result ≡ x_of end tick }
    ensures range { result ≤ 800 }
{
    LEFT + column(COLUMNS, end, tick) as u64
}

// The shapes of a row between `left` and `right`.
fn push_shape<A: Allocator>(
    left: u64,
    right: u64,
    what: What,
    parts: &mut Vec<Part<Said>, A>,
) -> Result<(), Memory>
    requires { right ≤ 800 }
    ensures { OnOk result (told parts.new.items ≡ told parts.old.items ++ shape_facts left right what) }
{
    let x = Part::Number(left);
    let dot = [
        Part::Words(b"<circle cx='"),
        x,
        Part::Words(b"' cy='12' r='4'/>"),
    ];
    match what {
        What::Answer(_, _) => push_parts(&dot, parts),
        What::Wait(_) => {
            push_parts(&bar(Part::Words(b"wait"), left, right), parts)?;
            push_parts(&dot, parts)
        }
        What::Missing(_) => Ok(()),
        What::Pause => push_parts(&bar(Part::Words(b"pause"), left, right), parts),
        What::Attempt(_, became) => {
            let kind = Part::Says(became, class_of(became));
            let sign = Part::Says(became, signs_of(Look::Unicode).of(became));
            let after = Part::Number(right + SIGN);
            push_parts(&bar(kind, left, right), parts)?;
            push_parts(
                &[
                    Part::Words(b"<text x='"),
                    after,
                    Part::Words(b"' y='17'>"),
                    sign,
                    Part::Words(b"</text>"),
                ],
                parts,
            )
        }
    }
}

// A bar of a kind between `left` and `right`.
fn bar(kind: Part<Said>, left: u64, right: u64) -> [Part<Said>; 7]
    requires { right ≤ 800 }
    ensures { told result ≡ fact_of kind ++ bar_places left right }
{
    [
        Part::Words(b"<rect class='"),
        kind,
        Part::Words(b"' x='"),
        Part::Number(left),
        Part::Words(b"' y='7' width='"),
        Part::Number(right.saturating_sub(left) + 1),
        Part::Words(b"' height='10'/>"),
    ]
}
