// The measures of a picture.

ghost use Rattle.std.specs.Prelude.{◌≡◌, ◌≤◌, ◌-◌, IfOk};
ghost use Rattle.he_draw.specs.Picture.{column};

use crate::look::{Look, Signs, signs_of};
use crate::rows::Row;
use crate::words::{label as label_of, push_words};
use he_addr::Memory;
use he_print::{Part, write_parts};
use he_story::Said;
use std::alloc::Allocator;

/// The measures that all rows of a picture share: their signs, the width of the labels, the number of columns of the
/// time, and the tick at the right edge.
#[derive(Clone, Copy)]
pub(crate) struct Frame {
    pub(crate) signs: Signs,
    pub(crate) label: usize,
    pub(crate) columns: usize,
    pub(crate) end: u64,
}

/// The time has at least this number of columns, however narrow the terminal is.
pub const LEAST_COLUMNS: usize = 10;

// The two edges and the spaces beside them.
const EDGES: usize = 4;

/// The frame of these rows in a terminal of this width, in a race that ends at this tick; and the width of each
/// label.
pub(crate) fn frame_of<A: Allocator + Copy>(
    alloc: A,
    look: Look,
    width: u16,
    end: u64,
    rows: &[Row],
) -> Result<(Frame, Vec<usize, A>), Memory>
    ensures { IfOk result (λ made. (made.0.end ≡ end) × (LEAST_COLUMNS ≤ made.0.columns)) }
{
    let mut labels = Vec::with_capacity(alloc, rows.len())?;
    let mut text = Vec::new(alloc);
    let mut parts = Vec::new(alloc);
    let (mut label, mut words) = (0, 0);
    for row in rows {
        let own = width_of(&[label_of(row.what)], &mut text)?;
        labels.push(own)?;
        label = own.max(label);
        parts.clear();
        push_words(*row, &mut parts)?;
        words = width_of(&parts, &mut text)?.max(words);
    }
    let beside = label.saturating_add(words).saturating_add(EDGES);
    let frame = Frame {
        signs: signs_of(look),
        label,
        columns: (width as usize).saturating_sub(beside).max(LEAST_COLUMNS),
        end,
    };
    Ok((frame, labels))
}

// The width of parts, all in ASCII.
fn width_of<A: Allocator + Copy>(
    parts: &[Part<Said>],
    text: &mut Vec<u8, A>,
) -> Result<usize, Memory> {
    let mut width: usize = 0;
    for part in parts {
        width = width.saturating_add(part_width(*part, text)?);
    }
    Ok(width)
}

// Writes an address to get its width.
fn part_width<A: Allocator + Copy>(
    part: Part<Said>,
    text: &mut Vec<u8, A>,
) -> Result<usize, Memory> {
    match part {
        Part::Words(words) | Part::Says(_, words) => Ok(words.len()),
        Part::Number(number) => Ok(digits(number)),
        _ => {
            text.clear();
            write_parts(&[part], text)?;
            Ok(text.len())
        }
    }
}

// The number of digits of a number.
fn digits(number: u64) -> usize {
    match number.checked_ilog10() {
        Some(more) => (more as usize).saturating_add(1),
        None => 1,
    }
}

/// The column of a tick; the time up to `end` has `columns`.
pub(crate) fn column(columns: usize, end: u64, tick: u64) -> usize
    ensures value { result ≡ column columns end tick }
    ensures range { result ≤ columns - 1 }
{
    if end == 0 {
        return 0;
    }
    let last = columns.saturating_sub(1);
    (tick.min(end) as u128 * last as u128 / end as u128) as usize
}
