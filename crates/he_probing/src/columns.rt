//! Rows of cells in columns.

use crate::shown::Piece;
use he_addr::{Ip, Memory, write_ip, write_number};
use he_print::{Part, write_parts};
use std::alloc::Global;

/// The cells of a row.
pub(crate) type Cells = Vec<Vec<u8>>;

/// A cell with the words.
pub(crate) fn word_cell(alloc: Global, words: &[u8]) -> Result<Vec<u8>, Memory> {
    Ok(Vec::from_slice(alloc, words)?)
}

/// A cell with the address.
pub(crate) fn ip_cell(alloc: Global, ip: Ip) -> Result<Vec<u8>, Memory> {
    let mut cell = Vec::new(alloc);
    write_ip(ip, &mut cell)?;
    Ok(cell)
}

/// A cell with the number.
pub(crate) fn number_cell(alloc: Global, number: u64) -> Result<Vec<u8>, Memory> {
    let mut cell = Vec::new(alloc);
    write_number(number, &mut cell)?;
    Ok(cell)
}

/// Appends the rows: each column is as wide as its widest cell, and two spaces lie between columns. The first `texts`
/// columns are aligned to the left, the others to the right.
pub(crate) fn write_columns(
    alloc: Global,
    texts: usize,
    rows: &[Cells],
    out: &mut Vec<u8>,
) -> Result<(), Memory> {
    let widths = widths_of(alloc, rows)?;
    for row in rows {
        write_row(texts, row, &widths, out)?;
    }
    Ok(())
}

fn widths_of(alloc: Global, rows: &[Cells]) -> Result<Vec<usize>, Memory> {
    let mut widths: Vec<usize> = Vec::new(alloc);
    for row in rows {
        for (column, cell) in row.iter().enumerate() {
            match widths.get_mut(column) {
                Some(width) => *width = cell.len().max(*width),
                None => widths.push(cell.len())?,
            }
        }
    }
    Ok(widths)
}

fn write_row(
    texts: usize,
    cells: &[Vec<u8>],
    widths: &[usize],
    out: &mut Vec<u8>,
) -> Result<(), Memory> {
    for (column, cell) in cells.iter().enumerate() {
        let width = widths.get(column).copied().unwrap_or(0);
        let space = width.saturating_sub(cell.len());
        let (before, after) = if column < texts {
            (0, space)
        } else {
            (space, 0)
        };
        let gap = if column + 1 < cells.len() {
            after.saturating_add(2)
        } else {
            0
        };
        write_spaces(before, out)?;
        out.extend_from_slice(cell)?;
        write_spaces(gap, out)?;
    }
    out.push(b'\n')?;
    Ok(())
}

fn write_spaces(count: usize, out: &mut Vec<u8>) -> Result<(), Memory> {
    let spaces: [Piece; 1] = [Part::Repeated(count, b" ")];
    write_parts(&spaces, out)
}
