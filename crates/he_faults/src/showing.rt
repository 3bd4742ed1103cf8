// A line as it is printed, with a mark below it.

use crate::limits::{MOST_SHOWN, SHOWN_BEFORE};
use crate::place::Span;
use he_addr::Memory;
use std::alloc::Allocator;

// The indentation of a printed line.
const INDENT: &[u8] = b"  ";

// Replaces the part of a line that isn't printed.
const LEFT_OUT: &[u8] = b"..";

const DIGITS: &[u8; 16] = b"0123456789abcdef";

// Appends the line, and a line with the mark below the part. An empty line is not printed.
pub(crate) fn show_line<A: Allocator>(
    line: &[u8],
    part: Span,
    text: &mut Vec<u8, A>,
) -> Result<(), Memory> {
    if line.is_empty() {
        return Ok(());
    }
    let shown = shown_part(line.len(), part.start);
    show_bytes(line, shown, text)?;
    show_mark(line, shown, part, text)
}

// The part that is printed of a line of this length with a mark that begins at byte `mark`.
fn shown_part(len: usize, mark: usize) -> Span {
    if len <= MOST_SHOWN {
        return Span { start: 0, end: len };
    }
    let start = mark.saturating_sub(SHOWN_BEFORE).min(len - MOST_SHOWN);
    Span {
        start,
        end: start + MOST_SHOWN,
    }
}

fn show_bytes<A: Allocator>(line: &[u8], shown: Span, text: &mut Vec<u8, A>) -> Result<(), Memory> {
    text.extend_from_slice(INDENT)?;
    if shown.start > 0 {
        text.extend_from_slice(LEFT_OUT)?;
    }
    for byte in part_of(line, shown.start, shown.end) {
        show_byte(*byte, text)?;
    }
    if shown.end < line.len() {
        text.extend_from_slice(LEFT_OUT)?;
    }
    text.push(b'\n')?;
    Ok(())
}

// The bytes from `start` to `end`; none if they are not in the line.
fn part_of(line: &[u8], start: usize, end: usize) -> &[u8] {
    line.get(start..end).unwrap_or(b"".as_slice())
}

// Appends a byte: as it is if it is printable, else as an escape.
fn show_byte<A: Allocator>(byte: u8, text: &mut Vec<u8, A>) -> Result<(), Memory> {
    match byte {
        b'\t' => text.extend_from_slice(b"\\t")?,
        b'\r' => text.extend_from_slice(b"\\r")?,
        b'\\' => text.extend_from_slice(b"\\\\")?,
        b' '..=b'~' => text.push(byte)?,
        _ => {
            let high = DIGITS[usize::from(byte >> 4)];
            let low = DIGITS[usize::from(byte & 0xf)];
            text.extend_from_slice(&[b'\\', b'x', high, low])?;
        }
    }
    Ok(())
}

// The number of columns of the byte.
fn width(byte: u8) -> usize {
    match byte {
        b'\t' | b'\r' | b'\\' => 2,
        b' '..=b'~' => 1,
        _ => 4,
    }
}

// Appends the mark: below each byte of the part that is printed or, if the part is empty, below its place.
fn show_mark<A: Allocator>(
    line: &[u8],
    shown: Span,
    part: Span,
    text: &mut Vec<u8, A>,
) -> Result<(), Memory> {
    text.extend_from_slice(INDENT)?;
    if shown.start > 0 {
        push_times(b' ', LEFT_OUT.len(), text)?;
    }
    for byte in part_of(line, shown.start, part.start) {
        push_times(b' ', width(*byte), text)?;
    }
    let marked = part_of(line, part.start, part.end.min(shown.end));
    for byte in marked {
        push_times(b'^', width(*byte), text)?;
    }
    if marked.is_empty() {
        text.push(b'^')?;
    }
    text.push(b'\n')?;
    Ok(())
}

fn push_times<A: Allocator>(byte: u8, times: usize, text: &mut Vec<u8, A>) -> Result<(), Memory> {
    for _ in 0..times {
        text.push(byte)?;
    }
    Ok(())
}
