//! The limits of the printed part of a line.

/// The maximum number of bytes printed of a line: of a longer one, those around the mark.
pub const MOST_SHOWN: usize = 72;

/// The number of bytes printed before the mark, if the front of the line is cut off.
pub const SHOWN_BEFORE: usize = 24;
