//! The terminal that pictures are drawn for.

use he_options::limits::DEFAULT_WIDTH;

/// The terminal that pictures are drawn for.
#[derive(Clone, Copy, Debug, PartialEq, Eq)]
pub struct Terminal {
    /// Its columns.
    pub columns: u16,
    /// Whether it shows only ASCII.
    pub is_ascii: bool,
}

impl Terminal {
    /// A terminal of 80 columns that shows Unicode.
    pub const USUAL: Terminal = Terminal {
        columns: DEFAULT_WIDTH,
        is_ascii: false,
    };
}
