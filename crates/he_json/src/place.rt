//! The place of a race in the input.

/// The place of a race: each object of a race begins with it.
#[derive(Clone, Copy)]
pub struct Place<'f> {
    /// The name of the race's file, if it has one.
    pub file: Option<&'f str>,

    /// The race's number in its input, counted from 1.
    pub number: usize,

    /// The line of the input at which it begins.
    pub line: u64,
}
