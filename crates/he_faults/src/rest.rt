//! The rest of an input, which begins with the race of a fault.

/// The rest of an input, from one of its lines on.
#[derive(Clone, Copy)]
pub struct RestOfInput<'t> {
    pub text: &'t [u8],
    /// The number of lines before it.
    pub lines: u64,
}
