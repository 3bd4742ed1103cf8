//! The fault of an input.

use he_words::TextFault;

/// The fault of an input after its whole races.
#[derive(Clone, Copy, Debug, PartialEq, Eq)]
pub enum InputFault {
    /// A fault of the text. Its line is counted over the whole input, from 1.
    Text(TextFault),
    /// The input broke off.
    Read,
}
