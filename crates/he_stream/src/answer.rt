//! The results of one step of a stream.

/// The result of a step that takes bytes from an input.
#[derive(Clone, Copy, Debug, PartialEq, Eq)]
pub enum Taken {
    /// This number of bytes, at least one, is at the front of the buffer.
    Bytes(usize),
    /// The input has ended.
    End,
    /// The step was interrupted; try it again.
    Interrupted,
    /// The step failed.
    Failed,
}

/// The result of a step that puts bytes into an output.
#[derive(Clone, Copy, Debug, PartialEq, Eq)]
pub enum Put {
    /// This number of bytes, at least one, was taken from the front of the text.
    Bytes(usize),
    /// No byte was taken.
    Full,
    /// The step was interrupted; try it again.
    Interrupted,
    /// The step failed.
    Failed,
}

/// The result of a flush of an output.
#[derive(Clone, Copy, Debug, PartialEq, Eq)]
pub enum Flushed {
    /// The output's bytes were passed on.
    Done,
    /// The flush was interrupted; try it again.
    Interrupted,
    /// The flush failed.
    Failed,
}
