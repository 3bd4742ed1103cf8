//! Decisions and reports of a way, beside its bytes.

use crate::fault::PumpFault;

/// Decides how long a way goes on, and acts on its end.
pub trait Watch {
    /// Whether another step of the input is wanted. It may wait until one is possible.
    fn wants_more(&mut self) -> bool;

    /// Is called at the way's end, with its result.
    fn end(&mut self, end: Result<(), PumpFault>);
}
