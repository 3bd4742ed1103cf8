//! The result of a check: the numbers of races and lines, or a fault.
ghost use Rattle.std.specs.Prelude.{IfErr, IfOk};
ghost use Rattle.he_check.specs.Checked.{IsRight, IsWrong};
ghost use Rattle.he_check.specs.Slips.{HasWarnings};

use crate::counting::Counted;
use crate::form::Form;
use crate::slips::Warning;
use he_inputs::{Ending, StreamFault};
use std::alloc::Allocator;

/// The numbers of races and lines of an input without a fault.
#[derive(Clone, Copy, Debug, PartialEq, Eq)]
pub struct Checked {
    /// The number of races.
    pub races: u64,
    /// The number of lines.
    pub lines: u64,
}

/// Reads the races of an input one by one, counts them and the input's lines, and returns a warning for each likely
/// mistake in a race, in the order of the races, or for an input without races. `is_broken`: the input broke off after
/// these bytes.
///
/// # Errors
///
/// - `Text` with the first fault of the text. Its line is counted over the whole input, from 1. With more than 4,096
///   races, the fault is `TooMany` at the first line after the 4,096th.
/// - `Read` if the input broke off and its text has no fault before that.
/// - `Memory` if an allocation failed.
pub fn check_input<A: Allocator + Copy>(
    alloc: A,
    input: &[u8],
    is_broken: bool,
) -> Result<(Checked, Vec<Warning, A>), StreamFault>
    ensures right { IfOk result (λ found. IsRight input.now is_broken found.0) }
    ensures warned { IfOk result (λ found. HasWarnings input.now found.1.items) }
    ensures wrong { IfErr result (IsWrong input.now is_broken) }
{
    let mut counted = Counted::new(alloc, false, Form::Lines);
    counted.go_on(alloc, input, Ending::of(is_broken))?;
    match counted.fault(is_broken) {
        Some(fault) => Err(fault),
        None => Ok(counted.outcome()?),
    }
}
