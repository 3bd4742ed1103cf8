// The lines of a text, with their numbers.

ghost use Rattle.std.specs.Prelude.{◌≡◌, map, IfOk};
ghost use Rattle.he_kernel.specs.Lines.{numbered, plain};

use crate::parts::{Cut, Parts};
use he_addr::Memory;
use std::alloc::Allocator;

/// A line of a text; lines count from 1.
#[derive(Clone, Copy, Debug)]
pub struct NumberedLine<'t> {
    pub number: u64,
    pub text: &'t [u8],
}

/// The non-empty lines of a text.
///
/// # Errors
///
/// [`Memory`] if an allocation fails.
#[tactic(auto, unfolding(crate::specs::Lines::numbered), using(crate::proofs::Cutting::few_parts))]
pub fn read_lines<'t, A: Allocator + Copy>(
    alloc: A,
    text: &'t [u8],
) -> Result<Vec<NumberedLine<'t>, A>, Memory>
    ensures { IfOk result (λ lines. map plain lines.items ≡ numbered text.now) }
{
    let mut lines = Vec::new(alloc);
    let mut number = 0;
    let mut parts = Parts::new(Cut::Lines, text);
    while let Some(part) = parts.next() {
        number += 1;
        if !part.is_empty() {
            lines.push(NumberedLine { number, text: part })?;
        }
    }
    Ok(lines)
}
