// The results of a call.

ghost use Rattle.std.specs.Prelude.{◌≡◌, ◌≢◌};
ghost use Rattle.he_c.specs.Answers.{Leaves, answer_by, no_details, details_of};
ghost use Rattle.he_c.specs.declared.codes.TheConstants.{NO_MEMORY};

use crate::codes::{BUFFER_TOO_SMALL, DONE, FAULT, fault_kind, fault_line};
use he_inputs::InputFault;

/// The details of a call, besides its answer: `struct he_result` of `he.h`.
#[repr(C)]
#[derive(Clone, Copy)]
pub struct CallDetails {
    /// The length of the whole text, in bytes.
    pub length: u64,
    /// The line of the fault, counted from 1; 0 without a fault.
    pub line: u64,
    /// The kind of the fault; 0 without a fault.
    pub kind: u32,
}

// No details.
pub(crate) const NOTHING: CallDetails = CallDetails {
    length: 0,
    line: 0,
    kind: 0,
};

fn answer_by(fault: Option<InputFault>) -> u32
    ensures { result ≡ answer_by fault }
{
    match fault {
        None => DONE,
        Some(_) => FAULT,
    }
}

// Copies the text to the front of the buffer if it fits, and sets the details of the text and the fault.
pub(crate) fn leave(
    text: &[u8],
    fault: Option<InputFault>,
    buffer: &mut [u8],
    details: &mut CallDetails,
) -> u32
    ensures left { Leaves text.now fault buffer.old buffer.new details.new result }
    ensures done { result ≢ NO_MEMORY }
{
    *details = CallDetails {
        length: text.len() as u64,
        line: fault_line(fault),
        kind: fault_kind(fault),
    };
    if text.len() > buffer.len() {
        return BUFFER_TOO_SMALL;
    }
    buffer[..text.len()].copy_from_slice(text);
    answer_by(fault)
}
