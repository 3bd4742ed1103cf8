// The exported functions that write a text for an input.

ghost use Rattle.std.specs.Prelude.{◌≡◌, ◌≢◌};
ghost use Rattle.he_c.specs.Answers.{LeavesNothing};
ghost use Rattle.he_c.specs.Checks.{LeavesCheck};
ghost use Rattle.he_c.specs.Outputs.{Anywhere, IsExplanationText, IsOrderText, IsTextOf, IsTranscriptText, LeavesOutput};
ghost use Rattle.he_c.specs.declared.codes.TheConstants.{NO_MEMORY};

use crate::answer::{CallDetails, NOTHING, leave};
use crate::checking::check_of;
use crate::codes::NO_MEMORY;
use crate::telling::{Content, output_of};
use std::alloc::Global;

/// Writes the transcripts of the races of the text, up to its first fault.
#[unsafe(no_mangle)]
pub extern "C" fn he_replay(
    alloc: Global,
    text: &[u8],
    buffer: &mut [u8],
    details: &mut CallDetails,
) -> u32
    ensures left { result ≢ NO_MEMORY
        → LeavesOutput (Anywhere IsTranscriptText) text.now buffer.old buffer.new details.new result }
    ensures memory { result ≡ NO_MEMORY → LeavesNothing buffer.old buffer.new details.new }
{
    tell(alloc, text, Content::Transcript, buffer, details)
}

/// Writes the orders of the addresses of the races of the text, up to its first fault.
#[unsafe(no_mangle)]
pub extern "C" fn he_order(
    alloc: Global,
    text: &[u8],
    buffer: &mut [u8],
    details: &mut CallDetails,
) -> u32
    ensures left { result ≢ NO_MEMORY
        → LeavesOutput (Anywhere IsOrderText) text.now buffer.old buffer.new details.new result }
    ensures memory { result ≡ NO_MEMORY → LeavesNothing buffer.old buffer.new details.new }
{
    tell(alloc, text, Content::Order, buffer, details)
}

/// Writes an explanation of each race of the text as a JSON object, up to its first fault.
#[unsafe(no_mangle)]
pub extern "C" fn he_explain(
    alloc: Global,
    text: &[u8],
    buffer: &mut [u8],
    details: &mut CallDetails,
) -> u32
    ensures left { result ≢ NO_MEMORY → LeavesOutput IsExplanationText text.now buffer.old buffer.new details.new result }
    ensures memory { result ≡ NO_MEMORY → LeavesNothing buffer.old buffer.new details.new }
{
    tell(alloc, text, Content::Explanation, buffer, details)
}

/// Writes the number of races and lines of the text, or the explanation of its first fault.
#[unsafe(no_mangle)]
pub extern "C" fn he_check(
    alloc: Global,
    text: &[u8],
    buffer: &mut [u8],
    details: &mut CallDetails,
) -> u32
    ensures left { result ≢ NO_MEMORY → LeavesCheck text.now buffer.old buffer.new details.new result }
    ensures memory { result ≡ NO_MEMORY → LeavesNothing buffer.old buffer.new details.new }
{
    match check_of(alloc, text) {
        Ok(output) => leave(output.text.as_slice(), output.fault, buffer, details),
        Err(_) => {
            *details = NOTHING;
            NO_MEMORY
        }
    }
}

fn tell(
    alloc: Global,
    input: &[u8],
    content: Content,
    buffer: &mut [u8],
    details: &mut CallDetails,
) -> u32
    ensures left { result ≢ NO_MEMORY → LeavesOutput (IsTextOf content) input.now buffer.old buffer.new details.new result }
    ensures memory { result ≡ NO_MEMORY → LeavesNothing buffer.old buffer.new details.new }
{
    match output_of(alloc, input, content) {
        Ok(output) => leave(output.text.as_slice(), output.fault, buffer, details),
        Err(_) => {
            *details = NOTHING;
            NO_MEMORY
        }
    }
}
