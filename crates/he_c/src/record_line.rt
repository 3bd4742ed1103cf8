// The exported function that writes a record line.

ghost use Rattle.std.specs.Prelude.{◌≡◌, ◌≢◌, IfOk, MatchResult, length};
ghost use Rattle.he_record.specs.Written.{record_text};
ghost use Rattle.he_c.specs.Answers.{LeavesNothing};
ghost use Rattle.he_c.specs.Records.{AreNoWords, IsNoLine, IsRecordLine, IsWritten, LeavesRecordLine, recorded};
ghost use Rattle.he_c.specs.declared.codes.TheConstants.{FAULT, NO_MEMORY};
ghost use Rattle.he_words.specs.declared.fault.TextKind.TheVariants as kinds;

use crate::answer::{CallDetails, NOTHING, leave};
use crate::codes::{FAULT, NO_MEMORY, kind_code};
use he_addr::Memory;
use he_record::{Record, read_record, write_record};
use he_words::{TextFault, TextKind};
use std::alloc::Global;

/// Writes a record line of these words.
#[unsafe(no_mangle)]
pub extern "C" fn he_record_line(
    alloc: Global,
    words: &[u8],
    buffer: &mut [u8],
    details: &mut CallDetails,
) -> u32
    ensures left { result ≢ NO_MEMORY → result ≢ FAULT
        → LeavesRecordLine words.now buffer.old buffer.new details.new result }
    ensures fault { result ≡ FAULT → AreNoWords words.now }
    ensures same { result ≡ FAULT → buffer.new ≡ buffer.old }
    ensures memory { result ≡ NO_MEMORY → LeavesNothing buffer.old buffer.new details.new }
{
    match record_line(alloc, words) {
        Ok(Ok(line)) => leave(line.as_slice(), None, buffer, details),
        Ok(Err(kind)) => {
            *details = fault_details(kind);
            FAULT
        }
        Err(_) => {
            *details = NOTHING;
            NO_MEMORY
        }
    }
}

fn fault_details(kind: TextKind) -> CallDetails {
    CallDetails {
        length: 0,
        line: 1,
        kind: kind_code(kind),
    }
}

// The record line of these words, or why there is none.
fn record_line(alloc: Global, words: &[u8]) -> Result<Result<Vec<u8>, TextKind>, Memory>
    ensures { IfOk result (λ made. MatchResult made (λ line. IsRecordLine words.now line.items)
        (λ _. AreNoWords words.now)) }
{
    let text = recorded(alloc, words)?;
    line_in(alloc, text.as_slice())
}

// The record line that the text consists of, as it is written, or why there is none.
fn line_in(alloc: Global, text: &[u8]) -> Result<Result<Vec<u8>, TextKind>, Memory>
    ensures { IfOk result (λ made. MatchResult made (λ line. IsWritten text.now line.items) (λ _. IsNoLine text.now)) }
{
    match read_record(alloc, text) {
        Ok((found, end)) => {
            if end < text.len() {
                return Ok(Err(TextKind::Word));
            }
            if line_count(&found) != 1 {
                return Ok(Err(TextKind::Word));
            }
            Ok(Ok(text_of(alloc, &found)?))
        }
        Err(fault) => Ok(Err(kind_of(fault)?)),
    }
}

// The kind of the fault, unless an allocation failed.
fn kind_of(fault: TextFault) -> Result<TextKind, Memory>
    ensures { IfOk result (λ kind. (kind ≡ fault.kind) × (kind ≢ kinds.Memory)) }
{
    match fault.kind {
        TextKind::Memory => Err(Memory),
        kind => Ok(kind),
    }
}

fn line_count(found: &Record<'_>) -> usize
    ensures { result ≡ length found.now }
{
    found.lines().len()
}

// The words with the first word of a record line and a line end.
fn recorded(alloc: Global, words: &[u8]) -> Result<Vec<u8>, Memory>
    ensures { IfOk result (λ text. text.items ≡ recorded words.now) }
{
    let mut text = Vec::new(alloc);
    text.extend_from_slice(b"record ")?;
    text.extend_from_slice(words)?;
    text.extend_from_slice(b"\n")?;
    Ok(text)
}

fn text_of(alloc: Global, found: &Record<'_>) -> Result<Vec<u8>, Memory>
    ensures { IfOk result (λ text. text.items ≡ record_text found.now) }
{
    let mut text = Vec::new(alloc);
    write_record(found, &mut text)?;
    Ok(text)
}
