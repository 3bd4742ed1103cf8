// The exported functions that write a line of a record.

ghost use Rattle.std.specs.Prelude.{◌≡◌, ◌≢◌, IfOk, MatchOption, None};
ghost use Rattle.he_write.specs.Written.{host_route_text, host_source_text, setting_text};
ghost use Rattle.he_c.specs.Answers.{Leaves, LeavesNothing};
ghost use Rattle.he_c.specs.Lines.{HasNoAnswer, IsAnswerLine, LeavesAnswer, LeavesNoAnswer, connect_line, pause_line, route_of, source_of};
ghost use Rattle.he_c.specs.declared.codes.TheConstants.{FAULT, NO_MEMORY};

use crate::addresses::{addresses_in, family_in};
use crate::answer::{CallDetails, NOTHING, leave};
use crate::codes::{ADDRESS, FAULT, NO_MEMORY};
use crate::line_texts::{
    answer_line, connect_line, pause_line, route_line, setting_line, source_line,
};
use crate::step::StepNumbers;
use crate::way::WayNumbers;
use he_addr::Memory;
use std::alloc::Global;

/// Writes the line that sets the setting of this name.
#[unsafe(no_mangle)]
pub extern "C" fn he_setting_line(
    alloc: Global,
    name: &[u8],
    value: u64,
    buffer: &mut [u8],
    details: &mut CallDetails,
) -> u32
    ensures left { result ≢ NO_MEMORY
        → Leaves (setting_text name.now value) None buffer.old buffer.new details.new result }
    ensures memory { result ≡ NO_MEMORY → LeavesNothing buffer.old buffer.new details.new }
{
    match setting_line(alloc, name, value) {
        Ok(line) => leave(line.as_slice(), None, buffer, details),
        Err(_) => {
            *details = NOTHING;
            NO_MEMORY
        }
    }
}

/// Writes the line of a family's answer, which came at this tick.
#[unsafe(no_mangle)]
pub extern "C" fn he_answer_line(
    alloc: Global,
    family: u32,
    addresses: &[u8],
    tick: u64,
    buffer: &mut [u8],
    details: &mut CallDetails,
) -> u32
    ensures left { result ≢ NO_MEMORY → result ≢ FAULT
        → LeavesAnswer family addresses.now tick buffer.old buffer.new details.new result }
    ensures fault { result ≡ FAULT → LeavesNoAnswer family addresses.now buffer.old buffer.new details.new }
    ensures memory { result ≡ NO_MEMORY → LeavesNothing buffer.old buffer.new details.new }
{
    match answer_of(alloc, family, addresses, tick) {
        Ok(Some(line)) => leave(line.as_slice(), None, buffer, details),
        Ok(None) => {
            *details = NO_ANSWER;
            FAULT
        }
        Err(_) => {
            *details = NOTHING;
            NO_MEMORY
        }
    }
}

// The details of a call without an answer's line.
const NO_ANSWER: CallDetails = CallDetails {
    length: 0,
    line: 0,
    kind: ADDRESS,
};

// The line of a family's answer. None if there is no such family, or an address is cut off.
fn answer_of(
    alloc: Global,
    family: u32,
    addresses: &[u8],
    tick: u64,
) -> Result<Option<Vec<u8>>, Memory>
    ensures { IfOk result (λ found. MatchOption found (HasNoAnswer family addresses.now)
        (λ line. IsAnswerLine family addresses.now tick line.items)) }
{
    let Some(family) = family_in(family) else {
        return Ok(None);
    };
    let Some(ips) = addresses_in(alloc, family, addresses)? else {
        return Ok(None);
    };
    Ok(Some(answer_line(alloc, family, tick, &ips)?))
}

/// Writes the line of the end of the attempt that this step started: at this tick it was connected, or failed.
#[unsafe(no_mangle)]
pub extern "C" fn he_connect_line(
    alloc: Global,
    start: &StepNumbers,
    connected: u32,
    tick: u64,
    buffer: &mut [u8],
    details: &mut CallDetails,
) -> u32
    ensures left { result ≢ NO_MEMORY
        → Leaves (connect_line start.now connected tick) None buffer.old buffer.new details.new result }
    ensures memory { result ≡ NO_MEMORY → LeavesNothing buffer.old buffer.new details.new }
{
    match connect_line(alloc, start, connected, tick) {
        Ok(line) => leave(line.as_slice(), None, buffer, details),
        Err(_) => {
            *details = NOTHING;
            NO_MEMORY
        }
    }
}

/// Writes the line of the step's pause, or nothing if it has none.
#[unsafe(no_mangle)]
pub extern "C" fn he_pause_line(
    alloc: Global,
    step: &StepNumbers,
    buffer: &mut [u8],
    details: &mut CallDetails,
) -> u32
    ensures left { result ≢ NO_MEMORY → Leaves (pause_line step.now) None buffer.old buffer.new details.new result }
    ensures memory { result ≡ NO_MEMORY → LeavesNothing buffer.old buffer.new details.new }
{
    match pause_line(alloc, step) {
        Ok(line) => leave(line.as_slice(), None, buffer, details),
        Err(_) => {
            *details = NOTHING;
            NO_MEMORY
        }
    }
}

/// Writes the line of the way's source.
#[unsafe(no_mangle)]
pub extern "C" fn he_source_line(
    alloc: Global,
    way: &WayNumbers,
    buffer: &mut [u8],
    details: &mut CallDetails,
) -> u32
    ensures left { result ≢ NO_MEMORY
        → Leaves (host_source_text (source_of way.now)) None buffer.old buffer.new details.new result }
    ensures memory { result ≡ NO_MEMORY → LeavesNothing buffer.old buffer.new details.new }
{
    match source_line(alloc, way) {
        Ok(line) => leave(line.as_slice(), None, buffer, details),
        Err(_) => {
            *details = NOTHING;
            NO_MEMORY
        }
    }
}

/// Writes the line of the route to the way's destination.
#[unsafe(no_mangle)]
pub extern "C" fn he_route_line(
    alloc: Global,
    way: &WayNumbers,
    buffer: &mut [u8],
    details: &mut CallDetails,
) -> u32
    ensures left { result ≢ NO_MEMORY
        → Leaves (host_route_text (route_of way.now)) None buffer.old buffer.new details.new result }
    ensures memory { result ≡ NO_MEMORY → LeavesNothing buffer.old buffer.new details.new }
{
    match route_line(alloc, way) {
        Ok(line) => leave(line.as_slice(), None, buffer, details),
        Err(_) => {
            *details = NOTHING;
            NO_MEMORY
        }
    }
}
