// The check of an input, and its text.

ghost use Rattle.std.specs.Prelude.{◌≡◌, ◌++◌, IfOk, OnOk};
ghost use Rattle.he_check.specs.Stream.{counted, report_text};
ghost use Rattle.he_c.specs.Checks.{IsCheckOf};

use crate::telling::Output;
use he_addr::{Memory, write_number};
use he_check::{Checked, check_input, explain_fault};
use he_inputs::{InputFault, StreamFault};
use he_words::TextFault;
use std::alloc::Global;

// The number of races and lines of the input, or the explanation of its first fault.
pub(crate) fn check_of(alloc: Global, input: &[u8]) -> Result<Output, Memory>
    ensures { IfOk result (λ output. IsCheckOf input.now output.text.items output.fault) }
{
    match check_input(alloc, input, false) {
        Ok((checked, _warnings)) => Ok(Output {
            text: report_of(alloc, checked)?,
            fault: None,
        }),
        Err(StreamFault::Text(fault)) => Ok(Output {
            text: words_of(alloc, input, fault)?,
            fault: Some(InputFault::Text(fault)),
        }),
        Err(StreamFault::Read) => Ok(Output {
            text: Vec::new(alloc),
            fault: Some(InputFault::Read),
        }),
        Err(StreamFault::Write | StreamFault::Memory) => Err(Memory),
    }
}

// The fault's line and kind, and then its explanation.
fn words_of(alloc: Global, input: &[u8], fault: TextFault) -> Result<Vec<u8>, Memory> {
    let mut text = format!(in alloc; "{fault}\n")?.into_bytes();
    explain_fault(alloc, input, fault, &mut text)?;
    Ok(text)
}

fn report_of(alloc: Global, checked: Checked) -> Result<Vec<u8>, Memory>
    ensures { IfOk result (λ text. text.items ≡ report_text checked) }
{
    let mut text = Vec::new(alloc);
    append_count(checked.races, b" race, ", b" races, ", &mut text)?;
    append_count(checked.lines, b" line\n", b" lines\n", &mut text)?;
    Ok(text)
}

fn append_count(number: u64, one: &[u8], many: &[u8], text: &mut Vec<u8>) -> Result<(), Memory>
    ensures { OnOk result (text.new.items ≡ text.old.items ++ counted number one.now many.now) }
{
    write_number(number, text)?;
    text.extend_from_slice(if number == 1 { one } else { many })?;
    Ok(())
}
