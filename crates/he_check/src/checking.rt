//! Checking an input, and writing the report to an output.
ghost use Rattle.std.specs.Prelude.{◌≡◌, ◌++◌, option_map, IfOk, OnOk};
ghost use Rattle.std.specs.Io.{StartsWith};
ghost use Rattle.he_stream.specs.Input.{Gives, GivesSoFar};
ghost use Rattle.he_stream.specs.Output.{PutsPart, PutsWhole};
ghost use Rattle.he_check.specs.Objects.{object_text};
ghost use Rattle.he_check.specs.Steps.{Puts, TellsRight};
ghost use Rattle.he_check.specs.Stream.{Checks, Explains, IsObject, PutsObject, counted, report_text};
ghost use Rattle.he_check.specs.declared.form.Form.TheVariants.{Lines};

use crate::form::Form;
use crate::input::Checked;
use crate::objects::{object_of, right_members};
use crate::slips::Warning;
use crate::taking::take_checked;
use crate::telling::tell_warnings;
use he_addr::{Memory, write_number};
use he_inputs::StreamFault;
use he_stream::{InputStream, OutputStream, write_whole};
use std::alloc::Allocator;

/// Reads an input of timelines and checks it, to its end or up to its first fault. If there is no fault, it writes
/// the number of races and lines of the input, as `3 races, 27 lines`, and flushes the output.
///
/// With `is_all` it reads the input to its end, continues after a faulty race, and reports the first fault of each
/// part of the input. The first part begins with the input; each further part begins with the next line `race 1` or
/// `race 2` or record line after the faulty line, or after the first line of the faulty race if that comes before it:
/// if `end` is missing, this is the faulty line itself. Each part is checked as an input of its own, and so may have
/// 4,096 races, but lines are counted over the whole input. The report explains the first
/// [`MOST_TOLD`](crate::limits::MOST_TOLD) faults, and gives the number of the others.
///
/// # Errors
///
/// - `Text` with the first fault of the text.
/// - `Read` if a step of the input failed before a fault of the text was found, or the limit of 4,294,967,296 steps
///   was reached.
/// - `Write` if a step of the output failed or took no byte, the flush failed, or the limit of 4,294,967,296 steps
///   was reached.
/// - `Memory` if an allocation failed.
///
/// After `Text`, `Read` and `Memory` nothing was written to the output, after `Write` a first part of the text. The
/// check appends to `explanation`:
///
/// - If there is no fault, also after `Write`: a line for each [`Warning`](crate::Warning), as `he: line 1: warning:
///   ..`.
/// - After `Text`: the explanation of the fault (see [`explain_fault`]). With `is_all`, and then after `Read` too:
///   the first faults, in order, each as a line `he: line 3: word` and its explanation; then the line `he: 25 more
///   faults` if there are more; last, if the input broke off, the line `he: cannot read the input`.
/// - Otherwise nothing.
pub fn check<A: Allocator + Copy, I: InputStream, O: OutputStream>(
    alloc: A,
    is_all: bool,
    input: &mut I,
    output: &mut O,
    explanation: &mut Vec<u8, A>,
) -> Result<(), StreamFault>
    ensures done { Checks (Gives I.remaining I.takes input.old input.new)
        (GivesSoFar I.remaining I.takes input.old input.new)
        (PutsWhole O.contents O.puts O.flushes output.old output.new)
        (PutsPart O.contents O.puts O.flushes output.old output.new) (output.new ≡ output.old) result }
    ensures stays { StartsWith explanation.new.items explanation.old.items }
    ensures quiet { Explains is_all Lines (Gives I.remaining I.takes input.old input.new)
        (GivesSoFar I.remaining I.takes input.old input.new) explanation.old.items explanation.new.items result }
{
    let (checked, warnings) = take_checked(alloc, is_all, Form::Lines, input, explanation)?;
    tell_right(alloc, checked, &warnings, output, explanation)
}

/// Checks an input as [`check`] does, and writes the report to the output as one JSON object and a line end. The
/// object has the name of the input's file (null if it has none), and then the number of races and lines and the
/// warnings, or the faults, each with its line, its kind and the sentence of [`check`]. With `is_all` it also has the
/// number of further faults, if there are any, and whether the input broke off, if it did.
///
/// ```text
/// {"file":"office.timeline","races":3,"lines":27,"warnings":[]}
/// {"file":null,"faults":[{"line":2,"kind":"range","text":"the attempt delay is 10 to 2000 milliseconds"}]}
/// {"file":"pipe","faults":[],"broken":true}
/// ```
///
/// # Errors
///
/// Those of [`check`]. After `Text` and `Read` the object was written, after `Write` a first part of it, after
/// `Memory` nothing.
pub fn check_json<A: Allocator + Copy, I: InputStream, O: OutputStream>(
    alloc: A,
    is_all: bool,
    file: Option<&str>,
    input: &mut I,
    output: &mut O,
) -> Result<(), StreamFault>
    ensures { PutsObject (PutsWhole O.contents O.puts O.flushes output.old output.new)
        (PutsPart O.contents O.puts O.flushes output.old output.new) (output.new ≡ output.old)
        (IsObject is_all (option_map (λ name. name.now) file.entry)
        (Gives I.remaining I.takes input.old input.new) (GivesSoFar I.remaining I.takes input.old input.new)) result }
{
    let mut faults = Vec::new(alloc);
    match take_checked(alloc, is_all, Form::Json, input, &mut faults) {
        Ok((checked, warnings)) => {
            let members = right_members(alloc, checked, &warnings)?;
            put_object(alloc, file, &members, output)
        }
        Err(StreamFault::Memory) => Err(StreamFault::Memory),
        Err(fault) => match put_object(alloc, file, &faults, output) {
            Ok(()) => Err(fault),
            Err(unwritten) => Err(unwritten),
        },
    }
}

fn put_object<A: Allocator + Copy, O: OutputStream>(
    alloc: A,
    file: Option<&str>,
    members: &[u8],
    output: &mut O,
) -> Result<(), StreamFault>
    ensures { Puts (PutsWhole O.contents O.puts O.flushes output.old output.new)
        (PutsPart O.contents O.puts O.flushes output.old output.new) (output.new ≡ output.old)
        (object_text (option_map (λ name. name.now) file.entry) members.now) result }
{
    let text = object_of(alloc, file, members)?;
    write_whole(output, &text)?;
    Ok(())
}

// Appends the warnings of an input without a fault, and writes its numbers of races and lines.
fn tell_right<A: Allocator + Copy, O: OutputStream>(
    alloc: A,
    checked: Checked,
    warnings: &[Warning],
    output: &mut O,
    explanation: &mut Vec<u8, A>,
) -> Result<(), StreamFault>
    ensures told { TellsRight (PutsWhole O.contents O.puts O.flushes output.old output.new)
        (PutsPart O.contents O.puts O.flushes output.old output.new) (output.new ≡ output.old) checked
        warnings.now explanation.old.items explanation.new.items result }
    ensures stays { StartsWith explanation.new.items explanation.old.items }
{
    let report = report_of(alloc, checked)?;
    let told = tell_warnings(alloc, warnings)?;
    explanation.extend_from_slice(told.as_slice())?;
    write_whole(output, report.as_slice())?;
    Ok(())
}

fn report_of<A: Allocator + Copy>(alloc: A, checked: Checked) -> Result<Vec<u8, A>, Memory>
    ensures { IfOk result (λ text. text.items ≡ report_text checked) }
{
    let mut text = Vec::new(alloc);
    append_count(checked.races, b" race, ", b" races, ", &mut text)?;
    append_count(checked.lines, b" line\n", b" lines\n", &mut text)?;
    Ok(text)
}

fn append_count<A: Allocator + Copy>(
    number: u64,
    one: &[u8],
    many: &[u8],
    text: &mut Vec<u8, A>,
) -> Result<(), Memory>
    ensures { OnOk result (text.new.items ≡ text.old.items ++ counted number one.now many.now) }
{
    write_number(number, text)?;
    text.extend_from_slice(if number == 1 { one } else { many })?;
    Ok(())
}
