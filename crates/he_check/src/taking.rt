// Checking an input as its bytes arrive.
ghost use Rattle.std.specs.Prelude.{◌≡◌, ◌+◌, ◌-◌, ◌≤◌, ◌^◌, [], drop, length, IfErr, IfOk, OnOk};
ghost use Rattle.he_stream.specs.Input.{Gives, GivesSoFar};
ghost use Rattle.he_inputs.specs.RaceReading.{ending_of};
ghost use Rattle.he_check.specs.Steps.{EndsWith, HasGone, HasStopped, HoldsOn, IsCounted, IsHeld, IsNew, IsOpen, IsSaidOf, TakesWrong, at_front, fault_found};
ghost use Rattle.he_check.specs.Stream.{TakesRight};

use crate::all_faults::{alone, none_told};
use crate::counting::Counted;
use crate::form::Form;
use crate::input::Checked;
use crate::limits::{FIRST_BYTES, STEP_ROOM};
use crate::slips::Warning;
use he_addr::Memory;
use he_faults::RestOfInput;
use he_faults::limits::MOST_SHOWN;
use he_inputs::{Ending, HeldInput, StreamFault};
use he_stream::InputStream;
use he_words::LINE_END;
use he_words::limits::MAX_LINE;
use memchr::memrchr;
use std::alloc::Allocator;

// The bytes held of an input, after the last race passed: at most twice the maximum length of a race's text, and the
// bytes of one step.
#[derive(Drop)]
struct Held<A: Allocator> {
    input: HeldInput<A>,
    // The number of these bytes that were checked.
    tried: usize,
    // The progress of the check in them.
    counted: Counted<A>,
}

impl<A: Allocator + Copy> Held<A> {
    // A check that has taken nothing.
    fn new(alloc: A, is_all: bool, form: Form) -> Held<A>
        ensures none { (result.input ≡ record { bytes = []; steps = 0 }) × (result.tried ≡ 0) }
        ensures counted { IsNew is_all form result.counted }
    {
        Held {
            input: HeldInput::new(alloc),
            tried: 0,
            counted: Counted::new(alloc, is_all, form),
        }
    }

    // Checks the whole races among the bytes, after more were taken, and drops the bytes passed.
    fn gain(&mut self, alloc: A) -> Result<(), Memory>
        requires held { IsHeld self.old }
        requires more { IsOpen self.old.counted }
        requires lines { self.old.counted.reader.lines + length self.old.input.bytes ≤ 2 ^ 63 }
        ensures held { OnOk result (IsHeld self.new) }
        ensures all { OnOk result (self.new.counted.told.is_all ≡ self.old.counted.told.is_all) }
        ensures form { OnOk result (self.new.counted.told.form ≡ self.old.counted.told.form) }
        ensures steps { OnOk result (self.new.input.steps ≡ self.old.input.steps) }
        ensures on { OnOk result (HoldsOn self.old self.new) }
    {
        let bytes = self.input.bytes();
        let ready = lines_end(bytes).max(self.tried);
        let is_short = self.counted.told.is_all && ready < FIRST_BYTES;
        if is_short || bytes.len() / 2 < self.tried {
            return Ok(());
        }
        self.counted.go_on(alloc, &bytes[..ready], Ending::Open)?;
        self.tried = ready;
        self.forget();
        Ok(())
    }

    // Drops the bytes that the reader passed.
    fn forget(&mut self)
        requires tried { self.old.tried ≤ length self.old.input.bytes }
        requires place { self.old.counted.reader.end ≤ self.old.tried }
        ensures counted { self.new.counted ≡ at_front self.old.counted }
        ensures tried { self.new.tried ≡ self.old.tried - self.old.counted.reader.end }
        ensures kept { self.new.input
            ≡ record self.old.input { bytes = drop self.old.counted.reader.end self.old.input.bytes } }
    {
        let end = self.counted.reader.end;
        self.input.forget(end);
        self.tried -= end;
        self.counted.reader.end = 0;
    }

    // Checks the rest of an input that ended or broke off.
    fn finish(&mut self, alloc: A, is_broken: bool) -> Result<(), Memory>
        requires held { IsHeld self.old }
        requires more { IsOpen self.old.counted }
        requires lines { self.old.counted.reader.lines + length self.old.input.bytes ≤ 2 ^ 63 }
        ensures same { self.new.input ≡ self.old.input }
        ensures gone { OnOk result (HasGone (ending_of is_broken) self.old.input.bytes self.old.counted
            self.new.counted) }
        ensures stopped { OnOk result (HasStopped (ending_of is_broken) self.old.input.bytes self.new.counted) }
    {
        self.counted
            .go_on(alloc, self.input.bytes(), Ending::of(is_broken))
    }

    // The result of the check: the numbers of races and lines and the warnings, or a fault. Appends the report of the
    // faults.
    fn conclude(
        self,
        alloc: A,
        is_broken: bool,
        explanation: &mut Vec<u8, A>,
    ) -> Result<(Checked, Vec<Warning, A>), StreamFault>
        requires { self.counted.reader.end ≤ length self.input.bytes }
        ensures ok { IfOk result (λ found. (fault_found self.counted.told.first is_broken ≡ None)
            × IsCounted self.counted found.0 found.1.items
            × (explanation.new.items ≡ explanation.old.items)) }
        ensures err { IfErr result (EndsWith self.input.bytes is_broken self.counted
            explanation.old.items explanation.new.items) }
    {
        let Some(fault) = self.counted.fault(is_broken) else {
            return Ok(self.counted.outcome()?);
        };
        let said = self.said(alloc, is_broken)?;
        explanation.extend_from_slice(said.as_slice())?;
        Err(fault)
    }

    // The report of the faults.
    fn said(&self, alloc: A, is_broken: bool) -> Result<Vec<u8, A>, Memory>
        requires { self.now.counted.reader.end ≤ length self.now.input.bytes }
        ensures { IfOk result (λ text. IsSaidOf self.now.input.bytes is_broken self.now.counted text.items) }
    {
        let counted = &self.counted;
        if counted.told.is_all {
            return counted.told.whole_text(alloc, is_broken);
        }
        let Some(fault) = counted.told.first else {
            return none_told(alloc, counted.told.form);
        };
        let part = RestOfInput {
            text: &self.input.bytes()[counted.reader.end..],
            lines: counted.reader.lines,
        };
        alone(alloc, counted.told.form, part, fault)
    }
}

// The end of the whole lines of the bytes; the end of the bytes, if the rest after these lines is too long for a line
// and long enough to be printed.
fn lines_end(bytes: &[u8]) -> usize
    ensures { result ≤ length bytes.now }
{
    let end = match memrchr(LINE_END, bytes) {
        Some(at) => at + 1,
        None => 0,
    };
    if bytes.len() - end > MAX_LINE + MOST_SHOWN {
        bytes.len()
    } else {
        end
    }
}

// Takes an input and checks it as its bytes arrive: to its end or, if only the first fault is asked for, up to a
// fault that no later bytes mend. Appends the report of the faults in this form.
pub(crate) fn take_checked<A: Allocator + Copy, I: InputStream>(
    alloc: A,
    is_all: bool,
    form: Form,
    input: &mut I,
    explanation: &mut Vec<u8, A>,
) -> Result<(Checked, Vec<Warning, A>), StreamFault>
    ensures right { IfOk result (λ found. TakesRight (Gives I.remaining I.takes input.old input.new) found.0
        found.1.items × (explanation.new.items ≡ explanation.old.items)) }
    ensures wrong { IfErr result (TakesWrong is_all form (Gives I.remaining I.takes input.old input.new)
        (GivesSoFar I.remaining I.takes input.old input.new) explanation.old.items explanation.new.items) }
{
    let mut held = Held::new(alloc, is_all, form);
    loop {
        let ending = held.input.take(input, STEP_ROOM)?;
        if !ending.is_open() {
            let is_broken = ending.is_broken();
            held.finish(alloc, is_broken)?;
            return held.conclude(alloc, is_broken, explanation);
        }
        held.gain(alloc)?;
        if held.counted.is_done() {
            return held.conclude(alloc, false, explanation);
        }
    }
}
