// The report of the faults of an input.

ghost use Rattle.std.specs.Prelude.{◌≡◌, ◌≤◌, ◌+◌, ◌-◌, ◌++◌, ◌^◌, [], ℕ, List, None, IfOk, OnOk};
ghost use Rattle.he_check.specs.AllFaults.{end_text, more_text, none_text, said_text, whole_text};
ghost use Rattle.he_check.specs.Steps.{AddsFault, EndsIn};
ghost use Rattle.he_check.specs.declared.form.Form.TheVariants.{Json, Lines};
ghost use Rattle.he_check.specs.declared.limits.TheConstants.{MOST_TOLD};
ghost use Rattle.he_faults.specs.Clauses.{hint_in};

use crate::form::Form;
use crate::kind::append_kind;
use crate::limits::MOST_TOLD;
use crate::objects::{faults_member, write_entry};
use he_addr::{Memory, write_number};
use he_faults::{RestOfInput, explanation_of, sentence_of};
use he_words::TextFault;
use std::alloc::Allocator;

// The faults of an input.
#[derive(Drop)]
pub(crate) struct Told<A: Allocator> {
    // Whether all faults are reported or the first one alone, and in which form.
    pub(crate) is_all: bool,
    pub(crate) form: Form,
    // The first fault.
    pub(crate) first: Option<TextFault>,
    // The number of faults found.
    pub(crate) count: u64,
    // The report of the first faults; empty if the first one alone is reported.
    pub(crate) text: Vec<u8, A>,
}

impl<A: Allocator + Copy> Told<A> {
    // No faults yet.
    pub(crate) fn new(alloc: A, is_all: bool, form: Form) -> Told<A>
        ensures all { result.is_all ≡ is_all }
        ensures form { result.form ≡ form }
        ensures none { (result.first ≡ None) × (result.count ≡ 0) × (result.text.items ≡ []) }
    {
        Told {
            is_all,
            form,
            first: None,
            count: 0,
            text: Vec::new(alloc),
        }
    }

    // Counts a fault, and appends its report if it is one of those that are reported. The part begins with the
    // fault's race.
    pub(crate) fn add(
        &mut self,
        alloc: A,
        part: RestOfInput<'_>,
        fault: TextFault,
    ) -> Result<(), Memory>
        requires { self.old.count ≤ 2 ^ 63 }
        ensures { OnOk result (AddsFault part.entry fault self.old self.new) }
    {
        self.first = self.first.or(Some(fault));
        self.count += 1;
        if self.is_all && self.count <= MOST_TOLD {
            return append_fault(alloc, self.form, part, fault, &mut self.text);
        }
        Ok(())
    }

    // The report of all faults: the first ones, the number of the others, and whether the input broke off.
    pub(crate) fn whole_text(&self, alloc: A, is_broken: bool) -> Result<Vec<u8, A>, Memory>
        ensures { IfOk result (λ text. text.items
            ≡ whole_text self.now.form self.now.text.items (self.now.count - MOST_TOLD) is_broken) }
    {
        let more = self.count.saturating_sub(MOST_TOLD);
        match self.form {
            Form::Lines => whole_lines(alloc, &self.text, more, is_broken),
            Form::Json => faults_member(alloc, &self.text, more, is_broken),
        }
    }
}

// The report as lines, after these lines of the first faults.
fn whole_lines<A: Allocator + Copy>(
    alloc: A,
    lines: &[u8],
    more: u64,
    is_broken: bool,
) -> Result<Vec<u8, A>, Memory>
    ensures { IfOk result (λ text. text.items ≡ whole_text Lines lines.now more is_broken) }
{
    let mut text = Vec::new(alloc);
    text.extend_from_slice(lines)?;
    append_more(more, &mut text)?;
    append_end(is_broken, &mut text)?;
    Ok(text)
}

// Appends the number of further faults, if there are any.
#[tactic(auto, unfolding(crate::specs::AllFaults::more_text))]
fn append_more<A: Allocator + Copy>(more: u64, text: &mut Vec<u8, A>) -> Result<(), Memory>
    ensures { OnOk result (text.new.items ≡ text.old.items ++ more_text more) }
{
    if more == 0 {
        return Ok(());
    }
    text.extend_from_slice(b"he: ")?;
    write_number(more, text)?;
    text.extend_from_slice(if more == 1 {
        b" more fault"
    } else {
        b" more faults"
    })?;
    text.push(b'\n')?;
    Ok(())
}

// Appends that the input broke off, if it did.
fn append_end<A: Allocator + Copy>(is_broken: bool, text: &mut Vec<u8, A>) -> Result<(), Memory>
    ensures { OnOk result (text.new.items ≡ text.old.items ++ end_text is_broken) }
{
    if is_broken {
        text.extend_from_slice(b"he: cannot read the input\n")?;
    }
    Ok(())
}

// Appends the line number, kind and explanation of a fault. The part begins with the fault's race.
fn append_fault<A: Allocator + Copy>(
    alloc: A,
    form: Form,
    part: RestOfInput<'_>,
    fault: TextFault,
    text: &mut Vec<u8, A>,
) -> Result<(), Memory>
    ensures { OnOk result ((said : List ℕ) × (text.new.items
        ≡ text.old.items ++ said_text form fault said (hint_in part.entry.lines part.entry.text.now fault))) }
{
    match form {
        Form::Lines => append_lines(alloc, part, fault, text),
        Form::Json => append_object(alloc, part, fault, text),
    }
}

// Appends the report of a fault as a JSON object.
fn append_object<A: Allocator + Copy>(
    alloc: A,
    part: RestOfInput<'_>,
    fault: TextFault,
    text: &mut Vec<u8, A>,
) -> Result<(), Memory>
    ensures { OnOk result ((said : List ℕ) × (text.new.items
        ≡ text.old.items ++ said_text Json fault said (hint_in part.entry.lines part.entry.text.now fault))) }
{
    let said = sentence_of(alloc, part, fault)?;
    let mut kind = Vec::new(alloc);
    append_kind(fault.kind, &mut kind)?;
    write_entry(fault.line, &kind, &said, text)
}

// The report of the first fault, if no other is reported. The part begins with the fault's race.
pub(crate) fn alone<A: Allocator + Copy>(
    alloc: A,
    form: Form,
    part: RestOfInput<'_>,
    fault: TextFault,
) -> Result<Vec<u8, A>, Memory>
    ensures { IfOk result (λ text. EndsIn form part.entry.lines part.entry.text.now fault text.items) }
{
    match form {
        Form::Lines => Ok(explanation_of(alloc, part, fault)?),
        Form::Json => {
            let mut object = Vec::new(alloc);
            append_object(alloc, part, fault, &mut object)?;
            faults_member(alloc, &object, 0, false)
        }
    }
}

// The report of an input that broke off before a fault was found.
pub(crate) fn none_told<A: Allocator + Copy>(alloc: A, form: Form) -> Result<Vec<u8, A>, Memory>
    ensures { IfOk result (λ text. text.items ≡ none_text form) }
{
    match form {
        Form::Lines => Ok(Vec::new(alloc)),
        Form::Json => faults_member(alloc, b"", 0, true),
    }
}

// Appends the report of a fault as lines.
fn append_lines<A: Allocator + Copy>(
    alloc: A,
    part: RestOfInput<'_>,
    fault: TextFault,
    text: &mut Vec<u8, A>,
) -> Result<(), Memory>
    ensures { OnOk result ((said : List ℕ) × (text.new.items
        ≡ text.old.items ++ said_text Lines fault said (hint_in part.entry.lines part.entry.text.now fault))) }
{
    let said = explanation_of(alloc, part, fault)?;
    text.extend_from_slice(b"he: line ")?;
    write_number(fault.line, text)?;
    text.extend_from_slice(b": ")?;
    append_kind(fault.kind, text)?;
    text.push(b'\n')?;
    text.extend_from_slice(said.as_slice())?;
    Ok(())
}
