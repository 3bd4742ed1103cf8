// The progress of a check: race by race, and after a faulty race from the next part on.
ghost use Rattle.std.specs.Prelude.{◌≡◌, ◌++◌, ◌^◌, ◌<◌, ◌≤◌, ◌+◌, length, false, true, IfOk, IsSome, OnOk};
ghost use Rattle.he_inputs.specs.RaceReading.{IsWithin};
ghost use Rattle.he_inputs.specs.declared.race_reader.Ending.{Ending};
ghost use Rattle.he_check.specs.Slips.{warnings_of};
ghost use Rattle.he_check.specs.Steps.{HasGone, HasStepped, HasStopped, IsCounted, IsNew, IsOpen, MayGo, fault_found};

use crate::all_faults::Told;
use crate::form::Form;
use crate::input::Checked;
use crate::parts::{PART_START, begins_part, records_before};
use crate::slips::{Slip, Warning, add_if, add_warnings};
use he_addr::Memory;
use he_faults::RestOfInput;
use he_inputs::laws::first_recorded_faults;
use he_inputs::{Ending, InputFault, RaceReader, RaceReaderFault, StreamFault};
use he_record::Record;
use he_timeline::Timeline;
use he_words::LINE_END;
use memchr::memchr;
use std::alloc::Allocator;
use std::mem::drop;

// The position of a check in the bytes of an input that are in memory, and its findings so far.
#[derive(Drop)]
pub(crate) struct Counted<A: Allocator> {
    pub(crate) reader: RaceReader,
    // Whether the next part is searched for. The reader is then after the first line or the record lines of a faulty
    // race.
    pub(crate) is_seeking: bool,
    // The warnings of the races before the first faulty one.
    pub(crate) warnings: Vec<Warning, A>,
    pub(crate) told: Told<A>,
}

impl<A: Allocator + Copy> Counted<A> {
    // A check at the start of an input, for all faults or the first one alone, with the report in this form.
    pub(crate) fn new(alloc: A, is_all: bool, form: Form) -> Counted<A>
        ensures { IsNew is_all form result }
    {
        Counted {
            reader: RaceReader::START,
            is_seeking: false,
            warnings: Vec::new(alloc),
            told: Told::new(alloc, is_all, form),
        }
    }

    // Continues in the bytes, until the next bytes decide or, if only the first fault is asked for, up to this fault.
    pub(crate) fn go_on(&mut self, alloc: A, bytes: &[u8], ending: Ending) -> Result<(), Memory>
        requires may { MayGo ending bytes.now self.old }
        requires more { IsOpen self.old }
        ensures gone { OnOk result (HasGone ending bytes.now self.old self.new) }
        ensures stopped { OnOk result (HasStopped ending bytes.now self.new) }
    {
        loop {
            if !self.step(alloc, bytes, ending)? {
                return Ok(());
            }
        }
    }

    // Passes the next race or finds its fault; while it searches for the next part, passes the rest of a line.
    // Returns whether there is more to do.
    fn step(&mut self, alloc: A, bytes: &[u8], ending: Ending) -> Result<bool, Memory>
        requires may { MayGo ending bytes.now self.old }
        requires more { IsOpen self.old }
        ensures { IfOk result (HasStepped ending bytes.now self.old self.new) }
    {
        if self.is_seeking {
            Ok(self.seek(bytes))
        } else {
            self.read_on(alloc, bytes, ending)
        }
    }

    fn read_on(&mut self, alloc: A, bytes: &[u8], ending: Ending) -> Result<bool, Memory>
        requires may { MayGo ending bytes.now self.old }
        requires more { IsOpen self.old }
        requires reads { self.old.is_seeking ≡ false }
        ensures { IfOk result (HasStepped ending bytes.now self.old self.new) }
    {
        first_recorded_faults();
        let line = self.reader.lines + 1;
        match self.reader.next_recorded(alloc, bytes, ending) {
            Ok(Some(found)) => {
                let has_fault = self.told.first.is_some();
                let added = warn(has_fault, &found.0, &found.1, line, &mut self.warnings);
                drop(found);
                added?;
                Ok(true)
            }
            Ok(None) => Ok(false),
            Err(RaceReaderFault::Input(InputFault::Read)) => Ok(false),
            Err(RaceReaderFault::Input(InputFault::Text(fault))) => {
                let part = RestOfInput {
                    text: &bytes[self.reader.end..],
                    lines: self.reader.lines,
                };
                self.told.add(alloc, part, fault)?;
                let passed = records_before(self.told.is_all, part, fault.line);
                self.reader.end += passed.bytes;
                self.reader.lines += passed.lines;
                self.is_seeking = self.told.is_all;
                Ok(self.is_seeking)
            }
            Err(RaceReaderFault::Memory) => Err(Memory),
        }
    }

    // Passes the rest of a line, if it ends in the bytes and the bytes after it decide whether a part begins there.
    fn seek(&mut self, bytes: &[u8]) -> bool
        requires within { IsWithin bytes.now self.old.reader }
        requires seeks { self.old.is_seeking ≡ true }
        requires more { IsOpen self.old }
        ensures { (ending : Ending) → MayGo ending bytes.now self.old
            → HasStepped ending bytes.now self.old self.new result }
    {
        let rest = &bytes[self.reader.end..];
        let Some(at) = memchr(LINE_END, rest) else {
            self.reader.end = bytes.len();
            return false;
        };
        let next = &rest[at + 1..];
        if next.len() < PART_START {
            self.reader.end += at;
            return false;
        }
        self.reader.end += at + 1;
        self.reader.lines += 1;
        if begins_part(next) {
            self.reader.races = 0;
            self.is_seeking = false;
        }
        true
    }

    // Whether the check is complete: only the first fault is asked for, and it is found.
    pub(crate) fn is_done(&self) -> bool
        ensures more { result ≡ false → IsOpen self.now }
        ensures done { result ≡ true → (self.now.told.is_all ≡ false) × IsSome self.now.told.first }
    {
        !self.told.is_all && self.told.first.is_some()
    }

    // The fault of the input, which is read to its end or to where it broke off.
    pub(crate) fn fault(&self, is_broken: bool) -> Option<StreamFault>
        ensures { result ≡ fault_found self.now.told.first is_broken }
    {
        match self.told.first {
            Some(fault) => Some(StreamFault::Text(fault)),
            None if is_broken => Some(StreamFault::Read),
            None => None,
        }
    }

    // The number of races and lines of an input without a fault, and its warnings.
    pub(crate) fn outcome(self) -> Result<(Checked, Vec<Warning, A>), Memory>
        ensures { IfOk result (λ found. IsCounted self found.0 found.1.items) }
    {
        let reader = self.reader;
        let mut warnings = self.warnings;
        add_if(reader.races == 0, 1, Slip::NoRace, &mut warnings)?;
        let checked = Checked {
            races: reader.races as u64,
            lines: reader.lines,
        };
        Ok((checked, warnings))
    }
}

// Appends the warnings of a race and its record, which begin on this line, unless a race before it has a fault.
fn warn<A: Allocator, B: Allocator, C: Allocator>(
    has_fault: bool,
    told: &Record<'_, C>,
    race: &Timeline<B>,
    line: u64,
    warnings: &mut Vec<Warning, A>,
) -> Result<(), Memory>
    requires { line + length told.now < 2 ^ 64 }
    ensures { OnOk result (has_fault ≡ false
        → warnings.new.items ≡ warnings.old.items ++ warnings_of line told.now race.now) }
{
    if has_fault {
        return Ok(());
    }
    add_warnings(told, race, line, warnings)
}
