//! Reading the races of an input in memory, one by one.
ghost use Rattle.std.specs.Prelude.{◌≡◌, ◌↔◌, ◌+◌, ◌^◌, ◌<◌, None, option_map, slice_range, IfErr, IfOk, IfSome, IsTrue};
ghost use Rattle.he_inputs.specs.Inputs.{fault_behind};
ghost use Rattle.he_inputs.specs.RaceReadingSteps.{StopsAt, breaks};
ghost use Rattle.he_inputs.specs.declared.race_reader.Ending.TheVariants.{Open};
ghost use Rattle.he_inputs.specs.declared.race_reader.RaceReaderFault.TheVariants.{Memory};
ghost use Rattle.he_inputs.specs.RaceReading.{EndsAt, IsNextOf, IsReaderFault, IsWithin, ending_of};
ghost use Rattle.he_inputs.specs.Recorded.{IsRecordedAs};

use crate::changes::may_change;
use crate::input_fault::InputFault;
use crate::laws::faults_stand;
use crate::recorded::read_recorded;
use he_addr::Memory;
use he_record::Record;
use he_timeline::Timeline;
use he_words::limits::MOST_RACES;
use he_words::{TextFault, TextKind};
use std::alloc::Allocator;

/// Whether more bytes of an input may follow those in memory.
#[derive(Clone, Copy, Debug, PartialEq, Eq)]
pub enum Ending {
    /// The input may go on.
    Open,
    /// The input ends after these bytes.
    Whole,
    /// The input broke off after these bytes.
    Broken,
}

impl Ending {
    /// `Broken` or `Whole`: the ending of an input whose bytes are all in memory.
    pub fn of(is_broken: bool) -> Ending
        ensures { result ≡ ending_of is_broken }
    {
        if is_broken {
            Ending::Broken
        } else {
            Ending::Whole
        }
    }

    /// Whether more may follow.
    pub fn is_open(self) -> bool
        ensures { IsTrue result ↔ (self ≡ Open) }
    {
        matches!(self, Ending::Open)
    }

    /// Whether the input broke off.
    pub fn is_broken(self) -> bool
        ensures { result ≡ breaks self }
    {
        matches!(self, Ending::Broken)
    }
}

/// The error of a reader.
#[derive(Clone, Copy, Debug, PartialEq, Eq)]
pub enum RaceReaderFault {
    /// The input has this fault.
    Input(InputFault),
    /// An allocation failed.
    Memory,
}

impl From<Memory> for RaceReaderFault {
    ghost from_gives = { λ _ fault. fault ≡ Memory };

    fn from(_refused: Memory) -> RaceReaderFault {
        RaceReaderFault::Memory
    }
}

/// The position of a reader in the bytes of an input. The bytes may begin after a first part of the input that is no
/// longer in memory.
#[derive(Clone, Copy, Debug, PartialEq, Eq)]
pub struct RaceReader {
    /// The offset in the bytes after the last race that was read.
    pub end: usize,
    /// The number of races of the input before this offset.
    pub races: usize,
    /// The number of lines of the input that end before this offset.
    pub lines: u64,
}

impl RaceReader {
    /// The position at the start of an input.
    pub const START: RaceReader = RaceReader {
        end: 0,
        races: 0,
        lines: 0,
    };

    /// Reads the next race of the bytes and passes it, with its record lines. None if no race follows: the input ends
    /// here or, if the bytes may go on (`Open`), the next bytes decide. `bytes` are those of the calls before, or
    /// these and more.
    ///
    /// # Errors
    ///
    /// - `Input(Text)` with the fault of the text that follows. Its line is counted over the whole input, from 1.
    ///   After `he_words::limits::MOST_RACES` races, any further text is `TooMany` at its first line. If the bytes
    ///   may go on, every input that begins with them has this fault.
    /// - `Input(Read)` if the input broke off after a whole race, or within one that had no fault so far.
    /// - `Memory` if an allocation failed.
    ///
    /// The position is unchanged after an error, and after None.
    pub fn next<A: Allocator + Copy>(
        &mut self,
        alloc: A,
        bytes: &[u8],
        ending: Ending,
    ) -> Result<Option<Timeline<A>>, RaceReaderFault>
        requires { IsWithin bytes.now self.old }
        ensures within { IsWithin bytes.now self.new }
        ensures found { IfOk result (IsNextOf bytes.now ending self.old self.new) }
        ensures same { IfErr result (λ _. self.new ≡ self.old) }
        ensures fault { IfErr result (IsReaderFault bytes.now ending self.old) }
    {
        match self.next_recorded(alloc, bytes, ending) {
            Ok(Some((_record, race))) => Ok(Some(race)),
            Ok(None) => Ok(None),
            Err(fault) => Err(fault),
        }
    }

    /// As [`next`](RaceReader::next), and returns the race's record too.
    ///
    /// # Errors
    ///
    /// Those of [`next`](RaceReader::next).
    pub fn next_recorded<'t, A: Allocator + Copy>(
        &mut self,
        alloc: A,
        bytes: &'t [u8],
        ending: Ending,
    ) -> Result<Option<(Record<'t, A>, Timeline<A>)>, RaceReaderFault>
        requires { IsWithin bytes.now self.old }
        ensures within { IsWithin bytes.now self.new }
        ensures found { IfOk result
            (λ found. IsNextOf bytes.now ending self.old self.new (option_map (λ x. x.1) found)) }
        ensures record { IfOk result (λ found. IfSome found
            (λ x. IsRecordedAs (slice_range bytes.now self.old.end self.new.end) x.0 x.1)) }
        ensures same { IfErr result (λ _. self.new ≡ self.old) }
        ensures fault { IfErr result (IsReaderFault bytes.now ending self.old) }
    {
        let rest = &bytes[self.end..];
        if rest.is_empty() {
            return self.stop(rest, ending, None);
        }
        if self.races == MOST_RACES {
            return self.stop(rest, ending, Some(TOO_MANY));
        }
        match read_recorded(alloc, rest) {
            Ok(first) => {
                self.end = bytes.len() - first.left;
                self.races += 1;
                self.lines += first.lines;
                Ok(Some((first.record, first.race)))
            }
            Err(fault) => self.stop(rest, ending, Some(fault)),
        }
    }

    // The result of `next_recorded` if it passes no race: `wrong` is the fault of `rest`, None if nothing is left.
    fn stop<F>(
        self,
        rest: &[u8],
        ending: Ending,
        wrong: Option<TextFault>,
    ) -> Result<Option<F>, RaceReaderFault>
        requires within { IsWithin rest.now (record self { end = 0 }) }
        requires wrong { StopsAt self.races rest.now wrong }
        ensures found { IfOk result (λ found. (found ≡ None) × EndsAt ending rest.now) }
        ensures fault { IfErr result (IsReaderFault rest.now ending (record self { end = 0 })) }
    {
        let Some(fault) = wrong else {
            return match ending {
                Ending::Broken => Err(RaceReaderFault::Input(InputFault::Read)),
                _ => Ok(None),
            };
        };
        if let TextKind::Memory = fault.kind {
            return Err(RaceReaderFault::Memory);
        }
        faults_stand();
        match ending {
            Ending::Open if may_change(rest, fault) => Ok(None),
            _ => Err(RaceReaderFault::Input(fault_behind(ending, self.lines, fault))),
        }
    }
}

// A fault after `lines` lines. If the input broke off, an unfinished text is a read error, not a fault of the text.
fn fault_behind(ending: Ending, lines: u64, found: TextFault) -> InputFault
    requires { lines + found.line < 2 ^ 64 }
    ensures { result ≡ fault_behind (breaks ending) lines (found.line, found.kind) }
{
    match (found.kind, ending) {
        (TextKind::Unfinished, Ending::Broken) => InputFault::Read,
        (kind, _) => InputFault::Text(TextFault {
            line: lines + found.line,
            kind,
        }),
    }
}

// The fault of a text after `MOST_RACES` races.
const TOO_MANY: TextFault = TextFault {
    line: 1,
    kind: TextKind::TooMany,
};
