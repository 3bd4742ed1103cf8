//! Reading an input of one race.
ghost use Rattle.std.specs.Prelude.{ℕ, List, Bool, Option, ◌≡◌, [], ◌∷◌, None, false, IfOk, IfErr};
ghost use Rattle.he_timeline.specs.Race.{Race};
ghost use Rattle.he_inputs.specs.declared.input_fault.InputFault.{InputFault};
ghost use Rattle.he_stream.specs.Input.{Gives, GivesSoFar};
ghost use Rattle.he_inputs.specs.Inputs.{HasRaces, IsNotOne, TakesOne};
ghost use Rattle.he_inputs.specs.RaceStreams.{HasHanded};
ghost use Rattle.he_inputs.specs.RaceStreamSteps.{TakesBehind};
ghost use Rattle.he_inputs.specs.RaceReadingSteps.{HasFirst, not_one};
ghost use Rattle.he_inputs.specs.RaceReading.{HasPassed};

use crate::input_fault::InputFault;
use crate::laws::{begins_recorded_where_no_fault, one_race_first};
use crate::race_reader::{Ending, RaceReader, RaceReaderFault};
use crate::race_stream::RaceStream;
use he_stream::InputStream;
use he_timeline::Timeline;
use std::alloc::Allocator;
use std::mem::drop;

/// The races and the fault of an input, broken off or not, are unique. Runs nothing.
pub fn one_input()
    ensures { (input : List ℕ) (is_broken : Bool) (races others : List Race) (fault other_fault : Option InputFault)
        → HasRaces input is_broken races fault → HasRaces input is_broken others other_fault → (races ≡ others)
        × (fault ≡ other_fault) }
{
    one_race_first();
    begins_recorded_where_no_fault();
}

/// The error of [`read_one_race`] and [`take_one_race`].
#[derive(Clone, Copy, Debug, PartialEq, Eq)]
pub enum NotOneRace {
    /// The input has this fault.
    Fault(InputFault),
    /// The input has no fault, but no race or more than one.
    Count,
    /// An allocation failed.
    Memory,
}

/// Reads an input that has one race and nothing else. `is_broken`: the input broke off after these bytes.
///
/// # Errors
///
/// - `Fault` with the first fault of the input, regardless of the number of races before it: a fault of its text,
///   among them a race above the 4,096th (`TooMany` at its first line), or `Read` if the input broke off and its text
///   has no fault before that.
/// - `Count` if the input has no fault, but no race or more than one.
/// - `Memory` if an allocation failed.
pub fn read_one_race<A: Allocator + Copy>(
    alloc: A,
    input: &[u8],
    is_broken: bool,
) -> Result<Timeline<A>, NotOneRace>
    ensures one { IfOk result (λ race. HasRaces input.now is_broken (race ∷ []) None) }
    ensures fault { IfErr result (IsNotOne input.now is_broken) }
{
    let mut reader = RaceReader::START;
    let Some(race) = reader.next(alloc, input, Ending::of(is_broken))? else {
        return Err(NotOneRace::Count);
    };
    match check_behind(alloc, input, is_broken, reader) {
        Ok(()) => Ok(race),
        Err(fault) => {
            drop(race);
            Err(fault)
        }
    }
}

// Checks that nothing follows the first race of an input; `first` is the reader after this race.
fn check_behind<A: Allocator + Copy>(
    alloc: A,
    input: &[u8],
    is_broken: bool,
    first: RaceReader,
) -> Result<(), NotOneRace>
    requires { HasFirst input.now first first }
    ensures one { IfOk result
        (λ _. (race : Race) → HasPassed input.now 0 0 (race ∷ []) first
        → HasRaces input.now is_broken (race ∷ []) None) }
    ensures fault { IfErr result (IsNotOne input.now is_broken) }
{
    let ending = Ending::of(is_broken);
    let mut reader = first;
    while let Some(other) = reader.next(alloc, input, ending)? {
        drop(other);
    }
    if reader.races == 1 {
        Ok(())
    } else {
        Err(NotOneRace::Count)
    }
}

/// Takes an input to its end, step by step, and returns its race if it has one race and nothing else. It holds this
/// race, and of the input no more than a [`RaceStream`] does.
///
/// # Errors
///
/// Those of [`read_one_race`]. After a fault of the text that later bytes can't mend, the input is not read further.
pub fn take_one_race<A: Allocator + Copy, I: InputStream>(
    alloc: A,
    input: &mut I,
) -> Result<Timeline<A>, NotOneRace>
    ensures { TakesOne (Gives I.remaining I.takes input.old input.new)
        (GivesSoFar I.remaining I.takes input.old input.new) result }
{
    let mut stream = RaceStream::new(alloc);
    let Some(race) = stream.next(alloc, input)? else {
        return Err(NotOneRace::Count);
    };
    match take_behind(alloc, &mut stream, input) {
        Ok(()) => Ok(race),
        Err(fault) => {
            drop(race);
            Err(fault)
        }
    }
}

// Checks that nothing follows the first race of an input, which the stream has returned.
fn take_behind<A: Allocator + Copy, I: InputStream>(
    alloc: A,
    stream: &mut RaceStream<A>,
    input: &mut I,
) -> Result<(), NotOneRace>
    ensures { (first : I) (race : Race) (front : List ℕ)
        → HasHanded I.InputStream first input.old stream.old (race ∷ []) front
        → TakesBehind (Gives I.remaining I.takes first input.new) (GivesSoFar I.remaining I.takes first input.new) race
        result }
{
    while let Some(other) = stream.next(alloc, input)? {
        drop(other);
    }
    if stream.races() == 1 {
        Ok(())
    } else {
        Err(NotOneRace::Count)
    }
}

impl From<RaceReaderFault> for NotOneRace {
    ghost from_gives = { λ fault told. told ≡ not_one fault };

    fn from(fault: RaceReaderFault) -> NotOneRace {
        match fault {
            RaceReaderFault::Input(fault) => NotOneRace::Fault(fault),
            RaceReaderFault::Memory => NotOneRace::Memory,
        }
    }
}
