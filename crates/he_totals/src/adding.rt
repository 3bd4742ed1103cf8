// The races of an input, added one after the other.
ghost use Rattle.std.specs.Prelude.{◌≡◌, ◌+◌, ◌≤◌, true, IfOk};
ghost use Rattle.he_words.specs.Ranges.{most_races};
ghost use Rattle.he_totals.specs.Steps.{AddsNext, HasRead};
ghost use Rattle.he_totals.specs.Summed.{Sums};

use crate::kept::Place;
use crate::races::Races;
use he_inputs::{RaceStream, StreamFault, record_of};
use he_stream::InputStream;
use std::alloc::Allocator;
use std::mem::drop;

// Adds the next race of an input, if there is one. The arena holds the race and its transcripts.
pub(crate) fn add_next<A: Allocator + Copy, B: Allocator + Copy, I: InputStream>(
    arena: B,
    file: usize,
    stream: &mut RaceStream<A>,
    input: &mut I,
    races: &mut Races<A>,
) -> Result<bool, StreamFault>
    ensures added { (first : I) (start : Sums) → HasRead file I.InputStream first input.old stream.old start races.old
        → AddsNext file I.InputStream first input.new stream.new start races.new result }
    ensures counted { IfOk result (λ found. found ≡ true → stream.new.races ≡ stream.old.races + 1) }
    ensures few { stream.new.races ≤ most_races }
{
    let line = stream.lines() + 1;
    let Some(race) = stream.next(arena, input)? else {
        return Ok(false);
    };
    let place = Place {
        file,
        number: stream.races(),
        line,
    };
    let told = record_of(arena, stream.text())?;
    let added = races.add_race(arena, place, &told, &race);
    drop(told);
    drop(race);
    match added {
        Ok(()) => Ok(true),
        Err(_) => Err(StreamFault::Memory),
    }
}
