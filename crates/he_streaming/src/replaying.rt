//! Replaying the timelines of an input to an output.
ghost use Rattle.std.specs.Prelude.{◌≤◌};
ghost use Rattle.he_stream.specs.Input.{Gives, GivesSoFar};
ghost use Rattle.he_stream.specs.Output.{PutsAndEnds, PutsInRounds, PutsRoundsPart};
ghost use Rattle.he_json.specs.Documents.{name_of};
ghost use Rattle.he_streaming.specs.Stream.{Replays};

use crate::limits::{LEAST_WORKERS, MOST_WORKERS};
use crate::race_texts::TextRequest;
use crate::streaming::stream_races;
use he_inputs::StreamFault;
use he_stream::{InputStream, OutputStream};
use std::alloc::Allocator;
use std::thread::Threads;

/// Reads timelines to the end of the input and writes the text that is asked for of each, such as its transcript,
/// with at most `workers` workers.
///
/// The output and the result depend neither on the number of workers nor on the order of their steps.
///
/// Writes the texts as the races come: when a step of the input has given the last line of a race, the texts of all
/// races that are whole by then are written and flushed before the next step. Holds no more than the bytes of one
/// race and one step, and the texts of the races that one step completes.
///
/// One worker, the calling thread, reads each race and follows it to its end before the next. Several workers share
/// the bytes of one step: these are cut into pieces after races (`limits::PIECE_BYTES` each, or more), each worker
/// takes pieces until none is left, reads them and writes the texts of their races, in a thread of its own, and the
/// texts are joined in the order of the races. No more workers are taken than have `limits::PIECES_OF_A_WORKER`
/// pieces each, and only one if the text has the race's place in the input ([`Content::has_place`]).
///
/// After `Text` and `Read` the texts of all races before the fault have been written, after `Write` a first part of
/// them, after `Memory` those of some first races. The output is flushed at the end, after `Text` and `Read` too.
/// After `Write`, and after a fault of the text that no further input can change, the input is not read further.
///
/// # Errors
///
/// - `Text` if the input is no timeline text.
/// - `Read` if a step of the input failed before a fault of the text was found, or the bound of 4,294,967,296 steps
///   was reached.
/// - `Write` if a step of the output failed or took no byte, the flush failed, or the bound of 4,294,967,296 steps
///   was reached, whatever the input was.
/// - `Memory` if an allocation was refused.
///
/// [`Content::has_place`]: crate::Content::has_place
pub fn replay<
    R: Threads + Sync,
    A: Allocator + Copy + Send + Sync,
    I: InputStream,
    O: OutputStream,
>(
    rt: &R,
    alloc: A,
    asked: &TextRequest<'_>,
    workers: u16,
    input: &mut I,
    output: &mut O,
) -> Result<(), StreamFault>
    requires some { LEAST_WORKERS ≤ workers }
    requires few { workers ≤ MOST_WORKERS }
    ensures { Replays asked.now.content asked.now.changes (name_of asked.now.file)
        (Gives I.remaining I.takes input.old input.new)
        (GivesSoFar I.remaining I.takes input.old input.new)
        (PutsAndEnds O.contents O.puts O.flushes output.old output.new)
        (PutsRoundsPart O.contents O.puts O.flushes output.old output.new)
        (PutsInRounds O.contents O.puts O.flushes output.old output.new) result }
{
    let workers = if asked.content.has_place() {
        LEAST_WORKERS
    } else {
        workers
    };
    stream_races(rt, alloc, workers, asked, input, output)
}
