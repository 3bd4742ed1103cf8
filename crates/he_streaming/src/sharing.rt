// Races of a step of the input that workers share.
ghost use Rattle.std.specs.Prelude.{◌≡◌, ◌≤◌, ◌<◌, ◌+◌, ◌^◌, IfOk, length};
ghost use Rattle.he_board.specs.declared.limits.TheConstants.{LEAST_WORKERS, MOST_WORKERS};
ghost use Rattle.he_words.specs.Ranges.{most_races};
ghost use Rattle.he_streaming.specs.Pieces.{IsAnywhere};
ghost use Rattle.he_streaming.specs.Rounds.{HasTold, IsAsked};

use crate::limits::{LEAST_WORKERS, MOST_WORKERS, PIECES_OF_A_WORKER};
use crate::pieces::{join_pieces, piece_count, tell_pieces};
use crate::race_texts::TextRequest;
use crate::rounds::Held;
use he_addr::Memory;
use he_inputs::RaceReader;
use std::alloc::Allocator;
use std::thread::Threads;

// Writes first races of the held bytes; none, if the bytes are few.
pub(crate) fn begin_shared<R: Threads + Sync, A: Allocator + Copy + Send + Sync>(
    rt: &R,
    alloc: A,
    held: &Held<A>,
    workers: u16,
    asked: &TextRequest,
    text: &mut Vec<u8, A>,
) -> Result<RaceReader, Memory>
    requires anywhere { LEAST_WORKERS < workers → IsAnywhere (IsAsked asked.now) }
    requires some { LEAST_WORKERS ≤ workers }
    requires few { workers ≤ MOST_WORKERS }
    requires front { (held.now.reader.end ≡ 0) × (held.now.reader.races ≤ most_races) }
    requires lines { held.now.reader.lines + length held.now.input.bytes ≤ 2 ^ 54 }
    ensures { IfOk result (HasTold (IsAsked asked.now) held.now.input.bytes held.now.reader.races
        held.now.reader.lines text.new.items) }
{
    text.clear();
    let bytes = held.input.bytes();
    let pieces = piece_count(bytes.len());
    let enough = enough_workers(pieces, workers);
    if enough == LEAST_WORKERS {
        return Ok(held.reader);
    }
    let told = tell_pieces(rt, alloc, bytes, pieces, enough, asked)?;
    join_pieces(bytes, asked, held.reader, &told, text)
}

// The number of workers such that each has enough pieces to be worth its thread; at least one.
fn enough_workers(pieces: usize, workers: u16) -> u16
    requires some { LEAST_WORKERS ≤ workers }
    requires few { workers ≤ MOST_WORKERS }
    ensures some { LEAST_WORKERS ≤ result }
    ensures few { result ≤ workers }
{
    let enough = pieces / PIECES_OF_A_WORKER;
    if enough == 0 {
        LEAST_WORKERS
    } else if enough < workers as usize {
        enough as u16
    } else {
        workers
    }
}
