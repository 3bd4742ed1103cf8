//! The first races of some bytes, written by workers. The bytes are cut into pieces after the ends of races. Each
//! worker takes pieces from a shared board, reads them and writes the texts of their races, in a thread of its own;
//! the texts are joined in the order of the races.
//!
//! If no growth is refused, each piece is written exactly once, by the worker that took it: the joined pass has all
//! parts, so these workers took all that is taken by it, each piece by one of them.
ghost use Rattle.std.specs.Prelude.{◌≡◌, ◌≤◌, ◌<◌, ◌+◌, ◌-◌, [], true, false, IfOk, drop, length, slice_range};
ghost use denote.Param.Send.{Frees, IsSend, IsSync};
ghost use Rattle.he_board.specs.Passes.{IsPassOf, jobs_of, notes};
ghost use Rattle.he_board.specs.declared.limits.TheConstants.{LEAST_WORKERS, MOST_WORKERS};
ghost use Rattle.he_streaming.specs.declared.limits.TheConstants.{MOST_PIECES};
ghost use Rattle.he_inputs.specs.RaceReading.{IsWithin};
ghost use Rattle.he_words.specs.Ranges.{most_races};
ghost use Rattle.he_inputs.specs.declared.race_reader.Ending.TheVariants as endings;
ghost use Rattle.he_streaming.specs.Pieces.{AreAllPieces, ArePieces, IsAnywhere, IsDone, IsEnd, IsJoined, IsPast, IsPiece, IsStart, IsWhole, MayTake};
ghost use Rattle.he_streaming.specs.Rounds.{HasTold, IsAsked, Reaches, TellsOn};

use crate::limits::{LEAST_WORKERS, MOST_PIECES, MOST_RACES, MOST_WORKERS, PIECE_BYTES, RACE_END};
use crate::race_texts::TextRequest;
use crate::rounds::{RoundScope, tell_races};
use he_addr::Memory;
use he_board::{Board, Pass};
use he_inputs::{Ending, RaceReader};
use memchr::memmem;
use std::alloc::Allocator;
use std::ops::Range;
use std::thread;
use std::thread::Threads;

// The text of a piece of some bytes: of its first races.
#[derive(Drop)]
pub(crate) struct Piece<A: Allocator> {
    // The job that a worker took.
    number: usize,
    // The first byte of the piece, by its place in the bytes.
    from: usize,
    // The texts of the races.
    text: Vec<u8, A>,
    // The reader of the piece: the number of its races, and where in the piece they end.
    reader: RaceReader,
}

impl<A: Allocator> Piece<A> {
    // Whether the piece begins where the reader is, and its races are few enough.
    fn follows(&self, reader: RaceReader) -> bool
        requires { reader.races ≤ most_races }
        ensures on { result ≡ true → (self.now.from ≡ reader.end)
            × (reader.races + self.now.reader.races ≤ most_races) }
        ensures past { result ≡ false → IsPast reader self.now }
    {
        let room = MOST_RACES - reader.races;
        self.from == reader.end && self.reader.races <= room
    }
}

// The pieces that workers wrote, and the pass by which they took them.
#[derive(Drop)]
pub(crate) struct Worked<A: Allocator> {
    pass: Pass,
    pieces: Vec<Piece<A>, A>,
}

// The work that all workers share: each writes pieces of some bytes, and each piece is written once.
#[derive(Clone, Copy)]
pub(crate) struct Work<'a, A: Allocator> {
    bytes: &'a [u8],
    // The number of pieces of the bytes.
    count: usize,
    asked: &'a TextRequest<'a>,
    // Has a job for each piece.
    board: &'a Board<A>,
}

// Workers, and the pass by which they take pieces.
#[derive(Drop)]
pub(crate) struct Crew {
    workers: u16,
    pass: Pass,
}

// The number of pieces of this number of bytes: the last piece includes a rest that is too short for another.
pub(crate) fn piece_count(bytes: usize) -> usize
    ensures { result ≤ MOST_PIECES }
{
    MOST_PIECES.min(bytes / PIECE_BYTES)
}

// Writes this number of pieces of the bytes by this number of workers, each piece once. The calling thread is one.
pub(crate) fn tell_pieces<R: Threads + Sync, A: Allocator + Copy + Send + Sync>(
    rt: &R,
    alloc: A,
    bytes: &[u8],
    count: usize,
    workers: u16,
    asked: &TextRequest,
) -> Result<Vec<Piece<A>, A>, Memory>
    requires some { LEAST_WORKERS ≤ workers }
    requires few { workers ≤ MOST_WORKERS }
    requires pieces { count ≤ MOST_PIECES }
    ensures { IfOk result (λ pieces. AreAllPieces (IsAsked asked.now) bytes.now count pieces.items) }
{
    let Ok((board, pass)) = Board::new(alloc, count, 0) else {
        return Err(Memory);
    };
    let work = Work {
        bytes: &*bytes,
        count,
        asked: &*asked,
        board: &board,
    };
    let mut worked = run_workers(rt, alloc, work, Crew { workers, pass })?;
    board.settle(&mut worked.pass);
    Ok(worked.pieces)
}

// Runs a crew. One worker runs on the calling thread; more run in two halves at once.
#[cycle(workers)]
fn run_workers<R: Threads + Sync, A: Allocator + Copy + Send + Sync>(
    rt: &R,
    alloc: A,
    work: Work<'_, A>,
    crew: Crew,
) -> Result<Worked<A>, Memory>
    requires { MayTake work.board.now crew.pass work.count crew.workers }
    ensures { IfOk result (IsDone work.entry (notes crew.pass).parts) }
{
    let Crew { workers, pass } = crew;
    if workers == LEAST_WORKERS {
        return run_worker(alloc, work, pass);
    }
    let far = workers / 2;
    let near = workers - far;
    let (p, q) = work.board.fork(pass);
    let near = Crew {
        workers: near,
        pass: p,
    };
    let far = Crew {
        workers: far,
        pass: q,
    };
    let (left, right) = run_halves(rt, alloc, work, near, far);
    join_halves(work, left?, right?)
}

// Runs two crews at once.
#[cycle(workers)]
fn run_halves<R: Threads + Sync, A: Allocator + Copy + Send + Sync>(
    rt: &R,
    alloc: A,
    work: Work<'_, A>,
    near: Crew,
    far: Crew,
) -> (Result<Worked<A>, Memory>, Result<Worked<A>, Memory>)
    requires near { MayTake work.board.now near.pass work.count near.workers }
    requires far { MayTake work.board.now far.pass work.count far.workers }
    ensures left { IfOk result.0 (IsDone work.entry (notes near.pass).parts) }
    ensures right { IfOk result.1 (IsDone work.entry (notes far.pass).parts) }
{
    thread::join(
        rt,
        move || -> Result<Worked<A>, Memory>
            requires { IsSync R.row × IsSend A.row × IsSync A.row × Frees A.Allocator A.dealloc_token
                × MayTake work.board.now near.pass work.count near.workers }
            ensures { IfOk result (IsDone work.entry (notes near.pass).parts) }
        { run_workers(rt, alloc, work, near) },
        move || -> Result<Worked<A>, Memory>
            requires { IsSync R.row × IsSend A.row × IsSync A.row × Frees A.Allocator A.dealloc_token
                × MayTake work.board.now far.pass work.count far.workers }
            ensures { IfOk result (IsDone work.entry (notes far.pass).parts) }
        { run_workers(rt, alloc, work, far) },
    )
}

// The pieces of both halves, with one pass.
fn join_halves<A: Allocator + Copy>(
    work: Work<'_, A>,
    left: Worked<A>,
    right: Worked<A>,
) -> Result<Worked<A>, Memory>
    requires left { IsDone work (notes left.pass).parts left }
    requires right { IsDone work (notes right.pass).parts right }
    ensures { IfOk result (IsDone work.entry ((notes left.pass).parts + (notes right.pass).parts)) }
{
    let pass = work.board.rejoin(left.pass, right.pass);
    let mut pieces = left.pieces;
    let mut others = right.pieces;
    pieces.append(&mut others)?;
    Ok(Worked { pass, pieces })
}

// Writes each piece that is not taken yet.
fn run_worker<A: Allocator + Copy>(
    alloc: A,
    work: Work<'_, A>,
    pass: Pass,
) -> Result<Worked<A>, Memory>
    requires own { IsPassOf work.board.now pass }
    requires jobs { work.count ≤ jobs_of work.board.now }
    requires pieces { work.count ≤ MOST_PIECES }
    requires fresh { (notes pass).taken ≡ [] }
    ensures { IfOk result (IsDone work.entry (notes pass).parts) }
{
    let mut pass = pass;
    let mut pieces = Vec::new(alloc);
    for number in 0..work.count {
        if work.board.take(&mut pass, number) {
            pieces.push(tell_piece(alloc, work, number)?)?;
        }
    }
    Ok(Worked { pass, pieces })
}

// Writes the piece of this number.
fn tell_piece<A: Allocator + Copy>(
    alloc: A,
    work: Work<'_, A>,
    number: usize,
) -> Result<Piece<A>, Memory>
    requires near { number < work.count }
    requires few { work.count ≤ MOST_PIECES }
    ensures number { IfOk result (λ piece. piece.number ≡ number) }
    ensures told { IfOk result (λ piece. IsPiece (IsAsked work.entry.asked.now) work.entry.bytes.now piece.from piece.text.items
        piece.reader) }
    ensures whole { IfOk result (IsWhole work.entry.bytes.now work.entry.count) }
{
    let Work {
        bytes,
        count,
        asked,
        board: _,
    } = work;
    let from = piece_start(bytes, number);
    let end = piece_end(bytes, number, count);
    let mut text = Vec::new(alloc);
    let reader = tell_range(alloc, bytes, from..end, asked, &mut text)?;
    Ok(Piece {
        number,
        from,
        text,
        reader,
    })
}

// The end of the piece of this number, of `count`: the start of the next one, or the end of the bytes for the last
// one.
fn piece_end(bytes: &[u8], number: usize, count: usize) -> usize
    requires near { number < count }
    requires few { count ≤ MOST_PIECES }
    ensures within { result ≤ length bytes.now }
    ensures end { IsEnd bytes.now count number result }
{
    if number + 1 == count {
        bytes.len()
    } else {
        piece_start(bytes, number + 1)
    }
}

// The start of the piece of this number: after the first race that ends at `number` times the bytes of a piece, or
// later.
fn piece_start(bytes: &[u8], number: usize) -> usize
    requires { number ≤ MOST_PIECES }
    ensures within { result ≤ length bytes.now }
    ensures start { IsStart bytes.now number result }
{
    if number == 0 {
        return 0;
    }
    let from = bytes.len().min(number * PIECE_BYTES);
    match memmem::find(&bytes[from..], RACE_END) {
        Some(at) => from + at + RACE_END.len(),
        None => bytes.len(),
    }
}

// Writes the races at the front of a range of the bytes.
fn tell_range<A: Allocator + Copy>(
    alloc: A,
    bytes: &[u8],
    range: Range<usize>,
    asked: &TextRequest,
    text: &mut Vec<u8, A>,
) -> Result<RaceReader, Memory>
    requires from { range.start ≤ length bytes.now }
    requires end { range.end ≤ length bytes.now }
    requires none { text.old.items ≡ [] }
    ensures told { IfOk result (HasTold (IsAsked asked.now) (drop range.start bytes.now) 0 0 text.new.items) }
    ensures reached { IfOk result (Reaches endings.Open (slice_range bytes.now range.start range.end)
        (range.end - range.start)) }
{
    let Range { start, end } = range;
    if end <= start {
        return Ok(RaceReader::START);
    }
    let part = RoundScope {
        begun: RaceReader::START,
        reach: end - start,
        ending: Ending::Open,
    };
    let told = tell_races(alloc, &bytes[start..end], part, asked, text)?;
    Ok(told.reader)
}

// Appends the texts of first races of the bytes, at whose front the reader is: of the pieces with which the bytes
// begin, as long as each is races to its end and all of them together are few enough.
pub(crate) fn join_pieces<A: Allocator>(
    bytes: &[u8],
    asked: &TextRequest,
    reader: RaceReader,
    pieces: &[Piece<A>],
    text: &mut Vec<u8, A>,
) -> Result<RaceReader, Memory>
    requires anywhere { IsAnywhere (IsAsked asked.now) }
    requires within { IsWithin bytes.now reader }
    requires told { ArePieces (IsAsked asked.now) bytes.now pieces.now }
    ensures told { IfOk result (TellsOn (IsAsked asked.now) bytes.now reader text.old.items text.new.items) }
    ensures all { IfOk result (IsJoined pieces.now) }
{
    let mut begun = reader;
    loop {
        let before = begun.end;
        begun = join_some(bytes, asked, begun, pieces, text)?;
        if begun.end == before {
            return Ok(begun);
        }
    }
}

// Appends the text of each piece that begins where the appended ones end.
fn join_some<A: Allocator>(
    bytes: &[u8],
    asked: &TextRequest,
    before: RaceReader,
    pieces: &[Piece<A>],
    text: &mut Vec<u8, A>,
) -> Result<RaceReader, Memory>
    requires anywhere { IsAnywhere (IsAsked asked.now) }
    requires within { IsWithin bytes.now before }
    requires told { ArePieces (IsAsked asked.now) bytes.now pieces.now }
    ensures within { IfOk result (IsWithin bytes.now) }
    ensures told { IfOk result (TellsOn (IsAsked asked.now) bytes.now before text.old.items text.new.items) }
    ensures on { IfOk result (λ after. before.end ≤ after.end) }
    ensures all { IfOk result (λ after. after.end ≡ before.end → IsJoined pieces.now after) }
{
    let mut begun = before;
    for piece in pieces {
        if piece.follows(begun) {
            text.extend_from_slice(&piece.text)?;
            begun = RaceReader {
                end: begun.end + piece.reader.end,
                races: begun.races + piece.reader.races,
                lines: begun.lines + piece.reader.lines,
            };
        }
    }
    Ok(begun)
}
