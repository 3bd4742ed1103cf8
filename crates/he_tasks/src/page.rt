//! A page: its head, the parts of its texts, and the totals that end it.
ghost use Rattle.std.specs.Prelude.{ℕ, ◌≡◌, ◌⊎◌, map, IfOk, List, OnErr, OnOk};
ghost use Rattle.he_json.specs.Documents.{name_of};
ghost use Rattle.he_streaming.specs.Rounds.{IsAsked};
ghost use Rattle.he_tasks.specs.Pages.{ArePageTotals, IsTail, PutsParts, PutsSections, PutsTail, end_of, p99_of, page_times};
ghost use Rattle.he_tasks.specs.Streams.{TookAll, TookPart};

use crate::reports::report;
use crate::session::{Session, put_all, put_text};
use bumpalo::Bump;
use he_addr::Memory;
use he_draw::{Times, Totals, write_head, write_tail};
use he_inputs::{StreamFault, record_of};
use he_stream::{InputStream, OutputStream};
use he_streaming::{Content, Printer, RacePlace, TextRequest};
use he_summary::figures::greatest_of;
use he_timeline::Changes;
use he_totals::times::spread_of;
use he_totals::{Ending, Kept, Place, Races, Spread};
use std::alloc::Global;
use std::io::Write;
use std::mem::drop;

// The initial size of the arena, which holds a race while it is added and written.
const ARENA_BYTES: usize = 65_536;

// The least size of the parts of races that are put at a time, in bytes.
const PARTS_BYTES: usize = 65_536;

// Puts the head of a page.
pub(crate) fn put_head<O: OutputStream>(alloc: Global, output: &mut O) -> Result<(), StreamFault>
    ensures ok { OnOk result ((head : List ℕ) × TookAll O.OutputStream output.old output.new head) }
    ensures err { OnErr result (((head : List ℕ) × TookPart O.OutputStream output.old output.new head)
        ⊎ (output.new ≡ output.old)) }
{
    let mut head = Vec::new(alloc);
    write_head(&mut head)?;
    put_text(&head, output)
}

// Puts the parts of a page for the races of the text of this name, and adds these races to those whose totals end the
// page. After a fault of the output, or without memory for a race, there are no sums, and so no totals.
pub(crate) fn put_sections<R, I: InputStream, O: OutputStream, F>(
    session: &mut Session<'_, '_, R, O, F>,
    changes: Changes,
    name: Option<&str>,
    input: &mut I,
    sums: &mut Option<Races<Global>>,
) -> Result<(), StreamFault>
    ensures { PutsSections I.InputStream O.OutputStream changes (name_of name.entry) input.old input.new
        (session.old.output, sums.old) (session.new.output, sums.new) result }
{
    let Some(mut races) = sums.take() else {
        return Err(StreamFault::Memory);
    };
    let place = session.place;
    let asked = TextRequest {
        content: Content::Course(Printer::Section { text: place }),
        changes,
        file: name,
    };
    let end = put_parts(session, place, &asked, input, &mut races);
    match end {
        Ok(()) => *sums = Some(races),
        Err(fault) => match fault {
            StreamFault::Text(_) => *sums = Some(races),
            StreamFault::Read => *sums = Some(races),
            StreamFault::Write => drop(races),
            StreamFault::Memory => drop(races),
        },
    }
    end
}

// Puts the text that is asked for of each race, some races at a time, and adds the race, before the next one is read.
fn put_parts<R, I: InputStream, O: OutputStream, F>(
    session: &mut Session<'_, '_, R, O, F>,
    file: usize,
    asked: &TextRequest<'_>,
    input: &mut I,
    races: &mut Races<Global>,
) -> Result<(), StreamFault>
    ensures { PutsParts I.InputStream O.OutputStream file (IsAsked asked.now) input.old input.new session.old.output
        session.new.output races.old races.new result }
{
    session.stream.restart();
    let mut arena = Bump::try_with_capacity(session.alloc, ARENA_BYTES)?;
    let mut text = Vec::new(session.alloc);
    loop {
        let line = session.stream.lines() + 1;
        match session.stream.next(&arena, input) {
            Ok(Some(race)) => {
                let number = session.stream.races();
                let recorded = record_of(&arena, session.stream.text())?;
                races.add_race(&arena, Place { file, number, line }, &recorded, &race)?;
                let at = RacePlace { number, line };
                asked.write(&arena, race, &recorded, at, &mut text)?;
            }
            Ok(None) => return put_text(&text, &mut session.output),
            Err(fault) => {
                put_text(&text, &mut session.output)?;
                return Err(fault.into());
            }
        }
        if text.len() >= PARTS_BYTES {
            put_text(&text, &mut session.output)?;
            text.clear();
        }
        // If the arena can't be reset, it grows; that is no fault.
        let _ = arena.reset();
    }
}

// Ends a page with the totals of its races, and returns the exit status.
pub(crate) fn put_tail<R, O: OutputStream, F: Write>(
    session: &mut Session<'_, '_, R, O, F>,
    explains: bool,
    races: &Races<Global>,
) -> u8
    ensures { PutsTail O.OutputStream races.now session.old.output session.new.output result }
{
    match tail(session.alloc, races) {
        Ok(text) => put_all(session, text.as_slice(), explains),
        Err(_) => report(StreamFault::Memory, &mut session.faults),
    }
}

fn tail(alloc: Global, races: &Races<Global>) -> Result<Vec<u8>, Memory>
    ensures { IfOk result (λ text. IsTail races.now.kept text.items) }
{
    let totals = totals_of(alloc, races.kept())?;
    let mut text = Vec::new(alloc);
    write_tail(totals, &mut text)?;
    Ok(text)
}

fn totals_of(alloc: Global, kept: &[Kept]) -> Result<Totals, Memory>
    ensures { IfOk result (ArePageTotals kept.now) }
{
    let counted = he_totals::Totals::of(alloc, kept)?;
    let counts = counted.counts;
    let ends = spread_of(&mut ends_of(alloc, kept)?);
    Ok(Totals {
        races: counts.races,
        by_v6: counts.by_v6,
        by_v4: counts.by_v4,
        not_won: counts.races.saturating_sub(counts.won),
        times: times_of(counted.times),
        end: p99_of(ends),
        longest: greatest_of(ends),
    })
}

fn times_of(times: Option<Spread>) -> Option<Times>
    ensures { result ≡ page_times times }
{
    match times {
        Some(times) => Some(Times {
            median: times.median,
            p90: times.p90,
            p99: times.p99,
        }),
        None => None,
    }
}

// The ticks at which races end.
fn ends_of(alloc: Global, kept: &[Kept]) -> Result<Vec<u64>, Memory>
    ensures { IfOk result (λ ends. ends.items ≡ map (λ race. end_of race.ending) kept.now) }
{
    kept.iter().map(|race| end_of(race.ending)).collect(alloc)
}

// The least number within which 99 of 100 lie; 0 if there are none.
fn p99_of(spread: Option<Spread>) -> u64
    ensures { result ≡ p99_of spread }
{
    match spread {
        Some(spread) => spread.p99,
        None => 0,
    }
}

fn end_of(ending: Ending) -> u64
    ensures { result ≡ end_of ending }
{
    match ending {
        Ending::Won(_, tick) | Ending::Exhausted(tick) | Ending::Limit(tick) => tick,
    }
}
