//! The table of a round.
ghost use Rattle.std.specs.Prelude.{◌≡◌, ◌++◌, codes, IfOk, OnOk};
ghost use Rattle.he_probing.specs.Texts.{client_text, connection_text, fastest_text, heading_text, lost_text, shares_text};
ghost use Rattle.he_probing.specs.Texts.{summary_text, verdict_text};

use crate::columns::{Cells, ip_cell, number_cell, word_cell, write_columns};
use crate::counting::count_connected;
use crate::fastest::Fastest;
use crate::request::RoundRequest;
use crate::round::Round;
use crate::rows::AddressRow;
use crate::shown::{Piece, family_name, millis_of, write_moment, write_result, write_words};
use crate::verdict::Verdict;
use he_addr::{Ip, Memory};
use he_plan::Line;
use he_print::{Part, write_parts};
use he_record::Moment;
use std::alloc::Global;

// The columns of words, before that of milliseconds.
const WORD_COLUMNS: usize = 4;

/// The lines of a round: how many addresses connect, a row for each, the IPv4 hosts that they have embedded, and the
/// verdict. They begin with the heading.
///
/// # Errors
///
/// `Memory` if an allocation fails.
pub fn table(
    alloc: Global,
    heading: &[u8],
    request: &RoundRequest<'_>,
    round: &Round,
) -> Result<Vec<u8>, Memory> {
    let mut text = Vec::new(alloc);
    write_words(heading, &mut text)?;
    write_summary(&round.rows, &mut text)?;
    write_rows(alloc, &round.rows, request.timeout, &mut text)?;
    write_hosts(&round.rows, &mut text)?;
    write_verdict(round, &mut text)?;
    text.push(b'\n')?;
    Ok(text)
}

/// The heading and the verdict, in one line.
///
/// # Errors
///
/// `Memory` if an allocation fails.
pub fn verdict_line(alloc: Global, heading: &[u8], round: &Round) -> Result<Vec<u8>, Memory>
    ensures { IfOk result (λ text. text.items ≡ heading.now ++ (codes ": " ++ (verdict_text round.now ++ codes "\n"))) }
{
    let mut text = Vec::new(alloc);
    write_words(heading, &mut text)?;
    write_words(b": ", &mut text)?;
    write_verdict(round, &mut text)?;
    text.push(b'\n')?;
    Ok(text)
}

/// `www.example.com port 443`, with the host as a terminal may show it; with the time before it, if there are other
/// rounds.
///
/// # Errors
///
/// `Memory` if an allocation fails.
pub fn heading_of(
    alloc: Global,
    shown_host: &[u8],
    port: u16,
    at: Option<Moment>,
) -> Result<Vec<u8>, Memory>
    ensures { IfOk result (λ text. text.items ≡ heading_text shown_host.now port at) }
{
    let mut text = Vec::new(alloc);
    if let Some(at) = at {
        write_moment(at, &mut text)?;
        write_words(b" ", &mut text)?;
    }
    write_words(shown_host, &mut text)?;
    let parts: [Piece; 2] = [Part::Words(b" port "), Part::Number(u64::from(port))];
    write_parts(&parts, &mut text)?;
    Ok(text)
}

// How many of the rows connect, or that there are none.
#[tactic(auto, using(std::proofs::lemmas::List::append_assoc))]
fn write_summary(rows: &[AddressRow], text: &mut Vec<u8>) -> Result<(), Memory>
    ensures { OnOk result (text.new.items ≡ text.old.items ++ summary_text rows.now) }
{
    if rows.len() == 0 {
        return write_words(b": no address to try\n", text);
    }
    let noun: &'static [u8] = if rows.len() == 1 {
        b" address connects\n"
    } else {
        b" addresses connect\n"
    };
    let parts: [Piece; 5] = [
        Part::Words(b": "),
        Part::Number(count_connected(rows) as u64),
        Part::Words(b" of "),
        Part::Number(rows.len() as u64),
        Part::Words(noun),
    ];
    write_parts(&parts, text)
}

// The cells of the rows, below their headings.
fn write_rows(
    alloc: Global,
    rows: &[AddressRow],
    timeout: u64,
    text: &mut Vec<u8>,
) -> Result<(), Memory> {
    if rows.is_empty() {
        return Ok(());
    }
    let mut cells = Vec::new(alloc);
    cells.push(heading_cells(alloc)?)?;
    for row in rows {
        cells.push(cells_of(alloc, timeout, row)?)?;
    }
    write_columns(alloc, WORD_COLUMNS, &cells, text)
}

// A line for each address that has an IPv4 host embedded: `64:ff9b::cb00:7150 is 203.0.113.80`.
fn write_hosts(rows: &[AddressRow], text: &mut Vec<u8>) -> Result<(), Memory> {
    for row in rows {
        if let Some(host) = row.host {
            let parts: [Piece; 4] = [
                Part::Ip(row.ip),
                Part::Words(b" is "),
                Part::Ip(host),
                Part::Words(b"\n"),
            ];
            write_parts(&parts, text)?;
        }
    }
    Ok(())
}

fn heading_cells(alloc: Global) -> Result<Cells, Memory> {
    let mut cells = Vec::new(alloc);
    cells.push(word_cell(alloc, b"address")?)?;
    cells.push(word_cell(alloc, b"family")?)?;
    cells.push(word_cell(alloc, b"source")?)?;
    cells.push(word_cell(alloc, b"outcome")?)?;
    cells.push(word_cell(alloc, b"ms")?)?;
    Ok(cells)
}

fn cells_of(alloc: Global, timeout: u64, row: &AddressRow) -> Result<Cells, Memory> {
    let mut cells = Vec::new(alloc);
    cells.push(ip_cell(alloc, row.ip)?)?;
    cells.push(word_cell(alloc, family_name(row.ip.family()))?)?;
    cells.push(source_cell(alloc, row.source)?)?;
    cells.push(result_cell(alloc, row)?)?;
    cells.push(number_cell(alloc, millis_of(timeout, row))?)?;
    Ok(cells)
}

fn source_cell(alloc: Global, source: Option<Ip>) -> Result<Vec<u8>, Memory> {
    match source {
        Some(source) => ip_cell(alloc, source),
        None => word_cell(alloc, b"none"),
    }
}

fn result_cell(alloc: Global, row: &AddressRow) -> Result<Vec<u8>, Memory> {
    let mut cell = Vec::new(alloc);
    write_result(row, &mut cell)?;
    Ok(cell)
}

// The verdict, with the connection that a client makes.
#[tactic(auto, using(std::proofs::lemmas::List::append_assoc))]
fn write_verdict(round: &Round, text: &mut Vec<u8>) -> Result<(), Memory>
    ensures { OnOk result (text.new.items ≡ text.old.items ++ verdict_text round.now) }
{
    match round.verdict {
        Verdict::NothingConnects => return write_words(b"Nothing connects", text),
        Verdict::Broken(family, failed, count) => {
            write_words(family_name(family), text)?;
            write_words(b" broken: ", text)?;
            write_shares(failed, count, text)?;
            write_words(b". ", text)?;
        }
        Verdict::SomeFail(failed, count) => {
            write_shares(failed, count, text)?;
            write_words(b"; clients lose nothing to them. ", text)?;
        }
        Verdict::AllFine => write_words(b"All fine. ", text)?,
    }
    write_client(round, text)
}

// `2 of 3 addresses fail`.
#[tactic(auto, using(std::proofs::lemmas::List::append_assoc))]
fn write_shares(failed: usize, count: usize, text: &mut Vec<u8>) -> Result<(), Memory>
    ensures { OnOk result (text.new.items ≡ text.old.items ++ shares_text failed count) }
{
    let noun: &'static [u8] = if count == 1 {
        b" address "
    } else {
        b" addresses "
    };
    let verb: &'static [u8] = if failed == 1 { b"fails" } else { b"fail" };
    let parts: [Piece; 5] = [
        Part::Number(failed as u64),
        Part::Words(b" of "),
        Part::Number(count as u64),
        Part::Words(noun),
        Part::Words(verb),
    ];
    write_parts(&parts, text)
}

// The connection that a client makes, the time that it loses, and the fastest address if it is sooner.
#[tactic(auto, using(std::proofs::lemmas::List::append_assoc))]
fn write_client(round: &Round, text: &mut Vec<u8>) -> Result<(), Memory>
    ensures { OnOk result (text.new.items ≡ text.old.items ++ client_text round.now) }
{
    let end = round.course.end();
    match round.course.ended.winner {
        Some(winner) => {
            write_connection(winner, end, text)?;
            write_lost(round.course.lost(), text)?;
            write_fastest(round.fastest, end, text)
        }
        None => {
            let parts: [Piece; 3] = [
                Part::Words(b"A client has no connection after "),
                Part::Number(end),
                Part::Words(b" ms"),
            ];
            write_parts(&parts, text)
        }
    }
}

#[tactic(auto, using(std::proofs::lemmas::List::append_assoc))]
fn write_connection(winner: Line, end: u64, text: &mut Vec<u8>) -> Result<(), Memory>
    ensures { OnOk result (text.new.items ≡ text.old.items ++ connection_text winner end) }
{
    let parts: [Piece; 5] = [
        Part::Words(b"A client connects to "),
        Part::Ip(winner.ip),
        Part::Words(b" after "),
        Part::Number(end),
        Part::Words(b" ms"),
    ];
    write_parts(&parts, text)
}

#[tactic(auto, using(std::proofs::lemmas::List::append_assoc))]
fn write_lost(lost: Option<u64>, text: &mut Vec<u8>) -> Result<(), Memory>
    ensures { OnOk result (text.new.items ≡ text.old.items ++ lost_text lost) }
{
    match lost {
        Some(lost) if lost > 0 => {
            let parts: [Piece; 3] = [
                Part::Words(b", "),
                Part::Number(lost),
                Part::Words(b" of them lost"),
            ];
            write_parts(&parts, text)
        }
        _ => Ok(()),
    }
}

#[tactic(auto, using(std::proofs::lemmas::List::append_assoc))]
fn write_fastest(fastest: Option<Fastest>, end: u64, text: &mut Vec<u8>) -> Result<(), Memory>
    ensures { OnOk result (text.new.items ≡ text.old.items ++ fastest_text fastest end) }
{
    match fastest {
        Some(fastest) if fastest.ticks < end => {
            let parts: [Piece; 4] = [
                Part::Words(b"; "),
                Part::Ip(fastest.ip),
                Part::Words(b" alone would take "),
                Part::Number(fastest.ticks),
            ];
            write_parts(&parts, text)
        }
        _ => Ok(()),
    }
}
