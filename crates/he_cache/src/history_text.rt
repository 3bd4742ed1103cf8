//! The text of a history: a line for each address, `ADDRESS SOURCE MILLISECONDS SECOND`, separated by single spaces;
//! the address connected to last comes first.

ghost use Rattle.std.specs.Prelude.{◌≡◌, ◌==◌, ◌++◌, IfOk, OnOk, map};
ghost use Rattle.std.specs.List.{slice_split};
ghost use Rattle.he_cache.specs.KnownText.{ReadsBack, line_of, seen_by, seen_in, seen_of_fields};

use crate::history::{History, Seen};
use he_addr::{Ip, Memory, read_ip, read_number, write_ip, write_number};
use std::alloc::{Allocator, Global};

const LINE_END: u8 = b'\n';

const FIELD_END: u8 = b' ';

/// The result of reading a history.
#[derive(Drop)]
pub struct ReadHistory {
    pub history: History,
    /// The numbers of the invalid lines, counted from 1.
    pub wrong: Vec<u64>,
}

/// Reads a history. Invalid lines are skipped.
///
/// # Errors
///
/// `Memory` if an allocation failed.
pub fn read_history(alloc: Global, text: &[u8]) -> Result<ReadHistory, Memory> {
    let mut history = History::new(alloc)?;
    let mut wrong = Vec::new(alloc);
    for (at, line) in lines(alloc, text)?.iter().enumerate().rev() {
        match read_line(alloc, line)? {
            Some(seen) => history.learn(seen)?,
            None => wrong.push(at as u64 + 1)?,
        }
    }
    wrong.reverse();
    Ok(ReadHistory { history, wrong })
}

fn lines(alloc: Global, text: &[u8]) -> Result<Vec<&[u8]>, Memory> {
    if text.is_empty() {
        return Ok(Vec::new(alloc));
    }
    text.strip_suffix(&[LINE_END])
        .unwrap_or(text)
        .split(|byte| *byte == LINE_END)
        .collect(alloc)
}

// The entry of a line.
#[tactic(auto, unfolding(crate::specs::KnownText::seen_in))]
fn read_line(alloc: Global, line: &[u8]) -> Result<Option<Seen>, Memory>
    ensures { IfOk result (λ seen. seen ≡ seen_in line.now) }
{
    let fields = fields_of(alloc, line)?;
    Ok(read_fields(&fields))
}

fn fields_of(alloc: Global, line: &[u8]) -> Result<Vec<&[u8]>, Memory>
    ensures { IfOk result (λ fields. map (λ field. field.now) fields.items ≡ slice_split (λ b. b == 32) line.now) }
{
    line.split(|byte| *byte == FIELD_END).collect(alloc)
}

fn read_fields(fields: &[&[u8]]) -> Option<Seen>
    ensures { result ≡ seen_of_fields (map (λ field. field.now) fields.now) }
{
    match *fields {
        [ip, source, rtt, at] => seen_by(
            read_ip(ip),
            read_ip(source),
            read_number(rtt),
            read_number(at),
        ),
        _ => None,
    }
}

fn seen_by(ip: Option<Ip>, source: Option<Ip>, rtt: Option<u64>, at: Option<u64>) -> Option<Seen>
    ensures { result ≡ seen_by ip source rtt at }
{
    Some(Seen {
        ip: ip?,
        source: source?,
        rtt: rtt?,
        at: at?,
    })
}

/// Appends the text of the history.
///
/// # Errors
///
/// `Memory` if an allocation failed: a part of the text may have been appended.
pub fn write_history<A: Allocator + Copy>(
    history: &History,
    text: &mut Vec<u8, A>,
) -> Result<(), Memory> {
    for (_, seen) in history.seen.iter() {
        write_line(*seen, text)?;
        text.push(LINE_END)?;
    }
    Ok(())
}

fn write_line<A: Allocator + Copy>(seen: Seen, text: &mut Vec<u8, A>) -> Result<(), Memory>
    ensures { OnOk result (text.new.items ≡ text.old.items ++ line_of seen) }
{
    write_ip(seen.ip, text)?;
    text.push(FIELD_END)?;
    write_ip(seen.source, text)?;
    text.push(FIELD_END)?;
    write_number(seen.rtt, text)?;
    text.push(FIELD_END)?;
    write_number(seen.at, text)
}

/// The written line of an entry reads back as it. Runs nothing.
pub fn reads_back()
    ensures { ReadsBack }
{}
