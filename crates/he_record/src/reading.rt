//! Reading the record with which a text begins.

ghost use Rattle.std.specs.Prelude.{◌≡◌, ◌⊎◌, ◌≤◌, None, Some, Ok, true, false, length, take, drop, map, IfErr, IfOk, MatchResult, OnErr};
ghost use Rattle.he_words.specs.declared.fault.TextKind.TheVariants as kinds;
ghost use Rattle.he_reading.specs.Parts.{lines_of};
ghost use Rattle.he_reading.specs.Text.{IsLineOf};
ghost use Rattle.he_record.specs.Faults.{content_fault};
ghost use Rattle.he_record.specs.Forms.{said_in};
ghost use Rattle.he_record.specs.FrontSearch.{FailsFront, IsWholeLine, PassesLine, ReadsFront, StopsOn};
ghost use Rattle.he_record.specs.Fronts.{IsRecordFault, goes_on};
ghost use Rattle.he_record.specs.Left.{ends_token, said_of};
ghost use Rattle.he_record.specs.Text.{IsRecordText};

use crate::checks::{repeats, word_fault};
use crate::forms::{line_by, record_word};
use crate::line::RecordLine;
use crate::records::Record;
use crate::words::FIRST_TOKEN;
use he_words::limits::MAX_LINE;
use he_words::{LINE_END, TOKEN_END, TextFault, TextKind};
use memchr::memchr;
use std::alloc::Allocator;

/// Whether the text begins with a record line: its first token is `record`.
pub fn goes_on(text: &[u8]) -> bool
    ensures { result ≡ goes_on (lines_of text.now) }
{
    text.starts_with(FIRST_TOKEN) && ends_token(&text[FIRST_TOKEN.len()..])
}

// Whether a token ends before these bytes.
fn ends_token(rest: &[u8]) -> bool
    ensures { result ≡ ends_token rest.now }
{
    match rest.first() {
        None => true,
        Some(byte) => *byte == TOKEN_END || *byte == LINE_END,
    }
}

// The first line of the text, if it is whole and not too long.
fn whole_line(text: &[u8]) -> Result<&[u8], TextKind>
    ensures { IsWholeLine text.now result }
{
    // A longer line is too long, wherever it ends.
    let near = text.len().min(MAX_LINE + 1);
    match memchr(LINE_END, &text[..near]) {
        Some(at) => Ok(&text[..at]),
        None if text.len() > MAX_LINE => Err(TextKind::TooMany),
        None => Err(TextKind::Unfinished),
    }
}

// Reads a record line after the lines before it, or returns the first check that fails on it.
#[tactic(auto, unfolding(crate::specs::Faults::content_fault, crate::specs::Forms::said_in))]
fn read_line<'t>(before: &[RecordLine<'_>], line: &'t [u8]) -> Result<RecordLine<'t>, TextKind>
    ensures { MatchResult result
        (λ x. (content_fault (map said_of before.now) line.now ≡ None) × (said_in line.now ≡ Ok (said_of x)))
        (λ kind. content_fault (map said_of before.now) line.now ≡ Some kind) }
{
    let (word, tokens) = match record_word(line) {
        Ok(found) => found,
        Err(kind) => return Err(kind),
    };
    if let Some(kind) = word_fault(before, word) {
        return Err(kind);
    }
    let found = match line_by(word, tokens) {
        Ok(found) => found,
        Err(kind) => return Err(kind),
    };
    match repeats(before, &found) {
        Some(kind) => Err(kind),
        None => Ok(found),
    }
}

// Reads the first line of the text and adds it to the record. Returns its length in bytes, with its line end.
fn take_line<'t, A: Allocator>(text: &'t [u8], told: &mut Record<'t, A>) -> Result<usize, TextKind>
    requires { goes_on (lines_of text.now) ≡ true }
    ensures read { MatchResult result (PassesLine text.now told.old told.new)
        (λ kind. (kind ≡ kinds.Memory) ⊎ StopsOn text.now told.old kind) }
    ensures same { OnErr result (told.new ≡ told.old) }
{
    let line = match whole_line(text) {
        Ok(line) => line,
        Err(kind) => return Err(kind),
    };
    let found = match read_line(told.lines(), line) {
        Ok(found) => found,
        Err(kind) => return Err(kind),
    };
    found.has_types();
    match told.push(found) {
        Ok(()) => Ok(line.len() + 1),
        Err(kind) => Err(kind),
    }
}

/// Reads the record with which the text begins, maybe one without lines, and returns it and its length in bytes. The
/// fault is the first check that fails on the first faulty record line, counted from 1 (`specs/Faults`); or `Memory`
/// if an allocation failed, at a line before which nothing is wrong.
pub fn read_record<'t, A: Allocator>(
    alloc: A,
    text: &'t [u8],
) -> Result<(Record<'t, A>, usize), TextFault>
    // These bytes are a text of this record, and no record line follows them.
    ensures found { IfOk result (λ x. IsRecordText (take x.1 text.now) x.0) }
    ensures over { IfOk result (λ x. goes_on (lines_of (drop x.1 text.now)) ≡ false) }
    ensures within { IfOk result (λ x. x.1 ≤ length text.now) }

    // The fault is the first one of the text's record, or `Memory`.
    ensures fault { IfErr result
        (λ fault. (fault.kind ≡ kinds.Memory) ⊎ IsRecordFault text.now fault.line fault.kind) }
    ensures line { IfErr result (λ fault. IsLineOf text.now fault.line) }

    // The search has this result too.
    ensures read { MatchResult result (λ x. ReadsFront text.now x.0 x.1)
        (λ fault. FailsFront text.now fault.line fault.kind) }
{
    let mut told = Record::none(alloc);
    let mut end = 0;
    while goes_on(&text[end..]) {
        match take_line(&text[end..], &mut told) {
            Ok(len) => end += len,
            Err(kind) => {
                let line = told.lines().len() as u64 + 1;
                return Err(TextFault { line, kind });
            }
        }
    }
    Ok((told, end))
}
