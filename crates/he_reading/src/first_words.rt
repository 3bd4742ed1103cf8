// The words that begin lines.

ghost use Rattle.std.specs.Prelude.{◌≡◌, Ok, Err, IfSome, MatchResult};
ghost use Rattle.he_reading.specs.Faults.{begins_with, is_next};
ghost use Rattle.he_reading.specs.Forms.{is_added, names_floor, version_word, word_of};
ghost use Rattle.he_reading.specs.Left.{line_bytes, tokens_left};
ghost use Rattle.he_reading.specs.Parts.{lines_of, tokens_of};

use crate::lines::Lines;
use crate::parts::{TextLine, Tokens};
use he_words::{TextKind, Version, Word};

// The word of a line, and the tokens after it. All words but `end` have tokens after them, so they are compared
// together with the space that follows, which also finds the start of the other tokens. `end` is compared as a whole
// line.
#[inline(always)]
pub(crate) fn first_word(line: TextLine<'_>) -> Result<(Word, Tokens<'_>), TextKind>
    ensures { MatchResult result (λ x. word_of (tokens_of (line_bytes line.entry)) ≡ Ok (x.0, tokens_left x.1))
        (λ kind. word_of (tokens_of (line_bytes line.entry)) ≡ Err kind) }
{
    match likely_word(line) {
        Some(found) => Ok(found),
        None => any_word(line),
    }
}

// The word of a line that begins with a word and a space, or is `end`. Its first byte leaves at most two words to
// compare: eight comparisons in a row took some thirty instructions more.
#[inline(always)]
fn likely_word(line: TextLine<'_>) -> Option<(Word, Tokens<'_>)>
    ensures { IfSome result (λ x. word_of (tokens_of (line_bytes line.entry)) ≡ Ok (x.0, tokens_left x.1)) }
{
    let [first, ..] = line.bytes() else {
        return None;
    };
    match *first {
        b'c' => line.behind_word(Word::Connect, b"connect "),
        b'p' => match line.behind_word(Word::Pause, b"pause ") {
            Some(found) => Some(found),
            None => line.behind_word(Word::Policy, b"policy "),
        },
        b's' => match line.behind_word(Word::Source, b"source ") {
            Some(found) => Some(found),
            None => line.behind_word(Word::Set, b"set "),
        },
        b'r' => match line.behind_word(Word::Route, b"route ") {
            Some(found) => Some(found),
            None => line.behind_word(Word::Rtt, b"rtt "),
        },
        b'a' => match line.behind_word(Word::Aaaa, b"aaaa ") {
            Some(found) => Some(found),
            None => line.behind_word(Word::A, b"a "),
        },
        b'u' => line.behind_word(Word::Used, b"used "),
        b'e' => line.only_word(Word::End, b"end"),
        _ => None,
    }
}

// The word of a line, whatever comes after it.
#[tactic(auto, unfolding(crate::specs::Forms::word_of))]
fn any_word(line: TextLine<'_>) -> Result<(Word, Tokens<'_>), TextKind>
    ensures { MatchResult result (λ x. word_of (tokens_of (line_bytes line.entry)) ≡ Ok (x.0, tokens_left x.1))
        (λ kind. word_of (tokens_of (line_bytes line.entry)) ≡ Err kind) }
{
    let mut tokens = line.tokens();
    let Some(token) = tokens.next() else {
        return Err(TextKind::Word);
    };
    let Some(word) = Word::read(token) else {
        return Err(TextKind::Word);
    };
    Ok((word, tokens))
}

// The word of a line, if a text of the version has it.
#[inline(always)]
#[tactic(auto, unfolding(crate::specs::Forms::version_word))]
pub(crate) fn version_word(
    version: Version,
    line: TextLine<'_>,
) -> Result<(Word, Tokens<'_>), TextKind>
    ensures { MatchResult result
        (λ x. version_word version (tokens_of (line_bytes line.entry)) ≡ Ok (x.0, tokens_left x.1))
        (λ kind. version_word version (tokens_of (line_bytes line.entry)) ≡ Err kind) }
{
    let (word, tokens) = first_word(line)?;
    match version {
        Version::One if is_added(word, tokens) => Err(TextKind::Word),
        _ => Ok((word, tokens)),
    }
}

// Whether version 2 added the word, or the setting that these tokens name.
fn is_added(word: Word, tokens: Tokens) -> bool
    ensures { result ≡ is_added (word, tokens_left tokens.entry) }
{
    match word {
        Word::Rtt | Word::Used => true,
        Word::Set => names_floor(tokens),
        _ => false,
    }
}

fn names_floor(tokens: Tokens) -> bool
    ensures { result ≡ names_floor (tokens_left tokens.entry) }
{
    let mut left = tokens;
    match left.next() {
        Some(name) => name == b"floor".as_slice(),
        None => false,
    }
}

// Whether the next line is a whole one that begins with the word, correct or not. Its first bytes are compared first,
// so that the line after a group isn't searched for its end twice.
pub(crate) fn is_next(word: Word, rest: &[u8]) -> bool
    ensures { result ≡ is_next word (lines_of rest.now) }
{
    if !rest.starts_with(word.spelling().as_bytes()) {
        return false;
    }
    match Lines::new(rest).next_line() {
        Ok((line, _)) => begins_with(word, line),
        Err(_) => false,
    }
}

// Whether a line begins with the word.
fn begins_with(word: Word, line: TextLine) -> bool
    ensures { result ≡ begins_with word (word_of (tokens_of (line_bytes line.entry))) }
{
    match first_word(line) {
        Ok((found, _)) => found.is(word),
        Err(_) => false,
    }
}
