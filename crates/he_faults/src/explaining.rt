//! The explanation of a fault: the line, a mark below the wrong part, and a sentence with the form expected.
ghost use Rattle.std.specs.Prelude.{◌≡◌, ◌++◌, ℕ, List, IfOk, OnErr, OnOk};
ghost use Rattle.std.specs.Io.{StartsWith};
ghost use Rattle.he_faults.specs.Clauses.{EndsInClause, EndsInHint, hint_in};
ghost use Rattle.he_faults.specs.Sentences.{meant_text};

use crate::clause::{append_clause, hint_in};
use crate::finding::find_sentence;
use crate::meant::Meant;
use crate::place::find_line;
use crate::rest::RestOfInput;
use crate::sentence::Sentence;
use crate::showing::show_line;
use he_addr::Memory;
use he_words::TextFault;
use std::alloc::Allocator;

/// Appends the explanation of a fault of the text `input`: the line, indented by two spaces, a mark `^` below the
/// part that is wrong, and a sentence with the form expected, each with a line end. If a word of the line, or the
/// first bytes of the input, show the likely meaning (a comment, a host name, a compressed file), the sentence ends
/// in a clause with it. Of a long line the part around the mark is printed, with `..` for the rest. Tab, CR, `\` and
/// unprintable bytes are printed as `\t`, `\r`, `\\` and `\xNN`. An empty line is not printed. For a fault that is
/// not the first one of the text, the explanation may be wrong.
///
/// # Errors
///
/// `Memory` if an allocation failed; the vector is unchanged.
pub fn explain_fault<A: Allocator + Copy>(
    alloc: A,
    input: &[u8],
    fault: TextFault,
    explanation: &mut Vec<u8, A>,
) -> Result<(), Memory>
    ensures ok { OnOk result (StartsWith explanation.new.items explanation.old.items) }
    ensures clause { OnOk result (EndsInClause input.now fault explanation.old.items explanation.new.items) }
    ensures err { OnErr result (explanation.new.items ≡ explanation.old.items) }
{
    let part = RestOfInput {
        text: input,
        lines: 0,
    };
    let said = explanation_of(alloc, part, fault)?;
    explanation.extend_from_slice(said.as_slice())
}

/// The explanation of a fault of the rest of an input, as [`explain_fault`] appends it. The rest begins with a race or
/// its record lines, has the faulty line, and the lines before it are right; the fault's line counts from the input's
/// first line.
///
/// # Errors
///
/// `Memory` if an allocation failed.
pub fn explanation_of<A: Allocator + Copy>(
    alloc: A,
    part: RestOfInput<'_>,
    fault: TextFault,
) -> Result<Vec<u8, A>, Memory>
    ensures { IfOk result (λ text. EndsInHint part.entry.lines part.entry.text.now fault text.items) }
{
    let place = find_line(part, fault.line);
    let (mark, sentence) = find_sentence(place, fault.kind);
    let mut text = Vec::new(alloc);
    show_line(place.line, mark.span(place.line), &mut text)?;
    append_sentence(alloc, sentence, hint_in(part, fault), &mut text)?;
    text.push(b'\n')?;
    Ok(text)
}

/// The sentence of [`explanation_of`] alone, with the clause of the likely meaning.
///
/// # Errors
///
/// `Memory` if an allocation failed.
pub fn sentence_of<A: Allocator + Copy>(
    alloc: A,
    part: RestOfInput<'_>,
    fault: TextFault,
) -> Result<Vec<u8, A>, Memory>
    ensures { IfOk result (λ text. (said : List ℕ) × (text.items
        ≡ said ++ meant_text (hint_in part.entry.lines part.entry.text.now fault))) }
{
    let (_, sentence) = find_sentence(find_line(part, fault.line), fault.kind);
    let mut text = Vec::new(alloc);
    append_sentence(alloc, sentence, hint_in(part, fault), &mut text)?;
    Ok(text)
}

fn append_sentence<A: Allocator + Copy>(
    alloc: A,
    sentence: Sentence,
    meant: Option<Meant>,
    text: &mut Vec<u8, A>,
) -> Result<(), Memory>
    ensures { OnOk result ((said : List ℕ) × (text.new.items ≡ text.old.items ++ (said ++ meant_text meant))) }
{
    let sentence = format!(in alloc; "{sentence}")?;
    text.extend_from_slice(sentence.as_bytes())?;
    append_clause(meant, text)
}
