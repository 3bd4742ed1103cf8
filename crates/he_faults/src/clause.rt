// The clause after the sentence of a fault: the likely meaning.

ghost use Rattle.std.specs.Prelude.{◌≡◌, ◌++◌, OnOk};
ghost use Rattle.std.specs.List.{slice_get};
ghost use Rattle.std.specs.Option.{option_copied};
ghost use Rattle.he_reading.specs.Parts.{lines_of};
ghost use Rattle.he_faults.specs.Clauses.{hint_in, is_of_words, line_at, line_meant, words_meant};
ghost use Rattle.he_faults.specs.Sentences.{meaning_of, meant_text};

use crate::meant::{Meant, input_meant, meant_of};
use crate::rest::RestOfInput;
use he_addr::Memory;
use he_words::{LINE_END, TOKEN_END, TextFault, TextKind};
use std::alloc::Allocator;

// A byte that no text has, but most other files.
const NUL: u8 = 0;

// Appends the clause.
pub(crate) fn append_clause<A: Allocator>(
    meant: Option<Meant>,
    text: &mut Vec<u8, A>,
) -> Result<(), Memory>
    ensures { OnOk result (text.new.items ≡ text.old.items ++ meant_text meant) }
{
    if let Some(meant) = meant {
        text.extend_from_slice(b"; ")?;
        text.extend_from_slice(meaning(meant))?;
    }
    Ok(())
}

// The likely meaning of a fault, by the first bytes of the input or by the words of the faulty line. The part has
// this line, and if this is the input's first line, the part is the whole input.
pub(crate) fn hint_in(part: RestOfInput<'_>, fault: TextFault) -> Option<Meant>
    ensures { result ≡ hint_in part.entry.lines part.entry.text.now fault }
{
    if fault.line == 1
        && let Some(meant) = input_meant(part.text)
    {
        return Some(meant);
    }
    if is_of_words(fault.kind) {
        line_meant(line_at(fault.line.saturating_sub(part.lines), part.text))
    } else {
        None
    }
}

// Whether a word that is in no text may cause this kind of fault.
fn is_of_words(kind: TextKind) -> bool
    ensures { result ≡ is_of_words kind }
{
    match kind {
        TextKind::Header
        | TextKind::Word
        | TextKind::Number
        | TextKind::Address
        | TextKind::Prefix => true,
        _ => false,
    }
}

// The likely meaning of the first word of the line that has one. The host of a record line has none, and so has what
// is no text.
#[tactic(auto, unfolding(crate::specs::Clauses::line_meant))]
fn line_meant(line: &[u8]) -> Option<Meant>
    ensures { result ≡ line_meant line.now }
{
    if line.starts_with(b"record ") || line.contains(&NUL) {
        return None;
    }
    words_meant(line)
}

fn words_meant(line: &[u8]) -> Option<Meant>
    ensures { result ≡ words_meant line.now }
{
    line.split(|byte| *byte == TOKEN_END)
        .filter_map(|word| meant_of(word))
        .nth(0)
}

// The line with this number, counted from 1; empty if there is none.
fn line_at(number: u64, input: &[u8]) -> &[u8]
    ensures { result.now ≡ line_at number input.now }
{
    nth_line(input, number.saturating_sub(1) as usize).unwrap_or(b"".as_slice())
}

fn nth_line(input: &[u8], at: usize) -> Option<&[u8]>
    ensures { option_copied result ≡ slice_get (lines_of input.now) at }
{
    input.split(|byte| *byte == LINE_END).nth(at)
}

// The text of the clause.
fn meaning(meant: Meant) -> &'static [u8]
    ensures { result.now ≡ meaning_of meant }
{
    match meant {
        Meant::Comment => b"a text has no comments: leave out `#` and what follows it",
        Meant::Tab => b"separate words with a space, not a tab",
        Meant::Capitals => b"words are written in small letters",
        Meant::Zone =>
            b"an address has no zone: leave out `%` and what follows it, as source and route lines have the interface's number",
        Meant::Brackets => b"write the address without brackets and without a port",
        Meant::Comma => b"separate addresses with a space, not a comma; a number has no comma",
        Meant::Name =>
            b"names are not looked up here: write the addresses, which `he names NAME` finds, or see `he connect`",
        Meant::DefaultRoute => b"`default` is written as the prefix 0.0.0.0/0 or ::/0",
        Meant::IpOutput => b"`ip` prints this: write the lines that `he host` prints",
        Meant::Device =>
            b"write the interface's number, not its name: `ip address` prints `2: eth0`",
        Meant::Unit => b"write `20`, not `20ms`: times are in milliseconds, without a unit",
        Meant::Sign => b"a number has no sign",
        Meant::Packed =>
            b"the input is compressed: unpack it first, as `gunzip`, `xz -d` and `zstd -d` do",
        Meant::Wide =>
            b"the input is UTF-16: make ASCII of it first, as `iconv -f UTF-16 -t ASCII` does",
        Meant::Capture =>
            b"the input is a packet capture: tools/from-capture makes a timeline of it",
        Meant::Json => b"the input is JSON, which `he` writes and does not read",
    }
}
