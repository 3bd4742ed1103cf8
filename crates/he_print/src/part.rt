// Parts of texts.

ghost use Rattle.std.specs.Prelude.{◌≡◌, ◌++◌, ◌+◌, decimal, OnOk};
ghost use Rattle.std.specs.List.{flat_map, repeat};
ghost use Rattle.he_print.specs.Parts.{aligned, fact_of, text_of};

use he_addr::{Ip, Memory, write_ip, write_number};
use itoa::Buffer;
use std::alloc::Allocator;

/// A part of a text. `S` is the meaning of words: how a race ended, why an attempt started, and so on.
#[derive(Clone, Copy, Debug)]
pub enum Part<S: Copy> {
    /// Words without meaning as a fact.
    Words(&'static [u8]),

    /// Words with this meaning.
    Says(S, &'static [u8]),

    Number(u64),

    /// A number, aligned right to this width with spaces.
    Aligned(usize, u64),

    /// A place, counted from 0 and written counted from 1.
    Place(usize),

    Ip(Ip),

    /// A byte of a name.
    Byte(u8),

    /// The words repeated this many times: a bar of a chart, or spaces.
    Repeated(usize, &'static [u8]),
}

/// A fact that a text states.
#[derive(Clone, Copy, Debug, PartialEq, Eq)]
pub enum Fact<S: Copy> {
    Said(S),
    Number(u64),
    Place(usize),
    Ip(Ip),
    Byte(u8),
    Times(usize),
}

/// Appends parts to a text, and so their facts to its facts.
pub fn push_parts<S: Copy, A: Allocator>(
    parts: &[Part<S>],
    text: &mut Vec<Part<S>, A>,
) -> Result<(), Memory>
    ensures parts { OnOk result (text.new.items ≡ text.old.items ++ parts.now) }
    ensures facts { OnOk result (flat_map fact_of text.new.items ≡ flat_map fact_of text.old.items
        ++ flat_map fact_of parts.now) }
{
    text.extend_from_slice(parts)?;
    Ok(())
}

/// Appends the text of the parts. On `Memory` the beginning of it may have been appended.
pub fn write_parts<S: Copy, A: Allocator + Copy>(
    parts: &[Part<S>],
    text: &mut Vec<u8, A>,
) -> Result<(), Memory>
    ensures { OnOk result (text.new.items ≡ text.old.items ++ flat_map text_of parts.now) }
{
    for part in parts {
        write_part(part, text)?;
    }
    Ok(())
}

fn write_part<S: Copy, A: Allocator + Copy>(
    part: &Part<S>,
    text: &mut Vec<u8, A>,
) -> Result<(), Memory>
    ensures { OnOk result (text.new.items ≡ text.old.items ++ text_of part.now) }
{
    match part {
        Part::Words(words) | Part::Says(_, words) => write_words(words, text),
        Part::Number(number) => write_number(*number, text),
        Part::Aligned(width, number) => write_aligned(*width, *number, text),
        Part::Place(place) => write_place(*place, text),
        Part::Ip(ip) => write_ip(*ip, text),
        Part::Byte(byte) => write_words(&[*byte], text),
        Part::Repeated(count, words) => write_repeated(*count, words, text),
    }
}

fn write_words<A: Allocator + Copy>(words: &[u8], text: &mut Vec<u8, A>) -> Result<(), Memory>
    ensures { OnOk result (text.new.items ≡ text.old.items ++ words.now) }
{
    text.extend_from_slice(words)?;
    Ok(())
}

fn write_place<A: Allocator + Copy>(place: usize, text: &mut Vec<u8, A>) -> Result<(), Memory>
    ensures { OnOk result (text.new.items ≡ text.old.items ++ decimal (place + 1)) }
{
    let mut digits = Buffer::new();
    write_words(digits.format(place as u128 + 1).as_bytes(), text)
}

fn write_aligned<A: Allocator + Copy>(
    width: usize,
    number: u64,
    text: &mut Vec<u8, A>,
) -> Result<(), Memory>
    ensures { OnOk result (text.new.items ≡ text.old.items ++ aligned width number) }
{
    let mut buffer = Buffer::new();
    let digits = buffer.format(number).as_bytes();
    write_repeated(width.saturating_sub(digits.len()), b" ", text)?;
    write_words(digits, text)
}

fn write_repeated<A: Allocator + Copy>(
    count: usize,
    words: &[u8],
    text: &mut Vec<u8, A>,
) -> Result<(), Memory>
    ensures { OnOk result (text.new.items ≡ text.old.items ++ repeat count words.now) }
{
    for _ in 0..count {
        write_words(words, text)?;
    }
    Ok(())
}
