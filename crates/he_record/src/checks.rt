// The checks of a line against the lines before it.

ghost use Rattle.std.specs.Prelude.{◌≡◌, ◌<◌, [], ◌∷◌, map, nat_lt, count_by};
ghost use Rattle.he_words.specs.declared.fault.TextKind.TheVariants as kinds;
ghost use Rattle.he_reading.specs.Faults.{first_fault, test};
ghost use Rattle.he_record.specs.Faults.{last_group, lines_with, one_too_many, out_of_order, repeated};
ghost use Rattle.he_record.specs.Left.{said_of};
ghost use Rattle.he_record.specs.Said.{looks_up, tells_of};

use crate::line::RecordLine;
use crate::words::RecordWord;
use he_addr::{Family, Ip};
use he_words::TextKind;

// The group of the last line; 0 before the first line.
fn last_group(before: &[RecordLine<'_>]) -> u8
    ensures { result ≡ last_group 0 (map said_of before.now) }
{
    match before.last() {
        Some(line) => line.group(),
        None => 0,
    }
}

// The number of lines of a group.
fn lines_of_group(before: &[RecordLine<'_>], group: u8) -> usize
    ensures { result ≡ lines_with group (map said_of before.now) }
{
    before.iter().filter(|line| line.group() == group).count()
}

// The fault of one more line of the word.
fn one_too_many(before: &[RecordLine<'_>], word: RecordWord) -> Option<TextKind>
    ensures { result ≡ one_too_many (map said_of before.now) word }
{
    match word.most_lines() {
        Some((most, kind)) if most <= lines_of_group(before, word.group()) => Some(kind),
        _ => None,
    }
}

// The fault of a line's word, by its group and its count.
pub(crate) fn word_fault(before: &[RecordLine<'_>], word: RecordWord) -> Option<TextKind>
    ensures { result ≡ first_fault (out_of_order (map said_of before.now) word
        ∷ one_too_many (map said_of before.now) word ∷ []) }
{
    if word.group() < last_group(before) {
        return Some(TextKind::Word);
    }
    one_too_many(before, word)
}

fn repeated_if(is_again: bool) -> Option<TextKind>
    ensures { result ≡ test is_again kinds.Repeated }
{
    if is_again {
        Some(TextKind::Repeated)
    } else {
        None
    }
}

fn is_looked_up(before: &[RecordLine<'_>], family: Family) -> bool
    ensures { result ≡ nat_lt 0 (count_by (looks_up family) (map said_of before.now)) }
{
    before.iter().filter(|line| line.looks_up(family)).count() > 0
}

fn is_told(before: &[RecordLine<'_>], ip: Ip) -> bool
    ensures { result ≡ nat_lt 0 (count_by (tells_of ip) (map said_of before.now)) }
{
    before.iter().filter(|line| line.tells_of(ip)).count() > 0
}

// The fault of a second look-up of a family, or of a second line about an address.
pub(crate) fn repeats(before: &[RecordLine<'_>], line: &RecordLine<'_>) -> Option<TextKind>
    ensures { result ≡ repeated (map said_of before.now) (said_of line.now) }
{
    match line {
        RecordLine::Lookup(family, _) => repeated_if(is_looked_up(before, *family)),
        RecordLine::Attempt(ip, _) => repeated_if(is_told(before, *ip)),
        RecordLine::Untried(ip) => repeated_if(is_told(before, *ip)),
        _ => None,
    }
}
