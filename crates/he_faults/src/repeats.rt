// Repeated entries.

use crate::place::{Place, first_word, token, token_count};
use crate::sentence::Sentence;
use he_addr::{read_ip, read_prefix, read_source};
use he_words::{LINE_END, Word};

// The place of the repeated token, counted from 0, and its sentence.
pub(crate) fn find_repeat(place: Place<'_>, word: Word) -> Option<(usize, Sentence)> {
    match word {
        Word::Aaaa | Word::A => find_answer(place, word),
        _ => {
            let line = find_earlier(place, word)?;
            Some((1, Sentence::Above(given_above(word), line)))
        }
    }
}

fn given_above(word: Word) -> &'static str {
    match word {
        Word::Set => "the race has this setting above",
        Word::Policy => "the table has a row of this prefix above",
        Word::Source => "a source with this address is above",
        Word::Route => "a route with this prefix is above",
        Word::Rtt => "this address has an `rtt` line above",
        Word::Used => "this address has a `used` line above",
        _ => "this address has a `connect` line above",
    }
}

// The number of the earlier line of the word with an equal first token after it.
fn find_earlier(place: Place<'_>, word: Word) -> Option<u64> {
    for (at, line) in place.before.split(|byte| *byte == LINE_END).enumerate() {
        if first_word(line) == Some(word) && is_same(word, token(line, 1), token(place.line, 1)) {
            return Some(place.number(at));
        }
    }
    None
}

// Whether the first tokens after the word are equal, by value if they are addresses or prefixes.
fn is_same(word: Word, one: &[u8], other: &[u8]) -> bool {
    match word {
        Word::Policy | Word::Route => read_prefix(one) == read_prefix(other),
        Word::Source => match (read_source(one), read_source(other)) {
            (Some((ip, _)), Some((other_ip, _))) => ip == other_ip,
            _ => false,
        },
        Word::Rtt | Word::Used | Word::Connect => read_ip(one) == read_ip(other),
        _ => one == other,
    }
}

// The sentence for a second answer of the family, or an address that is twice in an answer.
fn find_answer(place: Place<'_>, word: Word) -> Option<(usize, Sentence)> {
    for (at, line) in place.before.split(|byte| *byte == LINE_END).enumerate() {
        if first_word(line) == Some(word) {
            let said = match word {
                Word::Aaaa => "the race has an aaaa line above",
                _ => "the race has an a line above",
            };
            return Some((0, Sentence::Above(said, place.number(at))));
        }
    }
    let at = find_twin(place.line)?;
    Some((at, Sentence::Plain("this address is in the answer already")))
}

// The place of the first address of an answer that is earlier in the answer too.
fn find_twin(line: &[u8]) -> Option<usize> {
    for at in 2..token_count(line) {
        if has_before(line, at) {
            return Some(at);
        }
    }
    None
}

// Whether the address at this place is at an earlier one too.
fn has_before(line: &[u8], at: usize) -> bool {
    let ip = read_ip(token(line, at));
    for earlier in 2..at {
        if read_ip(token(line, earlier)) == ip {
            return true;
        }
    }
    false
}
