// The faults of single tokens.

use crate::place::{Place, first_word, token, token_count};
use crate::sentence::{Numbers, Sentence};
use he_addr::{Family, Ip, read_ip, read_ip_of, read_number, read_prefix, read_source};
use he_timeline::limits::{MAX_DURATION, MAX_PAUSE_END, MAX_TICK, MIN_DURATION};
use he_words::limits::{MAX_INTERFACE, MAX_LABEL, MAX_PRECEDENCE, MIN_INTERFACE, MIN_PAUSE_END};
use he_words::{LINE_END, Name, TOKEN_END, Word};

const MILLISECONDS: &str = " milliseconds";

// The sentence for an answer whose addresses begin at the place of its tick.
pub(crate) const NO_TICK: &str =
    "the tick is missing: an answer is `a TICK ADDRESS ..` or `aaaa TICK ADDRESS ..`";

const PRECEDENCE: Numbers = Numbers {
    what: "the precedence of a row",
    least: 0,
    most: MAX_PRECEDENCE,
    unit: "",
};

const LABEL: Numbers = Numbers {
    what: "the label of a row",
    least: 0,
    most: MAX_LABEL,
    unit: "",
};

const INTERFACE: Numbers = Numbers {
    what: "the number of an interface",
    least: MIN_INTERFACE,
    most: MAX_INTERFACE,
    unit: "",
};

const TICK: Numbers = Numbers {
    what: "the tick of an answer",
    least: 0,
    most: MAX_TICK,
    unit: MILLISECONDS,
};

const DURATION: Numbers = Numbers {
    what: "the time that an attempt takes",
    least: MIN_DURATION,
    most: MAX_DURATION,
    unit: MILLISECONDS,
};

const ROUND_TRIP_TIME: Numbers = Numbers {
    what: "a round trip time",
    least: MIN_DURATION,
    most: MAX_DURATION,
    unit: MILLISECONDS,
};

const PAUSE_FROM: Numbers = Numbers {
    what: "the first tick of a pause",
    least: 0,
    most: MAX_TICK,
    unit: MILLISECONDS,
};

const PAUSE_TO: Numbers = Numbers {
    what: "the tick at which a pause ends",
    least: MIN_PAUSE_END,
    most: MAX_PAUSE_END,
    unit: MILLISECONDS,
};

// The place of the first token from the left that is wrong by itself, and its sentence.
pub(crate) fn find_flaw(place: Place<'_>, word: Word) -> Option<(usize, Sentence)> {
    for (at, text) in place.line.split(|byte| *byte == TOKEN_END).enumerate() {
        if let Some(sentence) = token_flaw(place, word, at, text) {
            return Some((at, sentence));
        }
    }
    None
}

// The sentence for the token at a place of the line, counted from 0; None if it is right.
fn token_flaw(place: Place<'_>, word: Word, at: usize, text: &[u8]) -> Option<Sentence> {
    match (word, at) {
        (_, 0) | (Word::End, _) => None,
        (Word::Set, 1) => name_flaw(place, text),
        (Word::Set, _) => number_flaw(setting_of(place.line)?, text),
        (Word::Policy | Word::Route, 1) => prefix_flaw(text),
        (Word::Policy, 2) => number_flaw(PRECEDENCE, text),
        (Word::Policy, _) => number_flaw(LABEL, text),
        (Word::Source, 1) => source_flaw(text),
        (Word::Source | Word::Route, 2) => number_flaw(INTERFACE, text),
        (Word::Source, _) => source_mark_flaw(place.line, at, text),
        (Word::Route, _) => route_mark_flaw(text),
        (Word::Aaaa | Word::A, 1) if is_answered(text) => Some(Sentence::Plain(NO_TICK)),
        (Word::Aaaa | Word::A, 1) => number_flaw(TICK, text),
        (Word::Aaaa, _) => address_flaw(Family::V6, place.line, text),
        (Word::A, _) => address_flaw(Family::V4, place.line, text),
        (Word::Rtt | Word::Used | Word::Connect, 1) => known_flaw(place, text),
        (Word::Rtt | Word::Used, _) => number_flaw(ROUND_TRIP_TIME, text),
        (Word::Connect, 2) => outcome_flaw(text),
        (Word::Connect, _) => number_flaw(DURATION, text),
        (Word::Pause, 1) => number_flaw(PAUSE_FROM, text),
        (Word::Pause, _) => number_flaw(PAUSE_TO, text),
    }
}

// The range of the number of a line `set NAME NUMBER`, by its name.
fn setting_of(line: &[u8]) -> Option<Numbers> {
    let name = Name::read(token(line, 1))?;
    let (what, unit) = match name {
        Name::Resolution => ("the resolution delay", MILLISECONDS),
        Name::Attempt => ("the attempt delay", MILLISECONDS),
        Name::Count => ("the count of the leading family", " addresses"),
        Name::Limit => ("the limit of a race", MILLISECONDS),
        Name::Floor => ("the floor after failures", MILLISECONDS),
    };
    Some(Numbers {
        what,
        least: name.least(),
        most: name.most(),
        unit,
    })
}

fn name_flaw(place: Place<'_>, text: &[u8]) -> Option<Sentence> {
    match Name::read(text) {
        Some(Name::Floor) if !place.is_newer() => Some(Sentence::Newer("floor")),
        Some(_) => None,
        None if text == b"timeout".as_slice() => Some(Sentence::Plain(
            "no such setting: the time after which a race is given up is `limit`",
        )),
        None if place.is_newer() => Some(Sentence::Plain(
            "no such setting: known are resolution, attempt, count, limit and floor",
        )),
        None => Some(Sentence::Plain(
            "no such setting: known are resolution, attempt, count and limit",
        )),
    }
}

pub(crate) fn number_flaw(numbers: Numbers, text: &[u8]) -> Option<Sentence> {
    match read_number(text) {
        None if has_fraction(text) => Some(Sentence::Fraction(numbers)),
        None => Some(Sentence::NoNumber(numbers)),
        Some(number) if number < numbers.least || numbers.most < number => {
            Some(Sentence::OutOfRange(numbers))
        }
        Some(_) => None,
    }
}

// Whether the text is a number with a fraction, as 12.5.
fn has_fraction(text: &[u8]) -> bool {
    let mut points = 0usize;
    for byte in text {
        match *byte {
            b'.' => points = points.saturating_add(1),
            b'0'..=b'9' => {}
            _ => return false,
        }
    }
    points == 1
}

// Whether the text may follow the tick of an answer: an address, or `none`.
pub(crate) fn is_answered(text: &[u8]) -> bool {
    text == b"none".as_slice() || read_ip(text).is_some()
}

pub(crate) fn prefix_flaw(text: &[u8]) -> Option<Sentence> {
    if read_prefix(text).is_some() {
        return None;
    }
    match read_source(text) {
        Some(_) => Some(Sentence::Plain("a prefix has no bit set past its length")),
        None => Some(Sentence::Plain(
            "a prefix is ADDRESS/LENGTH, the length at most 32 for IPv4 and 128 for IPv6",
        )),
    }
}

fn source_flaw(text: &[u8]) -> Option<Sentence> {
    match read_source(text) {
        None => Some(Sentence::Plain(
            "a source is ADDRESS/LENGTH, the length at most 32 for IPv4 and 128 for IPv6",
        )),
        Some((ip, _)) if ip.is_usable() => None,
        Some(_) => Some(Sentence::Plain(
            "a source address must not be unspecified, multicast or IPv4-mapped (::ffff:0:0/96)",
        )),
    }
}

// A source is marked `deprecated`, `temporary`, or both in this order.
fn source_mark_flaw(line: &[u8], at: usize, text: &[u8]) -> Option<Sentence> {
    let is_deprecated = at == 3 && text == b"deprecated".as_slice();
    let may_be_temporary = at == 4 || token_count(line) == 4;
    let is_temporary = may_be_temporary && text == b"temporary".as_slice();
    if is_deprecated || is_temporary {
        return None;
    }
    Some(Sentence::Plain("a source may be marked `deprecated`, `temporary`, or both in this order"))
}

fn route_mark_flaw(text: &[u8]) -> Option<Sentence> {
    if text == b"tunnel".as_slice() {
        return None;
    }
    Some(Sentence::Plain("a route may be marked `tunnel`"))
}

// An address of an answer, or `none` in place of all of them.
fn address_flaw(family: Family, line: &[u8], text: &[u8]) -> Option<Sentence> {
    let is_none = text == b"none".as_slice();
    if is_none && token_count(line) == 3 || read_ip_of(family, text).is_some() {
        return None;
    }
    if is_none {
        return Some(Sentence::Plain("`none` is written without addresses"));
    }
    Some(Sentence::Plain(match (family, read_ip(text)) {
        (Family::V6, Some(_)) => "IPv4 addresses belong on the `a` line",
        (Family::V4, Some(_)) => "IPv6 addresses belong on the `aaaa` line",
        (Family::V6, None) => "this is no IPv6 address",
        (Family::V4, None) => "this is no IPv4 address",
    }))
}

// The address of a line `rtt`, `used` or `connect`: it must be in an answer above.
fn known_flaw(place: Place<'_>, text: &[u8]) -> Option<Sentence> {
    let Some(ip) = read_ip(text) else {
        return Some(Sentence::Plain("this is no address"));
    };
    for line in place.before.split(|byte| *byte == LINE_END) {
        if has_answered(line, ip) {
            return None;
        }
    }
    Some(Sentence::Plain("this is no address of the aaaa and a lines above"))
}

// Whether the line is an answer with this address.
fn has_answered(line: &[u8], ip: Ip) -> bool {
    match first_word(line) {
        Some(Word::Aaaa | Word::A) => {}
        _ => return false,
    }
    for text in line.split(|byte| *byte == TOKEN_END) {
        if read_ip(text) == Some(ip) {
            return true;
        }
    }
    false
}

fn outcome_flaw(text: &[u8]) -> Option<Sentence> {
    if text == b"ok".as_slice() || text == b"fail".as_slice() {
        return None;
    }
    Some(Sentence::Plain(
        "a connection ends by `ok` or `fail`: a refusal is `fail`, and a silent address has no line",
    ))
}
