// The cause of the first fault of a text: its line is checked again, with the checks of the fault's kind in the order
// of reading.

use crate::flaws::{NO_TICK, find_flaw, is_answered};
use crate::forms::{form, least_tokens, most_tokens};
use crate::place::{Place, WrongPart, first_word, token, token_count};
use crate::record_lines::{is_before_race, is_record, record_sentence};
use crate::repeats::find_repeat;
use crate::sentence::{HighFloor, Sentence, SharedPrecedence};
use he_addr::read_number;
use he_select::PolicyFault;
use he_timeline::limits::{DEFAULT_ATTEMPT, MAX_ADDRESSES};
use he_words::limits::{MAX_LINE, MOST_RACES};
use he_words::{LINE_END, Name, TOKEN_END, TextKind, Word};
use memchr::memchr;

// The tokens of an answer before its addresses: the word and the tick.
const ANSWER_HEAD: usize = 2;

const NO_HEADER: &str = "a race begins with the line `race 1` or `race 2`";

const OTHER_VERSION: &str =
    "a race begins with the line `race 1` or `race 2`: the number is the version of the format, not that of the race";

const TOO_MANY_RACES: &str = "races: name several files, or split the text after an `end`";

type Found = (WrongPart, Sentence);

// The sentence for the line, by the kind of its fault. If no check finds the cause, it is the general sentence of
// this kind.
pub(crate) fn find_sentence(place: Place<'_>, kind: TextKind) -> Found {
    let found = kind_sentence(place, kind);
    let (mark, sentence) = found.unwrap_or((
        WrongPart::Line,
        Sentence::Plain(general_sentence(kind)),
    ));
    spacing_sentence(place.line, kind, mark).unwrap_or((mark, sentence))
}

fn kind_sentence(place: Place<'_>, kind: TextKind) -> Option<Found> {
    if is_record(place.line) && place.line.len() <= MAX_LINE && is_before_race(place) {
        return record_sentence(place, kind).or(race_sentence(place, kind));
    }
    race_sentence(place, kind)
}

fn race_sentence(place: Place<'_>, kind: TextKind) -> Option<Found> {
    match kind {
        TextKind::Header => header_sentence(place.line),
        TextKind::Word => word_sentence(place),
        TextKind::Number | TextKind::Address | TextKind::Prefix => flaw_sentence(place),
        TextKind::Range => flaw_sentence(place).or(later_range_sentence(place)),
        TextKind::Repeated => repeat_sentence(place),
        TextKind::TooMany => many_sentence(place),
        TextKind::Unfinished => unfinished_sentence(place),
        TextKind::Policy(fault) => policy_sentence(place, fault),
        TextKind::Memory => None,
    }
}

fn general_sentence(kind: TextKind) -> &'static str {
    match kind {
        TextKind::Header => NO_HEADER,
        TextKind::Word => "unknown keyword, or the wrong number of words",
        TextKind::Number => "a number is one to ten digits without leading zeros",
        TextKind::Address => "not a valid address, or not allowed here",
        TextKind::Prefix => "not a valid prefix or source",
        TextKind::Repeated => "something is given twice that may be given once",
        TextKind::Range => "a number is out of its range",
        TextKind::TooMany => "there is more of something than there may be",
        TextKind::Unfinished => "the text ends inside a race",
        TextKind::Policy(_) => "the rows up to this one are no policy table",
        TextKind::Memory => "memory was refused while this line was read",
    }
}

// The sentence for a line end, a space or an empty line that makes the part wrong.
fn spacing_sentence(line: &[u8], kind: TextKind, mark: WrongPart) -> Option<Found> {
    match kind {
        TextKind::Header
        | TextKind::Word
        | TextKind::Number
        | TextKind::Address
        | TextKind::Prefix => {}
        _ => return None,
    }
    if line.is_empty() {
        return Some((mark, Sentence::Plain("empty lines are not allowed")));
    }
    let part = mark.span(line);
    if part.end == line.len()
        && let Some((b'\r', before)) = line.split_last()
    {
        return Some((
            WrongPart::From(before.len()),
            Sentence::Plain("the line ends in CR LF; lines end in LF"),
        ));
    }
    match mark {
        WrongPart::Token(_) if part.start == part.end => Some((
            mark,
            Sentence::Plain("separate words with one space; no space begins or ends a line"),
        )),
        _ => None,
    }
}

// The place of the first empty token.
fn empty_token(line: &[u8]) -> Option<usize> {
    line.split(|byte| *byte == TOKEN_END)
        .position(|text| text.is_empty())
}

fn header_sentence(line: &[u8]) -> Option<Found> {
    let sentence = if line.starts_with(b"\xef\xbb\xbf".as_slice()) {
        "a text begins with its first line, without a byte order mark"
    } else {
        match line.strip_prefix(b"race ".as_slice()) {
            Some(number) if number.iter().all(|byte| byte.is_ascii_digit()) => OTHER_VERSION,
            _ => NO_HEADER,
        }
    };
    Some((WrongPart::Line, Sentence::Plain(sentence)))
}

fn word_sentence(place: Place<'_>) -> Option<Found> {
    let Some(word) = first_word(place.line) else {
        return Some((WrongPart::Token(0), Sentence::Plain(no_word(place))));
    };
    if matches!(word, Word::Rtt | Word::Used) && !place.is_newer() {
        return Some((WrongPart::Token(0), Sentence::Newer(word.spelling())));
    }
    if let Some(last) = last_word(place)
        && word.group() < last.group()
    {
        return Some((
            WrongPart::Token(0),
            Sentence::Order(word.spelling(), last.spelling()),
        ));
    }
    meant_sentence(place.line, word)
        .or(form_sentence(place.line, word))
        .or(flaw_sentence(place))
}

// The sentence for a setting in one word, or an answer without its tick.
fn meant_sentence(line: &[u8], word: Word) -> Option<Found> {
    let text = token(line, 1);
    match word {
        Word::Set => Some((WrongPart::Token(1), joined_setting(text)?)),
        Word::Aaaa | Word::A if token_count(line) == 2 && is_answered(text) => Some((
            WrongPart::Token(1),
            Sentence::Plain(NO_TICK),
        )),
        _ => None,
    }
}

// The sentence for a setting in the form of a command line, `attempt=100`.
fn joined_setting(text: &[u8]) -> Option<Sentence> {
    let at = memchr(b'=', text)?;
    let name = Name::read(&text[..at])?;
    let number = read_number(&text[at + 1..])?;
    Some(Sentence::Joined(spelling(name), number))
}

fn spelling(name: Name) -> &'static str {
    match name {
        Name::Resolution => "resolution",
        Name::Attempt => "attempt",
        Name::Count => "count",
        Name::Limit => "limit",
        Name::Floor => "floor",
    }
}

fn no_word(place: Place<'_>) -> &'static str {
    if token(place.line, 0) == b"race".as_slice() || is_record(place.line) {
        "the race above has no line `end`"
    } else if place.is_newer() {
        "no such word: lines begin with set, policy, source, route, aaaa, a, rtt, used, connect, pause or end"
    } else {
        "no such word: lines begin with set, policy, source, route, aaaa, a, connect, pause or end"
    }
}

// The word of the last line before this one that begins with a word, if there is one in the race.
fn last_word(place: Place<'_>) -> Option<Word> {
    let mut last = None;
    for line in place.before.split(|byte| *byte == LINE_END) {
        last = first_word(line).or(last);
    }
    last
}

// The sentence for too few or too many tokens, or for an empty token, if there is one.
fn form_sentence(line: &[u8], word: Word) -> Option<Found> {
    let count = token_count(line);
    let is_short = count < least_tokens(word);
    let most = most_tokens(word).unwrap_or(count);
    if !is_short && count <= most {
        return None;
    }
    let mark = match empty_token(line) {
        Some(at) => WrongPart::Token(at),
        None if is_short => WrongPart::From(line.len()),
        None => WrongPart::Token(most),
    };
    Some((mark, Sentence::Plain(form(word))))
}

fn flaw_sentence(place: Place<'_>) -> Option<Found> {
    let (at, sentence) = find_flaw(place, first_word(place.line)?)?;
    Some((WrongPart::Token(at), sentence))
}

// The sentence for numbers that are in their ranges, but not in order.
fn later_range_sentence(place: Place<'_>) -> Option<Found> {
    match first_word(place.line)? {
        Word::Set => floor_sentence(place),
        Word::Pause => pause_sentence(place),
        _ => None,
    }
}

// The sentence for a floor above the attempt delay, if the line is the last setting of its race.
fn floor_sentence(place: Place<'_>) -> Option<Found> {
    let (floor, line) = setting(place, Name::Floor)?;
    let attempt = match setting(place, Name::Attempt) {
        Some((attempt, _)) => attempt,
        None => DEFAULT_ATTEMPT,
    };
    let mark = match Name::read(token(place.line, 1)) {
        Some(Name::Floor | Name::Attempt) => WrongPart::Token(2),
        _ => WrongPart::Line,
    };
    let high = HighFloor {
        floor,
        line,
        attempt,
    };
    Some((mark, Sentence::HighFloor(high)))
}

// The value that the race's lines up to this one give the setting, and the number of the line with it.
fn setting(place: Place<'_>, name: Name) -> Option<(u64, u64)> {
    for (at, earlier) in place.before.split(|byte| *byte == LINE_END).enumerate() {
        // the last, empty part is this line itself
        let line = if earlier.is_empty() {
            place.line
        } else {
            earlier
        };
        if first_word(line) == Some(Word::Set) && Name::read(token(line, 1)) == Some(name) {
            return Some((read_number(token(line, 2))?, place.number(at)));
        }
    }
    None
}

// The sentence for a pause that does not end after its start, or begins before the end of the pause above.
fn pause_sentence(place: Place<'_>) -> Option<Found> {
    let from = read_number(token(place.line, 1))?;
    let last = last_pause_end(place);
    if from < last {
        return Some((WrongPart::Token(1), Sentence::PauseAbove(last)));
    }
    Some((
        WrongPart::Token(2),
        Sentence::Plain("a pause ends after it begins"),
    ))
}

// The end of the last pause above; 0 if there is none.
fn last_pause_end(place: Place<'_>) -> u64 {
    let mut last = 0;
    for line in place.before.split(|byte| *byte == LINE_END) {
        if first_word(line) == Some(Word::Pause) {
            last = read_number(token(line, 2)).unwrap_or(last);
        }
    }
    last
}

fn repeat_sentence(place: Place<'_>) -> Option<Found> {
    let (at, sentence) = find_repeat(place, first_word(place.line)?)?;
    Some((WrongPart::Token(at), sentence))
}

fn many_sentence(place: Place<'_>) -> Option<Found> {
    if place.line.len() > MAX_LINE {
        return Some((
            WrongPart::From(MAX_LINE),
            Sentence::Most("a line has at most", MAX_LINE as u64, "bytes"),
        ));
    }
    if place.before.is_empty() {
        return Some((
            WrongPart::Line,
            Sentence::Most("a text has at most", MOST_RACES as u64, TOO_MANY_RACES),
        ));
    }
    let word = first_word(place.line)?;
    match word.most_lines() {
        Some((most, TextKind::TooMany)) => Some((
            WrongPart::Token(0),
            Sentence::MostLines(most as u64, word.spelling()),
        )),
        _ => Some((
            WrongPart::Token(ANSWER_HEAD + MAX_ADDRESSES),
            Sentence::Most("an answer has at most", MAX_ADDRESSES as u64, "addresses"),
        )),
    }
}

fn unfinished_sentence(place: Place<'_>) -> Option<Found> {
    let sentence = if !place.line.is_empty() {
        "the text ends inside this line; each line ends with a line feed"
    } else if is_before_race(place) {
        "the text ends after record lines; their race follows them"
    } else {
        "the text ends inside a race; a race ends with the line `end`"
    };
    Some((WrongPart::From(place.line.len()), Sentence::Plain(sentence)))
}

fn policy_sentence(place: Place<'_>, fault: PolicyFault) -> Option<Found> {
    match fault {
        PolicyFault::NoDefault => Some((
            WrongPart::Token(0),
            Sentence::Plain(
                "the rows up to this one are the whole policy table, and none of them is ::/0",
            ),
        )),
        PolicyFault::NoMapped => Some((
            WrongPart::Token(0),
            Sentence::Plain(
                "the rows up to this one are the whole policy table, and none of them is ::ffff:0:0/96",
            ),
        )),
        PolicyFault::SharedPrecedence(row, later) => shared_sentence(place, row, later),
        _ => None,
    }
}

// The sentence for two rows of the table with one precedence, by their places in it.
fn shared_sentence(place: Place<'_>, row: usize, later: usize) -> Option<Found> {
    let head = lines_before_table(place);
    let row_line = place.number(head).saturating_add(row as u64);
    let later_line = place.number(head).saturating_add(later as u64);
    let precedence = precedence_of(place, head.saturating_add(row))?;
    Some((
        WrongPart::Token(0),
        Sentence::Shared(SharedPrecedence {
            row,
            later,
            row_line,
            later_line,
            precedence,
        }),
    ))
}

// The number of lines of the race before the first row of its policy table.
fn lines_before_table(place: Place<'_>) -> usize {
    place
        .before
        .split(|byte| *byte == LINE_END)
        .take_while(|line| first_word(line) != Some(Word::Policy))
        .count()
}

// The precedence on the line `at` lines after the race's first one.
fn precedence_of(place: Place<'_>, at: usize) -> Option<u64> {
    let line = place.before.split(|byte| *byte == LINE_END).nth(at)?;
    read_number(token(line, 2))
}
