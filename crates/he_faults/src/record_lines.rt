// The sentences for record lines.

use crate::flaws::{number_flaw, prefix_flaw};
use crate::place::{Place, WrongPart, token, token_count};
use crate::sentence::{Numbers, Sentence};
use he_addr::{read_ip, read_prefix};
use he_record::limits::{MAX_PORT, MIN_PORT};
use he_record::nat64::Nat64Prefix;
use he_record::words::FIRST_TOKEN;
use he_record::{AttemptReason, LookupReason, RecordWord, ServerReason, is_host};
use he_timeline::limits::MAX_TICK;
use he_words::{LINE_END, TOKEN_END, TextKind};

const PORT: Numbers = Numbers {
    what: "a port",
    least: MIN_PORT as u64,
    most: MAX_PORT as u64,
    unit: "",
};

const SERVER_TICKS: Numbers = Numbers {
    what: "the time until a name server is given up",
    least: 0,
    most: MAX_TICK,
    unit: " milliseconds",
};

const CLIENT_TICKS: Numbers = Numbers {
    what: "the time at which the client ended",
    least: 0,
    most: MAX_TICK,
    unit: " milliseconds",
};

const NO_TIME: &str = "a time is written as 2026-11-28T10:54:05.261Z: in UTC, with milliseconds";

const NO_WORD: &str =
    "no such word: record lines say at, to, from, lookup, nat64, server, attempt, untried, connected, gave-up or failed";

const LOOKUP_REASONS: &str =
    "a look-up has no address for no-such-name, no-address, no-answer, refused, failed, malformed, not-asked or nat64";

const NAT64_LENGTHS: &str = "a NAT64 prefix is of IPv6 and has 32, 40, 48, 56, 64 or 96 bits";

const SERVER_REASONS: &str = "a name server is silent, refused, failed or unreachable";

const ATTEMPT_REASONS: &str =
    "an attempt is refused, unreachable, timed-out, reset, forbidden, no-source or other";

type Found = (WrongPart, Sentence);

// Whether the line's first token is `record`.
pub(crate) fn is_record(line: &[u8]) -> bool {
    token(line, 0) == FIRST_TOKEN
}

// Whether no line of the race itself comes before the line.
pub(crate) fn is_before_race(place: Place<'_>) -> bool {
    for line in place.before.split(|byte| *byte == LINE_END) {
        if !line.is_empty() && !is_record(line) {
            return false;
        }
    }
    true
}

// The sentence for a record line before its race, by the kind of its fault.
pub(crate) fn record_sentence(place: Place<'_>, kind: TextKind) -> Option<Found> {
    let Some(word) = RecordWord::read(token(place.line, 1)) else {
        return Some((no_word_mark(place.line), Sentence::Plain(NO_WORD)));
    };
    match kind {
        TextKind::Word => order_sentence(place, word)
            .or(form_sentence(place.line, word))
            .or(flaw_sentence(place.line, word, kind)),
        TextKind::Number | TextKind::Range | TextKind::Address | TextKind::Prefix => {
            flaw_sentence(place.line, word, kind)
        }
        TextKind::Repeated => repeat_sentence(place, word),
        TextKind::TooMany if !place.before.is_empty() => many_sentence(word),
        _ => None,
    }
}

fn no_word_mark(line: &[u8]) -> WrongPart {
    if token_count(line) == 1 {
        WrongPart::From(line.len())
    } else {
        WrongPart::Token(1)
    }
}

// The sentence for a line after one of a later group.
fn order_sentence(place: Place<'_>, word: RecordWord) -> Option<Found> {
    let last = last_word(place)?;
    if word.group() < last.group() {
        Some((
            WrongPart::Token(1),
            Sentence::RecordOrder(word.spelling(), last.spelling()),
        ))
    } else {
        None
    }
}

fn last_word(place: Place<'_>) -> Option<RecordWord> {
    let mut last = None;
    for line in place.before.split(|byte| *byte == LINE_END) {
        last = RecordWord::read(token(line, 1)).or(last);
    }
    last
}

// The sentence for too few or too many tokens.
fn form_sentence(line: &[u8], word: RecordWord) -> Option<Found> {
    let count = token_count(line);
    let wanted = tokens(word);
    let mark = if count < wanted {
        WrongPart::From(line.len())
    } else {
        WrongPart::Token(wanted)
    };
    if count == wanted {
        None
    } else {
        Some((mark, Sentence::Plain(form(word))))
    }
}

// The number of tokens of its lines, with `record`.
fn tokens(word: RecordWord) -> usize {
    match word {
        RecordWord::To | RecordWord::Lookup | RecordWord::Attempt => 4,
        RecordWord::Server => 5,
        _ => 3,
    }
}

fn form(word: RecordWord) -> &'static str {
    match word {
        RecordWord::At => "when tick 0 was is `record at TIME`",
        RecordWord::To => "what was asked for is `record to HOST PORT`",
        RecordWord::From => "whose connection it was is `record from ADDRESS`",
        RecordWord::Lookup =>
            "a family without an address is `record lookup aaaa WORD` or `record lookup a WORD`",
        RecordWord::Nat64 => "a NAT64 prefix of the network is `record nat64 PREFIX`",
        RecordWord::Server =>
            "a name server that did not answer is `record server ADDRESS WORD MILLISECONDS`",
        RecordWord::Attempt => "an attempt that failed is `record attempt ADDRESS WORD`",
        RecordWord::Untried => "an address that nobody tried is `record untried ADDRESS`",
        RecordWord::Connected => "the end of the client is `record connected MILLISECONDS`",
        RecordWord::GaveUp => "the end of the client is `record gave-up MILLISECONDS`",
        RecordWord::Failed => "the end of the client is `record failed MILLISECONDS`",
    }
}

// The sentence for the first token after the word that is wrong by itself.
fn flaw_sentence(line: &[u8], word: RecordWord, kind: TextKind) -> Option<Found> {
    for (at, text) in line.split(|byte| *byte == TOKEN_END).enumerate() {
        if let Some(sentence) = token_flaw(word, at, text, kind) {
            return Some((WrongPart::Token(at), sentence));
        }
    }
    None
}

fn token_flaw(word: RecordWord, at: usize, text: &[u8], kind: TextKind) -> Option<Sentence> {
    match (word, at) {
        (_, 0 | 1) => None,
        (RecordWord::At, _) => time_flaw(kind),
        (RecordWord::To, 2) => said_if(
            !is_host(text),
            "a host is 1 to 255 printable ASCII characters without a space",
        ),
        (RecordWord::To, _) => number_flaw(PORT, text),
        (RecordWord::Lookup, 2) => said_if(!is_family(text), "a look-up is of `aaaa` or `a`"),
        (RecordWord::Lookup, _) => said_if(LookupReason::read(text).is_none(), LOOKUP_REASONS),
        (RecordWord::Nat64, _) => nat64_flaw(text),
        (RecordWord::Server, 3) => said_if(ServerReason::read(text).is_none(), SERVER_REASONS),
        (RecordWord::Server, 4) => number_flaw(SERVER_TICKS, text),
        (RecordWord::Attempt, 3) => said_if(AttemptReason::read(text).is_none(), ATTEMPT_REASONS),
        (RecordWord::Connected | RecordWord::GaveUp | RecordWord::Failed, _) => {
            number_flaw(CLIENT_TICKS, text)
        }
        _ => said_if(read_ip(text).is_none(), "this is no address"),
    }
}

fn nat64_flaw(text: &[u8]) -> Option<Sentence> {
    match read_prefix(text) {
        Some(prefix) => said_if(!Nat64Prefix::of(prefix).is_nat64(), NAT64_LENGTHS),
        None => prefix_flaw(text),
    }
}

fn time_flaw(kind: TextKind) -> Option<Sentence> {
    match kind {
        TextKind::Range => Some(Sentence::Plain("there is no such time")),
        _ => Some(Sentence::Plain(NO_TIME)),
    }
}

fn is_family(text: &[u8]) -> bool {
    text == b"aaaa".as_slice() || text == b"a".as_slice()
}

fn said_if(is_wrong: bool, sentence: &'static str) -> Option<Sentence> {
    if is_wrong {
        Some(Sentence::Plain(sentence))
    } else {
        None
    }
}

// The sentence for a line that repeats an earlier one, or is a second line of a kind that a record has once.
fn repeat_sentence(place: Place<'_>, word: RecordWord) -> Option<Found> {
    for (at, line) in place.before.split(|byte| *byte == LINE_END).enumerate() {
        if let Some(earlier) = RecordWord::read(token(line, 1))
            && is_again(earlier, line, word, place.line)
        {
            return Some((
                WrongPart::Token(repeated_token(word)),
                Sentence::Above(given_above(word), place.number(at)),
            ));
        }
    }
    None
}

// Whether the later line repeats the earlier one's family or address, or else is a second line of its group.
fn is_again(earlier: RecordWord, line: &[u8], word: RecordWord, later: &[u8]) -> bool {
    match word {
        RecordWord::Lookup => earlier == word && token(line, 2) == token(later, 2),
        RecordWord::Attempt | RecordWord::Untried => {
            is_of_attempt(earlier) && read_ip(token(line, 2)) == read_ip(token(later, 2))
        }
        _ => earlier.group() == word.group(),
    }
}

fn is_of_attempt(word: RecordWord) -> bool {
    matches!(word, RecordWord::Attempt | RecordWord::Untried)
}

fn repeated_token(word: RecordWord) -> usize {
    match word {
        RecordWord::Lookup | RecordWord::Attempt | RecordWord::Untried => 2,
        _ => 1,
    }
}

fn given_above(word: RecordWord) -> &'static str {
    match word {
        RecordWord::At => "the record has a time above",
        RecordWord::To => "the record has a host and a port above",
        RecordWord::From => "the record has a client above",
        RecordWord::Lookup => "this family has a `lookup` line above",
        RecordWord::Attempt | RecordWord::Untried => "this address has a line above",
        _ => "the client's own result is above",
    }
}

fn many_sentence(word: RecordWord) -> Option<Found> {
    match word.most_lines() {
        Some((most, TextKind::TooMany)) => Some((
            WrongPart::Token(1),
            Sentence::MostRecords(most as u64, word.spelling()),
        )),
        _ => None,
    }
}
