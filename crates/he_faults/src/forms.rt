// The form of its lines, by the word that begins them.

use he_words::Word;
use he_words::limits::{ROUTE_MARKS, SOURCE_MARKS};

pub(crate) fn form(word: Word) -> &'static str {
    match word {
        Word::Set => "a setting is `set NAME NUMBER`",
        Word::Policy => "a row of the policy table is `policy PREFIX PRECEDENCE LABEL`",
        Word::Source => { "a source is `source ADDRESS/LENGTH INTERFACE [deprecated] [temporary]`" }
        Word::Route => "a route is `route PREFIX INTERFACE`, then `tunnel` where it is one",
        Word::Aaaa => "the IPv6 answer is `aaaa TICK ADDRESS ..` or `aaaa TICK none`",
        Word::A => "the IPv4 answer is `a TICK ADDRESS ..` or `a TICK none`",
        Word::Rtt => "a known round trip time is `rtt ADDRESS MILLISECONDS`",
        Word::Used => "an address that was used before is `used ADDRESS`",
        Word::Connect => "an outcome is `connect ADDRESS ok TICKS` or `connect ADDRESS fail TICKS`",
        Word::Pause => "a pause is `pause FROM TO`",
        Word::End => "nothing may follow `end` on its line",
    }
}

// The maximum number of tokens of its lines, with the word.
pub(crate) fn most_tokens(word: Word) -> Option<usize> {
    match word {
        Word::Set | Word::Rtt | Word::Pause => Some(3),
        Word::Policy | Word::Connect => Some(4),
        Word::Source => Some(3 + SOURCE_MARKS),
        Word::Route => Some(3 + ROUTE_MARKS),
        Word::Aaaa | Word::A => None,
        Word::Used => Some(2),
        Word::End => Some(1),
    }
}

// The minimum number of tokens of its lines, with the word.
pub(crate) fn least_tokens(word: Word) -> usize {
    match word {
        Word::Policy | Word::Connect => 4,
        Word::Used => 2,
        Word::End => 1,
        _ => 3,
    }
}
