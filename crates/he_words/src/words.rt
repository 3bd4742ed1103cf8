//! The words of timeline texts.

ghost use Rattle.std.specs.Prelude.{◌≡◌};
ghost use Rattle.he_words.specs.Words.{word_in, name_in, group_of, header_of, is_end, most_lines, same_word, spelling_of, least_value, most_value, header_in, is_head_word};

use crate::fault::TextKind;
use crate::limits::MAX_ANSWERS;
use he_select::limits::{ROUTES, ROWS, SOURCES};
use he_timeline::limits::{
    MAX_ATTEMPT, MAX_COUNT, MAX_LIMIT, MAX_PAUSES, MAX_RESOLUTION, MIN_ATTEMPT, MIN_COUNT,
    MIN_FLOOR, MIN_LIMIT,
};

/// The versions of a race's text. Version 2 adds the words `rtt` and `used` and the setting `floor`.
#[derive(Clone, Copy, Debug, PartialEq, Eq)]
pub enum Version {
    One,
    Two,
}

impl Version {
    /// Reads the version from the first line of a race.
    pub fn read(line: &[u8]) -> Result<Version, TextKind>
        ensures { result ≡ header_in line.now }
    {
        if line == Version::One.header() {
            Ok(Version::One)
        } else if line == Version::Two.header() {
            Ok(Version::Two)
        } else {
            Err(TextKind::Header)
        }
    }

    /// The first line of a race.
    pub fn header(self) -> &'static [u8]
        ensures { result.now ≡ header_of self }
    {
        match self {
            Version::One => b"race 1",
            Version::Two => b"race 2",
        }
    }
}

/// The words that begin a line after the first one, in the order of the lines of a race.
#[derive(Clone, Copy, Debug, PartialEq, Eq)]
pub enum Word {
    Set,
    Policy,
    Source,
    Route,
    Aaaa,
    A,
    Rtt,
    Used,
    Connect,
    Pause,
    End,
}

// The last group of the lines that set up a race: its settings, policy table and host. The events of the race follow.
const LAST_HEAD_GROUP: u8 = 4;

impl Word {
    /// The word that a token spells; None if it spells none.
    #[tactic(auto, unfolding(crate::specs::Words::word_in))]
    pub fn read(token: &[u8]) -> Option<Word>
        ensures { result ≡ word_in token.now }
    {
        if token == b"set".as_slice() {
            Some(Word::Set)
        } else if token == b"policy".as_slice() {
            Some(Word::Policy)
        } else if token == b"source".as_slice() {
            Some(Word::Source)
        } else if token == b"route".as_slice() {
            Some(Word::Route)
        } else if token == b"aaaa".as_slice() {
            Some(Word::Aaaa)
        } else if token == b"a".as_slice() {
            Some(Word::A)
        } else if token == b"rtt".as_slice() {
            Some(Word::Rtt)
        } else if token == b"used".as_slice() {
            Some(Word::Used)
        } else if token == b"connect".as_slice() {
            Some(Word::Connect)
        } else if token == b"pause".as_slice() {
            Some(Word::Pause)
        } else if token == b"end".as_slice() {
            Some(Word::End)
        } else {
            None
        }
    }

    /// The spelling of the word.
    pub fn spelling(self) -> &'static str
        ensures { result.now ≡ spelling_of self }
    {
        match self {
            Word::Set => "set",
            Word::Policy => "policy",
            Word::Source => "source",
            Word::Route => "route",
            Word::Aaaa => "aaaa",
            Word::A => "a",
            Word::Rtt => "rtt",
            Word::Used => "used",
            Word::Connect => "connect",
            Word::Pause => "pause",
            Word::End => "end",
        }
    }

    /// The place of the word's lines among those of a race, from 1 on.
    pub fn group(self) -> u8
        ensures { result ≡ group_of self }
    {
        match self {
            Word::Set => 1,
            Word::Policy => 2,
            Word::Source => 3,
            Word::Route => 4,
            Word::Aaaa => 5,
            Word::A => 6,
            Word::Rtt => 7,
            Word::Used => 8,
            Word::Connect => 9,
            Word::Pause => 10,
            Word::End => 11,
        }
    }

    /// Whether the word's lines set up the race, before its events.
    pub fn is_head(self) -> bool
        ensures { result ≡ is_head_word self }
    {
        self.group() <= LAST_HEAD_GROUP
    }

    /// Whether it is the given word.
    pub fn is(self, word: Word) -> bool
        ensures { result ≡ same_word word self }
    {
        word.group() == self.group()
    }

    /// Whether its line ends the race.
    pub fn is_end(self) -> bool
        ensures { result ≡ is_end self }
    {
        match self {
            Word::End => true,
            _ => false,
        }
    }

    /// The maximum number of lines of a race that begin with it, if there is one, and the fault of a further line.
    pub fn most_lines(self) -> Option<(usize, TextKind)>
        ensures { result ≡ most_lines self }
    {
        match self {
            Word::Policy => Some((ROWS, TextKind::TooMany)),
            Word::Source => Some((SOURCES, TextKind::TooMany)),
            Word::Route => Some((ROUTES, TextKind::TooMany)),
            Word::Aaaa | Word::A => Some((MAX_ANSWERS, TextKind::Repeated)),
            Word::Pause => Some((MAX_PAUSES, TextKind::TooMany)),
            _ => None,
        }
    }
}

/// The names of the settings.
#[derive(Clone, Copy, Debug, PartialEq, Eq)]
pub enum Name {
    Resolution,
    Attempt,
    Count,
    Limit,
    Floor,
}

impl Name {
    /// The minimum value of the setting, in ticks except for `Count`.
    pub fn least(self) -> u64
        ensures { result ≡ least_value self }
    {
        match self {
            Name::Resolution => 0,
            Name::Attempt => MIN_ATTEMPT,
            Name::Count => MIN_COUNT,
            Name::Limit => MIN_LIMIT,
            Name::Floor => MIN_FLOOR,
        }
    }

    /// The maximum value of the setting, in ticks except for `Count`. A floor is also at most the race's attempt
    /// delay.
    pub fn most(self) -> u64
        ensures { result ≡ most_value self }
    {
        match self {
            Name::Resolution => MAX_RESOLUTION,
            Name::Attempt => MAX_ATTEMPT,
            Name::Count => MAX_COUNT,
            Name::Limit => MAX_LIMIT,
            Name::Floor => MAX_ATTEMPT,
        }
    }

    /// The setting that a token names; None if it names none.
    #[tactic(auto, unfolding(crate::specs::Words::name_in))]
    pub fn read(token: &[u8]) -> Option<Name>
        ensures { result ≡ name_in token.now }
    {
        if token == b"resolution".as_slice() {
            Some(Name::Resolution)
        } else if token == b"attempt".as_slice() {
            Some(Name::Attempt)
        } else if token == b"count".as_slice() {
            Some(Name::Count)
        } else if token == b"limit".as_slice() {
            Some(Name::Limit)
        } else if token == b"floor".as_slice() {
            Some(Name::Floor)
        } else {
            None
        }
    }
}
