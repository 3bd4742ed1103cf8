// The state of a race while its lines are read.

ghost use Rattle.std.specs.Prelude.{◌≡◌, ◌⊎◌, ◌≤◌, [], ◌∷◌, IsOk, Ok, Err, length, MatchResult};
ghost use Rattle.he_reading.specs.Left.{tokens_left};
ghost use Rattle.he_reading.specs.Reading.{Fails, admit, once, put, given_is_above, settings_from, take_answer, take_listed, take_told, group_at_start, none_given};

use crate::forms;
use crate::forms::AnswerLine;
use crate::parts::Tokens;
use he_addr::Family;
use he_timeline::limits::{DEFAULT_ATTEMPT, DEFAULT_COUNT, DEFAULT_LIMIT, DEFAULT_RESOLUTION};
use he_timeline::{Settings, TimelineBuilder};
use he_words::{Name, TextKind, Word};
use std::alloc::Allocator;

// The group of the last line read, and the number of lines of that group, if there is a maximum.
#[derive(Clone, Copy)]
pub(crate) struct LastGroup {
    group: u8,
    lines: usize,
}

impl LastGroup {
    // Before any line after the first one.
    pub(crate) fn start() -> LastGroup
        ensures { result ≡ group_at_start }
    {
        LastGroup { group: 0, lines: 0 }
    }

    // The state after one more line, which begins with the word.
    #[tactic(auto, unfolding(crate::specs::Reading::admit, crate::specs::Reading::counted))]
    pub(crate) fn admit(self, word: Word) -> Result<LastGroup, TextKind>
        ensures { result ≡ admit word self }
    {
        let group = word.group();
        if group < self.group {
            return Err(TextKind::Word);
        }
        let lines = if group == self.group { self.lines } else { 0 };
        match word.most_lines() {
            None => Ok(LastGroup { group, lines: 0 }),
            Some((most, fault)) if most <= lines => Err(fault),
            Some(_) => Ok(LastGroup {
                group,
                lines: lines + 1,
            }),
        }
    }
}

// The settings given so far.
#[derive(Clone, Copy)]
pub(crate) struct GivenSettings {
    resolution: Option<u64>,
    attempt: Option<u64>,
    count: Option<u64>,
    limit: Option<u64>,
    floor: Option<u64>,
}

impl GivenSettings {
    pub(crate) fn none() -> GivenSettings
        ensures { result ≡ none_given }
    {
        GivenSettings {
            resolution: None,
            attempt: None,
            count: None,
            limit: None,
            floor: None,
        }
    }

    // The settings with one more given.
    #[tactic(auto, unfolding(crate::specs::Reading::put))]
    pub(crate) fn put(self, name: Name, value: u64) -> Result<GivenSettings, TextKind>
        ensures { result ≡ put name value self }
    {
        match name {
            Name::Resolution => Ok(GivenSettings {
                resolution: once(self.resolution, value)?,
                ..self
            }),
            Name::Attempt => Ok(GivenSettings {
                attempt: once(self.attempt, value)?,
                ..self
            }),
            Name::Count => Ok(GivenSettings {
                count: once(self.count, value)?,
                ..self
            }),
            Name::Limit => Ok(GivenSettings {
                limit: once(self.limit, value)?,
                ..self
            }),
            Name::Floor => Ok(GivenSettings {
                floor: once(self.floor, value)?,
                ..self
            }),
        }
    }

    // The race's settings, with defaults for those not given.
    #[tactic(auto, unfolding(crate::specs::Reading::settings_from))]
    pub(crate) fn settings(self) -> Result<Settings, TextKind>
        ensures { result ≡ settings_from self }
    {
        let settings = Settings::new(
            self.resolution.unwrap_or(DEFAULT_RESOLUTION),
            self.attempt.unwrap_or(DEFAULT_ATTEMPT),
            self.count.unwrap_or(DEFAULT_COUNT),
            self.limit.unwrap_or(DEFAULT_LIMIT),
        )?;
        match self.floor {
            None => Ok(settings),
            Some(floor) => Ok(settings.with_floor(floor)?),
        }
    }

    // Whether the floor is above the attempt delay.
    pub(crate) fn is_above(self) -> bool
        ensures { result ≡ given_is_above self }
    {
        match self.floor {
            None => false,
            Some(floor) => self.attempt.unwrap_or(DEFAULT_ATTEMPT) < floor,
        }
    }
}

fn once(given: Option<u64>, value: u64) -> Result<Option<u64>, TextKind>
    ensures { result ≡ once given value }
{
    match given {
        None => Ok(Some(value)),
        Some(_) => Err(TextKind::Repeated),
    }
}

// Adds an answer to the race.
#[tactic(auto, unfolding(crate::specs::Reading::take_listed))]
fn take_listed<A: Allocator + Copy>(
    alloc: A,
    family: Family,
    given: AnswerLine,
    race: &mut TimelineBuilder<A>,
) -> Result<(), TextKind>
    ensures { MatchResult result
        (λ _. take_listed family given.entry.tick (tokens_left given.entry.tokens) race.old ≡ Ok race.new)
        (λ kind. Fails kind (take_listed family given.entry.tick (tokens_left given.entry.tokens) race.old)) }
{
    let ips = forms::listed(alloc, family, given.tokens, given.count)?;
    Ok(race.answer(family, given.tick, &ips)?)
}

// Adds an answer of one token to the race. Most answers have one address and need no list.
#[inline(always)]
#[tactic(auto, unfolding(crate::specs::Reading::take_listed, crate::specs::Forms::listed_in, crate::specs::Forms::addresses_in))]
fn take_only<A: Allocator + Copy>(
    family: Family,
    tick: u64,
    token: &[u8],
    race: &mut TimelineBuilder<A>,
) -> Result<(), TextKind>
    ensures { MatchResult result (λ _. take_listed family tick (token.now ∷ []) race.old ≡ Ok race.new)
        (λ kind. Fails kind (take_listed family tick (token.now ∷ []) race.old)) }
{
    if token == b"none".as_slice() {
        return Ok(race.answer(family, tick, &[])?);
    }
    let ip = forms::address(family, token)?;
    Ok(race.answer(family, tick, &[ip])?)
}

#[tactic(auto, using(crate::proofs::FormLaws::answer_taken))]
fn take_answer<A: Allocator + Copy>(
    alloc: A,
    family: Family,
    tokens: Tokens,
    race: &mut TimelineBuilder<A>,
) -> Result<(), TextKind>
    ensures { MatchResult result (λ _. take_answer family (tokens_left tokens.entry) race.old ≡ Ok race.new)
        (λ kind. Fails kind (take_answer family (tokens_left tokens.entry) race.old)) }
{
    let given = forms::answer(tokens)?;
    if given.count == 1 {
        take_only(family, given.tick, given.first, race)
    } else {
        take_listed(alloc, family, given, race)
    }
}

// Adds the content of a line of the other groups, after its word, to the race.
#[tactic(auto, unfolding(crate::specs::Reading::take_told))]
pub(crate) fn take<A: Allocator + Copy>(
    alloc: A,
    word: Word,
    tokens: Tokens,
    race: &mut TimelineBuilder<A>,
) -> Result<(), TextKind>
    ensures { MatchResult result (λ _. take_told word (tokens_left tokens.entry) race.old ≡ Ok race.new)
        (λ kind. Fails kind (take_told word (tokens_left tokens.entry) race.old)) }
{
    match word {
        Word::Aaaa => take_answer(alloc, Family::V6, tokens, race),
        Word::A => take_answer(alloc, Family::V4, tokens, race),
        Word::Rtt => {
            let (ip, rtt) = forms::round_trip(tokens, race)?;
            Ok(race.rtt(ip, rtt)?)
        }
        Word::Used => {
            let ip = forms::used(tokens, race)?;
            Ok(race.used(ip)?)
        }
        Word::Connect => {
            let (ip, outcome) = forms::connect(tokens, race)?;
            Ok(race.outcome_of_known(ip, outcome)?)
        }
        Word::Pause => {
            let (from, to) = forms::pause(tokens)?;
            Ok(race.pause(from, to)?)
        }
        Word::End => forms::end(tokens),
        _ => Err(TextKind::Word),
    }
}
