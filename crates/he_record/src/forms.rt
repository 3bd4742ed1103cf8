// The forms of record lines, after the word that follows `record`: the number of tokens is checked first, then each
// token from left to right. The first check that fails is the fault.

ghost use Rattle.std.specs.Prelude.{◌≡◌, ◌≤◌, ℕ, Ok, Err, IfOk, MatchResult};
ghost use Rattle.std.specs.Option.{ok_or};
ghost use Rattle.he_addr.specs.Reading.{prefix_in};
ghost use Rattle.he_words.specs.declared.fault.TextKind.TheVariants as kinds;
ghost use Rattle.he_words.specs.Ranges.{most_u16};
ghost use Rattle.he_reading.specs.Forms.{number_from};
ghost use Rattle.he_reading.specs.Parts.{tokens_of};
ghost use Rattle.he_record.specs.declared.reasons.ClientEnd.{ClientEnd};
ghost use Rattle.he_record.specs.Forms.{address_in, at_in, end_in, failed_attempt_in, from_in, look_up_in, moment_in, name_server_in, nat64_in, said_by, to_in, untried_in, word_of};
ghost use Rattle.he_record.specs.Left.{IsFormOf, tokens_left};
ghost use Rattle.he_record.specs.Ranges.{least_port};
ghost use Rattle.he_record.specs.Said.{EndSaid};
ghost use Rattle.he_record.specs.Words.{family_in};

use crate::limits::{MAX_PORT, MIN_PORT};
use crate::line::{RecordLine, is_host};
use crate::moment::{Moment, read_parts};
use crate::nat64::Nat64Prefix;
use crate::reasons::{AttemptReason, ClientEnd, LookupReason, ServerReason};
use crate::tokens::Tokens;
use crate::words::RecordWord;
use he_addr::{Family, Ip, Prefix, read_ip, read_number, read_prefix};
use he_timeline::limits::MAX_TICK;
use he_words::TextKind;

#[tactic(auto, unfolding(he_reading::specs::Forms::number_from))]
fn number(low: u64, high: u64, token: &[u8]) -> Result<u64, TextKind>
    ensures value { result ≡ number_from low high token.now }
    ensures most { IfOk result (λ n. n ≤ high) }
{
    let Some(number) = read_number(token) else {
        return Err(TextKind::Number);
    };
    if low <= number && number <= high {
        Ok(number)
    } else {
        Err(TextKind::Range)
    }
}

fn ticks(token: &[u8]) -> Result<u64, TextKind>
    ensures { result ≡ number_from 0 MAX_TICK token.now }
{
    number(0, MAX_TICK, token)
}

fn port(token: &[u8]) -> Result<u16, TextKind>
    ensures { result ≡ number_from least_port most_u16 token.now }
{
    match number(u64::from(MIN_PORT), u64::from(MAX_PORT), token) {
        Ok(port) => Ok(port as u16),
        Err(kind) => Err(kind),
    }
}

#[tactic(auto, unfolding(crate::specs::Forms::address_in))]
fn address(token: &[u8]) -> Result<Ip, TextKind>
    ensures { result ≡ address_in token.now }
{
    match read_ip(token) {
        Some(ip) => Ok(ip),
        None => Err(TextKind::Address),
    }
}

#[tactic(auto, unfolding(crate::specs::Words::family_in))]
fn family(token: &[u8]) -> Option<Family>
    ensures { result ≡ family_in token.now }
{
    if token == b"aaaa".as_slice() {
        Some(Family::V6)
    } else if token == b"a".as_slice() {
        Some(Family::V4)
    } else {
        None
    }
}

#[tactic(auto, unfolding(crate::specs::Forms::moment_in))]
fn moment(token: &[u8]) -> Result<Moment, TextKind>
    ensures { result ≡ moment_in token.now }
{
    let Some(moment) = read_parts(token) else {
        return Err(TextKind::Number);
    };
    if moment.is_moment() {
        Ok(moment)
    } else {
        Err(TextKind::Range)
    }
}

// record at TIME
#[tactic(auto, unfolding(crate::specs::Forms::at_in))]
fn at<'t>(tokens: Tokens<'t>) -> Result<RecordLine<'t>, TextKind>
    ensures { IsFormOf at_in (tokens_left tokens.entry) result }
{
    let Some(time) = tokens.one() else {
        return Err(TextKind::Word);
    };
    let moment = moment(time)?;
    Ok(RecordLine::At(moment))
}

// record to HOST PORT
#[tactic(auto, unfolding(crate::specs::Forms::to_in))]
fn to<'t>(tokens: Tokens<'t>) -> Result<RecordLine<'t>, TextKind>
    ensures { IsFormOf to_in (tokens_left tokens.entry) result }
{
    let Some((host, number)) = tokens.two() else {
        return Err(TextKind::Word);
    };
    if !is_host(host) {
        return Err(TextKind::Word);
    }
    let port = port(number)?;
    Ok(RecordLine::To(host, port))
}

// record from ADDRESS
#[tactic(auto, unfolding(crate::specs::Forms::from_in))]
fn from<'t>(tokens: Tokens<'t>) -> Result<RecordLine<'t>, TextKind>
    ensures { IsFormOf from_in (tokens_left tokens.entry) result }
{
    let Some(token) = tokens.one() else {
        return Err(TextKind::Word);
    };
    let ip = address(token)?;
    Ok(RecordLine::From(ip))
}

// record lookup aaaa REASON, record lookup a REASON
#[tactic(auto, unfolding(crate::specs::Forms::look_up_in))]
fn look_up<'t>(tokens: Tokens<'t>) -> Result<RecordLine<'t>, TextKind>
    ensures { IsFormOf look_up_in (tokens_left tokens.entry) result }
{
    let Some((first, second)) = tokens.two() else {
        return Err(TextKind::Word);
    };
    let Some(family) = family(first) else {
        return Err(TextKind::Word);
    };
    let Some(reason) = LookupReason::read(second) else {
        return Err(TextKind::Word);
    };
    Ok(RecordLine::Lookup(family, reason))
}

fn prefix(token: &[u8]) -> Result<Prefix, TextKind>
    ensures { result ≡ ok_or (prefix_in token.now) kinds.Prefix }
{
    match read_prefix(token) {
        Some(prefix) => Ok(prefix),
        None => Err(TextKind::Prefix),
    }
}

// record nat64 PREFIX
#[tactic(auto, unfolding(crate::specs::Forms::nat64_in))]
fn nat64<'t>(tokens: Tokens<'t>) -> Result<RecordLine<'t>, TextKind>
    ensures { IsFormOf nat64_in (tokens_left tokens.entry) result }
{
    let Some(token) = tokens.one() else {
        return Err(TextKind::Word);
    };
    let prefix = Nat64Prefix::of(prefix(token)?);
    if !prefix.is_nat64() {
        return Err(TextKind::Range);
    }
    Ok(RecordLine::Nat64(prefix))
}

// record server ADDRESS REASON N
#[tactic(auto, unfolding(crate::specs::Forms::name_server_in))]
fn name_server<'t>(tokens: Tokens<'t>) -> Result<RecordLine<'t>, TextKind>
    ensures { IsFormOf name_server_in (tokens_left tokens.entry) result }
{
    let Some((first, second, third)) = tokens.three() else {
        return Err(TextKind::Word);
    };
    let ip = address(first)?;
    let Some(reason) = ServerReason::read(second) else {
        return Err(TextKind::Word);
    };
    let ticks = ticks(third)?;
    Ok(RecordLine::Server(ip, reason, ticks))
}

// record attempt ADDRESS REASON
#[tactic(auto, unfolding(crate::specs::Forms::failed_attempt_in))]
fn failed_attempt<'t>(tokens: Tokens<'t>) -> Result<RecordLine<'t>, TextKind>
    ensures { IsFormOf failed_attempt_in (tokens_left tokens.entry) result }
{
    let Some((first, second)) = tokens.two() else {
        return Err(TextKind::Word);
    };
    let ip = address(first)?;
    let Some(reason) = AttemptReason::read(second) else {
        return Err(TextKind::Word);
    };
    Ok(RecordLine::Attempt(ip, reason))
}

// record untried ADDRESS
#[tactic(auto, unfolding(crate::specs::Forms::untried_in))]
fn untried<'t>(tokens: Tokens<'t>) -> Result<RecordLine<'t>, TextKind>
    ensures { IsFormOf untried_in (tokens_left tokens.entry) result }
{
    let Some(token) = tokens.one() else {
        return Err(TextKind::Word);
    };
    let ip = address(token)?;
    Ok(RecordLine::Untried(ip))
}

// The number of `record connected N`, `record gave-up N` and `record failed N`.
#[tactic(auto, unfolding(crate::specs::Forms::end_in))]
fn end_ticks(tokens: Tokens<'_>) -> Result<u64, TextKind>
    ensures { (end : ℕ → ClientEnd) → MatchResult result
        (λ x. end_in end (tokens_left tokens.entry) ≡ Ok (EndSaid (end x)))
        (λ kind. end_in end (tokens_left tokens.entry) ≡ Err kind) }
{
    let Some(token) = tokens.one() else {
        return Err(TextKind::Word);
    };
    ticks(token)
}

// Reads the line of this word from the tokens after it.
pub(crate) fn line_by<'t>(word: RecordWord, tokens: Tokens<'t>) -> Result<RecordLine<'t>, TextKind>
    ensures { IsFormOf (said_by word) (tokens_left tokens.entry) result }
{
    match word {
        RecordWord::At => at(tokens),
        RecordWord::To => to(tokens),
        RecordWord::From => from(tokens),
        RecordWord::Lookup => look_up(tokens),
        RecordWord::Nat64 => nat64(tokens),
        RecordWord::Server => name_server(tokens),
        RecordWord::Attempt => failed_attempt(tokens),
        RecordWord::Untried => untried(tokens),
        RecordWord::Connected => match end_ticks(tokens) {
            Ok(ticks) => Ok(RecordLine::End(ClientEnd::Connected(ticks))),
            Err(kind) => Err(kind),
        },
        RecordWord::GaveUp => match end_ticks(tokens) {
            Ok(ticks) => Ok(RecordLine::End(ClientEnd::GaveUp(ticks))),
            Err(kind) => Err(kind),
        },
        RecordWord::Failed => match end_ticks(tokens) {
            Ok(ticks) => Ok(RecordLine::End(ClientEnd::Failed(ticks))),
            Err(kind) => Err(kind),
        },
    }
}

// Reads the word after `record`; the second value is the tokens after it.
#[tactic(auto, unfolding(crate::specs::Forms::word_of))]
pub(crate) fn record_word(line: &[u8]) -> Result<(RecordWord, Tokens<'_>), TextKind>
    ensures { MatchResult result (λ x. word_of (tokens_of line.now) ≡ Ok (x.0, tokens_left x.1))
        (λ kind. word_of (tokens_of line.now) ≡ Err kind) }
{
    let mut tokens = Tokens::new(line);
    let Some(_first) = tokens.next() else {
        return Err(TextKind::Word);
    };
    let Some(token) = tokens.next() else {
        return Err(TextKind::Word);
    };
    let Some(word) = RecordWord::read(token) else {
        return Err(TextKind::Word);
    };
    Ok((word, tokens))
}
