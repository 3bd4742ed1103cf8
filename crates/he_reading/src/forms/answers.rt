// The events of a race: the answers, the knowledge of addresses from earlier connections, and the outcomes of
// connects.

ghost use Rattle.std.specs.Prelude.{◌≡◌, ◌<◌, ◌≤◌, ◌++◌, [], ◌∷◌, Ok, Err, true, length, IfOk, MatchResult};
ghost use Rattle.he_addr.specs.declared.ip.Family.{Family};
ghost use Rattle.he_timeline.specs.declared.limits.TheConstants.{MAX_ADDRESSES};
ghost use Rattle.he_timeline.specs.Race.{is_in_answer};
ghost use Rattle.he_reading.specs.Forms.{address_in, addresses_in, listed_in, answer_in, known_in, round_trip_in, used_in, mark_in, connect_in};
ghost use Rattle.he_reading.specs.Reading.{Fails, with_tick};
ghost use Rattle.he_reading.specs.Left.{tokens_left};

use super::numbers::number;
use crate::parts::Tokens;
use he_addr::{Family, Ip, read_ip, read_ip_of};
use he_timeline::limits::{MAX_ADDRESSES, MAX_DURATION, MAX_TICK, MIN_DURATION};
use he_timeline::{Outcome, TimelineBuilder};
use he_words::TextKind;
use std::alloc::Allocator;

// Reads an address of the family.
pub(crate) fn address(family: Family, token: &[u8]) -> Result<Ip, TextKind>
    ensures { result ≡ address_in family token.now }
{
    match read_ip_of(family, token) {
        Some(ip) => Ok(ip),
        None => Err(TextKind::Address),
    }
}

// Reads addresses into an empty list, which has room for them.
fn addresses<A: Allocator>(
    family: Family,
    tokens: Tokens,
    ips: &mut Vec<Ip, A>,
) -> Result<(), TextKind>
    requires { ips.old.items ≡ [] }
    ensures { MatchResult result (λ _. addresses_in family (tokens_left tokens.entry) ≡ Ok ips.new.items)
        (λ kind. Fails kind (addresses_in family (tokens_left tokens.entry))) }
{
    let mut left = tokens;
    while let Some(token) = left.next() {
        ips.push(address(family, token)?)?;
    }
    Ok(())
}

// Reads `none` alone, or `count` addresses.
#[tactic(auto, unfolding(crate::specs::Forms::listed_in))]
pub(crate) fn listed<A: Allocator>(
    alloc: A,
    family: Family,
    tokens: Tokens,
    count: usize,
) -> Result<Vec<Ip, A>, TextKind>
    ensures { MatchResult result (λ ips. listed_in family (tokens_left tokens.entry) ≡ Ok ips.items)
        (λ kind. Fails kind (listed_in family (tokens_left tokens.entry))) }
{
    let mut left = tokens;
    match (left.next(), left.next()) {
        (Some(only), None) if only == b"none".as_slice() => Ok(Vec::new(alloc)),
        _ => {
            let mut ips = Vec::with_capacity(alloc, count)?;
            addresses(family, tokens, &mut ips)?;
            Ok(ips)
        }
    }
}

// The parts of an answer's line: the tick; the `count` tokens that list the addresses; and the first of these by
// itself.
#[derive(Clone, Copy)]
pub(crate) struct AnswerLine<'a> {
    pub(crate) tick: u64,
    pub(crate) first: &'a [u8],
    pub(crate) tokens: Tokens<'a>,
    pub(crate) count: usize,
}

// aaaa TICK none, aaaa TICK ADDRESS .., and the line of `a`; the addresses themselves are not read yet
#[inline(always)]
#[tactic(auto, unfolding(crate::specs::Forms::answer_in), using(crate::proofs::FormLaws::only_token))]
pub(crate) fn answer(tokens: Tokens<'_>) -> Result<AnswerLine<'_>, TextKind>
    ensures read { (family : Family) → MatchResult result
        (λ x. answer_in family (tokens_left tokens.entry) ≡ with_tick x.tick (listed_in family (tokens_left x.tokens)))
        (λ kind. answer_in family (tokens_left tokens.entry) ≡ Err kind) }
    ensures count { IfOk result (λ x. (x.count ≡ length (tokens_left x.tokens)) × (x.count ≤ MAX_ADDRESSES)) }
    ensures only { IfOk result (λ x. x.count ≡ 1 → tokens_left x.tokens ≡ x.first.now ∷ []) }
{
    let mut left = tokens;
    let Some(tick) = left.next() else {
        return Err(TextKind::Word);
    };
    let tokens = left;
    let Some(first) = left.next() else {
        return Err(TextKind::Word);
    };
    let count = left.count() + 1;
    if count > MAX_ADDRESSES {
        return Err(TextKind::TooMany);
    }
    let tick = number(0, MAX_TICK, tick)?;
    Ok(AnswerLine {
        tick,
        first,
        tokens,
        count,
    })
}

// Inlined: a call takes some thirty instructions more for each outcome.
#[inline(always)]
#[tactic(auto, unfolding(crate::specs::Forms::known_in))]
fn known<A: Allocator + Copy>(token: &[u8], race: &TimelineBuilder<A>) -> Result<Ip, TextKind>
    ensures value { result ≡ known_in (is_in_answer race.now) token.now }
    ensures known { IfOk result (λ ip. is_in_answer race.now ip ≡ true) }
{
    let Some(ip) = read_ip(token) else {
        return Err(TextKind::Address);
    };
    if race.is_listed(ip) {
        Ok(ip)
    } else {
        Err(TextKind::Address)
    }
}

// rtt ADDRESS N
#[tactic(auto, unfolding(crate::specs::Forms::round_trip_in))]
pub(crate) fn round_trip<A: Allocator + Copy>(
    tokens: Tokens,
    race: &TimelineBuilder<A>,
) -> Result<(Ip, u64), TextKind>
    ensures { result ≡ round_trip_in (is_in_answer race.now) (tokens_left tokens.entry) }
{
    let Some((address, rtt)) = tokens.two() else {
        return Err(TextKind::Word);
    };
    let address = known(address, race)?;
    let rtt = number(MIN_DURATION, MAX_DURATION, rtt)?;
    Ok((address, rtt))
}

// used ADDRESS
#[tactic(auto, unfolding(crate::specs::Forms::used_in))]
pub(crate) fn used<A: Allocator + Copy>(
    tokens: Tokens,
    race: &TimelineBuilder<A>,
) -> Result<Ip, TextKind>
    ensures { result ≡ used_in (is_in_answer race.now) (tokens_left tokens.entry) }
{
    let mut left = tokens;
    match (left.next(), left.next()) {
        (Some(address), None) => known(address, race),
        _ => Err(TextKind::Word),
    }
}

#[tactic(auto, unfolding(crate::specs::Forms::mark_in))]
fn succeeds(mark: &[u8]) -> Result<bool, TextKind>
    ensures { result ≡ mark_in mark.now }
{
    if mark == b"ok".as_slice() {
        Ok(true)
    } else if mark == b"fail".as_slice() {
        Ok(false)
    } else {
        Err(TextKind::Word)
    }
}

// connect ADDRESS ok N, connect ADDRESS fail N
#[inline(always)]
#[tactic(auto, unfolding(crate::specs::Forms::connect_in), using(crate::proofs::FormLaws::connect_of_three))]
pub(crate) fn connect<A: Allocator + Copy>(
    tokens: Tokens,
    race: &TimelineBuilder<A>,
) -> Result<(Ip, Outcome), TextKind>
    ensures value { result ≡ connect_in (is_in_answer race.now) (tokens_left tokens.entry) }
    ensures known { IfOk result (λ told. is_in_answer race.now told.0 ≡ true) }
{
    let Some((address, mark, ticks)) = tokens.three() else {
        return Err(TextKind::Word);
    };
    let ip = known(address, race)?;
    let succeeds = succeeds(mark)?;
    let ticks = number(MIN_DURATION, MAX_DURATION, ticks)?;
    let outcome = if succeeds {
        Outcome::Ok(ticks)
    } else {
        Outcome::Fail(ticks)
    };
    Ok((ip, outcome))
}
