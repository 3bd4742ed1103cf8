//! The report on races as text. Each line but the first begins with its line end.
ghost use Rattle.std.specs.Prelude.{◌≡◌, ◌++◌, OnOk};
ghost use Rattle.std.specs.List.{flat_map};
ghost use Rattle.he_print.specs.Parts.{fact_of};
ghost use Rattle.he_summary.specs.declared.text.Said.TheVariants.{Are, Within};
ghost use Rattle.he_totals.specs.declared.totals.Kind.TheVariants.{Waited};
ghost use Rattle.he_totals.specs.declared.totals.Value.TheVariants.{GivenUp};
ghost use Rattle.he_summary.specs.Figures.{attempt_facts, client_facts, client_kinds, counted_facts, family_facts, first_facts, lookup_kinds, nonzero, number_facts, row_facts, rows_facts, server_facts, share_facts, some_facts, some_share_facts, text_facts, totals_facts, went_facts, why_facts};

use crate::figures::{greatest_of, share, total_of};
use he_addr::{Family, Ip, Memory};
use he_course::Times;
use he_print::{Part, push_parts};
use he_record::LookupReason;
use he_totals::kept::Kept;
use he_totals::tallies::Tally;
use he_totals::times::Spread;
use he_totals::totals::{Counts, Kind, Share, Totals, Value, count};
use std::alloc::Allocator;

/// The meaning of a number.
#[derive(Clone, Copy, Debug, PartialEq, Eq)]
pub enum Said {
    Races,
    Are(Kind),
    NotWon,
    /// Within which 50, 90, 99 and all of 100 lie.
    Within(Value),
    /// The milliseconds of all races that went into this.
    Went(Share),
    /// The attempts of all races, and the most of one.
    Attempts,
    Most,
}

// The width of a column.
pub(crate) const WIDTH: usize = 10;

// Appends the report, up to the addresses.
pub(crate) fn push_text<A: Allocator>(
    totals: Totals,
    kept: &[Kept],
    text: &mut Vec<Part<Said>, A>,
) -> Result<(), Memory>
    ensures { OnOk result (flat_map fact_of text.new.items ≡ flat_map fact_of text.old.items
        ++ text_facts totals kept.now) }
{
    push_totals(totals, text)?;
    push_clients(kept, text)?;
    push_lookups(kept, text)
}

fn push_totals<A: Allocator>(totals: Totals, text: &mut Vec<Part<Said>, A>) -> Result<(), Memory>
    ensures { OnOk result (flat_map fact_of text.new.items ≡ flat_map fact_of text.old.items
        ++ totals_facts totals) }
{
    push_first(totals.counts, text)?;
    push_families(totals.counts, text)?;
    push_rows(totals, text)?;
    push_went(totals.sums, text)?;
    push_end(totals, text)
}

// The number of races, of those that were won, and of those that were not, with the reasons.
fn push_first<A: Allocator>(counts: Counts, text: &mut Vec<Part<Said>, A>) -> Result<(), Memory>
    ensures { OnOk result (flat_map fact_of text.new.items ≡ flat_map fact_of text.old.items ++ first_facts counts) }
{
    let races: &'static [u8] = if counts.races == 1 {
        b" race: "
    } else {
        b" races: "
    };
    push_number(Said::Races, [b"", races], counts.races, text)?;
    push_number(Said::Are(Kind::Won), [b"", b" connected"], counts.won, text)?;
    push_share(counts.won, counts.races, text)?;
    push_why(counts, text)
}

fn push_why<A: Allocator>(counts: Counts, text: &mut Vec<Part<Said>, A>) -> Result<(), Memory>
    ensures { OnOk result (flat_map fact_of text.new.items ≡ flat_map fact_of text.old.items ++ why_facts counts) }
{
    let not_won = counts.races.saturating_sub(counts.won);
    let (first, second) = (counts.timed_out, counts.timed_out.max(counts.all_failed));
    push_some(Said::NotWon, [b", ", b" not"], not_won, text)?;
    push_some(
        Said::Are(Kind::TimedOut),
        [b": ", b" timed out"],
        first,
        text,
    )?;
    push_some(
        Said::Are(Kind::AllFailed),
        [after(first), b" all addresses failed"],
        counts.all_failed,
        text,
    )?;
    push_some(
        Said::Are(Kind::NoAddress),
        [after(second), b" without an address"],
        counts.no_address,
        text,
    )
}

// The separator of a reason from the ones before it.
fn after(earlier: u64) -> &'static [u8] {
    if earlier == 0 { b": " } else { b", " }
}

fn push_families<A: Allocator>(counts: Counts, text: &mut Vec<Part<Said>, A>) -> Result<(), Memory>
    ensures { OnOk result (flat_map fact_of text.new.items ≡ flat_map fact_of text.old.items ++ family_facts counts) }
{
    let (v6, v4) = (Kind::WonBy(Family::V6), Kind::WonBy(Family::V4));
    let before: &'static [u8] = if counts.by_v6 == 0 {
        b"\nconnected by IPv4: "
    } else {
        b", IPv4: "
    };
    push_some_share(
        Said::Are(v6),
        b"\nconnected by IPv6: ",
        (counts.by_v6, counts.won),
        text,
    )?;
    push_some_share(Said::Are(v4), before, (counts.by_v4, counts.won), text)
}

// The percentiles of times, below a heading.
fn push_rows<A: Allocator>(totals: Totals, text: &mut Vec<Part<Said>, A>) -> Result<(), Memory>
    ensures { OnOk result (flat_map fact_of text.new.items ≡ flat_map fact_of text.old.items ++ rows_facts totals) }
{
    push_heading(totals.counts.races, text)?;
    push_row(Value::Time, b"\ntime to connect      ", totals.times, text)?;
    push_row(
        Value::OfIt(Share::Names),
        b"\n  of it names        ",
        nonzero(totals.names),
        text,
    )?;
    push_row(
        Value::OfIt(Share::Lost),
        b"\n  of it lost         ",
        nonzero(totals.lost),
        text,
    )?;
    push_other_rows(totals, text)
}

fn push_heading<A: Allocator>(races: u64, text: &mut Vec<Part<Said>, A>) -> Result<(), Memory>
    ensures { OnOk result (flat_map fact_of text.new.items ≡ flat_map fact_of text.old.items) }
{
    if races == 0 {
        return Ok(());
    }
    push_parts(
        &[Part::Words(b"\n                         median       p90       p99       max  ms")],
        text,
    )
}

fn push_other_rows<A: Allocator>(
    totals: Totals,
    text: &mut Vec<Part<Said>, A>,
) -> Result<(), Memory>
    ensures { OnOk result (flat_map fact_of text.new.items ≡ flat_map fact_of text.old.items
        ++ (row_facts (Within GivenUp) totals.given_up ++ client_facts totals)) }
{
    push_row(
        Value::GivenUp,
        b"\nuntil given up       ",
        totals.given_up,
        text,
    )?;
    push_row(
        Value::Client,
        b"\nthe clients connected",
        totals.clients,
        text,
    )?;
    push_row(
        Value::ByRules,
        b"\n  by RFC 8305        ",
        totals.by_rules,
        text,
    )
}

fn push_row<A: Allocator>(
    value: Value,
    label: &'static [u8],
    spread: Option<Spread>,
    text: &mut Vec<Part<Said>, A>,
) -> Result<(), Memory>
    ensures { OnOk result (flat_map fact_of text.new.items ≡ flat_map fact_of text.old.items
        ++ row_facts (Within value) spread) }
{
    let Some(spread) = spread else {
        return Ok(());
    };
    push_parts(
        &[
            Part::Says(Said::Within(value), label),
            Part::Aligned(WIDTH, spread.median),
            Part::Aligned(WIDTH, spread.p90),
            Part::Aligned(WIDTH, spread.p99),
            Part::Aligned(WIDTH, spread.greatest),
        ],
        text,
    )
}

// None if all of these numbers are 0.
fn nonzero(spread: Option<Spread>) -> Option<Spread>
    ensures { result ≡ nonzero spread }
{
    match spread {
        Some(spread) if spread.greatest > 0 => Some(spread),
        _ => None,
    }
}

fn push_went<A: Allocator>(sums: Times, text: &mut Vec<Part<Said>, A>) -> Result<(), Memory>
    ensures { OnOk result (flat_map fact_of text.new.items ≡ flat_map fact_of text.old.items ++ went_facts sums) }
{
    if sums.all == 0 {
        return Ok(());
    }
    let names: &'static [u8] = b"\nwhere the time went: names ";
    push_number(Said::Went(Share::Names), [names, b" ms"], sums.names, text)?;
    push_number(
        Said::Went(Share::Lost),
        [b", lost ", b" ms"],
        sums.lost,
        text,
    )?;
    push_number(
        Said::Went(Share::Connecting),
        [b", connecting ", b" ms"],
        sums.connecting,
        text,
    )?;
    push_some(
        Said::Went(Share::Machine),
        [b", this machine ", b" ms"],
        sums.machine,
        text,
    )?;
    push_some(
        Said::Went(Share::Unknown),
        [b", unknown ", b" ms"],
        sums.unknown,
        text,
    )
}

// The attempts, and the number of races that waited.
fn push_end<A: Allocator>(totals: Totals, text: &mut Vec<Part<Said>, A>) -> Result<(), Memory>
    ensures { OnOk result (flat_map fact_of text.new.items ≡ flat_map fact_of text.old.items
        ++ (attempt_facts totals.attempts
        ++ some_share_facts (Are Waited) totals.counts.waited totals.counts.races)) }
{
    push_attempts(totals.attempts, text)?;
    push_waited(totals.counts, text)
}

fn push_waited<A: Allocator>(counts: Counts, text: &mut Vec<Part<Said>, A>) -> Result<(), Memory>
    ensures { OnOk result (flat_map fact_of text.new.items ≡ flat_map fact_of text.old.items
        ++ some_share_facts (Are Waited) counts.waited counts.races) }
{
    if counts.waited == 0 {
        return Ok(());
    }
    let races: &'static [u8] = if counts.waited == 1 {
        b" race"
    } else {
        b" races"
    };
    push_number(
        Said::Are(Kind::Waited),
        [b"\nslow AAAA: in ", races],
        counts.waited,
        text,
    )?;
    push_share(counts.waited, counts.races, text)?;
    push_parts(
        &[Part::Words(b" the IPv4 attempt started without it, after the Resolution Delay")],
        text,
    )
}

fn push_attempts<A: Allocator>(
    attempts: Option<Spread>,
    text: &mut Vec<Part<Said>, A>,
) -> Result<(), Memory>
    ensures { OnOk result (flat_map fact_of text.new.items ≡ flat_map fact_of text.old.items
        ++ attempt_facts attempts) }
{
    let total = total_of(attempts);
    if total == 0 {
        return Ok(());
    }
    push_number(Said::Attempts, [b"\nattempts: ", b""], total, text)?;
    push_number(
        Said::Most,
        [b", at most ", b" in a race"],
        greatest_of(attempts),
        text,
    )
}

fn push_number<A: Allocator>(
    said: Said,
    words: [&'static [u8]; 2],
    number: u64,
    text: &mut Vec<Part<Said>, A>,
) -> Result<(), Memory>
    ensures { OnOk result (flat_map fact_of text.new.items ≡ flat_map fact_of text.old.items
        ++ number_facts said number) }
{
    push_parts(
        &[
            Part::Says(said, words[0]),
            Part::Number(number),
            Part::Words(words[1]),
        ],
        text,
    )
}

// Appends a number, unless it is 0.
fn push_some<A: Allocator>(
    said: Said,
    words: [&'static [u8]; 2],
    number: u64,
    text: &mut Vec<Part<Said>, A>,
) -> Result<(), Memory>
    ensures { OnOk result (flat_map fact_of text.new.items ≡ flat_map fact_of text.old.items
        ++ some_facts said number) }
{
    if number == 0 {
        return Ok(());
    }
    push_number(said, words, number, text)
}

// Appends a number with its share of another one, unless it is 0.
fn push_some_share<A: Allocator>(
    said: Said,
    before: &'static [u8],
    number_of: (u64, u64),
    text: &mut Vec<Part<Said>, A>,
) -> Result<(), Memory>
    ensures { OnOk result (flat_map fact_of text.new.items ≡ flat_map fact_of text.old.items
        ++ some_share_facts said number_of.0 number_of.1) }
{
    let (number, of) = number_of;
    if number == 0 {
        return Ok(());
    }
    push_number(said, [before, b""], number, text)?;
    push_share(number, of, text)
}

// Appends the share of `of` that a number is, in tenths of a percent.
fn push_share<A: Allocator>(
    number: u64,
    of: u64,
    text: &mut Vec<Part<Said>, A>,
) -> Result<(), Memory>
    ensures { OnOk result (flat_map fact_of text.new.items ≡ flat_map fact_of text.old.items
        ++ share_facts number of) }
{
    if of == 0 {
        return Ok(());
    }
    let tenths = share(number, of);
    push_parts(
        &[
            Part::Words(b" ("),
            Part::Number(tenths / 10),
            Part::Words(b"."),
            Part::Number(tenths % 10),
            Part::Words(b" %)"),
        ],
        text,
    )
}

// The recorded clients' own results.
fn push_clients<A: Allocator>(kept: &[Kept], text: &mut Vec<Part<Said>, A>) -> Result<(), Memory>
    ensures { OnOk result (flat_map fact_of text.new.items ≡ flat_map fact_of text.old.items
        ++ flat_map (counted_facts kept.now) client_kinds) }
{
    push_counts(
        b"\nclients: ",
        &[Kind::Connected, Kind::GaveUp, Kind::Failed],
        kept,
        text,
    )
}

fn push_lookups<A: Allocator>(kept: &[Kept], text: &mut Vec<Part<Said>, A>) -> Result<(), Memory>
    ensures { OnOk result (flat_map fact_of text.new.items ≡ flat_map fact_of text.old.items
        ++ flat_map (counted_facts kept.now) lookup_kinds) }
{
    push_counts(
        b"\nlook-ups without an address: ",
        &[
            Kind::Lookup(Family::V6, LookupReason::NoSuchName),
            Kind::Lookup(Family::V6, LookupReason::NoAddress),
            Kind::Lookup(Family::V6, LookupReason::NoAnswer),
            Kind::Lookup(Family::V6, LookupReason::Refused),
            Kind::Lookup(Family::V6, LookupReason::Failed),
            Kind::Lookup(Family::V6, LookupReason::Malformed),
            Kind::Lookup(Family::V6, LookupReason::NotAsked),
            Kind::Lookup(Family::V6, LookupReason::Nat64),
            Kind::Lookup(Family::V4, LookupReason::NoSuchName),
            Kind::Lookup(Family::V4, LookupReason::NoAddress),
            Kind::Lookup(Family::V4, LookupReason::NoAnswer),
            Kind::Lookup(Family::V4, LookupReason::Refused),
            Kind::Lookup(Family::V4, LookupReason::Failed),
            Kind::Lookup(Family::V4, LookupReason::Malformed),
            Kind::Lookup(Family::V4, LookupReason::NotAsked),
            Kind::Lookup(Family::V4, LookupReason::Nat64),
        ],
        kept,
        text,
    )
}

// Appends the number of races of each of these kinds of which there are any.
fn push_counts<A: Allocator>(
    first: &'static [u8],
    kinds: &[Kind],
    kept: &[Kept],
    text: &mut Vec<Part<Said>, A>,
) -> Result<(), Memory>
    ensures { OnOk result (flat_map fact_of text.new.items ≡ flat_map fact_of text.old.items
        ++ flat_map (counted_facts kept.now) kinds.now) }
{
    let mut before = first;
    for kind in kinds {
        let number = count(kept, *kind);
        push_some(Said::Are(*kind), [before, words_of(*kind)], number, text)?;
        if number > 0 {
            before = b", ";
        }
    }
    Ok(())
}

fn words_of(kind: Kind) -> &'static [u8] {
    match kind {
        Kind::Connected => b" connected",
        Kind::GaveUp => b" gave up",
        Kind::Lookup(Family::V6, reason) => v6_lookup(reason),
        Kind::Lookup(Family::V4, reason) => v4_lookup(reason),
        _ => b" failed",
    }
}

fn v6_lookup(reason: LookupReason) -> &'static [u8] {
    match reason {
        LookupReason::NoSuchName => b" AAAA no such name",
        LookupReason::NoAddress => b" AAAA no address",
        LookupReason::NoAnswer => b" AAAA no answer",
        LookupReason::Refused => b" AAAA refused",
        LookupReason::Failed => b" AAAA failed",
        LookupReason::Malformed => b" AAAA malformed",
        LookupReason::NotAsked => b" AAAA not asked",
        LookupReason::Nat64 => b" AAAA nat64",
    }
}

fn v4_lookup(reason: LookupReason) -> &'static [u8] {
    match reason {
        LookupReason::NoSuchName => b" A no such name",
        LookupReason::NoAddress => b" A no address",
        LookupReason::NoAnswer => b" A no answer",
        LookupReason::Refused => b" A refused",
        LookupReason::Failed => b" A failed",
        LookupReason::Malformed => b" A malformed",
        LookupReason::NotAsked => b" A not asked",
        LookupReason::Nat64 => b" A nat64",
    }
}

// The name servers that did not answer, below a heading.
pub(crate) fn push_servers<A: Allocator>(
    servers: &[(Ip, Tally)],
    text: &mut Vec<Part<Said>, A>,
) -> Result<(), Memory>
    ensures { OnOk result (flat_map fact_of text.new.items ≡ flat_map fact_of text.old.items
        ++ flat_map server_facts servers.now) }
{
    let mut before: &'static [u8] = b"\n  given up    failed no answer  name server\n";
    for tallied in servers {
        let (ip, tally) = *tallied;
        push_parts(
            &[
                Part::Words(before),
                Part::Aligned(WIDTH, tally.attempts),
                Part::Aligned(WIDTH, tally.failed),
                Part::Aligned(WIDTH, tally.no_answer),
                Part::Words(b"  "),
                Part::Ip(ip),
            ],
            text,
        )?;
        before = b"\n";
    }
    Ok(())
}
