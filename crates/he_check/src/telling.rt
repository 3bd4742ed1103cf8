// The warnings of an input.
ghost use Rattle.std.specs.Prelude.{◌≡◌, ◌++◌, IfOk, OnOk};
ghost use Rattle.std.specs.List.{flat_map};
ghost use Rattle.he_check.specs.Sentences.{sentence_of, warning_text};

use crate::slips::{Slip, Warning};
use he_addr::{Family, Memory, write_number};
use std::alloc::Allocator;

// Appends a line for each warning.
pub(crate) fn tell_warnings<A: Allocator + Copy>(
    alloc: A,
    warnings: &[Warning],
) -> Result<Vec<u8, A>, Memory>
    ensures { IfOk result (λ text. text.items ≡ flat_map warning_text warnings.now) }
{
    let mut text = Vec::new(alloc);
    for warning in warnings {
        append_warning(*warning, &mut text)?;
    }
    Ok(text)
}

fn append_warning<A: Allocator + Copy>(
    warning: Warning,
    text: &mut Vec<u8, A>,
) -> Result<(), Memory>
    ensures { OnOk result (text.new.items ≡ text.old.items ++ warning_text warning) }
{
    text.extend_from_slice(b"he: line ")?;
    write_number(warning.line, text)?;
    text.extend_from_slice(b": warning: ")?;
    text.extend_from_slice(sentence(warning.slip))?;
    text.push(b'\n')?;
    Ok(())
}

// The consequence of the likely mistake, and the remedy.
pub(crate) fn sentence(slip: Slip) -> &'static [u8]
    ensures { result.now ≡ sentence_of slip }
{
    match slip {
        Slip::NoRace => b"the input has no race: a race begins with the line `race 1` or `race 2`",
        Slip::NoSource =>
            b"this race has no `source` line, so every address counts as unreachable: add the output of `he host`",
        Slip::IdleFloor =>
            b"the floor of this race is its attempt delay, so it changes nothing: set a lower one, or none",
        Slip::NoRoute(Family::V6) =>
            b"this race has an IPv6 source but no IPv6 route, so no IPv6 address is reachable: add a route, as `route ::/0 1`",
        Slip::NoRoute(Family::V4) =>
            b"this race has an IPv4 source but no IPv4 route, so no IPv4 address is reachable: add a route, as `route 0.0.0.0/0 1`",
        Slip::NoAnswer(Family::V6) =>
            b"this race has no `aaaa` line, so it waits for that answer until its limit: if the name has no IPv6 address, write `aaaa TICK none`",
        Slip::NoAnswer(Family::V4) =>
            b"this race has no `a` line, so it waits for that answer until its limit: if the name has no IPv4 address, write `a TICK none`",
        Slip::LateAnswer(Family::V6) =>
            b"the aaaa answer of this race comes after its limit and is never seen: set a higher limit, or an earlier tick",
        Slip::LateAnswer(Family::V4) =>
            b"the a answer of this race comes after its limit and is never seen: set a higher limit, or an earlier tick",
        Slip::UnusableAnswer(Family::V6) =>
            b"no address of this race's aaaa line may be tried, as each is unspecified, multicast or in ::ffff:0:0/96: write others, or `none`",
        Slip::UnusableAnswer(Family::V4) =>
            b"no address of this race's a line may be tried, as each is unspecified or multicast: write others, or `none`",
        Slip::NoSourceOf(Family::V6) =>
            b"this race has no IPv6 source, so no address of its aaaa line is reachable: add a `source` line, or write `aaaa TICK none`",
        Slip::NoSourceOf(Family::V4) =>
            b"this race has no IPv4 source, so no address of its a line is reachable: add a `source` line, or write `a TICK none`",
        Slip::LateOutcome(Family::V6) =>
            b"an outcome of an IPv6 address of this race comes after its limit and is never seen: set a higher limit, or a shorter time",
        Slip::LateOutcome(Family::V4) =>
            b"an outcome of an IPv4 address of this race comes after its limit and is never seen: set a higher limit, or a shorter time",
        Slip::Unanswered =>
            b"no answer of this race has the address of this line, so the line says nothing: write it as in the answer",
    }
}
