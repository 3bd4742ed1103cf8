// The reason that sorts an address after the one before it.

ghost use Rattle.std.specs.Prelude.{◌≡◌, ◌++◌, Some, OnOk};
ghost use Rattle.std.specs.List.{flat_map};
ghost use Rattle.he_json.specs.Facts.{compared_facts, of_source, reason_facts, values_facts};
ghost use Rattle.he_json.specs.Json.{fact_of};

use crate::members::{Member, Said, Value, push};
use he_addr::Memory;
use he_select::{DestinationAttributes, DestinationRule};
use std::alloc::Allocator;

// The rule, and the values that it compares.
pub(crate) fn push_reason<A: Allocator>(
    rule: Option<DestinationRule>,
    before: Option<DestinationAttributes>,
    own: &DestinationAttributes,
    row: &mut Vec<Member, A>,
) -> Result<(), Memory>
    ensures { OnOk result (flat_map fact_of row.new.items ≡ flat_map fact_of row.old.items ++ reason_facts rule before
        own.now) }
{
    let (Some(rule), Some(before)) = (rule, before) else {
        return Ok(());
    };
    let said = Said::Rule(rule);
    let members = [
        Member(b"rule", Value::Says(said, number_of(rule))),
        Member(b"why", Value::Says(said, name_of(rule))),
    ];
    push(&members, row)?;
    push_compared(rule, &before, own, row)
}

// The values that the rule compares, if it compares any.
fn push_compared<A: Allocator>(
    rule: DestinationRule,
    before: &DestinationAttributes,
    own: &DestinationAttributes,
    row: &mut Vec<Member, A>,
) -> Result<(), Memory>
    ensures { OnOk result (flat_map fact_of row.new.items ≡ flat_map fact_of row.old.items ++ compared_facts rule
        before.now own.now) }
{
    match rule {
        DestinationRule::MatchingScope => {
            push_unlike(own.scope as u64, source_scope(own) as u64, row)
        }
        DestinationRule::MatchingLabel => {
            push_unlike(own.label as u64, source_label(own) as u64, row)
        }
        DestinationRule::HigherPrecedence => {
            push_after(own.precedence as u64, before.precedence as u64, row)
        }
        DestinationRule::SmallerScope => push_after(own.scope as u64, before.scope as u64, row),
        DestinationRule::LowerRoundTripTime => push_values(own.rtt, b"before", before.rtt, row),
        DestinationRule::LongestPrefix => push_after(own.common as u64, before.common as u64, row),
        DestinationRule::AvoidUnusable
        | DestinationRule::AvoidDeprecated
        | DestinationRule::NativeTransport
        | DestinationRule::UsedBefore
        | DestinationRule::Unchanged => Ok(()),
    }
}

// A value of the address, and the one of the address before it.
fn push_after<A: Allocator>(own: u64, before: u64, row: &mut Vec<Member, A>) -> Result<(), Memory>
    ensures { OnOk result (flat_map fact_of row.new.items ≡ flat_map fact_of row.old.items ++ values_facts (Some own)
        (Some before)) }
{
    push_values(Some(own), b"before", Some(before), row)
}

// A value of the address, and the one of its source.
fn push_unlike<A: Allocator>(own: u64, source: u64, row: &mut Vec<Member, A>) -> Result<(), Memory>
    ensures { OnOk result (flat_map fact_of row.new.items ≡ flat_map fact_of row.old.items ++ values_facts (Some own)
        (Some source)) }
{
    push_values(Some(own), b"of_source", Some(source), row)
}

fn push_values<A: Allocator>(
    own: Option<u64>,
    name: &'static [u8],
    other: Option<u64>,
    row: &mut Vec<Member, A>,
) -> Result<(), Memory>
    ensures { OnOk result (flat_map fact_of row.new.items ≡ flat_map fact_of row.old.items ++ values_facts own other) }
{
    let members = [
        Member(b"own", Value::NumberOrNull(own)),
        Member(name, Value::NumberOrNull(other)),
    ];
    push(&members, row)
}

fn source_scope(attributes: &DestinationAttributes) -> u8
    ensures { result ≡ of_source (λ source. source.scope) attributes.now }
{
    attributes.source.map_or(0, |source| source.scope)
}

fn source_label(attributes: &DestinationAttributes) -> u16
    ensures { result ≡ of_source (λ source. source.label) attributes.now }
{
    attributes.source.map_or(0, |source| source.label)
}

// The rule's number in RFC 6724 section 6; 8a and 8b are those of RFC 8305 section 4.
fn number_of(rule: DestinationRule) -> &'static [u8] {
    match rule {
        DestinationRule::AvoidUnusable => b"1",
        DestinationRule::MatchingScope => b"2",
        DestinationRule::AvoidDeprecated => b"3",
        DestinationRule::MatchingLabel => b"5",
        DestinationRule::HigherPrecedence => b"6",
        DestinationRule::NativeTransport => b"7",
        DestinationRule::SmallerScope => b"8",
        DestinationRule::LowerRoundTripTime => b"8a",
        DestinationRule::UsedBefore => b"8b",
        DestinationRule::LongestPrefix => b"9",
        DestinationRule::Unchanged => b"10",
    }
}

// The name of the rule there.
fn name_of(rule: DestinationRule) -> &'static [u8] {
    match rule {
        DestinationRule::AvoidUnusable => b"avoid unusable destinations",
        DestinationRule::MatchingScope => b"prefer matching scope",
        DestinationRule::AvoidDeprecated => b"avoid deprecated addresses",
        DestinationRule::MatchingLabel => b"prefer matching label",
        DestinationRule::HigherPrecedence => b"prefer higher precedence",
        DestinationRule::NativeTransport => b"prefer native transport",
        DestinationRule::SmallerScope => b"prefer smaller scope",
        DestinationRule::LowerRoundTripTime => b"prefer lower round trip time",
        DestinationRule::UsedBefore => b"prefer an address used before",
        DestinationRule::LongestPrefix => b"use longest matching prefix",
        DestinationRule::Unchanged => b"otherwise leave the order unchanged",
    }
}
