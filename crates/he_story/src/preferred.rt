// A race's addresses in order of preference, each with the reason that sorts it after the one before.

ghost use Rattle.std.specs.Prelude.{◌≡◌, ◌++◌, None, IfOk, OnOk};
ghost use Rattle.he_print.specs.Parts.{fact_of};
ghost use Rattle.he_story.specs.Hosts.{block_facts, extracted, host_by, host_facts, host_of, prefixes_of};
ghost use Rattle.he_story.specs.Lines.{address_lines, compared, numbered, preferred_facts, ranked_facts, reached_facts, reason_facts, rule_facts, source_label, source_scope, title_facts, told};

use crate::story::Story;
use he_addr::{Ip, Memory, Prefix};
use he_course::Preferred;
use he_nat64::Prefix64;
use he_print::Part;
use he_record::Record;
use he_select::{DestinationAttributes, DestinationRule};
use he_statements::Said;
use itoa::Buffer;
use std::alloc::Allocator;

// The columns by which lines are indented.
const INDENT: usize = 2;

// The width of the line numbers up to this one, with the indent.
pub(crate) fn width_of(last: u64) -> usize {
    let mut digits = Buffer::new();
    digits.format(last).len().saturating_add(INDENT)
}

fn source_scope(attributes: &DestinationAttributes) -> u8
    ensures { result ≡ source_scope attributes.now }
{
    attributes.source.map_or(0, |source| source.scope)
}

fn source_label(attributes: &DestinationAttributes) -> u16
    ensures { result ≡ source_label attributes.now }
{
    attributes.source.map_or(0, |source| source.label)
}

// The two values that the rule compares, if it compares two. The first one may be unknown.
fn compared(
    rule: DestinationRule,
    earlier: &DestinationAttributes,
    later: &DestinationAttributes,
) -> Option<(Option<u64>, u64)>
    ensures { result ≡ compared rule earlier.now later.now }
{
    match rule {
        DestinationRule::MatchingScope => {
            Some((Some(later.scope as u64), source_scope(later) as u64))
        }
        DestinationRule::MatchingLabel => {
            Some((Some(later.label as u64), source_label(later) as u64))
        }
        DestinationRule::HigherPrecedence => {
            Some((Some(later.precedence as u64), earlier.precedence as u64))
        }
        DestinationRule::SmallerScope => Some((Some(later.scope as u64), earlier.scope as u64)),
        DestinationRule::LowerRoundTripTime => match earlier.rtt {
            Some(before) => Some((later.rtt, before)),
            None => None,
        },
        DestinationRule::LongestPrefix => Some((Some(later.common as u64), earlier.common as u64)),
        _ => None,
    }
}

// The prefixes by which an address is an IPv4 host: those of the race's network, and the well-known one.
fn prefixes_of<A: Allocator, B: Allocator>(
    alloc: A,
    recorded: &Record<'_, B>,
) -> Result<Vec<Prefix, A>, Memory>
    ensures { IfOk result (λ prefixes. prefixes.items ≡ prefixes_of recorded.now) }
{
    let mut prefixes = recorded.nat64(alloc)?;
    prefixes.push(Prefix::new(0x64_ff9b << 96, 96))?;
    Ok(prefixes)
}

// The IPv4 host of an address by the first prefix that has one.
fn host_of(prefixes: &[Prefix], address: u128) -> Option<u32>
    ensures { result ≡ host_of prefixes.now address }
{
    for prefix in prefixes {
        if let Some(host) = host_by(*prefix, address) {
            return Some(host);
        }
    }
    None
}

fn host_by(prefix: Prefix, address: u128) -> Option<u32>
    ensures { result ≡ host_by prefix address }
{
    match Prefix64::read(prefix) {
        Some(prefix) => extract(prefix, address),
        None => None,
    }
}

fn extract(prefix: Prefix64, address: u128) -> Option<u32>
    ensures { result ≡ extracted prefix address }
{
    prefix.extract(address)
}

impl<A: Allocator> Story<A> {
    // The IPv4 host that the address is by one of the prefixes, or the address block that it belongs to.
    fn tell_block(&mut self, prefixes: &[Prefix], ip: Ip) -> Result<(), Memory>
        ensures { OnOk result (told self.new ≡ told self.old ++ block_facts prefixes.now ip) }
    {
        match ip {
            Ip::V4(_) => Ok(()),
            Ip::V6(number) => self.tell_host(host_of(prefixes, number), number),
        }
    }

    fn tell_host(&mut self, host: Option<u32>, number: u128) -> Result<(), Memory>
        ensures { OnOk result (told self.new ≡ told self.old ++ host_facts host number) }
    {
        match host {
            Some(host) => self.tell(Said::Nat64, &[Part::Ip(Ip::V4(host))]),
            None if number >> 112 == 0x2002 => self.tell(Said::SixToFour, &[]),
            None if number >> 96 == 0x2001 << 16 => self.tell(Said::Teredo, &[]),
            None => Ok(()),
        }
    }

    // The source, or why the host does not reach the address.
    fn tell_reached(&mut self, address: &Preferred) -> Result<(), Memory>
        ensures { OnOk result (told self.new ≡ told self.old ++ reached_facts address.now.is_routed
            address.now.attributes.source) }
    {
        match address.attributes.source {
            Some(labelled) => self.tell(Said::From, &[Part::Ip(labelled.source.ip)]),
            None if address.is_routed => self.tell(Said::NoSource, &[]),
            None => self.tell(Said::NoRoute, &[]),
        }
    }

    fn tell_rule(
        &mut self,
        rule: DestinationRule,
        values: Option<(Option<u64>, u64)>,
    ) -> Result<(), Memory>
        ensures { OnOk result (told self.new ≡ told self.old ++ rule_facts rule values) }
    {
        match values {
            Some((Some(later), other)) => {
                self.tell(
                    Said::Rule(rule),
                    &[Part::Number(later), Part::Number(other)],
                )
            }
            Some((None, other)) => self.tell(Said::UnknownTime, &[Part::Number(other)]),
            None => self.tell(Said::Rule(rule), &[]),
        }
    }

    // The reason that sorts the address after the one before it.
    fn tell_reason(
        &mut self,
        earlier: Option<DestinationAttributes>,
        address: &Preferred,
    ) -> Result<(), Memory>
        ensures { OnOk result (told self.new ≡ told self.old ++ reason_facts earlier address.now.rule
            address.now.attributes) }
    {
        let Some(earlier) = earlier else {
            return Ok(());
        };
        match address.rule {
            Some(rule) => self.tell_rule(rule, compared(rule, &earlier, &address.attributes)),
            None => Ok(()),
        }
    }

    fn tell_address(
        &mut self,
        number: Part<Said>,
        prefixes: &[Prefix],
        earlier: Option<DestinationAttributes>,
        address: &Preferred,
    ) -> Result<(), Memory>
        ensures { OnOk result (told self.new ≡ told self.old
            ++ (numbered (fact_of number) address.now.attributes.ip
            ++ ranked_facts prefixes.now earlier address.now)) }
    {
        let ip = address.attributes.ip;
        self.tell(Said::Address, &[number, Part::Ip(ip)])?;
        self.tell_block(prefixes, ip)?;
        self.tell_reached(address)?;
        self.tell_reason(earlier, address)
    }

    fn tell_addresses(&mut self, prefixes: &[Prefix], addresses: &[Preferred]) -> Result<(), Memory>
        ensures { OnOk result (told self.new ≡ told self.old ++ address_lines prefixes.now 1 None addresses.now) }
    {
        let width = width_of(addresses.len() as u64);
        let mut earlier = None;
        for (place, address) in addresses.iter().enumerate() {
            let number = Part::Aligned(width, place as u64 + 1);
            self.tell_address(number, prefixes, earlier, address)?;
            earlier = Some(address.attributes);
        }
        Ok(())
    }

    // The line above the addresses.
    fn tell_title(&mut self, addresses: &[Preferred]) -> Result<(), Memory>
        ensures { OnOk result (told self.new ≡ told self.old ++ title_facts addresses.now) }
    {
        if addresses.is_empty() {
            self.tell(Said::NoAddress, &[])
        } else {
            self.tell(Said::Preferred, &[])
        }
    }

    pub(crate) fn tell_preferred<B: Allocator>(
        &mut self,
        alloc: A,
        recorded: &Record<'_, B>,
        addresses: &[Preferred],
    ) -> Result<(), Memory>
        ensures { OnOk result (told self.new ≡ told self.old ++ preferred_facts recorded.now addresses.now) }
    {
        let prefixes = prefixes_of(alloc, recorded)?;
        self.tell_title(addresses)?;
        self.tell_addresses(&prefixes, addresses)
    }
}
