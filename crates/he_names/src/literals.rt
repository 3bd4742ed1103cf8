//! Addresses as a user writes them for a host.

ghost use Rattle.std.specs.Prelude.{◌≡◌};
ghost use Rattle.std.specs.List.{list_any};
ghost use Rattle.std.specs.Option.{option_map};
ghost use Rattle.he_addr.specs.Reading.{cut_in};
ghost use Rattle.he_names.specs.Literals.{between, is_bracketed, is_interface, is_no_interface_byte, is_on_link, literal_in, of_v6, unmapped, zoned_in, zoned_of};

use crate::fields::find;
use crate::limits::MOST_INTERFACE_BYTES;
use he_addr::{Family, Ip, read_ip, read_ip_of};

const OPEN: u8 = b'[';

const CLOSE: u8 = b']';

const ZONE_MARK: u8 = b'%';

const DELETE: u8 = 0x7f;

// The number of bits after the first ten of an address, and those ten of fe80::/10.
const AFTER_TEN: u32 = 118;

const ON_LINK: u128 = 0xfe80 >> 6;

// The first 96 bits of ::ffff:0:0/96, and the number of its first address.
const MAPPED: u128 = 0xffff;

const MAPPED_FIRST: u128 = 0xffff_0000_0000;

/// An address with its zone, if it has one: the name or the number of an interface (RFC 4007 section 11).
#[derive(Clone, Copy)]
pub struct ZonedIp<'t> {
    pub ip: Ip,
    pub zone: Option<&'t [u8]>,
}

/// Reads an address: one of either family, or an IPv6 one with a zone after a percent sign; an IPv6 one also in
/// brackets. None for every other text.
#[tactic(auto, unfolding(crate::specs::Literals::literal_in))]
pub fn read_literal(text: &[u8]) -> Option<ZonedIp<'_>>
    ensures { option_map zoned_of result ≡ literal_in text.now }
{
    if is_bracketed(text) {
        return of_v6(read_zoned(&text[1..text.len() - 1])?);
    }
    read_zoned(text)
}

#[tactic(auto, unfolding(crate::specs::Literals::zoned_in))]
pub(crate) fn read_zoned(text: &[u8]) -> Option<ZonedIp<'_>>
    ensures { option_map zoned_of result ≡ zoned_in text.now }
{
    match cut(text, ZONE_MARK) {
        Some((address, zone)) => Some(ZonedIp {
            ip: read_ip_of(Family::V6, address)?,
            zone: Some(zone),
        }),
        None => Some(ZonedIp {
            ip: read_ip(text)?,
            zone: None,
        }),
    }
}

fn of_v6(literal: ZonedIp<'_>) -> Option<ZonedIp<'_>>
    ensures { option_map zoned_of result ≡ of_v6 (zoned_of literal.entry) }
{
    match literal.ip {
        Ip::V4(_) => None,
        Ip::V6(_) => Some(literal),
    }
}

fn is_bracketed(text: &[u8]) -> bool
    ensures { result ≡ is_bracketed text.now }
{
    text.len() >= 2 && text[0] == OPEN && text[text.len() - 1] == CLOSE
}

// The text before the first mark, and the text after it.
#[tactic(auto, unfolding(he_addr::specs::Reading::cut_in))]
pub(crate) fn cut(text: &[u8], mark: u8) -> Option<(&[u8], &[u8])>
    ensures { option_map (λ parts. (parts.0.now, parts.1.now)) result ≡ cut_in mark text.now }
{
    let at = find(text, mark)?;
    Some((&text[..at], &text[at + 1..]))
}

// Whether the address is in fe80::/10.
pub(crate) fn is_on_link(ip: Ip) -> bool
    ensures { result ≡ is_on_link ip }
{
    match ip {
        Ip::V4(_) => false,
        Ip::V6(number) => number >> AFTER_TEN == ON_LINK,
    }
}

// The IPv4 address of an IPv4-mapped one; any other address unchanged.
pub(crate) fn unmapped(ip: Ip) -> Ip
    ensures { result ≡ unmapped ip }
{
    match ip {
        Ip::V6(number) if number >> 32 == MAPPED => Ip::V4((number - MAPPED_FIRST) as u32),
        _ => ip,
    }
}

fn is_no_interface_byte(byte: u8) -> bool
    ensures { result ≡ is_no_interface_byte byte }
{
    byte <= b' ' || byte == DELETE || byte == b'/'
}

fn has_no_interface_byte(zone: &[u8]) -> bool
    ensures { result ≡ list_any is_no_interface_byte zone.now }
{
    zone.iter().any(|byte| is_no_interface_byte(*byte))
}

// Whether the zone may name an interface.
pub(crate) fn is_interface(zone: &[u8]) -> bool
    ensures { result ≡ is_interface zone.now }
{
    !zone.is_empty() && zone.len() <= MOST_INTERFACE_BYTES && !has_no_interface_byte(zone)
}
