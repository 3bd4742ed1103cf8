// Reads addresses, sources and prefixes from texts.

ghost use Rattle.std.specs.Prelude.{◌≡◌, ◌≤◌, ℕ, IfSome, IfNone};
ghost use Rattle.he_addr.specs.Ip.{InRange, family_of};
ghost use Rattle.he_addr.specs.Prefix.{PrefixBits, width_of};
ghost use Rattle.he_addr.specs.Reading.{ip_in, ip_of_in, source_in, prefix_in, v4_in, v6_in};
ghost use Rattle.he_addr.specs.Text.{Spells, SpellsSource, SpellsPrefix};

use crate::decimal::read_numeral;
use crate::dotted::read_dotted;
use crate::groups::read_groups;
use crate::ip::{Family, Ip};
use crate::parts::cut;
use crate::prefix::{MAPPED_LEN, Prefix, V4_BITS, V6_BITS};
use crate::printing::SLASH;
use std::net::{IpAddr, Ipv4Addr, Ipv6Addr};

/// The maximum number of digits of a prefix length.
pub const LENGTH_DIGITS: usize = 3;

/// Reads an address. None if the text is not one. An IPv4 text is four decimal numbers up to 255 without leading
/// zeros, joined by dots; an IPv6 text is one of RFC 4291 section 2.2, without a zone index.
#[tactic(auto, using(crate::proofs::NetTexts::ip_in_text, crate::proofs::NetTexts::ip_in_no_text))]
pub fn read_ip(text: &[u8]) -> Option<Ip>
    ensures value { result ≡ ip_in text.now }
    ensures found { IfSome result (λ ip. Spells text.now ip) }
    ensures none { IfNone result ((ip : Ip) → Spells text.now ip → ⊥) }
    ensures range { IfSome result InRange }
{
    if let Some(number) = read_dotted(text) {
        return Some(Ip::V4(number));
    }
    if let Some(number) = read_groups(text) {
        return Some(Ip::V6(number));
    }
    match IpAddr::parse_ascii(text) {
        Ok(IpAddr::V4(address)) => Some(Ip::V4(address.to_bits())),
        Ok(IpAddr::V6(address)) => Some(Ip::V6(address.to_bits())),
        Err(_) => None,
    }
}

#[tactic(auto, using(crate::proofs::NetTexts::of_v4, crate::proofs::NetTexts::of_v6))]
fn parse_ip_of(family: Family, text: &[u8]) -> Option<Ip>
    ensures value { result ≡ ip_of_in family text.now }
    ensures range { IfSome result InRange }
{
    match family {
        Family::V4 => read_v4(text).map(Ip::V4),
        Family::V6 => read_v6(text).map(Ip::V6),
    }
}

/// Reads an address of this family, as [`read_ip`] does. None for every other text. Only the reader of that family
/// runs.
pub fn read_ip_of(family: Family, text: &[u8]) -> Option<Ip>
    ensures value { result ≡ ip_of_in family text.now }
    ensures found { IfSome result (λ ip. Spells text.now ip × (family_of ip ≡ family)) }
    ensures none { IfNone result ((ip : Ip) → Spells text.now ip → family_of ip ≡ family → ⊥) }
    ensures range { IfSome result InRange }
{
    parse_ip_of(family, text)
}

// Reads an IPv4 text as a number.
#[tactic(auto, using(crate::proofs::NetTexts::v4_in_text, crate::proofs::NetTexts::v4_in_no_text))]
fn read_v4(text: &[u8]) -> Option<u32>
    ensures { result ≡ v4_in text.now }
{
    if let Some(number) = read_dotted(text) {
        return Some(number);
    }
    match Ipv4Addr::parse_ascii(text) {
        Ok(address) => Some(address.to_bits()),
        Err(_) => None,
    }
}

// Reads an IPv6 text as a number.
#[tactic(auto, using(crate::proofs::NetTexts::v6_in_text, crate::proofs::NetTexts::v6_in_no_text))]
fn read_v6(text: &[u8]) -> Option<u128>
    ensures { result ≡ v6_in text.now }
{
    if let Some(number) = read_groups(text) {
        return Some(number);
    }
    match Ipv6Addr::parse_ascii(text) {
        Ok(address) => Some(address.to_bits()),
        Err(_) => None,
    }
}

// The number of bits of an address of this family.
fn width(ip: Ip) -> u8
    ensures { result ≡ width_of ip }
{
    match ip {
        Ip::V4(_) => V4_BITS,
        Ip::V6(_) => V6_BITS,
    }
}

#[tactic(auto, unfolding(crate::specs::Reading::source_in))]
fn parse_source(text: &[u8]) -> Option<(Ip, u8)>
    ensures value { result ≡ source_in text.now }
    ensures within { IfSome result (λ source. source.1 ≤ width_of source.0) }
{
    let (address, digits) = cut(text, SLASH)?;
    let ip = read_ip(address)?;
    let len = read_numeral(digits, LENGTH_DIGITS)?;
    if len > u64::from(width(ip)) {
        return None;
    }
    Some((ip, len as u8))
}

/// Reads a source text: an address, `/`, and a length of one to three digits without leading zeros, at most 32 for
/// IPv4 and 128 for IPv6. Bits past the length may be set. None for every other text.
pub fn read_source(text: &[u8]) -> Option<(Ip, u8)>
    ensures value { result ≡ source_in text.now }
    ensures found { IfSome result (λ source. SpellsSource text.now source.0 source.1) }
    ensures none { IfNone result ((ip : Ip) (len : ℕ) → SpellsSource text.now ip len → ⊥) }
    ensures within { IfSome result (λ source. source.1 ≤ width_of source.0) }
{
    parse_source(text)
}

#[tactic(auto, unfolding(crate::specs::Reading::prefix_in))]
fn parse_prefix(text: &[u8]) -> Option<Prefix>
    ensures { result ≡ prefix_in text.now }
{
    let (ip, len) = parse_source(text)?;
    match ip {
        Ip::V4(_) => Prefix::try_new(ip.mapped(), MAPPED_LEN + len),
        Ip::V6(number) => Prefix::try_new(number, len),
    }
}

/// Reads a prefix: a source text with no bit set past the length. An IPv4 prefix of length n is the mapped prefix of
/// length 96 + n. None for every other text.
pub fn read_prefix(text: &[u8]) -> Option<Prefix>
    ensures value { result ≡ prefix_in text.now }
    ensures found { IfSome result (λ prefix. SpellsPrefix text.now prefix) }
    ensures none { IfNone result ((prefix : PrefixBits) → SpellsPrefix text.now prefix → ⊥) }
{
    parse_prefix(text)
}
