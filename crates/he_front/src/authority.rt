// The target of a tunnel: a host, a colon and a port (RFC 9112 section 3.2.3).

ghost use Rattle.std.specs.Prelude.{◌≡◌, ◌==◌, IfNone, IfSome, position};
ghost use Rattle.std.specs.Option.{option_map};
ghost use Rattle.std.specs.List.{list_all};
ghost use Rattle.he_addr.specs.Reading.{cut_in};
ghost use Rattle.he_front.specs.Authority.{IsAuthority, IsNoAuthority, is_name, is_name_octet};
ghost use Rattle.he_front.specs.Reading.{after, authority_in, bracketed_in, named_in, port_in};

use he_addr::{Family, read_ip_of, read_number};

const OPEN: u8 = b'[';

const CLOSE: u8 = b']';

const COLON: u8 = b':';

// The octets of a registered name, besides letters and digits.
const NAME_SIGNS: &[u8] = b"-._~%!$&'()*+,;=";

/// The maximum number of octets of a host.
pub const MOST_HOST: usize = 255;

const MOST_PORT: u64 = 65_535;

/// Reads the target of a tunnel: a host and a port; None if it is invalid. The host is a name or an IPv4 address, of
/// 1 to 255 octets of RFC 3986 section 3.2.2, or an IPv6 address, which is in brackets in the target and is returned
/// without them. The port is 1 to 65535, in decimal, without a sign and without leading zeros.
pub fn read_authority(text: &[u8]) -> Option<(&[u8], u16)>
    ensures found { IfSome result (λ named. IsAuthority text.now named.0.now named.1) }
    ensures none { IfNone result (IsNoAuthority text.now) }
{
    parse(text)
}

#[tactic(auto, unfolding(crate::specs::Reading::authority_in))]
fn parse(text: &[u8]) -> Option<(&[u8], u16)>
    ensures { option_map (λ named. (named.0.now, named.1)) result ≡ authority_in text.now }
{
    match after(text, OPEN) {
        Some(rest) => read_bracketed(rest),
        None => read_named(text),
    }
}

// Reads a name or an IPv4 address, a colon and a port.
#[tactic(auto, unfolding(crate::specs::Reading::named_in))]
fn read_named(text: &[u8]) -> Option<(&[u8], u16)>
    ensures { option_map (λ named. (named.0.now, named.1)) result ≡ named_in text.now }
{
    let (host, port) = cut(text, COLON)?;
    let port = read_port(port)?;
    if is_name(host) {
        Some((host, port))
    } else {
        None
    }
}

// Reads the text after an opening bracket: an IPv6 address, a closing bracket, a colon and a port.
#[tactic(auto, unfolding(crate::specs::Reading::bracketed_in))]
fn read_bracketed(text: &[u8]) -> Option<(&[u8], u16)>
    ensures { option_map (λ named. (named.0.now, named.1)) result ≡ bracketed_in text.now }
{
    let (host, rest) = cut(text, CLOSE)?;
    read_ip_of(Family::V6, host)?;
    let port = read_port(after(rest, COLON)?)?;
    Some((host, port))
}

#[tactic(auto, unfolding(crate::specs::Reading::port_in))]
fn read_port(text: &[u8]) -> Option<u16>
    ensures { result ≡ port_in text.now }
{
    let number = read_number(text)?;
    if (1..=MOST_PORT).contains(&number) {
        Some(number as u16)
    } else {
        None
    }
}

fn is_name(host: &[u8]) -> bool
    ensures { result ≡ is_name host.now }
{
    !host.is_empty() && host.len() <= MOST_HOST && are_name_octets(host)
}

fn are_name_octets(host: &[u8]) -> bool
    ensures { result ≡ list_all is_name_octet host.now }
{
    host.iter().all(|octet| is_name_octet(*octet))
}

fn is_name_octet(octet: u8) -> bool
    ensures { result ≡ is_name_octet octet }
{
    octet.is_ascii_alphanumeric() || NAME_SIGNS.contains(&octet)
}

// The text after a leading mark; None if it doesn't begin with the mark.
#[tactic(auto, unfolding(crate::specs::Reading::after))]
fn after(text: &[u8], mark: u8) -> Option<&[u8]>
    ensures { option_map (λ rest. rest.now) result ≡ after mark text.now }
{
    if !text.is_empty() && text[0] == mark {
        Some(&text[1..])
    } else {
        None
    }
}

fn find(text: &[u8], mark: u8) -> Option<usize>
    ensures { result ≡ position (λ octet. octet == mark) text.now }
{
    text.iter().position(|octet| *octet == mark)
}

// The text before the first mark, and the text after it.
#[tactic(auto, unfolding(he_addr::specs::Reading::cut_in))]
pub(crate) fn cut(text: &[u8], mark: u8) -> Option<(&[u8], &[u8])>
    ensures { option_map (λ parts. (parts.0.now, parts.1.now)) result ≡ cut_in mark text.now }
{
    let at = find(text, mark)?;
    Some((&text[..at], &text[at + 1..]))
}
