// The input of address selection: the rows of the policy table, and the sources and routes of the host.

ghost use Rattle.std.specs.Prelude.{◌≡◌, ◌≤◌, [], ◌∷◌};
ghost use Rattle.he_addr.specs.Reading.{prefix_in};
ghost use Rattle.he_reading.specs.Forms.{number_from, row_in, source_address_in, interface_in, source_marks_in, host_source_in, route_marks_in, host_route_in};
ghost use Rattle.he_reading.specs.Left.{tokens_left};

use super::numbers::number;
use crate::parts::Tokens;
use he_addr::prefix::MAPPED_LEN;
use he_addr::{Ip, Prefix, read_prefix, read_source};
use he_select::{Route, Row, Source};
use he_words::TextKind;
use he_words::limits::{
    MAX_INTERFACE, MAX_LABEL, MAX_PRECEDENCE, MIN_INTERFACE, ROUTE_MARKS, SOURCE_MARKS,
};

// Reads a number of at most 16 bits.
fn short(low: u64, high: u64, token: &[u8]) -> Result<u16, TextKind>
    requires { high ≤ u16.MAX }
    ensures { result ≡ number_from low high token.now }
{
    Ok(number(low, high, token)? as u16)
}

// The prefix that a token spells. `::/0` and `0.0.0.0/0` are recognized without the reader: most hosts have two
// default routes and no other, and the reader takes some 450 instructions for each of them.
#[inline(always)]
#[tactic(auto, using(crate::proofs::AllAddresses::all_six, crate::proofs::AllAddresses::all_four))]
fn spelled_prefix(token: &[u8]) -> Option<Prefix>
    ensures { result ≡ prefix_in token.now }
{
    if token == b"::/0".as_slice() {
        return Prefix::try_new(0, 0);
    }
    if token == b"0.0.0.0/0".as_slice() {
        return Prefix::try_new(Ip::V4(0).mapped(), MAPPED_LEN);
    }
    read_prefix(token)
}

// policy PREFIX PRECEDENCE LABEL
#[tactic(auto, unfolding(crate::specs::Forms::row_in))]
pub(crate) fn row(tokens: Tokens) -> Result<Row, TextKind>
    ensures { result ≡ row_in (tokens_left tokens.entry) }
{
    let Some((prefix, precedence, label)) = tokens.three() else {
        return Err(TextKind::Word);
    };
    let Some(prefix) = spelled_prefix(prefix) else {
        return Err(TextKind::Prefix);
    };
    let precedence = short(0, MAX_PRECEDENCE, precedence)?;
    let label = short(0, MAX_LABEL, label)?;
    Ok(Row {
        prefix,
        precedence,
        label,
    })
}

// Reads a usable address and the length of its prefix.
#[tactic(auto, unfolding(crate::specs::Forms::source_address_in))]
fn source_address(token: &[u8]) -> Result<(Ip, u8), TextKind>
    ensures { result ≡ source_address_in token.now }
{
    let Some((ip, plen)) = read_source(token) else {
        return Err(TextKind::Prefix);
    };
    if ip.is_usable() {
        Ok((ip, plen))
    } else {
        Err(TextKind::Address)
    }
}

fn interface(token: &[u8]) -> Result<u16, TextKind>
    ensures { result ≡ interface_in token.now }
{
    short(MIN_INTERFACE, MAX_INTERFACE, token)
}

// Reads the only mark of a source.
#[tactic(auto, unfolding(crate::specs::Forms::source_marks_in))]
fn one_mark(only: &[u8]) -> Result<(bool, bool), TextKind>
    ensures { result ≡ source_marks_in (only.now ∷ []) }
{
    if only == b"deprecated".as_slice() {
        Ok((true, false))
    } else if only == b"temporary".as_slice() {
        Ok((false, true))
    } else {
        Err(TextKind::Word)
    }
}

// Whether a source is deprecated, and whether it is temporary.
#[inline(always)]
#[tactic(auto, unfolding(crate::specs::Forms::source_marks_in))]
fn source_marks(tokens: Tokens) -> Result<(bool, bool), TextKind>
    ensures { result ≡ source_marks_in (tokens_left tokens.entry) }
{
    let mut left = tokens;
    let Some(first) = left.next() else {
        return Ok((false, false));
    };
    let Some(second) = left.next() else {
        return one_mark(first);
    };
    if first == b"deprecated".as_slice() && second == b"temporary".as_slice() {
        Ok((true, true))
    } else {
        Err(TextKind::Word)
    }
}

// source SOURCE INTERFACE [deprecated] [temporary]
#[inline(always)]
#[tactic(auto, unfolding(crate::specs::Forms::host_source_in))]
pub(crate) fn source(tokens: Tokens) -> Result<Source, TextKind>
    ensures { result ≡ host_source_in (tokens_left tokens.entry) }
{
    let mut left = tokens;
    let Some(address) = left.next() else {
        return Err(TextKind::Word);
    };
    let Some(number) = left.next() else {
        return Err(TextKind::Word);
    };
    if left.len() > SOURCE_MARKS {
        return Err(TextKind::Word);
    }
    let (ip, plen) = source_address(address)?;
    let interface = interface(number)?;
    let (deprecated, temporary) = source_marks(left)?;
    Ok(Source {
        ip,
        plen,
        interface,
        deprecated,
        temporary,
    })
}

// Whether a route is a tunnel.
#[inline(always)]
#[tactic(auto, unfolding(crate::specs::Forms::route_marks_in))]
fn route_marks(tokens: Tokens) -> Result<bool, TextKind>
    ensures { result ≡ route_marks_in (tokens_left tokens.entry) }
{
    let mut left = tokens;
    match left.next() {
        None => Ok(false),
        Some(mark) if mark == b"tunnel".as_slice() => Ok(true),
        Some(_) => Err(TextKind::Word),
    }
}

// route PREFIX INTERFACE [tunnel]
#[inline(always)]
#[tactic(auto, unfolding(crate::specs::Forms::host_route_in))]
pub(crate) fn route(tokens: Tokens) -> Result<Route, TextKind>
    ensures { result ≡ host_route_in (tokens_left tokens.entry) }
{
    let mut left = tokens;
    let Some(prefix) = left.next() else {
        return Err(TextKind::Word);
    };
    let Some(number) = left.next() else {
        return Err(TextKind::Word);
    };
    if left.len() > ROUTE_MARKS {
        return Err(TextKind::Word);
    }
    let Some(prefix) = spelled_prefix(prefix) else {
        return Err(TextKind::Prefix);
    };
    let interface = interface(number)?;
    let tunnel = route_marks(left)?;
    Ok(Route {
        prefix,
        interface,
        tunnel,
    })
}
