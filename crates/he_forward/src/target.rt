// A target in absolute form (RFC 9112 section 3.2.2), of the scheme http.

ghost use Rattle.std.specs.Prelude.{◌≡◌, ◌++◌, ◌≤◌, IfNone, IfOk, IfSome, MatchOption, codes, false, length, position, string_bytes, true};
ghost use Rattle.std.specs.List.{list_all};
ghost use Rattle.he_front.specs.Authority.{IsAuthority, IsNoAuthority};
ghost use Rattle.he_forward.specs.Targets.{Names, NamesNone, authority_in, end_in, is_absolute, is_mark, is_target_octet, path_in};

use he_addr::Memory;
use he_front::Asked;
use he_front::http::is_forwarded;
use std::alloc::Allocator;

const SCHEME: usize = 7;

// The authority, and what follows it: nothing, a path, or a query.
pub(crate) fn read_absolute(target: &[u8]) -> Option<(&[u8], &[u8])>
    ensures found { IfSome result (λ parts. is_absolute target.now ≡ true) }
    ensures authority { IfSome result (λ parts. parts.0.now ≡ authority_in target.now) }
    ensures path { IfSome result (λ parts. parts.1.now ≡ path_in target.now) }
    ensures none { IfNone result (is_absolute target.now ≡ false) }
{
    if !is_absolute(target) {
        return None;
    }
    let rest = &target[SCHEME..];
    let end = end_in(rest);
    Some((&rest[..end], &rest[end..]))
}

fn is_absolute(target: &[u8]) -> bool
    ensures absolute { result ≡ is_absolute target.now }
    ensures long { result ≡ true → 7 ≤ length target.now }
{
    is_forwarded(target) && are_target_octets(target)
}

fn are_target_octets(target: &[u8]) -> bool
    ensures { result ≡ list_all is_target_octet target.now }
{
    target
        .iter()
        .all(|octet| octet.is_ascii_graphic() && *octet != b'#')
}

fn end_in(rest: &[u8]) -> usize
    ensures end { result ≡ end_in rest.now }
    ensures within { result ≤ length rest.now }
{
    match find_mark(rest) {
        Some(at) => at,
        None => rest.len(),
    }
}

fn find_mark(rest: &[u8]) -> Option<usize>
    ensures mark { result ≡ position is_mark rest.now }
    ensures within { IfSome result (λ at. at ≤ length rest.now) }
{
    rest.iter()
        .position(|octet| *octet == b'/' || *octet == b'?')
}

// The host and the port that the authority names: the port is 80 if it has none.
pub(crate) fn asked_of<A: Allocator + Copy>(
    alloc: A,
    authority: &[u8],
) -> Result<Option<Asked<A>>, Memory>
    ensures { IfOk result (λ asked. MatchOption asked (NamesNone authority.now)
        (λ asked. Names authority.now (string_bytes asked.host) asked.port)) }
{
    match Asked::by_connect(alloc, authority) {
        Ok(None) => asked_at_80(alloc, authority),
        asked => asked,
    }
}

fn asked_at_80<A: Allocator + Copy>(alloc: A, authority: &[u8]) -> Result<Option<Asked<A>>, Memory>
    ensures { IfOk result (λ asked. MatchOption asked (IsNoAuthority (authority.now ++ codes ":80"))
        (λ asked. IsAuthority (authority.now ++ codes ":80") (string_bytes asked.host) asked.port)) }
{
    let mut text = Vec::new(alloc);
    text.extend_from_slice(authority)?;
    text.extend_from_slice(b":80")?;
    Asked::by_connect(alloc, &text)
}
