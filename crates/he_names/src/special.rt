//! Special-use domain names.

ghost use Rattle.std.specs.Prelude.{◌≡◌, [], IfOk, codes};
ghost use Rattle.std.specs.List.{list_any};
ghost use Rattle.std.specs.Str.{str_eq_ignore_ascii_case};
ghost use Rattle.he_names.specs.Conf.{last_of};
ghost use Rattle.he_names.specs.Fields.{texts};
ghost use Rattle.he_names.specs.Special.{is_localhost, is_multicast, is_of_local, is_within, special_use};

use crate::fields::is_text;
use crate::numeric::{body_of, labels};
use crate::order::dots;
use he_addr::Memory;
use std::alloc::Allocator;
use thiserror::Error;

const DOT: u8 = b'.';

const LOCALHOST: &[u8] = b"localhost";

const LOCAL: &[u8] = b"local";

/// A domain name for which no name server is queried, by its domain.
#[derive(Clone, Copy, Debug, PartialEq, Eq, Error)]
pub enum SpecialUse {
    /// `localhost`, and names in it: this machine (RFC 6761 section 6.3).
    #[error("names in .localhost are of this machine")]
    Localhost,
    /// `local`, or one label in it: a name on the link, which multicast DNS resolves (RFC 6762 section 3).
    #[error("names in .local are not asked of name servers: try --resolver system")]
    Local,
    /// `onion`: services of Tor (RFC 7686).
    #[error("names in .onion can only be reached through Tor")]
    Onion,
    /// `invalid`: names that never exist (RFC 6761 section 6.4).
    #[error("no name in .invalid exists")]
    Invalid,
}

// The special use of a name in lower case.
#[tactic(auto, unfolding(crate::specs::Special::special_use))]
pub(crate) fn special_use(name: &[u8]) -> Option<SpecialUse>
    ensures { result ≡ special_use name.now }
{
    let body = body_of(name);
    if is_within(body, LOCALHOST) {
        Some(SpecialUse::Localhost)
    } else if is_multicast(body) {
        Some(SpecialUse::Local)
    } else if is_within(body, b"onion") {
        Some(SpecialUse::Onion)
    } else if is_within(body, b"invalid") {
        Some(SpecialUse::Invalid)
    } else {
        None
    }
}

// Whether a name in lower case is `localhost` itself, with or without a final dot.
pub(crate) fn is_localhost(name: &[u8]) -> bool
    ensures { result ≡ is_localhost name.now }
{
    is_text(body_of(name), LOCALHOST)
}

fn is_multicast(name: &[u8]) -> bool
    ensures { result ≡ is_multicast name.now }
{
    is_within(name, LOCAL) && dots(name) <= 1
}

/// Whether a domain of the search list is `local` or in it: then the name servers know names with one label in
/// `local` too.
///
/// # Errors
///
/// [`Memory`] if an allocation failed.
pub fn serves_local<A: Allocator + Copy>(alloc: A, search: &[&[u8]]) -> Result<bool, Memory>
    ensures { IfOk result (λ serves. serves ≡ list_any is_of_local (texts search.now)) }
{
    let mut serves = false;
    for domain in search {
        let labels = labels(alloc, domain)?;
        serves = serves || is_last_local(&labels);
    }
    Ok(serves)
}

// Whether the last label is `local`.
fn is_last_local(labels: &[&[u8]]) -> bool
    ensures { result ≡ str_eq_ignore_ascii_case (last_of [] (texts labels.now)) (codes "local") }
{
    match labels {
        [.., last] => is_local(last),
        [] => false,
    }
}

fn is_local(label: &[u8]) -> bool
    ensures { result ≡ str_eq_ignore_ascii_case label.now (codes "local") }
{
    label.eq_ignore_ascii_case(LOCAL)
}

fn is_within(name: &[u8], domain: &[u8]) -> bool
    ensures { result ≡ is_within name.now domain.now }
{
    name.ends_with(domain)
        && (name.len() == domain.len() || name[name.len() - domain.len() - 1] == DOT)
}
