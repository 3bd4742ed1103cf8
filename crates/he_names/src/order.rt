//! The names that are queried for a host.

ghost use Rattle.std.specs.Prelude.{◌≡◌, ◌++◌, [], ◌∷◌, IfOk, OnOk, filter, if◌then◌else◌, map, not};
ghost use Rattle.std.specs.List.{list_any};
ghost use Rattle.he_names.specs.Fields.{texts};
ghost use Rattle.he_names.specs.Order.{dots, is_absolute, is_root, names_of, undotted, within};

use he_addr::Memory;
use std::alloc::Allocator;

const DOT: u8 = b'.';

/// The names to query for a host, in order (resolver(5)). A host that ends in a dot is queried only as it is; any
/// other host also in each domain of the search list: after itself if it has at least `ndots` dots, otherwise before
/// itself. A dot that begins a domain is dropped, and in the domain `.` the host is queried as it is.
///
/// # Errors
///
/// [`Memory`] if an allocation failed.
pub fn names_to_ask<A: Allocator + Copy>(
    alloc: A,
    host: &[u8],
    ndots: u64,
    search: &[&[u8]],
) -> Result<Vec<Vec<u8, A>, A>, Memory>
    ensures { IfOk result (λ names. map (λ name. name.items) names.items
        ≡ names_of host.now ndots (texts search.now)) }
{
    let mut names = Vec::new(alloc);
    if is_absolute(host) {
        push_host(alloc, host, &mut names)?;
    } else if ndots <= dots(host) {
        push_host(alloc, host, &mut names)?;
        push_below(alloc, host, search, &mut names)?;
    } else {
        push_within(alloc, host, search, &mut names)?;
        push_last(alloc, host, search, &mut names)?;
    }
    Ok(names)
}

fn is_absolute(name: &[u8]) -> bool
    ensures { result ≡ is_absolute name.now }
{
    match name {
        [] => false,
        _ => name[name.len() - 1] == DOT,
    }
}

// The host as it is.
fn push_host<A: Allocator + Copy>(
    alloc: A,
    host: &[u8],
    names: &mut Vec<Vec<u8, A>, A>,
) -> Result<(), Memory>
    ensures { OnOk result (map (λ name. name.items) names.new.items
        ≡ map (λ name. name.items) names.old.items ++ host.now ∷ []) }
{
    names.push(Vec::from_slice(alloc, host)?)?;
    Ok(())
}

// The host as it is, unless the search list has the root.
fn push_last<A: Allocator + Copy>(
    alloc: A,
    host: &[u8],
    search: &[&[u8]],
    names: &mut Vec<Vec<u8, A>, A>,
) -> Result<(), Memory>
    ensures { OnOk result (map (λ name. name.items) names.new.items
        ≡ map (λ name. name.items) names.old.items
        ++ (if list_any is_root (texts search.now) then [] else host.now ∷ [])) }
{
    if has_root(search) {
        return Ok(());
    }
    push_host(alloc, host, names)
}

// The host in each domain except the root.
fn push_below<A: Allocator + Copy>(
    alloc: A,
    host: &[u8],
    search: &[&[u8]],
    names: &mut Vec<Vec<u8, A>, A>,
) -> Result<(), Memory>
    ensures { OnOk result (map (λ name. name.items) names.new.items ≡ map (λ name. name.items) names.old.items
        ++ map (within host.now) (filter (λ domain. not (is_root domain)) (texts search.now))) }
{
    for domain in search {
        if !is_root(domain) {
            names.push(name_within(alloc, host, domain)?)?;
        }
    }
    Ok(())
}

// The host in each domain.
fn push_within<A: Allocator + Copy>(
    alloc: A,
    host: &[u8],
    search: &[&[u8]],
    names: &mut Vec<Vec<u8, A>, A>,
) -> Result<(), Memory>
    ensures { OnOk result (map (λ name. name.items) names.new.items
        ≡ map (λ name. name.items) names.old.items ++ map (within host.now) (texts search.now)) }
{
    for domain in search {
        names.push(name_within(alloc, host, domain)?)?;
    }
    Ok(())
}

fn name_within<A: Allocator + Copy>(
    alloc: A,
    host: &[u8],
    domain: &[u8],
) -> Result<Vec<u8, A>, Memory>
    ensures { IfOk result (λ name. name.items ≡ within host.now domain.now) }
{
    let mut name = Vec::from_slice(alloc, host)?;
    if is_root(domain) {
        return Ok(name);
    }
    name.push(DOT)?;
    name.extend_from_slice(undotted(domain))?;
    Ok(name)
}

fn undotted(domain: &[u8]) -> &[u8]
    ensures { result.now ≡ undotted domain.now }
{
    match domain {
        [DOT, rest @ ..] => rest,
        _ => domain,
    }
}

fn is_root(domain: &[u8]) -> bool
    ensures { result ≡ is_root domain.now }
{
    undotted(domain).is_empty()
}

fn has_root(search: &[&[u8]]) -> bool
    ensures { result ≡ list_any is_root (texts search.now) }
{
    search.iter().any(|domain| is_root(domain))
}

pub(crate) fn dots(name: &[u8]) -> u64
    ensures { result ≡ dots name.now }
{
    name.iter().filter(|byte| **byte == DOT).count() as u64
}
