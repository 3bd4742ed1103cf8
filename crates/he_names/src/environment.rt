//! The resolver configuration as the environment amends it.

ghost use Rattle.std.specs.Prelude.{◌≡◌, IfOk, OnOk};
ghost use Rattle.he_names.specs.Environment.{amended, domains_or_root, first_line, with_line, with_local_domain, with_res_options};

use crate::fields::{LINE_END, before, fields};
use he_addr::Memory;
use std::alloc::Allocator;

const ROOT: &[u8] = b".";

/// The environment variables of a resolver (resolver(5)), if set.
#[derive(Clone, Copy, Debug, PartialEq, Eq)]
pub struct Environment<'a> {
    /// LOCALDOMAIN: domains that replace the search list.
    pub local_domain: Option<&'a str>,
    /// RES_OPTIONS: options that are added after those of the file.
    pub res_options: Option<&'a str>,
}

/// Appends to a resolver configuration file the lines that the environment adds.
///
/// # Errors
///
/// [`Memory`] if an allocation failed.
pub fn amend<A: Allocator + Copy>(
    alloc: A,
    environment: Environment<'_>,
    settings: &mut Vec<u8, A>,
) -> Result<(), Memory>
    ensures { OnOk result (settings.new.items ≡ amended environment.entry settings.old.items) }
{
    if let Some(domains) = environment.local_domain {
        add_local_domain(alloc, domains.as_bytes(), settings)?;
    }
    if let Some(options) = environment.res_options {
        add_res_options(options.as_bytes(), settings)?;
    }
    Ok(())
}

// LOCALDOMAIN's domains replace the file's search list; if it names none, the list is empty (resolver(5)).
fn add_local_domain<A: Allocator + Copy>(
    alloc: A,
    domains: &[u8],
    settings: &mut Vec<u8, A>,
) -> Result<(), Memory>
    ensures { OnOk result (settings.new.items ≡ with_local_domain domains.now settings.old.items) }
{
    let domains = domains_or_root(alloc, first_line(domains))?;
    add_line(b"search ", domains, settings)
}

// RES_OPTIONS's options are added after those of the file (resolver(5)).
fn add_res_options<A: Allocator + Copy>(
    options: &[u8],
    settings: &mut Vec<u8, A>,
) -> Result<(), Memory>
    ensures { OnOk result (settings.new.items ≡ with_res_options options.now settings.old.items) }
{
    add_line(b"options ", first_line(options), settings)
}

fn first_line(text: &[u8]) -> &[u8]
    ensures { result.now ≡ first_line text.now }
{
    before(text, LINE_END)
}

// The domains, or the root if there are none.
fn domains_or_root<'t, A: Allocator + Copy>(alloc: A, domains: &'t [u8]) -> Result<&'t [u8], Memory>
    ensures { IfOk result (λ given. given.now ≡ domains_or_root domains.now) }
{
    if fields(alloc, domains)?.is_empty() {
        Ok(ROOT)
    } else {
        Ok(domains)
    }
}

// Appends a line to a text.
fn add_line<A: Allocator + Copy>(
    keyword: &[u8],
    values: &[u8],
    text: &mut Vec<u8, A>,
) -> Result<(), Memory>
    ensures { OnOk result (text.new.items ≡ with_line keyword.now values.now text.old.items) }
{
    text.push(LINE_END)?;
    text.extend_from_slice(keyword)?;
    text.extend_from_slice(values)?;
    Ok(())
}
