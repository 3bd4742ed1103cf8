//! The hosts file.

ghost use Rattle.std.specs.Prelude.{◌≡◌, IfOk};
ghost use Rattle.std.specs.List.{list_any};
ghost use Rattle.std.specs.Str.{str_eq_ignore_ascii_case};
ghost use Rattle.he_names.specs.Fields.{texts};
ghost use Rattle.he_names.specs.Hosts.{given_by, hosts_in, line_gives, uncommented};

use crate::fields::{before, fields, lines};
use he_addr::{Ip, Memory, read_ip};
use std::alloc::Allocator;

const COMMENT: u8 = b'#';

/// The addresses of both families that a hosts file has for a name, line by line (hosts(5)): a line has an address
/// and then its names, and a number sign begins a comment. Names are compared case-insensitively. Invalid lines are
/// ignored, and so are addresses with a zone.
///
/// # Errors
///
/// [`Memory`] if an allocation failed.
pub fn read_hosts<A: Allocator + Copy>(
    alloc: A,
    text: &[u8],
    name: &[u8],
) -> Result<Vec<Ip, A>, Memory>
    ensures { IfOk result (λ found. found.items ≡ hosts_in name.now text.now) }
{
    let lines = lines(alloc, text)?;
    let mut found = Vec::new(alloc);
    for line in &lines {
        if let Some(ip) = read_line(alloc, line, name)? {
            found.push(ip)?;
        }
    }
    Ok(found)
}

// The address that a line gives to the name.
#[tactic(auto, unfolding(crate::specs::Hosts::line_gives))]
fn read_line<A: Allocator + Copy>(alloc: A, line: &[u8], name: &[u8]) -> Result<Option<Ip>, Memory>
    ensures { IfOk result (λ found. found ≡ line_gives name.now line.now) }
{
    let fields = fields(alloc, without_comment(line))?;
    Ok(given_by(fields.as_slice(), name))
}

fn given_by(fields: &[&[u8]], name: &[u8]) -> Option<Ip>
    ensures { result ≡ given_by name.now (texts fields.now) }
{
    match fields {
        [address, names @ ..] if has_name(names, name) => read_ip(address),
        _ => None,
    }
}

fn has_name(names: &[&[u8]], name: &[u8]) -> bool
    ensures { result ≡ list_any (str_eq_ignore_ascii_case name.now) (texts names.now) }
{
    names.iter().any(|other| is_same_name(name, other))
}

fn is_same_name(name: &[u8], other: &[u8]) -> bool
    ensures { result ≡ str_eq_ignore_ascii_case name.now other.now }
{
    name.eq_ignore_ascii_case(other)
}

// The line up to its comment.
pub(crate) fn without_comment(line: &[u8]) -> &[u8]
    ensures { result.now ≡ uncommented line.now }
{
    before(line, COMMENT)
}
