// Queries for the addresses of a host.

ghost use Rattle.std.specs.Prelude.{◌≡◌, ◌++◌, IfOk, OnOk};
ghost use Rattle.std.specs.Int.{to_be_bytes, w16};
ghost use Rattle.he_dns.specs.Queries.{additional_of, arcount_of, query_of};

use crate::limits::{CLASS_IN, TYPE_OPT};
use crate::name::Name;
use crate::question::type_of;
use he_addr::{Family, Memory};
use std::alloc::Allocator;

// RD: asks the server to resolve recursively (RFC 1035 section 4.1.1).
const RECURSION_DESIRED: u16 = 0x0100;

fn append_word<A: Allocator>(word: u16, out: &mut Vec<u8, A>) -> Result<(), Memory>
    ensures { OnOk result (out.new.items ≡ out.old.items ++ to_be_bytes w16 word) }
{
    out.extend_from_slice(&word.to_be_bytes())?;
    Ok(())
}

/// A query for a host's addresses of one family (RFC 1035 section 4.1; RFC 3596 for IPv6): a header with this id and
/// RD set; one question with the name, the type and class IN; and, with `room`, a record that allows the server this
/// number of bytes for a datagram of its answer (RFC 6891 section 6.1).
pub fn write_query<A: Allocator + Copy, B: Allocator>(
    alloc: A,
    id: u16,
    name: &Name<B>,
    family: Family,
    room: Option<u16>,
) -> Result<Vec<u8, A>, Memory>
    ensures { IfOk result (λ query. query.items ≡ query_of id name.now.octets family room) }
{
    let mut query = Vec::new(alloc);
    append_word(id, &mut query)?;
    append_word(RECURSION_DESIRED, &mut query)?;
    query.extend_from_slice(&[0, 1, 0, 0, 0, 0])?;
    append_word(arcount_of(room), &mut query)?;
    query.extend_from_slice(name.octets())?;
    query.push(0)?;
    append_word(type_of(family), &mut query)?;
    append_word(CLASS_IN, &mut query)?;
    append_additional(room, &mut query)?;
    Ok(query)
}

// The number of records in the additional section.
fn arcount_of(room: Option<u16>) -> u16
    ensures { result ≡ arcount_of room }
{
    match room {
        Some(_) => 1,
        None => 0,
    }
}

fn append_additional<A: Allocator>(room: Option<u16>, out: &mut Vec<u8, A>) -> Result<(), Memory>
    ensures { OnOk result (out.new.items ≡ out.old.items ++ additional_of room) }
{
    if let Some(room) = room {
        out.extend_from_slice(&[0, 0, TYPE_OPT])?;
        append_word(room, out)?;
        out.extend_from_slice(&[0; 6])?;
    }
    Ok(())
}
