//! The addresses of a host.

ghost use Rattle.std.specs.Prelude.{◌≡◌, ◌++◌, [], map, IfOk, OnErr, OnOk};
ghost use Rattle.he_json.specs.Json.{address_text, parted};
ghost use Rattle.he_json.specs.Names.{addresses_text, answer_text, names_text};

use crate::members::{write_address, write_words};
use he_addr::{Ip, Memory, write_number};
use he_print::write_string;
use std::alloc::Allocator;

// The addresses, with a comma between each two.
fn write_each<A: Allocator + Copy>(ips: &[Ip], text: &mut Vec<u8, A>) -> Result<(), Memory>
    ensures { OnOk result (text.new.items ≡ text.old.items ++ parted [] (map address_text ips.now)) }
{
    let mut gap: &[u8] = b"";
    for ip in ips {
        write_words(gap, text)?;
        write_address(*ip, text)?;
        gap = b",";
    }
    Ok(())
}

fn write_addresses<A: Allocator + Copy>(ips: &[Ip], text: &mut Vec<u8, A>) -> Result<(), Memory>
    ensures { OnOk result (text.new.items ≡ text.old.items ++ addresses_text ips.now) }
{
    write_words(b"[", text)?;
    write_each(ips, text)?;
    write_words(b"]", text)
}

fn write_answer<A: Allocator + Copy>(
    tick: u64,
    ips: &[Ip],
    text: &mut Vec<u8, A>,
) -> Result<(), Memory>
    ensures { OnOk result (text.new.items ≡ text.old.items ++ answer_text (tick, ips.now)) }
{
    write_words(b"{\"tick\":", text)?;
    write_number(tick, text)?;
    write_words(b",\"addresses\":", text)?;
    write_addresses(ips, text)?;
    write_words(b"}", text)
}

fn write_names<A: Allocator + Copy>(
    host: &str,
    aaaa: (u64, &[Ip]),
    a: (u64, &[Ip]),
    text: &mut Vec<u8, A>,
) -> Result<(), Memory>
    ensures { OnOk result (text.new.items ≡ text.old.items ++ names_text host.now (aaaa.entry.0, aaaa.entry.1.now)
        (a.entry.0, a.entry.1.now)) }
{
    write_words(b"{\"host\":", text)?;
    write_string(host.as_bytes(), text)?;
    write_words(b",\"aaaa\":", text)?;
    write_answer(aaaa.0, aaaa.1, text)?;
    write_words(b",\"a\":", text)?;
    write_answer(a.0, a.1, text)?;
    write_words(b"}\n", text)
}

/// Appends the addresses of a host, each family with the tick at which its answer came, as one JSON object and a line
/// end:
///
/// ```text
/// {"host":"www.example.com","aaaa":{"tick":31,"addresses":["2001:db8:1::1"]},"a":{"tick":12,"addresses":[]}}
/// ```
///
/// After `Memory` the vector is unchanged.
pub fn write_names_json<A: Allocator + Copy, T: Allocator>(
    alloc: A,
    host: &str,
    aaaa: (u64, &[Ip]),
    a: (u64, &[Ip]),
    out: &mut Vec<u8, T>,
) -> Result<(), Memory>
    ensures ok { OnOk result (out.new.items ≡ out.old.items ++ names_text host.now (aaaa.entry.0, aaaa.entry.1.now)
        (a.entry.0, a.entry.1.now)) }
    ensures err { OnErr result (out.new.items ≡ out.old.items) }
{
    let mut text = Vec::new(alloc);
    write_names(host, aaaa, a, &mut text)?;
    out.extend_from_slice(&text)
}
