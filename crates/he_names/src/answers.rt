//! The answers for a name: a family's addresses, and the timeline line that states them.

ghost use Rattle.std.specs.Prelude.{◌≡◌, ◌++◌, ◌∷◌, IfOk, OnOk, filter, take};
ghost use Rattle.std.specs.List.{flat_map, list_any};
ghost use Rattle.he_addr.specs.Ip.{is_of, same_ip};
ghost use Rattle.he_addr.specs.Printing.{printed};
ghost use Rattle.he_names.specs.Answers.{IsAnswer, answer_line, cleaned, each_once, told};

use crate::limits::MOST_ADDRESSES;
use he_addr::{Family, Ip, Memory, write_ip, write_number};
use std::alloc::Allocator;

/// The addresses of the family, each once, at its first place; of these the first 256, the maximum of a timeline
/// line.
///
/// # Errors
///
/// [`Memory`] if an allocation failed.
pub fn clean_of<A: Allocator + Copy>(
    alloc: A,
    family: Family,
    ips: &[Ip],
) -> Result<Vec<Ip, A>, Memory>
    ensures value { IfOk result (λ kept. kept.items ≡ cleaned family ips.now) }
    ensures answer { IfOk result (λ kept. IsAnswer family kept.items) }
{
    let own = of_family(alloc, family, ips)?;
    let kept = clean(alloc, &own)?;
    Ok(kept)
}

fn of_family<A: Allocator + Copy>(
    alloc: A,
    family: Family,
    ips: &[Ip],
) -> Result<Vec<Ip, A>, Memory>
    ensures { IfOk result (λ own. own.items ≡ filter (is_of family) ips.now) }
{
    let mut own = Vec::new(alloc);
    for ip in ips {
        if is_of(family, *ip) {
            own.push(*ip)?;
        }
    }
    Ok(own)
}

fn is_of(family: Family, ip: Ip) -> bool
    ensures { result ≡ is_of family ip }
{
    ip.family() == family
}

// The addresses each once; of these the first 256.
fn clean<A: Allocator + Copy>(alloc: A, ips: &[Ip]) -> Result<Vec<Ip, A>, Memory>
    ensures { IfOk result (λ kept. kept.items ≡ take 256 (each_once ips.now)) }
{
    let mut kept = Vec::new(alloc);
    for ip in ips {
        if !has(&kept, *ip) {
            kept.push(*ip)?;
        }
    }
    kept.truncate(MOST_ADDRESSES);
    Ok(kept)
}

fn has(ips: &[Ip], ip: Ip) -> bool
    ensures { result ≡ list_any (λ other. same_ip other ip) ips.now }
{
    ips.contains(&ip)
}

// Appends an answer as a line of a timeline: its word, its tick, and its addresses, or `none`.
pub(crate) fn write_answer<A: Allocator + Copy>(
    word: &[u8],
    tick: u64,
    ips: &[Ip],
    out: &mut Vec<u8, A>,
) -> Result<(), Memory>
    ensures { OnOk result (out.new.items ≡ out.old.items ++ answer_line word.now tick ips.now) }
{
    out.extend_from_slice(word)?;
    out.push(b' ')?;
    write_number(tick, out)?;
    write_told(ips, out)?;
    out.push(b'\n')?;
    Ok(())
}

// The addresses, or `none`.
fn write_told<A: Allocator + Copy>(ips: &[Ip], out: &mut Vec<u8, A>) -> Result<(), Memory>
    ensures { OnOk result (out.new.items ≡ out.old.items ++ told ips.now) }
{
    if ips.is_empty() {
        out.extend_from_slice(b" none")?;
        return Ok(());
    }
    write_addresses(ips, out)
}

// The addresses, each after a space.
fn write_addresses<A: Allocator + Copy>(ips: &[Ip], out: &mut Vec<u8, A>) -> Result<(), Memory>
    ensures { OnOk result (out.new.items ≡ out.old.items ++ flat_map (λ ip. 32 ∷ printed ip) ips.now) }
{
    for ip in ips {
        out.push(b' ')?;
        write_ip(*ip, out)?;
    }
    Ok(())
}
