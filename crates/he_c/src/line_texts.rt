// The texts of lines of a record.

ghost use Rattle.std.specs.Prelude.{◌≡◌, ◌-◌, ◌++◌, ◌∷◌, if◌then◌else◌, [], map, max, IfOk, OnOk};
ghost use Rattle.he_addr.specs.Printing.{printed};
ghost use Rattle.he_write.specs.Writing.{spaced};
ghost use Rattle.he_write.specs.Written.{host_route_text, host_source_text, reply_text, setting_text};
ghost use Rattle.he_c.specs.Lines.{connect_line, mark_between, pause_line, route_of, source_of, word_of};

use crate::addresses::address_of;
use crate::step::StepNumbers;
use crate::way::{WayNumbers, route_of, source_of};
use he_addr::{Family, Ip, Memory, write_ip, write_number, write_prefix, write_source};
use std::alloc::Global;

fn append(bytes: &[u8], line: &mut Vec<u8>) -> Result<(), Memory>
    ensures { OnOk result (line.new.items ≡ line.old.items ++ bytes.now) }
{
    line.extend_from_slice(bytes)
}

// Appends the mark if it is set.
fn append_mark(is: bool, mark: &[u8], line: &mut Vec<u8>) -> Result<(), Memory>
    ensures { OnOk result (line.new.items ≡ line.old.items ++ (if is then mark.now else [])) }
{
    if is { append(mark, line) } else { Ok(()) }
}

// set NAME N
pub(crate) fn setting_line(alloc: Global, name: &[u8], value: u64) -> Result<Vec<u8>, Memory>
    ensures { IfOk result (λ line. line.items ≡ setting_text name.now value) }
{
    let mut line = Vec::new(alloc);
    append(b"set ", &mut line)?;
    append(name, &mut line)?;
    append(b" ", &mut line)?;
    write_number(value, &mut line)?;
    append(b"\n", &mut line)?;
    Ok(line)
}

// pause FROM UNTIL, or nothing if the step has no pause
pub(crate) fn pause_line(alloc: Global, step: &StepNumbers) -> Result<Vec<u8>, Memory>
    ensures { IfOk result (λ line. line.items ≡ pause_line step.now) }
{
    let mut line = Vec::new(alloc);
    if step.pause_until == 0 {
        return Ok(line);
    }
    append(b"pause ", &mut line)?;
    write_number(step.pause_from, &mut line)?;
    append(b" ", &mut line)?;
    write_number(step.pause_until, &mut line)?;
    append(b"\n", &mut line)?;
    Ok(line)
}

// connect ADDRESS ok N, or connect ADDRESS fail N
pub(crate) fn connect_line(
    alloc: Global,
    start: &StepNumbers,
    connected: u32,
    tick: u64,
) -> Result<Vec<u8>, Memory>
    ensures { IfOk result (λ line. line.items ≡ connect_line start.now connected tick) }
{
    let mut line = Vec::new(alloc);
    append(b"connect ", &mut line)?;
    write_ip(address_of(start.family, &start.address), &mut line)?;
    append(mark_of(connected), &mut line)?;
    write_number(ticks_between(start.tick, tick), &mut line)?;
    append(b"\n", &mut line)?;
    Ok(line)
}

// The ticks of an attempt, at least one.
fn ticks_between(start: u64, end: u64) -> u64
    ensures { result ≡ max (end - start) 1 }
{
    end.saturating_sub(start).max(1)
}

// The word of an outcome, between spaces.
fn mark_of(connected: u32) -> &'static [u8]
    ensures { result.now ≡ mark_between connected }
{
    if connected == 0 { b" fail " } else { b" ok " }
}

// source ADDRESS/N INTERFACE [deprecated]
pub(crate) fn source_line(alloc: Global, way: &WayNumbers) -> Result<Vec<u8>, Memory>
    ensures { IfOk result (λ line. line.items ≡ host_source_text (source_of way.now)) }
{
    let source = source_of(way);
    let mut line = Vec::new(alloc);
    append(b"source ", &mut line)?;
    write_source(source.ip, source.plen, &mut line)?;
    append(b" ", &mut line)?;
    write_number(u64::from(source.interface), &mut line)?;
    append_mark(source.deprecated, b" deprecated", &mut line)?;
    append(b"\n", &mut line)?;
    Ok(line)
}

// route ADDRESS/N INTERFACE [tunnel]
pub(crate) fn route_line(alloc: Global, way: &WayNumbers) -> Result<Vec<u8>, Memory>
    ensures { IfOk result (λ line. line.items ≡ host_route_text (route_of way.now)) }
{
    let route = route_of(way);
    let mut line = Vec::new(alloc);
    append(b"route ", &mut line)?;
    write_prefix(route.prefix, true, &mut line)?;
    append(b" ", &mut line)?;
    write_number(u64::from(route.interface), &mut line)?;
    append_mark(route.tunnel, b" tunnel", &mut line)?;
    append(b"\n", &mut line)?;
    Ok(line)
}

// aaaa TICK ADDRESS .., or a TICK ADDRESS ..; `none` without addresses
pub(crate) fn answer_line(
    alloc: Global,
    family: Family,
    tick: u64,
    ips: &[Ip],
) -> Result<Vec<u8>, Memory>
    ensures { IfOk result (λ line. line.items ≡ reply_text (word_of family) tick ips.now) }
{
    let mut line = Vec::new(alloc);
    append(word_of(family), &mut line)?;
    append(b" ", &mut line)?;
    write_number(tick, &mut line)?;
    append_mark(ips.is_empty(), b" none", &mut line)?;
    append_addresses(ips, &mut line)?;
    append(b"\n", &mut line)?;
    Ok(line)
}

fn word_of(family: Family) -> &'static [u8]
    ensures { result.now ≡ word_of family }
{
    match family {
        Family::V4 => b"a",
        Family::V6 => b"aaaa",
    }
}

// Appends the addresses, each after a space.
fn append_addresses(ips: &[Ip], line: &mut Vec<u8>) -> Result<(), Memory>
    ensures { OnOk result (line.new.items ≡ line.old.items ++ spaced (map printed ips.now)) }
{
    for ip in ips {
        append_address(*ip, line)?;
    }
    Ok(())
}

fn append_address(ip: Ip, line: &mut Vec<u8>) -> Result<(), Memory>
    ensures { OnOk result (line.new.items ≡ line.old.items ++ 32 ∷ printed ip) }
{
    append(b" ", line)?;
    write_ip(ip, line)
}
