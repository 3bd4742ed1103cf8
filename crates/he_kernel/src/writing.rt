// Writes the lines of a machine.

ghost use Rattle.std.specs.Prelude.{◌++◌, OnOk, ◌≡◌};
ghost use Rattle.he_kernel.specs.Written.{source_end, source_line, route_line, host_lines, written_sources, written_routes};

use he_addr::{Memory, write_number, write_prefix, write_source};
use he_select::{Host, Route, Source};
use std::alloc::Allocator;

fn write_word<A: Allocator + Copy>(word: &[u8], out: &mut Vec<u8, A>) -> Result<(), Memory>
    ensures { OnOk result (out.new.items ≡ out.old.items ++ word.now) }
{
    out.extend_from_slice(word)?;
    Ok(())
}

// Writes a word at the end of a line, if it applies.
fn write_mark<A: Allocator + Copy>(
    holds: bool,
    word: &[u8],
    out: &mut Vec<u8, A>,
) -> Result<(), Memory>
    ensures { OnOk result (out.new.items ≡ out.old.items ++ Rattle.he_kernel.specs.Written.mark holds word.now) }
{
    if holds {
        write_word(word, out)?;
    }
    Ok(())
}

// [deprecated] [temporary]
fn write_source_end<A: Allocator + Copy>(source: Source, out: &mut Vec<u8, A>) -> Result<(), Memory>
    ensures { OnOk result (out.new.items ≡ out.old.items ++ source_end source) }
{
    write_mark(source.deprecated, b" deprecated", out)?;
    write_mark(source.temporary, b" temporary", out)?;
    write_word(b"\n", out)
}

// source ADDRESS/LENGTH INTERFACE [deprecated] [temporary]
fn write_source_line<A: Allocator + Copy>(
    source: Source,
    out: &mut Vec<u8, A>,
) -> Result<(), Memory>
    ensures { OnOk result (out.new.items ≡ out.old.items ++ source_line source) }
{
    write_word(b"source ", out)?;
    write_source(source.ip, source.plen, out)?;
    write_word(b" ", out)?;
    write_number(u64::from(source.interface), out)?;
    write_source_end(source, out)
}

// route PREFIX INTERFACE [tunnel]
fn write_route_line<A: Allocator + Copy>(route: Route, out: &mut Vec<u8, A>) -> Result<(), Memory>
    ensures { OnOk result (out.new.items ≡ out.old.items ++ route_line route) }
{
    write_word(b"route ", out)?;
    write_prefix(route.prefix, true, out)?;
    write_word(b" ", out)?;
    write_number(u64::from(route.interface), out)?;
    write_mark(route.tunnel, b" tunnel", out)?;
    write_word(b"\n", out)
}

fn write_sources<A: Allocator + Copy>(
    sources: &[Source],
    out: &mut Vec<u8, A>,
) -> Result<(), Memory>
    ensures { OnOk result (out.new.items ≡ out.old.items ++ written_sources sources.now) }
{
    for source in sources {
        write_source_line(*source, out)?;
    }
    Ok(())
}

fn write_routes<A: Allocator + Copy>(routes: &[Route], out: &mut Vec<u8, A>) -> Result<(), Memory>
    ensures { OnOk result (out.new.items ≡ out.old.items ++ written_routes routes.now) }
{
    for route in routes {
        write_route_line(*route, out)?;
    }
    Ok(())
}

/// Appends the `source` and `route` lines of the machine.
///
/// # Errors
///
/// [`Memory`] if an allocation fails; part of the lines may have been appended.
pub fn write_host<A: Allocator + Copy, B: Allocator>(
    host: &Host<B>,
    out: &mut Vec<u8, A>,
) -> Result<(), Memory>
    ensures { OnOk result (out.new.items ≡ out.old.items ++ host_lines host.now) }
{
    write_sources(host.sources(), out)?;
    write_routes(host.routes(), out)
}
