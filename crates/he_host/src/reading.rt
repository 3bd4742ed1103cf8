// Reads all lines of a file.

ghost use Rattle.std.specs.Prelude.{◌≡◌, ◌++◌, map, IfOk, OnOk};
ghost use Rattle.he_host.specs.Found.{found_v6_source, found_v6_route, found_v4_route, v6_source, v6_route, v4_route_read};
ghost use Rattle.he_kernel.specs.Lines.{plain};

use crate::found::{FoundRoute, FoundSource, Metered};
use crate::interface::{Interface, read_link};
use crate::ipv4_route::make_v4_route;
use crate::ipv6_route::{make_route, read_route_line};
use crate::left_out::File;
use he_addr::Memory;
use he_kernel::if_inet6::{make_source, read_address_line};
use he_kernel::ipv4_line::read_v4_line;
use he_kernel::lines::NumberedLine;
use he_kernel::why::Why;
use he_select::Source;
use std::alloc::Allocator;

/// The number of the line of `/proc/net/route` with the field names.
pub const HEADING: u64 = 1;

/// The source of a line of `/proc/net/if_inet6`, or why there is none.
#[tactic(auto, unfolding(crate::specs::Found::v6_source))]
pub fn read_v6_source(interfaces: &[Interface<'_>], line: &[u8]) -> Result<Source, Why>
    ensures { result ≡ v6_source interfaces.now line.now }
{
    let Some(read) = read_address_line(line) else {
        return Err(Why::Unclear);
    };
    make_source(read, read_link(interfaces, line, 5))
}

/// The route of a line of `/proc/net/ipv6_route`, or why there is none.
#[tactic(auto, unfolding(crate::specs::Found::v6_route))]
pub fn read_v6_route(interfaces: &[Interface<'_>], line: &[u8]) -> Result<Metered, Why>
    ensures { result ≡ v6_route interfaces.now line.now }
{
    let Some(read) = read_route_line(line) else {
        return Err(Why::Unclear);
    };
    make_route(read, read_link(interfaces, line, 9))
}

/// The route of a line of `/proc/net/route`, or why there is none.
#[tactic(auto, unfolding(crate::specs::Found::v4_route_read))]
pub fn read_v4_route(interfaces: &[Interface<'_>], number: u64, line: &[u8]) -> Result<Metered, Why>
    ensures { result ≡ v4_route_read interfaces.now number line.now }
{
    if number == HEADING {
        return Err(Why::Internal);
    }
    let Some(read) = read_v4_line(line) else {
        return Err(Why::Unclear);
    };
    make_v4_route(read, read_link(interfaces, line, 0))
}

/// The sources of the lines of `/proc/net/if_inet6`.
///
/// # Errors
///
/// [`Memory`] if an allocation fails.
pub fn find_v6_sources<A: Allocator + Copy>(
    alloc: A,
    interfaces: &[Interface<'_>],
    lines: &[NumberedLine<'_>],
) -> Result<Vec<FoundSource, A>, Memory>
    ensures { IfOk result (λ found. found.items ≡ map (found_v6_source interfaces.now) (map plain lines.now)) }
{
    let mut found = Vec::new(alloc);
    for line in lines {
        found.push(FoundSource {
            file: File::IfInet6,
            line: line.number,
            read: read_v6_source(interfaces, line.text),
        })?;
    }
    Ok(found)
}

/// Appends the routes of the lines of `/proc/net/ipv6_route`.
///
/// # Errors
///
/// [`Memory`] if an allocation fails.
pub fn find_v6_routes<A: Allocator + Copy>(
    interfaces: &[Interface<'_>],
    lines: &[NumberedLine<'_>],
    found: &mut Vec<FoundRoute, A>,
) -> Result<(), Memory>
    ensures { OnOk result (found.new.items ≡ found.old.items ++ map (found_v6_route interfaces.now)
        (map plain lines.now)) }
{
    for line in lines {
        found.push(FoundRoute {
            file: File::Ipv6Route,
            line: line.number,
            read: read_v6_route(interfaces, line.text),
        })?;
    }
    Ok(())
}

/// Appends the routes of the lines of `/proc/net/route`.
///
/// # Errors
///
/// [`Memory`] if an allocation fails.
pub fn find_v4_routes<A: Allocator + Copy>(
    interfaces: &[Interface<'_>],
    lines: &[NumberedLine<'_>],
    found: &mut Vec<FoundRoute, A>,
) -> Result<(), Memory>
    ensures { OnOk result (found.new.items ≡ found.old.items ++ map (found_v4_route interfaces.now)
        (map plain lines.now)) }
{
    for line in lines {
        found.push(FoundRoute {
            file: File::Ipv4Route,
            line: line.number,
            read: read_v4_route(interfaces, line.number, line.text),
        })?;
    }
    Ok(())
}
