// Writes orders of addresses to texts.

ghost use Rattle.std.specs.Prelude.{◌≡◌, ◌+◌, ◌≤◌, ◌++◌, length, Some, OnOk, OnErr};
ghost use Rattle.he_addr.specs.Prepending.{Prepends};
ghost use Rattle.he_write.specs.Orders.{order_text};
ghost use Rattle.he_words.specs.Appending.{AppendsText};
ghost use Rattle.he_write.specs.Writing.{origin_text, sourced_line, attributes_lines};

use crate::writing::{LINE_ROOM, write_bytes, write_line};
use he_addr::{Ip, Memory, prepend_byte, prepend_bytes, prepend_ip, prepend_number};
use he_plan::sorted_attributes;
use he_select::{DestinationAttributes, Sourced};
use he_timeline::Timeline;
use he_words::{LINE_END, TOKEN_END};
use std::alloc::Allocator;

// The maximum length of a line's end, in bytes: ` from `, the source's address and the line's end.
const ORIGIN_LEN: usize = 46;

// The lines of an order are built in a buffer, like those of attempts.

// from SOURCE, after a space, and the line's end.
fn prepend_from(source: Ip, buffer: &mut [u8], end: usize) -> usize
    requires { (ORIGIN_LEN ≤ end) × (end ≤ length buffer.old) }
    ensures written { Prepends buffer.old end buffer.new result (origin_text (Some source)) }
    ensures near { end ≤ result + ORIGIN_LEN }
{
    let line_end = prepend_byte(LINE_END, buffer, end);
    let address = prepend_ip(source, buffer, line_end);
    prepend_bytes(b" from ", buffer, address)
}

// from SOURCE or from none, after a space, and the line's end.
fn prepend_origin(source: Option<Ip>, buffer: &mut [u8], end: usize) -> usize
    requires { (ORIGIN_LEN ≤ end) × (end ≤ length buffer.old) }
    ensures written { Prepends buffer.old end buffer.new result (origin_text source) }
    ensures near { end ≤ result + ORIGIN_LEN }
{
    match source {
        Some(source) => prepend_from(source, buffer, end),
        None => prepend_bytes(b" from none\n", buffer, end),
    }
}

// N ADDRESS from SOURCE, or N ADDRESS from none
fn prepend_place(place: u64, sourced: Sourced, buffer: &mut [u8], end: usize) -> usize
    requires { (LINE_ROOM ≤ end) × (end ≤ length buffer.old) }
    ensures { Prepends buffer.old end buffer.new result (sourced_line place sourced) }
{
    let origin = prepend_origin(sourced.source, buffer, end);
    let address = prepend_ip(sourced.ip, buffer, origin);
    let space = prepend_byte(TOKEN_END, buffer, address);
    prepend_number(place, buffer, space)
}

fn write_place<A: Allocator + Copy>(
    place: usize,
    sourced: Sourced,
    out: &mut Vec<u8, A>,
) -> Result<(), Memory>
    ensures { AppendsText result out.old.items out.new.items (sourced_line place sourced) }
{
    let mut buffer = [0; LINE_ROOM];
    let start = prepend_place(place as u64, sourced, &mut buffer, LINE_ROOM);
    write_bytes(&buffer[start..], out)
}

fn write_places<A: Allocator + Copy>(
    sorted: &[DestinationAttributes],
    out: &mut Vec<u8, A>,
) -> Result<(), Memory>
    ensures { AppendsText result out.old.items out.new.items (attributes_lines 0 sorted.now) }
{
    for (place, attributes) in sorted.iter().enumerate() {
        write_place(place, attributes.sourced(), out)?;
    }
    Ok(())
}

fn write_whole<A: Allocator + Copy, B: Allocator>(
    alloc: A,
    timeline: &Timeline<B>,
    out: &mut Vec<u8, A>,
) -> Result<(), Memory>
    ensures { AppendsText result out.old.items out.new.items (order_text timeline.now) }
{
    let sorted = sorted_attributes(alloc, timeline)?;
    write_places(&sorted, out)?;
    write_line(b"end", &[], out)
}

/// Appends the order in which the race's addresses would be tried if all had come (RFC 6724 section 6): the usable
/// addresses of both answers, at whichever ticks these come, sorted and not interlaced, each as `N ADDRESS from
/// SOURCE` with N from 0, or `N ADDRESS from none` if the host can't reach it, and then `end`. On `Memory` the vector
/// is unchanged.
pub fn write_order<A: Allocator + Copy, B: Allocator>(
    alloc: A,
    timeline: &Timeline<B>,
    out: &mut Vec<u8, A>,
) -> Result<(), Memory>
    ensures ok { OnOk result (out.new.items ≡ out.old.items ++ order_text timeline.now) }
    ensures err { OnErr result (out.new.items ≡ out.old.items) }
{
    let kept = out.len();
    let written = write_whole(alloc, timeline, out);
    if written.is_err() {
        out.truncate(kept);
    }
    written
}
