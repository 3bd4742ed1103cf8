// The members with the times of a race.

ghost use Rattle.std.specs.Prelude.{◌≡◌, ◌++◌, decimal, OnOk};
ghost use Rattle.he_json.specs.Times.{times_text};

use crate::members::write_words;
use he_addr::{Memory, write_number};
use he_course::Times;
use std::alloc::Allocator;

pub(crate) fn write_times<A: Allocator + Copy>(
    times: Times,
    text: &mut Vec<u8, A>,
) -> Result<(), Memory>
    ensures { OnOk result (text.new.items ≡ text.old.items ++ times_text times) }
{
    write_millis(b",\"ms\":", times.all, text)?;
    write_millis(b",\"names_ms\":", times.names, text)?;
    write_millis(b",\"lost_ms\":", times.lost, text)?;
    write_millis(b",\"unknown_ms\":", times.unknown, text)?;
    write_millis(b",\"machine_ms\":", times.machine, text)?;
    write_millis(b",\"connecting_ms\":", times.connecting, text)
}

fn write_millis<A: Allocator + Copy>(
    name: &[u8],
    millis: u64,
    text: &mut Vec<u8, A>,
) -> Result<(), Memory>
    ensures { OnOk result (text.new.items ≡ text.old.items ++ (name.now ++ decimal millis)) }
{
    write_words(name, text)?;
    write_number(millis, text)
}
