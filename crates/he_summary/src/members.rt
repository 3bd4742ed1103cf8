// Numbers between words: the members of objects, and the samples of metrics.
ghost use Rattle.std.specs.Prelude.{◌≡◌, ◌++◌, OnOk};
ghost use Rattle.std.specs.List.{flat_map};
ghost use Rattle.he_summary.specs.Members.{member_text, second_text, seconds_text};

use he_addr::{Memory, write_number};
use std::alloc::Allocator;

// A number after its name.
#[derive(Clone, Copy)]
pub(crate) struct Member(pub(crate) &'static [u8], pub(crate) u64);

// Appends each number after its name.
pub(crate) fn write_members<A: Allocator + Copy>(
    members: &[Member],
    text: &mut Vec<u8, A>,
) -> Result<(), Memory>
    ensures { OnOk result (text.new.items ≡ text.old.items ++ flat_map member_text members.now) }
{
    for member in members {
        write_member(*member, text)?;
    }
    Ok(())
}

fn write_member<A: Allocator + Copy>(member: Member, text: &mut Vec<u8, A>) -> Result<(), Memory>
    ensures { OnOk result (text.new.items ≡ text.old.items ++ member_text member) }
{
    text.extend_from_slice(member.0)?;
    write_number(member.1, text)
}

// Appends each number of milliseconds, as seconds, after its name.
pub(crate) fn write_all_seconds<A: Allocator + Copy>(
    members: &[Member],
    text: &mut Vec<u8, A>,
) -> Result<(), Memory>
    ensures { OnOk result (text.new.items ≡ text.old.items ++ flat_map second_text members.now) }
{
    for member in members {
        text.extend_from_slice(member.0)?;
        write_seconds(member.1, text)?;
    }
    Ok(())
}

#[tactic(auto, unfolding(crate::specs::Members::seconds_text))]
fn write_seconds<A: Allocator + Copy>(millis: u64, text: &mut Vec<u8, A>) -> Result<(), Memory>
    ensures { OnOk result (text.new.items ≡ text.old.items ++ seconds_text millis) }
{
    write_number(millis / 1_000, text)?;
    text.extend_from_slice(b".")?;
    write_number(millis / 100 % 10, text)?;
    write_number(millis / 10 % 10, text)?;
    write_number(millis % 10, text)
}
