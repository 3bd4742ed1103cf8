// The picture of a race, for a terminal.

ghost use Rattle.std.specs.Prelude.{ℕ, ◌≡◌, ◌≤◌, ◌++◌, ◌∷◌, [], OnOk, OnErr, IfOk};
ghost use Rattle.he_print.specs.Parts.{States};
ghost use Rattle.he_print.specs.declared.part.Fact.TheVariants.{Number};
ghost use Rattle.he_story.specs.Story.{name_of};
ghost use Rattle.he_draw.specs.Picture.{Prints, picture_facts, told};

use crate::drawing::{blank, push_rows};
use crate::frame::{Frame, LEAST_COLUMNS, frame_of};
use crate::look::Screen;
use crate::rows::collect_rows;
use he_addr::Memory;
use he_course::Course;
use he_print::{Part, push_parts, write_parts};
use he_record::Record;
use he_story::{Said, heading_parts};
use std::alloc::Allocator;

/// Appends the picture of the race: the first line of its story, without the time that it lost; a row for each answer,
/// each pause that begins before the end, and each attempt by place, with a bar from its start to its end and these
/// ticks, in milliseconds; the scale; and an empty line. Lines are as wide as the screen, or wider if that leaves
/// fewer than ten columns for the bars. `file` is the name of the race's file for the first line, if there is one.
/// After `Memory` the vector is unchanged.
pub fn write_picture<A: Allocator + Copy, B: Allocator, C: Allocator>(
    file: Option<&str>,
    course: &Course<B>,
    recorded: &Record<'_, C>,
    screen: Screen,
    out: &mut Vec<u8, A>,
) -> Result<(), Memory>
    ensures ok { OnOk result ((columns : ℕ) × (LEAST_COLUMNS ≤ columns)
        × Prints (picture_facts columns recorded.now (name_of file.entry) course.now) out.old.items out.new.items) }
    ensures err { OnErr result (out.new.items ≡ out.old.items) }
{
    let text = picture(*out.allocator(), file, course, recorded, screen)?;
    out.extend_from_slice(&text)
}

// The picture in a text of its own: if memory runs out, nothing of it is appended.
#[tactic(auto, unfolding(crate::specs::Picture::picture_facts))]
fn picture<A: Allocator + Copy, B: Allocator, C: Allocator>(
    alloc: A,
    file: Option<&str>,
    course: &Course<B>,
    recorded: &Record<'_, C>,
    screen: Screen,
) -> Result<Vec<u8, A>, Memory>
    ensures { IfOk result (λ text. (columns : ℕ) × (LEAST_COLUMNS ≤ columns)
        × States (picture_facts columns recorded.now (name_of file.entry) course.now) text.items) }
{
    let rows = collect_rows(alloc, course, recorded)?;
    let (frame, labels) = frame_of(alloc, screen.look, screen.width, course.end(), &rows)?;
    let mut parts = heading_parts(alloc, file, course, recorded)?;
    push_parts(&[Part::Words(b"\n")], &mut parts)?;
    push_rows(frame, &labels, &rows, &mut parts)?;
    push_scale(frame, &mut parts)?;
    let mut text = Vec::new(alloc);
    write_parts(&parts, &mut text)?;
    Ok(text)
}

// The columns beside the greatest number below the last column: `0`, the space after it, and ` ms`.
const BESIDE_END: usize = 5;

// The scale below the rows, and an empty line.
fn push_scale<A: Allocator>(frame: Frame, parts: &mut Vec<Part<Said>, A>) -> Result<(), Memory>
    ensures { OnOk result (told parts.new.items ≡ told parts.old.items ++ Number frame.end ∷ []) }
{
    let end = Part::Aligned(frame.columns.saturating_sub(BESIDE_END), frame.end);
    push_parts(
        &[
            blank(frame.label),
            Part::Words(b"  0 "),
            end,
            Part::Words(b" ms\n\n"),
        ],
        parts,
    )
}
