// The picture of a race as an SVG image.

ghost use Rattle.std.specs.Prelude.{◌≡◌, IfOk, OnOk, OnErr};
ghost use Rattle.he_print.specs.Parts.{States};
ghost use Rattle.he_draw.specs.Picture.{Prints};
ghost use Rattle.he_draw.specs.Svg.{svg_facts};

use crate::rows::collect_rows;
use crate::shapes::{push_shapes, top_of};
use he_addr::Memory;
use he_course::Course;
use he_print::{Part, push_parts, write_parts};
use he_record::Record;
use he_story::outcome_parts;
use std::alloc::Allocator;

/// Appends the picture of the race as one SVG image: its title is how the race ended, after its recorded
/// client's own result, and it has the rows of
/// [`crate::collect_rows`], each with a bar from its start to its end and these ticks, in milliseconds. Bars differ
/// by colour, and by a sign or a pattern too. After `Memory` the vector is unchanged.
pub fn write_svg<A: Allocator + Copy, B: Allocator, C: Allocator>(
    course: &Course<B>,
    recorded: &Record<'_, C>,
    out: &mut Vec<u8, A>,
) -> Result<(), Memory>
    ensures ok { OnOk result (Prints (svg_facts recorded.now course.now) out.old.items out.new.items) }
    ensures err { OnErr result (out.new.items ≡ out.old.items) }
{
    let text = svg(*out.allocator(), course, recorded)?;
    out.extend_from_slice(&text)
}

// The image in a text of its own: if memory runs out, nothing of it is appended.
#[tactic(auto, unfolding(crate::specs::Svg::svg_facts))]
fn svg<A: Allocator + Copy, B: Allocator, C: Allocator>(
    alloc: A,
    course: &Course<B>,
    recorded: &Record<'_, C>,
) -> Result<Vec<u8, A>, Memory>
    ensures { IfOk result (λ text. States (svg_facts recorded.now course.now) text.items) }
{
    let rows = collect_rows(alloc, course, recorded)?;
    let top = Part::Number(top_of(rows.len()));
    let end = Part::Number(course.end());
    let heading = outcome_parts(alloc, course, recorded)?;
    let mut parts = Vec::new(alloc);
    push_parts(&[Part::Words(OPENING), top, Part::Words(TITLE)], &mut parts)?;
    push_parts(&heading, &mut parts)?;
    push_parts(&[Part::Words(STYLE)], &mut parts)?;
    push_parts(&heading, &mut parts)?;
    push_parts(
        &[
            Part::Words(EDGES),
            top,
            Part::Words(b"M801 48V"),
            top,
            Part::Words(SCALE),
            end,
            Part::Words(b" ms</text>\n"),
        ],
        &mut parts,
    )?;
    push_shapes(course.end(), &rows, &mut parts)?;
    push_parts(&[Part::Words(b"</svg>\n")], &mut parts)?;
    let mut text = Vec::new(alloc);
    write_parts(&parts, &mut text)?;
    Ok(text)
}

const OPENING: &[u8] = b"<svg xmlns='http://www.w3.org/2000/svg' role='img' viewBox='-8 0 1056 ";

const TITLE: &[u8] = b"' font-family='monospace' font-size='12'>\n<title>";

// The colours, in a light and in a dark scheme; a wait is dotted, a pause is hatched.
const STYLE: &[u8] =
    b"</title>\n<style>\nsvg{background:#fff}\ntext{fill:#222}\ncircle{fill:#24a}\npath{stroke:#888}\n\
.wait{fill:url(#dots)}\n.pause{fill:url(#hatch)}\n.won{fill:#171}\n.failed,.silent{fill:#b22}\n.stopped{fill:#767676}\n\
@media(prefers-color-scheme:dark){svg{background:#222}text{fill:#ddd}circle{fill:#8af}.won{fill:#4c4}\
.failed,.silent{fill:#f66}}\n</style>\n\
<defs>\n\
<pattern id='dots' width='5' height='5' patternUnits='userSpaceOnUse'><circle cx='2' cy='2' r='1'/></pattern>\n\
<pattern id='hatch' width='5' height='5' patternUnits='userSpaceOnUse'><path d='M0 5L5 0'/></pattern>\n</defs>\n\
<text y='18'>";

// The two edges of the time, down to the end of the rows, and its ends.
const EDGES: &[u8] = b"</text>\n<path d='M300 48V";

const SCALE: &[u8] = b"'/>\n<text x='300' y='42'>0</text><text x='801' y='42' text-anchor='end'>";
