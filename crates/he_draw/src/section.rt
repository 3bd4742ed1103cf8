// A race's part of a page.

ghost use Rattle.std.specs.Prelude.{◌≡◌, ◌++◌, [], None, IfOk, OnOk};
ghost use Rattle.std.specs.List.{flat_map};
ghost use Rattle.he_print.specs.Parts.{States, fact_of};
ghost use Rattle.he_story.specs.Story.{Tells, name_of, race_facts};
ghost use Rattle.he_draw.specs.Picture.{Prints, told};
ghost use Rattle.he_draw.specs.Page.{WritesSection, anchor_facts, index_facts, opening_facts, page_row_facts, section_facts, track_facts};

use crate::escaping::write_escaped;
use crate::rows::{Row, What, collect_rows};
use crate::words::{class_of, label, push_words};
use he_addr::Memory;
use he_course::Course;
use he_plan::Outcome3;
use he_print::{Part, push_parts, write_parts};
use he_record::Record;
use he_story::{Said, heading_parts, write_story};
use std::alloc::Allocator;

/// Appends the race to a page: the heading of its story, its rows, with bars on one scale or on its own, and its
/// story, folded. `file` is the place of its text among those of the page, counted from 0: the race's anchor is
/// `race-7`, or, from the second text on, `race-7-of-2`. The heading has the name of the text, if it has one. After
/// `Memory` the vector holds a first part of it too.
pub fn write_section<A: Allocator + Copy, B: Allocator, C: Allocator>(
    course: &Course<B>,
    recorded: &Record<'_, C>,
    file: usize,
    name: Option<&str>,
    text: &mut Vec<u8, A>,
) -> Result<(), Memory>
    ensures { OnOk result (WritesSection recorded.now course.now file (name_of name.entry) text.old.items
        text.new.items) }
{
    let alloc = *text.allocator();
    write_links(alloc, course, file, text)?;
    let heading = heading(alloc, name, course, recorded)?;
    write_escaped(&heading, text)?;
    write_rows(alloc, course, recorded, text)?;
    let story = story(alloc, course, recorded)?;
    write_escaped(&story, text)?;
    text.extend_from_slice(b"</pre></details></section>\n")?;
    Ok(())
}

fn heading<A: Allocator + Copy, B: Allocator, C: Allocator>(
    alloc: A,
    name: Option<&str>,
    course: &Course<B>,
    recorded: &Record<'_, C>,
) -> Result<Vec<u8, A>, Memory>
    ensures { IfOk result (λ heading. States (race_facts recorded.now (name_of name.entry) course.now)
        heading.items) }
{
    let parts = heading_parts(alloc, name, course, recorded)?;
    let mut heading = Vec::new(alloc);
    write_parts(&parts, &mut heading)?;
    Ok(heading)
}

fn story<A: Allocator + Copy, B: Allocator, C: Allocator>(
    alloc: A,
    course: &Course<B>,
    recorded: &Record<'_, C>,
) -> Result<Vec<u8, A>, Memory>
    ensures { IfOk result (λ story. Tells recorded.now None course.now [] story.items) }
{
    let mut story = Vec::new(alloc);
    write_story(alloc, None, course, recorded, &mut story)?;
    Ok(story)
}

// The links before the heading.
fn write_links<A: Allocator + Copy, B: Allocator>(
    alloc: A,
    course: &Course<B>,
    file: usize,
    text: &mut Vec<u8, A>,
) -> Result<(), Memory>
    ensures { OnOk result (Prints (opening_facts course.now file) text.old.items text.new.items) }
{
    let mut parts = Vec::new(alloc);
    push_opening(course, file, &mut parts)?;
    write_parts(&parts, text)
}

// The rows after the heading.
fn write_rows<A: Allocator + Copy, B: Allocator, C: Allocator>(
    alloc: A,
    course: &Course<B>,
    recorded: &Record<'_, C>,
    text: &mut Vec<u8, A>,
) -> Result<(), Memory>
    ensures { OnOk result (Prints (section_facts recorded.now course.now) text.old.items text.new.items) }
{
    let parts = row_parts(alloc, course, recorded)?;
    write_parts(&parts, text)
}

#[tactic(auto, unfolding(crate::specs::Page::section_facts))]
fn row_parts<A: Allocator + Copy, B: Allocator, C: Allocator>(
    alloc: A,
    course: &Course<B>,
    recorded: &Record<'_, C>,
) -> Result<Vec<Part<Said>, A>, Memory>
    ensures { IfOk result (λ parts. told parts.items ≡ section_facts recorded.now course.now) }
{
    let rows = collect_rows(alloc, course, recorded)?;
    let mut parts = Vec::new(alloc);
    push_parts(&[Part::Words(b"</small></h3>\n")], &mut parts)?;
    push_rows(course.end(), &rows, &mut parts)?;
    push_parts(
        &[Part::Words(b"<details><summary>why</summary><pre>")],
        &mut parts,
    )?;
    Ok(parts)
}

// The link to the section in the index, and the section's heading, with a link to itself.
fn push_opening<A: Allocator, B: Allocator>(
    course: &Course<B>,
    file: usize,
    parts: &mut Vec<Part<Said>, A>,
) -> Result<(), Memory>
    ensures { OnOk result (told parts.new.items ≡ told parts.old.items ++ opening_facts course.now file) }
{
    let number = course.number;
    let end = Part::Number(course.end());
    push_index(course, file, parts)?;
    push_anchor(section_words(course), file, number, parts)?;
    push_parts(&[Part::Words(b"' style='--t:"), end], parts)?;
    push_anchor(b"'><h3><a href='#race-", file, number, parts)?;
    push_parts(
        &[Part::Words(b"'>"), end, Part::Words(b" ms</a> <small>")],
        parts,
    )
}

// The link to the section, with the time that the race lost.
fn push_index<A: Allocator, B: Allocator>(
    course: &Course<B>,
    file: usize,
    parts: &mut Vec<Part<Said>, A>,
) -> Result<(), Memory>
    ensures { OnOk result (told parts.new.items ≡ told parts.old.items ++ index_facts course.now file) }
{
    let (number, lost) = (course.number, course.account.lost);
    push_anchor(b"<a href='#race-", file, number, parts)?;
    push_parts(&[Part::Words(b"'>"), Part::Number(number as u64)], parts)?;
    if lost == 0 {
        return Ok(());
    }
    push_parts(
        &[
            Part::Words(b" <small>"),
            Part::Number(lost),
            Part::Words(b" ms lost</small>"),
        ],
        parts,
    )
}

// The end of the link, and the beginning of the section, with the classes by which some are hidden.
fn section_words<B: Allocator>(course: &Course<B>) -> &'static [u8] {
    match (course.ended.result, course.account.lost) {
        (Outcome3::Won(_, _), 0) => b"</a><section class='connected unlost' id='race-",
        (Outcome3::Won(_, _), _) => b"</a><section class='connected' id='race-",
        (_, 0) => b"</a><section class='unlost' id='race-",
        (_, _) => b"</a><section id='race-",
    }
}

// The name of a section, after the words before it.
fn push_anchor<A: Allocator>(
    before: &'static [u8],
    file: usize,
    number: usize,
    parts: &mut Vec<Part<Said>, A>,
) -> Result<(), Memory>
    ensures { OnOk result (told parts.new.items ≡ told parts.old.items ++ anchor_facts file number) }
{
    push_parts(&[Part::Words(before), Part::Number(number as u64)], parts)?;
    if file == 0 {
        return Ok(());
    }
    push_parts(&[Part::Words(b"-of-"), Part::Place(file)], parts)
}

fn push_rows<A: Allocator>(
    end: u64,
    rows: &[Row],
    parts: &mut Vec<Part<Said>, A>,
) -> Result<(), Memory>
    ensures { OnOk result (told parts.new.items ≡ told parts.old.items ++ flat_map (page_row_facts end) rows.now) }
{
    for row in rows {
        push_row(end, *row, parts)?;
    }
    Ok(())
}

// Label, bars and words of a row.
fn push_row<A: Allocator>(end: u64, row: Row, parts: &mut Vec<Part<Said>, A>) -> Result<(), Memory>
    ensures { OnOk result (told parts.new.items ≡ told parts.old.items ++ page_row_facts end row) }
{
    push_parts(
        &[
            Part::Words(b"<div><span>"),
            label(row.what),
            Part::Words(b"</span><p>"),
        ],
        parts,
    )?;
    push_track(end, row, parts)?;
    push_parts(&[Part::Words(b"</p><small>")], parts)?;
    push_words(row, parts)?;
    push_parts(&[Part::Words(b"</small></div>\n")], parts)
}

// The bars of a row: a dot where an answer is seen, and a bar that lasts up to a tick, or to the end of the race.
fn push_track<A: Allocator>(
    end: u64,
    row: Row,
    parts: &mut Vec<Part<Said>, A>,
) -> Result<(), Memory>
    ensures { OnOk result (told parts.new.items ≡ told parts.old.items
        ++ track_facts end row.from row.to row.what) }
{
    let from = Part::Number(row.from);
    let length = Part::Number(row.to.min(end).saturating_sub(row.from));
    let dot = [
        Part::Words(b"<i class='dot' style='--s:"),
        from,
        Part::Words(CLOSING),
    ];
    match row.what {
        What::Answer(_, _) => push_parts(&dot, parts),
        What::Wait(_) => {
            push_parts(&bar(Part::Words(b"wait"), from, length), parts)?;
            push_parts(&dot, parts)
        }
        What::Missing(_) => Ok(()),
        What::Pause => push_parts(&bar(Part::Words(b"pause"), from, length), parts),
        What::Attempt(_, became) => {
            let kind = Part::Says(became, class_of(became));
            push_parts(&bar(kind, from, length), parts)
        }
    }
}

const CLOSING: &[u8] = b"'></i>";

// A bar of a kind, from a tick, of this length.
fn bar(kind: Part<Said>, from: Part<Said>, length: Part<Said>) -> [Part<Said>; 7]
    ensures { told result ≡ fact_of kind ++ (fact_of from ++ fact_of length) }
{
    [
        Part::Words(b"<i class='"),
        kind,
        Part::Words(b"' style='--s:"),
        from,
        Part::Words(b";--l:"),
        length,
        Part::Words(CLOSING),
    ]
}
