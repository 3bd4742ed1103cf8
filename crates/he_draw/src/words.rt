// The words of a row.

ghost use Rattle.std.specs.Prelude.{◌≡◌, ◌++◌, ◌∷◌, [], OnOk};
ghost use Rattle.he_print.specs.Parts.{fact_of};
ghost use Rattle.he_draw.specs.Picture.{label_fact, told, words_facts};

use crate::rows::{Row, What};
use he_addr::{Family, Memory};
use he_print::{Part, push_parts};
use he_story::{Said, end_word};
use std::alloc::Allocator;

/// The subject of a row.
pub(crate) fn label(what: What) -> Part<Said>
    ensures { fact_of result ≡ label_fact what ∷ [] }
{
    match what {
        What::Answer(family, _) | What::Missing(family) => {
            Part::Says(Said::Answered(family), answer_words(family))
        }
        What::Wait(_) => Part::Says(Said::Answered(Family::V4), answer_words(Family::V4)),
        What::Pause => Part::Says(Said::Paused, b"pause"),
        What::Attempt(ip, _) => Part::Ip(ip),
    }
}

fn answer_words(family: Family) -> &'static [u8] {
    match family {
        Family::V6 => b"AAAA answer",
        Family::V4 => b"A answer",
    }
}

/// The class of an attempt by its end, in style sheets.
pub(crate) fn class_of(end: Said) -> &'static [u8] {
    match end {
        Said::Won => b"won",
        Said::Failed => b"failed",
        Said::Silent => b"silent",
        _ => b"stopped",
    }
}

/// The ticks of a row, and the event or state at them.
pub(crate) fn push_words<A: Allocator>(
    row: Row,
    parts: &mut Vec<Part<Said>, A>,
) -> Result<(), Memory>
    ensures { OnOk result (told parts.new.items ≡ told parts.old.items ++ words_facts row.from row.to row.what) }
{
    let from = Part::Number(row.from);
    let to = Part::Number(row.to);
    let between = Part::Words(b"-");
    match row.what {
        What::Answer(_, usable) => {
            let usable = Part::Number(usable as u64);
            let words = Part::Says(Said::ToTry, b" usable");
            push_parts(&[from, Part::Words(b" ms, "), usable, words], parts)
        }
        What::Wait(usable) => {
            let wait = Part::Says(Said::Waits, b" ms wait, ");
            let usable = Part::Number(usable as u64);
            let words = Part::Says(Said::ToTry, b" usable");
            push_parts(&[from, between, to, wait, usable, words], parts)
        }
        What::Missing(family) => {
            push_parts(
                &[Part::Says(Said::NoAnswer(family), b"none by the end")],
                parts,
            )
        }
        What::Pause => push_parts(&[from, between, to, Part::Words(b" ms")], parts),
        What::Attempt(_, became) => {
            let became = Part::Says(became, end_word(became));
            push_parts(&[from, between, to, Part::Words(b" ms "), became], parts)
        }
    }
}
