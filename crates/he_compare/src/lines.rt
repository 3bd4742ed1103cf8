//! The races of a comparison, line by line.
ghost use Rattle.std.specs.Prelude.{◌≡◌, ◌++◌, [], ◌∷◌, OnOk};
ghost use Rattle.std.specs.List.{flat_map};
ghost use Rattle.he_print.specs.Parts.{fact_of};
ghost use Rattle.he_print.specs.declared.part.Fact.TheVariants as facts;
ghost use Rattle.he_compare.specs.declared.lines.Told.TheVariants.{Won};
ghost use Rattle.he_summary.specs.Written.{Tells};
ghost use Rattle.he_compare.specs.Lines.{AreLines, ending_facts, exhausted_said, line_facts};
ghost use Rattle.he_compare.specs.declared.verdict.Finish.TheVariants.{NotWon};

use crate::verdict::{Finish, Verdict, own_after};
use he_addr::{Family, Ip, Memory};
use he_print::{Part, push_parts, write_parts};
use he_summary::{Form, name_of, place_parts, write_name};
use he_totals::{Ending, Kept};
use std::alloc::Allocator;

/// The meaning of a word of a line.
#[derive(Clone, Copy, Debug, PartialEq, Eq)]
pub enum Told {
    Won,
    /// All addresses failed.
    Exhausted,
    /// There was no address to try.
    NoAddress,
    Limit,
    Is(Verdict),
}

/// Appends a line for each race with the settings of each row: how it ends, and the verdict. `names` has the names of
/// the files by place, and those of the settings by row; a missing one is `-`. In text a terminal may show them.
///
/// # Errors
///
/// `Memory` if an allocation was refused. A first part of the lines may then have been appended.
pub fn write_lines<A: Allocator + Copy>(
    alloc: A,
    form: Form,
    kept: &[Kept],
    names: (&[String], &[String]),
    text: &mut Vec<u8, A>,
) -> Result<(), Memory>
    ensures { OnOk result (AreLines form NotWon kept.now text.old.items text.new.items) }
{
    let (files, settings) = names;
    let (begin, before, end): (&[u8], &[u8], &[u8]) = match form {
        Form::Text => (b"", b" (", b")\n"),
        Form::Json | Form::Metrics => (b"{\"file\":", b",\"settings\":", b"}\n"),
    };
    let mut own = Finish::NotWon;
    for race in kept {
        own = own_after(own, race);
        write_name(form, begin, name_of(race.place.file, files), b"", text)?;
        write_line(alloc, form, race, own, text)?;
        write_name(form, before, name_of(race.row, settings), end, text)?;
    }
    Ok(())
}

fn write_line<A: Allocator + Copy>(
    alloc: A,
    form: Form,
    race: &Kept,
    own: Finish,
    text: &mut Vec<u8, A>,
) -> Result<(), Memory>
    ensures { OnOk result (Tells (line_facts form own race.now) text.old.items text.new.items) }
{
    let mut parts = Vec::new(alloc);
    push_line(form, race, own, &mut parts)?;
    write_parts(parts.as_slice(), text)
}

fn push_line<A: Allocator>(
    form: Form,
    race: &Kept,
    own: Finish,
    text: &mut Vec<Part<Told>, A>,
) -> Result<(), Memory>
    ensures { OnOk result (flat_map fact_of text.new.items ≡ flat_map fact_of text.old.items
        ++ line_facts form own race.now) }
{
    let verdict = Verdict::of(own, Finish::of(race));
    push_parts(&place_parts(form, race.place), text)?;
    push_ending(form, race, text)?;
    push_parts(
        &[Part::Says(Told::Is(verdict), verdict_words(form, verdict))],
        text,
    )
}

fn push_ending<A: Allocator>(
    form: Form,
    race: &Kept,
    text: &mut Vec<Part<Told>, A>,
) -> Result<(), Memory>
    ensures { OnOk result (flat_map fact_of text.new.items ≡ flat_map fact_of text.old.items
        ++ ending_facts race.now.attempts race.now.ending) }
{
    match race.ending {
        Ending::Won(Some(ip), tick) => push_won(form, ip, tick, text),
        Ending::Won(None, tick) => push_end(form, Told::Won, tick, text),
        Ending::Exhausted(tick) => push_end(form, exhausted_said(race.attempts), tick, text),
        Ending::Limit(tick) => push_end(form, Told::Limit, tick, text),
    }
}

// Why nothing was left to try, by the number of attempts.
fn exhausted_said(attempts: usize) -> Told
    ensures { result ≡ exhausted_said attempts }
{
    if attempts == 0 {
        Told::NoAddress
    } else {
        Told::Exhausted
    }
}

fn push_won<A: Allocator>(
    form: Form,
    ip: Ip,
    tick: u64,
    text: &mut Vec<Part<Told>, A>,
) -> Result<(), Memory>
    ensures { OnOk result (flat_map fact_of text.new.items ≡ flat_map fact_of text.old.items
        ++ facts.Said Won ∷ facts.Ip ip ∷ facts.Number tick ∷ []) }
{
    let words: [&'static [u8]; 3] = match (form, ip.family()) {
        (Form::Text, Family::V6) => [b": connected by IPv6 (", b") in ", b" ms"],
        (Form::Text, Family::V4) => [b": connected by IPv4 (", b") in ", b" ms"],
        (Form::Json | Form::Metrics, _) => [
            b",\"ended\":\"won\",\"address\":\"",
            b"\",\"ms\":",
            b"",
        ],
    };
    push_parts(
        &[
            Part::Says(Told::Won, words[0]),
            Part::Ip(ip),
            Part::Words(words[1]),
            Part::Number(tick),
            Part::Words(words[2]),
        ],
        text,
    )
}

fn push_end<A: Allocator>(
    form: Form,
    said: Told,
    tick: u64,
    text: &mut Vec<Part<Told>, A>,
) -> Result<(), Memory>
    ensures { OnOk result (flat_map fact_of text.new.items ≡ flat_map fact_of text.old.items
        ++ facts.Said said ∷ facts.Number tick ∷ []) }
{
    let (before, after): (&'static [u8], &'static [u8]) = match (form, said) {
        (Form::Text, Told::Won) => (b": connected in ", b" ms"),
        (Form::Text, Told::Exhausted) => (b": not connected: all addresses failed in ", b" ms"),
        (Form::Text, Told::NoAddress) => (b": not connected: no address to try in ", b" ms"),
        (Form::Text, _) => (b": not connected: timed out after ", b" ms"),
        (_, Told::Won) => (b",\"ended\":\"won\",\"ms\":", b""),
        (_, Told::Exhausted) | (_, Told::NoAddress) => {
            (b",\"ended\":\"exhausted\",\"ms\":", b"")
        }
        (_, _) => (b",\"ended\":\"limit\",\"ms\":", b""),
    };
    push_parts(
        &[
            Part::Says(said, before),
            Part::Number(tick),
            Part::Words(after),
        ],
        text,
    )
}

fn verdict_words(form: Form, verdict: Verdict) -> &'static [u8] {
    match (form, verdict) {
        (Form::Text, Verdict::Sooner) => b", sooner",
        (Form::Text, Verdict::Later) => b", later",
        (Form::Text, Verdict::Same) => b", the same",
        (Form::Text, Verdict::OnlyWith) => b", connected only with",
        (Form::Text, Verdict::OnlyWithout) => b", connected only without",
        (Form::Text, Verdict::Neither) => b", connected in neither case",
        (Form::Text, Verdict::Unknown) => b", unknown",
        (_, Verdict::Sooner) => b",\"verdict\":\"sooner\"",
        (_, Verdict::Later) => b",\"verdict\":\"later\"",
        (_, Verdict::Same) => b",\"verdict\":\"same\"",
        (_, Verdict::OnlyWith) => b",\"verdict\":\"only with\"",
        (_, Verdict::OnlyWithout) => b",\"verdict\":\"only without\"",
        (_, Verdict::Neither) => b",\"verdict\":\"neither\"",
        (_, Verdict::Unknown) => b",\"verdict\":\"unknown\"",
    }
}
