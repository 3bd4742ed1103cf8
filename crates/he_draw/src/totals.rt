// The totals above all races of a page.

ghost use Rattle.std.specs.Prelude.{◌≡◌, ◌++◌, OnOk};
ghost use Rattle.he_draw.specs.Picture.{told};
ghost use Rattle.he_draw.specs.Page.{count_facts, scale_facts, times_facts, totals_facts};
ghost use Rattle.he_draw.specs.declared.totals.Counted.TheVariants.{Longest};

use he_addr::Memory;
use he_print::{Part, push_parts};
use std::alloc::Allocator;

/// Counts of the races of a page.
#[derive(Clone, Copy, Debug, PartialEq, Eq)]
pub struct Totals {
    pub races: u64,

    /// The races that an address of each family won, and those not won.
    pub by_v6: u64,
    pub by_v4: u64,
    pub not_won: u64,

    /// The times to connect of the races that were won, if any.
    pub times: Option<Times>,

    /// The tick by which 99 of 100 races end, at which their scale ends.
    pub end: u64,

    /// The tick at which the longest race ends.
    pub longest: u64,
}

/// The least milliseconds within which 50, 90 and 99 of 100 connect.
#[derive(Clone, Copy, Debug, PartialEq, Eq)]
pub struct Times {
    pub median: u64,
    pub p90: u64,
    pub p99: u64,
}

/// The meaning of a number in a page's heading.
#[derive(Clone, Copy, Debug, PartialEq, Eq)]
pub enum Counted {
    Races,
    Median,
    P90,
    P99,
    ByV6,
    ByV4,
    NotWon,
    End,
    Longest,
}

/// Totals, as the heading of a page, shown first wherever it is written.
#[tactic(auto, unfolding(crate::specs::Page::totals_facts))]
pub(crate) fn push_totals<A: Allocator>(
    totals: Totals,
    parts: &mut Vec<Part<Counted>, A>,
) -> Result<(), Memory>
    ensures { OnOk result (told parts.new.items ≡ told parts.old.items ++ totals_facts totals) }
{
    push_parts(
        &number(
            Counted::End,
            b"</article></main>\n<style>:root{--end:",
            totals.end,
        ),
        parts,
    )?;
    push_parts(
        &[Part::Words(b"}</style>\n<header><h1>Races</h1><p>")],
        parts,
    )?;
    push_parts(
        &count(Counted::Races, totals.races, b"</b> races</span>"),
        parts,
    )?;
    push_times(totals.times, parts)?;
    push_parts(
        &count(
            Counted::ByV6,
            totals.by_v6,
            b"</b> connected by IPv6</span>",
        ),
        parts,
    )?;
    push_parts(
        &count(
            Counted::ByV4,
            totals.by_v4,
            b"</b> connected by IPv4</span>",
        ),
        parts,
    )?;
    push_parts(
        &count(
            Counted::NotWon,
            totals.not_won,
            b"</b> not connected</span>",
        ),
        parts,
    )?;
    push_scale(totals, parts)
}

fn push_times<A: Allocator>(
    times: Option<Times>,
    parts: &mut Vec<Part<Counted>, A>,
) -> Result<(), Memory>
    ensures { OnOk result (told parts.new.items ≡ told parts.old.items ++ times_facts times) }
{
    let Some(times) = times else {
        return Ok(());
    };
    push_parts(
        &count(Counted::Median, times.median, b"</b> median ms</span>"),
        parts,
    )?;
    push_parts(
        &count(Counted::P90, times.p90, b"</b> p90 ms</span>"),
        parts,
    )?;
    push_parts(
        &count(Counted::P99, times.p99, b"</b> p99 ms</span>"),
        parts,
    )
}

// The end of the scale, and of the longest race where that is later.
fn push_scale<A: Allocator>(totals: Totals, parts: &mut Vec<Part<Counted>, A>) -> Result<(), Memory>
    ensures { OnOk result (told parts.new.items ≡ told parts.old.items ++ scale_facts totals) }
{
    push_parts(
        &number(
            Counted::End,
            b"</p><p class='scale'>one scale for all races: 0 to ",
            totals.end,
        ),
        parts,
    )?;
    if totals.longest != totals.end {
        push_longest(totals.longest, parts)?;
    }
    push_parts(&[Part::Words(b" ms</p></header>\n")], parts)
}

fn push_longest<A: Allocator>(longest: u64, parts: &mut Vec<Part<Counted>, A>) -> Result<(), Memory>
    ensures { OnOk result (told parts.new.items ≡ told parts.old.items ++ count_facts Longest longest) }
{
    push_parts(
        &number(
            Counted::Longest,
            b" ms, by which 99 of 100 have ended; longer bars are cut and end in dots; the longest race took ",
            longest,
        ),
        parts,
    )
}

fn count(counted: Counted, number: u64, what: &'static [u8]) -> [Part<Counted>; 3]
    ensures { told result ≡ count_facts counted number }
{
    [
        Part::Says(counted, b"<span><b>"),
        Part::Number(number),
        Part::Words(what),
    ]
}

fn number(counted: Counted, what: &'static [u8], number: u64) -> [Part<Counted>; 2]
    ensures { told result ≡ count_facts counted number }
{
    [Part::Says(counted, what), Part::Number(number)]
}
