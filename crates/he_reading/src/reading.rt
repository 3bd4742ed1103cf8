// Reading a race.

ghost use Rattle.std.specs.Prelude.{◌≡◌, ◌+◌, ◌≤◌, ◌<◌, ◌↔◌, ℕ, List, length, drop, slice_range, IfOk, IfSome, IsNone, Some, None, Ok, Err, IfErr, MatchOption, MatchResult};
ghost use Rattle.he_timeline.specs.Building.{empty_race};
ghost use Rattle.he_timeline.specs.Race.{Race};
ghost use Rattle.he_timeline.specs.Timeline.{IsRace};
ghost use Rattle.he_words.specs.declared.fault.TextKind.TheVariants as kinds;
ghost use Rattle.he_reading.specs.FaultSearch.{fault_of};
ghost use Rattle.he_reading.specs.declared.draft.LastGroup.{LastGroup};
ghost use Rattle.he_reading.specs.Left.{line_bytes, lines_left, tokens_left, HasRoom, IsAmong};
ghost use Rattle.he_reading.specs.Parts.{lines_of, tokens_of};
ghost use Rattle.he_reading.specs.Reading.{Fails, FailsAt, ReadsFirst, take_line, read_body, head_of, take_head, settle, read_head, read_lines, group_at_start, no_head};
ghost use Rattle.he_reading.specs.Text.{IsRaceText, IsLineOf, TellsFault};

use crate::draft::{LastGroup, take};
use crate::first_words::version_word;
use crate::head::Head;
use crate::lines::Lines;
use crate::parts::{TextLine, Tokens};
use he_timeline::{Timeline, TimelineBuilder};
use he_words::{TextFault, TextKind, Version, Word};
use std::alloc::Allocator;

// The word of a line and the tokens after it, if the word is of the first four groups and of the version.
#[inline(always)]
#[tactic(auto, unfolding(crate::specs::Reading::head_of))]
fn head_word(version: Version, line: TextLine<'_>) -> Option<(Word, Tokens<'_>)>
    ensures { MatchOption result (head_of version (tokens_of (line_bytes line.entry)) ≡ None)
        (λ x. head_of version (tokens_of (line_bytes line.entry)) ≡ Some (x.0, tokens_left x.1)) }
{
    match version_word(version, line) {
        Ok((word, tokens)) if word.is_head() => Some((word, tokens)),
        _ => None,
    }
}

// Takes a line of the other groups.
#[tactic(auto, unfolding(crate::specs::Reading::take_line))]
fn take_told<A: Allocator + Copy>(
    alloc: A,
    version: Version,
    line: TextLine,
    so_far: LastGroup,
    race: &mut TimelineBuilder<A>,
) -> Result<(Word, LastGroup), TextKind>
    ensures { MatchResult result
        (λ x. take_line version (tokens_of (line_bytes line.entry)) so_far race.old ≡ Ok (x.0, x.1, race.new))
        (λ kind. Fails kind (take_line version (tokens_of (line_bytes line.entry)) so_far race.old)) }
{
    let (word, tokens) = version_word(version, line)?;
    let next = so_far.admit(word)?;
    take(alloc, word, tokens, race)?;
    Ok((word, next))
}

// Takes a line of the first four groups: its word, the tokens after it, and the text after the line.
#[tactic(auto, unfolding(crate::specs::Reading::take_head))]
fn take_given<A: Allocator + Copy>(
    word: Word,
    tokens: Tokens,
    rest: &[u8],
    so_far: LastGroup,
    head: &mut Head<A>,
) -> Result<LastGroup, TextKind>
    ensures { MatchResult result
        (λ next. take_head (lines_of rest.now) (word, tokens_left tokens.entry) so_far head.old ≡ Ok (next, head.new))
        (λ kind. Fails kind (take_head (lines_of rest.now) (word, tokens_left tokens.entry) so_far head.old)) }
{
    let next = so_far.admit(word)?;
    head.take(word, tokens, rest)?;
    Ok(next)
}

// Reads the lines of the first four groups, up to the first other line.
fn read_head<A: Allocator + Copy>(
    alloc: A,
    version: Version,
    lines: &mut Lines,
) -> Result<(LastGroup, Head<A>), TextKind>
    requires { HasRoom lines.old }
    ensures count { IsAmong lines.old lines.new }
    ensures read { MatchResult result
        (λ x. read_head version lines.old.number group_at_start no_head (lines_left lines.old)
        ≡ settle version lines.new.number x.0 x.1 (lines_left lines.new))
        (λ kind. FailsAt lines.new.number kind
        (read_head version lines.old.number group_at_start no_head (lines_left lines.old))) }
    ensures room { HasRoom lines.new }
    ensures shorter { length lines.new.rest.now ≤ length lines.old.rest.now }
{
    let mut so_far = LastGroup::start();
    let mut head = Head::none(alloc);
    loop {
        let (line, rest) = lines.next_line()?;
        let Some((word, tokens)) = head_word(version, line) else {
            return Ok((so_far, head));
        };
        so_far = take_given(word, tokens, rest, so_far, &mut head)?;
        lines.pass(rest);
    }
}

// Reads the other lines, up to the end of the race, and adds each to the race.
fn read_told<A: Allocator + Copy>(
    alloc: A,
    version: Version,
    first: LastGroup,
    race: &mut TimelineBuilder<A>,
    lines: &mut Lines,
) -> Result<(), TextKind>
    requires { HasRoom lines.old }
    ensures count { IsAmong lines.old lines.new }
    ensures read { MatchResult result
        (λ _. read_body version lines.old.number first race.old (lines_left lines.old)
        ≡ Ok (race.new, lines_left lines.new))
        (λ kind. FailsAt lines.new.number kind
        (read_body version lines.old.number first race.old (lines_left lines.old))) }
    ensures shorter { length lines.new.rest.now ≤ length lines.old.rest.now }
{
    let mut so_far = first;
    loop {
        let (line, rest) = lines.next_line()?;
        let (word, next) = take_told(alloc, version, line, so_far, race)?;
        lines.pass(rest);
        if word.is_end() {
            return Ok(());
        }
        so_far = next;
    }
}

// Reads the first line, which has the version.
#[inline(always)]
fn read_header(lines: &mut Lines) -> Result<Version, TextKind>
    requires room { HasRoom lines.old }
    requires first { lines.old.number ≡ 1 }
    ensures passed { IfOk result (λ _. lines.new.number ≡ 2) }
    ensures count { IsAmong lines.old lines.new }
    ensures read { MatchResult result
        (λ version. read_lines (lines_left lines.old)
        ≡ read_head version lines.new.number group_at_start no_head (lines_left lines.new))
        (λ kind. read_lines (lines_left lines.old) ≡ Err (lines.new.number, kind)) }
    ensures room { HasRoom lines.new }
    ensures shorter { length lines.new.rest.now ≤ length lines.old.rest.now }
{
    let (line, rest) = lines.next_line()?;
    let version = Version::read(line.bytes())?;
    lines.pass(rest);
    Ok(version)
}

// Reads the race with which the text begins. If an allocation fails for the first four groups, the fault is at the
// line after them.
#[inline(always)]
fn read_whole<A: Allocator + Copy>(alloc: A, lines: &mut Lines) -> Result<Timeline<A>, TextKind>
    requires room { HasRoom lines.old }
    requires first { lines.old.number ≡ 1 }
    ensures read { MatchResult result (λ told. read_lines (lines_left lines.old) ≡ Ok (told, lines_left lines.new))
        (λ kind. FailsAt lines.new.number kind (read_lines (lines_left lines.old))) }
    ensures fits { IfOk result (λ told. IsRace told) }
    ensures passed { IfOk result (λ _. 2 ≤ lines.new.number) }
    ensures count { IsAmong lines.old lines.new }
    ensures shorter { length lines.new.rest.now ≤ length lines.old.rest.now }
{
    let version = read_header(lines)?;
    let (so_far, head) = read_head(alloc, version, lines)?;
    let scene = head.scene(alloc)?;
    let mut race = TimelineBuilder::new(alloc, scene.settings, scene.policy, scene.host);
    match read_told(alloc, version, so_far, &mut race, lines) {
        Ok(()) => Ok(race.finish()),
        Err(kind) => Err(kind),
    }
}

/// Reads the race with which the text begins: returns the race, the number of bytes after it, and the number of its
/// lines. The fault is that of [`read_race`] at the text's front; an empty text is `Unfinished` at line 1.
#[inline(always)]
pub fn read_first<A: Allocator + Copy>(
    alloc: A,
    text: &[u8],
) -> Result<(Timeline<A>, usize, u64), TextFault>
    ensures read { MatchResult result (λ x. ReadsFirst text.now x.0 x.1 x.2)
        (λ fault. FailsAt fault.line fault.kind (read_lines (lines_of text.now))) }
    ensures line { IfErr result (λ fault. IsLineOf text.now fault.line) }
    ensures fits { IfOk result (λ x. IsRace x.0) }
    ensures shorter { MatchResult result (λ x. x.1 ≤ length text.now) (λ _. Unit {0}) }
{
    let mut lines = Lines::new(text);
    match read_whole(alloc, &mut lines) {
        Ok(race) => Ok((race, lines.len(), lines.number() - 1)),
        Err(kind) => Err(TextFault {
            line: lines.number(),
            kind,
        }),
    }
}

/// Reads the race that begins at `from`: returns it and the place after it, or None exactly if the text ends at
/// `from`. A race is `race 1` or `race 2`, then lines in the order of their groups, and `end`, each with a line end.
/// If the text at `from` begins with no race, the fault is the first failed check on the first faulty line, counted
/// from 1 at `from`; or it is `Memory`, if an allocation failed at a line before which there is no fault.
pub fn read_race<A: Allocator + Copy>(
    alloc: A,
    text: &[u8],
    from: usize,
) -> Result<Option<(Timeline<A>, usize)>, TextFault>
    requires { from ≤ length text.now }

    ensures end { MatchResult result (λ found. IsNone found ↔ (from ≡ length text.now))
        (λ fault. from < length text.now) }

    // The bytes from `from` to the place are a race's text, with this value and without a fault.
    ensures found { IfOk result
        (λ found. IfSome found
        (λ x. (from < x.1) × (x.1 ≤ length text.now) × IsRaceText (slice_range text.now from x.1) x.0)) }
    ensures right { IfOk result (λ found. IfSome found (λ x. fault_of (drop from text.now) ≡ None)) }

    // If a race's text begins at `from`, it is found, with its value and its end, unless an allocation fails.
    ensures complete { (end : ℕ) (race : Race) → end ≤ length text.now
        → IsRaceText (slice_range text.now from end) race → MatchResult result (λ found. found ≡ Some (race, end))
        (λ fault. fault.kind ≡ kinds.Memory) }

    // A fault is that of the text, or `Memory` at a line before which there is no fault.
    ensures fault { IfErr result (λ fault. TellsFault fault.line fault.kind (fault_of (drop from text.now))) }
    ensures line { IfErr result (λ fault. IsLineOf (drop from text.now) fault.line) }
{
    if from == text.len() {
        return Ok(None);
    }
    let (race, left, _) = read_first(alloc, &text[from..])?;
    Ok(Some((race, text.len() - left)))
}
