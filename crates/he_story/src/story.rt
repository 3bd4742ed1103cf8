// The story of a race, for a person to read.

ghost use Rattle.std.specs.Prelude.{◌≡◌, ◌++◌, ◌∷◌, OnOk, OnErr};
ghost use Rattle.std.specs.List.{flat_map};
ghost use Rattle.he_print.specs.Parts.{fact_of};
ghost use Rattle.he_print.specs.declared.part.Fact.TheVariants as facts;
ghost use Rattle.he_story.specs.Lines.{told};
ghost use Rattle.he_story.specs.Story.{Tells, name_of, story_facts};

use he_addr::Memory;
use he_course::Course;
use he_print::{Part, push_parts, write_parts};
use he_record::Record;
use he_statements::Said;
use he_statements::words::{piece, words_of};
use std::alloc::Allocator;

// Room for the parts of most stories: per line, and for the other lines.
const PARTS_PER_LINE: usize = 24;

const OTHER_PARTS: usize = 64;

// The story so far.
#[derive(Drop)]
pub(crate) struct Story<A: Allocator> {
    pub(crate) parts: Vec<Part<Said>, A>,
}

impl<A: Allocator> Story<A> {
    // Appends a statement, with the parts that its words enclose.
    pub(crate) fn tell(&mut self, said: Said, parts: &[Part<Said>]) -> Result<(), Memory>
        ensures { OnOk result (told self.new ≡ told self.old ++ (facts.Said said ∷ flat_map fact_of parts.now)) }
    {
        let words = words_of(said);
        push_parts(&[Part::Says(said, piece(words, 0))], &mut self.parts)?;
        for (place, part) in parts.iter().enumerate() {
            let behind = Part::Words(piece(words, place + 1));
            push_parts(&[*part, behind], &mut self.parts)?;
        }
        Ok(())
    }
}

impl<A: Allocator + Copy> Story<A> {
    fn tell_all<B: Allocator, C: Allocator>(
        &mut self,
        alloc: A,
        file: Option<&str>,
        course: &Course<B>,
        recorded: &Record<'_, C>,
    ) -> Result<(), Memory>
        ensures { OnOk result (told self.new ≡ told self.old
            ++ story_facts recorded.now (name_of file.entry) course.now) }
    {
        self.tell_heading(alloc, file, course, recorded)?;
        self.tell_preferred(alloc, recorded, &course.addresses)?;
        self.tell_events(alloc, course, recorded)?;
        self.tell_closing(course, recorded)?;
        self.tell_sooner(course.sooner)?;
        self.tell(Said::End, &[])
    }
}

/// Appends the story of a course to `out`: a line on how the race ended, how much time it lost, and on which attempts,
/// or how long it waited for names if that is most of it; a line that names the address or the name server to check,
/// if one alone took that time; a line on where all of its time went, by its account; its
/// usable addresses in order of preference, each with its source and the reason that sorts it after the one before;
/// its events in order of ticks, each after its tick in milliseconds; then the answers that did not come, or came
/// after the end, how long an answer waited for the first attempt at one of its addresses, and how the race would have
/// ended with a floor, if earlier.
///
/// The first line has the name of the race's file, if there is one, as it is given. What the race's record says is
/// part of the story: host, port, client's address and time, in the first line; the recorded
/// client's own result, before the race's by the rules; the reason that a family has no address, or that an attempt
/// failed; the name servers that were given up; and the addresses that no client tried, whose outcome is not known.
///
/// # Errors
///
/// `Memory` if an allocation was refused. The vector is then unchanged.
pub fn write_story<A: Allocator + Copy, B: Allocator, C: Allocator>(
    alloc: A,
    file: Option<&str>,
    course: &Course<B>,
    recorded: &Record<'_, C>,
    out: &mut Vec<u8, A>,
) -> Result<(), Memory>
    ensures ok { OnOk result (Tells recorded.now (name_of file.entry) course.now out.old.items out.new.items) }
    ensures err { OnErr result (out.new.items ≡ out.old.items) }
{
    let lines = course.addresses.len().saturating_add(course.events.len());
    let room = lines.saturating_mul(PARTS_PER_LINE);
    let parts = Vec::with_capacity(alloc, room.saturating_add(OTHER_PARTS))?;
    let mut story = Story { parts };
    story.tell_all(alloc, file, course, recorded)?;
    let mut text = Vec::new(alloc);
    write_parts(&story.parts, &mut text)?;
    out.extend_from_slice(&text)
}
